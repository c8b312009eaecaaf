ghost use Rattle.std.specs.Prelude.{◌≡◌, [], unwrap_or, Err, IfOk, None, Some, map, option_map, string_bytes};
ghost use Rattle.clap.specs.Words.{app_of, found_of, rows_of};
ghost use Rattle.mb_words.specs.Rx.{numbers_of, path_of, rx_app, rx_values, rx_words_of, servers_of, words_with};

use crate::choices::{Mode, ReportWord, mode_of, report_of};
use crate::forms::{OptionForm, command, with_texts};
use crate::paths::is_path;
use crate::values::{are_servers, number, owned, owned_if, owned_texts, text, texts};
use clap::error::ErrorKind;
use clap::{ArgMatches, Command};
use mb_base::{Bytes, WordsFault};
use mb_program::Texts;
use std::alloc::{AllocError, Global};

/// The values of the receiver's words.
#[derive(Drop)]
pub struct RxWords {
    /// The session's TSI, below 2^48.
    pub tsi: u64,
    /// The last moment to listen, in NTP seconds, below 2^48.
    pub until: u64,
    /// Seconds from the session's end to the first moment for repair requests, at most 604,800.
    pub offset: u32,
    /// The length in seconds of the period in which the requests begin at random, at most 604,800.
    pub period: u32,
    pub mode: Mode,
    /// How often each missing block is asked for at most, 1 to 8.
    pub attempts: u32,
    /// How many threads may work on a block, 1 to 64.
    pub workers: u32,
    pub report: ReportWord,
    /// The share of reports that are sent, in percent, 0 to 100.
    pub percent: u32,
    /// The path of repair requests.
    pub path: Bytes,
    /// The name of the tables file, if one is used.
    pub tables: Option<Bytes>,
    /// The name of the trace, if it is not the standard input.
    pub trace: Option<Bytes>,
    /// The address to listen at, if there is one.
    pub listen: Option<Bytes>,
    /// The folder in which files are stored.
    pub folder: Bytes,
    /// The repair servers, each of 1 to 256 bytes 21 to 7e.
    pub servers: Texts,
}

/// The options of the receiver.
pub(crate) static FORMS: [OptionForm; 14] = [
    OptionForm {
        name: "tsi",
        is_required: true,
        values: "TSI of the session, 0 to 281474976710655",
    },
    OptionForm {
        name: "until",
        is_required: false,
        values: "last moment to listen in NTP seconds, 0 to 281474976710655, else that",
    },
    OptionForm {
        name: "offset",
        is_required: false,
        values: "seconds before requests begin, 0 to 604800, else 0",
    },
    OptionForm {
        name: "period",
        is_required: false,
        values: "seconds in which requests begin at random, 0 to 604800, else 0",
    },
    OptionForm {
        name: "mode",
        is_required: false,
        values: "symbols or ranges, else symbols",
    },
    OptionForm {
        name: "attempts",
        is_required: false,
        values: "requests for a missing block, 1 to 8, else 1",
    },
    OptionForm {
        name: "workers",
        is_required: false,
        values: "threads, 1 to 64, else 1",
    },
    OptionForm {
        name: "report",
        is_required: false,
        values: "none, rack, star or star-all, else none",
    },
    OptionForm {
        name: "percent",
        is_required: false,
        values: "share of reports in percent, 0 to 100, else 100",
    },
    OptionForm {
        name: "path",
        is_required: false,
        values: "path of repair requests, 1 to 256 bytes, else /repair",
    },
    OptionForm {
        name: "tables",
        is_required: false,
        values: "name of a tables file",
    },
    OptionForm {
        name: "trace",
        is_required: false,
        values: "name of a trace, else the standard input",
    },
    OptionForm {
        name: "listen",
        is_required: false,
        values: "address to listen at",
    },
    OptionForm {
        name: "folder",
        is_required: false,
        values: "folder for files, else .",
    },
];

/// The values of the receiver's words, without the program's own name.
///
/// `Refused` exactly where `clap` refuses the words for another cause than want of memory, or a value is outside its
/// range, and `Memory` where there is no room for the values.
pub fn rx_words(alloc: Global, words: &[String]) -> Result<RxWords, WordsFault>
    ensures read { IfOk result (λ values. rx_words_of (map string_bytes words.now) ≡ Some values) }
    ensures refused { result ≡ Err WordsFault.Refused → rx_words_of (map string_bytes words.now) ≡ None }
{
    let Ok(command) = rx_command(alloc) else {
        return Err(WordsFault::Memory);
    };
    match command.try_get_matches_from(words) {
        Ok(matches) => rx_values(alloc, &matches),
        Err(error) if error.kind() == ErrorKind::OutOfMemory => Err(WordsFault::Memory),
        Err(_) => Err(WordsFault::Refused),
    }
}

/// The command of the receiver.
pub(crate) fn rx_command<'a>(alloc: Global) -> Result<Command<'a>, AllocError>
    ensures { IfOk result (λ command. app_of command ≡ rx_app) }
{
    let command = command(alloc, "mbms_rx", FORMS.as_slice())?;
    with_texts(alloc, command, "server", false)
}

/// The values of matches.
fn rx_values(alloc: Global, matches: &ArgMatches<'_>) -> Result<RxWords, WordsFault>
    ensures read { IfOk result (λ values. rx_values (rows_of (found_of matches.now)) ≡ Some values) }
    ensures refused { result ≡ Err WordsFault.Refused → rx_values (rows_of (found_of matches.now)) ≡ None }
{
    let (Some(numbers), Some(servers), Some(path)) = (
        read_numbers(matches),
        read_servers(matches),
        read_path(matches),
    ) else {
        return Err(WordsFault::Refused);
    };
    let named = Named {
        path,
        tables: text(matches, "tables"),
        trace: text(matches, "trace"),
        listen: text(matches, "listen"),
        folder: text(matches, "folder").unwrap_or("."),
    };
    let Ok(words) = words_for(alloc, numbers, named, servers) else {
        return Err(WordsFault::Memory);
    };
    Ok(words)
}

/// The receiver's values that are numbers or names of a list.
#[derive(Clone, Copy)]
struct Numbers {
    tsi: u64,
    until: u64,
    offset: u32,
    period: u32,
    mode: Mode,
    attempts: u32,
    workers: u32,
    report: ReportWord,
    percent: u32,
}

/// The receiver's values that are texts.
#[derive(Clone, Copy)]
struct Named<'a> {
    path: &'a str,
    tables: Option<&'a str>,
    trace: Option<&'a str>,
    listen: Option<&'a str>,
    folder: &'a str,
}

#[tactic(auto, unfolding(crate::specs::Rx::numbers_of))]
fn read_numbers(matches: &ArgMatches<'_>) -> Option<Numbers>
    ensures { result ≡ numbers_of (rows_of (found_of matches.now)) }
{
    let tsi = number(matches, "tsi", 0, 281_474_976_710_655, None)?;
    let until = number(
        matches,
        "until",
        0,
        281_474_976_710_655,
        Some(281_474_976_710_655),
    )?;
    let offset = number(matches, "offset", 0, 604_800, Some(0))?;
    let period = number(matches, "period", 0, 604_800, Some(0))?;
    let mode = mode_of(text(matches, "mode").unwrap_or("symbols"))?;
    let attempts = number(matches, "attempts", 1, 8, Some(1))?;
    let workers = number(matches, "workers", 1, 64, Some(1))?;
    let report = report_of(text(matches, "report").unwrap_or("none"))?;
    let percent = number(matches, "percent", 0, 100, Some(100))?;
    Some(Numbers {
        tsi,
        until,
        offset: offset as u32,
        period: period as u32,
        mode,
        attempts: attempts as u32,
        workers: workers as u32,
        report,
        percent: percent as u32,
    })
}

/// The path of repair requests, if it is one.
#[tactic(auto, unfolding(crate::specs::Rx::path_of))]
fn read_path<'a>(matches: &ArgMatches<'a>) -> Option<&'a str>
    ensures { option_map (λ path. path.now) result ≡ path_of (rows_of (found_of matches.now)) }
{
    let path = text(matches, "path").unwrap_or("/repair");
    if is_path(path) { Some(path) } else { None }
}

/// The repair servers, none or more, if each may be one.
#[tactic(auto, unfolding(crate::specs::Rx::servers_of))]
fn read_servers<'m, 'a>(matches: &'m ArgMatches<'a>) -> Option<Option<&'m [&'a str]>>
    ensures { option_map (λ servers. unwrap_or (option_map (λ texts. map (λ text. text.now) texts.now) servers) []) result ≡ servers_of (rows_of (found_of matches.now)) }
{
    match texts(matches, "server") {
        None => Some(None),
        Some(servers) => {
            if are_servers(servers) {
                Some(Some(servers))
            } else {
                None
            }
        }
    }
}

fn words_for(
    alloc: Global,
    numbers: Numbers,
    named: Named<'_>,
    servers: Option<&[&str]>,
) -> Result<RxWords, AllocError>
    ensures { IfOk result (λ words. words ≡ words_with numbers named.entry.path.now (option_map (λ text. text.now) named.entry.tables) (option_map (λ text. text.now) named.entry.trace) (option_map (λ text. text.now) named.entry.listen) named.entry.folder.now (unwrap_or (option_map (λ texts. map (λ text. text.now) texts.now) servers.entry) [])) }
{
    let servers = match servers {
        Some(servers) => owned_texts(alloc, servers)?,
        None => Texts::from_vec(Vec::new(alloc)),
    };
    Ok(RxWords {
        tsi: numbers.tsi,
        until: numbers.until,
        offset: numbers.offset,
        period: numbers.period,
        mode: numbers.mode,
        attempts: numbers.attempts,
        workers: numbers.workers,
        report: numbers.report,
        percent: numbers.percent,
        path: owned(alloc, named.path)?,
        tables: owned_if(alloc, named.tables)?,
        trace: owned_if(alloc, named.trace)?,
        listen: owned_if(alloc, named.listen)?,
        folder: owned(alloc, named.folder)?,
        servers,
    })
}
