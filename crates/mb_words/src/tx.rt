ghost use Rattle.std.specs.Prelude.{◌≡◌, Err, IfOk, None, Some, map, option_map, string_bytes};
ghost use Rattle.clap.specs.Words.{app_of, found_of, rows_of};
ghost use Rattle.mb_words.specs.Tx.{files_of, numbers_of, tx_app, tx_values, tx_words_of, words_with};

use crate::forms::{OptionForm, command, with_texts};
use crate::refusals::refused_text;
use crate::scheme::{SchemeWord, scheme_of};
use crate::values::{are_within, number, owned, owned_texts, text, texts};
use clap::error::ErrorKind;
use clap::{ArgMatches, Command};
use mb_base::{Bytes, WordsFault};
use mb_program::Texts;
use std::alloc::{AllocError, Global};

/// The values of the sender's words.
#[derive(Drop)]
pub struct TxWords {
    pub scheme: SchemeWord,
    /// The length of a symbol in bytes, 1 to 65,000.
    pub symbol: u16,
    /// How many source symbols a block has at most, 1 to 65,536.
    pub block: u32,
    /// The number of source blocks of Raptor, 1 to 65,535.
    pub z: u16,
    /// The number of sub-blocks of Raptor, 1 to 255.
    pub n: u8,
    /// The symbol alignment of Raptor in bytes, 1 to 255.
    pub al: u8,
    /// The name of the tables file, if one is used.
    pub tables: Option<Bytes>,
    /// The session's TSI, below 2^32.
    pub tsi: u64,
    /// The moment of the first record in NTP seconds, at most 2^47.
    pub start: u64,
    /// When the FDT Instance expires, in NTP seconds, below 2^32.
    pub expires: u64,
    /// The number of the FDT Instance, below 2^20.
    pub instance: u32,
    /// How many repair symbols are sent, in percent of the source symbols, 0 to 100.
    pub percent: u32,
    /// How often everything is sent, 1 to 16.
    pub rounds: u32,
    /// How many records are sent in a second, 1 to 65,535.
    pub rate: u32,
    /// The names of the files, at least one, of 1 to 2,048 bytes each.
    pub files: Texts,
}

/// The options of the sender.
static FORMS: [OptionForm; 14] = [
    OptionForm {
        name: "scheme",
        is_required: true,
        values: "nocode or raptor",
    },
    OptionForm {
        name: "symbol",
        is_required: true,
        values: "bytes of a symbol, 1 to 65000",
    },
    OptionForm {
        name: "block",
        is_required: false,
        values: "source symbols of a block, 1 to 65536, else 64",
    },
    OptionForm {
        name: "z",
        is_required: false,
        values: "source blocks, 1 to 65535, else 1",
    },
    OptionForm {
        name: "n",
        is_required: false,
        values: "sub-blocks, 1 to 255, else 1",
    },
    OptionForm {
        name: "al",
        is_required: false,
        values: "symbol alignment in bytes, 1 to 255, else 4",
    },
    OptionForm {
        name: "tables",
        is_required: false,
        values: "name of a tables file",
    },
    OptionForm {
        name: "tsi",
        is_required: true,
        values: "TSI of the session, 0 to 4294967295",
    },
    OptionForm {
        name: "start",
        is_required: true,
        values: "first moment in NTP seconds, 0 to 140737488355328",
    },
    OptionForm {
        name: "expires",
        is_required: true,
        values: "expiry in NTP seconds, 0 to 4294967295",
    },
    OptionForm {
        name: "instance",
        is_required: false,
        values: "number of the FDT Instance, 0 to 1048575, else 1",
    },
    OptionForm {
        name: "percent",
        is_required: false,
        values: "repair symbols in percent, 0 to 100, else 0",
    },
    OptionForm {
        name: "rounds",
        is_required: false,
        values: "how often everything is sent, 1 to 16, else 1",
    },
    OptionForm {
        name: "rate",
        is_required: false,
        values: "records in a second, 1 to 65535, else 1000",
    },
];

/// The values of the sender's words, without the program's own name.
///
/// `Refused` exactly where `clap` refuses the words for another cause than want of memory, or a value is outside its
/// range, and `Memory` where there is no room for the values.
pub fn tx_words(alloc: Global, words: &[String]) -> Result<TxWords, WordsFault>
    ensures read { IfOk result (λ values. tx_words_of (map string_bytes words.now) ≡ Some values) }
    ensures refused { result ≡ Err WordsFault.Refused → tx_words_of (map string_bytes words.now) ≡ None }
{
    let Ok(command) = tx_command(alloc) else {
        return Err(WordsFault::Memory);
    };
    match command.try_get_matches_from(words) {
        Ok(matches) => tx_values(alloc, &matches),
        Err(error) if error.kind() == ErrorKind::OutOfMemory => Err(WordsFault::Memory),
        Err(_) => Err(WordsFault::Refused),
    }
}

/// What the program says of words that `tx_words` refuses: which are refused, and what they may be. Its text is not
/// promised. `AllocError` where there is no room for it.
pub fn tx_refused_text(alloc: Global, words: &[String]) -> Result<String, AllocError> {
    let command = tx_command(alloc)?;
    refused_text(alloc, command, FORMS.as_slice(), words)
}

fn tx_command<'a>(alloc: Global) -> Result<Command<'a>, AllocError>
    ensures { IfOk result (λ command. app_of command ≡ tx_app) }
{
    let command = command(alloc, "mbms_tx", FORMS.as_slice())?;
    with_texts(alloc, command, "file", true)
}

/// The values of matches.
fn tx_values(alloc: Global, matches: &ArgMatches<'_>) -> Result<TxWords, WordsFault>
    ensures read { IfOk result (λ values. tx_values (rows_of (found_of matches.now)) ≡ Some values) }
    ensures refused { result ≡ Err WordsFault.Refused → tx_values (rows_of (found_of matches.now)) ≡ None }
{
    let (Some(numbers), Some(files)) = (read_numbers(matches), read_files(matches)) else {
        return Err(WordsFault::Refused);
    };
    let Ok(words) = words_for(alloc, numbers, text(matches, "tables"), files) else {
        return Err(WordsFault::Memory);
    };
    Ok(words)
}

/// The sender's values that are numbers or names of a list.
#[derive(Clone, Copy)]
struct Numbers {
    scheme: SchemeWord,
    symbol: u16,
    block: u32,
    z: u16,
    n: u8,
    al: u8,
    tsi: u64,
    start: u64,
    expires: u64,
    instance: u32,
    percent: u32,
    rounds: u32,
    rate: u32,
}

#[tactic(auto, unfolding(crate::specs::Tx::numbers_of))]
fn read_numbers(matches: &ArgMatches<'_>) -> Option<Numbers>
    ensures { result ≡ numbers_of (rows_of (found_of matches.now)) }
{
    let scheme = scheme_of(text(matches, "scheme")?)?;
    let symbol = number(matches, "symbol", 1, 65_000, None)?;
    let block = number(matches, "block", 1, 65_536, Some(64))?;
    let z = number(matches, "z", 1, 65_535, Some(1))?;
    let n = number(matches, "n", 1, 255, Some(1))?;
    let al = number(matches, "al", 1, 255, Some(4))?;
    let tsi = number(matches, "tsi", 0, 4_294_967_295, None)?;
    let start = number(matches, "start", 0, 140_737_488_355_328, None)?;
    let expires = number(matches, "expires", 0, 4_294_967_295, None)?;
    let instance = number(matches, "instance", 0, 1_048_575, Some(1))?;
    let percent = number(matches, "percent", 0, 100, Some(0))?;
    let rounds = number(matches, "rounds", 1, 16, Some(1))?;
    let rate = number(matches, "rate", 1, 65_535, Some(1000))?;
    Some(Numbers {
        scheme,
        symbol: symbol as u16,
        block: block as u32,
        z: z as u16,
        n: n as u8,
        al: al as u8,
        tsi,
        start,
        expires,
        instance: instance as u32,
        percent: percent as u32,
        rounds: rounds as u32,
        rate: rate as u32,
    })
}

/// The names of the files, if there are 1 to 4,294,967,295 and each has 1 to 2,048 bytes.
#[tactic(auto, unfolding(crate::specs::Tx::files_of))]
fn read_files<'m, 'a>(matches: &'m ArgMatches<'a>) -> Option<&'m [&'a str]>
    ensures { option_map (λ files. map (λ file. file.now) files.now) result ≡ files_of (rows_of (found_of matches.now)) }
{
    let files = texts(matches, "file")?;
    if are_within(files, 1, 2048) {
        Some(files)
    } else {
        None
    }
}

fn words_for(
    alloc: Global,
    numbers: Numbers,
    tables: Option<&str>,
    files: &[&str],
) -> Result<TxWords, AllocError>
    ensures { IfOk result (λ words. words ≡ words_with numbers (option_map (λ text. text.now) tables.entry) (map (λ file. file.now) files.now)) }
{
    let tables = match tables {
        Some(name) => Some(owned(alloc, name)?),
        None => None,
    };
    Ok(TxWords {
        scheme: numbers.scheme,
        symbol: numbers.symbol,
        block: numbers.block,
        z: numbers.z,
        n: numbers.n,
        al: numbers.al,
        tables,
        tsi: numbers.tsi,
        start: numbers.start,
        expires: numbers.expires,
        instance: numbers.instance,
        percent: numbers.percent,
        rounds: numbers.rounds,
        rate: numbers.rate,
        files: owned_texts(alloc, files)?,
    })
}
