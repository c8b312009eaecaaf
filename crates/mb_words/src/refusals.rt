use crate::forms::OptionForm;
use crate::paths::is_server;
use crate::rx::{FORMS, rx_command, rx_words};
use crate::values::{text, texts};
use clap::error::ErrorKind;
use clap::{ArgMatches, Command};
use mb_base::{Memory, WordsFault};
use std::alloc::{AllocError, Global};

/// What a program says of words that it refuses: the text of `clap` where that refuses them, and else each option that
/// is given, with its value and what that may be. `AllocError` where there is no room for it.
pub(crate) fn refused_text<'a>(
    alloc: Global,
    command: Command<'a>,
    forms: &[OptionForm],
    words: &'a [String],
) -> Result<String, AllocError> {
    let matches = match command.try_get_matches_from(words) {
        Ok(matches) => matches,
        Err(error) => return format!(in alloc; "{error}"),
    };
    let mut text = String::from_str(alloc, "error: a value is outside its range\n")?;
    for form in forms {
        if let Some(value) = matches.get_str(form.name) {
            let line = format!(in alloc; "  --{} {value}: {}\n", form.name, form.values)?;
            text.push_str(line.as_str())?;
        }
    }
    Ok(text)
}

/// Why `rx_words` refuses words, in one line or two that end with a line feed, and `None` where it reads them. It is
/// for a person to read: no clause says what it tells.
///
/// `Memory` where there is no room for it.
pub fn rx_refusal(alloc: Global, words: &[String]) -> Result<Option<String>, Memory> {
    let command = rx_command(alloc)?;
    match command.try_get_matches_from(words) {
        Ok(matches) => value_refusal(alloc, &matches),
        Err(error) => match error.kind() {
            ErrorKind::OutOfMemory => Err(Memory),
            ErrorKind::DisplayHelp => Ok(Some(String::from_str(
                alloc,
                "error: nothing is received where help is asked for\n",
            )?)),
            _ => {
                let told = format!(in alloc; "{error}")?;
                Ok(Some(first_paragraph(alloc, told.as_str())?))
            }
        },
    }
}

/// The options of the receiver with their ranges and the values that hold where they are not given, in lines.
///
/// `Memory` where there is no room for them.
pub fn rx_options(alloc: Global) -> Result<String, Memory> {
    let mut command = rx_command(alloc)?;
    Ok(command.render_help()?)
}

/// What stands before the first empty line, since `clap` tells its usage behind that.
fn first_paragraph(alloc: Global, told: &str) -> Result<String, Memory> {
    let mut paragraph = String::new(alloc);
    for line in told.lines() {
        if line.is_empty() {
            break;
        }
        paragraph.push_str(line)?;
        paragraph.push_str("\n")?;
    }
    Ok(paragraph)
}

/// Which value is outside its range, if one is.
fn value_refusal(alloc: Global, matches: &ArgMatches<'_>) -> Result<Option<String>, Memory> {
    for form in FORMS.as_slice() {
        if let Some(refusal) = option_refusal(alloc, matches, form)? {
            return Ok(Some(refusal));
        }
    }
    server_refusal(alloc, matches)
}

/// The refusal of an option's value, if it has one. The value is refused where words are in which every other option
/// has a good value: so no range stands here a second time.
fn option_refusal(
    alloc: Global,
    matches: &ArgMatches<'_>,
    form: &OptionForm,
) -> Result<Option<String>, Memory> {
    let name = form.name;
    let Some(value) = text(matches, name) else {
        return Ok(None);
    };
    let mut words = Vec::new(alloc);
    if !form.is_required {
        words.push(String::from_str(alloc, "--tsi=0")?)?;
    }
    words.push(format!(in alloc; "--{name}={value}")?)?;
    match rx_words(alloc, words.as_slice()) {
        Ok(_) => Ok(None),
        Err(WordsFault::Memory) => Err(Memory),
        Err(WordsFault::Refused) => {
            let values = form.values;
            Ok(Some(format!(in alloc;
                "error: invalid value '{value}' for '--{name} <{name}>': {values}\n"
            )?))
        }
    }
}

/// The refusal of the first text that can't name a server, if there is one.
fn server_refusal(alloc: Global, matches: &ArgMatches<'_>) -> Result<Option<String>, Memory> {
    let Some(servers) = texts(matches, "server") else {
        return Ok(None);
    };
    for server in servers {
        if !is_server(server) {
            return Ok(Some(format!(in alloc;
                "error: invalid value '{server}' for '[server]...': 1 to 256 bytes, each of ! to ~\n"
            )?));
        }
    }
    Ok(None)
}
