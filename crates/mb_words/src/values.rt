ghost use Rattle.std.specs.Prelude.{◌≡◌, ◌≤◌, IfOk, IfSome, max, unwrap_or, map, option_map};
ghost use Rattle.std.specs.List.{list_all};
ghost use Rattle.clap.specs.Words.{all_of, first_of, found_of, rows_of};
ghost use Rattle.mb_words.specs.Values.{are_servers, are_within, is_server, is_within, number_given};

use crate::number_of;
use crate::paths::is_server;
use clap::ArgMatches;
use mb_base::Bytes;
use mb_program::Texts;
use std::alloc::{AllocError, Global};

/// The text of an option, if it is given.
pub(crate) fn text<'a>(matches: &ArgMatches<'a>, name: &str) -> Option<&'a str>
    ensures { option_map (λ text. text.now) result ≡ first_of name.now (rows_of (found_of matches.now)) }
{
    matches.get_str(name)
}

/// The texts behind the options, if there are any.
pub(crate) fn texts<'m, 'a>(matches: &'m ArgMatches<'a>, name: &str) -> Option<&'m [&'a str]>
    ensures { option_map (λ texts. map (λ text. text.now) texts.now) result ≡ all_of name.now (rows_of (found_of matches.now)) }
{
    matches.get_raw(name)
}

/// The number of an option from `least` to `greatest`, and `default` where it is not given. `None` where its text is
/// no such number, or it is not given and has no default.
pub(crate) fn number(
    matches: &ArgMatches<'_>,
    name: &str,
    least: u64,
    greatest: u64,
    default: Option<u64>,
) -> Option<u64>
    ensures value { result ≡ number_given name.now least greatest default (rows_of (found_of matches.now)) }
    ensures most { IfSome result (λ number. number ≤ max greatest (unwrap_or default 0)) }
{
    match text(matches, name) {
        Some(text) => number_of(text, least, greatest),
        None => default,
    }
}

/// Whether there are `fewest` to 4,294,967,295 texts, and each has 1 to `longest` bytes.
pub(crate) fn are_within(texts: &[&str], fewest: usize, longest: usize) -> bool
    ensures { result ≡ are_within fewest longest (map (λ text. text.now) texts.now) }
{
    fewest <= texts.len() && texts.len() <= 4_294_967_295 && are_all_within(texts, longest)
}

/// Whether each text has 1 to `longest` bytes.
fn are_all_within(texts: &[&str], longest: usize) -> bool
    ensures { result ≡ list_all (is_within longest) (map (λ text. text.now) texts.now) }
{
    for text in texts {
        if !is_within(text, longest) {
            return false;
        }
    }
    true
}

/// Whether there are at most 4,294,967,295 texts, and each may name a repair server.
pub(crate) fn are_servers(texts: &[&str]) -> bool
    ensures { result ≡ are_servers (map (λ text. text.now) texts.now) }
{
    texts.len() <= 4_294_967_295 && are_all_servers(texts)
}

fn are_all_servers(texts: &[&str]) -> bool
    ensures { result ≡ list_all is_server (map (λ text. text.now) texts.now) }
{
    for text in texts {
        if !is_server(text) {
            return false;
        }
    }
    true
}

/// Whether a text has 1 to `longest` bytes.
#[tactic(auto, unfolding(crate::specs::Values::is_within))]
fn is_within(text: &str, longest: usize) -> bool
    ensures { result ≡ is_within longest text.now }
{
    1 <= text.len() && text.len() <= longest
}

/// A text as bytes of its own.
pub(crate) fn owned(alloc: Global, text: &str) -> Result<Bytes, AllocError>
    ensures { IfOk result (λ bytes. bytes ≡ text.now) }
{
    let bytes = text.as_bytes().to_vec(alloc)?;
    Ok(Bytes::from_vec(bytes))
}

/// A text as bytes of its own, where there is one.
pub(crate) fn owned_if(alloc: Global, text: Option<&str>) -> Result<Option<Bytes>, AllocError>
    ensures { IfOk result (λ bytes. bytes ≡ option_map (λ text. text.now) text.entry) }
{
    match text {
        Some(text) => Ok(Some(owned(alloc, text)?)),
        None => Ok(None),
    }
}

/// Texts as bytes of their own.
pub(crate) fn owned_texts(alloc: Global, texts: &[&str]) -> Result<Texts, AllocError>
    ensures { IfOk result (λ owned. owned ≡ map (λ text. text.now) texts.now) }
{
    let mut items = Vec::new(alloc);
    for text in texts {
        items.push(owned(alloc, text)?)?;
    }
    Ok(Texts::from_vec(items))
}
