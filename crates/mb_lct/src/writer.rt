ghost use Rattle.std.specs.Prelude.{◌≡◌, ◌+◌, ◌*◌, ◌^◌, ◌<◌, ◌≤◌, ◌++◌, true, false, Some, ◌↔◌, IsTrue, OnOk, OnErr, vec_len, vec_capacity};
ghost use Rattle.mb_lct.specs.Written as written;
ghost use Rattle.mb_lct.specs.Written.{FitsHeader, IsWritten, lct_bytes, words_of};

use crate::field::put_number;
use crate::head::*;
use mb_base::Memory;

/// The bytes of the first word and of the CCI that is written.
const FIRST_BYTES: usize = 2 * WORD;

/// The words of a header with its first word, its CCI and a TSI of one word.
const LEAST_WORDS: u8 = 3;

/// The first TSI that needs a half word beside its word.
const TSI_WITH_HALF: u64 = 1 << 32;

/// The first TOI that needs a half word beside its three words.
const TOI_WITH_HALF: u128 = 1 << 96;

/// The first TOI that a half word does not hold.
const TOI_ABOVE_HALF: u128 = 1 << 16;

/// The first TOI that a word does not hold.
const TOI_ABOVE_WORD: u128 = 1 << 32;

/// The first TOI that a word and a half do not hold.
const TOI_ABOVE_WORD_AND_HALF: u128 = 1 << 48;

/// The first TOI that two words do not hold.
const TOI_ABOVE_TWO_WORDS: u128 = 1 << 64;

/// The first TOI that two words and a half do not hold.
const TOI_ABOVE_TWO_WORDS_AND_HALF: u128 = 1 << 80;

/// The first TSI that is too long.
const TSI_END: u64 = 1 << 48;

/// The first TOI that is too long.
const TOI_END: u128 = 1 << 112;

/// The most words of a header.
const WORDS_MAX: u8 = u8::MAX;

/// Whether a half word stands in the TSI and the TOI.
fn has_half(lct: &Lct) -> bool
    ensures { result ≡ written.has_half lct.now }
{
    lct.tsi >= TSI_WITH_HALF || lct.toi.unwrap_or(0) >= TOI_WITH_HALF
}

/// The fewest words that hold the TOI beside the half word, if there is one.
fn toi_words(half: bool, toi: Option<u128>) -> u8
    ensures exact { result ≡ written.toi_words half toi }
    ensures most { result ≤ 3 }
{
    let Some(toi) = toi else {
        return 0;
    };
    if half {
        words_beside_half(toi)
    } else {
        whole_words(toi)
    }
}

/// The fewest words that hold the TOI beside a half word.
fn words_beside_half(toi: u128) -> u8
    ensures exact { result ≡ written.toi_words true (Some toi) }
    ensures most { result ≤ 3 }
{
    if toi < TOI_ABOVE_HALF {
        0
    } else if toi < TOI_ABOVE_WORD_AND_HALF {
        1
    } else if toi < TOI_ABOVE_TWO_WORDS_AND_HALF {
        2
    } else {
        3
    }
}

/// The fewest words, at least one, that hold the TOI.
fn whole_words(toi: u128) -> u8
    ensures exact { result ≡ written.toi_words false (Some toi) }
    ensures most { result ≤ 3 }
{
    if toi < TOI_ABOVE_WORD {
        1
    } else if toi < TOI_ABOVE_TWO_WORDS {
        2
    } else {
        3
    }
}

/// How many words a header that says this is written in, without its extensions.
pub fn header_words(lct: &Lct) -> u8
    ensures exact { result ≡ words_of lct.now }
    ensures most { result ≤ 7 }
{
    let has_half = has_half(lct);
    LEAST_WORDS + toi_words(has_half, lct.toi) + u8::from(has_half)
}

/// Whether the fields fit a header that can be written with so many words of extensions: a TSI below 2^48, or
/// below 2^32 where there is no TOI, a TOI below 2^112, and at most 255 words in all.
pub fn fits_header(lct: &Lct, ext_words: u8) -> bool
    ensures { IsTrue result ↔ FitsHeader lct.now ext_words }
{
    let tsi_end = if lct.toi.is_some() {
        TSI_END
    } else {
        TSI_WITH_HALF
    };
    lct.tsi < tsi_end
        && lct.toi.unwrap_or(0) < TOI_END
        && ext_words <= WORDS_MAX - header_words(lct)
}

/// Appends the header (RFC 3451 section 5.1), to be followed by `ext_words` words of extensions: version 1,
/// C = 0 with a CCI of 0, no times, a TSI of one word, or of a word and a half where it or the TOI needs
/// that, and a TOI of the fewest words. `Memory` where there is no room for all of it; the bytes are then as
/// before.
pub fn write_lct(lct: &Lct, ext_words: u8, out: &mut Vec<u8>) -> Result<(), Memory>
    requires { FitsHeader lct.now ext_words }
    ensures appended { OnOk result (out.new.items ≡ out.old.items ++ lct_bytes lct.now ext_words) }
    ensures written { OnOk result (IsWritten lct.now ext_words (lct_bytes lct.now ext_words)) }
    ensures kept { OnErr result (out.new.items ≡ out.old.items) }
    ensures full { OnErr result (vec_capacity out.old < vec_len out.old + 4 * words_of lct.now) }
    ensures room { vec_capacity out.old ≤ vec_capacity out.new }
{
    let has_half = has_half(lct);
    let half = u8::from(has_half);
    let toi_words = toi_words(has_half, lct.toi);
    let closing = u8::from(lct.close_session) * CLOSE_SESSION_WEIGHT + u8::from(lct.close_object);
    let flags = TSI_WEIGHT + TOI_WEIGHT * toi_words + HALF_WORD_WEIGHT * half + closing;
    let words = header_words(lct) + ext_words;
    let half_bytes = HALF_WORD * usize::from(half);
    let tsi_width = WORD + half_bytes;
    let toi_width = WORD * usize::from(toi_words) + half_bytes;
    // With the room taken first, nothing after it can fail half-way.
    out.reserve(FIRST_BYTES + tsi_width + toi_width)?;
    out.extend_from_slice(&[VERSION * VERSION_WEIGHT, flags, words, lct.cp, 0, 0, 0, 0])?;
    put_number(out, tsi_width, u128::from(lct.tsi))?;
    put_number(out, toi_width, lct.toi.unwrap_or(0))?;
    Ok(())
}
