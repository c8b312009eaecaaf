ghost use Rattle.std.specs.Prelude.{◌≡◌, ◌+◌, ◌*◌, ◌^◌, ◌<◌, ◌≤◌, ◌↔◌, length, Ok, Err, IfOk, IfSome};
ghost use Rattle.mb_lct.specs.Lct as lct;
ghost use Rattle.mb_lct.specs.Header.{IsLct, IsLctFault};
ghost use Rattle.mb_lct.specs.Lct.{lct_of, head_of, version};

use crate::field::{read_toi, read_tsi};
use crate::head::*;

/// The index of the byte that has a header's length in words.
const LENGTH_AT: usize = 2;

/// The index of the codepoint.
const CODEPOINT_AT: usize = 3;

/// The offsets of a header's fields, in bytes from its start.
#[derive(Clone, Copy)]
struct Offsets {
    tsi: usize,
    toi: usize,
    times: usize,
    extensions: usize,
    end: usize,
}

/// Where the fields stand, by the first word.
fn offsets_in(bytes: &[u8]) -> Offsets
    requires { 4 ≤ length bytes.now }
    ensures tsi { result.tsi ≡ lct.tsi_at bytes.now }
    ensures toi { result.toi ≡ lct.toi_at bytes.now }
    ensures times { result.times ≡ lct.times_at bytes.now }
    ensures extensions { result.extensions ≡ lct.ext_at bytes.now }
    ensures end { result.end ≡ lct.end_at bytes.now }
{
    let flags = bytes[1];
    let half = HALF_WORD * usize::from(flags / HALF_WORD_WEIGHT % ONE_BIT);
    let tsi = WORD + WORD * (usize::from(bytes[0] / CONGESTION_WEIGHT % TWO_BITS) + 1);
    let toi = tsi + WORD * usize::from(flags / TSI_WEIGHT % ONE_BIT) + half;
    let times = toi + WORD * usize::from(flags / TOI_WEIGHT % TWO_BITS) + half;
    let current = WORD * usize::from(flags / CURRENT_TIME_WEIGHT % ONE_BIT);
    let residual = WORD * usize::from(flags / RESIDUAL_TIME_WEIGHT % ONE_BIT);
    let end = WORD * usize::from(bytes[LENGTH_AT]);
    Offsets {
        tsi,
        toi,
        times,
        extensions: times + current + residual,
        end,
    }
}

/// What the fields say, all of which are there.
fn head_at(bytes: &[u8], offsets: &Offsets) -> LctHead
    requires tsi { offsets.now.tsi ≡ lct.tsi_at bytes.now }
    requires toi { offsets.now.toi ≡ lct.toi_at bytes.now }
    requires times { offsets.now.times ≡ lct.times_at bytes.now }
    requires extensions { offsets.now.extensions ≡ lct.ext_at bytes.now }
    requires end { offsets.now.end ≡ lct.end_at bytes.now }
    requires within { offsets.now.extensions ≤ offsets.now.end }
    requires whole { offsets.now.end ≤ length bytes.now }
    ensures exact { result ≡ head_of bytes.now }
    ensures tsi { result.lct.tsi < 2 ^ 48 }
    ensures toi { IfSome result.lct.toi (λ toi. toi < 2 ^ 112) }
{
    let flags = bytes[1];
    let lct = Lct {
        tsi: read_tsi(&bytes[offsets.tsi..offsets.toi]),
        toi: read_toi(&bytes[offsets.toi..offsets.times]),
        close_session: flags / CLOSE_SESSION_WEIGHT % ONE_BIT == 1,
        close_object: flags % ONE_BIT == 1,
        cp: bytes[CODEPOINT_AT],
    };
    LctHead {
        lct,
        ext_at: offsets.extensions,
        end: offsets.end,
    }
}

/// The header by where its fields stand, or the first fault.
#[tactic(auto, unfolding(crate::specs::Lct::lct_of))]
fn header_in(bytes: &[u8]) -> Result<LctHead, LctFault>
    ensures exact { result ≡ lct_of bytes.now }
    ensures tsi { IfOk result (λ head. head.lct.tsi < 2 ^ 48) }
    ensures toi { IfOk result (λ head. IfSome head.lct.toi (λ toi. toi < 2 ^ 112)) }
    ensures extensions { IfOk result (λ head. head.ext_at ≤ head.end) }
    ensures within { IfOk result (λ head. head.end ≤ length bytes.now) }
{
    if bytes.len() < WORD {
        return Err(LctFault::Short);
    }
    let offsets = offsets_in(bytes);
    if bytes.len() < offsets.end {
        return Err(LctFault::Short);
    }
    let version = bytes[0] / VERSION_WEIGHT;
    if version != VERSION {
        return Err(LctFault::Version(version));
    }
    if offsets.end < offsets.extensions {
        return Err(LctFault::HeaderLength);
    }
    if offsets.tsi == offsets.toi {
        return Err(LctFault::NoTsi);
    }
    Ok(head_at(bytes, &offsets))
}

/// Reads the LCT header at the front of a datagram (RFC 3451 section 5.1). Its extensions are the bytes
/// from `ext_at` to `end`. The CCI, the times and the reserved bits are not read.
///
/// The faults, the first that holds:
/// - `Short`: there are fewer than four bytes, or fewer than the header has by its length field.
/// - `Version`: the version, where it is not 1.
/// - `HeaderLength`: the header ends before its fields do.
/// - `NoTsi`: the TSI has no bits.
pub fn read_lct(bytes: &[u8]) -> Result<LctHead, LctFault>
    ensures exact { result ≡ lct_of bytes.now }
    ensures found { (head : LctHead) → IsLct bytes.now head ↔ (result ≡ Ok head) }
    ensures refused { (fault : LctFault) → IsLctFault bytes.now fault ↔ (result ≡ Err fault) }
    ensures tsi { IfOk result (λ head. head.lct.tsi < 2 ^ 48) }
    ensures toi { IfOk result (λ head. IfSome head.lct.toi (λ toi. toi < 2 ^ 112)) }
    ensures extensions { IfOk result (λ head. head.ext_at ≤ head.end) }
    ensures within { IfOk result (λ head. head.end ≤ length bytes.now) }
{
    header_in(bytes)
}
