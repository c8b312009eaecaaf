ghost use Rattle.std.specs.Prelude.{◌≡◌, ℕ, ◌+◌, ◌*◌, ◌/◌, ◌^◌, ◌<◌, ◌≤◌, true, false, List, length, map, slice_index};
ghost use Rattle.mb_linear.specs.Span.{AreIndependent};
ghost use Rattle.mb_bits.specs.BitRow.{bit_in};
ghost use Rattle.mb_elim.specs.Values.{byte_at, byte_sum, AreSums, AreUnknowns};
ghost use Rattle.mb_encoder.specs.Symbols.{symbols_of};
ghost use Rattle.mb_rows.specs.Determined.{DetermineBlock};
ghost use Rattle.mb_rows.specs.Folding.{folded_row};
ghost use Rattle.mb_encoder.specs.Solutions as solution;
ghost use Rattle.mb_decoder.specs.Block as block;
ghost use Rattle.mb_decoder.specs.Kept as kept;
ghost use Rattle.mb_decoder.specs.Sources.{AreSources, AreCopied};

use crate::row::{ROW_WORDS, are_set, room};
use mb_bits::{flip_bit, has_bit, words_for};
use mb_elim::Elim;
use mb_encoder::put_sum;
use mb_rows::Code;

/// Copies the source symbols among those that are kept, and notes which they are.
fn copy_heard(esis: &[u16], symbols: &[u8], t: usize, k: u16, heard: &mut [u64], out: &mut [u8])
    requires esis { length esis.now ≡ k }
    requires symbols { length symbols.now ≡ t * k }
    requires words { k ≤ 64 * length heard.old }
    requires none { (i : ℕ) → bit_in heard.old i ≡ false }
    requires out { length out.old ≡ t * k }
    ensures copied { AreCopied t k k esis.now symbols.now heard.new out.new }
    ensures words { length heard.new ≡ length heard.old }
    ensures count { length out.new ≡ length out.old }
    ensures bytes { (j : ℕ) → slice_index symbols.now j < 2 ^ 8 }
{
    for n in 0..usize::from(k) {
        let esi = usize::from(esis[n]);
        if esi < usize::from(k) && !has_bit(heard, esi) {
            flip_bit(heard, esi);
            let from = t * n;
            let into = t * esi;
            out[into..into + t].copy_from_slice(&symbols[from..from + t]);
        }
    }
}

/// Copies the source symbols among K symbols that are kept, none of which follows from the others, and says whether
/// they are all.
pub(crate) fn copy_sources(
    code: &Code,
    esis: &[u16],
    symbols: &[u8],
    t: usize,
    out: &mut [u8],
) -> bool
    requires esis { length esis.now ≡ code.now.row.k }
    requires symbols { length symbols.now ≡ t * code.now.row.k }
    requires new { AreIndependent code.now.row.k (map (folded_row code.now) (solution.esis (kept.pairs_in t esis.now symbols.now code.now.row.k))) }
    requires out { length out.old ≡ t * code.now.row.k }
    ensures sources { result ≡ true → AreSources code.now t (kept.pairs_in t esis.now symbols.now code.now.row.k) out.new }
    ensures count { length out.new ≡ length out.old }
{
    let k = code.k();
    let mut heard = room::<ROW_WORDS>();
    copy_heard(esis, symbols, t, k, &mut heard, out);
    are_set(&heard, usize::from(k))
}

/// Puts the source symbols that were not heard, each the sum of the first K intermediate symbols over its folded row.
fn put_others(code: &Code, symbols: &[u8], t: usize, heard: &[u64], row: &mut [u64], out: &mut [u8])
    requires symbols { length symbols.now ≡ t * code.now.row.k }
    requires words { code.now.row.k ≤ 64 * length heard.now }
    requires row { length row.old ≡ (code.now.row.k + 63) / 64 }
    requires out { length out.old ≡ t * code.now.row.k }
    ensures others { (esi b : ℕ) → esi < code.now.row.k → bit_in heard.now esi ≡ false → b < t →
        byte_at t out.new esi b ≡ byte_sum b (folded_row code.now esi) (symbols_of t code.now.row.k symbols.now) }
    ensures copied { (esi b : ℕ) → esi < code.now.row.k → bit_in heard.now esi ≡ true → b < t → byte_at t out.new esi b ≡ byte_at t out.old esi b }
    ensures count { length out.new ≡ length out.old }
{
    let k = code.k();
    for esi in 0..k {
        if !has_bit(heard, usize::from(esi)) {
            code.folded_row(esi, row);
            let at = t * usize::from(esi);
            put_sum(symbols, row, k, &mut out[at..at + t]);
        }
    }
}

/// Makes of the symbols that are kept the first K intermediate symbols.
fn replay(offered: &Elim, t: usize, symbols: &mut [u8])
    requires full { length offered.now.news ≡ offered.now.places }
    requires symbols { length symbols.old ≡ t * offered.now.places }
    ensures count { length symbols.new ≡ length symbols.old }
    ensures unknowns { (unknowns : List (List ℕ)) → length unknowns ≡ offered.now.places → AreSums t offered.now.news unknowns symbols.old → AreUnknowns t unknowns symbols.new }
    ensures bytes { (j : ℕ) → slice_index symbols.new j < 2 ^ 8 }
{
    offered.replay(symbols, t);
}

/// Puts the source symbols of a block that the symbols which are kept determine. Those that were heard are copied; the
/// others follow from the kept ones, which are replayed where they stand.
pub(crate) fn put_sources(
    code: &Code,
    offered: &Elim,
    esis: &[u16],
    t: usize,
    symbols: &mut [u8],
    out: &mut [u8],
)
    requires of { block.IsOf code.now (kept.block_in t offered.now (length offered.now.news) false esis.now symbols.old) }
    requires room { kept.AreBuffers t offered.now (length offered.now.news) false esis.now symbols.old }
    requires determined { DetermineBlock code.now (solution.esis (kept.pairs_in t esis.now symbols.old (length offered.now.news))) }
    requires out { length out.old ≡ t * offered.now.places }
    ensures sources { AreSources code.now t (kept.pairs_in t esis.now symbols.old (length offered.now.news)) out.new }
    ensures count { length out.new ≡ length out.old }
{
    let k = code.k();
    let _rank = offered.rank();
    let mut heard = room::<ROW_WORDS>();
    copy_heard(esis, symbols, t, k, &mut heard, out);
    if are_set(&heard, usize::from(k)) {
        return;
    }
    replay(offered, t, symbols);
    let mut row = room::<ROW_WORDS>();
    put_others(
        code,
        symbols,
        t,
        &heard,
        &mut row[..words_for(usize::from(k))],
        out,
    );
}
