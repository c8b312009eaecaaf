ghost use Rattle.std.specs.Prelude.{◌≡◌, ℕ, ◌+◌, ◌*◌, ◌/◌, ◌^◌, ◌<◌, ◌≤◌, length, slice_index};
ghost use Rattle.mb_bits.specs.BitRow.{row_of};
ghost use Rattle.mb_elim.specs.Values.{byte_at, byte_sum};
ghost use Rattle.mb_rows.specs.Code.{l_of};
ghost use Rattle.mb_rows.specs.Constraints.{constraint_row};
ghost use Rattle.mb_encoder.specs.Symbols.{SumToZero, symbols_of};

use mb_bits::{has_bit, words_for, xor_into};
use mb_rows::Code;

/// The places of a word of a row.
const WORD: usize = 64;

// Adds the symbols at the places from `first` on to `end` that a row has set.
fn add_places(symbols: &[u8], row: &[u64], first: usize, end: usize, out: &mut [u8])
    requires order { first ≤ end }
    requires row { end ≤ 64 * length row.now }
    requires symbols { length out.old * end ≤ length symbols.now }
    ensures sum { (count b : ℕ) → end ≤ count → b < length out.old →
        slice_index out.old b ≡ byte_sum b (row_of first row.now) (symbols_of (length out.old) count symbols.now) →
        slice_index out.new b ≡ byte_sum b (row_of end row.now) (symbols_of (length out.old) count symbols.now) }
    ensures count { length out.new ≡ length out.old }
{
    let t = out.len();
    for place in first..end {
        if has_bit(row, place) {
            let at = t * place;
            xor_into(out, &symbols[at..at + t]);
        }
    }
}

/// Puts the sum of the symbols at the places that a row has set, of the first `count`. Most words of an LT row have
/// no place set.
pub fn put_sum(symbols: &[u8], row: &[u64], count: u16, out: &mut [u8])
    requires row { count ≤ 64 * length row.now }
    requires symbols { length out.old * count ≤ length symbols.now }
    ensures sum { (b : ℕ) → b < length out.old → slice_index out.new b ≡ byte_sum b (row_of count row.now) (symbols_of (length out.old) count symbols.now) }
    ensures count { length out.new ≡ length out.old }
{
    out.fill(0);
    let places = usize::from(count);
    for i in 0..words_for(places) {
        if row[i] != 0 {
            let first = WORD * i;
            add_places(symbols, row, first, places.min(first + WORD), out);
        }
    }
}

/// Puts the LDPC and half symbols behind the first K: each is what the others of its constraint sum to.
pub(crate) fn put_rest(code: &Code, t: usize, row: &mut [u64], symbols: &mut [u8])
    requires row { length row.old ≡ (l_of code.now + 63) / 64 }
    requires symbols { length symbols.old ≡ t * l_of code.now }
    ensures count { length symbols.new ≡ length symbols.old }
    ensures first { (j : ℕ) → j < t * code.now.row.k → slice_index symbols.new j ≡ slice_index symbols.old j }
    ensures bytes { (j : ℕ) → slice_index symbols.new j < 2 ^ 8 }
    ensures meet { (i : ℕ) → i < code.now.row.s + code.now.h → SumToZero t (constraint_row code.now i) (symbols_of t (l_of code.now) symbols.new) }
{
    let k = code.k();
    for m in k..code.l() {
        code.constraint(m - k, row);
        let (known, rest) = symbols.split_at_mut(t * usize::from(m));
        put_sum(known, row, m, &mut rest[..t]);
    }
}
