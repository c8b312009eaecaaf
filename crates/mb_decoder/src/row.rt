ghost use Rattle.std.specs.Prelude.{◌≡◌, ◌↔◌, ℕ, ◌*◌, ◌<◌, ◌≤◌, true, length, slice_index};
ghost use Rattle.mb_bits.specs.BitRow.{bit_in};

use mb_bits::has_bit;

/// The most words that a row of K places has.
pub(crate) const ROW_WORDS: usize = 128;

// Room for a row. Its length is a parameter, since a proof would write a literal number of zeros out.
pub(crate) fn room<const LEN: usize>() -> [u64; LEN]
    ensures words { length result ≡ LEN }
    ensures zero { (i : ℕ) → slice_index result i ≡ 0 }
{
    [0; LEN]
}

/// Whether each of the first `count` places is set.
pub(crate) fn are_set(words: &[u64], count: usize) -> bool
    requires { count ≤ 64 * length words.now }
    ensures { result ≡ true ↔ ((place : ℕ) → place < count → bit_in words.now place ≡ true) }
{
    for place in 0..count {
        if !has_bit(words, place) {
            return false;
        }
    }
    true
}
