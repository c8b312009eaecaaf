ghost use Rattle.std.specs.Prelude.{◌≡◌, ℕ, ◌+◌, ◌*◌, ◌/◌, ◌<◌, ◌≤◌, ◌^◌, false, length, slice_index, IfSome, IfNone};
ghost use Rattle.mb_linear.specs.Row.{row_sum};
ghost use Rattle.mb_bits.specs.BitRow.{bit_in, row_of, Flips, IsFirst};

/// The bits of a word.
const WORD: usize = 64;

/// How many words hold a row of so many places.
pub fn words_for(places: usize) -> usize
    requires { places + 63 < 2 ^ 64 }
    ensures { result ≡ (places + 63) / 64 }
{
    (places + (WORD - 1)) / WORD
}

/// Whether a place of the row is set.
pub fn has_bit(words: &[u64], place: usize) -> bool
    requires { place < 64 * length words.now }
    ensures { result ≡ bit_in words.now place }
{
    words[place / WORD] >> (place % WORD) & 1 == 1
}

/// Sets a place that is not set, and clears one that is.
pub fn flip_bit(words: &mut [u64], place: usize)
    requires { place < 64 * length words.old }
    ensures { Flips place words.old words.new }
{
    words[place / WORD] ^= 1 << (place % WORD);
}

/// Adds a row to another one, from a word on: the words of `row` before it have no place set.
pub fn add_row(sum: &mut [u64], row: &[u64], first_word: usize)
    requires same { length row.now ≡ length sum.old }
    requires none_before { (i : ℕ) → i < first_word → slice_index row.now i ≡ 0 }
    ensures sum { (n : ℕ) → row_of n sum.new ≡ row_sum (row_of n sum.old) (row_of n row.now) }
    ensures words { length sum.new ≡ length sum.old }
{
    for i in first_word..row.len() {
        sum[i] ^= row[i];
    }
}

/// The first place that is set, or `None` where none is.
pub fn first_bit(words: &[u64]) -> Option<usize>
    requires { 64 * length words.now < 2 ^ 64 }
    ensures first { IfSome result (λ place. IsFirst words.now place) }
    ensures words { IfSome result (λ place. (k : ℕ) → k < place / 64 → slice_index words.now k ≡ 0) }
    ensures none { IfNone result ((i : ℕ) → bit_in words.now i ≡ false) }
{
    for i in 0..words.len() {
        if words[i] != 0 {
            return Some(WORD * i + words[i].trailing_zeros() as usize);
        }
    }
    None
}
