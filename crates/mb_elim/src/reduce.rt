ghost use Rattle.std.specs.Prelude.{true, false, ◌≡◌, ◌≢◌, ℕ, ◌+◌, ◌*◌, ◌/◌, ◌<◌, ◌≤◌, ◌^◌, length, slice_index};
ghost use Rattle.mb_linear.specs.Row.{added_if};
ghost use Rattle.mb_bits.specs.BitRow.{bit_in, row_of, row_from};
ghost use Rattle.mb_elim.specs.Kept.{row_at, left_of, added_to, BeginAtPivots, IsKept, TookNew, TookDetermined};

use mb_bits::{add_row, first_bit, flip_bit, has_bit};

/// The bits of a word.
const WORD: usize = 64;

// Makes a place of the row what it is to be.
fn set_bit(words: &mut [u64], place: usize, value: bool)
    requires { place < 64 * length words.old }
    ensures words { length words.new ≡ length words.old }
    ensures set { bit_in words.new place ≡ value }
    ensures others { (i : ℕ) → i ≢ place → bit_in words.new i ≡ bit_in words.old i }
{
    if has_bit(words, place) != value {
        flip_bit(words, place);
    }
}

// Adds a row to another one where that has the row's pivot set, and says whether it had.
fn clear_place(sum: &mut [u64], row: &[u64], pivot: usize) -> bool
    requires same { length row.now ≡ length sum.old }
    requires within { pivot < 64 * length sum.old }
    requires begins { (j : ℕ) → j < pivot / 64 → slice_index row.now j ≡ 0 }
    ensures had { result ≡ bit_in sum.old pivot }
    ensures sum { (n : ℕ) → row_of n sum.new ≡ added_if result (row_of n row.now) (row_of n sum.old) }
    ensures words { length sum.new ≡ length sum.old }
{
    let had = has_bit(sum, pivot);
    if had {
        add_row(sum, row, pivot / WORD);
    }
    had
}

// Reduces a row by each of the rows, which lie one behind the other and begin in the words of their pivots.
pub(crate) fn reduce(sum: &mut [u64], rows: &[u64], pivots: &[u16])
    requires rows { length rows.now ≡ length sum.old * length pivots.now }
    requires within { (i : ℕ) → slice_index pivots.now i < 64 * length sum.old }
    requires begins { BeginAtPivots (length sum.old) (length pivots.now) rows.now pivots.now }
    ensures words { length sum.new ≡ length sum.old }
    ensures left { (k : ℕ) → k ≤ 64 * length sum.old → ((i : ℕ) → slice_index pivots.now i < k) →
        row_of k sum.new ≡ left_of k (length sum.old) rows.now pivots.now (length pivots.now) (row_of k sum.old) }
{
    let width = sum.len();
    for i in 0..pivots.len() {
        let at = width * i;
        clear_place(sum, &rows[at..at + width], pivots[i] as usize);
    }
}

// As `reduce`, and notes in the mask that begins at a place which of the rows were added.
fn reduce_noting(sum: &mut [u64], rows: &[u64], pivots: &[u16], masks: &mut [u64], start: usize)
    requires rows { length rows.now ≡ length sum.old * length pivots.now }
    requires within { (i : ℕ) → slice_index pivots.now i < 64 * length sum.old }
    requires begins { BeginAtPivots (length sum.old) (length pivots.now) rows.now pivots.now }
    requires mask { start + length pivots.now ≤ 64 * length masks.old }
    requires places { start + length pivots.now < 2 ^ 64 }
    ensures words { length sum.new ≡ length sum.old }
    ensures left { (k : ℕ) → k ≤ 64 * length sum.old → ((i : ℕ) → slice_index pivots.now i < k) →
        row_of k sum.new ≡ left_of k (length sum.old) rows.now pivots.now (length pivots.now) (row_of k sum.old) }
    ensures mask { (k : ℕ) → k ≤ 64 * length sum.old → ((i : ℕ) → slice_index pivots.now i < k) →
        row_from (length pivots.now) start masks.new ≡ added_to k (length sum.old) rows.now pivots.now (length pivots.now) (row_of k sum.old) }
    ensures mask_words { length masks.new ≡ length masks.old }
    ensures before { (j : ℕ) → j < start → bit_in masks.new j ≡ bit_in masks.old j }
{
    let width = sum.len();
    for i in 0..pivots.len() {
        let at = width * i;
        let had = clear_place(sum, &rows[at..at + width], pivots[i] as usize);
        set_bit(masks, start + i, had);
    }
}

// Puts a row behind the reduced ones, and reduces it there.
fn put_reduced(rows: &mut [u64], row: &[u64], pivots: &[u16], masks: &mut [u64], start: usize)
    requires rows { length row.now * length pivots.now + length row.now ≤ length rows.old }
    requires within { (i : ℕ) → slice_index pivots.now i < 64 * length row.now }
    requires begins { BeginAtPivots (length row.now) (length pivots.now) rows.old pivots.now }
    requires mask { start + length pivots.now ≤ 64 * length masks.old }
    requires places { start + length pivots.now < 2 ^ 64 }
    ensures words { length rows.new ≡ length rows.old }
    ensures earlier { (j : ℕ) → j < length row.now * length pivots.now → slice_index rows.new j ≡ slice_index rows.old j }
    ensures left { (k : ℕ) → k ≤ 64 * length row.now → ((i : ℕ) → slice_index pivots.now i < k) →
        row_at k (length row.now) rows.new (length pivots.now) ≡ left_of k (length row.now) rows.old pivots.now (length pivots.now) (row_of k row.now) }
    ensures mask { (k : ℕ) → k ≤ 64 * length row.now → ((i : ℕ) → slice_index pivots.now i < k) →
        row_from (length pivots.now) start masks.new ≡ added_to k (length row.now) rows.old pivots.now (length pivots.now) (row_of k row.now) }
    ensures mask_words { length masks.new ≡ length masks.old }
    ensures before { (j : ℕ) → j < start → bit_in masks.new j ≡ bit_in masks.old j }
{
    let width = row.len();
    let (earlier, behind) = rows.split_at_mut(width * pivots.len());
    let last = &mut behind[..width];
    last.copy_from_slice(row);
    reduce_noting(last, earlier, pivots, masks, start);
}

// Takes a row among the reduced ones unless nothing is left of it, and says whether it did.
pub(crate) fn take_row(
    rows: &mut [u64],
    masks: &mut [u64],
    pivots: &mut [u16],
    rank: u16,
    places: u16,
    row: &[u64],
) -> bool
    requires kept { IsKept places (length row.now) rank rows.old masks.old pivots.old }
    requires room { rank < places }
    ensures new { result ≡ true → TookNew places (length row.now) rank (row_of places row.now) rows.old masks.old pivots.old rows.new masks.new pivots.new }
    ensures determined { result ≡ false → TookDetermined places (length row.now) rank (row_of places row.now) rows.old masks.old pivots.old rows.new masks.new pivots.new }
{
    let count = rank as usize;
    put_reduced(rows, row, &pivots[..count], masks, count * (count + 1) / 2);
    let at = row.len() * count;
    match first_bit(&rows[at..at + row.len()]) {
        Some(place) if place < places as usize => {
            pivots[count] = place as u16;
            true
        }
        _ => false,
    }
}
