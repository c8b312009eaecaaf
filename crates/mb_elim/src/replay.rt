ghost use Rattle.std.specs.Prelude.{◌≡◌, ◌≢◌, ◌⊎◌, ℕ, ◌+◌, ◌*◌, ◌/◌, ◌<◌, ◌≤◌, ◌^◌, ◌-◌, Bool, List, length, slice_index};
ghost use Rattle.mb_linear.specs.Row.{row_sum, chosen_sum};
ghost use Rattle.mb_bits.specs.BitRow.{row_of};
ghost use Rattle.mb_elim.specs.Kept.{firsts, mask_start, mask_at, row_at, reduced_rows, row_as_it_came};
ghost use Rattle.mb_elim.specs.Replay.{IsAddedAt, IsLinear, IsValue, AreValues, OthersStay, IsHeld, AreSwapped, unit, cleared};
ghost use Rattle.mb_linear.specs.Echelon.{IsEchelon};

use mb_bits::{has_bit, xor_into};

// Adds `width` bytes of the stripe to others.
fn add_at(stripe: &mut [u8], from: usize, into: usize, width: usize)
    requires apart { (from + width ≤ into) ⊎ (into + width ≤ from) }
    requires from { from + width ≤ length stripe.old }
    requires into { into + width ≤ length stripe.old }
    ensures { IsAddedAt width from into stripe.old stripe.new }
{
    if from < into {
        let (before, behind) = stripe.split_at_mut(into);
        xor_into(&mut behind[..width], &before[from..from + width]);
    } else {
        let (_, behind) = stripe.split_at_mut(into);
        let (sum, rest) = behind.split_at_mut(width);
        let at = from - (into + width);
        xor_into(sum, &rest[at..at + width]);
    }
}

// Adds to row `n` of the stripe the earlier ones that its mask has.
fn gather(stripe: &mut [u8], masks: &[u64], n: usize, width: usize)
    requires small { n ≤ 8192 }
    requires masks { mask_start n + n ≤ 64 * length masks.now }
    requires stripe { width * n + width ≤ length stripe.old }
    ensures count { length stripe.new ≡ length stripe.old }
    ensures others { OthersStay width n stripe.old stripe.new }
    ensures sum { (k : ℕ) (reds : ℕ → List Bool) (row : List Bool) (values : ℕ → List Bool → ℕ) → IsLinear k values → ((i : ℕ) → length (reds i) ≡ k) → length row ≡ k →
        AreValues width values reds stripe.old 0 n → IsValue width values row stripe.old n →
        IsValue width values (row_sum (chosen_sum k (mask_at masks.now n) (firsts reds n)) row) stripe.new n }
{
    let start = n * (n + 1) / 2;
    for i in 0..n {
        if has_bit(masks, start + i) {
            add_at(stripe, width * i, width * n, width);
        }
    }
}

// Makes of the values of the rows as they came those of the reduced ones.
pub(crate) fn reduce_values(stripe: &mut [u8], masks: &[u64], count: usize, width: usize)
    requires small { count ≤ 8192 }
    requires masks { mask_start count ≤ 64 * length masks.now }
    requires stripe { length stripe.old ≡ width * count }
    ensures count { length stripe.new ≡ length stripe.old }
    ensures values { (k w : ℕ) (rows : List ℕ) (values : ℕ → List Bool → ℕ) → IsLinear k values →
        AreValues width values (row_as_it_came k w rows masks.now) stripe.old 0 count → AreValues width values (row_at k w rows) stripe.new 0 count }
{
    for n in 0..count {
        gather(stripe, masks, n, width);
    }
}

// Adds to row `n` of the stripe the later ones whose pivots its reduced row has set.
fn substitute(stripe: &mut [u8], row: &[u64], pivots: &[u16], n: usize, width: usize)
    requires row { n < length pivots.now }
    requires within { (i : ℕ) → slice_index pivots.now i < 64 * length row.now }
    requires stripe { length stripe.old ≡ width * length pivots.now }
    ensures count { length stripe.new ≡ length stripe.old }
    ensures others { OthersStay width n stripe.old stripe.new }
    ensures cleared { (k : ℕ) (values : ℕ → List Bool → ℕ) → IsLinear k values → k ≤ 64 * length row.now → ((i : ℕ) → slice_index pivots.now i < k) →
        AreValues width values (λ m. unit k (slice_index pivots.now m)) stripe.old (n + 1) (length pivots.now) → IsValue width values (row_of k row.now) stripe.old n →
        IsValue width values (cleared k (slice_index pivots.now) n (length pivots.now - (n + 1)) (row_of k row.now)) stripe.new n }
{
    for m in n + 1..pivots.len() {
        if has_bit(row, pivots[m] as usize) {
            add_at(stripe, width * m, width * n, width);
        }
    }
}

// Makes of the values of the reduced rows, as many as there are places, those of the unknowns at their pivots.
pub(crate) fn solve_values(
    stripe: &mut [u8],
    rows: &[u64],
    pivots: &[u16],
    words: usize,
    width: usize,
)
    requires rows { length rows.now ≡ words * length pivots.now }
    requires within { (i : ℕ) → slice_index pivots.now i < 64 * words }
    requires stripe { length stripe.old ≡ width * length pivots.now }
    ensures count { length stripe.new ≡ length stripe.old }
    ensures values { (values : ℕ → List Bool → ℕ) → IsLinear (length pivots.now) values → length pivots.now ≤ 64 * words → ((i : ℕ) → slice_index pivots.now i < length pivots.now) →
        IsEchelon (reduced_rows (length pivots.now) words rows.now (length pivots.now)) (firsts (slice_index pivots.now) (length pivots.now)) →
        AreValues width values (row_at (length pivots.now) words rows.now) stripe.old 0 (length pivots.now) →
        AreValues width values (λ n. unit (length pivots.now) (slice_index pivots.now n)) stripe.new 0 (length pivots.now) }
{
    let count = pivots.len();
    for done in 0..count {
        let n = count - 1 - done;
        let at = words * n;
        substitute(stripe, &rows[at..at + words], pivots, n, width);
    }
}

// The first row, from one on, that holds an unknown.
fn position_of(holds: &[u16], first: usize, unknown: u16) -> usize
    requires held { IsHeld holds.now first unknown }
    ensures from { first ≤ result }
    ensures within { result < length holds.now }
    ensures is { slice_index holds.now result ≡ unknown }
{
    for n in first..holds.len() {
        if holds[n] == unknown {
            return n;
        }
    }
    holds.len()
}

// Lets two runs of `width` bytes of the stripe change their places.
fn swap_at(stripe: &mut [u8], first: usize, second: usize, width: usize)
    requires apart { first + width ≤ second }
    requires within { second + width ≤ length stripe.old }
    ensures { AreSwapped width first second stripe.old stripe.new }
{
    for b in 0..width {
        let byte = stripe[first + b];
        stripe[first + b] = stripe[second + b];
        stripe[second + b] = byte;
    }
}

// Puts each row of the stripe to the place of the unknown that it holds. Each unknown is held by some row.
fn put_in_place(stripe: &mut [u8], holds: &mut [u16], width: usize)
    requires small { length holds.old ≤ 8192 }
    requires stripe { length stripe.old ≡ width * length holds.old }
    requires held { (u : ℕ) → u < length holds.old → IsHeld holds.old 0 u }
    ensures count { length stripe.new ≡ length stripe.old }
    ensures values { (values : ℕ → List Bool → ℕ) → AreValues width values (λ n. unit (length holds.old) (slice_index holds.old n)) stripe.old 0 (length holds.old) →
        AreValues width values (unit (length holds.old)) stripe.new 0 (length holds.old) }
{
    for i in 0..holds.len() {
        let n = position_of(holds, i, i as u16);
        if i < n {
            swap_at(stripe, width * i, width * n, width);
            holds[n] = holds[i];
            holds[i] = i as u16;
        }
    }
}

// Room for what the rows hold. Its length is a parameter, since a proof would write a literal number of zeros out.
fn room<const LEN: usize>() -> [u16; LEN]
    ensures { length result ≡ LEN }
{
    [0; LEN]
}

// As `put_in_place`, where the rows hold the unknowns at the pivots.
pub(crate) fn put_by_pivots(stripe: &mut [u8], pivots: &[u16], width: usize)
    requires small { length pivots.now ≤ 8192 }
    requires stripe { length stripe.old ≡ width * length pivots.now }
    requires held { (u : ℕ) → u < length pivots.now → IsHeld pivots.now 0 u }
    ensures count { length stripe.new ≡ length stripe.old }
    ensures values { (values : ℕ → List Bool → ℕ) → AreValues width values (λ n. unit (length pivots.now) (slice_index pivots.now n)) stripe.old 0 (length pivots.now) →
        AreValues width values (unit (length pivots.now)) stripe.new 0 (length pivots.now) }
{
    let mut room = room::<8192>();
    let holds = &mut room[..pivots.len()];
    holds.copy_from_slice(pivots);
    put_in_place(stripe, holds, width);
}
