ghost use Rattle.std.specs.Prelude.{◌≡◌, ◌≢◌, ℕ, ◌+◌, ◌-◌, ◌*◌, ◌<◌, ◌≤◌, ◌^◌, ◌==◌, ◌&&◌, Bool, false, length, nat_lt, if◌then◌else◌};
ghost use Rattle.mb_linear.specs.Row.{plus};
ghost use Rattle.mb_bits.specs.BitRow.{bit_in};
ghost use Rattle.mb_tables.specs.Limits.{half};
ghost use Rattle.mb_rows.specs.Places.{is_odd_in};
ghost use Rattle.mb_rows.specs.Constraints as of;

use mb_bits::flip_bit;

// The three LDPC symbols that source symbol i is added to.
pub(crate) fn ldpc_of(s: u16, i: u16) -> [u16; 3]
    requires some { 2 ≤ s }
    requires few { s ≤ 512 }
    ensures symbols { result ≡ of.ldpc_of s i }
{
    let a = 1 + i / s % (s - 1);
    let b = i % s;
    [b, (b + a) % s, (b + 2 * a) % s]
}

// Whether source symbol i is added to LDPC symbol b an odd number of times.
fn is_added(s: u16, b: u16, i: u16) -> bool
    requires some { 2 ≤ s }
    requires few { s ≤ 512 }
    ensures { result ≡ of.in_ldpc s b i }
{
    let [first, second, third] = ldpc_of(s, i);
    (first == b) ^ (second == b) ^ (third == b)
}

// Sets a place that is not set, and clears one that is, where it is to be.
fn flip_if(words: &mut [u64], place: usize, flip: bool)
    requires { place < 64 * length words.old }
    ensures bits { (i : ℕ) → bit_in words.new i ≡ plus (flip && (place == i)) (bit_in words.old i) }
    ensures words { length words.new ≡ length words.old }
{
    if flip {
        flip_bit(words, place);
    }
}

/// Sets the source symbols that are added to LDPC symbol b an odd number of times, and clears all other places.
pub(crate) fn put_ldpc(k: u16, s: u16, b: u16, out: &mut [u64])
    requires some { 2 ≤ s }
    requires few { s ≤ 512 }
    requires words { k ≤ 64 * length out.old }
    ensures places { (place : ℕ) → bit_in out.new place ≡ (nat_lt place k && of.in_ldpc s b place) }
    ensures words { length out.new ≡ length out.old }
{
    out.fill(0);
    for i in 0..k {
        flip_if(out, usize::from(i), is_added(s, b, i));
    }
}

/// Sets those of the first places that are added to half symbol i, and clears all others.
pub(crate) fn put_half(h: u16, count: u16, i: u16, out: &mut [u64])
    requires few { h ≤ 16 }
    requires which { i < h }
    requires words { count ≤ 64 * length out.old }
    ensures places { (place : ℕ) → bit_in out.new place ≡ (nat_lt place count && of.in_half h i place) }
    ensures words { length out.new ≡ length out.old }
{
    out.fill(0);
    let ones = u32::from((h + 1) / 2);
    let mut at = 0;
    for n in 1..1u32 << h {
        let code = n ^ n / 2;
        if code.count_ones() != ones {
            continue;
        }
        if at == count {
            return;
        }
        flip_if(out, usize::from(at), code >> i & 1 == 1);
        at += 1;
    }
}

/// Sets the symbols that are added to the LDPC or half symbol of constraint i, and clears all other places.
pub(crate) fn put_added(k: u16, s: u16, h: u16, i: u16, out: &mut [u64])
    requires some { 2 ≤ s }
    requires few { s ≤ 512 }
    requires half { h ≤ 16 }
    requires sum { k + s + h < 2 ^ 16 }
    requires which { i < s + h }
    requires words { k + s ≤ 64 * length out.old }
    ensures places { (place : ℕ) → bit_in out.new place
        ≡ (if nat_lt i s then nat_lt place k && of.in_ldpc s i place else nat_lt place (k + s) && of.in_half h (i - s) place) }
    ensures words { length out.new ≡ length out.old }
{
    if i < s {
        put_ldpc(k, s, i, out);
    } else {
        put_half(h, k + s, i - s, out);
    }
}
