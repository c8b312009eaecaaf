ghost use Rattle.std.specs.Prelude.{◌≡◌, ℕ, ◌+◌, ◌*◌, ◌<◌, ◌≤◌, ◌%◌, false, length};
ghost use Rattle.mb_bits.specs.BitRow.{bit_in};
ghost use Rattle.mb_rows.specs.Places.{is_odd_in};
ghost use Rattle.mb_rows.specs.Walk as of;

use crate::Triple;
use mb_bits::flip_bit;

/// One step of a walk.
pub(crate) fn next(place: u16, a: u16, lp: u16) -> u16
    requires { 0 < lp }
    ensures next { result ≡ (place + a) % lp }
    ensures below { result < lp }
{
    ((u32::from(place) + u32::from(a)) % u32::from(lp)) as u16
}

/// Goes on from b to the first place below L. There is one: where the step is at most L, the walk rises to L' and
/// comes behind it to a place below the step; where it is more, the walk falls by less than L at each step.
pub(crate) fn first_below(l: u16, a: u16, lp: u16, b: u16) -> u16
    requires l { l ≤ lp }
    requires twice { lp < 2 * l }
    requires step { 1 ≤ a }
    requires step_below { a < lp }
    requires begin { b < lp }
    ensures first { result ≡ of.first_below l a lp b }
    ensures below { result < l }
{
    let mut place = b;
    while l <= place {
        place = next(place, a, lp);
    }
    place
}

/// Sets the places that are taken an odd number of times, and clears all others.
pub(crate) fn put_lt_row(t: Triple, l: u16, lp: u16, out: &mut [u64])
    requires l { l ≤ lp }
    requires twice { lp < 2 * l }
    requires step { 1 ≤ t.a }
    requires step_below { t.a < lp }
    requires begin { t.b < lp }
    requires words { l ≤ 64 * length out.old }
    ensures row { (place : ℕ) → bit_in out.new place ≡ is_odd_in (of.taken l lp t) place }
    ensures words { length out.new ≡ length out.old }
    ensures behind { (place : ℕ) → l ≤ place → bit_in out.new place ≡ false }
{
    out.fill(0);
    let mut b = t.b;
    for _ in 0..u16::from(t.d).min(l) {
        let place = first_below(l, t.a, lp, b);
        flip_bit(out, usize::from(place));
        b = next(place, t.a, lp);
    }
}
