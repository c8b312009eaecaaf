ghost use Rattle.std.specs.Prelude.{◌≡◌, ◌<◌, ◌^◌};
ghost use Rattle.mb_base.specs.Generator as of;

/// Mixes the bits of a number, so that numbers that differ little give numbers that look unlike each other; 0 gives
/// 0. This is the finalizer of 32 bits of MurmurHash3.
pub fn mix(z: u32) -> u32
    ensures { result ≡ of.mix z }
{
    let z = (z ^ (z >> 16)).wrapping_mul(0x85eb_ca6b);
    let z = (z ^ (z >> 13)).wrapping_mul(0xc2b2_ae35);
    z ^ (z >> 16)
}

/// Number `i` of the sequence that the seed begins. Made tables, drills and their losses are made of such numbers,
/// so that they are the same everywhere.
pub fn word(seed: u32, i: u32) -> u32
    ensures { result ≡ of.word seed i }
{
    mix(seed.wrapping_add(i.wrapping_mul(0x9e37_79b9)))
}
