ghost use Rattle.std.specs.Prelude.{◌≡◌, length};
ghost use Rattle.mb_bits.specs.Xor.{IsXored};

use std::simd::u8x32;

/// The bytes of one block of lanes.
const LANES: usize = 32;

/// Adds the bytes of `src` to those of `dst`, bit by bit.
pub fn xor_plain(dst: &mut [u8], src: &[u8])
    requires { length src.now ≡ length dst.old }
    ensures { IsXored src.now dst.old dst.new }
{
    for i in 0..src.len() {
        dst[i] ^= src[i];
    }
}

/// Adds the bytes of one block of lanes.
fn xor_block(dst: &mut [u8], src: &[u8])
    requires src { length src.now ≡ 32 }
    requires dst { length dst.old ≡ 32 }
    ensures { IsXored src.now dst.old dst.new }
{
    let sum = u8x32::from_slice(dst) ^ u8x32::from_slice(src);
    sum.copy_to_slice(dst);
}

/// As `xor_plain`, by lanes of 32 bytes.
pub fn xor_into(dst: &mut [u8], src: &[u8])
    requires { length src.now ≡ length dst.old }
    ensures { IsXored src.now dst.old dst.new }
{
    let blocks = src.len() / LANES;
    for i in 0..blocks {
        let at = LANES * i;
        xor_block(&mut dst[at..at + LANES], &src[at..at + LANES]);
    }
    let at = LANES * blocks;
    xor_plain(&mut dst[at..], &src[at..]);
}
