ghost use Rattle.std.specs.Prelude.{◌≡◌, ◌+◌, ◌*◌, length, IfOk};

use crate::setup::{tables_of, zero_bytes};
use crate::{SYMBOL, told};
use anyhow::Result;
use mb_base::word;
use mb_bits::xor_into;
use mb_encoder::Intermediate;
use std::alloc::{AllocError, Global};
use std::time::{Clock, Instant};

/// Bytes that look random.
fn block_of(alloc: Global, count: usize) -> Result<Vec<u8>, AllocError>
    ensures { IfOk result (λ bytes. length bytes.items ≡ count) }
{
    let mut bytes = zero_bytes(alloc, count)?;
    let mut i = 0u32;
    for byte in bytes.iter_mut() {
        *byte = (word(7, i) % 256) as u8;
        i = i.wrapping_add(1);
    }
    Ok(bytes)
}

/// Puts the symbols of the ESIs from one on to another, one over the other.
fn put_symbols(encoder: &Intermediate, first: u16, end: u16, out: &mut [u8])
    requires { length out.old ≡ encoder.now.t }
{
    for esi in first..end {
        encoder.symbol(esi, out);
    }
}

/// How long copying a block takes, and adding it to as many bytes, which were touched before.
fn sum_up(rt: &(impl Clock + Print + AllocGlobal), block: &[u8]) -> Result<()> {
    let mut other = zero_bytes(rt.alloc(), block.len())?;
    other.copy_from_slice(block);
    let start = Instant::now(rt)?;
    other.copy_from_slice(block);
    told(rt, "copy", start)?;
    let start = Instant::now(rt)?;
    xor_into(&mut other, block);
    told(rt, "xor", start)?;
    Ok(())
}

/// How long the encoder of a block takes, and 1,000 repair symbols from it.
pub(crate) fn encode(rt: &(impl Clock + Print + AllocGlobal), k: u16, j: u16) -> Result<()> {
    let alloc = rt.alloc();
    let tables = tables_of(alloc, k, j)?;
    let block = block_of(alloc, usize::from(k) * usize::from(SYMBOL))?;
    sum_up(rt, &block)?;
    let start = Instant::now(rt)?;
    let encoder = Intermediate::of(alloc, &tables, k, SYMBOL, &block)?;
    told(rt, "of", start)?;
    let mut out = zero_bytes(alloc, usize::from(encoder.t()))?;
    put_symbols(&encoder, 0, 1000, &mut out);
    let start = Instant::now(rt)?;
    put_symbols(&encoder, k, k.saturating_add(1000), &mut out);
    told(rt, "symbols", start)?;
    Ok(())
}
