ghost use Rattle.std.specs.Prelude.{◌≡◌, ℕ, ◌+◌, ◌≤◌, ◌++◌, length, take, drop, IfOk};
ghost use Rattle.mb_decoder.specs.Block.{filled};

use mb_base::Memory;
use std::alloc::Global;

/// Bytes that are all zero.
pub(crate) fn zero_bytes(alloc: Global, count: usize) -> Result<Vec<u8>, Memory>
    ensures { IfOk result (λ bytes. length bytes.items ≡ count) }
{
    Ok(vec![in alloc; 0; count]?)
}

/// ESIs that are all zero.
pub(crate) fn zero_esis(alloc: Global, count: usize) -> Result<Vec<u16>, Memory>
    ensures { IfOk result (λ esis. length esis.items ≡ count) }
{
    Ok(vec![in alloc; 0; count]?)
}

/// Copies a symbol of `t` bytes to its place, with zeros for the bytes that it lacks.
pub(crate) fn put_symbol(symbols: &mut [u8], at: usize, t: usize, bytes: &[u8])
    requires place { at + t ≤ length symbols.old }
    requires most { length bytes.now ≤ t }
    ensures { symbols.new ≡ take at symbols.old ++ (filled t bytes.now ++ drop (at + t) symbols.old) }
{
    fill_symbol(&mut symbols[at..at + t], bytes);
}

/// Copies a symbol, with zeros for the bytes that it lacks.
fn fill_symbol(symbol: &mut [u8], bytes: &[u8])
    requires { length bytes.now ≤ length symbol.old }
    ensures { symbol.new ≡ filled (length symbol.old) bytes.now }
{
    symbol[..bytes.len()].copy_from_slice(bytes);
    symbol[bytes.len()..].fill(0);
}
