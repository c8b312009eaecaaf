ghost use Rattle.std.specs.Prelude.{◌≡◌, ℕ, ◌+◌, ◌≤◌, ◌++◌, length, take, drop};
ghost use Rattle.mb_decoder.specs.Block.{filled};

/// Copies a symbol to its place, with zeros for the bytes that it lacks.
pub(crate) fn put_symbol(symbols: &mut [u8], at: usize, symbol: usize, bytes: &[u8])
    requires place { at + symbol ≤ length symbols.old }
    requires most { length bytes.now ≤ symbol }
    ensures { symbols.new ≡ take at symbols.old ++ (filled symbol bytes.now ++ drop (at + symbol) symbols.old) }
{
    fill_symbol(&mut symbols[at..at + symbol], bytes);
}

/// Copies a symbol, with zeros for the bytes that it lacks.
fn fill_symbol(symbol: &mut [u8], bytes: &[u8])
    requires { length bytes.now ≤ length symbol.old }
    ensures { symbol.new ≡ filled (length symbol.old) bytes.now }
{
    symbol[..bytes.len()].copy_from_slice(bytes);
    symbol[bytes.len()..].fill(0);
}
