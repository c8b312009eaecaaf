ghost use Rattle.std.specs.Prelude.{◌≡◌, ℕ, List, ◌+◌, ◌*◌, ◌/◌, ◌≤◌, length, IfOk};
ghost use Rattle.mb_elim.specs.Values.{AreSums, AreUnknowns};
ghost use Rattle.mb_encoder.specs.Symbols.{symbols_of};
ghost use Rattle.mb_encoder.specs.Kept.{IsEliminated, IsKept, encoder_of};

use crate::sources::zero_words;
use crate::sums::put_rest;
use mb_base::Memory;
use mb_bits::words_for;
use mb_elim::Elim;
use mb_rows::Code;
use std::alloc::Global;

/// Puts the first K intermediate symbols, whose sums over the rows of the elimination are the symbols of the block.
fn put_first(offered: &Elim, block: &[u8], t: usize, symbols: &mut [u8])
    requires full { length offered.now.news ≡ offered.now.places }
    requires block { length block.now ≡ t * offered.now.places }
    requires room { length block.now ≤ length symbols.old }
    ensures count { length symbols.new ≡ length symbols.old }
    ensures unknowns { (unknowns : List (List ℕ)) → length unknowns ≡ offered.now.places → AreSums t offered.now.news unknowns block.now → AreUnknowns t unknowns symbols.new }
{
    let first = &mut symbols[..block.len()];
    first.copy_from_slice(block);
    offered.replay(first, t);
}

// Bytes that are all zero.
fn zero_bytes(alloc: Global, count: usize) -> Result<Vec<u8>, Memory>
    ensures { IfOk result (λ bytes. length bytes.items ≡ count) }
{
    Ok(vec![in alloc; 0; count]?)
}

/// The intermediate symbols of a block.
pub(crate) fn make_symbols(
    alloc: Global,
    code: &Code,
    offered: &Elim,
    t: u16,
    block: &[u8],
) -> Result<Vec<u8>, Memory>
    requires rows { IsEliminated code.now offered.now }
    requires block { length block.now ≡ t * code.now.row.k }
    ensures kept { IfOk result (λ symbols. IsKept code.now t symbols.items) }
    ensures sources { IfOk result (λ symbols. encoder_of code.now t symbols.items ≡ record { code = code.now; t = t; sources = symbols_of t code.now.row.k block.now }) }
{
    let width = usize::from(t);
    let l = usize::from(code.l());
    let mut symbols = zero_bytes(alloc, width * l)?;
    put_first(offered, block, width, &mut symbols);
    let mut row = zero_words(alloc, words_for(l))?;
    put_rest(code, width, &mut row, &mut symbols);
    Ok(symbols)
}
