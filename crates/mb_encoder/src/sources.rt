ghost use Rattle.std.specs.Prelude.{◌≡◌, ℕ, ◌+◌, ◌/◌, IfOk, MatchOption, length};
ghost use Rattle.mb_rows.specs.Determined.{DetermineBlock};
ghost use Rattle.mb_encoder.specs.Usable.{source_esis};
ghost use Rattle.mb_encoder.specs.Kept.{IsEliminated};

use mb_base::Memory;
use mb_bits::words_for;
use mb_elim::{Elim, Offer};
use mb_rows::Code;
use std::alloc::Global;

/// Words that are all zero.
pub(crate) fn zero_words(alloc: Global, count: usize) -> Result<Vec<u64>, Memory>
    ensures { IfOk result (λ words. length words.items ≡ count) }
{
    Ok(vec![in alloc; 0; count]?)
}

/// The elimination of the folded rows of the source ESIs, or `None` where one of them is a sum of those before it.
pub(crate) fn offer_sources(alloc: Global, code: &Code) -> Result<Option<Elim>, Memory>
    ensures { IfOk result (λ found. MatchOption found (DetermineBlock code.now (source_esis code.now.row.k) → ⊥) (IsEliminated code.now)) }
{
    let k = code.k();
    let mut elim = Elim::new(alloc, k)?;
    let mut row = zero_words(alloc, words_for(usize::from(k)))?;
    for esi in 0..k {
        code.folded_row(esi, &mut row);
        match elim.offer(&row) {
            Offer::New(_) => {}
            Offer::Determined => return Ok(None),
        }
    }
    let rank = elim.rank();
    prove!(rank == k);
    Ok(Some(elim))
}
