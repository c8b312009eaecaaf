ghost use Rattle.std.specs.Prelude.{◌≡◌, ◌≤◌, [], length, slice_index};
ghost use Rattle.mb_linear.specs.Span.{AreIndependent};
ghost use Rattle.mb_elim.specs.Kept.{firsts};
ghost use Rattle.mb_rows.specs.Folding.{folded_row};

use crate::row::{ROW_WORDS, room};
use mb_bits::words_for;
use mb_elim::Elim;
use mb_rows::Code;

/// Offers the folded rows of the first `count` ESIs, none of which follows from the others.
pub(crate) fn offer_all(offered: &mut Elim, code: &Code, esis: &[u16], count: usize)
    requires places { offered.old.places ≡ code.now.row.k }
    requires none { offered.old.news ≡ [] }
    requires esis { count ≤ length esis.now }
    requires new { AreIndependent code.now.row.k (firsts (λ i. folded_row code.now (slice_index esis.now i)) count) }
    ensures places { offered.new.places ≡ offered.old.places }
    ensures rows { offered.new.news ≡ firsts (λ i. folded_row code.now (slice_index esis.now i)) count }
{
    let mut room = room::<ROW_WORDS>();
    let row = &mut room[..words_for(usize::from(code.k()))];
    for place in 0..count {
        code.folded_row(esis[place], row);
        offered.offer(row);
    }
}
