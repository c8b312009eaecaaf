ghost use Rattle.std.specs.Prelude.{◌≡◌, ◌+◌, ◌/◌, length};

use crate::setup::{tables_of, zero_words};
use crate::told;
use anyhow::Result;
use mb_bits::words_for;
use mb_elim::Elim;
use mb_rows::Code;
use std::time::{Clock, Instant};

/// Makes the folded rows of the ESIs from one on to another.
fn put_rows(code: &Code, row: &mut [u64], first: u16, end: u16)
    requires words { length row.old ≡ (code.now.row.k + 63) / 64 }
    ensures words { length row.new ≡ length row.old }
{
    for esi in first..end {
        code.folded_row(esi, row);
    }
}

/// Offers the folded rows of the ESIs from one on, until those before another were offered or nothing is missing.
/// Answers the ESI behind the last one.
fn offer_rows(
    code: &Code,
    offered: &mut Elim,
    row: &mut [u64],
    first: u16,
    end: u16,
    until_full: bool,
) -> u16
    requires words { length row.old ≡ (code.now.row.k + 63) / 64 }
    requires places { offered.old.places ≡ code.now.row.k }
    ensures words { length row.new ≡ length row.old }
    ensures places { offered.new.places ≡ offered.old.places }
{
    for esi in first..end {
        if until_full && offered.is_full() {
            return esi;
        }
        code.folded_row(esi, row);
        offered.offer(row);
    }
    end
}

/// How long the folded rows of K source and K repair ESIs take.
pub(crate) fn make_rows(rt: &(impl Clock + Print + AllocGlobal), k: u16, j: u16) -> Result<()> {
    let alloc = rt.alloc();
    let code = Code::new(alloc, &tables_of(alloc, k, j)?, k)?;
    let mut row = zero_words(alloc, words_for(usize::from(k)))?;
    let start = Instant::now(rt)?;
    put_rows(&code, &mut row, 0, k);
    told(rt, "source", start)?;
    let start = Instant::now(rt)?;
    put_rows(&code, &mut row, k, k.saturating_mul(2));
    told(rt, "repair", start)?;
    Ok(())
}

/// How long hearing a block takes: K source ESIs and then K repair ESIs, or repair ESIs alone until nothing is missing.
pub(crate) fn hear(
    rt: &(impl Clock + Print + AllocGlobal),
    k: u16,
    j: u16,
    source: bool,
) -> Result<()> {
    let alloc = rt.alloc();
    let start = Instant::now(rt)?;
    let code = Code::new(alloc, &tables_of(alloc, k, j)?, k)?;
    told(rt, "code", start)?;
    let start = Instant::now(rt)?;
    let mut elim = Elim::new(alloc, code.k())?;
    let mut row = zero_words(alloc, words_for(usize::from(code.k())))?;
    if source {
        offer_rows(&code, &mut elim, &mut row, 0, k, false);
        told(rt, "source", start)?;
    }
    let start = Instant::now(rt)?;
    let end = if source {
        k.saturating_mul(2)
    } else {
        u16::MAX
    };
    let last = offer_rows(&code, &mut elim, &mut row, k, end, !source);
    told(rt, "repair", start)?;
    println!(rt; "last {last}")?;
    println!(rt; "rank {}", elim.rank())?;
    Ok(())
}
