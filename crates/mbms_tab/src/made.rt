ghost use Rattle.std.specs.Prelude.{◌≡◌, ◌↔◌, ◌++◌, ◌∷◌, [], IsTrue, IfOk, OnOk, MatchOption, map, string_bytes};
ghost use Rattle.mb_tables.specs.Limits.{IsK, IsRow};
ghost use Rattle.mb_tables.specs.Made.{HasMadeWords};
ghost use Rattle.mb_tables.specs.Tables.{IsAbove};
ghost use Rattle.mb_encoder.specs.Usable.{IsUsable};
ghost use Rattle.mbms_tab.specs.Forms as form;
ghost use Rattle.mbms_tab.specs.Forms.{AreSizesAbove};
ghost use Rattle.mbms_tab.specs.Make.{with_row, HasNoJ, IsMadeRow};
ghost use Rattle.mbms_tab.specs.Parts.{IsMaking, IsMakingFile};

use crate::form::size_of;
use crate::progress::Progress;
use mb_base::Memory;
use mb_encoder::usable;
use mb_rows::CodeFault;
use mb_tables::{AddFault, Row, Tables, make_row, write_tables};
use std::alloc::Global;

/// Adds a row that can be added.
fn add_row(tables: &mut Tables, row: Row) -> Result<(), Memory>
    requires above { IsAbove row.k tables.old.rows }
    requires row { IsRow row }
    ensures { OnOk result (tables.new ≡ record tables.old { rows = tables.old.rows ++ row ∷ [] }) }
{
    match tables.add(row) {
        Ok(()) => Ok(()),
        Err(AddFault::Memory) => Err(Memory),
        Err(AddFault::Order) => unreachable!(),
        Err(AddFault::Range(_)) => unreachable!(),
    }
}

/// Whether the row makes its K usable, where `words` has V0 and V1.
fn is_usable(alloc: Global, words: &Tables, row: Row) -> Result<bool, Memory>
    requires none { words.now.rows ≡ [] }
    requires row { IsRow row }
    ensures { IfOk result (λ yes. IsTrue yes ↔ IsUsable (with_row words.now row) row.k) }
{
    let mut tables = words.copy()?;
    add_row(&mut tables, row)?;
    match usable(alloc, &tables, row.k) {
        Ok(yes) => Ok(yes),
        Err(CodeFault::Memory) => Err(Memory),
        Err(CodeFault::NoRow(_)) => unreachable!(),
    }
}

/// The row of K and the least J under which it is usable, or `None` where no J is one.
fn row_for(alloc: Global, words: &Tables, k: u16) -> Result<Option<Row>, Memory>
    requires none { words.now.rows ≡ [] }
    requires k { IsK k }
    ensures { IfOk result (λ found. MatchOption found (HasNoJ words.now k) (λ row. IsMadeRow words.now k row × IsRow row)) }
{
    for j in 0..65_536u32 {
        let row = make_row(words, k, j as u16);
        let is_good = is_usable(alloc, words, row)?;
        if is_good {
            return Ok(Some(row));
        }
    }
    Ok(None)
}

/// The made tables of the block sizes, where `words` has V0 and V1, or `None` where one of them has no J.
fn made_tables<P: Progress>(
    alloc: Global,
    words: &Tables,
    texts: &[String],
    progress: &mut P,
) -> Result<Option<Tables>, Memory>
    requires words { HasMadeWords words.now }
    requires none { words.now.rows ≡ [] }
    requires sizes { AreSizesAbove 0 (map string_bytes texts.now) }
    ensures { IfOk result (IsMaking (map form.size_of (map string_bytes texts.now))) }
{
    let mut tables = words.copy()?;
    for text in texts {
        let Some(k) = size_of(text.as_str().as_bytes()) else {
            unreachable!()
        };
        let found = row_for(alloc, words, k)?;
        let Some(row) = found else {
            return Ok(None);
        };
        add_row(&mut tables, row)?;
        progress.tell(tables.rows().len(), texts.len());
    }
    Ok(Some(tables))
}

/// The file of the made tables, or `None` where one of the block sizes has no J.
pub fn made_file<P: Progress>(
    alloc: Global,
    texts: &[String],
    progress: &mut P,
) -> Result<Option<Vec<u8>>, Memory>
    requires { AreSizesAbove 0 (map string_bytes texts.now) }
    ensures { IfOk result (IsMakingFile (map form.size_of (map string_bytes texts.now))) }
{
    let words = Tables::made(alloc)?;
    let Some(tables) = made_tables(alloc, &words, texts, progress)? else {
        return Ok(None);
    };
    let mut bytes = Vec::new(alloc);
    write_tables(&tables, &mut bytes)?;
    Ok(Some(bytes))
}
