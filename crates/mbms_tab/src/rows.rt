ghost use Rattle.std.specs.Prelude.{◌≡◌, ◌++◌, true, false, IfOk, OnOk, codes, string_bytes};
ghost use Rattle.std.specs.List.{AllZip};
ghost use Rattle.mbms_tab.specs.Check.{TellsRows, row_line};
ghost use Rattle.mbms_tab.specs.Parts.{IsAnswer, AreRowsOf};

use mb_encoder::usable;
use mb_rows::CodeFault;
use mb_tables::{Row, Tables, TablesFault};
use rayon::prelude::*;
use std::alloc::{AllocError, Global};
use std::thread::Threads;

/// A row of tables, and whether it is usable.
#[derive(Clone, Copy)]
pub struct Answer {
    pub row: Row,
    pub usable: Result<bool, CodeFault>,
}

/// Whether each row is usable, worked out on all processors.
pub fn answers_for<R: Threads + Sync>(
    rt: &R,
    alloc: Global,
    tables: &Tables,
    rows: &[Row],
) -> Result<Vec<Answer>, AllocError>
    ensures { IfOk result (λ answers. AllZip (IsAnswer tables.now) rows.now answers.items) }
{
    rows.par_iter()
        .with_min_len(1)
        .map(
            |row: &Row| -> Answer
                ensures { IsAnswer tables.entry.now row.now result }
            {
                Answer {
                    row: *row,
                    usable: usable(alloc, tables, row.k),
                }
            },
        )
        .collect(rt, alloc)
}

/// Appends the line of a row.
fn push_row(lines: &mut String, row: Row, is_usable: bool) -> Result<(), AllocError>
    ensures usable { is_usable ≡ true → OnOk result (string_bytes lines.new ≡ string_bytes lines.old ++ row_line row (codes "usable")) }
    ensures unusable { is_usable ≡ false → OnOk result (string_bytes lines.new ≡ string_bytes lines.old ++ row_line row (codes "unusable")) }
{
    let Row { k, j, s, lp } = row;
    let word = if is_usable { "usable" } else { "unusable" };
    write!(lines, "row {k} {j} {s} {lp} {word}\n")
}

/// The lines of rows of the tables, by their answers.
pub fn lines_of(
    alloc: Global,
    tables: &Tables,
    rows: &[Row],
    answers: &[Answer],
) -> Result<String, AllocError>
    requires rows { AreRowsOf tables.now rows.now }
    requires answers { AllZip (IsAnswer tables.now) rows.now answers.now }
    ensures { IfOk result (λ lines. TellsRows tables.now rows.now (string_bytes lines)) }
{
    let mut lines = String::new(alloc);
    for answer in answers {
        match answer.usable {
            Ok(is_usable) => push_row(&mut lines, answer.row, is_usable)?,
            Err(CodeFault::Memory) => return Err(AllocError),
            Err(CodeFault::NoRow(_)) => unreachable!(),
        }
    }
    Ok(lines)
}
