ghost use Rattle.std.specs.Prelude.{◌≡◌, ◌≤◌};
ghost use Rattle.mb_base.specs.Outside.{Rose};
ghost use Rattle.mb_base.specs.Status.TheVariants as status;
ghost use Rattle.mb_program.specs.Printing.{CountsFaults};
ghost use Rattle.mbms_tab.specs.Check.{Checks};
ghost use Rattle.mbms_tab.specs.Parts.{AreRowsOf, PrintsRows, PrintsAllRows, RefusesTables};

use crate::progress::Progress;
use crate::rows::{answers_for, lines_of};
use mb_base::{Sink, Source, Status};
use mb_program::{print, tables_line};
use mb_tables::{Row, Tables, TablesFault, read_tables};
use std::alloc::Global;
use std::thread::Threads;

/// How many rows are looked at before their lines are printed.
const BATCH: usize = 64;

/// Prints the lines of rows of the tables.
fn print_rows<R: Threads + Sync, O: Sink>(
    rt: &R,
    alloc: Global,
    tables: &Tables,
    rows: &[Row],
    out: &mut O,
) -> Result<(), Status>
    requires { AreRowsOf tables.now rows.now }
    ensures printed { PrintsRows tables.now rows.now (O.written out.old) (O.written out.new) result }
    ensures cause { CountsFaults status.OutFault (O.faults out.old) (O.faults out.new) result }
    ensures same { O.made out.new ≡ O.made out.old }
{
    let answers = answers_for(rt, alloc, tables, rows)?;
    let lines = lines_of(alloc, tables, rows, &answers)?;
    print(out, lines.as_str())
}

/// Prints the lines of all rows. A row takes up to seconds, so lines are printed as they come.
fn print_all_rows<R: Threads + Sync, O: Sink, P: Progress>(
    rt: &R,
    alloc: Global,
    tables: &Tables,
    out: &mut O,
    progress: &mut P,
) -> Result<(), Status>
    ensures printed { PrintsAllRows tables.now (O.written out.old) (O.written out.new) result }
    ensures cause { CountsFaults status.OutFault (O.faults out.old) (O.faults out.new) result }
    ensures same { O.made out.new ≡ O.made out.old }
{
    let rows = tables.rows();
    let mut done = 0;
    while done < rows.len() {
        let end = rows.len().min(done + BATCH);
        print_rows(rt, alloc, tables, &rows[done..end], out)?;
        done = end;
        progress.tell(done, rows.len());
    }
    Ok(())
}

/// Prints the line of a tables file that is refused.
fn refuse_tables<O: Sink>(alloc: Global, fault: TablesFault, out: &mut O) -> Status
    ensures refused { RefusesTables fault (O.written out.old) (O.written out.new) result }
    ensures out_fault { result ≡ status.OutFault → Rose (O.faults out.old) (O.faults out.new) }
    ensures out_later { O.faults out.old ≤ O.faults out.new }
    ensures same { O.made out.new ≡ O.made out.old }
{
    let Ok(line) = tables_line(alloc, fault) else {
        return Status::Memory;
    };
    match print(out, line.as_str()) {
        Ok(()) => Status::Tables,
        Err(status) => status,
    }
}

/// Reads tables, and prints whether each of their rows is usable.
pub fn check<R: Threads + Sync, S: Source, O: Sink, P: Progress>(
    rt: &R,
    alloc: Global,
    src: &mut S,
    out: &mut O,
    progress: &mut P,
) -> Status
    ensures checked { Checks (S.left src.old) (O.written out.old) (O.written out.new) result }
    ensures read_fault { result ≡ status.ReadFault → Rose (S.faults src.old) (S.faults src.new) }
    ensures out_fault { result ≡ status.OutFault → Rose (O.faults out.old) (O.faults out.new) }
    ensures read_later { S.faults src.old ≤ S.faults src.new }
    ensures out_later { O.faults out.old ≤ O.faults out.new }
    ensures same_src { S.made src.new ≡ S.made src.old }
    ensures same_out { O.made out.new ≡ O.made out.old }
{
    let tables = match read_tables(alloc, src) {
        Ok(tables) => tables,
        Err(TablesFault::SourceFault) => return Status::ReadFault,
        Err(TablesFault::Memory) => return Status::Memory,
        Err(fault) => return refuse_tables(alloc, fault, out),
    };
    match print_all_rows(rt, alloc, &tables, out, progress) {
        Ok(()) => Status::Done,
        Err(status) => status,
    }
}
