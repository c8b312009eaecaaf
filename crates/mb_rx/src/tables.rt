ghost use Rattle.std.specs.Prelude.{◌≡◌, ℕ, true, List, Option, is_some, None, Err, IfOk, IfErr, OnOk};
ghost use Rattle.mb_base.specs.Outside.{EndsAt, Rose};
ghost use Rattle.mb_base.specs.Status.TheVariants as status;
ghost use Rattle.mb_tables.specs.Parts.{HasFaultCause};
ghost use Rattle.mb_tables.specs.Refused.{ReadsTold};
ghost use Rattle.mb_tables.specs.Tables.{AreTables};
ghost use Rattle.mb_tables.specs.declared.fault.TablesFault.TheVariants as tables;
ghost use Rattle.mb_rx.specs.Steps.{RefusesTables, StopsReading};
ghost use Rattle.mb_rx.specs.Tables.{IsReadAs, no_tables};

use mb_base::{Memory, Sink, Source, Status};
use mb_program::{print, tables_line};
use mb_tables::{Tables, TablesFault, read_tables};
use mb_words::RxWords;
use std::alloc::Global;

/// Tables that have no row.
fn no_tables(alloc: Global) -> Result<Tables, Memory>
    ensures none { IfOk result (λ tables. tables ≡ no_tables) }
    ensures good { IfOk result AreTables }
{
    let tables = Tables::none(alloc)?;
    let _rows = tables.rows();
    Ok(tables)
}

/// Prints the line of a tables file that is refused, and answers the status that ends the call.
fn refuse_tables<O: Sink>(alloc: Global, fault: TablesFault, out: &mut O) -> Status
    ensures refused { RefusesTables fault (O.written out.old) (O.faults out.old) (O.written out.new) (O.faults out.new) result }
    ensures same { O.made out.new ≡ O.made out.old }
{
    let Ok(line) = tables_line(alloc, fault) else {
        return Status::Memory;
    };
    match print(out, line.as_str()) {
        Ok(()) => Status::Tables,
        Err(status) => status,
    }
}

/// Tables that are read to the end of their source.
fn read_named<T: Source>(alloc: Global, src: &mut T) -> Result<Tables, TablesFault>
    ensures reads { ReadsTold (T.left src.old) result }
    ensures end { OnOk result (EndsAt (T.left src.new)) }
    ensures good { IfOk result AreTables }
    ensures cause { HasFaultCause (T.faults src.old) (T.faults src.new) result }
    ensures same { T.made src.new ≡ T.made src.old }
{
    match read_tables(alloc, src) {
        Ok(tables) => {
            let _rows = tables.rows();
            Ok(tables)
        }
        Err(fault) => Err(fault),
    }
}

/// The status that ends a call whose words name tables that were not read.
fn stop_for<O: Sink>(alloc: Global, fault: TablesFault, out: &mut O) -> Status
    ensures stopped { (named told : Option (List ℕ)) → is_some named ≡ true → ReadsTold told (Err fault)
        → StopsReading named told (O.written out.old) (O.faults out.old) (O.written out.new) (O.faults out.new) result }
    ensures of_source { result ≡ status.ReadFault → fault ≡ tables.SourceFault }
    ensures same { O.made out.new ≡ O.made out.old }
{
    match fault {
        TablesFault::SourceFault => Status::ReadFault,
        TablesFault::Memory => Status::Memory,
        _ => refuse_tables(alloc, fault, out),
    }
}

/// Reads the tables that the words name to their end, or makes ones without a row where they name none. The status is
/// the one that ends the call: `Tables` where the bytes are no tables file, which the line of their fault tells,
/// `ReadFault` where their source failed, `OutFault` where the sink did, or `Memory`.
pub fn tables_for<T: Source, O: Sink>(
    alloc: Global,
    words: &RxWords,
    src: &mut T,
    out: &mut O,
) -> Result<Tables, Status>
    ensures read { IfOk result (IsReadAs words.now.tables (T.left src.old) (T.left src.new)) }
    ensures good { IfOk result AreTables }
    ensures unprinted { IfOk result (λ _. out.new ≡ out.old) }
    ensures stopped { IfErr result (StopsReading words.now.tables (T.left src.old) (O.written out.old) (O.faults out.old) (O.written out.new) (O.faults out.new)) }
    ensures read_fault { result ≡ Err status.ReadFault → Rose (T.faults src.old) (T.faults src.new) }
    ensures unread { words.now.tables ≡ None → src.new ≡ src.old }
    ensures same_src { T.made src.new ≡ T.made src.old }
    ensures same_out { O.made out.new ≡ O.made out.old }
{
    if words.tables.is_none() {
        return Ok(no_tables(alloc)?);
    }
    match read_named(alloc, src) {
        Ok(tables) => Ok(tables),
        Err(fault) => Err(stop_for(alloc, fault, out)),
    }
}
