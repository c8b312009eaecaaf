ghost use Rattle.std.specs.Prelude.{◌≡◌, [], None, string_bytes};
ghost use Rattle.mb_base.specs.TraceReader.{ahead_of, held_of, holds_record};
ghost use Rattle.mb_base.specs.Status.TheVariants as status;
ghost use Rattle.mb_program.specs.Printing.{CountsFaults};
ghost use Rattle.mbms_tab.specs.Steps.{ahead_by, trace_ahead, IsNext, IsRead, ShowsOrStops};

use crate::lines::push_record;
use crate::printing::{print_before_read, print_end};
use mb_base::{AirEvent, DatagramBuffer, Sink, Source, Status, TraceReader};
use std::alloc::Global;

/// How many records of a trace are shown at most.
pub const RECORDS_MAX: u32 = 4_294_967_295;

/// What came next in a trace.
#[derive(Clone, Copy)]
pub enum Turn {
    /// A record.
    More,
    /// Its end, and the place where it is broken, if it is.
    Over(Option<u64>),
}

/// Takes the next record, and gathers its line behind those that wait.
fn gather_next<S: Source>(
    reader: &mut TraceReader,
    src: &mut S,
    buf: &mut DatagramBuffer,
    lines: &mut String,
) -> Result<Turn, Status>
    ensures next { IsNext (holds_record reader.old)
        (ahead_by (held_of reader.old) (S.left src.old) (ahead_of reader.old None (S.left src.old)))
        (ahead_by (held_of reader.new) (S.left src.new) (ahead_of reader.new None (S.left src.new)))
        (S.left src.new) (string_bytes lines.old) (string_bytes lines.new) result }
    ensures cause { CountsFaults status.ReadFault (S.faults src.old) (S.faults src.new) result }
    ensures same { S.made src.new ≡ S.made src.old }
{
    match reader.next(src, u64::MAX, buf) {
        AirEvent::Datagram { at, len } => {
            push_record(lines, at, buf.front(len))?;
            Ok(Turn::More)
        }
        AirEvent::Quiet => unreachable!(),
        AirEvent::Ended => Ok(Turn::Over(None)),
        AirEvent::Broken { place } => Ok(Turn::Over(Some(place))),
        AirEvent::Failed => Err(Status::ReadFault),
    }
}

/// Takes the records of a trace to its end, prints their lines, and answers where the trace is broken, if it is.
/// The last lines wait.
fn read_lines<S: Source, O: Sink>(
    reader: &mut TraceReader,
    src: &mut S,
    buf: &mut DatagramBuffer,
    lines: &mut String,
    out: &mut O,
) -> Result<Option<u64>, Status>
    requires none { string_bytes lines.old ≡ [] }
    ensures read { IsRead (ahead_by (held_of reader.old) (S.left src.old) (ahead_of reader.old None (S.left src.old)))
        (S.left src.new) (string_bytes lines.new) (O.written out.old) (O.written out.new) result }
    ensures read_cause { CountsFaults status.ReadFault (S.faults src.old) (S.faults src.new) result }
    ensures print_cause { CountsFaults status.OutFault (O.faults out.old) (O.faults out.new) result }
    ensures same_src { S.made src.new ≡ S.made src.old }
    ensures same_out { O.made out.new ≡ O.made out.old }
{
    for _ in 0..RECORDS_MAX {
        print_before_read(reader, lines, out)?;
        if let Turn::Over(broken) = gather_next(reader, src, buf, lines)? {
            return Ok(broken);
        }
    }
    Ok(None)
}

/// Prints what the datagrams of a trace say, each in a line, and answers where the trace is broken, if it is.
pub fn show<S: Source, O: Sink>(
    alloc: Global,
    src: &mut S,
    out: &mut O,
) -> Result<Option<u64>, Status>
    ensures shown { ShowsOrStops (trace_ahead (S.left src.old)) (S.left src.new) (O.written out.old) (O.written out.new) result }
    ensures read_cause { CountsFaults status.ReadFault (S.faults src.old) (S.faults src.new) result }
    ensures print_cause { CountsFaults status.OutFault (O.faults out.old) (O.faults out.new) result }
    ensures same_src { S.made src.new ≡ S.made src.old }
    ensures same_out { O.made out.new ≡ O.made out.old }
{
    let mut reader = TraceReader::new(alloc)?;
    let mut buf = DatagramBuffer::new(alloc)?;
    let mut lines = String::new(alloc);
    let broken = read_lines(&mut reader, src, &mut buf, &mut lines, out)?;
    print_end(alloc, broken, &mut lines, out)?;
    Ok(broken)
}
