ghost use Rattle.std.specs.Prelude.{◌≡◌, string_bytes};
ghost use Rattle.mb_base.specs.TraceReader.{holds_record};
ghost use Rattle.mb_base.specs.Status.TheVariants as status;
ghost use Rattle.mb_program.specs.Printing.{CountsFaults};
ghost use Rattle.mbms_tab.specs.Steps.{Finishes, PrintsUnless};

use crate::lines::push_end;
use mb_base::{Sink, Status, TraceReader};
use mb_program::print;
use std::alloc::Global;

/// Prints the gathered lines where the reader is about to read, since a read may have to wait for its bytes.
pub fn print_before_read<O: Sink>(
    reader: &TraceReader,
    lines: &mut String,
    out: &mut O,
) -> Result<(), Status>
    ensures printed { PrintsUnless (holds_record reader.now) (string_bytes lines.old) (string_bytes lines.new)
        (O.written out.old) (O.written out.new) result }
    ensures cause { CountsFaults status.OutFault (O.faults out.old) (O.faults out.new) result }
    ensures same { O.made out.new ≡ O.made out.old }
{
    if reader.has_record() {
        return Ok(());
    }
    print(out, lines.as_str())?;
    lines.clear();
    Ok(())
}

/// Prints the gathered lines, and behind them that of the place where the trace is broken, if it is.
pub fn print_end<O: Sink>(
    alloc: Global,
    broken: Option<u64>,
    lines: &mut String,
    out: &mut O,
) -> Result<(), Status>
    ensures printed { Finishes broken (string_bytes lines.old) (O.written out.old) (O.written out.new) result }
    ensures cause { CountsFaults status.OutFault (O.faults out.old) (O.faults out.new) result }
    ensures same { O.made out.new ≡ O.made out.old }
{
    push_end(alloc, lines, broken)?;
    print(out, lines.as_str())
}
