ghost use Rattle.std.specs.Prelude.{◌≡◌, ◌≤◌, string_bytes};
ghost use Rattle.mb_base.specs.Outside.{Rose};
ghost use Rattle.mb_base.specs.Status.TheVariants as status;
ghost use Rattle.mb_program.specs.Printing.{CountsFaults, Prints, Refuses};

use mb_base::{Failed, Sink, Status, write_all};

/// Prints text: it is appended to the sink. `Status::OutFault` where a call of the sink failed, and then a
/// beginning of the text may be printed.
pub fn print<O: Sink>(out: &mut O, text: &str) -> Result<(), Status>
    ensures printed { Prints text.now (O.written out.old) (O.written out.new) result }
    ensures cause { CountsFaults status.OutFault (O.faults out.old) (O.faults out.new) result }
    ensures same { O.made out.new ≡ O.made out.old }
{
    match write_all(out, text.as_bytes()) {
        Ok(()) => Ok(()),
        Err(Failed) => Err(Status::OutFault),
    }
}

/// Refuses a program's arguments: prints the line `usage`, and answers `Status::Usage`, or `Status::OutFault`
/// where the sink failed.
pub fn refuse<O: Sink>(out: &mut O) -> Status
    ensures refused { Refuses result (O.written out.old) (O.written out.new) }
    ensures later { O.faults out.old ≤ O.faults out.new }
    ensures fault { result ≡ status.OutFault → Rose (O.faults out.old) (O.faults out.new) }
    ensures same { O.made out.new ≡ O.made out.old }
{
    match print(out, "usage\n") {
        Ok(()) => Status::Usage,
        Err(status) => status,
    }
}
