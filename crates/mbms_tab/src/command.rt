ghost use Rattle.std.specs.Prelude.{◌≡◌, ◌≤◌, map, string_bytes};
ghost use Rattle.mb_base.specs.Outside.{Rose};
ghost use Rattle.mb_base.specs.Status.TheVariants as status;
ghost use Rattle.mb_program.specs.Printing.{Refuses};
ghost use Rattle.mbms_tab.specs.Forms.{show_arguments, check_arguments, sizes_of, AreMakeArguments, HasNoForm};
ghost use Rattle.mbms_tab.specs.Show.{Shows};
ghost use Rattle.mbms_tab.specs.Check.{Checks};
ghost use Rattle.mbms_tab.specs.Make.{Makes};

use crate::checking::check;
use crate::form::{Form, form_of};
use crate::making::make;
use crate::progress::Progress;
use crate::showing::show;
use mb_base::{Sink, Source, Status};
use mb_program::refuse;
use std::alloc::Global;
use std::thread::Threads;

/// Does what a program's arguments say, which are without its own name. They have one of three forms.
///
/// `show` reads a packet trace from `src`. For each record it prints a line with what the datagram says (RFC
/// 3450, RFC 3926), or with the word of the reason for which it is no packet. The trace counts as ended after
/// 4,294,967,295 records. Lines are printed before more of the trace is read, so that no line waits for a record
/// that has not come.
///
/// `check` reads a tables file from `src` to its end. For each row it prints a line with the row's numbers and
/// whether its K is usable: whether the K source symbols of a block determine all others (RFC 5053 section
/// 5.4.4.4). The lines are in the order of the rows, and printed as they come.
///
/// `make` and block sizes, which rise, makes tables with a row for each, and writes their file. V0 and V1 come
/// from a generator, and the row has the least J under which its K is usable.
///
/// It returns 0 where the whole trace was shown, all rows were looked at, or the tables were written; 2 where the
/// arguments have no form, and then prints `usage`; 3 where the bytes are no tables file, and then prints the line
/// of the fault; 4 where the trace ends inside a record, and then prints its place behind the lines; 5 where the
/// source failed, behind the lines of all whole records that came; 8 where the sink failed; 9 for want of memory;
/// 13 where no J makes one of the block sizes usable, and then nothing is written. What was printed before stays.
pub fn tab<R: Threads + Sync, S: Source, O: Sink, P: Progress>(
    rt: &R,
    alloc: Global,
    arguments: &[String],
    src: &mut S,
    out: &mut O,
    progress: &mut P,
) -> Status
    ensures shown { map string_bytes arguments.now ≡ show_arguments
        → Shows (S.left src.old) (S.left src.new) (O.written out.old) (O.written out.new) result }
    ensures checked { map string_bytes arguments.now ≡ check_arguments
        → Checks (S.left src.old) (O.written out.old) (O.written out.new) result }
    ensures made { AreMakeArguments (map string_bytes arguments.now)
        → Makes (sizes_of (map string_bytes arguments.now)) (O.written out.old) (O.written out.new) result }
    ensures refused { HasNoForm (map string_bytes arguments.now) → Refuses result (O.written out.old) (O.written out.new) }
    ensures unread { HasNoForm (map string_bytes arguments.now) → src.new ≡ src.old }
    ensures unread_by_make { AreMakeArguments (map string_bytes arguments.now) → src.new ≡ src.old }

    // The faults of the outside have their cause in this call.
    ensures read_fault { result ≡ status.ReadFault → Rose (S.faults src.old) (S.faults src.new) }
    ensures out_fault { result ≡ status.OutFault → Rose (O.faults out.old) (O.faults out.new) }
    ensures read_later { S.faults src.old ≤ S.faults src.new }
    ensures out_later { O.faults out.old ≤ O.faults out.new }

    // What stays as it was.
    ensures same_src { S.made src.new ≡ S.made src.old }
    ensures same_out { O.made out.new ≡ O.made out.old }
{
    match form_of(arguments) {
        Some(Form::Show) => match show(alloc, src, out) {
            Ok(None) => Status::Done,
            Ok(Some(_)) => Status::TraceBroken,
            Err(status) => status,
        },
        Some(Form::Check) => check(rt, alloc, src, out, progress),
        Some(Form::Make(texts)) => make(alloc, texts, out, progress),
        None => refuse(out),
    }
}
