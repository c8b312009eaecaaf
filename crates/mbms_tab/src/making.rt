ghost use Rattle.std.specs.Prelude.{◌≡◌, ◌≤◌, map, string_bytes};
ghost use Rattle.mb_base.specs.Outside.{Rose};
ghost use Rattle.mb_base.specs.Status.TheVariants as status;
ghost use Rattle.mbms_tab.specs.Forms as form;
ghost use Rattle.mbms_tab.specs.Forms.{AreSizesAbove};
ghost use Rattle.mbms_tab.specs.Make.{Makes};

use crate::made::made_file;
use crate::progress::Progress;
use mb_base::{Failed, Memory, Sink, Status, write_all};
use std::alloc::Global;

/// Makes tables for the block sizes, and writes their file.
pub fn make<O: Sink, P: Progress>(
    alloc: Global,
    texts: &[String],
    out: &mut O,
    progress: &mut P,
) -> Status
    requires { AreSizesAbove 0 (map string_bytes texts.now) }
    ensures made { Makes (map form.size_of (map string_bytes texts.now)) (O.written out.old) (O.written out.new) result }
    ensures out_fault { result ≡ status.OutFault → Rose (O.faults out.old) (O.faults out.new) }
    ensures out_later { O.faults out.old ≤ O.faults out.new }
    ensures same { O.made out.new ≡ O.made out.old }
{
    let made = match made_file(alloc, texts, progress) {
        Ok(made) => made,
        Err(Memory) => return Status::Memory,
    };
    let Some(file) = made else {
        return Status::NoJ;
    };
    match write_all(out, &file) {
        Ok(()) => Status::Done,
        Err(Failed) => Status::OutFault,
    }
}
