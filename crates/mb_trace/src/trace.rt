ghost use Rattle.std.specs.Prelude.{◌≡◌, ℕ, List, Option, ◌+◌, ◌<◌, ◌≤◌, ◌++◌, length, IfSome, IfNone, OnOk, OnErr};
ghost use Rattle.mb_outside.specs.Broadcast.{Record, datagram_most};
ghost use Rattle.mb_trace.specs.Trace.{record_bytes, moments_end, IsWhole, IsPart, TracesAreRead};

use crate::number::{be16, put_be16, put_be48};
use mb_outside::{DATAGRAM_MAX, Memory};

/// How many bytes stand before a record's datagram: its moment and its length.
pub(crate) const HEADER: usize = 8;

/// How many bytes a record has at most.
pub(crate) const RECORD_MAX: usize = HEADER + DATAGRAM_MAX;

/// Appends the record of a datagram that was heard at the moment `at`, in NTP seconds: the moment in 48
/// bits, the datagram's length in 16, and the datagram. `Memory` where there is no room for all of it; the
/// bytes are then as before.
pub fn trace_bytes(at: u64, datagram: &[u8], out: &mut Vec<u8>) -> Result<(), Memory>
    requires moment { at < moments_end }
    requires length { length datagram.now ≤ datagram_most }
    ensures appended { OnOk result
        (out.new.items ≡ out.old.items ++ record_bytes (record { at = at; bytes = datagram.now })) }
    ensures kept { OnErr result (out.new.items ≡ out.old.items) }
{
    // With the room taken first, nothing after it can fail half-way.
    out.reserve(HEADER + datagram.len())?;
    put_be48(out, at)?;
    put_be16(out, datagram.len() as u16)?;
    out.extend_from_slice(datagram)?;
    Ok(())
}

/// How many bytes the record at the front has, where all of them are there.
pub(crate) fn whole_record(bytes: &[u8]) -> Option<usize>
    ensures whole { IfSome result (λ size. IsWhole size bytes.now) }
    ensures part { IfNone result (IsPart bytes.now) }
{
    if bytes.len() < HEADER {
        return None;
    }
    let size = HEADER + usize::from(be16(&bytes[6..HEADER]));
    if size <= bytes.len() {
        Some(size)
    } else {
        None
    }
}

/// The law of traces: bytes are a trace in exactly one way, which the functions of `specs/Trace.antt` give.
/// It does nothing.
pub fn traces_are_read()
    ensures { TracesAreRead }
{}
