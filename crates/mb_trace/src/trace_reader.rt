ghost use Rattle.std.specs.Prelude.{◌≡◌, ◌≢◌, ℕ, List, [], ◌++◌, ◌<◌, ◌≤◌, Option, Some, true, false, length, option_map, IfOk, IfSome, IfNone, OnErr};
ghost use Rattle.mb_outside.specs.Outside.{AreBytes, Becomes, HasCause, Stays, EndsAt, count_most};
ghost use Rattle.mb_outside.specs.Broadcast.{Hears, IsWithin, EventCause};
ghost use Rattle.mb_trace.specs.RecordBuffer.{held_bytes};
ghost use Rattle.mb_trace.specs.Trace.{trace_broadcast, bytes_ahead, has_record, moments_end, IsWhole, IsPart, TellsTrace, Gives};

use crate::number::be48;
use crate::record_buffer::RecordBuffer;
use crate::trace::{HEADER, whole_record};
use mb_outside::{AirEvent, DatagramBuffer, Failed, Memory, Source};
use std::alloc::Global;

/// A reader of a packet trace, which is lent the source of the trace at each call. It takes room for one
/// record when it is made, and no memory afterwards.
///
/// It reads ahead: what it has read and not yet given is lost with it.
#[derive(Drop)]
pub struct TraceReader {
    held: RecordBuffer,
    place: u64,
}

impl TraceReader {
    ghost use Rattle.mb_trace.specs.TraceReader.{ahead_of, held_of, holds_record};

    /// A reader that has read nothing. `Memory` where there is no room for a record.
    pub fn new(alloc: Global) -> Result<TraceReader, Memory>
        ensures ahead { IfOk result (λ reader. (rested : Option ℕ) (left : Option (List ℕ))
            → ahead_of reader rested left ≡ option_map (trace_broadcast 0 rested) left) }
        ensures none { IfOk result (λ reader. held_of reader ≡ []) }
        ensures trace { IfOk result (λ reader. (rested : Option ℕ) (bytes : List ℕ) → AreBytes bytes
            → length bytes ≤ count_most → TellsTrace bytes rested (ahead_of reader rested (Some bytes))) }
    {
        let held = RecordBuffer::new(alloc)?;
        Ok(TraceReader { held, place: 0 })
    }

    /// Whether a whole record was read and is not given yet, so that the next one is given without a read.
    pub fn has_record(&self) -> bool
        ensures { result ≡ holds_record self.now }
    {
        whole_record(self.held.as_slice()).is_some()
    }

    /// Takes the next record of the trace, if its moment is at most `until`, and moves its bytes into the
    /// front of `buf`, as `Air::next` does. It answers `Failed` exactly where the source fails in this call:
    /// what was read before stays for the next one.
    pub fn next<S: Source>(
        &mut self,
        source: &mut S,
        until: u64,
        buf: &mut DatagramBuffer,
    ) -> AirEvent
        ensures within { IsWithin until result }
        ensures heard { (rested : Option ℕ) → Becomes (ahead_of self.old rested (S.left source.old))
            (ahead_of self.new rested (S.left source.new)) (Hears until result buf.new) }
        ensures given { Becomes (bytes_ahead (held_of self.old) (S.left source.old))
            (bytes_ahead (held_of self.new) (S.left source.new)) (Gives result buf.new) }
        // It fails only where each whole record that it has read was given.
        ensures failed { result ≡ AirEvent.Failed → (holds_record self.old ≡ false) × (holds_record self.new ≡ false) }
        ensures unread { holds_record self.old ≡ true → source.new ≡ source.old }
        // No moment is past the last that a record can have.
        ensures quiet { result ≡ AirEvent.Quiet → until < moments_end }
        ensures cause { EventCause (S.faults source.old) (S.faults source.new) result }
        ensures same { S.made source.new ≡ S.made source.old }
    {
        match fill_record(&mut self.held, source) {
            Err(Failed) => AirEvent::Failed,
            Ok(Some(size)) => give(&mut self.held, &mut self.place, size, until, buf),
            Ok(None) => end_at(self.place, self.held.as_slice()),
        }
    }
}

/// Reads until a whole record is held, and answers its size, or `None` where the source ends before.
fn fill_record<S: Source>(held: &mut RecordBuffer, source: &mut S) -> Result<Option<usize>, Failed>
    ensures kept { Stays (bytes_ahead (held_bytes held.old) (S.left source.old))
        (bytes_ahead (held_bytes held.new) (S.left source.new)) }
    ensures whole { IfOk result (λ found. IfSome found (λ size. IsWhole size (held_bytes held.new))) }
    ensures end { IfOk result (λ found. IfNone found (IsPart (held_bytes held.new) × EndsAt (S.left source.new))) }
    ensures failed { OnErr result ((has_record (held_bytes held.old) ≡ false) × (has_record (held_bytes held.new) ≡ false)) }
    ensures unread { has_record (held_bytes held.old) ≡ true → source.new ≡ source.old }
    ensures cause { HasCause (S.faults source.old) (S.faults source.new) result }
    ensures same { S.made source.new ≡ S.made source.old }
{
    'reads: loop {
        if let Some(size) = whole_record(held.as_slice()) {
            return Ok(Some(size));
        }
        if held.read_from(source)? == 0 {
            return Ok(None);
        }
    }
}

/// Gives the whole record at the front, or keeps it where it is of a later moment.
fn give(
    held: &mut RecordBuffer,
    place: &mut u64,
    size: usize,
    until: u64,
    buf: &mut DatagramBuffer,
) -> AirEvent
    requires { IsWhole size (held_bytes held.old) }
    ensures within { IsWithin until result }
    ensures heard { (rested : Option ℕ) (later : List ℕ) → Hears until result buf.new
        (trace_broadcast place.old rested (held_bytes held.old ++ later))
        (trace_broadcast place.new rested (held_bytes held.new ++ later)) }
    ensures given { (later : List ℕ) → Gives result buf.new (held_bytes held.old ++ later) (held_bytes held.new ++ later) }
    ensures quiet { result ≡ AirEvent.Quiet → until < moments_end }
    ensures unfailed { result ≢ AirEvent.Failed }
    ensures cause { (count : ℕ) → EventCause count count result }
{
    let record = held.as_slice();
    let at = be48(&record[..6]);
    if until < at {
        return AirEvent::Quiet;
    }
    let len = size - HEADER;
    buf.put(&record[HEADER..size]);
    held.skip(size);
    *place = place.saturating_add(size as u64);
    AirEvent::Datagram { at, len }
}

/// How a trace ends with the bytes that are left of it at a place.
fn end_at(place: u64, bytes: &[u8]) -> AirEvent
    requires { IsPart bytes.now }
    ensures within { (until : ℕ) → IsWithin until result }
    ensures heard { (until : ℕ) (rested : Option ℕ) (buf : List ℕ) → Hears until result buf
        (trace_broadcast place rested bytes.now) (trace_broadcast place rested bytes.now) }
    ensures given { (buf bytes : List ℕ) → Gives result buf bytes bytes }
    ensures unfailed { result ≢ AirEvent.Failed }
    ensures quiet { result ≢ AirEvent.Quiet }
    ensures cause { (count : ℕ) → EventCause count count result }
{
    if bytes.is_empty() {
        AirEvent::Ended
    } else {
        AirEvent::Broken { place }
    }
}
