ghost use Rattle.std.specs.Prelude.{◌≡◌, ℕ, List, [], Option, ◌+◌, ◌<◌, ◌≤◌, length, drop, vec_len, IfOk, OnErr};
ghost use Rattle.mb_outside.specs.Outside.{HasCause, Stays, EndsAt};
ghost use Rattle.mb_trace.specs.Trace.{bytes_ahead, record_most};

use crate::trace::RECORD_MAX;
use mb_outside::{Failed, Memory, Source, room};
use std::alloc::Global;

/// Bytes that were read from a source and not yet given: those of `bytes` from `start` to `end`, with
/// room for a whole record.
#[derive(Drop)]
pub(crate) struct RecordBuffer {
    bytes: Vec<u8>,
    start: usize,
    end: usize,
    ghost room: { vec_len bytes ≡ record_most },
    ghost ordered: { start ≤ end },
    ghost within: { end ≤ record_most },
}

impl RecordBuffer {
    ghost use Rattle.mb_trace.specs.RecordBuffer.{held_bytes};

    pub(crate) fn new(alloc: Global) -> Result<RecordBuffer, Memory>
        ensures { IfOk result (λ held. held_bytes held ≡ []) }
    {
        let bytes = room(alloc, RECORD_MAX)?;
        Ok(RecordBuffer {
            bytes,
            start: 0,
            end: 0,
        })
    }

    pub(crate) fn as_slice(&self) -> &[u8]
        ensures { result.now ≡ held_bytes self.now }
    {
        &self.bytes[self.start..self.end]
    }

    pub(crate) fn skip(&mut self, count: usize)
        requires { count ≤ length (held_bytes self.old) }
        ensures { held_bytes self.new ≡ drop count (held_bytes self.old) }
    {
        self.start += count;
    }

    fn move_to_front(&mut self)
        ensures bytes { held_bytes self.new ≡ held_bytes self.old }
        ensures start { self.new.start ≡ 0 }
    {
        let (start, end) = (self.start, self.end);
        if start > 0 {
            self.bytes.copy_within(start..end, 0);
            self.start = 0;
            self.end = end - start;
        }
    }

    /// Reads as much as there is room for, and answers how many bytes these were: none only at the end.
    pub(crate) fn read_from<S: Source>(&mut self, source: &mut S) -> Result<usize, Failed>
        requires { length (held_bytes self.old) < record_most }
        ensures kept { Stays (bytes_ahead (held_bytes self.old) (S.left source.old))
            (bytes_ahead (held_bytes self.new) (S.left source.new)) }
        ensures failed { OnErr result (held_bytes self.new ≡ held_bytes self.old) }
        ensures more { IfOk result (λ n. length (held_bytes self.new) ≡ length (held_bytes self.old) + n) }
        ensures most { length (held_bytes self.new) ≤ record_most }
        ensures end { IfOk result (λ n. n ≡ 0 →
            (held_bytes self.new ≡ held_bytes self.old) × EndsAt (S.left source.new)) }
        ensures cause { HasCause (S.faults source.old) (S.faults source.new) result }
        ensures same { S.made source.new ≡ S.made source.old }
    {
        self.move_to_front();
        let end = self.end;
        let count = source.read(&mut self.bytes[end..])?;
        self.end = end + count;
        Ok(count)
    }
}
