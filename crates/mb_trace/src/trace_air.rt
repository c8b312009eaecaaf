ghost use Rattle.std.specs.Prelude.{◌≡◌, ℕ, List, ◌≤◌, Option, None, Some, length, option_map, IfOk};
ghost use Rattle.mb_trace.specs.Trace.{trace_broadcast, TellsTrace};
ghost use Rattle.mb_outside.specs.Outside.{count_most};

use crate::TraceReader;
use mb_outside::{Air, AirEvent, DatagramBuffer, Memory, Source};
use std::alloc::Global;

/// The air that a packet trace tells of, which is read from a source as it is asked for. Moments are NTP
/// seconds. It takes room for one record when it is made, and no memory afterwards.
///
/// It is told where its source is, its faults are its source's, and it answers `Failed` exactly where the
/// source fails in that call: what was read before stays for the next one. A cut record is `Broken` at
/// its first byte, counted from the first byte that the source gave; that count stands still at
/// `u64::MAX`.
#[derive(Drop)]
pub struct TraceAir<S> {
    source: S,
    reader: TraceReader,
    rested: Option<u64>,
}

impl<S: Source + Drop> TraceAir<S> {
    /// The air of the trace that the source is about to give. `Memory` where there is no room for a record;
    /// the source is then dropped.
    pub fn new(alloc: Global, source: S) -> Result<TraceAir<S>, Memory>
        ensures told { IfOk result (λ air. ⟦<TraceAir<S> as Air>⟧.broadcast air
            ≡ option_map (trace_broadcast 0 None) (S.left source)) }
        ensures trace { (bytes : List ℕ) → S.left source ≡ Some bytes → length bytes ≤ count_most
            → IfOk result (λ air. TellsTrace bytes None (⟦<TraceAir<S> as Air>⟧.broadcast air)) }
        ensures faults { IfOk result (λ air. ⟦<TraceAir<S> as Air>⟧.faults air ≡ S.faults source) }
        ensures made { IfOk result (λ air. ⟦<TraceAir<S> as Air>⟧.made air ≡ S.made source) }
    {
        let reader = TraceReader::new(alloc)?;
        Ok(TraceAir {
            source,
            reader,
            rested: None,
        })
    }
}

impl<S: Source> Air for TraceAir<S> {
    ghost use Rattle.mb_trace.specs.TraceReader.{ahead_of};

    type Made = S::Made;

    ghost made = { λ air. S.made air.source };

    ghost broadcast = { λ air. ahead_of air.reader air.rested (S.left air.source) };

    ghost faults = { λ air. S.faults air.source };

    fn next(&mut self, until: u64, buf: &mut DatagramBuffer) -> AirEvent {
        self.reader.next(&mut self.source, until, buf)
    }

    fn rest(&mut self, until: u64) {
        self.rested = Some(until);
    }
}
