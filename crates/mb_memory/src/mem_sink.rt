ghost use Rattle.std.specs.Prelude.{◌≡◌, ℕ, ◌<◌, ◌≤◌, Some, [], ◌++◌, length, take, IfOk, IsOkAnd, OnErr};
ghost use Rattle.mb_outside.specs.Outside.{HasCause};

use crate::Numbers;
use crate::plan::Plan;
use mb_outside::{Failed, Memory, Sink};
use std::alloc::Global;

/// A sink that keeps what is written in memory. A call of `write` fails exactly where its number is a
/// listed one, or where there is no room for its bytes; any other writes them all.
#[derive(Drop)]
pub struct MemSink {
    bytes: Vec<u8>,
    plan: Plan,
}

impl MemSink {
    ghost use Rattle.mb_memory.specs.Plan.{new_plan};
    ghost use Rattle.mb_memory.specs.InMemory.{written_in};

    /// A sink with nothing written, whose calls with the numbers `failing`, counted from 1, fail. It is
    /// never refused.
    pub fn new(alloc: Global, failing: Vec<u64>) -> Result<Self, Memory>
        ensures written { IsOkAnd result (λ s. written_in s ≡ []) }
        ensures plan { IfOk result (λ s. s.plan ≡ new_plan failing.items) }
    {
        Ok(MemSink {
            bytes: Vec::new(alloc),
            plan: Plan::new(failing),
        })
    }

    /// All that was written.
    pub fn written(&self) -> &[u8]
        ensures { result.now ≡ written_in self.now }
    {
        self.bytes.as_slice()
    }

    /// How many calls found no room.
    pub fn refused(&self) -> u64
        ensures { result ≡ self.now.plan.refused }
    {
        self.plan.refused()
    }
}

impl Sink for MemSink {
    ghost use Rattle.mb_memory.specs.Plan.{Calls, faults_of};
    ghost use Rattle.mb_memory.specs.InMemory.{written_in};

    type Made = Numbers;

    ghost made = { λ s. s.plan.failing };

    ghost written = { λ s. Some (written_in s) };

    ghost faults = { λ s. faults_of s.plan };

    fn write(&mut self, buf: &[u8]) -> Result<usize, Failed>
        ensures within { IfOk result (λ n. n ≤ length buf.now) }
        ensures some { IfOk result (λ n. 0 < length buf.now → 0 < n) }
        ensures appended { IfOk result (λ n. written_in self.new ≡ written_in self.old ++ take n buf.now) }
        ensures all { IfOk result (λ n. n ≡ length buf.now) }
        ensures kept { OnErr result (written_in self.new ≡ written_in self.old) }
        ensures cause { HasCause (faults_of self.old.plan) (faults_of self.new.plan) result }
        ensures same { self.new.plan.failing ≡ self.old.plan.failing }
        ensures calls { Calls self.old.plan self.new.plan result }
    {
        if self.plan.call() {
            return Err(Failed);
        }
        if self.bytes.extend_from_slice(buf).is_err() {
            self.plan.refuse();
            return Err(Failed);
        }
        Ok(buf.len())
    }
}
