ghost use Rattle.std.specs.Prelude.{◌≡◌, ◌↔◌, ℕ, ◌<◌, ◌≤◌, Some, [], ◌++◌, length, take, drop, vec_len, IfOk, IsOkAnd, OnErr, IsErr};
ghost use Rattle.mb_outside.specs.Outside.{HasCause, AreBytes};

use crate::Numbers;
use crate::plan::Plan;
use mb_outside::{Failed, Memory, Source};

/// A source whose bytes to come lie in memory. A call of `read` takes no memory and fails exactly where
/// its number is a listed one.
#[derive(Drop)]
pub struct MemSource {
    bytes: Vec<u8>,
    /// Where the bytes to come begin.
    place: usize,
    plan: Plan,
    ghost within: { place ≤ vec_len bytes },
    ghost are_bytes: { AreBytes bytes.items },
}

impl MemSource {
    ghost use Rattle.mb_memory.specs.Plan.{new_plan};
    ghost use Rattle.mb_memory.specs.InMemory.{left_in};

    /// The source of the bytes `left`, whose calls with the numbers `failing`, counted from 1, fail.
    /// It is never refused.
    pub fn new(left: Vec<u8>, failing: Vec<u64>) -> Result<Self, Memory>
        ensures left { IsOkAnd result (λ s. left_in s ≡ left.items) }
        ensures plan { IfOk result (λ s. s.plan ≡ new_plan failing.items) }
    {
        Ok(MemSource {
            bytes: left,
            place: 0,
            plan: Plan::new(failing),
        })
    }

    /// How many calls found no room: none, since none takes memory.
    pub fn refused(&self) -> u64
        ensures { result ≡ self.now.plan.refused }
    {
        self.plan.refused()
    }
}

impl Source for MemSource {
    ghost use Rattle.mb_memory.specs.Plan.{Calls, IsListed, faults_of};
    ghost use Rattle.mb_memory.specs.InMemory.{left_in};
    ghost use Rattle.std.proofs.lemmas.List.Elements.{All-drop};

    type Made = Numbers;

    ghost made = { λ s. s.plan.failing };

    ghost left = { λ s. Some (left_in s) };

    ghost faults = { λ s. faults_of s.plan };

    fn read(&mut self, buf: &mut [u8]) -> Result<usize, Failed>
        ensures within { IfOk result (λ n. n ≤ length buf.new) }
        ensures moved { IfOk result (λ n. left_in self.old ≡ take n buf.new ++ left_in self.new) }
        ensures end { IfOk result (λ n. n ≡ 0 → 0 < length buf.new → left_in self.new ≡ []) }
        ensures kept { OnErr result (left_in self.new ≡ left_in self.old) }
        ensures cause { HasCause (faults_of self.old.plan) (faults_of self.new.plan) result }
        ensures same { self.new.plan.failing ≡ self.old.plan.failing }
        ensures calls { Calls self.old.plan self.new.plan result }
        ensures listed { IsErr result ↔ IsListed self.new.plan }
    {
        if self.plan.call() {
            return Err(Failed);
        }
        let count = buf.len().min(self.bytes.len() - self.place);
        buf[..count].copy_from_slice(&self.bytes[self.place..self.place + count]);
        self.place += count;
        Ok(count)
    }

    ghost bytes = { λ source. All-drop (λ byte. byte < 256) source.place source.bytes.items source.are_bytes };
}
