ghost use Rattle.std.specs.Prelude.{◌≡◌, ◌↔◌, ℕ, ◌<◌, Some, [], ◌∷◌, ◌++◌, IsTrue, length, slice_index_or, IfOk, IsOkAnd, OnOk, OnErr};
ghost use Rattle.mb_outside.specs.Outside.{HasCause};
ghost use Rattle.mb_outside.specs.Files.{File};

use crate::Numbers;
use crate::entry::Entry;
use crate::plan::Plan;
use mb_outside::{Failed, Memory, Store};
use std::alloc::Global;

/// A store that keeps the files in memory, in the order in which they were put. A call of `put` fails
/// exactly where its number is a listed one, or where there is no room for the file.
#[derive(Drop)]
pub struct MemStore {
    alloc: Global,
    entries: Vec<Entry>,
    plan: Plan,
}

impl MemStore {
    ghost use Rattle.mb_memory.specs.Plan.{new_plan};
    ghost use Rattle.mb_memory.specs.InMemory.{files_in};

    /// A store with nothing put, whose calls with the numbers `failing`, counted from 1, fail. It is
    /// never refused.
    pub fn new(alloc: Global, failing: Vec<u64>) -> Result<Self, Memory>
        ensures files { IsOkAnd result (λ s. files_in s ≡ []) }
        ensures plan { IfOk result (λ s. s.plan ≡ new_plan failing.items) }
    {
        Ok(MemStore {
            alloc,
            entries: Vec::new(alloc),
            plan: Plan::new(failing),
        })
    }

    /// How many files were put. One that was put again counts again.
    pub fn len(&self) -> usize
        ensures { result ≡ length (files_in self.now) }
    {
        self.entries.len()
    }

    pub fn is_empty(&self) -> bool
        ensures { IsTrue result ↔ (files_in self.now ≡ []) }
    {
        self.entries.is_empty()
    }

    /// The TOI of the file that was put after `i` others.
    pub fn toi(&self, i: usize) -> u128
        requires { i < length (files_in self.now) }
        ensures { (d : File) → result ≡ (slice_index_or (files_in self.now) i d).toi }
    {
        self.entries[i].toi()
    }

    /// The location of the file that was put after `i` others.
    pub fn location(&self, i: usize) -> &[u8]
        requires { i < length (files_in self.now) }
        ensures { (d : File) → result.now ≡ (slice_index_or (files_in self.now) i d).location }
    {
        self.entries[i].location()
    }

    /// The bytes of the file that was put after `i` others.
    pub fn bytes(&self, i: usize) -> &[u8]
        requires { i < length (files_in self.now) }
        ensures { (d : File) → result.now ≡ (slice_index_or (files_in self.now) i d).bytes }
    {
        self.entries[i].bytes()
    }

    /// How many calls found no room.
    pub fn refused(&self) -> u64
        ensures { result ≡ self.now.plan.refused }
    {
        self.plan.refused()
    }
}

impl Store for MemStore {
    ghost use Rattle.mb_memory.specs.Plan.{Calls, faults_of};
    ghost use Rattle.mb_memory.specs.InMemory.{files_in};

    type Made = Numbers;

    ghost made = { λ s. s.plan.failing };

    ghost files = { λ s. Some (files_in s) };

    ghost faults = { λ s. faults_of s.plan };

    fn put(&mut self, toi: u128, location: &[u8], bytes: &[u8]) -> Result<(), Failed>
        ensures put { OnOk result (files_in self.new ≡ files_in self.old ++
            (record { toi = toi; location = location.now; bytes = bytes.now } ∷ [])) }
        ensures kept { OnErr result (files_in self.new ≡ files_in self.old) }
        ensures cause { HasCause (faults_of self.old.plan) (faults_of self.new.plan) result }
        ensures same { self.new.plan.failing ≡ self.old.plan.failing }
        ensures calls { Calls self.old.plan self.new.plan result }
    {
        if self.plan.call() {
            return Err(Failed);
        }
        let Ok(entry) = Entry::copied(self.alloc, toi, location, bytes) else {
            self.plan.refuse();
            return Err(Failed);
        };
        if self.entries.push(entry).is_err() {
            self.plan.refuse();
            return Err(Failed);
        }
        Ok(())
    }
}
