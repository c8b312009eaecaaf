ghost use Rattle.std.specs.Prelude.{◌≡◌, ◌↔◌, ℕ, ◌<◌, ◌≤◌, Some, [], map, length, take, All, Contains, IfOk, OnErr, IsErr};
ghost use Rattle.mb_base.specs.Outside.{HasCause, AreBytes};
ghost use Rattle.mb_base.specs.Plan.{next_count};
ghost use Rattle.mb_shelf.specs.Shelf.{LosesAt, left_at};

use crate::Shelf;
use crate::mem_file::MemFile;
use mb_base::{Failed, Memory, Numbers};
use std::alloc::Global;

/// A shelf whose files lie in memory. A call of `read` takes no memory and fails exactly where its number is a
/// listed one. Each count stands still at the last value of its type.
#[derive(Drop)]
pub struct MemShelf {
    files: Vec<MemFile>,
    /// The numbers of the calls that are to fail.
    failing: Numbers,
    /// How many calls were made.
    calls: u64,
    /// How many of them were listed.
    listed: u64,
    ghost are_bytes: { All AreBytes files.items },
}

impl MemShelf {
    ghost use Rattle.mb_shelf.specs.InMemory.{files_in};

    /// The shelf of the files with the bytes `files`, whose calls with the numbers `failing`, counted from
    /// 1 over all files, fail. `Memory` where there is no room to keep the files.
    pub fn new(alloc: Global, files: Vec<Vec<u8>>, failing: Vec<u64>) -> Result<Self, Memory>
        ensures files { IfOk result (λ s. files_in s ≡ map (λ file. file.items) files.items) }
        ensures failing { IfOk result (λ s. s.failing ≡ failing.items) }
        ensures calls { IfOk result (λ s. s.calls ≡ 0) }
        ensures listed { IfOk result (λ s. s.listed ≡ 0) }
    {
        let mut kept = Vec::with_capacity(alloc, files.len())?;
        for file in files {
            kept.push(MemFile::new(file))?;
        }
        Ok(MemShelf {
            files: kept,
            failing: Numbers::from_vec(failing),
            calls: 0,
            listed: 0,
        })
    }

    /// How many calls found no room: none, since none takes memory.
    pub fn refused(&self) -> u64
        ensures { result ≡ 0 }
    {
        0
    }
}

impl Shelf for MemShelf {
    ghost use Rattle.mb_shelf.specs.InMemory.{files_in};

    type Made = Numbers;

    ghost made = { λ s. s.failing };

    ghost left = { λ s. Some (files_in s) };

    ghost faults = { λ s. s.listed };

    fn read(&mut self, file: u32, buf: &mut [u8]) -> Result<usize, Failed>
        ensures within { IfOk result (λ n. n ≤ length buf.new) }
        ensures moved { IfOk result (λ n. LosesAt file (take n buf.new) (files_in self.old) (files_in self.new)) }
        ensures end { IfOk result (λ n. n ≡ 0 → 0 < length buf.new → left_at file (files_in self.new) ≡ []) }
        ensures kept { OnErr result (files_in self.new ≡ files_in self.old) }
        ensures cause { HasCause self.old.listed self.new.listed result }
        ensures same { self.new.failing ≡ self.old.failing }
        ensures calls { self.new.calls ≡ next_count self.old.calls }
        ensures counted { OnErr result (self.new.listed ≡ next_count self.old.listed) }
        ensures listed { IsErr result ↔ Contains self.new.failing self.new.calls }
    {
        self.calls = self.calls.saturating_add(1);
        if self.failing.has(self.calls) {
            self.listed = self.listed.saturating_add(1);
            return Err(Failed);
        }
        match self.files.get_mut(file as usize) {
            Some(file) => Ok(file.read(buf)),
            None => Ok(0),
        }
    }

    ghost bytes = { λ shelf. shelf.are_bytes };
}
