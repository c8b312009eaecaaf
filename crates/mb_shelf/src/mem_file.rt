ghost use Rattle.std.specs.Prelude.{◌≡◌, ℕ, ◌<◌, ◌≤◌, List, [], ◌++◌, length, take, drop, vec_len};
ghost use Rattle.mb_base.specs.Outside.{AreBytes};

use std::marker::Model;

/// A file in memory, which a contract sees as the list of its bytes to come.
#[derive(Drop)]
pub(crate) struct MemFile {
    bytes: Vec<u8>,
    /// Where the bytes to come begin.
    place: usize,
}

impl Model for MemFile {
    ghost Value = { List ℕ };

    ghost view = { λ f. drop f.place f.bytes.items };

    ghost invariant = { λ f. (f.place ≤ vec_len f.bytes) × AreBytes f.bytes.items };
}

impl MemFile {
    pub(crate) fn new(bytes: Vec<u8>) -> Self
        ensures all { result ≡ bytes.items }
        ensures bytes { AreBytes result }
    {
        MemFile { bytes, place: 0 }
    }

    /// Moves the first bytes to come into the front of `buf`, as many as there are room and bytes, and
    /// answers how many they were.
    pub(crate) fn read(&mut self, buf: &mut [u8]) -> usize
        ensures within { result ≤ length buf.new }
        ensures moved { self.old ≡ take result buf.new ++ self.new }
        ensures end { result ≡ 0 → 0 < length buf.new → self.new ≡ [] }
        ensures bytes { AreBytes self.new }
    {
        let count = buf.len().min(self.bytes.len() - self.place);
        buf[..count].copy_from_slice(&self.bytes[self.place..self.place + count]);
        self.place += count;
        count
    }
}
