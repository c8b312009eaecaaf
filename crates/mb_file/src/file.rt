ghost use Rattle.std.specs.Prelude.{◌≡◌, ℕ, ◌+◌, ◌-◌, ◌*◌, ◌^◌, ◌<◌, ◌≤◌, ◌==◌, true, [], length, IfOk, OnOk, OnErr};
ghost use Rattle.mb_geom.specs.Partition.{ceiling};
ghost use Rattle.mb_geom.specs.Description.{block_count, plain, equations};
ghost use Rattle.mb_way.specs.Ways.{AreWaysOf};
ghost use Rattle.mb_file.specs.File.{nothing_of, kept_at, IsFileOf, payload_pairs, hear_in, are_complete, file_bytes, missing_in};
ghost use Rattle.mb_file.specs.Memory.{held};

use crate::blocks::Blocks;
use crate::memory::blocks_bytes;
use crate::room::{is_nothing, make_room};
use crate::run::hear_run;
use crate::solve::{solve, take_space};
use crate::usable::learn;
use mb_base::{Gate, Memory};
use mb_geom::Desc;
use mb_way::{Codes, Ways};
use std::alloc::Global;
use std::marker::Model;
use std::mem;
use std::thread::Threads;

/// What hearing symbols of a block did: how many were kept, and how many the kept ones determined.
#[derive(Clone, Copy)]
pub struct News {
    pub kept: u32,
    pub determined: u32,
}

/// The blocks of a file as far as they were heard. A contract sees the `File` of the definitions.
#[derive(Drop)]
pub struct FileRx {
    ways: Ways,
    /// The bytes of a symbol.
    symbol: u16,
    blocks: Blocks,
    /// How many symbols of the blocks are not kept.
    missing: u64,
}

impl Model for FileRx {
    ghost use Rattle.mb_file.specs.File.{File};
    ghost use Rattle.mb_file.specs.FileView.{kept_seen, StandAs};

    ghost Value = { File };

    ghost view = { λ f. record { ways = f.ways; symbol = f.symbol; kept = kept_seen f.ways f.blocks } };

    ghost invariant = { λ f. StandAs f.ways f.symbol f.blocks f.missing };
}

impl FileRx {
    /// A file of which nothing was heard, whose blocks have these ways. It takes no memory: many files may be described
    /// whose symbols never come.
    pub fn new(desc: &Desc, ways: Ways) -> FileRx
        requires { AreWaysOf desc.now ways }
        ensures { result ≡ nothing_of desc.now.symbol ways }
    {
        let _length = desc.length();
        FileRx {
            ways,
            symbol: desc.symbol(),
            blocks: Blocks::Nothing,
            missing: desc.symbols(),
        }
    }

    /// Leaves no block, and gives the memory of all up.
    pub fn forget(&mut self)
        ensures { self.new ≡ nothing_of 0 [] }
    {
        self.ways.forget();
        self.symbol = 0;
        self.blocks = Blocks::Nothing;
        self.missing = 0;
    }

    /// How many symbols of its blocks are not kept: none exactly where each block is determined.
    pub fn missing(&self) -> u64
        ensures exact { result ≡ missing_in self.now.ways self.now.kept }
        ensures complete { (result == 0) ≡ are_complete self.now.ways self.now.kept }
    {
        self.missing
    }

    /// Hears the symbols of a payload in a block, the first of which has this ESI. It takes memory only for the first
    /// symbol of the file, or of the block under Raptor. What a block shows of its code, the blocks that come after it
    /// start with. After `Memory` the file is as before.
    pub fn hear(
        &mut self,
        alloc: Global,
        desc: &Desc,
        sbn: u16,
        esi: u16,
        payload: &[u8],
    ) -> Result<News, Memory>
        requires file { IsFileOf desc.now self.old }
        requires block { sbn < block_count desc.now }
        requires within { esi + ceiling (length payload.now) desc.now.symbol ≤ 65536 }
        ensures file { OnOk result (self.new ≡ record self.old { kept = hear_in self.old.ways sbn (payload_pairs desc.now.symbol esi payload.now) self.old.kept }) }
        ensures kept { IfOk result (λ n. n.kept + length (kept_at self.old.kept sbn) ≡ length (kept_at self.new.kept sbn)) }
        ensures determined { IfOk result (λ n. n.determined ≡ ceiling (length payload.now) desc.now.symbol - n.kept) }
        ensures block { OnOk result (sbn < length self.old.kept) }
        ensures refused { OnErr result (self.new ≡ self.old) }
    {
        make_room(&mut self.blocks, alloc, desc, &self.ways, sbn)?;
        let symbol = desc.symbol();
        let count = payload.len().div_ceil(usize::from(symbol));
        let kept = hear_run(&mut self.blocks, sbn, symbol, esi, count, payload);
        self.missing -= u64::from(kept);
        learn(&mut self.ways, &self.blocks, sbn, kept);
        Ok(News {
            kept,
            determined: count as u32 - kept,
        })
    }

    /// Notes in the codes of its session which codes of its blocks are known to be usable.
    pub fn tell(&self, codes: &mut Codes)
        ensures { codes.new ≡ codes.old }
    {
        codes.learn(&self.ways);
    }

    /// Notes which codes of its blocks are known to be usable in its session. Once a symbol of the file came, its own
    /// blocks show as much, and nothing is done.
    pub fn learn(&mut self, codes: &Codes)
        ensures { self.new ≡ self.old }
    {
        if is_nothing(&self.blocks) {
            codes.tell(&mut self.ways);
        }
    }

    /// The bytes of its buffers: under Compact No-Code those of all symbols once one of them came, under Raptor those of
    /// the blocks of which symbols came, and of the codes.
    pub fn buffered(&self, desc: &Desc) -> u64
        requires file { IsFileOf desc.now self.now }
        ensures most { result ≤ plain desc.now + equations desc.now }
        ensures least { held self.now ≤ result }
        ensures small { result ≤ 2 ^ 50 }
    {
        blocks_bytes(&self.blocks) + self.ways.code_bytes()
    }

    /// Hands out the bytes of the file, whose blocks are determined, and keeps nothing. After `Memory` it is as before. The
    /// gate and the workers are for blocks whose symbols need solving.
    pub fn take<R: Threads + Sync, G: Gate>(
        &mut self,
        rt: &R,
        alloc: Global,
        desc: &Desc,
        workers: u32,
        gate: &G,
    ) -> Result<Vec<u8>, Memory>
        requires file { IsFileOf desc.now self.old }
        requires complete { are_complete self.old.ways self.old.kept ≡ true }
        requires workers { (0 < workers) × (workers ≤ 64) }
        ensures bytes { IfOk result (λ v. v.items ≡ file_bytes desc.now self.old.ways self.old.kept) }
        ensures left { OnOk result (self.new ≡ nothing_of self.old.symbol self.old.ways) }
        ensures refused { OnErr result (self.new ≡ self.old) }
    {
        let space = take_space(alloc, desc, &self.blocks)?;
        let blocks = mem::replace(&mut self.blocks, Blocks::Nothing);
        self.missing = desc.symbols();
        Ok(solve(rt, blocks, desc, workers, gate, space))
    }
}

// Several workers solve blocks of a file at once, so it is checked here that it can be sent and shared.
fn is_shared<T: Send + Sync>(_value: &T) {}

fn file_is_shared(file: &FileRx) {
    is_shared(file);
}
