ghost use Rattle.std.specs.Prelude.{◌≡◌, ℕ, ◌+◌, ◌*◌, ◌<◌, ◌≤◌, length, true, IfOk};
ghost use Rattle.mb_rows.specs.Code.{RaptorCode};

use crate::no_code::NoCodeBlock;
use crate::raptor::RaptorBlock;
use mb_base::{Gate, Memory};
use mb_decoder::Decoder;
use mb_way::{Heard, Way};
use std::alloc::Global;
use std::marker::Model;
use std::thread::Threads;

/// A block by how its symbols follow from each other.
#[derive(Drop)]
pub(crate) enum Kind {
    /// Each is only itself.
    NoCode(NoCodeBlock),
    /// They are sums.
    Raptor(RaptorBlock),
}

/// A block as far as it was heard, under Compact No-Code (RFC 3695) or under Raptor (RFC 5053). A contract sees it as a
/// `Block`.
#[derive(Drop)]
pub struct BlockRx {
    kind: Kind,
}

impl Model for BlockRx {
    ghost use Rattle.mb_block.specs.Block.{Block};
    ghost use Rattle.mb_block.specs.Seen.{block_seen};

    ghost Value = { Block };

    ghost view = { λ b. block_seen b.kind };
}

impl BlockRx {
    ghost use Rattle.std.specs.List.{concat};
    ghost use Rattle.mb_decoder.specs.Block.{SourcesDetermine, filled};
    ghost use Rattle.mb_way.specs.Way.{Raptor, size_of};
    ghost use Rattle.mb_way.specs.Heard.{heard_as, hear, is_complete};
    ghost use Rattle.mb_way.specs.Solution.{sources};
    ghost use Rattle.mb_block.specs.Block.{IsBlock, nothing_of, buffer_of};

    /// A block of which nothing was heard, of symbols of `symbol` bytes. All memory that it needs is taken here:
    /// `Memory` where there is none.
    pub fn start(alloc: Global, way: Way, symbol: u16) -> Result<BlockRx, Memory>
        requires { 0 < symbol }
        ensures { IfOk result (λ b. b ≡ nothing_of way symbol) }
    {
        let _k = way.size();
        let kind = match way.code() {
            None => Kind::NoCode(NoCodeBlock::start(alloc, way.size(), symbol)?),
            Some(code) => {
                let decoder = Decoder::start(alloc, code, symbol, way.is_usable())?;
                Kind::Raptor(RaptorBlock::of(way, decoder))
            }
        };
        Ok(BlockRx { kind })
    }

    /// The number of source symbols of the block (K).
    pub fn size(&self) -> u32
        ensures { result ≡ size_of self.now.way }
    {
        match &self.kind {
            Kind::NoCode(block) => block.size(),
            Kind::Raptor(block) => block.size(),
        }
    }

    /// The length of a symbol in bytes.
    pub fn symbol(&self) -> u16
        ensures exact { result ≡ self.now.symbol }
        ensures some { 0 < result }
    {
        match &self.kind {
            Kind::NoCode(block) => block.symbol(),
            Kind::Raptor(block) => block.symbol(),
        }
    }

    /// How many symbols are kept.
    pub fn kept(&self) -> u32
        ensures exact { result ≡ length self.now.kept }
        ensures most { result ≤ size_of self.now.way }
        ensures block { IsBlock self.now }
    {
        match &self.kind {
            Kind::NoCode(block) => block.kept(),
            Kind::Raptor(block) => block.kept(),
        }
    }

    /// How many source symbols more than the kept ones the block has.
    pub fn missing_count(&self) -> u32
        ensures { result + length self.now.kept ≡ size_of self.now.way }
    {
        self.size() - self.kept()
    }

    /// Whether the symbols that are kept determine the block.
    pub fn is_complete(&self) -> bool
        ensures { result ≡ is_complete self.now.way self.now.kept }
    {
        match &self.kind {
            Kind::NoCode(block) => block.is_complete(),
            Kind::Raptor(block) => block.is_complete(),
        }
    }

    /// Whether the symbols that are kept show that the block's code is usable: they are its source symbols. A block under
    /// Compact No-Code has no code.
    pub fn shows_usable(&self) -> bool
        ensures { (c : RaptorCode) → self.now.way ≡ Raptor c → result ≡ true → SourcesDetermine c }
    {
        match &self.kind {
            Kind::NoCode(_) => false,
            Kind::Raptor(block) => block.shows_usable(),
        }
    }

    /// The bytes of its memory.
    pub fn buffered(&self) -> u64
        ensures { result ≡ buffer_of self.now.way self.now.symbol }
    {
        match &self.kind {
            Kind::NoCode(block) => block.buffered(),
            Kind::Raptor(block) => block.buffered(),
        }
    }

    /// Hears a symbol, which may lack bytes at its end: they are zeros (RFC 3926 section 5.1.2). It takes no memory.
    pub fn hear(&mut self, esi: u16, bytes: &[u8]) -> Heard
        requires { length bytes.now ≤ self.old.symbol }
        ensures heard { result ≡ heard_as self.old.way self.old.kept esi }
        ensures block { self.new ≡ record self.old { kept = hear self.old.way self.old.kept (record { esi = esi; symbol = filled self.old.symbol bytes.now }) } }
    {
        match &mut self.kind {
            Kind::NoCode(block) => block.hear(esi, bytes),
            Kind::Raptor(block) => block.hear(esi, bytes),
        }
    }

    /// Writes the source symbols of a block that is complete. One worker solves it, the caller's own, and the gate is
    /// not entered.
    pub fn solve<R: Threads + Sync, G: Gate>(self, rt: &R, workers: u32, gate: &G, out: &mut [u8])
        requires complete { is_complete self.way self.kept ≡ true }
        requires workers { (1 ≤ workers) × (workers ≤ 64) }
        requires out { length out.old ≡ size_of self.way * self.symbol }
        ensures { out.new ≡ concat (sources self.way self.symbol self.kept) }
    {
        match self.kind {
            Kind::NoCode(block) => block.solve(out),
            Kind::Raptor(block) => block.solve(out),
        }
    }
}

// Blocks are sent to workers and read by several at once, so it is checked here that they can be.
fn is_shared<T: Send + Sync>(_value: &T) {}

fn blocks_are_shared(block: &BlockRx, way: &Way) {
    is_shared(block);
    is_shared(way);
}
