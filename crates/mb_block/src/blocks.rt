ghost use Rattle.std.specs.Prelude.{◌≡◌, ℕ, ◌+◌, ◌*◌, ◌<◌, ◌≤◌, ◌^◌, length, map, slice_set, IfOk};
ghost use Rattle.mb_decoder.specs.Block.{filled};
ghost use Rattle.mb_way.specs.Heard.{heard_as, hear};

use crate::symbol::put_symbol;
use mb_base::Memory;
use mb_bits::{flip_bit, has_bit, words_for};
use mb_geom::{Desc, Parts};
use mb_way::Heard;
use std::alloc::Global;
use std::marker::Model;

/// All blocks of a file under Compact No-Code (RFC 3695), as far as they were heard. Their symbols stand in one piece,
/// in the order of the file's bytes, so that the file is there without a copy once each symbol was heard. A contract
/// sees it as `Blocks`.
#[derive(Drop)]
pub struct BlocksRx {
    /// The numbers of source symbols of the blocks.
    sizes: Parts,
    /// The bytes of a symbol.
    symbol: u16,
    /// The bytes of all source symbols in order, where they were heard.
    symbols: Vec<u8>,
    /// A bit for each source symbol, set where it was heard.
    heard: Vec<u64>,
}

impl Model for BlocksRx {
    ghost use Rattle.mb_geom.specs.Partition.{sizes_of};
    ghost use Rattle.mb_block.specs.Blocks.{Blocks, blocks_in, AreBuffers};

    ghost Value = { Blocks };

    ghost view = { λ b. blocks_in (sizes_of b.sizes) b.symbol b.symbols.items b.heard.items };

    ghost invariant = { λ b. AreBuffers (sizes_of b.sizes) b.symbol b.symbols.items b.heard.items };
}

impl BlocksRx {
    ghost use Rattle.mb_geom.specs.Description.{IsGood};
    ghost use Rattle.mb_block.specs.Blocks.{nothing_of_file, way_at, kept_at, AreWhole, joined_symbols, buffers_of};

    /// The blocks of a file of which nothing was heard. All memory that they need is taken here: `Memory` where there
    /// is none.
    pub fn start(alloc: Global, desc: &Desc) -> Result<BlocksRx, Memory>
        ensures blocks { IfOk result (λ b. b ≡ nothing_of_file desc.now) }
        ensures whole { IfOk result AreWhole }
    {
        let _length = desc.length();
        let symbols = vec![in alloc; 0; desc.plain() as usize]?;
        let heard = vec![in alloc; 0; words_for(desc.symbols() as usize)]?;
        Ok(BlocksRx {
            sizes: desc.parts(),
            symbol: desc.symbol(),
            symbols,
            heard,
        })
    }

    /// Hears a symbol of a block, which may lack bytes at its end: they are zeros (RFC 3926 section 5.1.2). It takes no
    /// memory, and its time does not grow with the blocks or their symbols.
    pub fn hear(&mut self, sbn: u16, esi: u16, bytes: &[u8]) -> Heard
        requires block { sbn < length self.old.sizes }
        requires bytes { length bytes.now ≤ self.old.symbol }
        ensures heard { result ≡ heard_as (way_at self.old sbn) (kept_at self.old sbn) esi }
        ensures blocks { self.new ≡ record self.old { kept = slice_set self.old.kept sbn (hear (way_at self.old sbn) (kept_at self.old sbn) (record { esi = esi; symbol = filled self.old.symbol bytes.now })) } }
        ensures whole { AreWhole self.new }
    {
        let block = u64::from(sbn);
        if u64::from(esi) >= self.sizes.size(block) {
            return Heard::OutOfRange;
        }
        let place = (self.sizes.before(block) + u64::from(esi)) as usize;
        if has_bit(&self.heard, place) {
            return Heard::Determined;
        }
        let symbol = usize::from(self.symbol);
        put_symbol(&mut self.symbols, place * symbol, symbol, bytes);
        flip_bit(&mut self.heard, place);
        Heard::Kept
    }

    /// The bytes of its memory.
    pub fn buffered(&self) -> u64
        ensures { result ≡ buffers_of self.now.sizes self.now.symbol }
    {
        (self.symbols.len() + 8 * self.heard.len()) as u64
    }

    /// The source symbols of all blocks, one behind the other, where each was heard. Nothing is copied.
    pub fn into_bytes(self) -> Vec<u8>
        requires { map length self.kept ≡ self.sizes }
        ensures { result.items ≡ joined_symbols self.kept }
    {
        self.symbols
    }
}
