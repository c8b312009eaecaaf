ghost use Rattle.std.specs.Prelude.{◌≡◌, ℕ, ◌+◌, ◌*◌, ◌^◌, ◌<◌, ◌≤◌, length, sum};
ghost use Rattle.mb_geom.specs.Partition.{sizes_of};
ghost use Rattle.mb_geom.specs.Description.{block_count, block_size};
ghost use Rattle.mb_geom.specs.SourceSymbol.{sub_sizes, symbols_before, source_symbol, IsBlockPut};

use crate::desc::Desc;
use crate::source_block::SourceBlock;

impl Desc {
    /// The number of source symbols that the blocks before one have, by its number from 0.
    pub fn symbols_before(&self, sbn: u16) -> u32
        ensures { result ≡ symbols_before self.now sbn }
    {
        self.parts().before(u64::from(sbn)) as u32
    }

    // Where the source symbols of a block stand in the file.
    fn source_block(&self, sbn: u16) -> SourceBlock
        requires { sbn < block_count self.now }
        ensures start { result.start ≡ symbols_before self.now sbn * self.now.symbol }
        ensures count { result.count ≡ block_size self.now sbn }
        ensures symbol { result.symbol ≡ self.now.symbol }
        ensures sub_symbols { sizes_of result.sub_symbols ≡ sub_sizes self.now }
    {
        let symbol = self.symbol() as usize;
        SourceBlock {
            start: self.symbols_before(sbn) as usize * symbol,
            count: self.k_of(sbn) as usize,
            symbol,
            sub_symbols: self.sub_symbols(),
        }
    }

    /// Copies source symbol `i` of a block of the file, whose number counts from 0. Its sub-symbols come from
    /// the sub-blocks, and behind the file's end there are zeros (RFC 5053 section 5.3.1.2).
    pub fn symbol_of(&self, file: &[u8], sbn: u16, i: u16, out: &mut [u8])
        requires file { length file.now ≡ self.now.length }
        requires block { sbn < block_count self.now }
        requires symbol { i < block_size self.now sbn }
        requires room { length out.old ≡ self.now.symbol }
        ensures { out.new ≡ source_symbol self.now file.now sbn i }
    {
        self.source_block(sbn).read(file, usize::from(i), out);
    }

    /// Puts a block into the file, whose number counts from 0: all its source symbols, which follow each
    /// other in `block`. Bytes behind the file's end are left out (RFC 5053 section 5.3.1.2).
    pub fn put_block(&self, sbn: u16, block: &[u8], file: &mut [u8])
        requires block { sbn < block_count self.now }
        requires symbols { length block.now ≡ block_size self.now sbn * self.now.symbol }
        requires file { length file.old ≡ self.now.length }
        ensures { IsBlockPut self.now sbn block.now file.old file.new }
    {
        self.source_block(sbn).put(block, file);
    }
}
