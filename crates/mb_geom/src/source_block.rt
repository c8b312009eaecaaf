ghost use Rattle.std.specs.Prelude.{◌≡◌, ℕ, ◌+◌, ◌*◌, ◌^◌, ◌<◌, ◌≤◌, length, sum};
ghost use Rattle.mb_geom.specs.Partition.{sizes_of};
ghost use Rattle.mb_geom.specs.Run.{IsSymbol, AreSubSymbolsPut, AreSymbolsPut};

use crate::parts::Parts;
use crate::runs::{put_run, read_run};

/// Where the source symbols of a block stand in a file, in bytes (RFC 5053 section 5.3.1.2).
#[derive(Clone, Copy)]
pub(crate) struct SourceBlock {
    /// The place of the block's first byte.
    pub(crate) start: usize,
    /// The number of source symbols.
    pub(crate) count: usize,
    /// The length of a symbol.
    pub(crate) symbol: usize,
    /// The lengths of the sub-symbols of each symbol.
    pub(crate) sub_symbols: Parts,
    ghost few: { sub_symbols.jl + sub_symbols.js < 2 ^ 64 },
    ghost whole: { sum (sizes_of sub_symbols) ≡ symbol },
    ghost within: { start + count * symbol < 2 ^ 63 },
}

impl SourceBlock {
    /// Copies a source symbol of the file, with zeros behind the file's end.
    pub(crate) fn read(self, file: &[u8], i: usize, out: &mut [u8])
        requires number { i < self.count }
        requires room { length out.old ≡ self.symbol }
        ensures { IsSymbol file.now self.start self.count (sizes_of self.sub_symbols) i out.new }
    {
        let mut from = 0;
        for number in 0..self.sub_symbols.count() {
            let size = self.sub_symbols.size(number) as usize;
            let at = self.start + self.count * from + i * size;
            read_run(file, at, &mut out[from..from + size]);
            from += size;
        }
    }

    /// Puts all source symbols, which follow each other, into the file.
    pub(crate) fn put(self, symbols: &[u8], file: &mut [u8])
        requires { length symbols.now ≡ self.count * self.symbol }
        ensures { AreSymbolsPut self.start self.count self.symbol self.symbol (sizes_of self.sub_symbols) symbols.now file.old file.new }
    {
        if self.sub_symbols.count() == 1 {
            put_run(symbols, self.start, file);
            return;
        }
        let mut from = 0;
        for number in 0..self.sub_symbols.count() {
            let size = self.sub_symbols.size(number) as usize;
            self.put_sub_symbols(symbols, from, size, file);
            from += size;
        }
    }

    // Puts one sub-symbol of each symbol into the file: that of `size` bytes, from a byte of the symbol on.
    fn put_sub_symbols(self, symbols: &[u8], from: usize, size: usize, file: &mut [u8])
        requires bytes { length symbols.now ≡ self.count * self.symbol }
        requires part { from + size ≤ self.symbol }
        ensures { AreSubSymbolsPut (self.start + self.count * from) self.count self.symbol from size symbols.now file.old file.new }
    {
        let start = self.start + self.count * from;
        for i in 0..self.count {
            let at = i * self.symbol + from;
            put_run(&symbols[at..at + size], start + i * size, file);
        }
    }
}
