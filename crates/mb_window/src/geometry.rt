ghost use Rattle.std.specs.Prelude.{◌≡◌, ℕ, ◌+◌, ◌*◌, ◌-◌, ◌<◌, ◌≤◌, ◌^◌, length, slice_index, sum, take, IfOk, IfErr, ◌%◌, ◌==◌, ◌&&◌, ◌||◌, nat_lt, nat_le, min, if◌then◌else◌, Some, None};
ghost use Rattle.mb_geom.specs.Partition.{sizes_of};
ghost use Rattle.mb_geom.specs.Description.{symbols, block_sizes, block_count, tail};
ghost use Rattle.mb_alc.specs.PacketView.{body_seen};
ghost use Rattle.mb_window.specs.Symbols.{place_of, symbol_count};
ghost use Rattle.mb_window.specs.Assembled.{text_of, is_misshapen, same_text};
ghost use Rattle.mb_window.specs.Window.{symbols_refused};

use crate::heard::WindowHeard;
use mb_alc::{Body, Fti};
use mb_base::be32;
use mb_geom::{Parts, partition};
use std::marker::Model;

/// How many bytes a text has at most.
const TEXT_MAX: u64 = 65_536;

/// How a text is cut into symbols and blocks. A contract sees it as the `Description` of a file without location.
#[derive(Drop)]
pub struct Geometry {
    length: u64,
    symbol: u64,
    max_block: u64,
}

impl Model for Geometry {
    ghost use Rattle.mb_geom.specs.Description.{Description};

    ghost Value = { Description };

    ghost use Rattle.mb_window.specs.Assembled.{AreText, text_with};

    ghost view = { λ g. text_with g.length g.symbol g.max_block };

    ghost invariant = { λ g. AreText g.length g.symbol g.max_block };
}

/// Symbols at consecutive places of a text.
#[derive(Clone, Copy)]
pub struct Run {
    /// The place of the first one among the symbols of all blocks.
    pub first: usize,
    /// How many they are.
    pub count: usize,
}

/// The number of things in a part, by its number from 0.
fn size_of(parts: Parts, number: u64) -> u64
    requires { number < length (sizes_of parts) }
    ensures { result ≡ slice_index (sizes_of parts) number }
{
    if number < parts.jl {
        parts.il
    } else {
        parts.is
    }
}

/// How many things the parts before one hold, by its number from 0.
fn things_before(parts: Parts, number: u64) -> u64
    requires within { number < length (sizes_of parts) }
    requires few { parts.jl * parts.il + parts.js * parts.is ≤ 2 ^ 16 }
    ensures exact { result ≡ sum (take number (sizes_of parts)) }
    ensures bound { result + slice_index (sizes_of parts) number ≤ parts.jl * parts.il + parts.js * parts.is }
{
    if number < parts.jl {
        number * parts.il
    } else {
        parts.jl * parts.il + (number - parts.jl) * parts.is
    }
}

impl Geometry {
    /// That of the text of an EXT_FTI. `None` where no text has it.
    pub fn new(fti: &Fti) -> Option<Geometry>
        ensures { result ≡ (if is_misshapen fti.now then None else Some (text_of fti.now)) }
    {
        let max_block = be32(&fti.tail);
        if fti.symbol == 0 || max_block == 0 || fti.transfer == 0 || fti.transfer > TEXT_MAX {
            return None;
        }
        Some(Geometry {
            length: fti.transfer,
            symbol: u64::from(fti.symbol),
            max_block: u64::from(max_block),
        })
    }

    /// The same geometry once more.
    pub fn copy(&self) -> Geometry
        ensures { result ≡ self.now }
    {
        Geometry {
            length: self.length,
            symbol: self.symbol,
            max_block: self.max_block,
        }
    }

    /// Whether the other is the geometry of the same text.
    pub fn is_same(&self, other: &Geometry) -> bool
        ensures { result ≡ same_text self.now other.now }
    {
        self.length == other.length
            && self.symbol == other.symbol
            && self.max_block == other.max_block
    }

    /// The bytes of the text, from 1 to 65,536.
    pub fn length(&self) -> usize
        ensures exact { result ≡ self.now.length }
        ensures some { 0 < result }
        ensures most { result ≤ 2 ^ 16 }
    {
        self.length as usize
    }

    /// The bytes of a symbol.
    pub fn symbol(&self) -> usize
        ensures exact { result ≡ self.now.symbol }
        ensures some { 0 < result }
        ensures most { result < 2 ^ 16 }
    {
        self.symbol as usize
    }

    /// The number of the text's symbols, from 1 to 65,536.
    pub fn symbols(&self) -> usize
        ensures exact { result ≡ symbols self.now }
        ensures some { 0 < result }
        ensures most { result ≤ self.now.length }
        ensures whole { self.now.length ≤ result * self.now.symbol }
        ensures bound { result * self.now.symbol < self.now.length + self.now.symbol }
    {
        self.length.div_ceil(self.symbol) as usize
    }

    /// How the symbols are divided into blocks.
    #[tactic(auto, unfolding(mb_geom::specs::Description::block_sizes))]
    fn blocks(&self) -> Parts
        ensures exact { block_sizes self.now ≡ sizes_of result }
        ensures count { block_count self.now ≡ result.jl + result.js }
        ensures fits { result.jl + result.js ≤ 2 ^ 16 }
        ensures things { result.jl * result.il + result.js * result.is ≡ symbols self.now }
        ensures few { symbols self.now ≤ 2 ^ 16 }
    {
        let symbols = self.symbols() as u64;
        partition(symbols, symbols.div_ceil(self.max_block))
    }

    /// Whether a payload of so many bytes, whose symbols end before a place, has the bytes of its last symbol.
    fn is_good_length(&self, end: usize, length: usize) -> bool
        ensures { result ≡ (nat_lt 0 length && ((length % self.now.symbol == 0)
            || ((end == symbols self.now) && nat_le (tail self.now) (length % self.now.symbol)))) }
    {
        let short = length % self.symbol();
        if length == 0 || short == 0 {
            return length > 0;
        }
        let symbols = self.symbols();
        end == symbols && self.length() - (symbols - 1) * self.symbol() <= short
    }

    /// Where the payload's symbols stand in the text, or why it has no such symbols.
    pub fn run_of(&self, body: &Body<'_>) -> Result<Run, WindowHeard>
        ensures refused { IfErr result (λ reason. symbols_refused self.now (body_seen body.now) ≡ Some reason) }
        ensures found { IfOk result (λ run. symbols_refused self.now (body_seen body.now) ≡ None) }
        ensures first { IfOk result (λ run. run.first ≡ place_of self.now body.now.sbn body.now.esi) }
        ensures count { IfOk result (λ run. run.count ≡ symbol_count self.now (body_seen body.now)) }
        ensures places { IfOk result (λ run. run.first + run.count ≤ symbols self.now) }
        ensures bytes { IfOk result (λ run. min (run.count * self.now.symbol) (self.now.length - run.first * self.now.symbol) ≤ length body.now.payload.now) }
    {
        let blocks = self.blocks();
        let sbn = u64::from(body.sbn);
        if sbn >= blocks.jl + blocks.js {
            return Err(WindowHeard::Block);
        }
        let length = body.payload.len();
        let count = length.div_ceil(self.symbol());
        let esi = usize::from(body.esi);
        if esi + count.max(1) > size_of(blocks, sbn) as usize {
            return Err(WindowHeard::Symbol);
        }
        let first = things_before(blocks, sbn) as usize + esi;
        if !self.is_good_length(first + count, length) {
            return Err(WindowHeard::Length);
        }
        Ok(Run { first, count })
    }
}
