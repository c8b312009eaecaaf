ghost use Rattle.std.specs.Prelude.{◌≡◌, ℕ, ◌+◌, ◌*◌, ◌<◌, ◌≤◌, ◌++◌, length, take, drop, filter, not, true, IfOk, IfErr, OnOk};
ghost use Rattle.std.specs.List.{range_with_len};
ghost use Rattle.mb_bits.specs.BitRow.{bit_in};
ghost use Rattle.mb_block.specs.declared.fault.MissFault.TheVariants as fault;
ghost use Rattle.mb_decoder.specs.Block.{filled};

use crate::fault::MissFault;
use crate::symbol::put_symbol;
use mb_base::Memory;
use mb_bits::{flip_bit, has_bit, words_for};
use mb_way::Heard;
use std::alloc::Global;
use std::marker::Model;

/// A block under Compact No-Code (RFC 3695) as far as it was heard. A contract sees it as a `Block`.
#[derive(Drop)]
pub struct NoCodeBlock {
    /// The number of source symbols.
    k: u32,
    /// The bytes of a symbol.
    symbol: u16,
    /// The bytes of the source symbols in order, where they were heard.
    symbols: Vec<u8>,
    /// A bit for each source symbol, set where it was heard.
    heard: Vec<u64>,
    /// How many were heard.
    kept: u32,
}

impl Model for NoCodeBlock {
    ghost use Rattle.mb_block.specs.Block.{Block};

    ghost Value = { Block };

    ghost use Rattle.mb_block.specs.Buffer.{block_in, IsBuffer};

    ghost view = { λ b. block_in b.k b.symbol b.symbols.items b.heard.items };

    ghost invariant = { λ b. IsBuffer b.k b.symbol b.symbols.items b.heard.items b.kept };
}

impl NoCodeBlock {
    ghost use Rattle.std.specs.List.{concat};
    ghost use Rattle.mb_way.specs.Way.{NoCode, size_of};
    ghost use Rattle.mb_way.specs.Heard.{heard_as, hear, is_complete};
    ghost use Rattle.mb_way.specs.Solution.{sources};
    ghost use Rattle.mb_block.specs.Block.{IsBlock, nothing_of, buffer_of};
    ghost use Rattle.mb_block.specs.Missing.{request, is_usable, IsMissFault};

    /// A block of `k` symbols of `symbol` bytes, of which nothing was heard. All memory that it needs is taken here:
    /// `Memory` where there is none.
    pub fn start(alloc: Global, k: u32, symbol: u16) -> Result<NoCodeBlock, Memory>
        requires k { (0 < k) × (k ≤ 65536) }
        requires symbol { 0 < symbol }
        ensures { IfOk result (λ b. b ≡ nothing_of (NoCode k) symbol) }
    {
        let symbols = vec![in alloc; 0; k as usize * usize::from(symbol)]?;
        let heard = vec![in alloc; 0; words_for(k as usize)]?;
        Ok(NoCodeBlock {
            k,
            symbol,
            symbols,
            heard,
            kept: 0,
        })
    }

    /// The number of symbols of the block.
    pub fn size(&self) -> u32
        ensures { result ≡ size_of self.now.way }
    {
        self.k
    }

    /// The length of a symbol in bytes.
    pub fn symbol(&self) -> u16
        ensures exact { result ≡ self.now.symbol }
        ensures some { 0 < result }
    {
        self.symbol
    }

    /// How many symbols are kept.
    pub fn kept(&self) -> u32
        ensures exact { result ≡ length self.now.kept }
        ensures most { result ≤ size_of self.now.way }
        ensures block { IsBlock self.now }
    {
        self.kept
    }

    /// How many source symbols more than the kept ones the block has.
    pub fn missing_count(&self) -> u32
        ensures { result + length self.now.kept ≡ size_of self.now.way }
    {
        self.k - self.kept
    }

    /// Whether the symbols that are kept determine the block.
    pub fn is_complete(&self) -> bool
        ensures { result ≡ is_complete self.now.way self.now.kept }
    {
        self.kept == self.k
    }

    /// The bytes of its memory.
    pub fn buffered(&self) -> u64
        ensures { result ≡ buffer_of self.now.way self.now.symbol }
    {
        u64::from(self.k) * u64::from(self.symbol) + 8 * words_for(self.k as usize) as u64
    }

    /// Hears a symbol, which may lack bytes at its end: they are zeros (RFC 3926 section 5.1.2). It takes no memory.
    pub fn hear(&mut self, esi: u16, bytes: &[u8]) -> Heard
        requires { length bytes.now ≤ self.old.symbol }
        ensures heard { result ≡ heard_as self.old.way self.old.kept esi }
        ensures block { self.new ≡ record self.old { kept = hear self.old.way self.old.kept (record { esi = esi; symbol = filled self.old.symbol bytes.now }) } }
    {
        if u32::from(esi) >= self.k {
            return Heard::OutOfRange;
        }
        let place = usize::from(esi);
        if has_bit(&self.heard, place) {
            return Heard::Determined;
        }
        let symbol = usize::from(self.symbol);
        let at = place * symbol;
        put_symbol(&mut self.symbols, at, symbol, bytes);
        flip_bit(&mut self.heard, place);
        self.kept += 1;
        Heard::Kept
    }

    /// The ESIs of the source symbols to ask for, by rising ESI: each that is determined neither by the symbols that
    /// are kept nor together with those before it in the list.
    ///
    /// # Errors
    ///
    /// [`MissFault::Unusable`] where the symbols that are kept do not determine the block together with all its source
    /// symbols: never under Compact No-Code. [`MissFault::Memory`] where there is no room for the list.
    pub fn missing(&self, alloc: Global) -> Result<Vec<u16>, MissFault>
        ensures missing { IfOk result (λ v. v.items ≡ request self.now.way self.now.kept) }
        ensures usable { OnOk result (is_usable self.now.way self.now.kept ≡ true) }
        ensures fault { IfErr result (IsMissFault self.now.way self.now.kept) }
    {
        let most = self.missing_count();
        clear_places(alloc, &self.heard, self.k, most as usize)
    }

    /// Copies the symbols of a block that is complete.
    pub fn solve(&self, out: &mut [u8])
        requires complete { is_complete self.now.way self.now.kept ≡ true }
        requires out { length out.old ≡ size_of self.now.way * self.now.symbol }
        ensures { out.new ≡ concat (sources self.now.way self.now.symbol self.now.kept) }
    {
        out.copy_from_slice(&self.symbols);
    }
}

/// The places that are not set, of so many, with room for so many of them taken first.
fn clear_places(
    alloc: Global,
    words: &[u64],
    count: u32,
    most: usize,
) -> Result<Vec<u16>, MissFault>
    requires few { count ≤ 65536 }
    requires room { count ≤ 64 * length words.now }
    ensures places { IfOk result (λ v. v.items ≡ filter (λ e. not (bit_in words.now e)) (range_with_len 0 count)) }
    ensures memory { IfErr result (λ f. f ≡ fault.Memory) }
{
    let mut places = Vec::with_capacity(alloc, most)?;
    for place in 0..count {
        if !has_bit(words, place as usize) {
            places.push(place as u16)?;
        }
    }
    Ok(places)
}
