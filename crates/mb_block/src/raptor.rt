ghost use Rattle.std.specs.Prelude.{◌≡◌, ℕ, ◌+◌, ◌*◌, ◌<◌, ◌≤◌, length, true, IfOk};

use mb_base::Memory;
use mb_decoder::Decoder;
use mb_way::{Heard, Way};
use std::alloc::Global;
use std::marker::Model;

/// A block under Raptor (RFC 5053) as far as it was heard. A contract sees it as a `Block`.
#[derive(Drop)]
pub(crate) struct RaptorBlock {
    /// Raptor's, with the block's code.
    way: Way,
    /// The symbols that are kept.
    decoder: Decoder,
}

impl Model for RaptorBlock {
    ghost use Rattle.mb_block.specs.Block.{Block};
    ghost use Rattle.mb_block.specs.Raptor.{block_heard, IsHeard};

    ghost Value = { Block };

    ghost view = { λ b. block_heard b.way b.decoder };

    ghost invariant = { λ b. IsHeard b.way b.decoder };
}

impl RaptorBlock {
    ghost use Rattle.std.specs.List.{concat};
    ghost use Rattle.mb_rows.specs.Code.{RaptorCode};
    ghost use Rattle.mb_decoder.specs.Block.{SourcesDetermine, filled};
    ghost use Rattle.mb_way.specs.Way.{Raptor, size_of};
    ghost use Rattle.mb_way.specs.Heard.{heard_as, hear, is_complete};
    ghost use Rattle.mb_way.specs.Solution.{sources};
    ghost use Rattle.mb_block.specs.Block.{IsBlock, nothing_of, buffer_of};
    ghost use Rattle.mb_block.specs.Raptor.{IsHeard};

    /// A block of which nothing was heard, with its way and a decoder of it.
    pub(crate) fn of(way: Way, decoder: Decoder) -> RaptorBlock
        requires heard { IsHeard way decoder }
        requires nothing { length decoder.kept ≡ 0 }
        ensures { result ≡ nothing_of way decoder.t }
    {
        RaptorBlock { way, decoder }
    }

    /// The number of source symbols of the block.
    pub(crate) fn size(&self) -> u32
        ensures { result ≡ size_of self.now.way }
    {
        u32::from(self.decoder.k())
    }

    /// The length of a symbol in bytes.
    pub(crate) fn symbol(&self) -> u16
        ensures exact { result ≡ self.now.symbol }
        ensures some { 0 < result }
    {
        self.decoder.t()
    }

    /// How many symbols are kept.
    pub(crate) fn kept(&self) -> u32
        ensures exact { result ≡ length self.now.kept }
        ensures most { result ≤ size_of self.now.way }
        ensures block { IsBlock self.now }
    {
        u32::from(self.decoder.kept())
    }

    /// Whether the symbols that are kept determine the block.
    pub(crate) fn is_complete(&self) -> bool
        ensures { result ≡ is_complete self.now.way self.now.kept }
    {
        self.decoder.is_complete()
    }

    /// Whether the symbols that are kept show that the block's code is usable.
    pub(crate) fn shows_usable(&self) -> bool
        ensures { (c : RaptorCode) → self.now.way ≡ Raptor c → result ≡ true → SourcesDetermine c }
    {
        self.decoder.shows_usable()
    }

    /// The bytes of its memory.
    pub(crate) fn buffered(&self) -> u64
        ensures { result ≡ buffer_of self.now.way self.now.symbol }
    {
        self.decoder.buffered()
    }

    /// Hears a symbol, which may lack bytes at its end: they are zeros (RFC 3926 section 5.1.2). It takes no memory.
    pub(crate) fn hear(&mut self, esi: u16, bytes: &[u8]) -> Heard
        requires { length bytes.now ≤ self.old.symbol }
        ensures heard { result ≡ heard_as self.old.way self.old.kept esi }
        ensures block { self.new ≡ record self.old { kept = hear self.old.way self.old.kept (record { esi = esi; symbol = filled self.old.symbol bytes.now }) } }
    {
        match self.way.code() {
            // No block of this kind is without a code.
            None => Heard::OutOfRange,
            Some(code) => {
                if self.decoder.hear(code, esi, bytes) {
                    Heard::Kept
                } else {
                    Heard::Determined
                }
            }
        }
    }

    /// Writes the source symbols of a block that is complete.
    pub(crate) fn solve(self, out: &mut [u8])
        requires complete { is_complete self.way self.kept ≡ true }
        requires out { length out.old ≡ size_of self.way * self.symbol }
        ensures { out.new ≡ concat (sources self.way self.symbol self.kept) }
    {
        let RaptorBlock { way, decoder } = self;
        if let Some(code) = way.code() {
            decoder.solve(code, out);
        }
    }
}
