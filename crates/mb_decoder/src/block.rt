ghost use Rattle.std.specs.Prelude.{◌≡◌, ◌≢◌, ◌↔◌, ℕ, ◌+◌, ◌*◌, ◌/◌, ◌<◌, ◌≤◌, ◌==◌, ◌++◌, ◌∷◌, [], true, false, length, slice_index, IfOk};
ghost use Rattle.std.specs.List.{AllByRecursion};
ghost use Rattle.mb_rows.specs.Code.{RaptorCode};
ghost use Rattle.mb_rows.specs.Determined.{Determines, DetermineBlock};

use crate::esi::{are_below, has_esi};
use crate::offer::offer_all;
use crate::put::{put_symbol, zero_bytes, zero_esis};
use crate::row::{ROW_WORDS, room};
use crate::solve::{copy_sources, put_sources};
use mb_base::Memory;
use mb_bits::words_for;
use mb_elim::{Elim, Offer};
use mb_rows::Code;
use std::alloc::Global;
use std::marker::Model;

/// A block of the Raptor code as far as it was heard. It keeps the symbols that those before them did not determine.
/// Under a code that is known to be usable no source symbol follows from others, so as long as only these come nothing
/// is eliminated. A contract sees it as a `Block`.
#[derive(Drop)]
pub struct Decoder {
    /// T, the bytes of a symbol.
    t: u16,
    /// How many symbols are kept.
    kept: u16,
    /// Whether they are source symbols of a code that is known to be usable, and no row of theirs was offered.
    alone: bool,
    /// The elimination of the folded rows of the symbols that are kept.
    offered: Elim,
    /// Their ESIs, with room for K.
    esis: Vec<u16>,
    /// Their bytes, with room for K symbols.
    symbols: Vec<u8>,
}

impl Model for Decoder {
    ghost use Rattle.mb_decoder.specs.Block.{Block};
    ghost use Rattle.mb_decoder.specs.Kept.{block_in, AreBuffers};

    ghost Value = { Block };

    ghost view = { λ d. block_in d.t d.offered d.kept d.alone d.esis.items d.symbols.items };

    ghost invariant = { λ d. AreBuffers d.t d.offered d.kept d.alone d.esis.items d.symbols.items };
}

impl Decoder {
    ghost use Rattle.mb_encoder.specs.Solutions.{esis};
    ghost use Rattle.mb_decoder.specs.Block.{IsOf, SourcesDetermine, filled};
    ghost use Rattle.mb_decoder.specs.Kept.{IsAmong};
    ghost use Rattle.mb_decoder.specs.Sources.{AreSources};

    /// A block of which nothing was heard, of symbols of `t` bytes. All memory that it needs is taken here. Where the code
    /// is known to be `usable`, source symbols are heard without work on their rows until the first repair symbol comes.
    ///
    /// # Errors
    ///
    /// `Memory` where there is no room for it.
    pub fn start(alloc: Global, code: &Code, t: u16, usable: bool) -> Result<Decoder, Memory>
        requires { usable ≡ true → SourcesDetermine code.now }
        ensures nothing { IfOk result (λ d. d.kept ≡ []) }
        ensures t { IfOk result (λ d. d.t ≡ t) }
        ensures of { IfOk result (λ d. IsOf code.now d) }
    {
        let k = code.k();
        let places = usize::from(k);
        let offered = Elim::new(alloc, k)?;
        let esis = zero_esis(alloc, places)?;
        let symbols = zero_bytes(alloc, usize::from(t) * places)?;
        Ok(Decoder {
            t,
            kept: 0,
            alone: usable,
            offered,
            esis,
            symbols,
        })
    }

    /// T, the bytes of a symbol.
    pub fn t(&self) -> u16
        ensures { result ≡ self.now.t }
    {
        self.t
    }

    /// K, the number of source symbols.
    pub fn k(&self) -> u16
        ensures { result ≡ self.now.k }
    {
        self.offered.places()
    }

    /// The bytes of its memory, at most: the symbols, their ESIs, and two tables of rows.
    pub fn buffered(&self) -> u64
        ensures { result ≡ self.now.k * self.now.t + 2 * self.now.k + 16 * self.now.k * ((self.now.k + 63) / 64) }
    {
        let k = u64::from(self.offered.places());
        k * u64::from(self.t) + 2 * k + 16 * k * k.div_ceil(64)
    }

    /// How many symbols are kept.
    pub fn kept(&self) -> u16
        ensures exact { result ≡ length self.now.kept }
        ensures most { result ≤ self.now.k }
    {
        let _places = self.offered.places();
        self.kept
    }

    /// Whether the symbols that are kept determine the block. They do where they are as many as source symbols.
    pub fn is_complete(&self) -> bool
        ensures count { result ≡ (length self.now.kept == self.now.k) }
        ensures determined { (c : RaptorCode) → IsOf c self.now → result ≡ true ↔ DetermineBlock c (esis self.now.kept) }
    {
        let _rank = self.offered.rank();
        self.kept == self.offered.places()
    }

    /// Whether the kept symbols show that the code is usable: they are source symbols alone, and determine the block.
    pub fn shows_usable(&self) -> bool
        ensures { (c : RaptorCode) → IsOf c self.now → result ≡ true → SourcesDetermine c }
    {
        self.is_complete() && are_below(&self.esis, usize::from(self.kept), self.offered.places())
    }

    /// Hears a symbol, which may lack bytes at its end: they are zeros (RFC 3926 section 5.1.2). It is kept where the
    /// symbols that are kept do not determine it, which is answered. It takes no memory.
    pub fn hear(&mut self, code: &Code, esi: u16, bytes: &[u8]) -> bool
        requires of { IsOf code.now self.old }
        requires bytes { length bytes.now ≤ self.old.t }
        ensures determined { result ≡ false ↔ Determines code.now (esis self.old.kept) esi }
        ensures same { result ≡ false → self.new.kept ≡ self.old.kept }
        ensures kept { result ≡ true → self.new.kept ≡ self.old.kept ++ record { esi = esi; symbol = filled self.old.t bytes.now } ∷ [] }
        ensures t { self.new.t ≡ self.old.t }
        ensures of { IsOf code.now self.new }
    {
        if self.alone && esi < code.k() {
            return self.hear_source(esi, bytes);
        }
        self.offer_kept(code);
        self.hear_row(code, esi, bytes)
    }

    /// Keeps a source symbol of a block of which only such are kept, where none of these has its ESI.
    fn hear_source(&mut self, esi: u16, bytes: &[u8]) -> bool
        requires alone { self.old.alone ≡ true }
        requires bytes { length bytes.now ≤ self.old.t }
        ensures same { result ≡ false → self.new ≡ self.old }
        ensures old { result ≡ false → length self.old.kept ≢ self.old.k → IsAmong (esis self.old.kept) esi }
        ensures new { result ≡ true → AllByRecursion (λ e. e ≢ esi) (esis self.old.kept) }
        ensures kept { result ≡ true → self.new ≡ record self.old { kept = self.old.kept ++ record { esi = esi; symbol = filled self.old.t bytes.now } ∷ [] } }
    {
        let next = usize::from(self.kept);
        if next == usize::from(self.offered.places()) || has_esi(&self.esis, next, esi) {
            return false;
        }
        let t = usize::from(self.t);
        self.esis[next] = esi;
        put_symbol(&mut self.symbols, t * next, t, bytes);
        self.kept += 1;
        true
    }

    /// Offers the rows of the symbols that are kept, where none was offered.
    fn offer_kept(&mut self, code: &Code)
        requires { IsOf code.now self.old }
        ensures kept { self.new.kept ≡ self.old.kept }
        ensures t { self.new.t ≡ self.old.t }
        ensures rows { self.new.alone ≡ false }
        ensures of { IsOf code.now self.new }
    {
        if self.alone {
            offer_all(&mut self.offered, code, &self.esis, usize::from(self.kept));
            self.alone = false;
        }
    }

    /// Hears a symbol of a block whose rows were offered, by its row.
    fn hear_row(&mut self, code: &Code, esi: u16, bytes: &[u8]) -> bool
        requires of { IsOf code.now self.old }
        requires rows { self.old.alone ≡ false }
        requires bytes { length bytes.now ≤ self.old.t }
        ensures determined { result ≡ false ↔ Determines code.now (esis self.old.kept) esi }
        ensures same { result ≡ false → self.new ≡ self.old }
        ensures kept { result ≡ true → self.new.kept ≡ self.old.kept ++ record { esi = esi; symbol = filled self.old.t bytes.now } ∷ [] }
        ensures t { self.new.t ≡ self.old.t }
        ensures of { IsOf code.now self.new }
    {
        let mut room = room::<ROW_WORDS>();
        let row = &mut room[..words_for(usize::from(code.k()))];
        code.folded_row(esi, row);
        match self.offered.offer(row) {
            Offer::Determined => false,
            Offer::New(n) => {
                let rank = self.offered.rank();
                let place = usize::from(n);
                let t = usize::from(self.t);
                self.esis[place] = esi;
                put_symbol(&mut self.symbols, t * place, t, bytes);
                self.kept = rank;
                true
            }
        }
    }

    /// Puts the source symbols of a block that the symbols which are kept determine, one behind the other. Those that
    /// were heard are copied. It takes no memory.
    pub fn solve(self, code: &Code, out: &mut [u8])
        requires of { IsOf code.now self }
        requires determined { DetermineBlock code.now (esis self.kept) }
        requires out { length out.old ≡ self.t * self.k }
        ensures sources { AreSources code.now self.t self.kept out.new }
        ensures count { length out.new ≡ length out.old }
    {
        if self.alone && copy_sources(code, &self.esis, &self.symbols, usize::from(self.t), out) {
            return;
        }
        let mut block = self;
        block.offer_kept(code);
        let Decoder {
            t,
            offered,
            esis,
            mut symbols,
            ..
        } = block;
        put_sources(code, &offered, &esis, usize::from(t), &mut symbols, out);
    }
}
