ghost use Rattle.std.specs.Prelude.{◌≡◌, ◌≢◌, ◌↔◌, ℕ, Err, ◌+◌, ◌*◌, ◌/◌, ◌<◌, ◌≤◌, All, List, [], length, slice_index_or, IfOk};
ghost use Rattle.mb_tables.specs.declared.row.Row.{Row};
ghost use Rattle.mb_encoder.specs.Solutions.{IsSymbolAt};
ghost use Rattle.mb_encoder.specs.Usable.{IsUsable};
ghost use Rattle.mb_encoder.specs.Encoder.{IsEncoderOf};

use crate::EncodeFault;
use crate::make::make_symbols;
use crate::sizes::code_of;
use crate::sources::offer_sources;
use crate::sums::put_sum;
use mb_bits::words_for;
use mb_rows::Code;
use mb_tables::Tables;
use std::alloc::Global;
use std::marker::Model;

/// The most words that a row of L places has.
const ROW_WORDS: usize = 137;

/// The encoder of a block (RFC 5053 section 5.4). A contract sees what it was made of.
#[derive(Drop)]
pub struct Intermediate {
    code: Code,
    /// The bytes of a symbol.
    t: u16,
    /// The L intermediate symbols.
    symbols: Vec<u8>,
}

impl Model for Intermediate {
    ghost use Rattle.mb_encoder.specs.Encoder.{Encoder};
    ghost use Rattle.mb_encoder.specs.Kept.{IsKept, encoder_of};

    ghost Value = { Encoder };

    ghost view = { λ e. encoder_of e.code e.t e.symbols.items };

    ghost invariant = { λ e. IsKept e.code e.t e.symbols.items };
}

// Room for a row. Its length is a parameter, since a proof would write a literal number of zeros out.
fn room<const LEN: usize>() -> [u64; LEN]
    ensures { length result ≡ LEN }
{
    [0; LEN]
}

impl Intermediate {
    /// The encoder of a block of K symbols of T bytes.
    ///
    /// # Errors
    ///
    /// `NoRow` where the tables have no row for K, `Unusable` where the source symbols do not determine the block, and
    /// `Memory` where there is no room for the intermediate symbols.
    pub fn of(
        alloc: Global,
        tables: &Tables,
        k: u16,
        t: u16,
        block: &[u8],
    ) -> Result<Intermediate, EncodeFault>
        requires { length block.now ≡ k * t }
        ensures encoder { IfOk result (IsEncoderOf tables.now k t block.now) }
        ensures usable { IfOk result (λ _. IsUsable tables.now k) }
        ensures no_row { (result ≡ Err (EncodeFault.NoRow k)) ↔ All (λ (row : Row). row.k ≢ k) tables.now.rows }
        ensures which { (n : ℕ) → result ≡ Err (EncodeFault.NoRow n) → n ≡ k }
        ensures unusable { (n : ℕ) → result ≡ Err (EncodeFault.Unusable n) → (n ≡ k) × (IsUsable tables.now k → ⊥) }
    {
        let code = code_of(alloc, tables, k)?;
        let Some(elim) = offer_sources(alloc, &code)? else {
            return Err(EncodeFault::Unusable(k));
        };
        let symbols = make_symbols(alloc, &code, &elim, t, block)?;
        Ok(Intermediate { code, t, symbols })
    }

    /// T, the bytes of a symbol.
    pub fn t(&self) -> u16
        ensures { result ≡ self.now.t }
    {
        self.t
    }

    /// Puts the encoding symbol at an ESI (RFC 5053 section 5.4.4.3): a source symbol at one below K, and a repair
    /// symbol at each other one.
    pub fn symbol(&self, esi: u16, out: &mut [u8])
        requires { length out.old ≡ self.now.t }
        ensures symbol { IsSymbolAt self.now.code self.now.t self.now.sources esi out.new }
        ensures source { esi < self.now.code.row.k → out.new ≡ slice_index_or self.now.sources esi [] }
    {
        let l = self.code.l();
        let mut room = room::<ROW_WORDS>();
        let row = &mut room[..words_for(usize::from(l))];
        self.code.lt_row(esi, row);
        put_sum(&self.symbols, row, l, out);
    }
}
