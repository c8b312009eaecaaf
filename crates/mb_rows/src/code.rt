ghost use Rattle.std.specs.Prelude.{◌≡◌, ◌≢◌, ◌↔◌, ℕ, ◌+◌, ◌*◌, ◌/◌, ◌<◌, ◌≤◌, true, false, All, length, take, IfOk};
ghost use Rattle.mb_bits.specs.BitRow.{bit_in, row_of};
ghost use Rattle.mb_tables.specs.Limits.{IsRow, IsL};
ghost use Rattle.mb_rows.specs.Code.{RaptorCode, IsCode, IsCodeOf, l_of};
ghost use Rattle.mb_rows.specs.Triple.{triple_of};
ghost use Rattle.mb_rows.specs.Walk.{lt_row};
ghost use Rattle.mb_rows.specs.Constraints.{constraint_row};
ghost use Rattle.mb_rows.specs.Folding.{folded_row, IsFolded};
ghost use Rattle.mb_tables.specs.declared.row.Row.{Row};

use crate::constraint::put_added;
use crate::fold::{fold, put_folded};
use crate::triple::triple_for;
use crate::walk::put_lt_row;
use crate::{CodeFault, Triple};
use mb_base::Memory;
use mb_bits::flip_bit;
use mb_tables::{Row, Tables, h_of};
use std::alloc::Global;
use std::marker::Model;

/// The Raptor code of one block size (RFC 5053 section 5.4). It gives the rows of bits that say which of the L
/// intermediate symbols, or of the first K, are added up.
#[derive(Drop)]
pub struct Code {
    v0: Vec<u32>,
    v1: Vec<u32>,
    row: Row,
    /// How many half symbols there are.
    h: u16,
    /// The source places of the LDPC and half symbols, one symbol behind the other.
    folded: Vec<u64>,
}

impl Model for Code {
    ghost use Rattle.mb_rows.specs.Code.{RaptorCode};
    ghost use Rattle.mb_rows.specs.Kept.{IsKept};

    ghost Value = { RaptorCode };

    ghost view = { λ c. record { v0 = c.v0.items; v1 = c.v1.items; row = c.row; h = c.h } };

    ghost invariant = { λ c. IsKept (record { v0 = c.v0.items; v1 = c.v1.items; row = c.row; h = c.h }) c.folded.items };
}

// The numbers of V0.
fn copy_v0(alloc: Global, tables: &Tables) -> Result<Vec<u32>, Memory>
    requires { length tables.now.v0 ≡ 256 }
    ensures { IfOk result (λ words. words.items ≡ tables.now.v0) }
{
    let mut words = Vec::new(alloc);
    for i in 0..256u16 {
        words.push(tables.v0(i as u8))?;
    }
    Ok(words)
}

// The numbers of V1.
fn copy_v1(alloc: Global, tables: &Tables) -> Result<Vec<u32>, Memory>
    requires { length tables.now.v1 ≡ 256 }
    ensures { IfOk result (λ words. words.items ≡ tables.now.v1) }
{
    let mut words = Vec::new(alloc);
    for i in 0..256u16 {
        words.push(tables.v1(i as u8))?;
    }
    Ok(words)
}

// Whether numbers are the same.
fn are_same(words: &[u32], others: &[u32]) -> bool
    ensures { result ≡ true ↔ words.now ≡ others.now }
{
    words == others
}

// Whether rows of the tables are the same.
fn is_row(row: Row, other: Row) -> bool
    ensures { result ≡ true ↔ row ≡ other }
{
    row.k == other.k && row.j == other.j && row.s == other.s && row.lp == other.lp
}

impl Code {
    /// The code of blocks of K symbols.
    ///
    /// # Errors
    ///
    /// `NoRow` where the tables have no row for K, and `Memory` where there is no room for the code.
    pub fn new(alloc: Global, tables: &Tables, k: u16) -> Result<Code, CodeFault>
        ensures code { IfOk result (λ code. IsCodeOf tables.now k code) }
        ensures limits { IfOk result IsCode }
        ensures no_row { (result ≡ Err (CodeFault.NoRow k)) ↔ All (λ (row : Row). row.k ≢ k) tables.now.rows }
        ensures which { (n : ℕ) → result ≡ Err (CodeFault.NoRow n) → n ≡ k }
    {
        let Some(row) = tables.row(k) else {
            return Err(CodeFault::NoRow(k));
        };
        let h = h_of(u32::from(row.k) + u32::from(row.s));
        let v0 = copy_v0(alloc, tables)?;
        let v1 = copy_v1(alloc, tables)?;
        let folded = fold(alloc, row.k, row.s, h)?;
        Ok(Code {
            v0,
            v1,
            row,
            h,
            folded,
        })
    }

    /// Whether another code is the same: that of the same K, by the same numbers.
    pub fn is(&self, other: &Code) -> bool
        ensures { result ≡ true ↔ self.now ≡ other.now }
    {
        is_row(self.row, other.row)
            && self.h == other.h
            && are_same(&self.v0, &other.v0)
            && are_same(&self.v1, &other.v1)
    }

    /// K, the source symbols.
    pub fn k(&self) -> u16
        ensures k { result ≡ self.now.row.k }
        ensures limits { IsCode self.now }
    {
        self.row.k
    }

    /// L, the intermediate symbols.
    pub fn l(&self) -> u16
        ensures sum { result ≡ l_of self.now }
        ensures l { IsL self.now.row.k self.now.row.s result }
    {
        self.row.k + self.row.s + self.h
    }

    /// The triple of an ESI (RFC 5053 section 5.4.4.4).
    pub fn triple(&self, esi: u16) -> Triple
        ensures triple { result ≡ triple_of self.now esi }
        ensures step { 1 ≤ result.a }
        ensures step_below { result.a < self.now.row.lp }
        ensures begin { result.b < self.now.row.lp }
    {
        triple_for(&self.v0, &self.v1, self.row, esi)
    }

    /// Puts the LT row of an ESI: the intermediate symbols that its encoding symbol is the sum of (RFC 5053 section
    /// 5.4.4.3). Place i is bit `i % 64` of word `i / 64`; no bit is set behind the last place.
    pub fn lt_row(&self, esi: u16, out: &mut [u64])
        requires { length out.old ≡ (l_of self.now + 63) / 64 }
        ensures row { row_of (l_of self.now) out.new ≡ lt_row self.now esi }
        ensures behind { (place : ℕ) → l_of self.now ≤ place → bit_in out.new place ≡ false }
        ensures words { length out.new ≡ length out.old }
    {
        put_lt_row(self.triple(esi), self.l(), self.row.lp, out);
    }

    /// Puts constraint i: intermediate symbols that sum to zero (RFC 5053 section 5.4.2.3). The first S constraints
    /// are those of the LDPC symbols, and H of the half symbols follow. The places are as in `lt_row`.
    pub fn constraint(&self, i: u16, out: &mut [u64])
        requires which { i < self.now.row.s + self.now.h }
        requires words { length out.old ≡ (l_of self.now + 63) / 64 }
        ensures row { row_of (l_of self.now) out.new ≡ constraint_row self.now i }
        ensures behind { (place : ℕ) → l_of self.now ≤ place → bit_in out.new place ≡ false }
        ensures words { length out.new ≡ length out.old }
    {
        put_added(self.row.k, self.row.s, self.h, i, out);
        flip_bit(out, usize::from(self.row.k + i));
    }

    /// Puts what is left of the LT row of an ESI when each LDPC and half symbol is replaced by the source places that
    /// the constraints make it the sum of: wherever the constraints are met, both say the same. The places are as in
    /// `lt_row`.
    pub fn folded_row(&self, esi: u16, out: &mut [u64])
        requires { length out.old ≡ (self.now.row.k + 63) / 64 }
        ensures row { row_of self.now.row.k out.new ≡ folded_row self.now esi }
        ensures folded { IsFolded self.now (lt_row self.now esi) (row_of self.now.row.k out.new) }
        ensures behind { (place : ℕ) → self.now.row.k ≤ place → bit_in out.new place ≡ false }
        ensures words { length out.new ≡ length out.old }
    {
        put_folded(
            self.triple(esi),
            self.l(),
            self.row.lp,
            self.row.k,
            &self.folded,
            out,
        );
    }
}

// Several workers make rows at once, so it is checked here that a code can be sent and shared.
fn is_shared<T: Send + Sync>(_value: &T) {}

fn codes_are_shared(code: &Code) {
    is_shared(code);
}
