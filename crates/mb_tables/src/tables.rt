ghost use Rattle.std.specs.Prelude.{◌≡◌, ◌≢◌, ℕ, All, IfErr, ◌<◌, ◌≤◌, ◌^◌, ◌++◌, ◌∷◌, [], ◌⊎◌, ◌↔◌, length, map, slice_index, Contains, IsTrue, IfOk, IfSome, IfNone, OnOk, OnErr};
ghost use Rattle.mb_tables.specs.Limits.{IsK, IsRow, IsOut, IsMade};
ghost use Rattle.mb_tables.specs.Tables.{RaptorTables, AreTables, IsAbove, IsRising};
ghost use Rattle.mb_tables.specs.Refused.{IsNotAdded};
ghost use Rattle.mb_tables.specs.Made.{AreMadeWords, HasMadeWords};
ghost use Rattle.mb_tables.specs.declared.row.Row.{Row};

use crate::limits::{first_out, made_row};
use crate::{AddFault, Row};
use mb_base::{Memory, word};
use std::alloc::Global;
use std::marker::Model;

/// How many numbers V0 and V1 have (RFC 5053 section 5.6).
pub(crate) const WORDS: usize = 256;

/// The tables of the Raptor code: V0 and V1, and a row for each K that they know, K rising.
#[derive(Drop)]
pub struct Tables {
    pub(crate) alloc: Global,
    pub(crate) v0: Vec<u32>,
    pub(crate) v1: Vec<u32>,
    pub(crate) rows: Vec<Row>,
}

impl Model for Tables {
    ghost use Rattle.mb_tables.specs.Tables.{RaptorTables, AreTables};

    ghost Value = { RaptorTables };

    ghost view = { λ t. record { v0 = t.v0.items; v1 = t.v1.items; rows = t.rows.items } };

    ghost invariant = { λ t. AreTables (record { v0 = t.v0.items; v1 = t.v1.items; rows = t.rows.items }) };
}

impl Tables {
    /// Tables of these numbers and rows.
    pub(crate) fn from_parts(alloc: Global, v0: Vec<u32>, v1: Vec<u32>, rows: Vec<Row>) -> Tables
        requires { AreTables (record { v0 = v0.items; v1 = v1.items; rows = rows.items }) }
        ensures { result ≡ record { v0 = v0.items; v1 = v1.items; rows = rows.items } }
    {
        Tables {
            alloc,
            v0,
            v1,
            rows,
        }
    }

    /// Tables that have no row. All numbers of V0 and V1 are 0.
    pub fn none(alloc: Global) -> Result<Tables, Memory>
        ensures rows { IfOk result (λ t. t.rows ≡ []) }
        ensures v0 { IfOk result (λ t. All (λ word. word ≡ 0) t.v0) }
        ensures v1 { IfOk result (λ t. All (λ word. word ≡ 0) t.v1) }
    {
        let v0 = zeros(alloc, WORDS)?;
        let v1 = zeros(alloc, WORDS)?;
        Ok(Tables {
            alloc,
            v0,
            v1,
            rows: Vec::new(alloc),
        })
    }

    /// Tables that have no row, with the numbers of made tables: those of the generator's sequence that seed 1
    /// begins, V1's behind V0's.
    pub fn made(alloc: Global) -> Result<Tables, Memory>
        ensures words { IfOk result HasMadeWords }
        ensures rows { IfOk result (λ t. t.rows ≡ []) }
    {
        let v0 = made_words(alloc, 0)?;
        let v1 = made_words(alloc, 256)?;
        Ok(Tables {
            alloc,
            v0,
            v1,
            rows: Vec::new(alloc),
        })
    }

    /// Equal tables.
    pub fn copy(&self) -> Result<Tables, Memory>
        ensures { IfOk result (λ t. t ≡ self.now) }
    {
        let v0 = self.v0.clone()?;
        let v1 = self.v1.clone()?;
        let rows = self.rows.clone()?;
        Ok(Tables {
            alloc: self.alloc,
            v0,
            v1,
            rows,
        })
    }

    /// All rows, K rising.
    pub fn rows(&self) -> &[Row]
        ensures rows { result.now ≡ self.now.rows }
        ensures tables { AreTables self.now }
    {
        &self.rows
    }

    /// The row of K, if the tables have one.
    pub fn row(&self, k: u16) -> Option<Row>
        ensures found { IfSome result (λ row. Contains self.now.rows row × (row.k ≡ k)) }
        ensures none { IfNone result (All (λ (row : Row). row.k ≢ k) self.now.rows) }
        ensures tables { AreTables self.now }
    {
        row_for(&self.rows, k)
    }

    /// The number of V0 at `i`.
    pub fn v0(&self, i: u8) -> u32
        ensures { result ≡ slice_index self.now.v0 i }
    {
        self.v0[usize::from(i)]
    }

    /// The number of V1 at `i`.
    pub fn v1(&self, i: u8) -> u32
        ensures { result ≡ slice_index self.now.v1 i }
    {
        self.v1[usize::from(i)]
    }

    /// Adds a row behind the others. It is refused as `Order` where its K is not above that of the last
    /// one, else as `Range` with the first field outside its limits, and as `Memory` where there is no room;
    /// the tables are then as before.
    pub fn add(&mut self, row: Row) -> Result<(), AddFault>
        ensures added { OnOk result (self.new ≡ record self.old { rows = self.old.rows ++ row ∷ [] }) }
        ensures good { OnOk result (IsAbove row.k self.old.rows × IsRow row) }
        ensures kept { OnErr result (self.new ≡ self.old) }
        ensures refused { IfErr result (IsNotAdded self.old.rows row) }
    {
        if !is_above(&self.rows, row.k) {
            return Err(AddFault::Order);
        }
        if let Some(field) = first_out(row) {
            return Err(AddFault::Range(field));
        }
        match self.rows.push(row) {
            Ok(()) => Ok(()),
            Err(_) => Err(AddFault::Memory),
        }
    }
}

// The length is a parameter, since a proof would write a literal number of zeros out.
fn zeros(alloc: Global, len: usize) -> Result<Vec<u32>, Memory>
    ensures len { IfOk result (λ words. length words.items ≡ len) }
    ensures zero { IfOk result (λ words. All (λ word. word ≡ 0) words.items) }
{
    Ok(vec![in alloc; 0; len]?)
}

// The numbers of one half of made tables. Those of the sequence before `first` are passed over.
fn made_words(alloc: Global, first: u32) -> Result<Vec<u32>, Memory>
    requires { first ≤ 256 }
    ensures words { IfOk result (λ words. AreMadeWords first words.items) }
    ensures fit { IfOk result (λ words. All (λ number. number < 2 ^ 32) words.items) }
{
    let mut words = Vec::new(alloc);
    for i in 0..256u32 {
        words.push(word(1, first + i))?;
    }
    Ok(words)
}

/// The row of K, if one of them is.
fn row_for(rows: &[Row], k: u16) -> Option<Row>
    ensures found { IfSome result (λ row. Contains rows.now row × (row.k ≡ k)) }
    ensures none { IfNone result (All (λ (row : Row). row.k ≢ k) rows.now) }
{
    for row in rows {
        if row.k == k {
            return Some(*row);
        }
    }
    None
}

/// Whether K is above that of the rows, whose own rise.
pub(crate) fn is_above(rows: &[Row], k: u16) -> bool
    requires { IsRising rows.now }
    ensures { IsTrue result ↔ IsAbove k rows.now }
{
    match rows.last() {
        None => true,
        Some(row) => row.k < k,
    }
}

/// The row that is made for K and J: S and L' are the least odd numbers within their limits.
pub fn make_row(_tables: &Tables, k: u16, j: u16) -> Row
    requires { IsK k }
    ensures made { IsMade k j result }
    ensures row { IsRow result }
{
    made_row(k, j)
}

// Several workers read tables at once, so it is checked here that they can be sent and shared.
fn is_shared<T: Send + Sync>(_value: &T) {}

fn tables_are_shared(tables: &Tables) {
    is_shared(tables);
}
