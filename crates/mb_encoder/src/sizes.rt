ghost use Rattle.std.specs.Prelude.{◌≡◌, ◌≢◌, ◌↔◌, ℕ, Err, All, IfOk, IsTrue};
ghost use Rattle.mb_tables.specs.declared.row.Row.{Row};
ghost use Rattle.mb_rows.specs.Code.{RaptorCode, IsCodeOf, IsCode};
ghost use Rattle.mb_encoder.specs.Usable.{IsUsable};

use crate::sources::offer_sources;
use mb_rows::{Code, CodeFault};
use mb_tables::Tables;
use std::alloc::Global;

/// The code of blocks of K symbols. There is no other one under these tables, as their rows rise.
pub(crate) fn code_of(alloc: Global, tables: &Tables, k: u16) -> Result<Code, CodeFault>
    ensures code { IfOk result (IsCodeOf tables.now k) }
    ensures limits { IfOk result IsCode }
    ensures one { IfOk result (λ code. (other : RaptorCode) → IsCodeOf tables.now k other → code ≡ other) }
    ensures no_row { (result ≡ Err (CodeFault.NoRow k)) ↔ All (λ (row : Row). row.k ≢ k) tables.now.rows }
    ensures which { (n : ℕ) → result ≡ Err (CodeFault.NoRow n) → n ≡ k }
{
    let Some(_row) = tables.row(k) else {
        return Err(CodeFault::NoRow(k));
    };
    Code::new(alloc, tables, k)
}

/// Whether the K source symbols of a block determine all others, so that blocks of K symbols can be encoded.
///
/// # Errors
///
/// `NoRow` where the tables have no row for K, and `Memory` where there is no room for the elimination.
pub fn usable(alloc: Global, tables: &Tables, k: u16) -> Result<bool, CodeFault>
    ensures usable { IfOk result (λ answer. IsTrue answer ↔ IsUsable tables.now k) }
    ensures no_row { (result ≡ Err (CodeFault.NoRow k)) ↔ All (λ (row : Row). row.k ≢ k) tables.now.rows }
    ensures which { (n : ℕ) → result ≡ Err (CodeFault.NoRow n) → n ≡ k }
{
    let code = code_of(alloc, tables, k)?;
    let found = offer_sources(alloc, &code)?;
    Ok(found.is_some())
}
