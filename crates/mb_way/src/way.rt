ghost use Rattle.std.specs.Prelude.{◌≡◌, ◌↔◌, ℕ, ◌<◌, ◌≤◌, true, Err, Some, None, IfOk, IfErr, IfSome, IfNone};
ghost use Rattle.mb_rows.specs.Code.{RaptorCode, IsCode};
ghost use Rattle.mb_decoder.specs.Block.{SourcesDetermine};
ghost use Rattle.mb_geom.specs.Description.{block_count, block_size};
ghost use Rattle.mb_way.specs.Way.{Way, NoCode, Raptor, code_of, way_of, size_of, is_in_range, IsWay};

use crate::shared::SharedCode;
use mb_geom::{Desc, Scheme};
use mb_rows::{Code, CodeFault};
use mb_tables::Tables;
use std::alloc::Global;
use std::marker::Model;

/// How the symbols of a block follow from each other.
#[derive(Drop)]
pub(crate) enum Kind {
    /// Each of so many symbols, 1 to 65,536, is only itself.
    NoCode(u32),
    /// They are sums, which the code gives.
    Raptor(SharedCode),
}

/// How the symbols of a block follow from each other: under Compact No-Code (RFC 3695) each is only itself, under Raptor
/// (RFC 5053) a code says it. A contract sees the `Way` of the definitions.
#[derive(Drop)]
pub struct Way {
    kind: Kind,
}

impl Model for Way {
    ghost use Rattle.mb_way.specs.Way.{Way, IsWay};
    ghost use Rattle.mb_way.specs.Views.{way_seen};

    ghost Value = { Way };

    ghost view = { λ w. way_seen w.kind };

    ghost invariant = { λ w. IsWay (way_seen w.kind) };
}

/// The code of blocks of `k` symbols.
pub(crate) fn code_for(alloc: Global, tables: &Tables, k: u32) -> Result<SharedCode, CodeFault>
    requires { (4 ≤ k) × (k ≤ 8192) }
    ensures code { IfOk result (λ c. code_of tables.now k ≡ Some c) }
    ensures limits { IfOk result IsCode }
    ensures no_row { (result ≡ Err (CodeFault.NoRow k)) ↔ code_of tables.now k ≡ None }
    ensures which { (n : ℕ) → result ≡ Err (CodeFault.NoRow n) → n ≡ k }
{
    let _rows = tables.rows();
    match Code::new(alloc, tables, k as u16) {
        Ok(code) => share(alloc, code),
        Err(fault) => Err(fault),
    }
}

/// The code, to be shared.
fn share(alloc: Global, code: Code) -> Result<SharedCode, CodeFault>
    ensures code { IfOk result (λ c. c ≡ code) }
    ensures limits { IfOk result IsCode }
    ensures memory { IfErr result (λ fault. fault ≡ CodeFault.Memory) }
{
    let _k = code.k();
    match SharedCode::new(alloc, code) {
        Ok(shared) => Ok(shared),
        Err(_) => Err(CodeFault::Memory),
    }
}

impl Way {
    /// The way of a block of `k` symbols under Compact No-Code.
    pub fn no_code(k: u32) -> Way
        requires { (0 < k) × (k ≤ 65536) }
        ensures { result ≡ NoCode k }
    {
        Way {
            kind: Kind::NoCode(k),
        }
    }

    /// The way of a block of the file, by the block's number.
    ///
    /// # Errors
    ///
    /// `NoRow` with the block's number of symbols where the file is under Raptor and the tables have no row for it, and
    /// `Memory` where there is no room for its code.
    pub fn of(alloc: Global, tables: &Tables, desc: &Desc, sbn: u16) -> Result<Way, CodeFault>
        requires { sbn < block_count desc.now }
        ensures ok { IfOk result (λ w. way_of tables.now desc.now.scheme (block_size desc.now sbn) ≡ Some w) }
        ensures no_row { (result ≡ Err (CodeFault.NoRow (block_size desc.now sbn))) ↔ way_of tables.now desc.now.scheme (block_size desc.now sbn) ≡ None }
        ensures which { (n : ℕ) → result ≡ Err (CodeFault.NoRow n) → n ≡ block_size desc.now sbn }
    {
        let _length = desc.length();
        let k = desc.k_of(sbn);
        match desc.scheme() {
            Scheme::NoCode { .. } => Ok(Way::no_code(k)),
            Scheme::Raptor { .. } => Ok(Way {
                kind: Kind::Raptor(code_for(alloc, tables, k)?),
            }),
        }
    }

    /// The way of a block with this code.
    pub(crate) fn raptor(code: SharedCode) -> Way
        requires { IsCode code }
        ensures { result ≡ Raptor code }
    {
        Way {
            kind: Kind::Raptor(code),
        }
    }

    /// The number of source symbols of the block (K).
    pub fn size(&self) -> u32
        ensures exact { result ≡ size_of self.now }
        ensures within { IsWay self.now }
    {
        match &self.kind {
            Kind::NoCode(k) => *k,
            Kind::Raptor(code) => u32::from(code.code().k()),
        }
    }

    /// Whether the block has a symbol with this ESI.
    pub fn has(&self, esi: u16) -> bool
        ensures { result ≡ is_in_range self.now esi }
    {
        match &self.kind {
            Kind::NoCode(k) => u32::from(esi) < *k,
            Kind::Raptor(_) => true,
        }
    }

    /// The code of a block under Raptor.
    pub fn code(&self) -> Option<&Code>
        ensures some { IfSome result (λ c. self.now ≡ Raptor c.now) }
        ensures none { IfNone result (self.now ≡ NoCode (size_of self.now)) }
    {
        match &self.kind {
            Kind::NoCode(_) => None,
            Kind::Raptor(code) => Some(code.code()),
        }
    }

    /// Whether the block's code is known to be usable: its source symbols determine the block.
    pub fn is_usable(&self) -> bool
        ensures { (c : RaptorCode) → self.now ≡ Raptor c → result ≡ true → SourcesDetermine c }
    {
        match &self.kind {
            Kind::NoCode(_) => false,
            Kind::Raptor(code) => code.is_usable(),
        }
    }
}
