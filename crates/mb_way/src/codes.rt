ghost use Rattle.std.specs.Prelude.{◌≡◌, ℕ, ◌+◌, ◌*◌, ◌^◌, ◌<◌, ◌≤◌, ◌++◌, true, is_some, replicate, Some, Contains, IfOk, IfSome};
ghost use Rattle.std.specs.List.{AllByRecursion};
ghost use Rattle.mb_tables.specs.Tables.{RaptorTables, AreTables};
ghost use Rattle.mb_rows.specs.Code.{RaptorCode, IsCode};
ghost use Rattle.mb_way.specs.Way.{Raptor, code_of};
ghost use Rattle.mb_way.specs.Ways.{has_ways, ways_of, AreWaysOf};

use crate::shared::SharedCode;
use crate::way::{Way, code_for};
use crate::ways::{TwoCodes, Ways};
use mb_base::Memory;
use mb_geom::{Desc, Parts, Scheme};
use mb_tables::Tables;
use std::alloc::Global;
use std::marker::Model;

/// The tables of a session, and the codes that were made of them, each once while a file needs it. A contract sees the
/// tables.
#[derive(Drop)]
pub struct Codes {
    tables: Tables,
    made: Vec<SharedCode>,
}

impl Model for Codes {
    ghost use Rattle.mb_tables.specs.Tables.{RaptorTables};
    ghost use Rattle.mb_way.specs.Views.{AreMade};

    ghost Value = { RaptorTables };

    ghost view = { λ c. c.tables };

    ghost invariant = { λ c. AreMade c.tables c.made.items };
}

/// The code of blocks of `k` symbols, where it is among those that were made.
fn made_code(made: &[SharedCode], k: u32) -> Result<Option<SharedCode>, Memory>
    ensures { IfOk result (λ found. IfSome found (λ c. Contains made.now c × (c.row.k ≡ k))) }
{
    for shared in made {
        if u32::from(shared.code().k()) == k {
            return Ok(Some(shared.share()?));
        }
    }
    Ok(None)
}

/// Leaves the codes that files share.
fn leave_shared(made: &mut Vec<SharedCode>)
    ensures { (t : RaptorTables) → AllByRecursion (λ (c : RaptorCode). (code_of t c.row.k ≡ Some c) × IsCode c) made.old.items
        → AllByRecursion (λ (c : RaptorCode). (code_of t c.row.k ≡ Some c) × IsCode c) made.new.items }
{
    made.retain(|code| code.has_others());
}

/// Notes that a code is usable where one that was made is the same and known to be usable.
fn learn_from_made(code: &mut SharedCode, made: &[SharedCode])
    ensures { code.new ≡ code.old }
{
    for shared in made {
        code.learn_from(shared);
    }
}

/// Notes that the codes that were made are usable which are the same as this one, where that is known to be usable.
fn tell_made(made: &mut [SharedCode], code: &SharedCode)
    ensures { made.new ≡ made.old }
{
    for i in 0..made.len() {
        made[i].learn_from(code);
    }
}

/// The ways of blocks of a file under Raptor, which are divided like this.
fn coded(parts: Parts, longer: SharedCode, shorter: SharedCode) -> Ways
    requires two { (longer.row.k ≡ parts.il) × (shorter.row.k ≡ parts.is) }
    requires codes { IsCode longer × IsCode shorter }
    requires some { 0 < parts.js }
    requires one { parts.jl ≡ 0 → parts.il ≡ parts.is }
    requires few { parts.jl + parts.js ≤ 65536 }
    requires things { parts.jl * parts.il + parts.js * parts.is ≤ 2 ^ 28 }
    requires long { parts.il ≤ 65536 }
    requires short { parts.is ≤ parts.il }
    ensures { result ≡ replicate parts.jl (Raptor longer) ++ replicate parts.js (Raptor shorter) }
{
    Ways {
        parts,
        codes: Some(TwoCodes { longer, shorter }),
    }
}

impl Codes {
    /// The tables of a session, of which no code was made.
    pub fn new(alloc: Global, tables: Tables) -> Codes
        ensures { result ≡ tables }
    {
        let _rows = tables.rows();
        Codes {
            tables,
            made: Vec::new(alloc),
        }
    }

    /// The tables.
    pub fn tables(&self) -> &Tables
        ensures same { result.now ≡ self.now }
        ensures tables { AreTables self.now }
    {
        &self.tables
    }

    /// Whether the tables have a row for blocks of `k` symbols.
    fn has_row(&self, k: u32) -> bool
        requires { k ≤ 8192 }
        ensures { result ≡ is_some (code_of self.now k) }
    {
        match self.tables.row(k as u16) {
            Some(_) => true,
            None => false,
        }
    }

    /// Whether each block of the file has a way: it is under Compact No-Code, or the tables have a row for each size of
    /// its blocks.
    pub fn has_ways(&self, desc: &Desc) -> bool
        ensures { result ≡ has_ways self.now desc.now }
    {
        let _length = desc.length();
        let parts = desc.parts();
        match desc.scheme() {
            Scheme::NoCode { .. } => true,
            Scheme::Raptor { .. } => self.has_row(parts.il as u32) && self.has_row(parts.is as u32),
        }
    }

    /// The code of blocks of `k` symbols, which is made where it was not made before.
    fn code(&mut self, alloc: Global, k: u32) -> Result<SharedCode, Memory>
        requires limits { (4 ≤ k) × (k ≤ 8192) }
        ensures code { IfOk result (λ c. code_of self.old k ≡ Some c) }
        ensures size { IfOk result (λ c. (c.row.k ≡ k) × IsCode c) }
        ensures same { self.new ≡ self.old }
    {
        if let Some(code) = made_code(&self.made, k)? {
            return Ok(code);
        }
        let code = match code_for(alloc, &self.tables, k) {
            Ok(code) => code,
            Err(_) => return Err(Memory),
        };
        self.made.push(code.share()?)?;
        Ok(code)
    }

    /// The ways of a file's blocks. `Memory` where there is no room for their codes.
    pub fn ways(&mut self, alloc: Global, desc: &Desc) -> Result<Ways, Memory>
        requires { has_ways self.old desc.now ≡ true }
        ensures ways { IfOk result (λ w. w ≡ ways_of self.old desc.now) }
        ensures fit { IfOk result (AreWaysOf desc.now) }
        ensures same { self.new ≡ self.old }
    {
        let _length = desc.length();
        let parts = desc.parts();
        match desc.scheme() {
            Scheme::NoCode { .. } => Ok(Ways::no_code(parts)),
            Scheme::Raptor { .. } => {
                let longer = self.code(alloc, parts.il as u32)?;
                let shorter = self.code(alloc, parts.is as u32)?;
                Ok(coded(parts, longer, shorter))
            }
        }
    }

    /// Notes of which codes that were made the ways of a file know that they are usable.
    pub fn learn(&mut self, ways: &Ways)
        ensures { self.new ≡ self.old }
    {
        if let Some(two) = &ways.codes {
            tell_made(&mut self.made, &two.longer);
            tell_made(&mut self.made, &two.shorter);
        }
    }

    /// Tells the ways of a file which of their codes are known to be usable.
    pub fn tell(&self, ways: &mut Ways)
        ensures { ways.new ≡ ways.old }
    {
        if let Some(two) = &mut ways.codes {
            learn_from_made(&mut two.longer, &self.made);
            learn_from_made(&mut two.shorter, &self.made);
        }
    }

    /// Gives up the codes that no file needs any more.
    pub fn forget_unused(&mut self)
        ensures { self.new ≡ self.old }
    {
        leave_shared(&mut self.made);
    }
}

// Several workers solve blocks at once, so it is checked here that codes can be sent and shared.
fn is_shared<T: Send + Sync>(_value: &T) {}

fn codes_are_shared(codes: &Codes, ways: &Ways, way: &Way) {
    is_shared(codes);
    is_shared(ways);
    is_shared(way);
}
