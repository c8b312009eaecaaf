ghost use Rattle.std.specs.Prelude.{◌≡◌, ℕ, ◌+◌, ◌*◌, ◌/◌, ◌^◌, ◌<◌, ◌≤◌};

use crate::shared::SharedCode;
use crate::way::Way;
use mb_base::Memory;
use mb_geom::Parts;
use mb_rows::Code;
use std::marker::Model;

/// No blocks.
const NO_PARTS: Parts = Parts {
    il: 0,
    is: 0,
    jl: 0,
    js: 0,
};

/// The codes of the two sizes that the blocks of a file have.
#[derive(Drop)]
pub(crate) struct TwoCodes {
    pub(crate) longer: SharedCode,
    pub(crate) shorter: SharedCode,
}

/// The ways of all blocks of a file, by block number. A contract sees them as a list.
#[derive(Drop)]
pub struct Ways {
    pub(crate) parts: Parts,
    pub(crate) codes: Option<TwoCodes>,
}

impl Model for Ways {
    ghost use Rattle.std.specs.Prelude.{List};
    ghost use Rattle.mb_way.specs.Way.{Way};
    ghost use Rattle.mb_way.specs.Views.{ways_seen, StandAs};

    ghost Value = { List Way };

    ghost view = { λ w. ways_seen w.parts w.codes };

    ghost invariant = { λ w. StandAs w.parts w.codes };
}

impl Ways {
    ghost use Rattle.std.specs.List.{AllByRecursion};
    ghost use Rattle.mb_geom.specs.Partition.{sizes_of};
    ghost use Rattle.std.specs.Prelude.{[], length, map, slice_index, slice_index_or, IfOk};
    ghost use Rattle.mb_geom.specs.Description.{Description, block_sizes, equations_once};
    ghost use Rattle.mb_rows.specs.Code.{RaptorCode};
    ghost use Rattle.mb_decoder.specs.Block.{SourcesDetermine};
    ghost use Rattle.mb_way.specs.Way.{Way, NoCode, Raptor, IsWay};
    ghost use Rattle.mb_way.specs.Ways.{AreWaysOf};

    /// The ways of blocks of a file under Compact No-Code, which are divided like this, or of no blocks.
    pub(crate) fn no_code(parts: Parts) -> Ways
        requires each { AllByRecursion (λ k. IsWay (NoCode k)) (sizes_of parts) }
        requires few { parts.jl + parts.js ≤ 65536 }
        requires things { parts.jl * parts.il + parts.js * parts.is ≤ 2 ^ 28 }
        requires long { parts.il ≤ 65536 }
        requires short { parts.is ≤ parts.il }
        ensures { result ≡ map NoCode (sizes_of parts) }
    {
        Ways { parts, codes: None }
    }

    /// How many blocks there are.
    pub fn count(&self) -> u32
        ensures exact { result ≡ length self.now }
        ensures most { result ≤ 65536 }
    {
        self.parts.count() as u32
    }

    /// The way of a block, by its number. `Memory` where its code has as many owners as can be counted.
    pub fn way(&self, sbn: u16) -> Result<Way, Memory>
        requires { sbn < length self.now }
        ensures { IfOk result (λ w. w ≡ slice_index_or self.now sbn (NoCode 0)) }
    {
        let number = u64::from(sbn);
        match &self.codes {
            None => Ok(Way::no_code(self.parts.size(number) as u32)),
            Some(two) if number < self.parts.jl => Ok(Way::raptor(two.longer.share()?)),
            Some(two) => Ok(Way::raptor(two.shorter.share()?)),
        }
    }

    /// Notes that the code of this block is usable, where it has one. The ways that are handed out from now on know it.
    pub fn learn(&mut self, sbn: u16)
        requires block { sbn < length self.old }
        requires usable { (c : RaptorCode) → slice_index_or self.old sbn (NoCode 0) ≡ Raptor c → SourcesDetermine c }
        ensures { self.new ≡ self.old }
    {
        let is_longer = u64::from(sbn) < self.parts.jl;
        match &mut self.codes {
            None => {}
            Some(two) if is_longer => two.longer.learn(),
            Some(two) => two.shorter.learn(),
        }
    }

    /// Whether they are those of a file under Raptor.
    pub fn is_raptor(&self) -> bool {
        self.codes.is_some()
    }

    /// The bytes of the rows of their codes.
    pub fn code_bytes(&self) -> u64
        ensures most { (d : Description) → AreWaysOf d self.now → result ≤ equations_once d.scheme (slice_index (block_sizes d) 0) }
        ensures small { result ≤ 2 ^ 30 }
    {
        match &self.codes {
            None => 0,
            Some(two) => rows_of(two.longer.code()) + rows_of(two.shorter.code()),
        }
    }

    /// Leaves no way, and gives the codes up.
    pub fn forget(&mut self)
        ensures { self.new ≡ [] }
    {
        self.parts = NO_PARTS;
        self.codes = None;
    }
}

/// The bytes of the LDPC and half symbols that a code keeps.
fn rows_of(code: &Code) -> u64
    ensures { result ≤ 4224 * ((code.now.row.k + 63) / 64) }
{
    let (k, l) = (u64::from(code.k()), u64::from(code.l()));
    8 * ((k + 63) / 64) * (l - k)
}
