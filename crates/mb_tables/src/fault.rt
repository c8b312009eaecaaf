ghost use Rattle.std.specs.Prelude.{◌≡◌};

use mb_base::{Failed, Memory};
use std::alloc::{AllocError, AllocFailed};
use std::error::Error;
use std::fmt;

/// Why a source gave no tables: the first reason in reading order. Rows are counted from 0.
#[derive(Clone, Copy, Debug, PartialEq, Eq)]
pub enum TablesFault {
    /// One of the first eight bytes differs.
    Magic,
    /// The file ends too early. It has so many bytes.
    Truncated(u64),
    /// The K of this row is not above that of the row before.
    Order(u16),
    /// A number of this row is outside its limits: K is field 0, S is 2 and L' is 3.
    Range(u16, u8),
    /// A byte follows the last row.
    Trailing,
    /// The source failed.
    SourceFault,
    /// Want of memory.
    Memory,
}

/// Why a row was not added to tables.
#[derive(Clone, Copy, Debug, PartialEq, Eq)]
pub enum AddFault {
    /// Its K is not above that of the last row.
    Order,
    /// A number of it is outside its limits: K is field 0, S is 2 and L' is 3.
    Range(u8),
    /// Want of memory.
    Memory,
}

impl fmt::Display for AddFault {
    fn fmt<W: fmt::Write>(&self, f: &mut fmt::Formatter<W>) -> fmt::Result {
        match self {
            AddFault::Order => f.write_str("the K of the row is not above that of the last one"),
            AddFault::Range(field) => write!(f, "number {field} of the row is outside its limits"),
            AddFault::Memory => f.write_str("out of memory"),
        }
    }
}

impl Error for AddFault {}

impl fmt::Display for TablesFault {
    fn fmt<W: fmt::Write>(&self, f: &mut fmt::Formatter<W>) -> fmt::Result {
        match self {
            TablesFault::Magic => f.write_str("the first bytes are not those of tables"),
            TablesFault::Truncated(place) => write!(f, "the tables end early, at byte {place}"),
            TablesFault::Order(row) => write!(f, "the K of row {row} is not above the one before"),
            TablesFault::Range(row, field) => {
                write!(f, "number {field} of row {row} is outside its limits")
            }
            TablesFault::Trailing => f.write_str("bytes follow the last row"),
            TablesFault::SourceFault => f.write_str("the source of the tables failed"),
            TablesFault::Memory => f.write_str("out of memory"),
        }
    }
}

impl Error for TablesFault {}

impl From<Failed> for TablesFault {
    ghost use Rattle.mb_tables.specs.declared.fault.TablesFault.TheVariants.{SourceFault};

    ghost from_gives = { λ _ fault. fault ≡ SourceFault };

    fn from(_fault: Failed) -> TablesFault {
        TablesFault::SourceFault
    }
}

impl From<Memory> for TablesFault {
    ghost use Rattle.mb_tables.specs.declared.fault.TablesFault.TheVariants as fault;

    ghost from_gives = { λ _ f. f ≡ fault.Memory };

    fn from(_fault: Memory) -> TablesFault {
        TablesFault::Memory
    }
}

impl From<AllocError> for TablesFault {
    ghost use Rattle.mb_tables.specs.declared.fault.TablesFault.TheVariants as fault;

    ghost from_gives = { λ _ f. f ≡ fault.Memory };

    fn from(_error: AllocError) -> TablesFault {
        TablesFault::Memory
    }
}

impl<T: Drop> From<AllocFailed<T>> for TablesFault {
    ghost use Rattle.mb_tables.specs.declared.fault.TablesFault.TheVariants as fault;

    ghost from_gives = { λ _ f. f ≡ fault.Memory };

    fn from(_error: AllocFailed<T>) -> TablesFault {
        TablesFault::Memory
    }
}
