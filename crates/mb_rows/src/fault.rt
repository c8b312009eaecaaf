ghost use Rattle.std.specs.Prelude.{◌≡◌};

use mb_base::Memory;
use std::alloc::{AllocError, AllocFailed};
use std::error::Error;
use std::fmt;

/// Why there is no code of a block size.
#[derive(Clone, Copy, Debug, PartialEq, Eq)]
pub enum CodeFault {
    /// The tables have no row for this K.
    NoRow(u16),
    /// Want of memory.
    Memory,
}

impl fmt::Display for CodeFault {
    fn fmt<W: fmt::Write>(&self, f: &mut fmt::Formatter<W>) -> fmt::Result {
        match self {
            CodeFault::NoRow(k) => write!(f, "the tables have no row for blocks of {k} symbols"),
            CodeFault::Memory => f.write_str("out of memory"),
        }
    }
}

impl Error for CodeFault {}

impl From<Memory> for CodeFault {
    ghost use Rattle.mb_rows.specs.declared.fault.CodeFault.TheVariants as fault;

    ghost from_gives = { λ _ f. f ≡ fault.Memory };

    fn from(_fault: Memory) -> CodeFault {
        CodeFault::Memory
    }
}

impl From<AllocError> for CodeFault {
    ghost use Rattle.mb_rows.specs.declared.fault.CodeFault.TheVariants as fault;

    ghost from_gives = { λ _ f. f ≡ fault.Memory };

    fn from(_error: AllocError) -> CodeFault {
        CodeFault::Memory
    }
}

impl<T: Drop> From<AllocFailed<T>> for CodeFault {
    ghost use Rattle.mb_rows.specs.declared.fault.CodeFault.TheVariants as fault;

    ghost from_gives = { λ _ f. f ≡ fault.Memory };

    fn from(_error: AllocFailed<T>) -> CodeFault {
        CodeFault::Memory
    }
}
