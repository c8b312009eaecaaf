ghost use Rattle.std.specs.Prelude.{◌≡◌};

use mb_base::Memory;
use mb_rows::CodeFault;
use std::alloc::{AllocError, AllocFailed};
use std::error::Error;
use std::fmt;

/// Why a block has no encoder.
#[derive(Clone, Copy, Debug, PartialEq, Eq)]
pub enum EncodeFault {
    /// The tables have no row for this K.
    NoRow(u16),
    /// The K source symbols do not determine the block under these tables.
    Unusable(u16),
    /// Want of memory.
    Memory,
}

impl fmt::Display for EncodeFault {
    fn fmt<W: fmt::Write>(&self, f: &mut fmt::Formatter<W>) -> fmt::Result {
        match self {
            EncodeFault::NoRow(k) => {
                write!(f, "the tables have no row for blocks of {k} symbols")
            }
            EncodeFault::Unusable(k) => {
                write!(f, "the tables cannot encode blocks of {k} symbols")
            }
            EncodeFault::Memory => f.write_str("out of memory"),
        }
    }
}

impl Error for EncodeFault {}

impl From<CodeFault> for EncodeFault {
    ghost use Rattle.mb_encoder.specs.Faults.{encode_fault};

    ghost from_gives = { λ fault f. f ≡ encode_fault fault };

    fn from(fault: CodeFault) -> EncodeFault {
        match fault {
            CodeFault::NoRow(k) => EncodeFault::NoRow(k),
            CodeFault::Memory => EncodeFault::Memory,
        }
    }
}

impl From<Memory> for EncodeFault {
    ghost use Rattle.mb_encoder.specs.declared.fault.EncodeFault.TheVariants as fault;

    ghost from_gives = { λ _ f. f ≡ fault.Memory };

    fn from(_fault: Memory) -> EncodeFault {
        EncodeFault::Memory
    }
}

impl From<AllocError> for EncodeFault {
    ghost use Rattle.mb_encoder.specs.declared.fault.EncodeFault.TheVariants as fault;

    ghost from_gives = { λ _ f. f ≡ fault.Memory };

    fn from(_error: AllocError) -> EncodeFault {
        EncodeFault::Memory
    }
}

impl<T: Drop> From<AllocFailed<T>> for EncodeFault {
    ghost use Rattle.mb_encoder.specs.declared.fault.EncodeFault.TheVariants as fault;

    ghost from_gives = { λ _ f. f ≡ fault.Memory };

    fn from(_error: AllocFailed<T>) -> EncodeFault {
        EncodeFault::Memory
    }
}
