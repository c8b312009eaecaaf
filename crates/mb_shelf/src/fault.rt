ghost use Rattle.std.specs.Prelude.{◌≡◌};

use mb_base::{Failed, Memory};
use std::alloc::AllocError;
use std::error::Error;
use std::fmt;

/// Why not all bytes of a source or a file were read.
#[derive(Clone, Copy, Debug, PartialEq, Eq)]
pub enum ReadAllFault {
    /// The source, or the shelf of the file, failed. Its count of faults rose.
    Fault,
    /// More bytes came than the limit allows.
    TooLong,
    /// Want of memory.
    Memory,
}

impl fmt::Display for ReadAllFault {
    fn fmt<W: fmt::Write>(&self, f: &mut fmt::Formatter<W>) -> fmt::Result {
        f.write_str(match self {
            ReadAllFault::Fault => "the outside failed",
            ReadAllFault::TooLong => "more bytes came than were allowed",
            ReadAllFault::Memory => "out of memory",
        })
    }
}

impl Error for ReadAllFault {}

impl From<Failed> for ReadAllFault {
    ghost use Rattle.mb_shelf.specs.declared.fault.ReadAllFault.TheVariants as fault;

    ghost from_gives = { λ _ f. f ≡ fault.Fault };

    fn from(_failed: Failed) -> ReadAllFault {
        ReadAllFault::Fault
    }
}

impl From<Memory> for ReadAllFault {
    ghost use Rattle.mb_shelf.specs.declared.fault.ReadAllFault.TheVariants as fault;

    ghost from_gives = { λ _ f. f ≡ fault.Memory };

    fn from(_memory: Memory) -> ReadAllFault {
        ReadAllFault::Memory
    }
}

impl From<AllocError> for ReadAllFault {
    ghost use Rattle.mb_shelf.specs.declared.fault.ReadAllFault.TheVariants as fault;

    ghost from_gives = { λ _ f. f ≡ fault.Memory };

    fn from(_error: AllocError) -> ReadAllFault {
        ReadAllFault::Memory
    }
}
