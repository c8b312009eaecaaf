ghost use Rattle.std.specs.Prelude.{◌≡◌};

use mb_base::Memory;
use std::alloc::{AllocError, AllocFailed};
use std::error::Error;
use std::fmt;

/// Why it is not known which symbols to ask for.
#[derive(Clone, Copy, Debug, PartialEq, Eq)]
pub enum MissFault {
    /// The symbols that are kept do not determine the block together with all its source symbols, of which there
    /// are so many.
    Unusable(u16),
    /// Want of memory.
    Memory,
}

impl fmt::Display for MissFault {
    fn fmt<W: fmt::Write>(&self, f: &mut fmt::Formatter<W>) -> fmt::Result {
        match self {
            MissFault::Unusable(k) => write!(f, "a block of {k} symbols is not determined by them"),
            MissFault::Memory => f.write_str("out of memory"),
        }
    }
}

impl Error for MissFault {}

impl From<AllocError> for MissFault {
    ghost use Rattle.mb_block.specs.declared.fault.MissFault.TheVariants as fault;

    ghost from_gives = { λ _ f. f ≡ fault.Memory };

    fn from(_error: AllocError) -> MissFault {
        MissFault::Memory
    }
}

impl<T: Drop> From<AllocFailed<T>> for MissFault {
    ghost use Rattle.mb_block.specs.declared.fault.MissFault.TheVariants as fault;

    ghost from_gives = { λ _ f. f ≡ fault.Memory };

    fn from(_error: AllocFailed<T>) -> MissFault {
        MissFault::Memory
    }
}

impl From<Memory> for MissFault {
    ghost use Rattle.mb_block.specs.declared.fault.MissFault.TheVariants as fault;

    ghost from_gives = { λ _ f. f ≡ fault.Memory };

    fn from(_fault: Memory) -> MissFault {
        MissFault::Memory
    }
}
