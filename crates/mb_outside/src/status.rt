ghost use Rattle.std.specs.Prelude.{◌≡◌};

use crate::Memory;
use std::alloc::{AllocError, AllocFailed};

/// How a run ended. A program ends with the number of its status, 0 to 13 in this order.
#[derive(Clone, Copy, Debug, PartialEq, Eq)]
pub enum Status {
    /// Every file was handed out.
    Done,
    /// Some file was not.
    Incomplete,
    /// The words were refused.
    Usage,
    /// The tables' bytes are no tables file.
    Tables,
    /// The trace ends inside a record.
    TraceBroken,
    /// The tables' source, or another source, failed.
    ReadFault,
    /// The air failed.
    AirFault,
    /// The store failed.
    StoreFault,
    /// The sink failed.
    OutFault,
    /// Want of memory.
    Memory,
    /// A file to be sent was refused.
    BadFile,
    /// The code has no usable row for a block.
    Unusable,
    /// The server's door failed.
    ServeFault,
    /// No parameter makes a wanted block size usable.
    NoJ,
}

impl Status {
    ghost use Rattle.mb_outside.specs.StatusNumber.{number_of};

    /// The number with which a program ends.
    pub fn number(self) -> u8
        ensures { result ≡ number_of self }
    {
        self as u8
    }
}

/// Want of memory ends a run with a status of its own.
impl From<AllocError> for Status {
    ghost use Rattle.mb_outside.specs.declared.status.Status.TheVariants.{Memory};

    ghost from_gives = { λ _ status. status ≡ Memory };

    fn from(_error: AllocError) -> Status {
        Status::Memory
    }
}

impl From<Memory> for Status {
    ghost use Rattle.mb_outside.specs.declared.status.Status.TheVariants as status;

    ghost from_gives = { λ _ s. s ≡ status.Memory };

    fn from(_error: Memory) -> Status {
        Status::Memory
    }
}

impl<T: Drop> From<AllocFailed<T>> for Status {
    ghost use Rattle.mb_outside.specs.declared.status.Status.TheVariants as status;

    ghost from_gives = { λ _ s. s ≡ status.Memory };

    fn from(_error: AllocFailed<T>) -> Status {
        Status::Memory
    }
}
