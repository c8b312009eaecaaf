ghost use Rattle.std.specs.Prelude.{◌≡◌};

use mb_base::{Failed, Memory};
use std::error::Error;
use std::fmt;

/// Why a session was not written whole.
#[derive(Clone, Copy, Debug, PartialEq, Eq)]
pub enum SendFault {
    /// The sink failed.
    Failed,
    /// Want of memory.
    Memory,
}

impl fmt::Display for SendFault {
    fn fmt<W: fmt::Write>(&self, f: &mut fmt::Formatter<W>) -> fmt::Result {
        f.write_str(match self {
            SendFault::Failed => "the outside failed",
            SendFault::Memory => "out of memory",
        })
    }
}

impl Error for SendFault {}

impl From<Failed> for SendFault {
    ghost use Rattle.mb_sender.specs.declared.fault.SendFault.TheVariants as fault;

    ghost from_gives = { λ _ f. f ≡ fault.Failed };

    fn from(_fault: Failed) -> SendFault {
        SendFault::Failed
    }
}

impl From<Memory> for SendFault {
    ghost use Rattle.mb_sender.specs.declared.fault.SendFault.TheVariants as fault;

    ghost from_gives = { λ _ f. f ≡ fault.Memory };

    fn from(_fault: Memory) -> SendFault {
        SendFault::Memory
    }
}
