ghost use Rattle.std.specs.Prelude.{◌≡◌};

use mb_base::Memory;
use mb_geom::DescFault;
use std::alloc::AllocFailed;
use std::error::Error;
use std::fmt;

/// Why not all files were read and described.
#[derive(Clone, Copy, Debug, PartialEq, Eq)]
pub enum FilesFault {
    /// The layout can't describe a file, and all files before it are good.
    Bad {
        /// The number of the file, counted from 1.
        file: u32,
        /// The place of its fault in the order of [`DescFault`], counted from 1. A file of more than 2^28 bytes
        /// has 4.
        number: u8,
    },
    /// The shelf failed. Its count of faults rose.
    Fault,
    /// Want of memory.
    Memory,
}

impl FilesFault {
    ghost use Rattle.mb_files.specs.Files.{number_of};
    ghost use Rattle.mb_files.specs.declared.fault.FilesFault.TheVariants.{Bad};

    /// The refusal of the file with this number, counted from 1.
    pub(crate) fn bad(file: u32, fault: DescFault) -> FilesFault
        ensures { result ≡ Bad file (number_of fault) }
    {
        let number = match fault {
            DescFault::Encoded => 1,
            DescFault::NoLength => 2,
            DescFault::LengthsDiffer => 3,
            DescFault::TooLong => 4,
            DescFault::NoScheme => 5,
            DescFault::ZeroSymbol => 6,
            DescFault::Parameters => 7,
            DescFault::TooManyBlocks => 8,
            DescFault::BlockSize(..) => 9,
        };
        FilesFault::Bad { file, number }
    }
}

impl fmt::Display for FilesFault {
    fn fmt<W: fmt::Write>(&self, f: &mut fmt::Formatter<W>) -> fmt::Result {
        match self {
            FilesFault::Bad { file, number } => write!(f, "file {file} has fault {number}"),
            FilesFault::Fault => f.write_str("the shelf failed"),
            FilesFault::Memory => f.write_str("out of memory"),
        }
    }
}

impl Error for FilesFault {}

impl From<Memory> for FilesFault {
    ghost use Rattle.mb_files.specs.declared.fault.FilesFault.TheVariants as fault;

    ghost from_gives = { λ _ f. f ≡ fault.Memory };

    fn from(_memory: Memory) -> FilesFault {
        FilesFault::Memory
    }
}

impl<T: Drop> From<AllocFailed<T>> for FilesFault {
    ghost use Rattle.mb_files.specs.declared.fault.FilesFault.TheVariants as fault;

    ghost from_gives = { λ _ f. f ≡ fault.Memory };

    fn from(_error: AllocFailed<T>) -> FilesFault {
        FilesFault::Memory
    }
}
