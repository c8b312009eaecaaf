use std::error::Error;
use std::fmt;

/// The bytes of a word, in which the lengths of a header and of its extensions are counted.
pub const WORD: usize = 4;

/// The bytes of a half word.
pub(crate) const HALF_WORD: usize = WORD / 2;

/// The version of LCT that is spoken (RFC 3451 section 5.1).
pub(crate) const VERSION: u8 = 1;

/// The values of a field of two bits.
pub(crate) const TWO_BITS: u8 = 4;

/// The values of a field of one bit.
pub(crate) const ONE_BIT: u8 = 2;

/// The weight of V in the first byte.
pub(crate) const VERSION_WEIGHT: u8 = 16;

/// The weight of C in the first byte.
pub(crate) const CONGESTION_WEIGHT: u8 = 4;

/// The weight of S in the second byte.
pub(crate) const TSI_WEIGHT: u8 = 128;

/// The weight of O in the second byte.
pub(crate) const TOI_WEIGHT: u8 = 32;

/// The weight of H in the second byte.
pub(crate) const HALF_WORD_WEIGHT: u8 = 16;

/// The weight of T in the second byte.
pub(crate) const CURRENT_TIME_WEIGHT: u8 = 8;

/// The weight of R in the second byte.
pub(crate) const RESIDUAL_TIME_WEIGHT: u8 = 4;

/// The weight of A in the second byte.
pub(crate) const CLOSE_SESSION_WEIGHT: u8 = 2;

/// What an LCT header says of its datagram (RFC 3451 section 5.1).
#[derive(Clone, Copy, Debug, PartialEq, Eq)]
pub struct Lct {
    /// The Transport Session Identifier, of at most 48 bits.
    pub tsi: u64,
    /// The Transport Object Identifier, of at most 112 bits. `None` where it has no bits.
    pub toi: Option<u128>,
    /// Close Session: no more datagrams of the session will come.
    pub close_session: bool,
    /// Close Object: no more datagrams of the object will come.
    pub close_object: bool,
    /// The codepoint, which tells the payload's coding.
    pub cp: u8,
}

/// A header at the front of a datagram.
#[derive(Clone, Copy, Debug, PartialEq, Eq)]
pub struct LctHead {
    /// What it says.
    pub lct: Lct,
    /// The offset of its extensions, in bytes from the start of the datagram.
    pub ext_at: usize,
    /// The offset of its end, in bytes from the start of the datagram.
    pub end: usize,
}

/// Why a datagram has no LCT header. Where several reasons hold, the first in this order is given.
#[derive(Clone, Copy, Debug, PartialEq, Eq)]
pub enum LctFault {
    /// There are fewer than four bytes, or fewer than the header has by its length field.
    Short,
    /// The version, which is not 1.
    Version(u8),
    /// The header ends before its fields do.
    HeaderLength,
    /// The TSI has no bits.
    NoTsi,
}

impl fmt::Display for LctFault {
    fn fmt<W: fmt::Write>(&self, f: &mut fmt::Formatter<W>) -> fmt::Result {
        match self {
            LctFault::Short => write!(f, "the datagram ends before the LCT header does"),
            LctFault::Version(version) => write!(f, "the LCT version is {version}, not 1"),
            LctFault::HeaderLength => write!(f, "the LCT header ends before its fields do"),
            LctFault::NoTsi => write!(f, "the LCT header has no TSI"),
        }
    }
}

impl Error for LctFault {}
