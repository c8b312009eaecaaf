ghost use Rattle.std.specs.Prelude.{◌≡◌};
ghost use Rattle.mb_alc.specs.Words.{fault_word, kind_of, kind_word};

use mb_lct::LctFault;
use std::error::Error;
use std::fmt;

/// Why an area is no list of header extensions. The first extension that is none decides, and for it the first
/// of these reasons that holds. An extension of no words passes no end, so `Overrun` and `ZeroLength` never hold
/// together. An offset is that of the extension's first byte, in bytes from the start of the area.
#[derive(Clone, Copy, Debug, PartialEq, Eq)]
pub enum ExtFault {
    /// It passes the end of the area, which is the header's end.
    Overrun(usize),
    /// Its length in words is 0.
    ZeroLength(usize),
    /// It is an EXT_FTI whose length is not four words.
    FtiLength(usize),
    /// It is an EXT_FDT with this FLUTE version, which is not 1.
    FluteVersion(u8),
}

/// Why a datagram is no packet. Where several reasons hold, the first in this order is given.
#[derive(Clone, Copy, Debug, PartialEq, Eq)]
pub enum PacketFault {
    /// It has no LCT header.
    Lct(LctFault),
    /// The rest of its header is no list of extensions.
    Ext(ExtFault),
    /// The codepoint, which is above 1.
    CodePoint(u8),
    /// One to three bytes stand behind the header, too few for a FEC payload ID.
    NoPayloadId,
}

/// The kinds of faults, in the order in which they are printed. Each has the name of its fault.
#[derive(Clone, Copy, Debug, PartialEq, Eq)]
pub enum FaultKind {
    Short,
    Version,
    HeaderLength,
    NoTsi,
    Overrun,
    ZeroLength,
    FtiLength,
    FluteVersion,
    CodePoint,
    NoPayloadId,
}

impl FaultKind {
    /// All of them, in that order.
    pub const ALL: [FaultKind; 10] = [
        FaultKind::Short,
        FaultKind::Version,
        FaultKind::HeaderLength,
        FaultKind::NoTsi,
        FaultKind::Overrun,
        FaultKind::ZeroLength,
        FaultKind::FtiLength,
        FaultKind::FluteVersion,
        FaultKind::CodePoint,
        FaultKind::NoPayloadId,
    ];

    /// The word by which faults of the kind are printed.
    pub fn word(self) -> &'static str
        ensures { result.now ≡ kind_word self }
    {
        match self {
            FaultKind::Short => "short",
            FaultKind::Version => "version",
            FaultKind::HeaderLength => "headerlength",
            FaultKind::NoTsi => "notsi",
            FaultKind::Overrun => "overrun",
            FaultKind::ZeroLength => "zerolength",
            FaultKind::FtiLength => "ftilength",
            FaultKind::FluteVersion => "fluteversion",
            FaultKind::CodePoint => "codepoint",
            FaultKind::NoPayloadId => "nopayloadid",
        }
    }
}

impl PacketFault {
    /// The kind of the fault, without its value or offset.
    pub fn kind(self) -> FaultKind
        ensures { result ≡ kind_of self }
    {
        match self {
            PacketFault::Lct(LctFault::Short) => FaultKind::Short,
            PacketFault::Lct(LctFault::Version(_)) => FaultKind::Version,
            PacketFault::Lct(LctFault::HeaderLength) => FaultKind::HeaderLength,
            PacketFault::Lct(LctFault::NoTsi) => FaultKind::NoTsi,
            PacketFault::Ext(ExtFault::Overrun(_)) => FaultKind::Overrun,
            PacketFault::Ext(ExtFault::ZeroLength(_)) => FaultKind::ZeroLength,
            PacketFault::Ext(ExtFault::FtiLength(_)) => FaultKind::FtiLength,
            PacketFault::Ext(ExtFault::FluteVersion(_)) => FaultKind::FluteVersion,
            PacketFault::CodePoint(_) => FaultKind::CodePoint,
            PacketFault::NoPayloadId => FaultKind::NoPayloadId,
        }
    }

    /// The word by which the fault is printed, which is its kind's.
    pub fn word(self) -> &'static str
        ensures { result.now ≡ fault_word self }
    {
        self.kind().word()
    }
}

impl From<LctFault> for PacketFault {
    ghost use Rattle.mb_alc.specs.declared.fault.PacketFault.TheVariants.{Lct};

    ghost from_gives = { λ reason fault. fault ≡ Lct reason };

    fn from(fault: LctFault) -> PacketFault {
        PacketFault::Lct(fault)
    }
}

impl From<ExtFault> for PacketFault {
    ghost use Rattle.mb_alc.specs.declared.fault.PacketFault.TheVariants.{Ext};

    ghost from_gives = { λ reason fault. fault ≡ Ext reason };

    fn from(fault: ExtFault) -> PacketFault {
        PacketFault::Ext(fault)
    }
}

impl fmt::Display for ExtFault {
    fn fmt<W: fmt::Write>(&self, f: &mut fmt::Formatter<W>) -> fmt::Result {
        match self {
            ExtFault::Overrun(offset) => write!(
                f,
                "the header extension at offset {offset} passes the end of the header"
            ),
            ExtFault::ZeroLength(offset) => {
                write!(f, "the header extension at offset {offset} has no words")
            }
            ExtFault::FtiLength(offset) => {
                write!(f, "the EXT_FTI at offset {offset} has not four words")
            }
            ExtFault::FluteVersion(version) => write!(f, "the FLUTE version is {version}, not 1"),
        }
    }
}

impl Error for ExtFault {}

impl fmt::Display for PacketFault {
    fn fmt<W: fmt::Write>(&self, f: &mut fmt::Formatter<W>) -> fmt::Result {
        match self {
            PacketFault::Lct(fault) => write!(f, "{fault}"),
            PacketFault::Ext(fault) => write!(f, "{fault}"),
            PacketFault::CodePoint(cp) => write!(f, "the codepoint is {cp}, above 1"),
            PacketFault::NoPayloadId => write!(
                f,
                "the datagram ends before the FEC payload ID does"
            ),
        }
    }
}

impl Error for PacketFault {}
