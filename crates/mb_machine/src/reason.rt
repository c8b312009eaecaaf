/// Why a packet is dropped. Where several reasons hold, the first in this order that is looked at is given: of a packet
/// with TOI 0 `Unknown` is not looked at, and `CodePointDiffers` is looked at before `FdtShape`; of another one none of
/// `FdtWithoutIds`, `FdtEncoded` and `FdtShape` is.
#[derive(Clone, Copy, Debug, PartialEq, Eq)]
pub enum Reason {
    /// The sender has closed the session.
    Closed,
    /// It is of another session.
    OtherSession,
    /// It has no TOI.
    NoToi,
    /// It ends with its header.
    NoBody,
    /// It is of no FDT Instance, or of one of which no EXT_FTI is known.
    FdtWithoutIds,
    /// Its FDT Instance is encoded (RFC 3926 section 3.4.3).
    FdtEncoded,
    /// No text of an FDT Instance has its EXT_FTI.
    FdtShape,
    /// No life has its TOI.
    Unknown,
    /// Its EXT_FTI is not that of its object.
    FtiDiffers,
    /// Its codepoint is not that of its object's scheme.
    CodePointDiffers,
    /// Its object has no such block.
    Block,
    /// Its block has not that many symbols.
    Symbol,
    /// Its payload has no byte, or ends with a short symbol that is not the object's last source symbol.
    Length,
    /// Its object was handed out, or its FDT Instance was read.
    Done,
}

impl Reason {
    /// All of them, in the order in which they are printed.
    pub const ALL: [Reason; 14] = [
        Reason::Closed,
        Reason::OtherSession,
        Reason::NoToi,
        Reason::NoBody,
        Reason::FdtWithoutIds,
        Reason::FdtEncoded,
        Reason::FdtShape,
        Reason::Unknown,
        Reason::FtiDiffers,
        Reason::CodePointDiffers,
        Reason::Block,
        Reason::Symbol,
        Reason::Length,
        Reason::Done,
    ];
}
