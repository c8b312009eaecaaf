use mb_lct::Lct;

/// What EXT_FTI says: the FEC Object Transmission Information (RFC 3926 section 5.1.1).
#[derive(Clone, Copy, Debug, PartialEq, Eq)]
pub struct Fti {
    /// The transfer length in bytes, of at most 48 bits.
    pub transfer: u64,
    /// The FEC Instance ID, or reserved under a scheme that has none.
    pub instance: u16,
    /// The encoding symbol length, in bytes.
    pub symbol: u16,
    /// The part that is the scheme's own. Under FEC Encoding ID 0 it is the maximum source block length in 32
    /// bits (RFC 3926 section 5.1.2.1), under 1 it is Z in 16 bits, N in 8 and Al in 8 (RFC 5053 section
    /// 3.2.3).
    pub tail: [u8; 4],
}

/// What the header extensions of a packet say. The first of each kind counts.
#[derive(Clone, Copy, Debug, PartialEq, Eq)]
pub struct Exts {
    /// The FDT Instance ID of EXT_FDT, of at most 20 bits (RFC 3926 section 3.4.1).
    pub fdt: Option<u32>,
    /// EXT_FTI.
    pub fti: Option<Fti>,
    /// The algorithm of EXT_CENC, by which the FDT Instance is encoded (RFC 3926 section 3.4.3).
    pub cenc: Option<u8>,
}

/// What stands behind the header: the FEC payload ID, which is of one form under FEC Encoding ID 0 (RFC 3695
/// section 2) and 1 (RFC 5053 section 3.1), and the payload.
#[derive(Clone, Copy, Debug, PartialEq, Eq)]
pub struct Body<'a> {
    /// The source block number.
    pub sbn: u16,
    /// The encoding symbol ID of the payload's first symbol.
    pub esi: u16,
    /// The encoding symbols.
    pub payload: &'a [u8],
}

/// A packet (RFC 3450 section 2). Its payload borrows the datagram.
#[derive(Clone, Copy, Debug, PartialEq, Eq)]
pub struct Packet<'a> {
    /// The LCT header.
    pub lct: Lct,
    /// The header extensions.
    pub exts: Exts,
    /// What stands behind the header. `None` where the packet ends with it.
    pub body: Option<Body<'a>>,
}

impl Exts {
    /// No extension.
    pub const NONE: Exts = Exts {
        fdt: None,
        fti: None,
        cenc: None,
    };
}
