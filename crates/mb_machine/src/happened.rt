use crate::reason::Reason;
use crate::report::InstanceReport;
use mb_fdt::FdtFault;

/// What a packet did.
#[derive(Clone, Copy, Debug, PartialEq, Eq)]
pub enum Happened {
    /// It was dropped.
    Dropped(Reason),
    /// Symbols of an FDT Instance were heard, and others are still missing.
    Part {
        id: u32,
    },
    /// An FDT Instance was whole and was read.
    Instance {
        id: u32,
        report: InstanceReport,
    },
    /// An FDT Instance was whole, and its text has a fault.
    BadInstance {
        id: u32,
        fault: FdtFault,
    },
    /// An FDT Instance was whole after its Expires.
    LateInstance {
        id: u32,
    },
    /// Symbols of a block of an object were heard: so many were kept, and so many were determined by those kept.
    Heard {
        toi: u128,
        sbn: u16,
        kept: u32,
        determined: u32,
    },
}
