//! Texts of FDT Instances (RFC 3926 section 3.4.2): what they are and say, the law on them, and how one is written.
#![tactic(auto)]

mod fdt;
mod laws;
mod write;

pub use fdt::{Attr, Fdt, FdtFault, FdtKind, FileEntries, FileEntry, FileFault};
pub use laws::texts_are_read;
pub use write::{is_described, write_fdt};
