//! FDT Instances (RFC 3926 section 3.4.2): what the text that describes the files of a session says.
#![tactic(auto)]

mod attributes;
mod coding;
mod entry;
mod known;
mod path;
mod prolog;
mod read;
mod reader;
mod root;
mod slots;
mod step;
mod stretch;
mod tag;
mod tags;
mod token;
mod values;

pub use mb_fdt_text::{
    Attr, Fdt, FdtFault, FdtKind, FileEntries, FileEntry, FileFault, is_described, texts_are_read,
    write_fdt,
};
pub use read::read_fdt;

#[cfg(test)]
mod read_tests;
