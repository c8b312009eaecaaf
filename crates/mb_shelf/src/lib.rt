//! Files that are read by their number, as a trait with a written meaning, in memory and over real files. Beside it
//! stands the reading of a whole file or source.
#![tactic(auto)]

mod fault;
mod file_shelf;
mod mem_file;
mod mem_shelf;
mod progress;
mod reading;
mod shelf;
#[cfg(test)]
mod shelf_tests;

pub use fault::ReadAllFault;
pub use file_shelf::FileShelf;
pub use mem_shelf::MemShelf;
pub use reading::{read_all, read_file};
pub use shelf::Shelf;
