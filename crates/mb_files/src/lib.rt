//! The files that a sender or a repair server has: each read whole from a shelf, and described by one layout.
#![tactic(auto)]

mod describing;
mod fault;
#[cfg(test)]
mod files_tests;
mod reading;

pub use describing::{Layout, describe};
pub use fault::FilesFault;
pub use reading::{SentFile, read_files};
