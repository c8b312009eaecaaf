//! The blocks of a file as far as they were heard, and the file that follows (RFC 3926 section 5, RFC 5053 section 5.3).
#![tactic(auto)]

mod blocks;
mod file;
#[cfg(test)]
mod file_tests;
mod memory;
mod room;
mod run;
mod solve;
mod usable;

pub use file::{FileRx, News};
