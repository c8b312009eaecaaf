//! The tables of the Raptor code (RFC 5053): V0 and V1, a row for each block size, and the file that has them.
#![tactic(auto)]

mod fault;
mod fill;
mod limits;
mod reader;
mod row;
mod tables;
#[cfg(test)]
mod tables_tests;
mod writer;

pub use fault::{AddFault, TablesFault};
pub use limits::h_of;
pub use reader::read_tables;
pub use row::Row;
pub use tables::{Tables, make_row};
pub use writer::write_tables;
