//! The rows of the Raptor code (RFC 5053): which intermediate symbols each encoding symbol and each constraint
//! takes, and what is left of a row when the LDPC and half symbols are replaced by the source places.
#![tactic(auto)]

mod code;
mod constraint;
mod fault;
mod fold;
mod laws;
#[cfg(test)]
mod rows_tests;
mod triple;
mod walk;

pub use code::Code;
pub use fault::CodeFault;
pub use laws::{rows_are_there, rows_determine, rows_fold};
pub use triple::Triple;
