//! An index of objects by their TOI (RFC 3451 section 5.1): it finds the place of one among 1,024 in at most 11 steps,
//! whatever TOIs a sender chooses.
#![tactic(auto)]

mod index;
#[cfg(test)]
mod index_tests;

pub use index::Index;
