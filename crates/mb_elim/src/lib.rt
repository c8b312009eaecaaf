//! Elimination of rows of bits, one at a time as they come: which of them are new, and what values at their places
//! give the values of the unknowns.
#![tactic(auto)]

mod elim;
#[cfg(test)]
mod elim_tests;
mod reduce;
mod replay;

pub use elim::{Elim, Offer};
