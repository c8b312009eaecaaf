//! Linear algebra over the field of two elements: rows of bits, their sums, which rows follow from others, and
//! how few rows do. It has definitions and laws, and no code that computes.
#![tactic(auto)]

mod laws;

pub use laws::{rows_are_few, rows_are_reduced, rows_follow};
