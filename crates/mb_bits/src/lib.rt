//! Rows of bits in words, which contracts see as lists of bits, and sums of bytes: where the time of the code goes.
#![tactic(auto)]

#[cfg(test)]
mod bits_tests;
mod row;
mod xor;

pub use row::{add_row, first_bit, flip_bit, has_bit, words_for};
pub use xor::{xor_into, xor_plain};
