//! The decoder of the Raptor code (RFC 5053): which symbols of a block are kept, whether they determine the block, and
//! its source symbols.
#![tactic(auto)]

mod block;
#[cfg(test)]
mod decoder_tests;
mod esi;
mod offer;
mod put;
mod row;
mod solve;

pub use block::Decoder;
