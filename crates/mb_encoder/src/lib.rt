//! The encoder of the Raptor code (RFC 5053): which block sizes can be encoded, and the encoding symbols of a block by
//! way of its intermediate symbols.
#![tactic(auto)]

#[cfg(test)]
mod determined_tests;
#[cfg(test)]
mod encoder_tests;
mod fault;
mod intermediate;
mod laws;
mod make;
mod sizes;
mod sources;
mod sums;

pub use fault::EncodeFault;
pub use intermediate::Intermediate;
pub use laws::symbols_are_one;
pub use sizes::usable;
pub use sums::put_sum;
