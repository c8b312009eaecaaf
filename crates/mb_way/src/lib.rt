//! How the symbols of a block follow from each other: each only from itself (RFC 3695), or by a Raptor code (RFC 5053);
//! and what is kept of a block when its symbols are heard.
#![tactic(auto)]

mod codes;
mod heard;
mod laws;
mod shared;
mod way;
#[cfg(test)]
mod way_tests;
mod ways;

pub use codes::Codes;
pub use heard::Heard;
pub use laws::{blocks_are_as_sent, blocks_are_determined};
pub use way::Way;
pub use ways::Ways;
