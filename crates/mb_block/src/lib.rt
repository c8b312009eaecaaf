//! Blocks of symbols as far as they were heard: what is kept of a block, whether it is determined, and its source
//! symbols (RFC 3926 section 5.1, RFC 5053).
#![tactic(auto)]

mod block;
#[cfg(test)]
mod block_tests;
mod blocks;
mod fault;
mod laws;
mod no_code;
mod raptor;
mod symbol;

pub use block::BlockRx;
pub use blocks::BlocksRx;
pub use fault::MissFault;
pub use laws::source_symbols_suffice;
pub use mb_way::{Heard, Way};
pub use no_code::NoCodeBlock;
