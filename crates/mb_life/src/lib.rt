//! The life of a file in memory: its blocks as far as they were heard, and the file that follows, which is handed out
//! once (RFC 3926 section 3, 3GPP TS 26.346 section 7).
#![tactic(auto)]

mod life;
#[cfg(test)]
mod life_tests;
mod taken;

pub use life::Life;
pub use mb_file::News;
pub use taken::Taken;
