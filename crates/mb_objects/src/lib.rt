//! The receiver's table: the lives of a session's files and its FDT Instances, which packets change, and the files
//! that follow (RFC 3926, 3GPP TS 26.346 section 7).
#![tactic(auto)]

mod entries;
mod lives;
mod objects;
mod packets;
mod table;
#[cfg(test)]
mod table_tests;

pub use mb_life::{Life, Taken};
pub use mb_machine::{Drops, Happened, InstanceReport, Reason};
pub use table::{Table, TakeFault};
