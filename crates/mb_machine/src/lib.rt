//! The receiver's table as a machine: what a life, a table and a packet's step are, as definitions, with the plain
//! values that they share with the code, and laws about them (RFC 3926, 3GPP TS 26.346 section 7).
#![tactic(auto)]

mod drops;
#[cfg(test)]
mod drops_tests;
mod happened;
mod laws;
mod reason;
mod report;

pub use drops::Drops;
pub use happened::Happened;
pub use laws::{
    complete_by_heard, handed_out_once, honest_files_are_sent, no_life_is_past,
    ready_lives_go_one_by_one, two_orders_one_file,
};
pub use reason::Reason;
pub use report::{Entered, InstanceReport};
