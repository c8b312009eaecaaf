//! The receiver: one call, `receive`, from datagrams to stored files, printed lines and a status.
#![tactic(auto)]

mod cause;
mod end_lines;
mod events;
mod faults;
mod laws;
mod lines;
#[cfg(test)]
mod longest_tests;
#[cfg(test)]
mod packets_tests;
#[cfg(test)]
mod raptor_tests;
#[cfg(test)]
mod receive_tests;
mod receiver;
mod receiving;
mod session;
mod tables;
#[cfg(test)]
mod texts_tests;
mod words;
#[cfg(test)]
mod words_tests;

pub use cause::{Cause, DATAGRAMS_MAX, Ending};
pub use laws::{
    bad_tables_are_found, broken_traces_are_found, faultless_calls_complete, run_grows,
};
pub use mb_words::{Mode, ReportWord, RxWords};
pub use receiving::receive;
pub use words::read_words;
