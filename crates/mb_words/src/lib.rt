//! The command words of the programs, read with `clap`: the options and texts of each program, and their values.
#![tactic(auto)]

mod choices;
mod forms;
mod numbers;
mod paths;
mod refusals;
mod rx;
mod scheme;
mod tx;
mod values;
#[cfg(test)]
mod words_tests;

pub use choices::{Mode, ReportWord};
pub use numbers::number_of;
pub use refusals::{rx_options, rx_refusal};
pub use rx::{RxWords, rx_words};
pub use scheme::SchemeWord;
pub use tx::{TxWords, tx_refused_text, tx_words};
