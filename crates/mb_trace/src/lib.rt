//! Packet traces: their records in bytes, a reader that is lent its source, and the air that a trace tells of.
#![tactic(auto)]

mod number;
mod record_buffer;
mod trace;
mod trace_air;
mod trace_reader;
#[cfg(test)]
mod trace_tests;

pub use number::{be16, be32, be48, numbers_are_read_back, put_be16, put_be32, put_be48};
pub use trace::{trace_bytes, traces_are_read};
pub use trace_air::TraceAir;
pub use trace_reader::TraceReader;
