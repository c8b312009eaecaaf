//! The outside of the receiver under one name: its traits and what they mean, objects in memory, packet traces
//! with numbers in bytes, and adapters over the system. Beside them stands the generator of numbers that look random.
#![tactic(auto)]

mod generator;
#[cfg(test)]
mod generator_tests;

pub use generator::{mix, word};
pub use mb_memory::{Bytes, ListChance, MemLinks, MemSink, MemSource, MemStore, Numbers};
pub use mb_outside::{
    Air, AirEvent, Chance, DATAGRAM_MAX, DatagramBuffer, Failed, Gate, Links, Memory, OpenGate,
    Sink, Source, Status, Store, WordsFault, room, write_all,
};
pub use mb_system::{FolderStore, StdSink, StdSource};
pub use mb_trace::{
    TraceAir, TraceReader, be16, be32, be48, numbers_are_read_back, put_be16, put_be32, put_be48,
    trace_bytes, traces_are_read,
};
