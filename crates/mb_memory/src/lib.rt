//! Objects in memory that implement the traits of the outside. Each is told, and says which of its calls fail.
#![tactic(auto)]

mod bytes;
mod entry;
mod exchange_log;
mod kept_exchange;
mod list_chance;
mod mem_links;
mod mem_sink;
mod mem_source;
mod mem_store;
mod numbers;
#[cfg(test)]
mod object_tests;
mod plan;

pub use bytes::Bytes;
pub use list_chance::ListChance;
pub use mem_links::MemLinks;
pub use mem_sink::MemSink;
pub use mem_source::MemSource;
pub use mem_store::MemStore;
pub use numbers::Numbers;
