//! The outside of the receiver as traits with a written meaning, and the faults and statuses with which calls
//! and runs end.
#![tactic(auto)]

mod air;
mod buffer;
mod chance;
mod faults;
mod gate;
mod links;
mod sink;
mod source;
mod status;
mod store;

pub use air::{Air, AirEvent, DATAGRAM_MAX};
pub use buffer::{DatagramBuffer, room};
pub use chance::Chance;
pub use faults::{Failed, Memory, WordsFault};
pub use gate::{Gate, OpenGate};
pub use links::Links;
pub use sink::{Sink, write_all};
pub use source::Source;
pub use status::Status;
pub use store::Store;
