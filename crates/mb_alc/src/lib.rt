//! ALC packets as FLUTE has them (RFC 3450, RFC 3926), both ways: the LCT header, its extensions, the FEC
//! payload ID and the payload.
#![tactic(auto)]

mod extension;
mod fault;
mod law;
mod packet;
mod reader;
mod writer;

pub use fault::{ExtFault, FaultKind, PacketFault};
pub use law::packets_are_read;
pub use packet::{Body, Exts, Fti, Packet};
pub use reader::read_packet;
pub use writer::{fits_packet, write_packet};

#[cfg(test)]
mod packet_tests;
