//! The sender's trace of a session (RFC 3926): the packets of its FDT Instance and of its files, round after round, each
//! with its moment.
#![tactic(auto)]

mod blocks;
mod checking;
mod fault;
mod outgoing;
mod packets;
mod sending;
mod session;
#[cfg(test)]
mod session_tests;
mod text;

pub use checking::can_send;
pub use fault::SendFault;
pub use mb_files::SentFile;
pub use sending::write_session;
pub use session::Session;
pub use text::write_text;
