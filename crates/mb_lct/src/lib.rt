//! The LCT header of RFC 3451 section 5.1, both ways: read from the front of a datagram, and written.
#![tactic(auto)]

mod field;
mod head;
mod law;
mod reader;
mod writer;

pub use head::{Lct, LctFault, LctHead, WORD};
pub use law::lct_headers_are_read;
pub use reader::read_lct;
pub use writer::{fits_header, header_words, write_lct};

#[cfg(test)]
mod header_tests;
