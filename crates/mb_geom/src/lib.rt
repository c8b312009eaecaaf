//! Descriptions of files and their blocks: how a file of F bytes is cut into symbols of T bytes, and its
//! symbols into blocks, under Compact No-Code (RFC 3926 section 5.1.2) and Raptor (RFC 5053 section 5.3.1), and
//! where the bytes of the source symbols stand in the file.
#![tactic(auto)]

mod desc;
mod laws;
mod parts;
mod runs;
mod source_block;
mod symbols;

pub use desc::{Desc, DescFault, DescParts, Scheme};
pub use laws::{good_are_made, symbols_make_the_file, the_file_has_its_symbols};
pub use parts::{Parts, partition};

#[cfg(test)]
mod symbols_tests;
