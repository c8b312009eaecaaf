//! The parts of an XML text (XML 1.0) that its elements are made of: names, white space, references, and the
//! numbers and bytes that the values of attributes stand for.
#![tactic(auto)]

mod characters;
mod encoded;
mod names;
mod numbers;
mod references;
mod text;
mod value_state;

pub use characters::{is_filled, says};
pub use encoded::base64_in;
pub use names::{is_name_byte, is_name_start, is_space, local_part};
pub use numbers::number_in;
pub use references::{referred, replaced, replaced_length};
pub use text::utf8_place;
pub use value_state::{Inside, Radix, further};

#[cfg(test)]
mod xml_tests;
