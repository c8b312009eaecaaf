//! What the programs share: their arguments and the files that these name, the lines that each of them prints, and how
//! lines are printed.
#![tactic(auto)]

mod argument_list;
mod file_source;
mod lines;
mod printing;
#[cfg(test)]
mod program_tests;
mod texts;

pub use argument_list::arguments_of;
pub use file_source::FileSource;
pub use lines::{broken_line, tables_line};
pub use printing::{print, refuse};
pub use texts::Texts;
