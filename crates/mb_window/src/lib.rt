//! FDT Instances whose texts come in several packets, put together from their symbols under Compact No-Code
//! (RFC 3926 section 3.4, RFC 3695).
#![tactic(auto)]

mod assembly;
mod geometry;
mod heard;
mod laws;
mod slot;
mod window;

pub use heard::WindowHeard;
pub use laws::whole_is_sent;
pub use window::Window;

#[cfg(test)]
mod window_tests;
