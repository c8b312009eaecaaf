use mb_base::Memory;
use mb_words::{rx_options, rx_refusal};
use std::alloc::Global;

/// Tells on the standard error why arguments are refused, and which options there are. Where that can't be written
/// nothing else is done: the status says the same.
pub(crate) fn tell_refusal<R: Eprint>(
    rt: &R,
    alloc: Global,
    arguments: &[String],
) -> Result<(), Memory> {
    let options = rx_options(alloc)?;
    let told = match rx_refusal(alloc, arguments)? {
        Some(reason) => eprint!(rt; "{reason}\n{options}"),
        None => eprint!(rt; "error: neither '--listen' nor a server is taken yet\n\n{options}"),
    };
    let _ = told;
    Ok(())
}
