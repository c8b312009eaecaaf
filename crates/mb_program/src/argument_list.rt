use mb_base::Memory;
use std::rt::Env;
use std::{env, io};

/// The arguments with which the program was started, without its own name. Arguments of which one is no text
/// are bad ones: for them stands the empty list, which no program takes.
///
/// `Memory` where there is no room for them.
pub fn arguments_of<R: Env + AllocGlobal>(rt: &R) -> Result<Vec<String>, Memory> {
    match env::args(rt) {
        Ok(arguments) => Ok(arguments.skip(1).collect(rt.alloc())?),
        Err(error) if error.kind() == io::ErrorKind::OutOfMemory => Err(Memory),
        Err(_) => Ok(Vec::new(rt.alloc())),
    }
}
