//! Tables and traces at the command line. With `show` it prints what the datagrams of a packet trace on the standard
//! input say. With `check` it prints whether the rows of the tables there are usable. With `make` and block sizes it
//! writes tables that are made for them. It prints and writes to the standard output, and ends with the number of its
//! status.
#![tactic(auto)]

mod checking;
mod command;
mod form;
mod laws;
mod lines;
mod made;
mod making;
mod printing;
mod progress;
mod rows;
mod showing;
#[cfg(test)]
mod tables_tests;
#[cfg(test)]
mod tests;

use command::tab;
use mb_base::{Memory, Status, StdSink, StdSource};
use mb_program::arguments_of;
use progress::OnTerminal;
use std::io::{self, IsTerminal};
use std::process::ExitCode;
use std::rt::Env;
use std::thread::Threads;

fn main(rt: HostRuntime) -> ExitCode {
    let is_terminal = rt.stderr().is_terminal();
    ExitCode::from(run(&rt, is_terminal).unwrap_or(Status::Memory).number())
}

/// Does what the arguments say over the standard streams.
fn run<R: Threads + Sync + Env + Input + Print + Eprint + AllocGlobal>(
    rt: &R,
    is_terminal: bool,
) -> Result<Status, Memory> {
    let arguments = arguments_of(rt)?;
    // A trace is read in large pieces already, so no buffer stands before it.
    let mut src = StdSource::new(rt.reader());
    let mut out = StdSink::new(io::writer(rt));
    let mut progress = OnTerminal::new(rt, is_terminal);
    Ok(tab(
        rt,
        rt.alloc(),
        &arguments,
        &mut src,
        &mut out,
        &mut progress,
    ))
}
