//! Measures the Raptor code for `bench/code`. It is no product: what it prints depends on the clock. Its arguments are
//! a part, K and J, for tables with numbers that look random and the row that is made for K and J. The part `find`
//! takes no J: it tells the first one by which K is usable. Each line has a name and a number, which is of nanoseconds
//! where the name ends in `ns`.
#![tactic(auto)]

mod encoding;
mod hearing;
mod setup;

use anyhow::Result;
use mb_program::arguments_of;
use std::io;
use std::process::ExitCode;
use std::rt::Env;
use std::time::{Clock, Instant};

/// Symbols have the length of the packets of many sessions.
const SYMBOL: u16 = 1280;

/// Prints how long it is since a moment.
fn told(rt: &(impl Clock + Print), name: &str, start: Instant) -> io::Result<()> {
    let passed = start.elapsed(rt)?;
    println!(rt; "{name}_ns {}", passed.as_nanos())
}

/// Measures the part that the arguments name, or answers `false` where they name none.
fn run(rt: &(impl Env + Clock + Print + AllocGlobal)) -> Result<bool> {
    let arguments = arguments_of(rt)?;
    let [part, k, rest @ ..] = arguments.as_slice() else {
        return Ok(false);
    };
    let k = k.parse::<u16>()?;
    let j = match rest {
        [j] => j.parse::<u16>()?,
        _ => 0,
    };
    match part.as_str() {
        "find" => setup::find(rt, k)?,
        "tables" => setup::make(rt, k, j)?,
        "usable" => setup::ask(rt, k, j)?,
        "rows" => hearing::make_rows(rt, k, j)?,
        "hear" => hearing::hear(rt, k, j, true)?,
        "repair" => hearing::hear(rt, k, j, false)?,
        "encode" => encoding::encode(rt, k, j)?,
        _ => return Ok(false),
    }
    Ok(true)
}

fn main(rt: HostRuntime) -> Result<ExitCode> {
    if run(&rt)? {
        return Ok(ExitCode::SUCCESS);
    }
    println!(&rt; "usage")?;
    Ok(ExitCode::from(2))
}
