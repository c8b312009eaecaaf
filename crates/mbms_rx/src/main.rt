//! The receiver of one FLUTE session. Its words are options, of which `--tsi` and the session's number are needed; the
//! datagrams come as a packet trace, which is the standard input or the file that `--trace` names, the files go into
//! the folder that `--folder` names, and the lines to the standard output. It ends with the number of its status. Why
//! words are refused is told on the standard error.
#![tactic(auto)]

mod refusal;

use crate::refusal::tell_refusal;
use mb_base::{
    FolderStore, ListChance, MemLinks, Memory, OpenGate, Source, Status, StdSink, StdSource,
    TraceAir, WordsFault,
};
use mb_program::{FileSource, arguments_of};
use mb_rx::{RxWords, read_words, receive};
use std::alloc::Global;
use std::io;
use std::process::ExitCode;
use std::rt::{Env, Files};
use std::thread::Threads;

fn main(rt: HostRuntime) -> ExitCode {
    ExitCode::from(run(&rt).unwrap_or(Status::Memory).number())
}

/// Receives what the arguments ask for. Where they are refused, that is told first, and nothing is opened.
fn run<R: Threads + Sync + Env + Files + Input + Print + Eprint + AllocGlobal>(
    rt: &R,
) -> Result<Status, Memory> {
    let alloc: Global = rt.alloc();
    let arguments = arguments_of(rt)?;
    match read_words(alloc, &arguments) {
        Ok(words) => open_and_receive(rt, alloc, &arguments, &words),
        Err(WordsFault::Refused) => {
            tell_refusal(rt, alloc, &arguments)?;
            let tables = FileSource::<R::File>::nothing();
            let trace = FileSource::<R::File>::nothing();
            receive_from(rt, alloc, &arguments, tables, ".", trace)
        }
        Err(WordsFault::Memory) => Err(Memory),
    }
}

/// Receives over the files and the folder that good words name.
fn open_and_receive<R: Threads + Sync + Files + Input + Print + AllocGlobal>(
    rt: &R,
    alloc: Global,
    arguments: &[String],
    words: &RxWords,
) -> Result<Status, Memory> {
    let tables = match &words.tables {
        Some(path) => FileSource::open(rt, alloc, path.as_slice())?,
        None => FileSource::nothing(),
    };
    // The folder was a text among the arguments, so it is one.
    let folder = str::from_utf8(words.folder.as_slice()).unwrap_or(".");
    match &words.trace {
        Some(path) => {
            let trace = FileSource::open(rt, alloc, path.as_slice())?;
            receive_from(rt, alloc, arguments, tables, folder, trace)
        }
        // A trace is read in large pieces already, so no buffer stands before it.
        None => receive_from(
            rt,
            alloc,
            arguments,
            tables,
            folder,
            StdSource::new(rt.reader()),
        ),
    }
}

/// Receives over the objects that the program uses: nothing is asked of a server.
fn receive_from<
    R: Threads + Sync + Files + Print + AllocGlobal,
    T: Source + Drop,
    S: Source + Drop,
>(
    rt: &R,
    alloc: Global,
    arguments: &[String],
    mut tables: T,
    folder: &str,
    trace: S,
) -> Result<Status, Memory> {
    let mut air = TraceAir::new(alloc, trace)?;
    let mut store = FolderStore::new(rt, alloc, folder)?;
    let mut out = StdSink::new(io::writer(rt));
    let mut links = MemLinks::new(alloc, Vec::new(alloc), Vec::new(alloc))?;
    let mut chance = ListChance::new(Vec::new(alloc))?;
    Ok(receive(
        rt,
        alloc,
        arguments,
        &mut tables,
        &mut air,
        &mut store,
        &mut out,
        &mut links,
        &mut chance,
        &OpenGate,
    ))
}
