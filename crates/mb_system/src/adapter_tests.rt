//! Each adapter over a reader or writer, called through the bound of its trait.
use crate::{StdSink, StdSource};
use mb_outside::{Failed, Sink, Source, write_all};
use std::io::{self, Read, Write};
use std::test::Fail;

fn read<S: Source>(source: &mut S, buf: &mut [u8]) -> Result<usize, Failed> {
    source.read(buf)
}

fn write<O: Sink>(sink: &mut O, buf: &[u8]) -> Result<usize, Failed> {
    sink.write(buf)
}

/// A reader that has no bytes, and a writer that takes any and counts its flushes. So many of its reads and
/// writes fail at first, and so many of its flushes.
#[derive(Drop)]
struct Stream {
    kind: io::ErrorKind,
    failing: u32,
    failing_flushes: u32,
    flushes: u32,
}

/// A stream that fails so, with errors of a kind.
fn failing(kind: io::ErrorKind, calls: u32, flushes: u32) -> Stream {
    Stream {
        kind,
        failing: calls,
        failing_flushes: flushes,
        flushes: 0,
    }
}

impl Read for Stream {
    fn read(&mut self, _buf: &mut [u8]) -> io::Result<usize> {
        if self.failing == 0 {
            return Ok(0);
        }
        self.failing -= 1;
        Err(io::Error::from(self.kind))
    }
}

impl Write for Stream {
    fn write(&mut self, buf: &[u8]) -> io::Result<usize> {
        if self.failing == 0 {
            return Ok(buf.len());
        }
        self.failing -= 1;
        Err(io::Error::from(self.kind))
    }

    fn flush(&mut self) -> io::Result<()> {
        self.flushes = self.flushes.saturating_add(1);
        if self.failing_flushes == 0 {
            return Ok(());
        }
        self.failing_flushes -= 1;
        Err(io::Error::from(self.kind))
    }
}

#[test]
fn source_passes_bytes_on_and_reports_faults(rt: HostRuntime) -> Result<(), Fail> {
    let mut buf = [0u8; 4];
    let mut source = StdSource::new(b"hello".as_slice());
    assert_eq!(rt; read(&mut source, &mut buf)?, 4);
    assert_eq!(rt; buf, *b"hell");
    assert_eq!(rt; read(&mut source, &mut buf)?, 1);
    assert_eq!(rt; read(&mut source, &mut buf)?, 0);
    let mut broken = StdSource::new(failing(io::ErrorKind::Other, 1, 0));
    assert!(rt; read(&mut broken, &mut buf).is_err());
    let mut interrupted = StdSource::new(failing(io::ErrorKind::Interrupted, 2, 0));
    assert_eq!(rt; read(&mut interrupted, &mut buf)?, 0);
    Ok(())
}

#[test]
fn sink_passes_bytes_on_and_reports_faults(rt: HostRuntime) -> Result<(), Fail> {
    let mut out = Vec::new(rt.alloc());
    write_all(&mut StdSink::new(&mut out), b"hello")?;
    assert_eq!(rt; out.as_slice(), b"hello".as_slice());
    // A writer that is full takes none.
    let mut room = [0u8; 2];
    let mut full = StdSink::new(room.as_mut_slice());
    assert_eq!(rt; write(&mut full, b"abc")?, 2);
    assert!(rt; write(&mut full, b"c").is_err());
    Ok(())
}

#[test]
fn sink_flushes_each_write_and_reports_a_failing_flush(rt: HostRuntime) -> Result<(), Fail> {
    let mut out = failing(io::ErrorKind::Other, 0, 0);
    write_all(&mut StdSink::new(&mut out), b"one")?;
    assert_eq!(rt; out.flushes, 1);
    write_all(&mut StdSink::new(&mut out), b"two")?;
    assert_eq!(rt; out.flushes, 2);
    let mut broken = StdSink::new(failing(io::ErrorKind::Other, 0, 1));
    assert!(rt; write(&mut broken, b"lost").is_err());
    let mut interrupted = StdSink::new(failing(io::ErrorKind::Interrupted, 2, 2));
    assert_eq!(rt; write(&mut interrupted, b"kept")?, 4);
    Ok(())
}
