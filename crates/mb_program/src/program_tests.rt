//! Each call with ample memory, and printing to a sink that fails.

use crate::{FileSource, Texts, arguments_of, broken_line, print, refuse, tables_line};
use mb_base::{Bytes, Failed, MemSink, Source};
use mb_tables::TablesFault;
use std::fs;
use std::process::Abort;
use std::test::Fail;

/// A sink whose calls with these numbers fail.
fn sink<R: AllocGlobal>(rt: &R, failing: &[u64]) -> Result<MemSink, Fail> {
    Ok(MemSink::new(rt.alloc(), failing.to_vec(rt.alloc())?)?)
}

#[test]
fn lines_are_printed_one_behind_another(rt: HostRuntime) -> Result<(), Fail> {
    let mut out = sink(&rt, &[])?;
    for place in [0, u64::MAX] {
        let line = broken_line(rt.alloc(), place)?;
        assert!(rt; print(&mut out, line.as_str()).is_ok());
    }
    assert_eq!(rt;
        out.written(),
        b"broken 0\nbroken 18446744073709551615\n".as_slice()
    );
    Ok(())
}

#[test]
fn refusing_prints_usage(rt: HostRuntime) -> Result<(), Fail> {
    let cases: [(&[u64], &[u8], u8); 2] = [(&[], b"usage\n", 2), (&[1], b"", 8)];
    for (failing, printed, status) in cases {
        let mut out = sink(&rt, failing)?;
        assert_eq!(rt; refuse(&mut out).number(), status);
        assert_eq!(rt; out.written(), printed);
    }
    Ok(())
}

#[test]
fn a_failing_sink_fails_printing(rt: HostRuntime) -> Result<(), Fail> {
    let mut out = sink(&rt, &[1])?;
    for fails in [true, false] {
        assert_eq!(rt; print(&mut out, "a line\n").is_err(), fails);
    }
    assert_eq!(rt; out.written(), b"a line\n".as_slice());
    Ok(())
}

#[test]
fn texts_are_kept_in_order(rt: HostRuntime) -> Result<(), Fail> {
    let mut items = Vec::new(rt.alloc());
    for text in ["one", "two"] {
        items.push(Bytes::from_vec(text.as_bytes().to_vec(rt.alloc())?))?;
    }
    let texts = Texts::from_vec(items);
    assert!(rt; !texts.is_empty());
    assert_eq!(rt; texts.len(), 2);
    for (text, wanted) in texts.as_slice().iter().zip(["one", "two"]) {
        assert_eq!(rt; text.as_slice(), wanted.as_bytes());
    }
    Ok(())
}

#[test]
fn arguments_find_room(rt: HostRuntime) -> Result<(), Fail> {
    assert!(rt; arguments_of(&rt).is_ok());
    Ok(())
}

#[test]
fn refused_tables_have_a_line_for_each_fault(rt: HostRuntime) -> Result<(), Fail> {
    let cases = [
        (TablesFault::Magic, "tables 1\n"),
        (TablesFault::Truncated(2_057), "tables 2 2057\n"),
        (TablesFault::Order(65_535), "tables 3 65535\n"),
        (TablesFault::Range(7, 3), "tables 4 7 3\n"),
        (TablesFault::Trailing, "tables 5\n"),
        (TablesFault::SourceFault, ""),
    ];
    for (fault, line) in cases {
        assert_eq!(rt; tables_line(rt.alloc(), fault)?.as_str(), line);
    }
    Ok(())
}

/// What the first read of a source gives.
fn first_read<S: Source>(source: &mut S, buf: &mut [u8]) -> Result<usize, Failed> {
    source.read(buf)
}

#[test]
fn a_named_file_is_read_or_fails(rt: HostRuntime) -> Result<(), Fail> {
    let mut buf = [0; 8];
    fs::write(&rt, "named", b"hello")?;
    let mut named = FileSource::open(&rt, rt.alloc(), b"named")?;
    assert_eq!(rt; first_read(&mut named, &mut buf)?, 5);
    assert_eq!(rt; buf[..5], b"hello"[..]);
    assert_eq!(rt; first_read(&mut named, &mut buf)?, 0);
    fs::remove_file(&rt, "named")?;
    for path in [b"missing".as_slice(), b"no\xfftext", b""] {
        let mut missing = FileSource::open(&rt, rt.alloc(), path)?;
        assert!(rt; first_read(&mut missing, &mut buf).is_err());
    }
    named = FileSource::nothing();
    assert_eq!(rt; first_read(&mut named, &mut buf)?, 0);
    Ok(())
}
