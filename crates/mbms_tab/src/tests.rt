//! What `tab` prints and answers over objects in memory.
ghost use Rattle.std.specs.Prelude.{◌≡◌, ◌+◌, ◌≤◌, None};

use crate::command::tab;
use crate::progress::Progress;
use mb_base::{
    DATAGRAM_MAX, Failed, MemSink, MemSource, Memory, Sink, Source, Status, put_be32, trace_bytes,
};
use std::alloc::Global;
use std::process::Abort;
use std::test::Fail;
use std::thread::Threads;

/// A record: its moment, the words of its datagram, and the bytes behind these.
type Sent<'a> = (u64, &'a [u32], &'a [u8]);

/// The records of a trace, what is shown of it, and the status.
type Case<'a> = (&'a [Sent<'a>], &'a [&'a str], u8);

const NOW: u64 = 3_899_999_000;

const SHOW: [&str; 1] = ["show"];

/// The header of session 1 and object 5.
const OBJECT: [u32; 4] = [0x10a0_0400, 0, 1, 5];

/// The header and the payload ID of FDT Instance 1 of session 1.
const INSTANCE: [u32; 10] = [
    0x10a0_0900,
    0,
    1,
    0,
    0xc010_0001,
    0x4004_0000,
    282,
    1400,
    64,
    0,
];

const HELLO: Sent<'static> = (NOW, &[0x10a0_0400, 0, 1, 5, 0], b"hello");

const HELLO_LINE: &str = "at 3899999000 tsi 1 toi 5 sbn 0 esi 0 bytes 5";

/// What a call left.
#[derive(Drop)]
pub struct Left {
    pub status: Status,
    pub out: MemSink,
    /// What was told of its work last.
    pub told: Option<(usize, usize)>,
}

/// Keeps what was told last.
#[derive(Drop)]
struct LastTold {
    last: Option<(usize, usize)>,
}

impl Progress for LastTold {
    fn tell(&mut self, done: usize, all: usize) {
        self.last = Some((done, all));
    }
}

/// A sink that takes three bytes in each call, and fails once there is no room for any.
#[derive(Drop)]
pub struct Narrow {
    pub bytes: Vec<u8>,
    pub room: usize,
    pub faults: u64,
}

impl Sink for Narrow {
    type Made = ();

    ghost made = { λ _. tt };

    ghost written = { λ _. None };

    ghost faults = { λ s. s.faults };

    fn write(&mut self, buf: &[u8]) -> Result<usize, Failed> {
        let count = buf.len().min(3);
        if self.room < count || self.bytes.extend_from_slice(&buf[..count]).is_err() {
            self.faults = self.faults.saturating_add(1);
            return Err(Failed);
        }
        self.room -= count;
        Ok(count)
    }
}

fn join(alloc: Global, lines: &[&str]) -> Result<Vec<u8>, Memory> {
    let mut out = Vec::new(alloc);
    for line in lines {
        out.extend_from_slice(line.as_bytes())?;
        out.push(b'\n')?;
    }
    Ok(out)
}

fn trace_of(rt: &impl Abort, alloc: Global, sent: &[Sent<'_>]) -> Result<Vec<u8>, Memory> {
    let mut trace = Vec::new(alloc);
    for (at, words, rest) in sent {
        let mut datagram = Vec::new(alloc);
        for word in *words {
            put_be32(&mut datagram, *word)?;
        }
        datagram.extend_from_slice(rest)?;
        assert!(rt; *at < 0x1_0000_0000_0000 && datagram.len() <= DATAGRAM_MAX);
        trace_bytes(*at, &datagram, &mut trace)?;
    }
    Ok(trace)
}

/// The status of a call, and what was told of its work last.
pub fn called<R: Threads + Sync + AllocGlobal, S: Source, O: Sink>(
    rt: &R,
    words: &[&str],
    src: &mut S,
    out: &mut O,
) -> Result<(Status, Option<(usize, usize)>), Memory> {
    let alloc: Global = rt.alloc();
    let words: Vec<String> = words
        .iter()
        .map(|word| String::from_str(alloc, word))
        .try_collect(alloc)?;
    let mut progress = LastTold { last: None };
    let status = tab(rt, alloc, words.as_slice(), src, out, &mut progress);
    Ok((status, progress.last))
}

/// What a call leaves where the listed calls of the source and of the sink fail.
pub fn left_by<R: Threads + Sync + AllocGlobal>(
    rt: &R,
    words: &[&str],
    trace: &[u8],
    failing: [&[u64]; 2],
) -> Result<Left, Memory> {
    let alloc: Global = rt.alloc();
    let [of_source, of_sink] = failing;
    let mut src = MemSource::new(trace.to_vec(alloc)?, of_source.to_vec(alloc)?)?;
    let mut out = MemSink::new(alloc, of_sink.to_vec(alloc)?)?;
    let (status, told) = called(rt, words, &mut src, &mut out)?;
    Ok(Left { status, out, told })
}

pub fn assert_left<R: Abort + AllocGlobal>(
    rt: &R,
    left: &Left,
    printed: &[&str],
    status: u8,
) -> Result<(), Memory> {
    let lines = join(rt.alloc(), printed)?;
    assert_eq!(rt; left.out.written(), lines.as_slice(), "{printed:?}");
    assert_eq!(rt; left.status.number(), status, "{printed:?}");
    Ok(())
}

fn assert_cases<R: Threads + Sync + AllocGlobal + Abort>(
    rt: &R,
    cases: &[Case<'_>],
) -> Result<(), Memory> {
    for (sent, printed, status) in cases {
        let trace = trace_of(rt, rt.alloc(), sent)?;
        let left = left_by(rt, &SHOW, &trace, [&[], &[]])?;
        assert_left(rt, &left, printed, *status)?;
    }
    Ok(())
}

#[test]
fn packets_are_shown(rt: HostRuntime) -> Result<(), Fail> {
    assert_cases(
        &rt,
        &[
            (&[], &[], 0),
            (
                &[(NOW, &INSTANCE, &[0; 282]), HELLO],
                &[
                    "at 3899999000 tsi 1 toi 0 sbn 0 esi 0 bytes 282",
                    HELLO_LINE,
                ],
                0,
            ),
            // Neither a TOI nor a body.
            (
                &[(NOW, &[0x1082_0300, 0, 1], &[])],
                &["at 3899999000 tsi 1 toi - sbn - esi - bytes -"],
                0,
            ),
            // An empty payload, and the greatest numbers.
            (
                &[
                    (0, &[0x10a0_0401, 0, 1, 5, 0x0007_ffff], &[]),
                    (0xffff_ffff_ffff, &[0x10f0_0700, 0, !0, !0, !0, !0, !0], &[]),
                ],
                &[
                    "at 0 tsi 1 toi 5 sbn 7 esi 65535 bytes 0",
                    "at 281474976710655 tsi 281474976710655 toi 5192296858534827628530496329220095 sbn - esi - bytes -",
                ],
                0,
            ),
        ],
    )?;
    Ok(())
}

#[test]
fn faults_are_shown_by_their_words(rt: HostRuntime) -> Result<(), Fail> {
    let cases: [(&[u32], &[u8], &str); 11] = [
        (&[], &[], "short"),
        (&OBJECT[..3], &[], "short"),
        (&[0x2080_0300, 0, 1], &[], "version"),
        (&[0x10a0_0300, 0, 1, 5], &[], "headerlength"),
        (&[0x1020_0300, 0, 5], &[], "notsi"),
        (&[0x10a0_0500, 0, 1, 5, 0x4004_0000], &[], "overrun"),
        (&[0x10a0_0500, 0, 1, 5, 0], &[], "zerolength"),
        (&[0x10a0_0500, 0, 1, 5, 0x4001_0000], &[], "ftilength"),
        (&[0x10a0_0500, 0, 1, 5, 0xc020_0001], &[], "fluteversion"),
        (&[0x10a0_0402, 0, 1, 5], &[], "codepoint"),
        (&OBJECT, &[0], "nopayloadid"),
    ];
    for (words, rest, word) in cases {
        let line = format!(in rt.alloc(); "at 7 fault {word}")?;
        assert_cases(
            &rt,
            &[(&[(7, words, rest), HELLO], &[line.as_str(), HELLO_LINE], 0)],
        )?;
    }
    Ok(())
}

#[test]
fn a_broken_trace_is_shown_to_its_place(rt: HostRuntime) -> Result<(), Fail> {
    let trace = trace_of(&rt, rt.alloc(), &[HELLO, HELLO])?;
    assert_eq!(rt; trace.len(), 66);
    let cases: [(usize, &[&str]); 4] = [
        (1, &["broken 0"]),
        (32, &["broken 0"]),
        (34, &[HELLO_LINE, "broken 33"]),
        (65, &[HELLO_LINE, "broken 33"]),
    ];
    for (len, printed) in cases {
        assert!(rt; len <= trace.len());
        let left = left_by(&rt, &SHOW, &trace[..len], [&[], &[]])?;
        assert_left(&rt, &left, printed, 4)?;
    }
    Ok(())
}

#[test]
fn other_words_print_usage(rt: HostRuntime) -> Result<(), Fail> {
    let trace = trace_of(&rt, rt.alloc(), &[HELLO])?;
    let cases: [&[&str]; 16] = [
        &[],
        &[""],
        &["Show"],
        &["show "],
        &["show", "x"],
        &["check", "x"],
        &["make"],
        &["make", ""],
        &["make", "3"],
        &["make", "8193"],
        &["make", "18446744073709551620"],
        &["make", "+4"],
        &["make", "4 "],
        &["make", "5", "4"],
        &["make", "4", "4"],
        &["4"],
    ];
    for words in cases {
        let left = left_by(&rt, words, &trace, [&[], &[]])?;
        assert_left(&rt, &left, &["usage"], 2)?;
        let left = left_by(&rt, words, &trace, [&[], &[1]])?;
        assert_left(&rt, &left, &[], 8)?;
    }
    Ok(())
}

/// Three records with payloads of 30,000 bytes.
fn long_trace(rt: &impl Abort, alloc: Global) -> Result<Vec<u8>, Memory> {
    let payload = vec![in alloc; 0; 30_000]?;
    let mut trace = Vec::new(alloc);
    for _ in 0..3 {
        let record = trace_of(rt, alloc, &[(NOW, HELLO.1, &payload)])?;
        trace.extend_from_slice(&record)?;
    }
    Ok(trace)
}

#[test]
fn a_fault_keeps_what_was_printed(rt: HostRuntime) -> Result<(), Fail> {
    let line = "at 3899999000 tsi 1 toi 5 sbn 0 esi 0 bytes 30000";
    // The first read takes two of the records whole.
    let trace = long_trace(&rt, rt.alloc())?;
    let cut = &trace[..trace.len().saturating_sub(1)];
    let cases: [(&[u8], [&[u64]; 2], &[&str], u8); 6] = [
        (&trace, [&[], &[]], &[line, line, line], 0),
        (&trace, [&[1], &[]], &[], 5),
        (&trace, [&[2], &[]], &[line, line], 5),
        (&trace, [&[], &[1]], &[], 8),
        (&trace, [&[], &[2]], &[line, line], 8),
        (cut, [&[], &[2]], &[line, line], 8),
    ];
    for (bytes, failing, printed, status) in cases {
        let left = left_by(&rt, &SHOW, bytes, failing)?;
        assert_left(&rt, &left, printed, status)?;
    }
    Ok(())
}

#[test]
fn a_full_sink_has_whole_lines_and_a_beginning(rt: HostRuntime) -> Result<(), Fail> {
    let trace = trace_of(&rt, rt.alloc(), &[HELLO, HELLO])?;
    let mut src = MemSource::new(trace, Vec::new(rt.alloc()))?;
    let mut out = Narrow {
        bytes: Vec::new(rt.alloc()),
        room: 54,
        faults: 0,
    };
    let (status, _) = called(&rt, &SHOW, &mut src, &mut out)?;
    assert_eq!(rt; status.number(), 8);
    let mut lines = join(rt.alloc(), &[HELLO_LINE, HELLO_LINE])?;
    lines.truncate(54);
    assert_eq!(rt; out.bytes.as_slice(), lines.as_slice());
    Ok(())
}
