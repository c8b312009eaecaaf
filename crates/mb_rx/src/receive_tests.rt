//! What `receive` prints, stores and answers over objects in memory.
use super::*;
use mb_base::{
    Air, AirEvent, DATAGRAM_MAX, DatagramBuffer, ListChance, MemLinks, MemSink, MemSource,
    MemStore, Memory, OpenGate, Status, TraceAir, put_be32, trace_bytes,
};
use std::alloc::Global;
use std::process::Abort;
use std::test::Fail;
use std::thread::Threads;

/// What is sent.
#[derive(Clone, Copy)]
pub(crate) enum Sent<'a> {
    /// The packet of the FDT Instance 1 whose text has these pieces.
    Text(&'a [&'a str]),
    /// The packet of a symbol of 141 bytes of the FDT Instance 1, whose text is `TEXT`.
    Half(u32),
    /// The packet of an object, with its TSI, its TOI and its payload ID.
    Symbol(u32, u32, u32, &'a [u8]),
    /// The packet of an object of TSI 1 and TOI 5 under Raptor, with its payload ID.
    Raptor(u32, &'a [u8]),
    /// The packet of these words, and of a payload.
    Words(&'a [u32], &'a [u8]),
    /// Any bytes.
    Bytes(&'a [u8]),
}

/// A file with its TOI and its location.
pub(crate) type File<'a> = (u128, &'a str, &'a [u8]);

/// A session: what is sent and when, then what is printed, answered and stored.
pub(crate) type Case<'a> = (&'a [(u64, Sent<'a>)], &'a [&'a str], u8, &'a [File<'a>]);

/// What a call of `receive` left.
#[derive(Drop)]
pub(crate) struct Left {
    status: Status,
    out: MemSink,
    store: MemStore,
    /// What the air gives next.
    next: AirEvent,
}

pub(crate) const NOW: u64 = 3_899_999_000;

pub(crate) const EXPIRES: u64 = 3_900_000_000;

/// The head of a text, an entry, and the end: 282 bytes.
pub(crate) const TEXT: [&str; 3] = [HEAD, ENTRY, END];

pub(crate) const HEAD: &str =
    "<?xml version=\"1.0\" encoding=\"UTF-8\"?>\n<FDT-Instance Expires=\"3900000000\">\n";

pub(crate) const ENTRY: &str =
    "<File Content-Location=\"hello.txt\" TOI=\"5\" Content-Length=\"5\" Transfer-Length=\"5\" FEC-OTI-FEC-Encoding-ID=\"0\" FEC-OTI-Maximum-Source-Block-Length=\"64\" FEC-OTI-Encoding-Symbol-Length=\"1400\"/>\n";

pub(crate) const END: &str = "</FDT-Instance>\n";

/// The same object as that of `ENTRY` under another location.
const MOVED: &str =
    "<File Content-Location=\"moved.txt\" TOI=\"5\" Content-Length=\"5\" Transfer-Length=\"5\" FEC-OTI-FEC-Encoding-ID=\"0\" FEC-OTI-Maximum-Source-Block-Length=\"64\" FEC-OTI-Encoding-Symbol-Length=\"1400\"/>\n";

/// An object with bytes in its location that are not printed as they are.
const ODD: &str =
    "<File Content-Location=\"!a %z~\u{e9}&#31;\" TOI=\"4294967295\" Content-Length=\"2\" Transfer-Length=\"2\" FEC-OTI-FEC-Encoding-ID=\"0\" FEC-OTI-Maximum-Source-Block-Length=\"64\" FEC-OTI-Encoding-Symbol-Length=\"1400\"/>\n";

pub(crate) const WHOLE: Sent<'static> = Sent::Text(&TEXT);

pub(crate) const BYTE: Sent<'static> = Sent::Bytes(b"\0");

pub(crate) const FDT: (u64, Sent<'static>) = (NOW, WHOLE);

pub(crate) const HELLO: (u64, Sent<'static>) = (NOW, Sent::Symbol(1, 5, 0, b"hello"));

pub(crate) const JUNK: (u64, Sent<'static>) = (NOW, BYTE);

pub(crate) const FDT1: &str = "fdt 1 started 1 prolonged 0 conflicting 0 refused 0 norow 0 full 0";

pub(crate) const STORED: &str = "stored 5 5 hello.txt";

pub(crate) const FILE: File<'static> = (5, "hello.txt", b"hello");

pub(crate) const TSI_1: [&str; 2] = ["--tsi", "1"];

/// A record of 25 bytes that is cut after two.
pub(crate) const CUT: [u8; 10] = [0, 0, 0xe8, 0x75, 0x43, 0x18, 0, 0x19, 0x10, 0xa0];

fn join(alloc: Global, pieces: &[&str], end: &str) -> Result<Vec<u8>, Memory> {
    let mut out = Vec::new(alloc);
    for piece in pieces {
        out.extend_from_slice(piece.as_bytes())?;
        out.extend_from_slice(end.as_bytes())?;
    }
    Ok(out)
}

pub(crate) fn packet_of(alloc: Global, words: &[u32], payload: &[u8]) -> Result<Vec<u8>, Memory> {
    let mut out = Vec::new(alloc);
    for word in words {
        put_be32(&mut out, *word)?;
    }
    out.extend_from_slice(payload)?;
    Ok(out)
}

/// The packet of the FDT Instance 1 with this text, as its one symbol.
pub(crate) fn text_packet(alloc: Global, text: &[u8]) -> Result<Vec<u8>, Memory> {
    let len = (text.len() % 0x1_0000) as u32;
    let head = [
        0x10a0_0900,
        0,
        1,
        0,
        0xc010_0001,
        0x4004_0000,
        len,
        len.max(1400),
        64,
        0,
    ];
    packet_of(alloc, &head, text)
}

/// The packet of one of the two symbols of the text `TEXT`.
fn half_packet(alloc: Global, esi: u32) -> Result<Vec<u8>, Memory> {
    let text = join(alloc, &TEXT, "")?;
    let half = text.len() / 2;
    let (first, second) = text.as_slice().split_at(half);
    let head = [
        0x10a0_0900,
        0,
        1,
        0,
        0xc010_0001,
        0x4004_0000,
        282,
        141,
        64,
        esi,
    ];
    packet_of(alloc, &head, if esi == 0 { first } else { second })
}

fn datagram_of(alloc: Global, sent: Sent<'_>) -> Result<Vec<u8>, Memory> {
    match sent {
        Sent::Text(pieces) => text_packet(alloc, &join(alloc, pieces, "")?),
        Sent::Half(esi) => half_packet(alloc, esi),
        Sent::Symbol(tsi, toi, payload_id, payload) => {
            packet_of(alloc, &[0x10a0_0400, 0, tsi, toi, payload_id], payload)
        }
        Sent::Raptor(payload_id, payload) => {
            packet_of(alloc, &[0x10a0_0401, 0, 1, 5, payload_id], payload)
        }
        Sent::Words(words, payload) => packet_of(alloc, words, payload),
        Sent::Bytes(bytes) => Ok(bytes.to_vec(alloc)?),
    }
}

pub(crate) fn trace_of(
    rt: &impl Abort,
    alloc: Global,
    sent: &[(u64, Sent<'_>)],
) -> Result<Vec<u8>, Memory> {
    let mut trace = Vec::new(alloc);
    for (at, packet) in sent {
        let datagram = datagram_of(alloc, *packet)?;
        assert!(rt; *at < 0x1_0000_0000_0000 && datagram.len() <= DATAGRAM_MAX);
        trace_bytes(*at, &datagram, &mut trace)?;
    }
    Ok(trace)
}

/// What a call leaves where the listed calls of the store, of the sink and of the trace's source fail.
pub(crate) fn received<R: Threads + Sync + AllocGlobal>(
    rt: &R,
    words: &[&str],
    trace: &[u8],
    failing: [&[u64]; 3],
) -> Result<Left, Memory> {
    received_with(rt, words, (&[], &[]), trace, failing)
}

/// The same over the bytes of tables, of whose source the listed calls fail.
pub(crate) fn received_with<R: Threads + Sync + AllocGlobal>(
    rt: &R,
    words: &[&str],
    tables: (&[u8], &[u64]),
    trace: &[u8],
    failing: [&[u64]; 3],
) -> Result<Left, Memory> {
    let alloc: Global = rt.alloc();
    let words: Vec<String> = words
        .iter()
        .map(|word| String::from_str(alloc, word))
        .try_collect(alloc)?;
    let [of_store, of_sink, of_source] = failing;
    let source = MemSource::new(trace.to_vec(alloc)?, of_source.to_vec(alloc)?)?;
    let mut air = TraceAir::new(alloc, source)?;
    let (of_tables, failing_tables) = tables;
    let mut tables = MemSource::new(of_tables.to_vec(alloc)?, failing_tables.to_vec(alloc)?)?;
    let mut store = MemStore::new(alloc, of_store.to_vec(alloc)?)?;
    let mut out = MemSink::new(alloc, of_sink.to_vec(alloc)?)?;
    let mut links = MemLinks::new(alloc, Vec::new(alloc), Vec::new(alloc))?;
    let mut chance = ListChance::new(Vec::new(alloc))?;
    let status = receive(
        rt,
        alloc,
        words.as_slice(),
        &mut tables,
        &mut air,
        &mut store,
        &mut out,
        &mut links,
        &mut chance,
        &OpenGate,
    );
    let mut buf = DatagramBuffer::new(alloc)?;
    let next = air.next(NOW, &mut buf);
    Ok(Left {
        status,
        out,
        store,
        next,
    })
}

pub(crate) fn assert_left<R: Abort + AllocGlobal>(
    rt: &R,
    left: &Left,
    printed: &[&str],
    status: u8,
    files: &[File<'_>],
) -> Result<(), Memory> {
    let lines = join(rt.alloc(), printed, "\n")?;
    assert_eq!(rt; left.out.written(), lines.as_slice(), "{printed:?}");
    assert_eq!(rt; left.status.number(), status, "{printed:?}");
    assert_eq!(rt; left.store.len(), files.len(), "{printed:?}");
    for (i, (toi, location, bytes)) in files.iter().enumerate() {
        assert_eq!(rt; left.store.toi(i), *toi);
        assert_eq!(rt; left.store.location(i), location.as_bytes());
        assert_eq!(rt; left.store.bytes(i), *bytes);
    }
    Ok(())
}

pub(crate) fn assert_cases<R: Threads + Sync + AllocGlobal + Abort>(
    rt: &R,
    cases: &[Case<'_>],
) -> Result<(), Memory> {
    for (sent, printed, status, files) in cases {
        let trace = trace_of(rt, rt.alloc(), sent)?;
        let left = received(rt, &TSI_1, &trace, [&[], &[], &[]])?;
        assert_left(rt, &left, printed, *status, files)?;
    }
    Ok(())
}

const ENDINGS: [Case<'static>; 8] = [
    (&[], &["end ended 0 datagrams 0"], 0, &[]),
    (
        &[FDT, HELLO],
        &[FDT1, STORED, "end ended 3899999000 datagrams 2"],
        0,
        &[FILE],
    ),
    (
        &[FDT],
        &[FDT1, "end ended 3899999000 datagrams 1", "incomplete 5 1"],
        1,
        &[],
    ),
    (
        &[JUNK, FDT, HELLO],
        &[
            FDT1,
            STORED,
            "end ended 3899999000 datagrams 3",
            "dropped short 1",
        ],
        0,
        &[FILE],
    ),
    // The clock does not go back.
    (
        &[(7, BYTE), (9, BYTE), (8, BYTE)],
        &["end ended 9 datagrams 3", "dropped short 3"],
        0,
        &[],
    ),
    (
        &[(0xffff_ffff_ffff, BYTE)],
        &["end ended 281474976710655 datagrams 1", "dropped short 1"],
        0,
        &[],
    ),
    // A file ends once its instance has expired, and counts where it was not stored.
    (
        &[FDT, (EXPIRES, BYTE), (EXPIRES + 1, BYTE), HELLO],
        &[
            FDT1,
            "end ended 3900000001 datagrams 4",
            "expired 1",
            "dropped short 2",
            "dropped unknown 1",
        ],
        0,
        &[],
    ),
    (
        &[FDT, HELLO, (EXPIRES + 1, BYTE)],
        &[
            FDT1,
            STORED,
            "end ended 3900000001 datagrams 3",
            "dropped short 1",
        ],
        0,
        &[FILE],
    ),
];

#[test]
fn each_file_is_stored_and_each_end_printed(rt: HostRuntime) -> Result<(), Fail> {
    assert_cases(&rt, &ENDINGS)?;
    Ok(())
}

const ENTRIES: [Case<'static>; 3] = [
    (
        &[(NOW, Sent::Text(&[HEAD, ENTRY, ENTRY, MOVED, END])), HELLO],
        &[
            "fdt 1 started 1 prolonged 1 conflicting 1 refused 0 norow 0 full 0",
            STORED,
            "end ended 3899999000 datagrams 2",
        ],
        0,
        &[FILE],
    ),
    (
        &[
            (NOW, Sent::Text(&[HEAD, ENTRY, ODD, END])),
            (NOW, Sent::Symbol(1, 0xffff_ffff, 0, b"\0\xff")),
            HELLO,
        ],
        &[
            "fdt 1 started 2 prolonged 0 conflicting 0 refused 0 norow 0 full 0",
            "stored 4294967295 2 !a%20%25z~%C3%A9%1F",
            STORED,
            "end ended 3899999000 datagrams 3",
        ],
        0,
        &[(4_294_967_295, "!a %z~\u{e9}\u{1f}", b"\0\xff"), FILE],
    ),
    (
        &[(NOW, Sent::Text(&[HEAD, ODD, ENTRY, END]))],
        &[
            "fdt 1 started 2 prolonged 0 conflicting 0 refused 0 norow 0 full 0",
            "end ended 3899999000 datagrams 1",
            "incomplete 4294967295 1",
            "incomplete 5 1",
        ],
        1,
        &[],
    ),
];

#[test]
fn an_instance_with_many_entries_is_acted_on(rt: HostRuntime) -> Result<(), Fail> {
    assert_cases(&rt, &ENTRIES)?;
    Ok(())
}

/// The failing calls of the store, of the sink and of the source, then what is printed, answered and stored.
type Fault<'a> = ([&'a [u64]; 3], &'a [&'a str], u8, &'a [File<'a>]);

const FAULTS: [Fault<'static>; 6] = [
    // Without a fault, the trace is broken at its third record.
    ([&[], &[], &[]], &[FDT1, STORED, "broken 363"], 4, &[FILE]),
    ([&[1], &[], &[]], &[FDT1], 7, &[]),
    ([&[], &[1], &[]], &[], 8, &[]),
    ([&[], &[2], &[]], &[FDT1], 8, &[FILE]),
    ([&[], &[3], &[]], &[FDT1, STORED], 8, &[FILE]),
    ([&[], &[], &[1]], &[], 6, &[]),
];

#[test]
fn what_came_before_a_fault_stays(rt: HostRuntime) -> Result<(), Fail> {
    let mut trace = trace_of(&rt, rt.alloc(), &[FDT, HELLO])?;
    trace.extend_from_slice(&CUT)?;
    for (failing, printed, status, files) in &FAULTS {
        let left = received(&rt, &TSI_1, &trace, *failing)?;
        assert_left(&rt, &left, printed, *status, files)?;
    }
    let left = received(&rt, &TSI_1, &CUT, [&[], &[], &[]])?;
    assert_left(&rt, &left, &["broken 0"], 4, &[])?;
    Ok(())
}

#[test]
fn a_record_past_the_last_moment_ends_the_session(rt: HostRuntime) -> Result<(), Fail> {
    let trace = trace_of(&rt, rt.alloc(), &[FDT, HELLO, (NOW + 1, BYTE)])?;
    let words = ["--until", "3899999000", "--tsi", "1"];
    let left = received(&rt, &words, &trace, [&[], &[], &[]])?;
    let printed = [FDT1, STORED, "end quiet 3899999000 datagrams 2"];
    assert_left(&rt, &left, &printed, 0, &[FILE])?;
    Ok(())
}

#[test]
fn refused_words_read_nothing(rt: HostRuntime) -> Result<(), Fail> {
    let words: [&[&str]; 5] = [
        &[],
        &["--tsi"],
        &["--tsi", "x"],
        &["--tsi", "1", "2"],
        &["--tsi", "1", "--tables"],
    ];
    for words in words {
        // The first read is still to come.
        let left = received(&rt, words, &CUT, [&[], &[], &[1]])?;
        assert_left(&rt, &left, &["usage"], 2, &[])?;
        assert_eq!(&rt; left.next, AirEvent::Failed);
    }
    let left = received(&rt, &[], &CUT, [&[], &[1], &[1]])?;
    assert_left(&rt, &left, &[], 8, &[])?;
    assert_eq!(&rt; left.next, AirEvent::Failed);
    Ok(())
}
