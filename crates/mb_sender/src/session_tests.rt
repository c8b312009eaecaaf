//! Worked sessions.
ghost use Rattle.std.specs.Prelude.{◌≡◌, true, OnOk};

use crate::blocks::repair_esis;
use crate::{SentFile, Session, can_send, write_session, write_text};
use mb_alc::read_packet;
use mb_base::{Bytes, MemSink, be16, be48};
use mb_encoder::usable;
use mb_geom::{Desc, DescParts, Scheme};
use mb_tables::{Tables, make_row};
use md5::{Digest, Md5};
use std::test::Fail;

const NO_CODE: Scheme = Scheme::NoCode { max_block: 64 };

const SESSION: Session = Session {
    tsi: 1,
    instance: 1,
    start: 3_899_999_000,
    rate: 2,
    rounds: 1,
    percent: 20,
};

/// The first record of the session of `hello`, up to the text.
const FIRST: [u8; 48] = [
    0, 0, 0xe8, 0x75, 0x43, 0x18, 1, 0x69, 0x10, 0xa0, 9, 0, 0, 0, 0, 0, 0, 0, 0, 1, 0, 0, 0, 0,
    0xc0, 0x10, 0, 1, 0x40, 4, 0, 0, 0, 0, 1, 0x41, 0, 0, 5, 0x78, 0, 0, 0, 64, 0, 0, 0, 0,
];

/// The other records: the first has the moment of the start too, and the second the one after it.
const OTHERS: [u8; 53] = [
    0, 0, 0xe8, 0x75, 0x43, 0x18, 0, 25, 0x10, 0xa0, 4, 0, 0, 0, 0, 0, 0, 0, 0, 1, 0, 0, 0, 1, 0,
    0, 0, 0, b'h', b'e', b'l', b'l', b'o', 0, 0, 0xe8, 0x75, 0x43, 0x19, 0, 12, 0x10, 0x82, 3, 0,
    0, 0, 0, 0, 0, 0, 0, 1,
];

const TEXT: &[u8] =
    b"<?xml version=\"1.0\" encoding=\"UTF-8\"?>\n<FDT-Instance Expires=\"3900000000\">\n<File Content-Location=\"hello.txt\" TOI=\"1\" Content-Length=\"5\" Transfer-Length=\"5\" Content-MD5=\"XUFAKrxLKna5cZ2REBfFkg==\" FEC-OTI-FEC-Encoding-ID=\"0\" FEC-OTI-Maximum-Source-Block-Length=\"64\" FEC-OTI-Encoding-Symbol-Length=\"1400\"/>\n</FDT-Instance>\n";

/// Fails where the condition does not hold.
fn hold(condition: bool, what: &'static str) -> Result<(), Fail>
    ensures { OnOk result (condition ≡ true) }
{
    let held = if condition { Some(()) } else { None };
    held.ok_or(what)?;
    Ok(())
}

/// A file with this location and these bytes.
fn file(
    rt: &HostRuntime,
    location: &str,
    bytes: &[u8],
    symbol: u16,
    scheme: Scheme,
) -> Result<SentFile, Fail> {
    let mut name = Vec::new(rt.alloc());
    name.extend_from_slice(location.as_bytes())?;
    let mut digest = Md5::new();
    digest.update(bytes);
    let parts = DescParts {
        location: Bytes::from_vec(name),
        content_length: Some(bytes.len() as u64),
        transfer_length: None,
        encoded: false,
        symbol: Some(symbol),
        scheme: Some(scheme),
        md5: Some(digest.finalize()),
    };
    let desc = Desc::new(parts).ok().ok_or("the description")?;
    Ok(SentFile {
        desc,
        bytes: Bytes::from_vec(bytes.to_vec(rt.alloc())?),
    })
}

/// The trace of a session with one file.
fn trace(
    rt: &HostRuntime,
    session: &Session,
    tables: &Tables,
    sent: SentFile,
) -> Result<MemSink, Fail> {
    let mut files = Vec::new(rt.alloc());
    files.push(sent)?;
    let text = write_text(rt.alloc(), 3_900_000_000, files.as_slice())?;
    let mut out = MemSink::new(rt.alloc(), Vec::new(rt.alloc()))?;
    let (text, files) = (text.as_slice(), files.as_slice());
    let can = can_send(rt.alloc(), session, tables, text, files)?;
    hold(can, "it can be sent")?;
    let done = write_session(rt.alloc(), session, tables, text, files, &mut out);
    hold(done == Ok(()), "all is written")?;
    Ok(out)
}

#[test]
fn a_small_session_has_its_bytes(rt: HostRuntime) -> Result<(), Fail> {
    let tables = Tables::none(rt.alloc())?;
    let hello = file(&rt, "hello.txt", b"hello", 1_400, NO_CODE)?;
    let out = trace(&rt, &SESSION, &tables, hello)?;
    let mut want = Vec::new(rt.alloc());
    want.extend_from_slice(&FIRST)?;
    want.extend_from_slice(TEXT)?;
    want.extend_from_slice(&OTHERS)?;
    assert_eq!(rt; out.written().len(), 422);
    assert!(rt; out.written() == want.as_slice());
    Ok(())
}

/// The SBN, ESI and payload length of each packet of TOI 1, and its codepoint.
fn symbols_in(rt: &HostRuntime, trace: &[u8]) -> Result<Vec<(u16, u16, usize, u8)>, Fail> {
    let mut symbols = Vec::new(rt.alloc());
    let mut rest = trace;
    for number in 0..100 {
        if rest.len() < 8 {
            break;
        }
        let moment = be48(&rest[..6]);
        hold(moment == SESSION.start + number / 2, "the moment")?;
        let size = usize::from(be16(&rest[6..8]));
        let datagram = rest.get(8..8 + size).ok_or("a whole record")?;
        let p = read_packet(datagram).ok().ok_or("a packet")?;
        if let (Some(1), Some(body)) = (p.lct.toi, p.body) {
            symbols.push((body.sbn, body.esi, body.payload.len(), p.lct.cp))?;
        }
        rest = rest.get(8 + size..).ok_or("a whole record")?;
    }
    hold(rest.is_empty(), "whole records")?;
    Ok(symbols)
}

/// Made tables with a row for blocks of 4 and of 5 symbols.
fn tables_of_4_and_5(rt: &HostRuntime) -> Result<Tables, Fail> {
    let mut tables = Tables::made(rt.alloc())?;
    for k in [4, 5] {
        for j in 0..40 {
            let mut more = tables.copy()?;
            if more.add(make_row(&tables, k, j)).is_err() {
                break;
            }
            if usable(rt.alloc(), &more, k) == Ok(true) {
                tables = more;
                break;
            }
        }
    }
    hold(tables.rows().len() == 2, "both rows")?;
    Ok(tables)
}

#[test]
fn each_round_has_repair_symbols_of_its_own(rt: HostRuntime) -> Result<(), Fail> {
    let tables = tables_of_4_and_5(&rt)?;
    let coded = Scheme::Raptor { z: 2, n: 1, al: 4 };
    let sent = file(&rt, "a", &[7; 33], 4, coded)?;
    let session = Session {
        rounds: 2,
        ..SESSION
    };
    let out = trace(&rt, &session, &tables, sent)?;
    let symbols = symbols_in(&rt, out.written())?;
    let mut want = Vec::new(rt.alloc());
    for round in 0..2 {
        for (sbn, k) in [(0, 5), (1, 4)] {
            for esi in 0..k {
                want.push((sbn, esi, 4, 1))?;
            }
            want.push((sbn, k + round, 4, 1))?;
        }
    }
    assert!(rt; symbols.as_slice() == want.as_slice());
    Ok(())
}

#[test]
fn no_repair_symbol_is_above_the_last_esi(rt: HostRuntime) {
    let rows = [
        (20, 0, 5, (5, 1)),
        (20, 1, 5, (6, 1)),
        (21, 1, 5, (7, 2)),
        (100, 6, 8_192, (57_344, 8_192)),
        (100, 7, 8_192, (65_536, 0)),
        (100, 7, 8_000, (64_000, 1_536)),
        (0, 3, 100, (100, 0)),
    ];
    for (percent, round, k, want) in rows {
        let esis = repair_esis(percent, round, k);
        assert_eq!(rt; (esis.first, esis.count), want);
    }
}
