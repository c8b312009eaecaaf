//! Lives that are heard in any order, damaged, and empty.
use crate::{Life, Taken};
use mb_base::{Bytes, OpenGate};
use mb_geom::{Desc, DescParts, Scheme};
use mb_tables::Tables;
use mb_way::Codes;
use std::alloc::Global;
use std::process::Abort;
use std::test::Fail;
use std::thread::Threads;

/// The MD5 of no bytes and of the ten letters.
const OF_NOTHING: [u8; 16] = [
    0xd4, 0x1d, 0x8c, 0xd9, 0x8f, 0x00, 0xb2, 0x04, 0xe9, 0x80, 0x09, 0x98, 0xec, 0xf8, 0x42, 0x7e,
];

const OF_LETTERS: [u8; 16] = [
    0xa9, 0x25, 0x57, 0x69, 0x42, 0xe9, 0x4b, 0x2e, 0xf5, 0x7a, 0x06, 0x61, 0x01, 0xb4, 0x88, 0x76,
];

const LETTERS: [&str; 5] = ["abc", "def", "ghi", "jkl", "mno"];

/// A life of a file in symbols of three bytes, and blocks of two symbols at most.
fn started(rt: &impl Abort, alloc: Global, length: u64, md5: Option<[u8; 16]>) -> Life {
    started_by(rt, alloc, length, 2, md5)
}

/// The same with blocks of so many symbols at most.
fn started_by(
    rt: &impl Abort,
    alloc: Global,
    length: u64,
    max_block: u32,
    md5: Option<[u8; 16]>,
) -> Life {
    let parts = DescParts {
        location: Bytes::from_vec(Vec::new(alloc)),
        content_length: Some(length),
        transfer_length: None,
        encoded: false,
        symbol: Some(3),
        scheme: Some(Scheme::NoCode { max_block }),
        md5,
    };
    let desc = Desc::new(parts).expect(rt, "a good file");
    let mut codes = Codes::new(alloc, Tables::none(alloc).expect(rt, "memory"));
    assert!(rt; codes.has_ways(&desc));
    let ways = codes.ways(alloc, &desc).expect(rt, "memory");
    Life::start(100, 5, desc, ways)
}

/// Hears a payload, and says how many symbols were kept, determined, and are missing.
fn heard(
    rt: &impl Abort,
    alloc: Global,
    life: &mut Life,
    (sbn, esi): (u16, u16),
    payload: &str,
) -> (u32, u32, u64) {
    let symbol = usize::from(life.desc().symbol());
    assert!(rt; !life.is_done());
    assert!(rt; u32::from(sbn) < life.desc().blocks());
    assert!(rt; symbol > 0 && payload.len() < 100);
    assert!(rt; usize::from(esi) + (payload.len() + symbol - 1) / symbol <= 65_536);
    let news = life
        .hear(alloc, sbn, esi, payload.as_bytes())
        .expect(rt, "memory");
    (news.kept, news.determined, life.missing())
}

/// Hands the life out, and says whether its file has these bytes.
fn has_file<R: Threads + Sync>(rt: &R, alloc: Global, life: &mut Life, want: &str) -> bool {
    if !life.is_ready() {
        return false;
    }
    match life.take(rt, alloc, 1, &OpenGate) {
        Ok(Taken::File { bytes, .. }) => bytes.as_slice() == want.as_bytes(),
        _ => false,
    }
}

#[test]
fn files_follow_from_their_symbols(rt: HostRuntime) {
    let alloc = rt.alloc();
    let mut life = started(&rt, alloc, 10, Some(OF_LETTERS));
    let rows = [
        ((1, 1), "jkl", (1, 0, 3)),
        ((0, 1), "def", (1, 0, 2)),
        ((0, 0), "abcxyz", (1, 1, 1)),
        ((1, 0), "ghi", (1, 0, 0)),
    ];
    for (symbol, payload, want) in rows {
        assert!(rt; !life.is_ready());
        assert_eq!(rt;
            heard(&rt, alloc, &mut life, symbol, payload),
            want,
            "{payload}"
        );
    }
    assert!(rt; has_file(&rt, alloc, &mut life, "abcdefghij"));
    assert!(rt; life.is_done() && !life.is_ready());
    assert_eq!(rt; (life.missing(), life.buffered()), (0, 0));
}

#[test]
fn damaged_and_empty_files(rt: HostRuntime) {
    let alloc = rt.alloc();
    let mut life = started(&rt, alloc, 2, Some(OF_LETTERS));
    assert_eq!(rt; heard(&rt, alloc, &mut life, (0, 0), "ab"), (1, 0, 0));
    assert!(rt; !has_file(&rt, alloc, &mut life, "ab"));
    assert!(rt; !life.is_done() && !life.is_ready());
    assert_eq!(rt; life.missing(), 1);
    let mut empty = started(&rt, alloc, 0, Some(OF_NOTHING));
    assert!(rt; has_file(&rt, alloc, &mut empty, ""));
    let wrong = started(&rt, alloc, 0, Some(OF_LETTERS));
    assert!(rt; !wrong.is_ready());
}

#[test]
fn blocks_go_across_words(rt: HostRuntime) -> Result<(), Fail> {
    let alloc = rt.alloc();
    let mut life = started_by(&rt, alloc, 390, 50, None);
    assert_eq!(rt; life.desc().blocks(), 3);
    for turn in 0..260u64 {
        let place = turn * 7 % 130;
        let (sbn, esi) = if place < 44 {
            (0, place)
        } else if place < 87 {
            (1, place - 44)
        } else {
            (2, place - 87)
        };
        assert!(rt; life.is_ready() == (turn >= 130));
        let news = heard(
            &rt,
            alloc,
            &mut life,
            (sbn, esi as u16),
            LETTERS[(place % 5) as usize],
        );
        let first = u64::from(turn < 130);
        let want = (
            first as u32,
            1 - first as u32,
            130_u64.saturating_sub(turn + 1),
        );
        assert_eq!(rt; news, want, "at {turn}");
    }
    let want = "abcdefghijklmno".repeat(alloc, 26)?;
    assert!(rt; has_file(&rt, alloc, &mut life, &want));
    Ok(())
}
