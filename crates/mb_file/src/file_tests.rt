//! Files of either scheme that are heard and handed out.
ghost use Rattle.mb_file.specs.File.{IsFileOf};
ghost use Rattle.std.specs.Prelude.{◌≡◌, []};

use crate::FileRx;
use mb_base::{Bytes, MemSource, OpenGate};
use mb_geom::{Desc, DescParts, Scheme};
use mb_tables::{Tables, TablesFault, read_tables};
use mb_way::Codes;
use std::alloc::Global;
use std::process::Abort;
use std::test::Fail;
use std::thread::Threads;

/// The tables of the smallest code: multiples of 70,001 as V0, and zeros as V1.
fn small_tables(alloc: Global) -> Result<Tables, TablesFault> {
    let mut bytes = Vec::new(alloc);
    bytes.extend_from_slice(b"RAPTAB01")?;
    for i in 0..512u32 {
        let number = if i < 256 { 70_001 * i } else { 0 };
        bytes.extend_from_slice(&number.to_be_bytes())?;
    }
    bytes.extend_from_slice(&[0, 1, 0, 4, 0, 0, 0, 5, 0, 17])?;
    let mut source = MemSource::new(bytes, Vec::new(alloc))?;
    read_tables(alloc, &mut source)
}

/// The description of a file of so many bytes, in symbols of four bytes.
fn described(rt: &impl Abort, alloc: Global, length: u64, scheme: Scheme) -> Desc {
    let parts = DescParts {
        location: Bytes::from_vec(Vec::new(alloc)),
        content_length: Some(length),
        transfer_length: None,
        encoded: false,
        symbol: Some(4),
        scheme: Some(scheme),
        md5: None,
    };
    Desc::new(parts).expect(rt, "a good file")
}

/// A file of which nothing was heard.
fn started(rt: &impl Abort, alloc: Global, codes: &mut Codes, desc: &Desc) -> FileRx
    ensures { IsFileOf desc.now result }
{
    let _length = desc.length();
    assert!(rt; codes.has_ways(desc));
    let ways = codes.ways(alloc, desc).expect(rt, "memory");
    FileRx::new(desc, ways)
}

/// Hears a payload, and says how many symbols were kept, determined, and are missing.
fn heard(
    rt: &impl Abort,
    alloc: Global,
    file: &mut FileRx,
    desc: &Desc,
    at: (u16, u16),
    payload: &[u8],
) -> (u32, u32, u64)
    requires { IsFileOf desc.now file.old }
    ensures { IsFileOf desc.now file.new }
{
    let (sbn, esi) = at;
    let symbol = usize::from(desc.symbol());
    assert!(rt; u32::from(sbn) < desc.blocks());
    assert!(rt; symbol > 0 && payload.len() < 100);
    assert!(rt; usize::from(esi) + (payload.len() + symbol - 1) / symbol <= 65_536);
    let news = file
        .hear(alloc, desc, sbn, esi, payload)
        .expect(rt, "memory");
    (news.kept, news.determined, file.missing())
}

/// Hands the file out, and says whether it has these bytes.
fn has_bytes<R: Threads + Sync>(
    rt: &R,
    alloc: Global,
    file: &mut FileRx,
    desc: &Desc,
    want: &[u8],
) -> bool
    requires { IsFileOf desc.now file.old }
{
    if file.missing() != 0 {
        return false;
    }
    match file.take(rt, alloc, desc, 2, &OpenGate) {
        Ok(bytes) => bytes.as_slice() == want,
        Err(_) => false,
    }
}

#[test]
fn a_file_under_raptor_follows_from_repair_and_source_symbols(rt: HostRuntime) -> Result<(), Fail> {
    let alloc = rt.alloc();
    let mut codes = Codes::new(alloc, small_tables(alloc).ok().ok_or("the tables")?);
    let desc = described(&rt, alloc, 30, Scheme::Raptor { z: 2, n: 1, al: 4 });
    let mut file = started(&rt, alloc, &mut codes, &desc);
    let rows: [((u16, u16), &[u8], (u32, u32, u64)); 6] = [
        ((0, 4), b"abcd", (1, 0, 7)),
        ((0, 5), &[4, 4, 4, 12], (1, 0, 6)),
        ((0, 5), &[4, 4, 4, 12], (0, 1, 6)),
        ((1, 0), b"qrstuvwxyzABCD", (4, 0, 2)),
        ((0, 6), &[8, 8, 8, 24], (1, 0, 1)),
        ((0, 7), &[4, 4, 4, 28], (1, 0, 0)),
    ];
    for (at, payload, want) in rows {
        assert_eq!(rt; heard(&rt, alloc, &mut file, &desc, at, payload), want);
    }
    assert!(rt;
        has_bytes(
            &rt,
            alloc,
            &mut file,
            &desc,
            b"abcdefghijklmnopqrstuvwxyzABCD"
        )
    );
    assert_eq!(rt; file.missing(), 8);
    Ok(())
}

#[test]
fn a_file_under_compact_no_code_is_its_symbols(rt: HostRuntime) -> Result<(), Fail> {
    let alloc = rt.alloc();
    let mut codes = Codes::new(alloc, Tables::made(alloc)?);
    let desc = described(&rt, alloc, 10, Scheme::NoCode { max_block: 2 });
    let mut file = started(&rt, alloc, &mut codes, &desc);
    assert_eq!(rt;
        heard(&rt, alloc, &mut file, &desc, (1, 0), b"ij"),
        (1, 0, 2)
    );
    assert_eq!(rt;
        heard(&rt, alloc, &mut file, &desc, (0, 0), b"abcdefgh"),
        (2, 0, 0)
    );
    assert!(rt; has_bytes(&rt, alloc, &mut file, &desc, b"abcdefghij"));
    file.forget();
    assert_eq!(rt; file.missing(), 0);
    Ok(())
}

/// Whether the ways of one more file with this description know that the code of its first block is usable.
fn is_known(rt: &impl Abort, alloc: Global, codes: &mut Codes, desc: &Desc) -> bool {
    let _length = desc.length();
    assert!(rt; codes.has_ways(desc));
    let ways = codes.ways(alloc, desc).expect(rt, "memory");
    assert!(rt; ways.count() > 0);
    ways.way(0).expect(rt, "memory").is_usable()
}

#[test]
fn what_source_symbols_show_of_a_code_is_known_to_other_files(rt: HostRuntime) -> Result<(), Fail> {
    let alloc = rt.alloc();
    let mut codes = Codes::new(alloc, small_tables(alloc).ok().ok_or("the tables")?);
    let mut others = Codes::new(alloc, small_tables(alloc).ok().ok_or("the tables")?);
    let desc = described(&rt, alloc, 16, Scheme::Raptor { z: 1, n: 1, al: 4 });
    let mut file = started(&rt, alloc, &mut codes, &desc);
    let mut next = started(&rt, alloc, &mut codes, &desc);
    let _last = started(&rt, alloc, &mut others, &desc);
    heard(&rt, alloc, &mut file, &desc, (0, 0), b"abcdefghijkl");
    file.tell(&mut codes);
    assert!(rt; !is_known(&rt, alloc, &mut codes, &desc));
    heard(&rt, alloc, &mut file, &desc, (0, 3), b"mnop");
    assert_eq!(rt; file.missing(), 0);
    file.tell(&mut codes);
    assert!(rt; is_known(&rt, alloc, &mut codes, &desc));
    next.tell(&mut others);
    assert!(rt; !is_known(&rt, alloc, &mut others, &desc));
    next.learn(&codes);
    next.tell(&mut others);
    assert!(rt; is_known(&rt, alloc, &mut others, &desc));
    Ok(())
}

#[test]
fn repair_symbols_show_nothing_of_a_code(rt: HostRuntime) -> Result<(), Fail> {
    let alloc = rt.alloc();
    let mut codes = Codes::new(alloc, small_tables(alloc).ok().ok_or("the tables")?);
    let desc = described(&rt, alloc, 16, Scheme::Raptor { z: 1, n: 1, al: 4 });
    let mut file = started(&rt, alloc, &mut codes, &desc);
    let repair = b"abcd\x04\x04\x04\x0c\x08\x08\x08\x18\x04\x04\x04\x1c";
    heard(&rt, alloc, &mut file, &desc, (0, 4), repair);
    assert_eq!(rt; file.missing(), 0);
    file.tell(&mut codes);
    assert!(rt; !is_known(&rt, alloc, &mut codes, &desc));
    Ok(())
}
