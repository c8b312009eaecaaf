//! Files of a shelf in memory, read and described.
ghost use Rattle.std.specs.Prelude.{◌≡◌, length, All, IfOk, IsUtf8};

use crate::{FilesFault, Layout, SentFile, describe, read_files};
use mb_base::{Bytes, Memory};
use mb_geom::{DescFault, Scheme};
use mb_shelf::{MemShelf, Shelf};
use std::alloc::Global;
use std::test::Fail;

const NO_CODE: Layout = Layout {
    symbol: 2,
    scheme: Scheme::NoCode { max_block: 2 },
};

/// One block, of 4 symbols at least.
const RAPTOR: Layout = Layout {
    symbol: 1,
    scheme: Scheme::Raptor { z: 1, n: 1, al: 1 },
};

/// The MD5 of `hello`, as `md5sum` gives it.
const HELLO_MD5: [u8; 16] = *b"\x5d\x41\x40\x2a\xbc\x4b\x2a\x76\xb9\x71\x9d\x91\x10\x17\xc5\x92";

fn text(alloc: Global, text: &str) -> Result<Bytes, Memory>
    ensures { IfOk result IsUtf8 }
{
    Ok(Bytes::from_vec(text.as_bytes().to_vec(alloc)?))
}

fn locations(alloc: Global) -> Result<Vec<Bytes>, Memory>
    ensures texts { IfOk result (λ locations. All IsUtf8 locations.items) }
    ensures number { IfOk result (λ locations. length locations.items ≡ 3) }
{
    let mut locations = Vec::new(alloc);
    for location in ["a", "b/b", "c"] {
        locations.push(text(alloc, location)?)?;
    }
    Ok(locations)
}

/// A shelf in memory with the files `hello`, these bytes, and `world`.
fn shelf_of(alloc: Global, middle: &[u8], failing: &[u64]) -> Result<MemShelf, Memory> {
    let mut files = Vec::new(alloc);
    for file in [b"hello".as_slice(), middle, b"world"] {
        files.push(file.to_vec(alloc)?)?;
    }
    MemShelf::new(alloc, files, failing.to_vec(alloc)?)
}

fn read<S: Shelf>(
    alloc: Global,
    layout: &Layout,
    shelf: &mut S,
) -> Result<Vec<SentFile>, FilesFault> {
    read_files(alloc, layout, &locations(alloc)?, shelf)
}

#[test]
fn each_file_is_read_and_described(rt: HostRuntime) -> Result<(), Fail> {
    let alloc = rt.alloc();
    let mut shelf = shelf_of(alloc, b"", &[])?;
    let files = read(alloc, &NO_CODE, &mut shelf)?;
    let rows = [
        (b"a".as_slice(), b"hello".as_slice()),
        (b"b/b", b""),
        (b"c", b"world"),
    ];
    assert_eq!(rt; files.len(), 3);
    for (file, (location, bytes)) in files.iter().zip(rows) {
        assert_eq!(rt; file.desc.location(), location);
        assert_eq!(rt; file.bytes.as_slice(), bytes);
        assert_eq!(rt; file.desc.length(), bytes.len() as u64);
        assert_eq!(rt; file.desc.symbol(), 2);
    }
    Ok(())
}

#[test]
fn first_file_that_is_refused_or_fails_decides(rt: HostRuntime) -> Result<(), Fail> {
    let alloc = rt.alloc();
    // Each file is read by two calls, of which the second is at its end.
    let rows = [
        (RAPTOR, b"abcd".as_slice(), 1, FilesFault::Fault),
        (RAPTOR, b"abcd", 6, FilesFault::Fault),
        (RAPTOR, b"abc", 4, FilesFault::Fault),
        (RAPTOR, b"abc", 5, FilesFault::Bad { file: 2, number: 9 }),
        (RAPTOR, b"", 5, FilesFault::Bad { file: 2, number: 9 }),
    ];
    for (layout, middle, failing, fault) in rows {
        let mut shelf = shelf_of(alloc, middle, &[failing])?;
        assert_eq!(rt; read(alloc, &layout, &mut shelf).err(), Some(fault));
    }
    let mut shelf = shelf_of(alloc, b"abcd", &[7])?;
    assert_eq!(rt; read(alloc, &RAPTOR, &mut shelf)?.len(), 3);
    Ok(())
}

#[test]
fn file_has_the_digest_of_its_bytes(rt: HostRuntime) -> Result<(), Fail> {
    let alloc = rt.alloc();
    let location = text(alloc, "a")?;
    let desc = describe(alloc, &NO_CODE, location.as_slice(), b"hello")?;
    assert_eq!(rt; desc.ok().and_then(|desc| desc.md5()), Some(HELLO_MD5));
    let layout = Layout {
        symbol: 0,
        ..NO_CODE
    };
    let refused = describe(alloc, &layout, location.as_slice(), b"hello")?;
    assert_eq!(rt; refused.err(), Some(DescFault::ZeroSymbol));
    Ok(())
}
