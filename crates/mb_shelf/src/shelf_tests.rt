//! Each shelf, called through the bound of its trait, and the reading of whole files and sources.
use crate::{FileShelf, MemShelf, ReadAllFault, Shelf, read_all, read_file};
use mb_base::{Bytes, Failed, MemSource, Memory};
use std::alloc::Global;
use std::fs;
use std::test::Fail;

fn read<S: Shelf>(shelf: &mut S, file: u32, buf: &mut [u8]) -> Result<usize, Failed> {
    shelf.read(file, buf)
}

/// A shelf in memory with the files `hello`, one that is empty, and `abc`.
fn shelf_of(alloc: Global, failing: &[u64]) -> Result<MemShelf, Memory> {
    let mut files = Vec::new(alloc);
    for file in [b"hello".as_slice(), b"", b"abc"] {
        files.push(file.to_vec(alloc)?)?;
    }
    MemShelf::new(alloc, files, failing.to_vec(alloc)?)
}

/// So many bytes, of which no 64 KiB are like the next.
fn pattern(alloc: Global, len: usize) -> Result<Vec<u8>, Memory> {
    let mut bytes = Vec::new(alloc);
    for i in 0..len {
        bytes.push((i % 251) as u8)?;
    }
    Ok(bytes)
}

fn paths_of(alloc: Global, paths: &[&[u8]]) -> Result<Vec<Bytes>, Memory> {
    let mut copies = Vec::new(alloc);
    for path in paths {
        copies.push(Bytes::from_vec(path.to_vec(alloc)?))?;
    }
    Ok(copies)
}

#[test]
fn shelf_in_memory_gives_each_byte_of_each_file_once(rt: HostRuntime) -> Result<(), Fail> {
    let mut shelf = shelf_of(rt.alloc(), &[3])?;
    let mut buf = [0u8; 4];
    assert_eq!(rt; read(&mut shelf, 0, &mut buf)?, 4);
    assert_eq!(rt; buf, *b"hell");
    assert_eq!(rt; read(&mut shelf, 2, &mut buf)?, 3);
    assert_eq!(rt; buf, *b"abcl");
    assert!(rt; read(&mut shelf, 0, &mut buf).is_err());
    assert_eq!(rt; read(&mut shelf, 0, &mut buf)?, 1);
    assert_eq!(rt; buf, *b"obcl");
    for file in [0, 1, 2, 3, u32::MAX] {
        assert_eq!(rt; read(&mut shelf, file, &mut buf)?, 0);
    }
    assert_eq!(rt; shelf.refused(), 0);
    Ok(())
}

#[test]
fn source_is_read_whole_up_to_the_limit(rt: HostRuntime) -> Result<(), Fail> {
    let alloc = rt.alloc();
    for limit in [5, 6, usize::MAX] {
        let mut source = MemSource::new(b"hello".to_vec(alloc)?, Vec::new(alloc))?;
        assert_eq!(rt;
            read_all(alloc, &mut source, limit)?.as_slice(),
            b"hello".as_slice()
        );
    }
    for limit in [0, 4] {
        let mut source = MemSource::new(b"hello".to_vec(alloc)?, Vec::new(alloc))?;
        let fault = read_all(alloc, &mut source, limit).err();
        assert_eq!(rt; fault, Some(ReadAllFault::TooLong));
    }
    let mut failing = MemSource::new(b"hello".to_vec(alloc)?, [2u64].to_vec(alloc)?)?;
    assert_eq!(rt;
        read_all(alloc, &mut failing, 5).err(),
        Some(ReadAllFault::Fault)
    );
    Ok(())
}

#[test]
fn file_in_memory_is_read_whole_up_to_the_limit(rt: HostRuntime) -> Result<(), Fail> {
    let alloc = rt.alloc();
    let mut shelf = shelf_of(alloc, &[2])?;
    assert_eq!(rt;
        read_file(alloc, &mut shelf, 2, 3).err(),
        Some(ReadAllFault::Fault)
    );
    let mut shelf = shelf_of(alloc, &[])?;
    assert_eq!(rt;
        read_file(alloc, &mut shelf, 0, 4).err(),
        Some(ReadAllFault::TooLong)
    );
    assert_eq!(rt;
        read_file(alloc, &mut shelf, 2, 3)?.as_slice(),
        b"abc".as_slice()
    );
    assert!(rt; read_file(alloc, &mut shelf, 1, 0)?.is_empty());
    assert!(rt; read_file(alloc, &mut shelf, 7, 0)?.is_empty());
    Ok(())
}

#[test]
fn files_are_read_whole_in_turns(rt: HostRuntime) -> Result<(), Fail> {
    let alloc = rt.alloc();
    let long = pattern(alloc, 200_000)?;
    fs::create_dir(&rt, "turns")?;
    fs::write(&rt, "turns/long", &long)?;
    fs::write(&rt, "turns/short", "hello")?;
    let paths = paths_of(alloc, &[b"turns/short", b"turns/long"])?;
    let mut shelf = FileShelf::new(&rt, alloc, &paths)?;
    let mut buf = [0u8; 4];
    // A buffer with no room is no end.
    assert_eq!(rt; read(&mut shelf, 0, &mut [])?, 0);
    assert_eq!(rt; read(&mut shelf, 0, &mut buf)?, 4);
    assert!(rt; read_file(alloc, &mut shelf, 1, 200_000)?.as_slice() == long.as_slice());
    assert_eq!(rt; read(&mut shelf, 0, &mut buf)?, 1);
    assert_eq!(rt; buf, *b"oell");
    for file in [0, 1, 2, u32::MAX] {
        assert_eq!(rt; read(&mut shelf, file, &mut buf)?, 0);
    }
    let mut again = FileShelf::new(&rt, alloc, &paths)?;
    let fault = read_file(alloc, &mut again, 1, 199_999).err();
    assert_eq!(rt; fault, Some(ReadAllFault::TooLong));
    assert_eq!(rt;
        read_file(alloc, &mut again, 0, 5)?.as_slice(),
        b"hello".as_slice()
    );
    fs::remove_dir_all(&rt, "turns")?;
    Ok(())
}

#[test]
fn what_is_no_file_is_a_fault(rt: HostRuntime) -> Result<(), Fail> {
    let alloc = rt.alloc();
    fs::create_dir(&rt, "faults")?;
    // A folder, a path that is no text, one with a zero byte, an empty one, and one that names nothing.
    let paths = paths_of(
        alloc,
        &[b"faults", b"faults/\xff", b"faults\0", b"", b"faults/late"],
    )?;
    let mut shelf = FileShelf::new(&rt, alloc, &paths)?;
    for file in 0..5 {
        let fault = read_file(alloc, &mut shelf, file, 5).err();
        assert_eq!(rt; fault, Some(ReadAllFault::Fault));
    }
    // A file that could not be opened is tried again.
    fs::write(&rt, "faults/late", "hello")?;
    assert_eq!(rt;
        read_file(alloc, &mut shelf, 4, 5)?.as_slice(),
        b"hello".as_slice()
    );
    fs::remove_dir_all(&rt, "faults")?;
    Ok(())
}
