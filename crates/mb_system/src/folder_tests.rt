//! The store in a folder, called through the bound of its trait.
use crate::FolderStore;
use mb_outside::{Failed, Memory, Store};
use std::alloc::Global;
use std::fs;
use std::os::unix::fs::symlink;
use std::rt::Files;
use std::test::Fail;

fn put<S: Store>(store: &mut S, toi: u128, bytes: &[u8]) -> Result<(), Failed> {
    store.put(toi, b"file:///a", bytes)
}

fn has(files: &impl Files, path: &str) -> bool {
    fs::symlink_metadata(files, path).is_ok()
}

/// So many bytes, of which no 64 KiB are like the next.
fn pattern(alloc: Global, len: usize) -> Result<Vec<u8>, Memory> {
    let mut bytes = Vec::new(alloc);
    for i in 0..len {
        bytes.push((i % 251) as u8)?;
    }
    Ok(bytes)
}

#[test]
fn folder_has_whole_files_alone(rt: HostRuntime) -> Result<(), Fail> {
    fs::create_dir(&rt, "whole")?;
    let mut store = FolderStore::new(&rt, rt.alloc(), "whole")?;
    let long = pattern(rt.alloc(), 200_000)?;
    put(&mut store, 7, &long)?;
    assert!(rt; fs::read(&rt, "whole/7")?.as_slice() == long.as_slice());
    assert!(rt; !has(&rt, "whole/.7.part"));

    // A TOI that takes more than 64 bits.
    put(&mut store, (1 << 64) + 7, b"other")?;
    assert_eq!(rt;
        fs::read(&rt, "whole/18446744073709551623")?.as_slice(),
        b"other".as_slice()
    );
    assert!(rt; fs::read(&rt, "whole/7")?.as_slice() == long.as_slice());

    let mut nowhere = FolderStore::new(&rt, rt.alloc(), "whole/missing")?;
    assert!(rt; put(&mut nowhere, 7, b"lost").is_err());
    fs::remove_dir_all(&rt, "whole")?;
    Ok(())
}

#[test]
fn file_that_is_put_again_is_replaced(rt: HostRuntime) -> Result<(), Fail> {
    fs::create_dir(&rt, "again")?;
    let mut store = FolderStore::new(&rt, rt.alloc(), "again")?;
    put(&mut store, 7, b"first")?;
    fs::hard_link(&rt, "again/7", "again/linked")?;
    put(&mut store, 7, b"second")?;
    assert_eq!(rt; fs::read(&rt, "again/7")?.as_slice(), b"second".as_slice());
    assert_eq!(rt;
        fs::read(&rt, "again/linked")?.as_slice(),
        b"first".as_slice()
    );
    fs::remove_dir_all(&rt, "again")?;
    Ok(())
}

#[test]
fn links_in_the_way_are_not_followed(rt: HostRuntime) -> Result<(), Fail> {
    fs::create_dir(&rt, "links")?;
    fs::write(&rt, "links/target", "kept")?;
    symlink(&rt, "target", "links/.7.part")?;
    symlink(&rt, "target", "links/8")?;
    let mut store = FolderStore::new(&rt, rt.alloc(), "links")?;
    put(&mut store, 7, b"first")?;
    put(&mut store, 8, b"second")?;
    assert_eq!(rt; fs::read(&rt, "links/7")?.as_slice(), b"first".as_slice());
    assert_eq!(rt; fs::read(&rt, "links/8")?.as_slice(), b"second".as_slice());
    assert_eq!(rt;
        fs::read(&rt, "links/target")?.as_slice(),
        b"kept".as_slice()
    );
    fs::remove_dir_all(&rt, "links")?;
    Ok(())
}

#[test]
fn folders_in_the_way_are_faults(rt: HostRuntime) -> Result<(), Fail> {
    fs::create_dir_all(&rt, "folders/7")?;
    fs::create_dir_all(&rt, "folders/.8.part")?;
    let mut store = FolderStore::new(&rt, rt.alloc(), "folders")?;
    assert!(rt; put(&mut store, 7, b"lost").is_err());
    assert!(rt; !has(&rt, "folders/.7.part"));
    assert!(rt; put(&mut store, 8, b"lost").is_err());
    assert!(rt; !has(&rt, "folders/8"));
    put(&mut store, 9, b"kept")?;
    assert_eq!(rt; fs::read(&rt, "folders/9")?.as_slice(), b"kept".as_slice());
    fs::remove_dir_all(&rt, "folders")?;
    Ok(())
}
