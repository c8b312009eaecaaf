//! The file of small tables, each fault at its place, and the limits of rows.
use crate::{AddFault, Row, Tables, TablesFault, make_row, read_tables, write_tables};
use mb_base::{MemSource, Memory, Source};
use std::alloc::Global;
use std::test::*;

/// The only row of the tables below.
const ROW: Row = Row {
    k: 4,
    j: 0,
    s: 5,
    lp: 17,
};

/// A file with V0[i] = 70001 i, V1[i] = 0, and these rows.
fn file(alloc: Global, rows: &[u8], count: u8) -> Result<Vec<u8>, Memory> {
    let mut bytes = Vec::new(alloc);
    bytes.extend_from_slice(b"RAPTAB01")?;
    for i in 0..256u32 {
        bytes.extend_from_slice(&(70_001 * i).to_be_bytes())?;
    }
    for _ in 0..256 {
        bytes.extend_from_slice(&[0; 4])?;
    }
    bytes.extend_from_slice(&[0, count])?;
    bytes.extend_from_slice(rows)?;
    Ok(bytes)
}

const ONE: [u8; 8] = [0, 4, 0, 0, 0, 5, 0, 0x11];

fn read(alloc: Global, bytes: Vec<u8>) -> Result<Tables, TablesFault> {
    let mut source = MemSource::new(bytes, Vec::new(alloc))?;
    read_tables(alloc, &mut source)
}

/// How the file with these rows is refused.
fn fault(alloc: Global, rows: &[u8], count: u8) -> Option<TablesFault> {
    match file(alloc, rows, count) {
        Ok(bytes) => read(alloc, bytes).err(),
        Err(_) => Some(TablesFault::Memory),
    }
}

/// How these bytes are refused.
fn fault_of(alloc: Global, bytes: &[u8]) -> Option<TablesFault> {
    let mut file = Vec::new(alloc);
    match file.extend_from_slice(bytes) {
        Ok(()) => read(alloc, file).err(),
        Err(_) => Some(TablesFault::Memory),
    }
}

#[test]
fn small_tables_are_read_and_written_back(rt: HostRuntime) -> Result<(), Fail> {
    let bytes = file(rt.alloc(), &ONE, 1).ok().ok_or("memory")?;
    assert_eq!(rt; bytes.len(), 2_066);
    let tables = read(rt.alloc(), bytes).ok().ok_or("the tables")?;
    assert_eq!(rt; [tables.row(4), tables.row(5)], [Some(ROW), None]);
    assert_eq!(rt; tables.rows(), [ROW].as_slice());
    assert_eq!(rt;
        [tables.v0(0), tables.v0(255), tables.v1(255)],
        [0, 17_850_255, 0]
    );
    let copy = tables.copy().ok().ok_or("memory")?;
    let mut written = Vec::new(rt.alloc());
    written.push(7).ok().ok_or("memory")?;
    write_tables(&copy, &mut written).ok().ok_or("memory")?;
    let again = file(rt.alloc(), &ONE, 1).ok().ok_or("memory")?;
    assert!(rt; written[1..] == again[..]);
    Ok(())
}

#[test]
fn a_row_is_added_to_tables_without_one(rt: HostRuntime) -> Result<(), Fail> {
    let bytes = file(rt.alloc(), &[], 0).ok().ok_or("memory")?;
    let mut tables = read(rt.alloc(), bytes).ok().ok_or("the tables")?;
    assert_eq!(rt; tables.add(ROW), Ok(()));
    assert_eq!(rt; tables.add(ROW), Err(AddFault::Order));
    let mut written = Vec::new(rt.alloc());
    write_tables(&tables, &mut written).ok().ok_or("memory")?;
    let wanted = file(rt.alloc(), &ONE, 1).ok().ok_or("memory")?;
    assert!(rt; written == wanted);
    Ok(())
}

#[test]
fn made_tables_have_the_numbers_of_the_generator(rt: HostRuntime) -> Result<(), Fail> {
    let tables = Tables::made(rt.alloc()).ok().ok_or("memory")?;
    assert_eq!(rt; [tables.v0(0), tables.v0(1)], [0x514e_28b7, 0x96a0_f96b]);
    assert_eq!(rt; tables.v1(255), 0xccb7_e704);
    assert!(rt; tables.rows().is_empty());
    Ok(())
}

#[test]
fn files_are_refused_at_the_first_fault(rt: HostRuntime) -> Result<(), Fail> {
    let out = TablesFault::Range;
    let cases: [(&[u8], u8, Option<TablesFault>); 12] = [
        (&ONE, 1, None),
        (&[], 1, Some(TablesFault::Truncated(2_058))),
        (
            &[0, 3, 0, 0, 0, 0, 0],
            1,
            Some(TablesFault::Truncated(2_065)),
        ),
        (&[0, 3, 0, 0, 0, 0, 0, 0], 1, Some(out(0, 0))),
        (&[0, 4, 0, 0, 0, 4, 0, 0], 1, Some(out(0, 2))),
        (&[0, 4, 0, 0, 0, 5, 0, 13], 1, Some(out(0, 3))),
        (&[0, 4, 0, 0, 0, 5, 0, 28], 1, Some(out(0, 3))),
        (&ONE, 0, Some(TablesFault::Trailing)),
        (
            &[0, 4, 0, 0, 0, 5, 0, 17, 0],
            2,
            Some(TablesFault::Truncated(2_067)),
        ),
        (
            &[0, 4, 0, 0, 0, 5, 0, 17, 0, 4],
            2,
            Some(TablesFault::Order(1)),
        ),
        (
            &[0, 4, 0, 0, 0, 5, 0, 17, 0, 3, 0, 0, 0, 0, 0, 0],
            2,
            Some(TablesFault::Order(1)),
        ),
        (
            &[0, 4, 0, 0, 0, 5, 0, 17, 0, 5, 0, 0, 2, 1, 0, 0],
            2,
            Some(out(1, 2)),
        ),
    ];
    for (rows, count, wanted) in cases {
        assert_eq!(rt; fault(rt.alloc(), rows, count), wanted);
    }
    assert_eq!(rt;
        fault_of(rt.alloc(), b"RAPTAB01"),
        Some(TablesFault::Truncated(8))
    );
    assert_eq!(rt;
        fault_of(rt.alloc(), b"RAP"),
        Some(TablesFault::Truncated(3))
    );
    assert_eq!(rt; fault_of(rt.alloc(), b"RAQ"), Some(TablesFault::Magic));
    Ok(())
}

#[test]
fn a_failing_source_is_told(rt: HostRuntime) -> Result<(), Fail> {
    let bytes = file(rt.alloc(), &ONE, 1).ok().ok_or("memory")?;
    let mut failing = Vec::new(rt.alloc());
    failing.push(3u64).ok().ok_or("memory")?;
    let mut source = MemSource::new(bytes, failing).ok().ok_or("memory")?;
    let first = read_tables(rt.alloc(), &mut source).err();
    assert_eq!(rt; first, Some(TablesFault::SourceFault));
    Ok(())
}

/// How the row is taken by tables that have none.
fn added(alloc: Global, k: u16, s: u16, lp: u16) -> Result<(), AddFault> {
    match Tables::none(alloc) {
        Ok(mut tables) => tables.add(Row { k, j: 0, s, lp }),
        Err(_) => Err(AddFault::Memory),
    }
}

#[test]
fn rows_are_taken_within_their_limits(rt: HostRuntime) -> Result<(), Fail> {
    let alloc = rt.alloc();
    // The least S and the most for K symbols, with L.
    for (k, s, l) in [
        (4, 5, 14),
        (4, 512, 528),
        (100, 16, 125),
        (100, 512, 624),
        (8_192, 211, 8_419),
        (8_192, 512, 8_720),
    ] {
        let past = if s == 512 { 513 } else { s - 1 };
        assert_eq!(rt; added(alloc, k, s, l), Ok(()));
        assert_eq!(rt; added(alloc, k, s, 2 * l - 1), Ok(()));
        assert_eq!(rt; added(alloc, k, s, l - 1), Err(AddFault::Range(3)));
        assert_eq!(rt; added(alloc, k, s, 2 * l), Err(AddFault::Range(3)));
        assert_eq!(rt; added(alloc, k, past, l), Err(AddFault::Range(2)));
    }
    for k in [0, 3, 8_193, 65_535] {
        assert_eq!(rt; added(alloc, k, 512, 8_720), Err(AddFault::Range(0)));
    }
    Ok(())
}

#[test]
fn rows_are_made_by_the_rule(rt: HostRuntime) -> Result<(), Fail> {
    let tables = Tables::none(rt.alloc()).ok().ok_or("memory")?;
    for (k, s, lp) in [(4, 5, 15), (10, 7, 23), (100, 17, 127), (8_192, 211, 8_419)] {
        assert_eq!(rt; make_row(&tables, k, 3), Row { k, j: 3, s, lp });
    }
    Ok(())
}
