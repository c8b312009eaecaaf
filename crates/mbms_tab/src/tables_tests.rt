//! What `tab` makes of tables: files that are checked, refused and made.
use crate::tests::{Narrow, assert_left, called, left_by};
use mb_base::{MemSource, Memory};
use std::alloc::Global;
use std::process::Abort;
use std::test::Fail;
use std::thread::Threads;

const CHECK: [&str; 1] = ["check"];

/// A file with multiples of a number as V0, zeros as V1, and rows.
fn file_of(alloc: Global, factor: u32, rows: &[u8], count: u8) -> Result<Vec<u8>, Memory> {
    let mut bytes = Vec::new(alloc);
    bytes.extend_from_slice(b"RAPTAB01")?;
    for i in 0..256u32 {
        bytes.extend_from_slice(&factor.wrapping_mul(i).to_be_bytes())?;
    }
    for _ in 0..256 {
        bytes.extend_from_slice(&[0; 4])?;
    }
    bytes.extend_from_slice(&[0, count])?;
    bytes.extend_from_slice(rows)?;
    Ok(bytes)
}

/// The row of K = 4, J = 0, S = 5 and L' = 17.
const ROW: [u8; 8] = [0, 4, 0, 0, 0, 5, 0, 17];

#[test]
fn rows_are_usable_or_not(rt: HostRuntime) -> Result<(), Fail> {
    let cases: [(u32, &[u8], u8, &[&str]); 3] = [
        (70_001, &ROW, 1, &["row 4 0 5 17 usable"]),
        (0, &ROW, 1, &["row 4 0 5 17 unusable"]),
        (70_001, &[], 0, &[]),
    ];
    for (factor, rows, count, printed) in cases {
        let file = file_of(rt.alloc(), factor, rows, count)?;
        let left = left_by(&rt, &CHECK, &file, [&[], &[]])?;
        assert_left(&rt, &left, printed, 0)?;
    }
    Ok(())
}

#[test]
fn files_are_refused_by_the_line_of_their_fault(rt: HostRuntime) -> Result<(), Fail> {
    let cases: [(&[u8], u8, &str); 7] = [
        (&ROW[..7], 1, "tables 2 2065"),
        (&[0, 4, 0, 0, 0, 5, 0, 17, 0, 4], 2, "tables 3 1"),
        (&[0, 3, 0, 0, 0, 5, 0, 17], 1, "tables 4 0 0"),
        (&[0, 4, 0, 0, 0, 4, 0, 17], 1, "tables 4 0 2"),
        (
            &[0, 4, 0, 0, 0, 5, 0, 17, 0, 5, 0, 0, 0, 5, 0, 1],
            2,
            "tables 4 1 3",
        ),
        (&[0, 4, 0, 0, 0, 5, 0, 17, 0], 1, "tables 5"),
        (&ROW, 0, "tables 5"),
    ];
    for (rows, count, line) in cases {
        let file = file_of(rt.alloc(), 70_001, rows, count)?;
        let left = left_by(&rt, &CHECK, &file, [&[], &[]])?;
        assert_left(&rt, &left, &[line], 3)?;
        let left = left_by(&rt, &CHECK, &file, [&[], &[1]])?;
        assert_left(&rt, &left, &[], 8)?;
    }
    for (bytes, line) in [
        (b"RAPTAB00".as_slice(), "tables 1"),
        (b"".as_slice(), "tables 2 0"),
    ] {
        let left = left_by(&rt, &CHECK, bytes, [&[], &[]])?;
        assert_left(&rt, &left, &[line], 3)?;
    }
    Ok(())
}

/// The file that is made for these block sizes.
fn made<R: Threads + Sync + AllocGlobal + Abort>(
    rt: &R,
    words: &[&str],
) -> Result<Vec<u8>, Memory> {
    let left = left_by(rt, words, b"unread", [&[], &[]])?;
    assert_eq!(rt; left.status.number(), 0);
    left.out.written().to_vec(rt.alloc()).map_err(Memory::from)
}

#[test]
fn made_tables_are_usable(rt: HostRuntime) -> Result<(), Fail> {
    let four = made(&rt, &["make", "0004"])?;
    assert_eq!(rt; four.len(), 2_066);
    assert_eq!(rt; &four[2_058..], [0, 4, 0, 1, 0, 5, 0, 15].as_slice());
    // The J are those that a plain elimination in another language finds.
    let file = made(&rt, &["make", "4", "5", "10", "100"])?;
    let left = left_by(&rt, &CHECK, &file, [&[], &[]])?;
    let printed = [
        "row 4 1 5 15 usable",
        "row 5 4 5 15 usable",
        "row 10 0 7 23 usable",
        "row 100 2 17 127 usable",
    ];
    assert_left(&rt, &left, &printed, 0)?;
    assert_eq!(rt; left.told, Some((4, 4)));
    Ok(())
}

/// The file of 70 rows, K from 4 on.
fn long_file(alloc: Global) -> Result<Vec<u8>, Memory> {
    let mut rows = Vec::new(alloc);
    for k in 4..74u8 {
        rows.extend_from_slice(&[0, k, 0, 0, 0, 21, 0, k + 41])?;
    }
    file_of(alloc, 0, &rows, 70)
}

#[test]
fn lines_come_in_the_order_of_the_rows(rt: HostRuntime) -> Result<(), Fail> {
    let alloc = rt.alloc();
    let file = long_file(alloc)?;
    let mut lines = String::new(alloc);
    for k in 4..74u8 {
        write!(lines, "row {k} 0 21 {} unusable\n", k + 41)?;
    }
    let left = left_by(&rt, &CHECK, &file, [&[], &[]])?;
    assert!(rt; left.out.written() == lines.as_bytes());
    assert_eq!(rt; left.told, Some((70, 70)));
    // The first 64 lines are printed before the other rows are looked at.
    let left = left_by(&rt, &CHECK, &file, [&[], &[2]])?;
    assert_eq!(rt; left.status.number(), 8);
    assert!(rt; lines.as_bytes().starts_with(left.out.written()));
    assert_eq!(rt; left.told, Some((64, 70)));
    Ok(())
}

#[test]
fn a_fault_ends_check_and_make(rt: HostRuntime) -> Result<(), Fail> {
    let file = file_of(rt.alloc(), 70_001, &ROW, 1)?;
    let left = left_by(&rt, &CHECK, &file, [&[3], &[]])?;
    assert_left(&rt, &left, &[], 5)?;
    let left = left_by(&rt, &CHECK, &file, [&[], &[1]])?;
    assert_left(&rt, &left, &[], 8)?;
    let left = left_by(&rt, &["make", "4"], b"", [&[1], &[1]])?;
    assert_left(&rt, &left, &[], 8)?;
    // A sink that fills up has the beginning of the file.
    let mut src = MemSource::new(Vec::new(rt.alloc()), Vec::new(rt.alloc()))?;
    let mut out = Narrow {
        bytes: Vec::new(rt.alloc()),
        room: 9,
        faults: 0,
    };
    let (status, _) = called(&rt, &["make", "4"], &mut src, &mut out)?;
    assert_eq!(rt; status.number(), 8);
    assert_eq!(rt; out.bytes.as_slice(), b"RAPTAB01\x51".as_slice());
    Ok(())
}
