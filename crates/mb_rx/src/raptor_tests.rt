//! `receive` with files under Raptor, over tables that its words name.
use crate::receive_tests::*;
use mb_base::{Memory, put_be16, put_be32};
use std::alloc::Global;
use std::process::Abort;
use std::test::Fail;
use std::thread::Threads;

const WITH_TABLES: [&str; 4] = ["--tsi", "1", "--tables", "t"];

/// A file of one block of 4 symbols of 4 bytes.
const ONE_BLOCK: &str =
    "<File Content-Location=\"a.bin\" TOI=\"5\" Content-Length=\"16\" FEC-OTI-FEC-Encoding-ID=\"1\" FEC-OTI-Encoding-Symbol-Length=\"4\" FEC-OTI-Scheme-Specific-Info=\"AAEBBA==\"/>\n";

/// A file of one block of 4 symbols of 8 bytes, in two sub-blocks.
const SUB_BLOCKS: &str =
    "<File Content-Location=\"a.bin\" TOI=\"5\" Content-Length=\"25\" FEC-OTI-FEC-Encoding-ID=\"1\" FEC-OTI-Encoding-Symbol-Length=\"8\" FEC-OTI-Scheme-Specific-Info=\"AAECBA==\"/>\n";

/// A file of a block of 5 symbols of 4 bytes and one of 4.
const TWO_SIZES: &str =
    "<File Content-Location=\"a.bin\" TOI=\"5\" Content-Length=\"35\" FEC-OTI-FEC-Encoding-ID=\"1\" FEC-OTI-Encoding-Symbol-Length=\"4\" FEC-OTI-Scheme-Specific-Info=\"AAIBBA==\"/>\n";

const ONE: (u64, Sent<'static>) = (NOW, Sent::Text(&[HEAD, ONE_BLOCK, END]));

const FILE16: File<'static> = (5, "a.bin", b"abcdefghijklmnop");

const STORED16: &str = "stored 5 16 a.bin";

/// The encoding symbols of `ONE_BLOCK` with the ESIs 4 to 7.
const SYMBOL4: (u64, Sent<'static>) = (NOW, Sent::Raptor(4, b"abcd"));

const SYMBOL5: (u64, Sent<'static>) = (NOW, Sent::Raptor(5, &[4, 4, 4, 12]));

const SYMBOL6: (u64, Sent<'static>) = (NOW, Sent::Raptor(6, &[8, 8, 8, 24]));

const SYMBOL7: (u64, Sent<'static>) = (NOW, Sent::Raptor(7, &[4, 4, 4, 28]));

/// Tables with rows of the block sizes 4 and 5. Number i of V0 is 70001·i, for which both are usable, or all numbers are
/// 0, for which each symbol is the first source symbol.
fn tables_of(alloc: Global, is_zero: bool) -> Result<Vec<u8>, Memory> {
    let mut file = b"RAPTAB01".to_vec(alloc)?;
    for i in 0..256 {
        put_be32(&mut file, if is_zero { 0 } else { 70_001 * i })?;
    }
    for _ in 0..256 {
        put_be32(&mut file, 0)?;
    }
    for number in [2, 4, 0, 5, 17, 5, 19, 5, 17] {
        put_be16(&mut file, number)?;
    }
    Ok(file)
}

const CASES: [Case<'static>; 8] = [
    // Four symbols that determine the others, in any order, and each twice.
    (
        &[ONE, SYMBOL4, SYMBOL5, SYMBOL6, SYMBOL7],
        &[FDT1, STORED16, "end ended 3899999000 datagrams 5"],
        0,
        &[FILE16],
    ),
    (
        &[
            ONE, SYMBOL7, SYMBOL7, SYMBOL6, SYMBOL6, SYMBOL5, SYMBOL5, SYMBOL4, SYMBOL4,
        ],
        &[
            FDT1,
            STORED16,
            "end ended 3899999000 datagrams 9",
            "dropped done 1",
        ],
        0,
        &[FILE16],
    ),
    // Of these the last two follow from the first two.
    (
        &[ONE, (NOW, Sent::Raptor(0, b"abcdefgh")), SYMBOL4, SYMBOL5],
        &[FDT1, "end ended 3899999000 datagrams 4", "incomplete 5 2"],
        1,
        &[],
    ),
    (
        &[ONE, SYMBOL5, SYMBOL6],
        &[FDT1, "end ended 3899999000 datagrams 3", "incomplete 5 2"],
        1,
        &[],
    ),
    // A packet past the last ESI, and one across the last source symbol.
    (
        &[
            ONE,
            (NOW, Sent::Raptor(65_535, b"abcdefgh")),
            (NOW, Sent::Raptor(3, b"mnopabcd")),
            (NOW, Sent::Raptor(1, b"efghijkl")),
        ],
        &[
            FDT1,
            STORED16,
            "end ended 3899999000 datagrams 4",
            "dropped symbol 1",
        ],
        0,
        &[FILE16],
    ),
    // Two sub-blocks: the sum of the first two symbols, the first one, and the others.
    (
        &[
            (NOW, Sent::Text(&[HEAD, SUB_BLOCKS, END])),
            (NOW, Sent::Raptor(5, &[4; 8])),
            (NOW, Sent::Raptor(4, &[0, 1, 2, 3, 16, 17, 18, 19])),
            (
                NOW,
                Sent::Raptor(2, &[8, 9, 10, 11, 24, 0, 0, 0, 12, 13, 14, 15, 0, 0, 0, 0]),
            ),
        ],
        &[
            FDT1,
            "stored 5 25 a.bin",
            "end ended 3899999000 datagrams 4",
        ],
        0,
        &[(
            5,
            "a.bin",
            &[
                0, 1, 2, 3, 4, 5, 6, 7, 8, 9, 10, 11, 12, 13, 14, 15, 16, 17, 18, 19, 20, 21, 22,
                23, 24,
            ],
        )],
    ),
    // Blocks of two sizes. The last symbol of the second one is as long as the file goes.
    (
        &[
            (NOW, Sent::Text(&[HEAD, TWO_SIZES, END])),
            (NOW, Sent::Raptor(0x1_0004, b"uvwx")),
            (NOW, Sent::Raptor(0, b"abcdefghijklmnopqrst")),
            (NOW, Sent::Raptor(0x1_0003, b"678")),
            (NOW, Sent::Raptor(0x1_0006, &[0x4f, 0x4d, 8, 0x31])),
            (NOW, Sent::Raptor(0x1_0007, &[4, 4, 12, 0x35])),
        ],
        &[
            FDT1,
            "stored 5 35 a.bin",
            "end ended 3899999000 datagrams 6",
        ],
        0,
        &[(5, "a.bin", b"abcdefghijklmnopqrstuvwxyz012345678")],
    ),
    // Compact No-Code stands beside.
    (
        &[FDT, HELLO],
        &[FDT1, STORED, "end ended 3899999000 datagrams 2"],
        0,
        &[FILE],
    ),
];

#[test]
fn files_under_raptor_are_stored(rt: HostRuntime) -> Result<(), Fail> {
    let tables = tables_of(rt.alloc(), false)?;
    for (sent, printed, status, files) in &CASES {
        let trace = trace_of(&rt, rt.alloc(), sent)?;
        let left = received_with(&rt, &WITH_TABLES, (&tables, &[]), &trace, [&[], &[], &[]])?;
        assert_left(&rt, &left, printed, *status, files)?;
    }
    Ok(())
}

/// The first bytes of the tables, the failing calls of their source and of the sink, then what is printed, and the
/// status.
type Refused<'a> = (usize, [&'a [u64]; 2], &'a [&'a str], u8);

const REFUSED: [Refused<'static>; 5] = [
    (7, [&[], &[]], &["tables 2 7"], 3),
    (8, [&[], &[]], &["tables 2 8"], 3),
    (2_073, [&[], &[]], &["tables 2 2073"], 3),
    (8, [&[], &[1]], &[], 8),
    (2_074, [&[3], &[]], &[], 5),
];

#[test]
fn tables_that_are_not_read_end_the_call(rt: HostRuntime) -> Result<(), Fail> {
    let tables = tables_of(rt.alloc(), false)?;
    for (size, failing, printed, status) in REFUSED {
        let [of_tables, of_sink] = failing;
        let bytes = tables.get(..size).expect(&rt, "the file is as long");
        // The trace is not read.
        let left = received_with(
            &rt,
            &WITH_TABLES,
            (bytes, of_tables),
            &CUT,
            [&[], of_sink, &[]],
        )?;
        assert_left(&rt, &left, printed, status, &[])?;
    }
    Ok(())
}

#[test]
fn a_file_needs_rows_that_determine_it(rt: HostRuntime) -> Result<(), Fail> {
    let sent = [ONE, (NOW, Sent::Raptor(0, b"abcdefghijklmnop"))];
    let trace = trace_of(&rt, rt.alloc(), &sent)?;
    // Without tables no block size has a row.
    let left = received(&rt, &TSI_1, &trace, [&[], &[], &[]])?;
    let norow = [
        "fdt 1 started 0 prolonged 0 conflicting 0 refused 0 norow 1 full 0",
        "end ended 3899999000 datagrams 2",
        "dropped unknown 1",
    ];
    assert_left(&rt, &left, &norow, 0, &[])?;
    let zero = tables_of(rt.alloc(), true)?;
    let left = received_with(&rt, &WITH_TABLES, (&zero, &[]), &trace, [&[], &[], &[]])?;
    let missing = [FDT1, "end ended 3899999000 datagrams 2", "incomplete 5 3"];
    assert_left(&rt, &left, &missing, 1, &[])?;
    Ok(())
}
