//! Which datagrams are heard, which are dropped and why, and which close the session.
use super::*;
use crate::receive_tests::*;
use mb_base::Memory;
use std::process::Abort;
use std::test::Fail;
use std::thread::Threads;

const LATE: &str = "fdt 1 late";

const DROPPED: [Case<'static>; 10] = [
    (
        &[FDT, HELLO, HELLO],
        &[
            FDT1,
            STORED,
            "end ended 3899999000 datagrams 3",
            "dropped done 1",
        ],
        0,
        &[FILE],
    ),
    (
        &[HELLO, FDT, (NOW, Sent::Symbol(1, 6, 0, b"hello")), HELLO],
        &[
            FDT1,
            STORED,
            "end ended 3899999000 datagrams 4",
            "dropped unknown 2",
        ],
        0,
        &[FILE],
    ),
    (
        &[FDT, HELLO, (NOW, Sent::Symbol(2, 5, 0, b"hello"))],
        &[
            FDT1,
            STORED,
            "end ended 3899999000 datagrams 3",
            "dropped othersession 1",
        ],
        0,
        &[FILE],
    ),
    (
        &[
            JUNK,
            FDT,
            HELLO,
            HELLO,
            (NOW, Sent::Symbol(1, 6, 0, b"hello")),
            (NOW, Sent::Symbol(2, 5, 0, b"hello")),
        ],
        &[
            FDT1,
            STORED,
            "end ended 3899999000 datagrams 6",
            "dropped short 1",
            "dropped othersession 1",
            "dropped unknown 1",
            "dropped done 1",
        ],
        0,
        &[FILE],
    ),
    // What is no symbol of the object: another block, another symbol, and too few bytes.
    (
        &[
            FDT,
            (NOW, Sent::Symbol(1, 5, 0x1_0000, b"hello")),
            (NOW, Sent::Symbol(1, 5, 1, b"hello")),
            (NOW, Sent::Symbol(1, 5, 0, b"hell")),
            (NOW, Sent::Symbol(1, 5, 0, b"")),
        ],
        &[
            FDT1,
            "end ended 3899999000 datagrams 5",
            "dropped block 1",
            "dropped symbol 1",
            "dropped length 2",
            "incomplete 5 1",
        ],
        1,
        &[],
    ),
    // The bytes behind the file's last one are none of it.
    (
        &[FDT, (NOW, Sent::Symbol(1, 5, 0, b"hello!"))],
        &[FDT1, STORED, "end ended 3899999000 datagrams 2"],
        0,
        &[FILE],
    ),
    (
        &[FDT, FDT, HELLO],
        &[
            FDT1,
            STORED,
            "end ended 3899999000 datagrams 3",
            "dropped done 1",
        ],
        0,
        &[FILE],
    ),
    // An instance stands in the second in which it expires, and no longer.
    (
        &[(EXPIRES, WHOLE), HELLO],
        &[FDT1, STORED, "end ended 3900000000 datagrams 2"],
        0,
        &[FILE],
    ),
    (
        &[(EXPIRES + 1, WHOLE), HELLO],
        &[
            LATE,
            "end ended 3900000001 datagrams 2",
            "dropped unknown 1",
        ],
        0,
        &[],
    ),
    (
        &[(EXPIRES + 1, BYTE), FDT],
        &[LATE, "end ended 3900000001 datagrams 2", "dropped short 1"],
        0,
        &[],
    ),
];

#[test]
fn each_dropped_datagram_has_its_reason(rt: HostRuntime) -> Result<(), Fail> {
    assert_cases(&rt, &DROPPED)?;
    Ok(())
}

/// A datagram for each kind of fault, the last kind first.
const FAULTY: [&[u8]; 10] = [
    &[0x10, 0xa0, 4, 0, 0, 0, 0, 0, 0, 0, 0, 1, 0, 0, 0, 5, 0],
    &[0x10, 0xa0, 4, 2, 0, 0, 0, 0, 0, 0, 0, 1, 0, 0, 0, 5],
    &[
        0x10, 0xa0, 5, 0, 0, 0, 0, 0, 0, 0, 0, 1, 0, 0, 0, 5, 0xc0, 0x20, 0, 1,
    ],
    &[
        0x10, 0xa0, 5, 0, 0, 0, 0, 0, 0, 0, 0, 1, 0, 0, 0, 5, 0x40, 1, 0, 0,
    ],
    &[
        0x10, 0xa0, 5, 0, 0, 0, 0, 0, 0, 0, 0, 1, 0, 0, 0, 5, 0x40, 0, 0, 0,
    ],
    &[
        0x10, 0xa0, 5, 0, 0, 0, 0, 0, 0, 0, 0, 1, 0, 0, 0, 5, 0x40, 4, 0, 0,
    ],
    &[0x10, 0x20, 3, 0, 0, 0, 0, 0, 0, 0, 0, 5],
    &[0x10, 0xa0, 3, 0, 0, 0, 0, 0, 0, 0, 0, 1, 0, 0, 0, 5],
    &[0x20, 0xa0, 4, 0, 0, 0, 0, 0, 0, 0, 0, 1, 0, 0, 0, 5],
    &[0x10, 0xa0],
];

#[test]
fn each_fault_has_its_line_in_order(rt: HostRuntime) -> Result<(), Fail> {
    let sent = FAULTY.map(|bytes| (NOW, Sent::Bytes(bytes)));
    let trace = trace_of(&rt, rt.alloc(), &sent)?;
    let left = received(&rt, &TSI_1, &trace, [&[], &[], &[]])?;
    let printed = [
        "end ended 3899999000 datagrams 10",
        "dropped short 1",
        "dropped version 1",
        "dropped headerlength 1",
        "dropped notsi 1",
        "dropped overrun 1",
        "dropped zerolength 1",
        "dropped ftilength 1",
        "dropped fluteversion 1",
        "dropped codepoint 1",
        "dropped nopayloadid 1",
    ];
    assert_left(&rt, &left, &printed, 0, &[])?;
    Ok(())
}

/// Header alone, with Close Session, of the session.
const CLOSE: (u64, Sent<'static>) = (
    NOW,
    Sent::Bytes(&[0x10, 0x82, 3, 0, 0, 0, 0, 0, 0, 0, 0, 1]),
);

/// The same of another session.
const CLOSE_OTHER: (u64, Sent<'static>) = (
    NOW,
    Sent::Bytes(&[0x10, 0x82, 3, 0, 0, 0, 0, 0, 0, 0, 0, 2]),
);

/// The file, in a packet with Close Session.
const CLOSING_HELLO: (u64, Sent<'static>) = (
    NOW,
    Sent::Bytes(&[
        0x10, 0xa2, 4, 0, 0, 0, 0, 0, 0, 0, 0, 1, 0, 0, 0, 5, 0, 0, 0, 0, 0x68, 0x65, 0x6c, 0x6c,
        0x6f,
    ]),
);

/// The file, in a packet with Close Object.
const ENDING_HELLO: (u64, Sent<'static>) = (
    NOW,
    Sent::Bytes(&[
        0x10, 0xa1, 4, 0, 0, 0, 0, 0, 0, 0, 0, 1, 0, 0, 0, 5, 0, 0, 0, 0, 0x68, 0x65, 0x6c, 0x6c,
        0x6f,
    ]),
);

/// The file, in a packet whose TSI and TOI have 16 bits each.
const SHORT_HELLO: (u64, Sent<'static>) = (
    NOW,
    Sent::Bytes(&[
        0x10, 0x10, 3, 0, 0, 0, 0, 0, 0, 1, 0, 5, 0, 0, 0, 0, 0x68, 0x65, 0x6c, 0x6c, 0x6f,
    ]),
);

/// The file, in a packet with a CCI of four words, a TSI of 48 bits, a TOI of 112 bits, both times and an EXT_NOP.
const LONG_HELLO: (u64, Sent<'static>) = (
    NOW,
    Sent::Bytes(&[
        0x1c, 0xfc, 13, 0, 9, 9, 9, 9, 9, 9, 9, 9, 9, 9, 9, 9, 9, 9, 9, 9, 0, 0, 0, 0, 0, 1, 0, 0,
        0, 0, 0, 0, 0, 0, 0, 0, 0, 0, 0, 5, 9, 9, 9, 9, 9, 9, 9, 9, 0, 1, 9, 9, 0, 0, 0, 0, 0x68,
        0x65, 0x6c, 0x6c, 0x6f,
    ]),
);

/// The file under code point 1, and with an EXT_FTI.
const CODED_HELLO: (u64, Sent<'static>) = (
    NOW,
    Sent::Bytes(&[
        0x10, 0xa0, 4, 1, 0, 0, 0, 0, 0, 0, 0, 1, 0, 0, 0, 5, 0, 0, 0, 0, 0x68, 0x65, 0x6c, 0x6c,
        0x6f,
    ]),
);

const EXTENDED_HELLO: (u64, Sent<'static>) = (
    NOW,
    Sent::Bytes(&[
        0x10, 0xa0, 8, 0, 0, 0, 0, 0, 0, 0, 0, 1, 0, 0, 0, 5, 0x40, 4, 0, 0, 0, 0, 0, 5, 0, 0, 5,
        0x78, 0, 0, 0, 0x40, 0, 0, 0, 0, 0x68, 0x65, 0x6c, 0x6c, 0x6f,
    ]),
);

/// The file with an EXT_FTI of another length.
const OTHER_HELLO: (u64, Sent<'static>) = (
    NOW,
    Sent::Words(
        &[0x10a0_0800, 0, 1, 5, 0x4004_0000, 6, 1400, 64, 0],
        b"hello",
    ),
);

/// A packet of an FDT Instance with no ID, one with no EXT_FTI, one that is encoded, and one of an empty text.
const UNNAMED_TEXT: (u64, Sent<'static>) = (NOW, Sent::Symbol(1, 0, 0, b"<"));

const UNSIZED_TEXT: (u64, Sent<'static>) = (
    NOW,
    Sent::Words(&[0x10a0_0500, 0, 1, 0, 0xc010_0002, 0], b"<"),
);

const ENCODED_TEXT: (u64, Sent<'static>) = (
    NOW,
    Sent::Words(
        &[
            0x10a0_0a00,
            0,
            1,
            0,
            0xc010_0002,
            0xc101_0000,
            0x4004_0000,
            1,
            1400,
            64,
            0,
        ],
        b"<",
    ),
);

const EMPTY_TEXT: (u64, Sent<'static>) = (
    NOW,
    Sent::Words(
        &[
            0x10a0_0900,
            0,
            1,
            0,
            0xc010_0002,
            0x4004_0000,
            0,
            1400,
            64,
            0,
        ],
        b"<",
    ),
);

/// A packet with no TOI and one with no body.
const NO_TOI: (u64, Sent<'static>) = (
    NOW,
    Sent::Bytes(&[0x10, 0x80, 3, 0, 0, 0, 0, 0, 0, 0, 0, 1, 0, 0, 0, 0, 7]),
);

const NO_BODY: (u64, Sent<'static>) = (
    NOW,
    Sent::Bytes(&[0x10, 0xa0, 4, 0, 0, 0, 0, 0, 0, 0, 0, 1, 0, 0, 0, 5]),
);

const PACKETS: [Case<'static>; 7] = [
    // What comes behind the closing packet is not taken, so that a broken end is not met.
    (
        &[FDT, HELLO, CLOSE, JUNK],
        &[
            FDT1,
            STORED,
            "end closed 3899999000 datagrams 3",
            "dropped notoi 1",
        ],
        0,
        &[FILE],
    ),
    (
        &[FDT, CLOSING_HELLO, HELLO],
        &[FDT1, STORED, "end closed 3899999000 datagrams 2"],
        0,
        &[FILE],
    ),
    (
        &[FDT, CLOSE_OTHER, ENDING_HELLO],
        &[
            FDT1,
            STORED,
            "end ended 3899999000 datagrams 3",
            "dropped othersession 1",
        ],
        0,
        &[FILE],
    ),
    (
        &[CLOSE, FDT, HELLO],
        &["end closed 3899999000 datagrams 1", "dropped notoi 1"],
        0,
        &[],
    ),
    // The widths of the header do not matter.
    (
        &[FDT, SHORT_HELLO, LONG_HELLO],
        &[
            FDT1,
            STORED,
            "end ended 3899999000 datagrams 3",
            "dropped done 1",
        ],
        0,
        &[FILE],
    ),
    (
        &[FDT, LONG_HELLO],
        &[FDT1, STORED, "end ended 3899999000 datagrams 2"],
        0,
        &[FILE],
    ),
    (
        &[
            FDT,
            CODED_HELLO,
            OTHER_HELLO,
            EXTENDED_HELLO,
            NO_TOI,
            NO_BODY,
            UNNAMED_TEXT,
            UNSIZED_TEXT,
            ENCODED_TEXT,
            EMPTY_TEXT,
        ],
        &[
            FDT1,
            STORED,
            "end ended 3899999000 datagrams 10",
            "dropped notoi 1",
            "dropped nobody 1",
            "dropped fdtwithoutids 2",
            "dropped fdtencoded 1",
            "dropped fdtshape 1",
            "dropped ftidiffers 1",
            "dropped codepointdiffers 1",
        ],
        0,
        &[FILE],
    ),
];

#[test]
fn packets_of_every_width_are_heard_and_close_the_session(rt: HostRuntime) -> Result<(), Fail> {
    assert_cases(&rt, &PACKETS)?;
    let mut trace = trace_of(&rt, rt.alloc(), &[FDT, CLOSING_HELLO])?;
    trace.extend_from_slice(&CUT)?;
    let left = received(&rt, &TSI_1, &trace, [&[], &[], &[]])?;
    let printed = [FDT1, STORED, "end closed 3899999000 datagrams 2"];
    assert_left(&rt, &left, &printed, 0, &[FILE])?;
    Ok(())
}
