//! What `receive` makes of the texts of FDT Instances.
use crate::receive_tests::*;
use std::test::Fail;

/// An entry without a location.
const UNPLACED: &str =
    "<File TOI=\"5\" Content-Length=\"5\" Transfer-Length=\"5\" FEC-OTI-FEC-Encoding-ID=\"0\" FEC-OTI-Maximum-Source-Block-Length=\"64\" FEC-OTI-Encoding-Symbol-Length=\"1400\"/>\n";

/// A file of two symbols.
const LONGER: &str =
    "<File Content-Location=\"a\" TOI=\"6\" Content-Length=\"5\" FEC-OTI-FEC-Encoding-ID=\"0\" FEC-OTI-Maximum-Source-Block-Length=\"64\" FEC-OTI-Encoding-Symbol-Length=\"4\"/>\n";

/// An empty file.
const EMPTY: &str =
    "<File Content-Location=\"a\" TOI=\"6\" Content-Length=\"0\" FEC-OTI-FEC-Encoding-ID=\"0\" FEC-OTI-Maximum-Source-Block-Length=\"64\" FEC-OTI-Encoding-Symbol-Length=\"4\"/>\n";

/// The file "abcd" with its digest.
const DIGESTED: &str =
    "<File Content-Location=\"a\" TOI=\"6\" Content-Length=\"4\" Content-MD5=\"4vxxTEcn7pOV8yTNLn8zHw==\" FEC-OTI-FEC-Encoding-ID=\"0\" FEC-OTI-Maximum-Source-Block-Length=\"64\" FEC-OTI-Encoding-Symbol-Length=\"4\"/>\n";

/// A file under Raptor.
const RAPTOR: &str =
    "<File Content-Location=\"a\" TOI=\"6\" Content-Length=\"16\" FEC-OTI-FEC-Encoding-ID=\"1\" FEC-OTI-Encoding-Symbol-Length=\"4\" FEC-OTI-Scheme-Specific-Info=\"AAEBBA==\"/>\n";

/// The same file as that of `ENTRY`, otherwise written.
const FOREIGN: &str =
    "<!-- a file --><b:File note='&lt;' TOI=' 005\t' Content-Location='hello&#46;txt' Content-Length='5'><c/>text</b:File>";

/// A root that says what its files lack.
const FOREIGN_HEAD: &str =
    "\u{feff}<b:FDT-Instance xmlns:b='b' Complete='1' FEC-OTI-FEC-Encoding-ID='0' FEC-OTI-Maximum-Source-Block-Length='64' FEC-OTI-Encoding-Symbol-Length='1400' Expires='3900000000'>";

const OTHER_END: &str = "</b:FDT-Instance >";

/// The head of an instance that expires a second before.
const EXPIRED: &str = "<FDT-Instance Expires=\"3899998999\">";

const REFUSED: &str = "fdt 1 started 0 prolonged 0 conflicting 0 refused 1 norow 0 full 0";

const BOTH: &str = "fdt 1 started 1 prolonged 0 conflicting 0 refused 1 norow 0 full 0";

const STARTED_2: &str = "fdt 1 started 2 prolonged 0 conflicting 0 refused 0 norow 0 full 0";

const ONE_DATAGRAM: &str = "end ended 3899999000 datagrams 1";

const TWO_DATAGRAMS: &str = "end ended 3899999000 datagrams 2";

const THREE_DATAGRAMS: &str = "end ended 3899999000 datagrams 3";

const LATE: &str = "fdt 1 late";

const READ: [Case<'static>; 5] = [
    // An entry that is refused leaves the others.
    (
        &[(NOW, Sent::Text(&[HEAD, UNPLACED, END])), HELLO],
        &[REFUSED, TWO_DATAGRAMS, "dropped unknown 1"],
        0,
        &[],
    ),
    (
        &[(NOW, Sent::Text(&[HEAD, UNPLACED, ENTRY, END])), HELLO],
        &[BOTH, STORED, TWO_DATAGRAMS],
        0,
        &[FILE],
    ),
    (
        &[
            (NOW, Sent::Text(&[FOREIGN_HEAD, FOREIGN, OTHER_END])),
            HELLO,
        ],
        &[FDT1, STORED, TWO_DATAGRAMS],
        0,
        &[FILE],
    ),
    // No other text comes under the ID of an instance that was read.
    (
        &[FDT, (NOW, Sent::Text(&["<"])), HELLO],
        &[FDT1, STORED, THREE_DATAGRAMS, "dropped ftidiffers 1"],
        0,
        &[FILE],
    ),
    // A text of two symbols, in any order.
    (
        &[(NOW, Sent::Half(1)), (NOW, Sent::Half(0)), HELLO],
        &[FDT1, STORED, THREE_DATAGRAMS],
        0,
        &[FILE],
    ),
];

const FILES: [Case<'static>; 6] = [
    // A file of two symbols, one by one or in one packet.
    (
        &[
            (NOW, Sent::Text(&[HEAD, ENTRY, LONGER, END])),
            (NOW, Sent::Symbol(1, 6, 1, b"e")),
            (NOW, Sent::Symbol(1, 6, 0, b"abcd")),
        ],
        &[STARTED_2, "stored 6 5 a", THREE_DATAGRAMS, "incomplete 5 1"],
        1,
        &[(6, "a", b"abcde")],
    ),
    (
        &[
            (NOW, Sent::Text(&[HEAD, LONGER, END])),
            (NOW, Sent::Symbol(1, 6, 0, b"abcde")),
        ],
        &[FDT1, "stored 6 5 a", TWO_DATAGRAMS],
        0,
        &[(6, "a", b"abcde")],
    ),
    (
        &[
            (NOW, Sent::Text(&[HEAD, LONGER, END])),
            (NOW, Sent::Symbol(1, 6, 1, b"e")),
        ],
        &[FDT1, TWO_DATAGRAMS, "incomplete 6 1"],
        1,
        &[],
    ),
    // An empty file is there at once.
    (
        &[(NOW, Sent::Text(&[HEAD, ENTRY, EMPTY, END]))],
        &[STARTED_2, "stored 6 0 a", ONE_DATAGRAM, "incomplete 5 1"],
        1,
        &[(6, "a", b"")],
    ),
    // A damaged file waits for other symbols.
    (
        &[
            (NOW, Sent::Text(&[HEAD, DIGESTED, END])),
            (NOW, Sent::Symbol(1, 6, 0, b"abce")),
            (NOW, Sent::Symbol(1, 6, 0, b"abcd")),
        ],
        &[
            FDT1,
            "damaged 6 e2fc714c4727ee9395f324cd2e7f331f b9c4fe92c2a30ef69833ac8f53eebcec",
            "stored 6 4 a",
            THREE_DATAGRAMS,
        ],
        0,
        &[(6, "a", b"abcd")],
    ),
    (
        &[(NOW, Sent::Text(&[HEAD, RAPTOR, ENTRY, END]))],
        &[
            "fdt 1 started 1 prolonged 0 conflicting 0 refused 0 norow 1 full 0",
            ONE_DATAGRAM,
            "incomplete 5 1",
        ],
        1,
        &[],
    ),
];

const NOT_READ: [Case<'static>; 6] = [
    // A text with a fault leaves room for another.
    (
        &[
            (NOW, Sent::Text(&[HEAD, ENTRY, "</FDT-Instance"])),
            FDT,
            HELLO,
        ],
        &["fdt 1 fault 2 at 280", FDT1, STORED, THREE_DATAGRAMS],
        0,
        &[FILE],
    ),
    (
        &[
            (NOW, Sent::Text(&["<FDT-Instance Expires=\"1\"><![CDATA["])),
            (NOW, Sent::Text(&["<FDT-Instance/>"])),
        ],
        &["fdt 1 fault 3 at 26", "fdt 1 fault 5 at 0", TWO_DATAGRAMS],
        0,
        &[],
    ),
    (
        &[
            (
                NOW,
                Sent::Text(&[HEAD, "<a><a><a><a><a><a><a><a><a><a><a><a><a><a><a><a>"]),
            ),
            (NOW, Sent::Text(&["<FDT-Instance Expires='+1'/>"])),
        ],
        &["fdt 1 fault 4 at 120", "fdt 1 fault 6 at 0", TWO_DATAGRAMS],
        0,
        &[],
    ),
    (
        &[(
            NOW,
            Sent::Text(&["<FDT-Instance Expires='1' Expires='1'/>"]),
        )],
        &["fdt 1 fault 7 at 26", ONE_DATAGRAM],
        0,
        &[],
    ),
    // A late instance leaves room for another.
    (
        &[(NOW, Sent::Text(&[EXPIRED, ENTRY, END])), FDT, HELLO],
        &[LATE, FDT1, STORED, THREE_DATAGRAMS],
        0,
        &[FILE],
    ),
    (
        &[
            (NOW + 1, BYTE),
            (NOW, Sent::Text(&["<FDT-Instance Expires='3899999000'/>"])),
        ],
        &[LATE, "end ended 3899999001 datagrams 2", "dropped short 1"],
        0,
        &[],
    ),
];

#[test]
fn the_text_of_an_instance_is_read_or_its_fault_printed(rt: HostRuntime) -> Result<(), Fail> {
    assert_cases(&rt, &READ)?;
    assert_cases(&rt, &NOT_READ)?;
    Ok(())
}

#[test]
fn files_of_any_size_are_stored_and_damaged_ones_told(rt: HostRuntime) -> Result<(), Fail> {
    assert_cases(&rt, &FILES)?;
    Ok(())
}
