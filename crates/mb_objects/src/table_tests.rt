//! A table that hears a file's symbols in any order, hands it out, and ends lives, with room for all of it.
use crate::{Happened, InstanceReport, Reason, Table, Taken};
use mb_alc::{Body, Exts, Fti, Packet};
use mb_base::OpenGate;
use mb_lct::Lct;
use mb_tables::Tables;
use std::alloc::Global;
use std::process::Abort;

/// An instance with two files of seven bytes, in blocks of two symbols and one.
const TEXT: &str =
    "<FDT-Instance Expires=\"100\" FEC-OTI-FEC-Encoding-ID=\"0\" FEC-OTI-Maximum-Source-Block-Length=\"2\" FEC-OTI-Encoding-Symbol-Length=\"3\" Content-Length=\"7\"><File TOI=\"5\" Content-Location=\"a\" Content-Length=\"7\"/><File TOI=\"6\" Content-Location=\"b\" Content-Length=\"7\"/></FDT-Instance>";

/// An instance with two files of five symbols, one under Raptor in one block, and one under Compact No-Code.
const RAPTOR_TEXT: &str =
    "<FDT-Instance Expires=\"100\" FEC-OTI-Encoding-Symbol-Length=\"4\"><File TOI=\"5\" Content-Location=\"a\" Content-Length=\"20\" FEC-OTI-FEC-Encoding-ID=\"1\" FEC-OTI-Scheme-Specific-Info=\"AAEBBA==\"/><File TOI=\"6\" Content-Location=\"b\" Content-Length=\"20\" FEC-OTI-FEC-Encoding-ID=\"0\" FEC-OTI-Maximum-Source-Block-Length=\"2\"/></FDT-Instance>";

/// An instance that did nothing.
const NOTHING: InstanceReport = InstanceReport {
    started: 0,
    prolonged: 0,
    conflicting: 0,
    refused: 0,
    norow: 0,
    full: 0,
};

/// A table that has heard nothing, whose tables have no row.
fn started(rt: &impl Abort, alloc: Global) -> Table {
    let tables = Tables::none(alloc).expect(rt, "memory");
    Table::new(alloc, 1, tables).expect(rt, "memory")
}

fn packet(toi: u128, exts: Exts, (sbn, esi): (u16, u16), payload: &[u8]) -> Packet<'_> {
    Packet {
        lct: Lct {
            tsi: 1,
            toi: Some(toi),
            close_session: false,
            close_object: false,
            cp: 0,
        },
        exts,
        body: Some(Body { sbn, esi, payload }),
    }
}

fn heard(rt: &impl Abort, table: &mut Table, at: u64, packet: &Packet<'_>) -> Happened {
    table.packet(at, packet).expect(rt, "memory")
}

/// Hears both symbols of an instance's text, the second one first.
fn describe(rt: &impl Abort, table: &mut Table, text: &str, report: InstanceReport) {
    let text = text.as_bytes();
    assert!(rt; text.len() > 200 && text.len() <= 400);
    let (front, back) = text.split_at(200);
    let exts = Exts {
        fdt: Some(9),
        fti: Some(Fti {
            transfer: text.len() as u64,
            instance: 0,
            symbol: 200,
            tail: [0, 0, 0, 64],
        }),
        cenc: None,
    };
    let part = heard(rt, table, 50, &packet(0, exts, (0, 1), back));
    assert!(rt; part == Happened::Part { id: 9 });
    let whole = heard(rt, table, 50, &packet(0, exts, (0, 0), front));
    assert!(rt; whole == Happened::Instance { id: 9, report });
}

#[test]
fn a_file_is_received_and_another_expires(rt: HostRuntime) {
    let mut table = started(&rt, rt.alloc());
    let report = InstanceReport {
        started: 2,
        ..NOTHING
    };
    describe(&rt, &mut table, TEXT, report);
    let rows = [
        ((1, 0), "gxx", (1, 0)),
        ((0, 1), "def", (1, 0)),
        ((0, 0), "abcdef", (1, 1)),
    ];
    for ((sbn, esi), payload, (kept, determined)) in rows {
        assert!(rt; table.ready().is_none());
        let happened = heard(
            &rt,
            &mut table,
            60,
            &packet(5, Exts::NONE, (sbn, esi), payload.as_bytes()),
        );
        let want = Happened::Heard {
            toi: 5,
            sbn,
            kept,
            determined,
        };
        assert!(rt; happened == want, "{payload}");
    }
    assert!(rt; table.ready() == Some(5));
    match table.take(&rt, 5, 1, &OpenGate) {
        Ok(Taken::File { location, bytes }) => {
            assert!(rt; location.as_slice() == b"a".as_slice());
            assert!(rt; bytes.as_slice() == b"abcdefg".as_slice());
        }
        _ => assert!(rt; false, "the file was not handed out"),
    }
    let again = heard(&rt, &mut table, 100, &packet(5, Exts::NONE, (1, 0), b"g"));
    assert!(rt; again == Happened::Dropped(Reason::Done));
    assert!(rt; table.lives().len() == 2 && table.expired() == 0);
    table.tick(101);
    assert!(rt; table.lives().len() == 0 && table.expired() == 1);
}

#[test]
fn a_file_under_raptor_without_a_row_is_norow(rt: HostRuntime) {
    let mut table = started(&rt, rt.alloc());
    let report = InstanceReport {
        started: 1,
        norow: 1,
        ..NOTHING
    };
    describe(&rt, &mut table, RAPTOR_TEXT, report);
    assert!(rt; table.lives().len() == 1 && table.lives()[0].toi() == 6);
    let heard = heard(&rt, &mut table, 50, &packet(5, Exts::NONE, (0, 0), b"abcd"));
    assert!(rt; heard == Happened::Dropped(Reason::Unknown));
}
