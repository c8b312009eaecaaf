ghost use Rattle.std.specs.Prelude.{◌≡◌, ◌<◌, ◌≤◌, IfOk, vec_len};

use super::*;
use crate::extension::read_exts;
use mb_base::Memory;
use mb_lct::{Lct, LctFault};
use std::alloc::Global;
use std::process::Abort;
use std::test::*;

/// The bytes of the longest fields of a header, an EXT_FDT, a FEC payload ID and a payload of four bytes.
const LONGEST: usize = 60;

/// EXT_FTI of the transfer length 200, the symbol length 1400 and the maximum source block length 64.
const FTI_BYTES: [u8; 16] = [64, 4, 0, 0, 0, 0, 0, 200, 0, 0, 5, 0x78, 0, 0, 0, 64];

/// What it says.
const FTI: Fti = Fti {
    transfer: 200,
    instance: 0,
    symbol: 1400,
    tail: [0, 0, 0, 64],
};

fn lct(tsi: u64, toi: Option<u128>, close_session: bool) -> Lct {
    Lct {
        tsi,
        toi,
        close_session,
        close_object: false,
        cp: 0,
    }
}

fn exts(fdt: Option<u32>, fti: Option<Fti>, cenc: Option<u8>) -> Exts {
    Exts { fdt, fti, cenc }
}

fn body(payload: &[u8]) -> Option<Body<'_>> {
    Some(Body {
        sbn: 0,
        esi: 0,
        payload,
    })
}

/// A body with the first so many bytes, none where there are fewer.
fn body_of(bytes: &[u8], len: usize) -> Option<Body<'_>> {
    body(bytes.get(..len)?)
}

/// The offsets of the TOI, the times and the extensions of a header.
fn offsets(congestion: u8, flags: u8) -> (usize, usize, usize)
    requires { congestion < 4 }
    ensures { result.2 ≤ 48 }
{
    let half = usize::from(flags / 16 % 2) * 2;
    let toi_at = 8 + 4 * usize::from(congestion) + usize::from(flags / 128) * 4 + half;
    let times_at = toi_at + usize::from(flags / 32 % 4) * 4 + half;
    let ext_at = times_at + usize::from(flags / 8 % 2) * 4 + usize::from(flags / 4 % 2) * 4;
    (toi_at, times_at, ext_at)
}

/// A datagram with EXT_FDT, in which each byte behind the first word is equal to its index, but for the first
/// two of EXT_FDT.
fn datagram(congestion: u8, flags: u8) -> [u8; LONGEST]
    requires { congestion < 4 }
{
    let mut bytes = [0; LONGEST];
    for index in 0..LONGEST {
        bytes[index] = index as u8;
    }
    let ext_at = offsets(congestion, flags).2;
    bytes[0] = 16 + 4 * congestion;
    bytes[1] = flags;
    bytes[2] = (ext_at / 4) as u8 + 1;
    bytes[3] = 1;
    bytes[ext_at] = 0xc0;
    bytes[ext_at + 1] = 0x1a;
    bytes
}

/// The number in the bytes from one index up to another, each equal to its index.
fn number(first: usize, end: usize) -> u128 {
    let mut number: u128 = 0;
    for index in first..end {
        number = number.wrapping_mul(256).wrapping_add(index as u128);
    }
    number
}

/// What that datagram is.
fn wanted(congestion: u8, flags: u8, bytes: &[u8; LONGEST]) -> Result<Packet<'_>, PacketFault>
    requires { congestion < 4 }
{
    let (toi_at, times_at, ext_at) = offsets(congestion, flags);
    if flags & 0x90 == 0 {
        return Err(PacketFault::Lct(LctFault::NoTsi));
    }
    let toi = if flags & 0x70 == 0 {
        None
    } else {
        Some(number(toi_at, times_at))
    };
    let tsi = number(8 + 4 * usize::from(congestion), toi_at);
    let lct = Lct {
        tsi: (tsi % (1 << 48)) as u64,
        toi,
        close_session: flags & 2 != 0,
        close_object: flags & 1 != 0,
        cp: 1,
    };
    let id = 0xa_0000 + (number(ext_at + 2, ext_at + 4) % 0x1_0000) as u32;
    let body = Body {
        sbn: (number(ext_at + 4, ext_at + 6) % 0x1_0000) as u16,
        esi: (number(ext_at + 6, ext_at + 8) % 0x1_0000) as u16,
        payload: &bytes[ext_at + 8..],
    };
    Ok(Packet {
        lct,
        exts: exts(Some(id), None, None),
        body: Some(body),
    })
}

/// Headers of every width, each with an EXT_FDT and a body.
fn assert_widths<R: Abort>(rt: &R) {
    for congestion in 0..4 {
        for flags in 0..=255 {
            let bytes = datagram(congestion, flags);
            assert_eq!(rt; read_packet(&bytes), wanted(congestion, flags, &bytes));
        }
    }
}

/// Each extension, and each of their faults with its offset.
fn assert_extensions<R: Abort>(rt: &R) {
    let rows: [(&[u8], Result<Exts, ExtFault>); 24] = [
        (&[], Ok(Exts::NONE)),
        // EXT_NOP, EXT_AUTH and unknown kinds, of one word and of more.
        (&[0, 1, 9, 9], Ok(Exts::NONE)),
        (
            &[0, 3, 9, 9, 192, 16, 0, 9, 9, 9, 9, 9, 192, 16, 0, 7],
            Ok(exts(Some(7), None, None)),
        ),
        (
            &[1, 2, 9, 9, 9, 9, 9, 9, 193, 3, 9, 9],
            Ok(exts(None, None, Some(3))),
        ),
        (
            &[127, 2, 9, 9, 9, 9, 9, 9, 193, 0, 0, 0],
            Ok(exts(None, None, Some(0))),
        ),
        (
            &[128, 0, 9, 9, 255, 200, 9, 9, 192, 31, 255, 255],
            Ok(exts(Some(0xf_ffff), None, None)),
        ),
        (&FTI_BYTES, Ok(exts(None, Some(FTI), None))),
        // The first of a kind counts.
        (
            &[192, 16, 0, 7, 192, 16, 0, 8],
            Ok(exts(Some(7), None, None)),
        ),
        (
            &[193, 1, 0, 0, 192, 16, 0, 7, 193, 2, 0, 0],
            Ok(exts(Some(7), None, Some(1))),
        ),
        (
            &[
                64, 4, 0, 0, 0, 0, 0, 200, 0, 0, 5, 0x78, 0, 0, 0, 64, 64, 4, 1, 1, 1, 1, 1, 1, 1,
                1, 1, 1, 1, 1, 1, 1,
            ],
            Ok(exts(None, Some(FTI), None)),
        ),
        (
            &[
                64, 4, 255, 255, 255, 255, 255, 255, 1, 2, 255, 255, 1, 2, 3, 4,
            ],
            Ok(exts(
                None,
                Some(Fti {
                    transfer: (1 << 48) - 1,
                    instance: 0x102,
                    symbol: 0xffff,
                    tail: [1, 2, 3, 4],
                }),
                None,
            )),
        ),
        // Each fault, with its value or offset.
        (&[0, 0, 0, 0], Err(ExtFault::ZeroLength(0))),
        (&[0, 1, 0, 0, 127, 0, 0, 0], Err(ExtFault::ZeroLength(4))),
        (&[0, 2, 0, 0], Err(ExtFault::Overrun(0))),
        (&[193, 0, 0, 0, 5, 255, 0, 0], Err(ExtFault::Overrun(4))),
        (&[64, 1, 0, 0], Err(ExtFault::FtiLength(0))),
        (
            &[1, 2, 0, 0, 0, 0, 0, 0, 64, 2, 0, 0, 0, 0, 0, 0],
            Err(ExtFault::FtiLength(8)),
        ),
        (&[192, 32, 0, 1], Err(ExtFault::FluteVersion(2))),
        (&[192, 0, 0, 1], Err(ExtFault::FluteVersion(0))),
        (
            &[0, 1, 0, 0, 192, 255, 0, 1],
            Err(ExtFault::FluteVersion(15)),
        ),
        // The first that holds of one extension, and the first extension.
        (&[64, 0, 0, 0], Err(ExtFault::ZeroLength(0))),
        (&[64, 4, 0, 0], Err(ExtFault::Overrun(0))),
        (
            &[64, 1, 0, 0, 0, 0, 0, 0, 192, 32, 0, 1],
            Err(ExtFault::FtiLength(0)),
        ),
        (&[192, 32, 0, 1, 0, 0, 0, 0], Err(ExtFault::FluteVersion(2))),
    ];
    for (area, want) in rows {
        assert!(rt; area.len() % 4 == 0);
        assert_eq!(rt; read_exts(area), want, "{area:?}");
    }
}

/// The packet with TSI 1, TOI 5 and no extension.
fn plain(body: Option<Body<'_>>) -> Packet<'_> {
    Packet {
        lct: lct(1, Some(5), false),
        exts: Exts::NONE,
        body,
    }
}

/// Whole packets, and each fault.
fn assert_packets<R: Abort>(rt: &R) {
    let rows: [(&[u8], Result<Packet<'_>, PacketFault>); 20] = [
        (
            b"\x10\x10\x03\0\0\0\0\0\0\x01\0\x05\0\0\0\0hello",
            Ok(plain(body(b"hello"))),
        ),
        (
            b"\x10\xa0\x04\0\0\0\0\0\0\0\0\x01\0\0\0\x05\0\0\0\0hello",
            Ok(plain(body(b"hello"))),
        ),
        // A packet that ends with its header has no body, and one of four bytes behind it an empty payload.
        (
            b"\x10\xa0\x04\0\0\0\0\0\0\0\0\x01\0\0\0\x05",
            Ok(plain(None)),
        ),
        (
            b"\x10\xa0\x04\0\0\0\0\0\0\0\0\x01\0\0\0\x05\x01\x02\x03\x04",
            Ok(plain(Some(Body {
                sbn: 0x102,
                esi: 0x304,
                payload: &[],
            }))),
        ),
        (
            b"\x10\x82\x03\0\0\0\0\0\0\0\0\x01",
            Ok(Packet {
                lct: lct(1, None, true),
                exts: Exts::NONE,
                body: None,
            }),
        ),
        (b"", Err(PacketFault::Lct(LctFault::Short))),
        (b"\x10\xa0", Err(PacketFault::Lct(LctFault::Short))),
        (
            b"\x20\xa0\x04\0\0\0\0\0\0\0\0\x01\0\0\0\x05",
            Err(PacketFault::Lct(LctFault::Version(2))),
        ),
        (
            b"\x10\xa0\x03\0\0\0\0\0\0\0\0\x01\0\0\0\x05",
            Err(PacketFault::Lct(LctFault::HeaderLength)),
        ),
        (
            b"\x10\x20\x03\0\0\0\0\0\0\0\0\x05",
            Err(PacketFault::Lct(LctFault::NoTsi)),
        ),
        (
            b"\x10\xa0\x05\0\0\0\0\0\0\0\0\x01\0\0\0\x05\x40\0\0\0\0\0\0\0a",
            Err(PacketFault::Ext(ExtFault::ZeroLength(0))),
        ),
        (
            b"\x10\xa0\x05\0\0\0\0\0\0\0\0\x01\0\0\0\x05\x40\x04\0\0\0\0\0\0a",
            Err(PacketFault::Ext(ExtFault::Overrun(0))),
        ),
        (
            b"\x10\xa0\x05\0\0\0\0\0\0\0\0\x01\0\0\0\x05\x40\x01\0\0",
            Err(PacketFault::Ext(ExtFault::FtiLength(0))),
        ),
        (
            b"\x10\xa0\x05\0\0\0\0\0\0\0\0\x01\0\0\0\x05\xc0\x20\0\x01",
            Err(PacketFault::Ext(ExtFault::FluteVersion(2))),
        ),
        (
            b"\x10\xa0\x06\0\0\0\0\0\0\0\0\x01\0\0\0\x05\0\x01\0\0\0\x02\0\0\0\0\0\0",
            Err(PacketFault::Ext(ExtFault::Overrun(4))),
        ),
        (
            b"\x10\xa0\x04\x02\0\0\0\0\0\0\0\x01\0\0\0\x05",
            Err(PacketFault::CodePoint(2)),
        ),
        (
            b"\x10\xa0\x04\0\0\0\0\0\0\0\0\x01\0\0\0\x05\0",
            Err(PacketFault::NoPayloadId),
        ),
        (
            b"\x10\xa0\x04\x01\0\0\0\0\0\0\0\x01\0\0\0\x05\0\0\0",
            Err(PacketFault::NoPayloadId),
        ),
        // The first that holds.
        (
            b"\x10\xa0\x05\xff\0\0\0\0\0\0\0\x01\0\0\0\x05\xc0\x20\0\x01\0",
            Err(PacketFault::Ext(ExtFault::FluteVersion(2))),
        ),
        (
            b"\x10\xa0\x04\xff\0\0\0\0\0\0\0\x01\0\0\0\x05\0",
            Err(PacketFault::CodePoint(255)),
        ),
    ];
    for (bytes, want) in rows {
        assert_eq!(rt; read_packet(bytes), want, "{bytes:?}");
    }
}

#[test]
fn every_width_extension_and_fault_is_read(rt: HostRuntime) {
    assert_widths(&rt);
    assert_extensions(&rt);
    assert_packets(&rt);
}

/// Whether the packet fits, what is written of it stands behind what was there, and it is read back.
fn is_read_back(alloc: Global, p: &Packet<'_>, wanted: &[u8]) -> Result<bool, Memory> {
    let mut out = Vec::new(alloc);
    out.push(9)?;
    if !fits_packet(p) {
        return Ok(false);
    }
    write_packet(p, &mut out)?;
    let written = &out[1..];
    Ok(out[0] == 9 && written.starts_with(wanted) && read_packet(written) == Ok(*p))
}

#[test]
fn packets_are_written_so(rt: HostRuntime) -> Result<(), Memory> {
    let alloc = rt.alloc();
    let hello = b"\x10\xa0\x04\0\0\0\0\0\0\0\0\x01\0\0\0\x05\0\0\0\0hello";
    assert!(rt; is_read_back(alloc, &plain(body(b"hello")), hello)?);
    let last = Packet {
        lct: lct(1, None, true),
        ..plain(None)
    };
    assert!(rt; is_read_back(alloc, &last, b"\x10\x82\x03\0\0\0\0\0\0\0\0\x01")?);
    let text = [b'x'; 200];
    let described = Packet {
        lct: lct(1, Some(0), false),
        exts: exts(Some(7), Some(FTI), None),
        body: body(&text),
    };
    let front =
        b"\x10\xa0\x09\0\0\0\0\0\0\0\0\x01\0\0\0\0\xc0\x10\0\x07\x40\x04\0\0\0\0\0\xc8\0\0\x05\x78\0\0\0\x40\0\0\0\0xxx";
    assert!(rt; is_read_back(alloc, &described, front)?);
    Ok(())
}

/// The extensions of a subset, by its bits, each with its greatest numbers.
fn greatest(subset: u8) -> Exts {
    let fti = Fti {
        transfer: (1 << 48) - 1,
        instance: 0xffff,
        symbol: 0xffff,
        tail: [1, 2, 3, 4],
    };
    Exts {
        fdt: (subset & 1 != 0).then_some(0xf_ffff),
        fti: (subset & 2 != 0).then_some(fti),
        cenc: (subset & 4 != 0).then_some(255),
    }
}

#[test]
fn written_packets_are_read_back(rt: HostRuntime) -> Result<(), Memory> {
    let longest = Body {
        sbn: 0xffff,
        esi: 0xffff,
        payload: b"hello",
    };
    for (tsi, toi) in [
        (0, None),
        (0xffff_ffff, Some(0)),
        (0xffff_ffff, Some((1 << 96) - 1)),
        ((1 << 48) - 1, Some(0)),
        ((1 << 48) - 1, Some((1 << 112) - 1)),
    ] {
        for subset in 0..8 {
            for body in [None, body(&[]), Some(longest)] {
                let lct = Lct {
                    close_object: subset > 3,
                    ..lct(tsi, toi, subset % 2 == 1)
                };
                let exts = greatest(subset);
                let packet = Packet { lct, exts, body };
                assert!(rt; is_read_back(rt.alloc(), &packet, &[])?, "{packet:?}");
            }
        }
    }
    Ok(())
}

/// So many bytes.
fn room(alloc: Global, len: usize) -> Result<Vec<u8>, Memory>
    ensures { IfOk result (λ bytes. vec_len bytes ≡ len) }
{
    Ok(vec![in alloc; 0; len]?)
}

#[test]
fn packets_that_fit_are_told(rt: HostRuntime) -> Result<(), Memory> {
    let bytes = room(rt.alloc(), 70_000)?;
    // A header of 16 bytes and a FEC payload ID stand before the payload, or a header of 52.
    let most = plain(body_of(&bytes, 65_515));
    let long = Packet {
        lct: lct((1 << 48) - 1, Some((1 << 112) - 1), false),
        exts: exts(Some(0xf_ffff), Some(FTI), Some(0)),
        body: body_of(&bytes, 65_479),
    };
    let transfer = |transfer| exts(None, Some(Fti { transfer, ..FTI }), None);
    let with_lct = |lct| Packet { lct, ..most };
    let with_exts = |exts| Packet {
        exts,
        ..plain(None)
    };
    for (packet, fits) in [
        (most, true),
        (long, true),
        (plain(body_of(&bytes, 65_516)), false),
        (plain(body(&bytes)), false),
        (
            Packet {
                body: body_of(&bytes, 65_480),
                ..long
            },
            false,
        ),
        (with_lct(Lct { cp: 1, ..most.lct }), true),
        (with_lct(Lct { cp: 2, ..most.lct }), false),
        (with_lct(lct(1 << 32, None, false)), false),
        (with_lct(lct(1 << 48, Some(5), false)), false),
        (with_lct(lct(1, Some(1 << 112), false)), false),
        (with_exts(exts(Some(0xf_ffff), None, None)), true),
        (with_exts(exts(Some(0x10_0000), None, None)), false),
        (with_exts(transfer((1 << 48) - 1)), true),
        (with_exts(transfer(1 << 48)), false),
    ] {
        assert_eq!(rt; fits_packet(&packet), fits);
        assert_eq!(rt; is_read_back(rt.alloc(), &packet, &[])?, fits);
    }
    Ok(())
}

#[test]
fn every_fault_has_its_word(rt: HostRuntime) {
    for (fault, word) in [
        (PacketFault::Lct(LctFault::Short), "short"),
        (PacketFault::Lct(LctFault::Version(2)), "version"),
        (PacketFault::Lct(LctFault::HeaderLength), "headerlength"),
        (PacketFault::Lct(LctFault::NoTsi), "notsi"),
        (PacketFault::Ext(ExtFault::Overrun(4)), "overrun"),
        (PacketFault::Ext(ExtFault::ZeroLength(4)), "zerolength"),
        (PacketFault::Ext(ExtFault::FtiLength(4)), "ftilength"),
        (PacketFault::Ext(ExtFault::FluteVersion(2)), "fluteversion"),
        (PacketFault::CodePoint(2), "codepoint"),
        (PacketFault::NoPayloadId, "nopayloadid"),
    ] {
        assert_eq!(rt; fault.word(), word);
    }
}

#[test]
fn faults_are_shown(rt: HostRuntime) -> Result<(), Memory> {
    for (fault, text) in [
        (
            PacketFault::Lct(LctFault::Version(2)),
            "the LCT version is 2, not 1",
        ),
        (
            PacketFault::Ext(ExtFault::Overrun(8)),
            "the header extension at offset 8 passes the end of the header",
        ),
        (PacketFault::CodePoint(9), "the codepoint is 9, above 1"),
    ] {
        let shown = format!(in rt.alloc(); "{fault}")?;
        assert_eq!(rt; shown.as_str(), text);
    }
    Ok(())
}
