ghost use Rattle.std.specs.Prelude.{ℕ, ◌<◌, ◌≤◌};
ghost use Rattle.mb_lct.specs.Written.{FitsHeader};

use super::*;
use mb_base::Memory;
use std::alloc::Global;
use std::test::*;

/// The bytes of the longest fields, 12 words.
const LONGEST: usize = 48;

fn lct(tsi: u64, toi: Option<u128>, close_session: bool) -> Lct {
    Lct {
        tsi,
        toi,
        close_session,
        close_object: false,
        cp: 0,
    }
}

/// A header with each byte behind its first word equal to its index.
fn header(congestion: u8, flags: u8) -> [u8; LONGEST]
    requires { congestion < 4 }
{
    let mut bytes = [0; LONGEST];
    for index in 0..LONGEST {
        bytes[index] = index as u8;
    }
    bytes[0] = 16 + 4 * congestion;
    bytes[1] = flags;
    bytes[2] = 12;
    bytes[3] = 0x5a;
    bytes
}

/// The number in the bytes from one index up to another, each equal to its index.
fn number(first: usize, end: usize) -> u128 {
    let mut number: u128 = 0;
    for index in first..end {
        number = number.wrapping_mul(256).wrapping_add(index as u128);
    }
    number
}

/// What that header says.
fn wanted(congestion: u8, flags: u8) -> Result<LctHead, LctFault>
    requires { congestion < 4 }
{
    let half = usize::from(flags & 0x10) / 8;
    let tsi_at = 8 + 4 * usize::from(congestion);
    let toi_at = tsi_at + usize::from(flags & 0x80) / 32 + half;
    let times_at = toi_at + usize::from(flags & 0x60) / 8 + half;
    let ext_at = times_at + usize::from(flags & 8) / 2 + usize::from(flags & 4);
    if flags & 0x90 == 0 {
        return Err(LctFault::NoTsi);
    }
    let toi = if flags & 0x70 == 0 {
        None
    } else {
        Some(number(toi_at, times_at))
    };
    let lct = Lct {
        tsi: (number(tsi_at, toi_at) % (1 << 48)) as u64,
        toi,
        close_session: flags & 2 != 0,
        close_object: flags & 1 != 0,
        cp: 0x5a,
    };
    Ok(LctHead {
        lct,
        ext_at,
        end: LONGEST,
    })
}

#[test]
fn headers_are_read_or_refused(rt: HostRuntime) {
    let rows = [
        (
            &[0x10, 0x10, 3, 0, 0, 0, 0, 0, 0, 1, 0, 5, 0, 0, 0, 0][..],
            Ok(LctHead {
                lct: lct(1, Some(5), false),
                ext_at: 12,
                end: 12,
            }),
        ),
        (
            &[0x10, 0xa0, 4, 0, 0, 0, 0, 0, 0, 0, 0, 1, 0, 0, 0, 5],
            Ok(LctHead {
                lct: lct(1, Some(5), false),
                ext_at: 16,
                end: 16,
            }),
        ),
        (
            &[0x10, 0x82, 3, 0, 0, 0, 0, 0, 0, 0, 0, 1],
            Ok(LctHead {
                lct: lct(1, None, true),
                ext_at: 12,
                end: 12,
            }),
        ),
        (&[0x10, 0xa0], Err(LctFault::Short)),
        (
            &[0x20, 0xa0, 4, 0, 0, 0, 0, 0, 0, 0, 0, 1],
            Err(LctFault::Short),
        ),
        (
            &[0x20, 0xa0, 4, 0, 0, 0, 0, 0, 0, 0, 0, 1, 0, 0, 0, 5],
            Err(LctFault::Version(2)),
        ),
        (
            &[0x10, 0xa0, 3, 0, 0, 0, 0, 0, 0, 0, 0, 1, 0, 0, 0, 5],
            Err(LctFault::HeaderLength),
        ),
        (
            &[0x10, 0x20, 3, 0, 0, 0, 0, 0, 0, 0, 0, 5],
            Err(LctFault::NoTsi),
        ),
    ];
    for (bytes, want) in rows {
        assert_eq!(rt; read_lct(bytes), want);
    }
}

#[test]
fn every_width_is_read(rt: HostRuntime) {
    for congestion in 0..4 {
        for flags in 0..=255 {
            assert_eq!(rt;
                read_lct(&header(congestion, flags)),
                wanted(congestion, flags)
            );
        }
    }
}

/// Whether the header has so many words, and is read back behind a byte and before three words.
fn is_read_back(alloc: Global, lct: &Lct, words: usize) -> Result<bool, Memory>
    requires { FitsHeader lct.now 2 }
{
    let mut out = Vec::new(alloc);
    write_lct(lct, 2, &mut out)?;
    let ext_at = out.len();
    out.extend_from_slice(&[9; 12])?;
    let end = ext_at.saturating_add(8);
    let wanted = LctHead {
        lct: *lct,
        ext_at,
        end,
    };
    Ok(ext_at / 4 == words && read_lct(&out) == Ok(wanted))
}

#[test]
fn written_headers_are_read_back(rt: HostRuntime) -> Result<(), Memory> {
    for (tsi, toi, words) in [
        (0, None, 3),
        (0xffff_ffff, None, 3),
        (0xffff_ffff, Some(0), 4),
        (1 << 32, Some(0), 4),
        ((1 << 48) - 1, Some(0xffff), 4),
        ((1 << 48) - 1, Some(0x1_0000), 5),
        (1 << 32, Some((1 << 48) - 1), 5),
        (1 << 32, Some(1 << 48), 6),
        (1 << 32, Some((1 << 80) - 1), 6),
        (1 << 32, Some(1 << 80), 7),
        (1, Some(0x1_0000), 4),
        (1, Some(0xffff_ffff), 4),
        (1, Some(1 << 32), 5),
        (1, Some((1 << 64) - 1), 5),
        (1, Some(1 << 64), 6),
        (1, Some((1 << 96) - 1), 6),
        (1, Some(1 << 96), 7),
        ((1 << 48) - 1, Some((1 << 112) - 1), 7),
    ] {
        let lct = lct(tsi, toi, words == 5);
        assert!(rt; fits_header(&lct, 2));
        assert!(rt; is_read_back(rt.alloc(), &lct, words)?);
    }
    assert!(rt; !fits_header(&lct(1 << 32, None, false), 0));
    assert!(rt; !fits_header(&lct(1 << 48, Some(1), false), 0));
    assert!(rt; !fits_header(&lct(1, Some(1 << 112), false), 0));
    assert!(rt; fits_header(&lct(1, Some(1 << 96), false), 248));
    assert!(rt; !fits_header(&lct(1, Some(1 << 96), false), 249));
    Ok(())
}
