use super::encoded::base64_bytes;
use super::*;
use mb_base::Memory;
use std::test::*;

#[test]
fn bytes_of_names_and_white_space(rt: HostRuntime) {
    for byte in [9, 10, 13, 32] {
        assert!(rt; is_space(byte));
    }
    for byte in [0, 8, 11, 12, 14, 31, 33, 160] {
        assert!(rt; !is_space(byte));
    }
    for byte in [b'A', b'Z', b'a', b'z', b'_', b':', 128, 255] {
        assert!(rt; is_name_start(byte) && is_name_byte(byte));
    }
    for byte in [b'0', b'9', b'-', b'.'] {
        assert!(rt; !is_name_start(byte) && is_name_byte(byte));
    }
    for byte in [
        b'@', b'[', b'^', b'`', b'{', b'/', b';', b',', b'=', b'<', 0, 127,
    ] {
        assert!(rt; !is_name_start(byte) && !is_name_byte(byte));
    }
    for (name, local) in [
        (&b"FDT-Instance"[..], &b"FDT-Instance"[..]),
        (b"fdt:File", b"File"),
        (b"a:b:File", b"File"),
        (b"a:", b""),
        (b":", b""),
        (b"", b""),
    ] {
        assert!(rt; local_part(name) == local);
    }
}

/// How many bytes behind a `&` are read before one that no reference has there, if there is one.
fn refused_at(behind: &[u8]) -> Option<usize> {
    let mut inside = Inside::begun();
    for (place, byte) in behind.iter().enumerate() {
        match further(inside, *byte) {
            Some(next) => inside = next,
            None => return Some(place),
        }
    }
    None
}

#[test]
fn references_are_refused_at_their_first_wrong_byte(rt: HostRuntime) {
    for (behind, place) in [
        (&b"amp;"[..], None),
        (b"lt;", None),
        (b"gt;", None),
        (b"quot;", None),
        (b"apos;", None),
        (b"#65;", None),
        (b"#x4a;", None),
        (b"#x4A;", None),
        (b"#0000000000000000065;", None),
        (b"#1;", None),
        (b"#xD7FF;", None),
        (b"#xE000;", None),
        (b"#1114111;", None),
        (b"#x10FFFF;", None),
        (b"apo", None),
        (b"", None),
        (b"#", None),
        (b";", Some(0)),
        (b"AMP;", Some(0)),
        (b" amp;", Some(0)),
        (b"am;", Some(2)),
        (b"amp ", Some(3)),
        (b"apos_", Some(4)),
        (b"ltt", Some(2)),
        (b"#;", Some(1)),
        (b"#X41;", Some(1)),
        (b"#a;", Some(1)),
        (b"#+1;", Some(1)),
        (b"#x;", Some(2)),
        (b"#xg;", Some(2)),
        (b"#4a;", Some(2)),
        (b"#0;", Some(2)),
        (b"#x0;", Some(3)),
        (b"#xD800;", Some(6)),
        (b"#xDFFF;", Some(6)),
        (b"#1114112;", Some(7)),
        (b"#x110000;", Some(7)),
        (b"#99999999999999999999;", Some(7)),
    ] {
        assert_eq!(rt; refused_at(behind), place);
    }
    assert_eq!(rt; further(Inside::Plain, b'&'), Some(Inside::Plain));
}

#[test]
fn references_are_replaced(rt: HostRuntime) -> Result<(), Memory> {
    for (value, wanted) in [
        (&b"hello.txt"[..], &b"hello.txt"[..]),
        (b"", b""),
        (b"a&amp;b&lt;c&gt;d&quot;e&apos;", b"a&b<c>d\"e'"),
        (b"&amp;amp;", b"&amp;"),
        (b"&#65;&#x42;&#x00063;", b"ABc"),
        (
            b"&#xe9;&#x20AC;&#x1F600;",
            b"\xc3\xa9\xe2\x82\xac\xf0\x9f\x98\x80",
        ),
        (b"&#127;&#128;", b"\x7f\xc2\x80"),
        (b"caf\xc3\xa9;", b"caf\xc3\xa9;"),
        (b"&nbsp;&#0;&#x110000;&;", b"\0\0\0\0"),
        (b"a&b", b"a"),
        (b"&", b""),
        (b"&amp", b""),
    ] {
        let bytes = replaced(rt.alloc(), value)?;
        assert!(rt; bytes.as_slice() == wanted);
        assert_eq!(rt; replaced_length(value), wanted.len());
        assert_eq!(rt; is_filled(value), !wanted.is_empty());
        assert!(rt; says(value, wanted) && !says(value, b"hello"));
    }
    assert_eq!(rt; referred(b"#x20AC"), Some('\u{20ac}'));
    assert_eq!(rt; referred(b"euro"), None);
    Ok(())
}

#[test]
fn numbers_are_read_below_their_limit(rt: HostRuntime) -> Result<(), Memory> {
    for (value, limit, wanted) in [
        (&b"0"[..], 1u64, Some(0)),
        (b"0", 0, None),
        (b"255", 256, Some(255)),
        (b"256", 256, None),
        (b"4294967295", 1 << 32, Some(4294967295)),
        (b"4294967296", 1 << 32, None),
        (b" \t\r\n007\n ", 8, Some(7)),
        (b"", 8, None),
        (b"  ", 8, None),
        (b"+7", 8, None),
        (b"-0", 8, None),
        (b"7 7", 8, None),
        (b"7\0", 8, None),
        (b"\x0c7", 8, None),
        (b"0x7", 8, None),
        (b"7.", 8, None),
        (b"\xd9\xa7", 8, None),
    ] {
        assert_eq!(rt; number_in(value, u128::from(limit)), wanted);
    }
    let lengths = 1 << 64;
    assert_eq!(rt;
        number_in(b"18446744073709551615", lengths),
        Some(lengths - 1)
    );
    assert_eq!(rt; number_in(b"18446744073709551616", lengths), None);
    let objects = 1 << 112;
    assert_eq!(rt;
        number_in(b"5192296858534827628530496329220095", objects),
        Some(objects - 1)
    );
    assert_eq!(rt;
        number_in(b"5192296858534827628530496329220096", objects),
        None
    );
    let mut long = vec![in rt.alloc(); b'0'; 5000]?;
    long.push(b'5').map_err(|_| Memory)?;
    assert_eq!(rt; number_in(&long, 6), Some(5));
    let many = vec![in rt.alloc(); b'9'; 5000]?;
    assert_eq!(rt; number_in(&many, objects), None);
    Ok(())
}

#[test]
fn values_are_judged_with_their_references_replaced(rt: HostRuntime) {
    for (value, wanted) in [
        (&b"&#49;2"[..], Some(12)),
        (b"1&#x32;", Some(12)),
        (b"&#32;&#9;0&#48;7&#x20;", Some(7)),
        (b" 255 ", Some(255)),
        (b"25&#54;", None),
        (b"&#x31;&#x20;&#x32;", None),
        (b"&#43;7", None),
        (b"&#x0661;", None),
        (b"1&amp;", None),
        (b"1&", Some(1)),
        (b"&#32;", None),
        (b"", None),
    ] {
        assert_eq!(rt; number_in(value, 256), wanted);
    }
    for (value, wanted) in [
        (&b"AAEBBA=="[..], Some([0, 1, 1, 4])),
        (b"AAEB&#66;A==", Some([0, 1, 1, 4])),
        (b"&#65;AEBBA&#x3d;&#x3D;", Some([0, 1, 1, 4])),
        (b"AAEBBA==&#10;", None),
        (b"AAEBBA=&#233;", None),
        (b"AAEBBA==AAEBBA==AAEBBA==A", None),
        (b"", None),
    ] {
        assert_eq!(rt; base64_in(value), wanted);
    }
    assert_eq!(rt;
        base64_in(b"&#x58;UFAKrxLKna5cZ2REBfFkg=&#61;"),
        base64_bytes::<16>(b"XUFAKrxLKna5cZ2REBfFkg==")
    );
    for (value, complete) in [
        (&b"true"[..], true),
        (b"&#x74;rue", true),
        (b"tru&#101;", true),
        (b"true&#32;", false),
        (b"tru", false),
        (b"", false),
    ] {
        assert_eq!(rt; says(value, b"true"), complete);
    }
}

#[test]
fn base64_of_so_many_bytes_is_read(rt: HostRuntime) {
    assert_eq!(rt; base64_bytes(b"AAEBBA=="), Some([0, 1, 1, 4]));
    assert_eq!(rt; base64_bytes(b"/////w=="), Some([255; 4]));
    assert_eq!(rt;
        base64_bytes(b"XUFAKrxLKna5cZ2REBfFkg=="),
        Some([
            0x5d, 0x41, 0x40, 0x2a, 0xbc, 0x4b, 0x2a, 0x76, 0xb9, 0x71, 0x9d, 0x91, 0x10, 0x17,
            0xc5, 0x92,
        ])
    );
    for value in [
        &b"AAEBBB=="[..],
        b"AAEBBA",
        b"AAEBBA=",
        b"AAEBBA===",
        b" AAEBBA==",
        b"AAEBBA==\n",
        b"AAEB BA==",
        b"AAEB",
        b"AAEBBAA=",
        b"AAEBBAAA",
        b"____/w==",
        b"",
    ] {
        assert_eq!(rt; base64_bytes::<4>(value), None);
    }
    for value in [
        &b"XUFAKrxLKna5cZ2REBfF"[..],
        b"XUFAKrxLKna5cZ2REBfFkhI=",
        b"5d41402abc4b2a76b9719d911017c592",
        b"",
    ] {
        assert_eq!(rt; base64_bytes::<16>(value), None);
    }
    assert_eq!(rt; base64_bytes::<0>(b""), Some([]));
}

#[test]
fn the_place_where_a_text_stops_being_utf8(rt: HostRuntime) {
    for (text, place) in [
        (&b""[..], None),
        (b"<File/>", None),
        (b"\xc3\xa9\xe2\x82\xac\xf0\x9f\x98\x80", None),
        (b"\xed\x9f\xbf\xee\x80\x80\xf4\x8f\xbf\xbf", None),
        (b"\xff", Some(0)),
        (b"a\xc3", Some(1)),
        (b"ab\xe2\x82", Some(2)),
        (b"\xe2\x82\xac\x80a", Some(3)),
        (b"a=\"\xc3\"", Some(3)),
        (b"\xc0\x80", Some(0)),
        (b"\xed\xa0\x80", Some(0)),
        (b"\xf4\x90\x80\x80", Some(0)),
    ] {
        assert_eq!(rt; utf8_place(text), place);
    }
}
