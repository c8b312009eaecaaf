//! Rows of source symbols of two files: block, number and bytes.
use crate::{Desc, DescFault, DescParts, Scheme};
use mb_base::Bytes;
use std::alloc::Global;
use std::process::Abort;

/// The bytes of the file of ten symbols of four bytes each, the last of which it does not fill.
const TEXT: &str = "abcdefghijklmnopqrstuvwxyz0123456789AB";

fn desc(alloc: Global, length: u64, symbol: u16, scheme: Scheme) -> Result<Desc, DescFault> {
    let parts = DescParts {
        location: Bytes::from_vec(Vec::new(alloc)),
        content_length: Some(length),
        transfer_length: None,
        encoded: false,
        symbol: Some(symbol),
        scheme: Some(scheme),
        md5: None,
    };
    Desc::new(parts)
}

/// Checks a source symbol of the file.
fn has_symbol(rt: &impl Abort, desc: &Desc, file: &[u8], sbn: u16, i: u16, want: &[u8]) {
    assert_eq!(rt; file.len() as u64, desc.length());
    assert_eq!(rt; want.len(), usize::from(desc.symbol()));
    assert!(rt; u32::from(sbn) < desc.blocks());
    assert!(rt; u32::from(i) < desc.k_of(sbn));
    let mut out = [7; 8];
    let out = &mut out[..usize::from(desc.symbol()).min(8)];
    assert_eq!(rt; out.len(), want.len());
    desc.symbol_of(file, sbn, i, out);
    assert!(rt; &*out == want, "symbol {i} of block {sbn}");
}

/// Puts a block into the file.
fn put(rt: &impl Abort, desc: &Desc, sbn: u16, block: &[u8], file: &mut [u8]) {
    assert_eq!(rt; file.len() as u64, desc.length());
    assert!(rt; u32::from(sbn) < desc.blocks());
    let count = desc.k_of(sbn) as usize;
    assert!(rt; block.len() == count * usize::from(desc.symbol()));
    desc.put_block(sbn, block, file);
}

#[test]
fn symbols_of_whole_blocks(rt: HostRuntime) {
    let scheme = Scheme::NoCode { max_block: 4 };
    let desc = desc(rt.alloc(), 38, 4, scheme).expect(&rt, "a good file");
    let rows = [
        (0, 0, "abcd"),
        (0, 3, "mnop"),
        (1, 0, "qrst"),
        (1, 2, "yz01"),
        (2, 0, "2345"),
        (2, 2, "AB\0\0"),
    ];
    for (sbn, i, want) in rows {
        has_symbol(&rt, &desc, TEXT.as_bytes(), sbn, i, want.as_bytes());
    }
    let before = [
        desc.symbols_before(0),
        desc.symbols_before(1),
        desc.symbols_before(2),
    ];
    assert_eq!(rt; before, [0, 4, 7]);
    let mut file = [b'.'; 38];
    put(&rt, &desc, 2, b"23456789AB\0\0", &mut file);
    put(&rt, &desc, 0, b"abcdefghijklmnop", &mut file);
    assert!(rt; file == *b"abcdefghijklmnop............23456789AB");
}

#[test]
fn symbols_of_two_sub_blocks(rt: HostRuntime) {
    let scheme = Scheme::Raptor { z: 1, n: 2, al: 4 };
    let desc = desc(rt.alloc(), 25, 8, scheme).expect(&rt, "a good file");
    let mut file = [0; 25];
    for (k, byte) in file.iter_mut().enumerate() {
        *byte = k as u8;
    }
    let block =
        *b"\x00\x01\x02\x03\x10\x11\x12\x13\x04\x05\x06\x07\x14\x15\x16\x17\x08\x09\x0a\x0b\x18\0\0\0\x0c\x0d\x0e\x0f\0\0\0\0";
    for (i, want) in block.chunks(8).enumerate() {
        has_symbol(&rt, &desc, &file, 0, i as u16, want);
    }
    let mut other = [b'.'; 25];
    put(&rt, &desc, 0, &block, &mut other);
    assert!(rt; other == file);
}
