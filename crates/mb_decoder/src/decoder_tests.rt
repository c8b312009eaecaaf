//! The worked block of the smallest code, and blocks heard by ESIs that look random.
ghost use Rattle.std.specs.Prelude.{◌≡◌};
ghost use Rattle.mb_decoder.specs.Block.{IsOf};

use crate::Decoder;
use mb_base::{MemSource, Memory, word};
use mb_encoder::Intermediate;
use mb_rows::Code;
use mb_tables::{Tables, TablesFault, make_row, read_tables};
use std::alloc::Global;
use std::process::Abort;
use std::test::Fail;

/// The tables of the smallest code: multiples of 70,001 as V0, and zeros as V1.
fn small_tables(alloc: Global) -> Result<Tables, TablesFault> {
    let mut bytes = Vec::new(alloc);
    bytes.extend_from_slice(b"RAPTAB01")?;
    for i in 0..512u32 {
        let number = if i < 256 { 70_001 * i } else { 0 };
        bytes.extend_from_slice(&number.to_be_bytes())?;
    }
    bytes.extend_from_slice(&[0, 1, 0, 4, 0, 0, 0, 5, 0, 17])?;
    let mut source = MemSource::new(bytes, Vec::new(alloc))?;
    read_tables(alloc, &mut source)
}

/// Hears a symbol, which has no more bytes than one of the block.
fn heard(rt: &impl Abort, decoder: &mut Decoder, code: &Code, esi: u16, bytes: &[u8]) -> bool
    requires { IsOf code.now decoder.old }
    ensures { IsOf code.now decoder.new }
{
    assert!(rt; bytes.len() <= usize::from(decoder.t()));
    decoder.hear(code, esi, bytes)
}

/// Puts the source symbols of a block that is complete.
fn put_sources(rt: &impl Abort, decoder: Decoder, code: &Code, out: &mut [u8])
    requires { IsOf code.now decoder }
{
    assert!(rt; decoder.is_complete());
    assert_eq!(rt; out.len(), usize::from(decoder.t()) * usize::from(code.k()));
    decoder.solve(code, out);
}

#[test]
fn the_worked_block_is_heard_and_solved(rt: HostRuntime) -> Result<(), Fail> {
    let tables = small_tables(rt.alloc()).ok().ok_or("the tables")?;
    let code = Code::new(rt.alloc(), &tables, 4).ok().ok_or("the code")?;
    let mut decoder = Decoder::start(rt.alloc(), &code, 4, false)?;
    assert!(rt; heard(&rt, &mut decoder, &code, 4, b"abcd"));
    assert!(rt; heard(&rt, &mut decoder, &code, 5, &[4, 4, 4, 12]));
    assert!(rt; heard(&rt, &mut decoder, &code, 6, &[8, 8, 8, 24]));
    assert!(rt; !heard(&rt, &mut decoder, &code, 5, &[4, 4, 4, 12]));
    assert!(rt; !decoder.is_complete());
    assert!(rt; heard(&rt, &mut decoder, &code, 7, &[4, 4, 4, 28]));
    assert_eq!(rt; decoder.kept(), 4);
    let mut out = [0xffu8; 16];
    put_sources(&rt, decoder, &code, &mut out);
    assert_eq!(rt; out, *b"abcdefghijklmnop");
    Ok(())
}

#[test]
fn a_symbol_that_follows_is_not_kept(rt: HostRuntime) -> Result<(), Fail> {
    let tables = small_tables(rt.alloc()).ok().ok_or("the tables")?;
    let code = Code::new(rt.alloc(), &tables, 4).ok().ok_or("the code")?;
    let mut decoder = Decoder::start(rt.alloc(), &code, 4, false)?;
    assert!(rt; heard(&rt, &mut decoder, &code, 0, b"ab"));
    assert!(rt; heard(&rt, &mut decoder, &code, 1, b""));
    assert!(rt; !heard(&rt, &mut decoder, &code, 4, b"ab"));
    assert!(rt; !heard(&rt, &mut decoder, &code, 5, b"ab"));
    assert_eq!(rt; decoder.kept(), 2);
    assert!(rt; !decoder.is_complete());
    Ok(())
}

/// The code and the encoder of a block under made tables, by the first J with which it can be encoded.
fn encoder_for(alloc: Global, k: u16, block: &[u8]) -> Result<(Code, Intermediate), Fail> {
    for j in 0..64 {
        let mut tables = Tables::made(alloc)?;
        if k < 4 || 8_192 < k || block.len() != usize::from(k) * 3 {
            return Err("no block".into());
        }
        tables.add(make_row(&tables, k, j)).ok().ok_or("the row")?;
        if let Ok(encoder) = Intermediate::of(alloc, &tables, k, 3, block) {
            let code = Code::new(alloc, &tables, k).ok().ok_or("the code")?;
            return Ok((code, encoder));
        }
    }
    Err("no J".into())
}

/// Hears 200 symbols, some of them twice and half of them source symbols. Says whether the block was complete exactly
/// when as many were kept as it has source symbols.
fn hear_drawn(
    rt: &impl Abort,
    decoder: &mut Decoder,
    code: &Code,
    encoder: &Intermediate,
    seed: u32,
) -> bool
    requires { IsOf code.now decoder.old }
    ensures { IsOf code.now decoder.new }
{
    let k = code.k();
    let mut right = true;
    for i in 0..200u32 {
        let esi = (word(seed, i) % (2 * u32::from(k))) as u16;
        let mut symbol = [0u8; 3];
        assert_eq!(rt; encoder.t(), 3);
        encoder.symbol(esi, &mut symbol);
        heard(rt, decoder, code, esi, &symbol);
        right = right && decoder.is_complete() == (decoder.kept() == k);
    }
    right
}

/// Hears the source symbols.
fn hear_sources(rt: &impl Abort, decoder: &mut Decoder, code: &Code, encoder: &Intermediate)
    requires { IsOf code.now decoder.old }
    ensures { IsOf code.now decoder.new }
{
    for esi in 0..code.k() {
        let mut symbol = [0u8; 3];
        assert_eq!(rt; encoder.t(), 3);
        encoder.symbol(esi, &mut symbol);
        assert!(rt; heard(rt, decoder, code, esi, &symbol));
    }
}

/// Bytes that look random.
fn bytes_for(alloc: Global, seed: u32, count: u32) -> Result<Vec<u8>, Memory> {
    let mut bytes = Vec::new(alloc);
    for i in 0..count {
        bytes.push((word(seed, i) % 256) as u8)?;
    }
    Ok(bytes)
}

#[test]
fn source_symbols_alone_are_copied(rt: HostRuntime) -> Result<(), Fail> {
    let block = bytes_for(rt.alloc(), 3, 3 * 40)?;
    let (code, encoder) = encoder_for(rt.alloc(), 40, &block)?;
    let mut first = Decoder::start(rt.alloc(), &code, 3, false)?;
    hear_sources(&rt, &mut first, &code, &encoder);
    let mut second = Decoder::start(rt.alloc(), &code, 3, first.shows_usable())?;
    hear_sources(&rt, &mut second, &code, &encoder);
    assert!(rt; second.shows_usable());
    assert!(rt; !heard(&rt, &mut second, &code, 7, b"abc"));
    let mut out = bytes_for(rt.alloc(), 4, 3 * 40)?;
    put_sources(&rt, second, &code, &mut out);
    assert_eq!(rt; out, block);
    Ok(())
}

#[test]
fn blocks_are_solved_from_whichever_symbols_come(rt: HostRuntime) -> Result<(), Fail> {
    for k in [4u16, 5, 13, 40] {
        let block = bytes_for(rt.alloc(), 1, 3 * u32::from(k))?;
        let (code, encoder) = encoder_for(rt.alloc(), k, &block)?;
        let mut whole = Decoder::start(rt.alloc(), &code, 3, false)?;
        assert!(rt; !whole.shows_usable());
        hear_sources(&rt, &mut whole, &code, &encoder);
        let usable = whole.shows_usable();
        assert!(rt; usable);
        for seed in 0..20u32 {
            let mut unknown = Decoder::start(rt.alloc(), &code, 3, false)?;
            assert!(rt; hear_drawn(&rt, &mut unknown, &code, &encoder, seed));
            // Where the code is known to be usable, the same symbols are kept.
            let mut decoder = Decoder::start(rt.alloc(), &code, 3, usable)?;
            assert!(rt; hear_drawn(&rt, &mut decoder, &code, &encoder, seed));
            assert_eq!(rt; decoder.kept(), unknown.kept());
            if decoder.is_complete() {
                let mut out = bytes_for(rt.alloc(), 2, 3 * u32::from(k))?;
                put_sources(&rt, decoder, &code, &mut out);
                assert_eq!(rt; out, block);
            }
        }
    }
    Ok(())
}
