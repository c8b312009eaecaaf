//! Rows of calls on one block with their answers under either scheme, blocks across words, and which symbols are asked
//! for.
use crate::{BlockRx, Heard, MissFault, NoCodeBlock, Way, source_symbols_suffice};
use mb_base::{Bytes, MemSource, Memory, OpenGate};
use mb_geom::{Desc, DescParts, Scheme};
use mb_tables::{Tables, TablesFault, read_tables};
use std::alloc::Global;
use std::test::Fail;
use std::thread::Threads;

/// Five symbols of a byte.
const FIVE: &str = "0 | kept
no | complete
13 | buffered
kept | hear 0 a
kept | hear 2 c
determined | hear 2 z
range | hear 5 z
range | hear 65535 z
2 | kept
3 | left
kept | hear 4 e
kept | hear 1 b
determined | hear 4 z
no | complete
kept | hear 3 d
yes | complete
determined | hear 0 z";

/// Two symbols of three bytes, which lack some at their ends.
const SHORT: &str = "kept | hear 1 d
kept | hear 0 ab
14 | buffered";

/// The worked block of the smallest code: four symbols of four bytes, of which no source symbol comes.
const WORKED: &str = "0 | kept
88 | buffered
kept | hear 4 abcd
kept | hear 5 \x04\x04\x04\x0c
kept | hear 6 \x08\x08\x08\x18
determined | hear 5 \x04\x04\x04\x0c
no | complete
1 | left
kept | hear 7 \x04\x04\x04\x1c
4 | kept
yes | complete
determined | hear 0 abcd
determined | hear 65535 zzzz";

/// Four symbols of that code which do not determine the block, since two of them follow from the others.
const FOLLOWING: &str = "kept | hear 0 ab
kept | hear 1
determined | hear 4 ab
determined | hear 5 ab
2 | kept
2 | left
no | complete";

/// A block that is not complete.
const ONE_SHORT: &str = "kept | hear 1 b
no | complete";

fn word_of(heard: Heard) -> &'static str {
    match heard {
        Heard::Kept => "kept",
        Heard::Determined => "determined",
        Heard::OutOfRange => "range",
    }
}

fn heard(block: &mut BlockRx, esi: u16, bytes: &[u8]) -> &'static str {
    if bytes.len() > usize::from(block.symbol()) {
        return "long";
    }
    word_of(block.hear(esi, bytes))
}

/// The source symbols, with a point for a zero; nothing of a block that is not complete.
fn solved<R: Threads + Sync>(rt: &R, alloc: Global, block: BlockRx) -> Result<String, Memory> {
    let mut text = String::new(alloc);
    if !block.is_complete() {
        return Ok(text);
    }
    let mut out = vec![in alloc; 0u8; block.size() as usize * usize::from(block.symbol())]?;
    block.solve(rt, 2, &OpenGate, &mut out);
    for byte in &out {
        text.push(if *byte == 0 { '.' } else { char::from(*byte) })?;
    }
    Ok(text)
}

fn called(alloc: Global, block: &mut BlockRx, call: &str) -> Result<String, Memory> {
    let mut words = call.split(' ');
    Ok(match words.next().unwrap_or("") {
        "hear" => {
            let esi = words.next().unwrap_or("").parse().unwrap_or(0);
            let bytes = words.next().unwrap_or("").as_bytes();
            String::from_str(alloc, heard(block, esi, bytes))?
        }
        "complete" => String::from_str(alloc, if block.is_complete() { "yes" } else { "no" })?,
        "kept" => format!(in alloc; "{}", block.kept())?,
        "left" => format!(in alloc; "{}", block.missing_count())?,
        _ => format!(in alloc; "{}", block.buffered())?,
    })
}

/// The first row that says another answer than its call gives.
fn wrong_row(alloc: Global, block: &mut BlockRx, rows: &str) -> Result<Option<String>, Memory> {
    for row in rows.split('\n') {
        let (said, call) = row.split_once(" | ").unwrap_or(("", row));
        let answer = called(alloc, block, call)?;
        if answer.as_str() != said {
            return Ok(Some(format!(in alloc; "{answer} for {row}")?));
        }
    }
    Ok(None)
}

#[test]
fn calls_answer_so(rt: HostRuntime) -> Result<(), Fail> {
    let tests = [
        (5, 1, FIVE, "abcde"),
        (2, 3, SHORT, "ab.d.."),
        (2, 1, ONE_SHORT, ""),
    ];
    for (k, symbol, rows, want) in tests {
        let mut block = BlockRx::start(rt.alloc(), Way::no_code(k), symbol)?;
        let wrong = wrong_row(rt.alloc(), &mut block, rows)?;
        assert!(rt; wrong.is_none(), "{wrong:?}");
        assert_eq!(rt; solved(&rt, rt.alloc(), block)?.as_str(), want);
    }
    Ok(())
}

/// The tables of the smallest code: multiples of 70,001 as V0, and zeros as V1.
fn small_tables(alloc: Global) -> Result<Tables, TablesFault> {
    let mut bytes = Vec::new(alloc);
    bytes.extend_from_slice(b"RAPTAB01")?;
    for i in 0..512u32 {
        let number = if i < 256 { 70_001 * i } else { 0 };
        bytes.extend_from_slice(&number.to_be_bytes())?;
    }
    bytes.extend_from_slice(&[0, 1, 0, 4, 0, 0, 0, 5, 0, 17])?;
    let mut source = MemSource::new(bytes, Vec::new(alloc))?;
    read_tables(alloc, &mut source)
}

/// A file of one block of four symbols of four bytes.
fn described(rt: &HostRuntime) -> Option<Desc> {
    let parts = DescParts {
        location: Bytes::from_vec(Vec::new(rt.alloc())),
        content_length: Some(16),
        transfer_length: None,
        encoded: false,
        symbol: Some(4),
        scheme: Some(Scheme::Raptor { z: 1, n: 1, al: 4 }),
        md5: None,
    };
    Desc::new(parts).ok()
}

#[test]
fn blocks_of_raptor_answer_so(rt: HostRuntime) -> Result<(), Fail> {
    let tables = small_tables(rt.alloc()).ok().ok_or("the tables")?;
    let desc = described(&rt).expect(&rt, "a good file");
    assert_eq!(rt; desc.blocks(), 1);
    for (rows, want) in [(WORKED, "abcdefghijklmnop"), (FOLLOWING, "")] {
        let way = Way::of(rt.alloc(), &tables, &desc, 0)
            .ok()
            .ok_or("the way")?;
        let mut block = BlockRx::start(rt.alloc(), way, 4)?;
        let wrong = wrong_row(rt.alloc(), &mut block, rows)?;
        assert!(rt; wrong.is_none(), "{wrong:?}");
        assert_eq!(rt; solved(&rt, rt.alloc(), block)?.as_str(), want);
    }
    Ok(())
}

#[test]
fn blocks_go_across_words(rt: HostRuntime) -> Result<(), Fail> {
    let mut block = BlockRx::start(rt.alloc(), Way::no_code(65), 2)?;
    for turn in 0..130u16 {
        let esi = turn * 2 % 65;
        let word = heard(&mut block, esi, &[b'0' + (esi % 64) as u8, b'-']);
        assert_eq!(rt; word == "kept", turn < 65, "at {turn}");
    }
    let text = solved(&rt, rt.alloc(), block)?;
    assert!(rt; text.starts_with("0-1-2-") && text.ends_with("n-o-0-"));
    Ok(())
}

fn missing(alloc: Global, block: &NoCodeBlock) -> Result<String, MissFault> {
    let mut text = String::new(alloc);
    for esi in &block.missing(alloc)? {
        text.push_str(&format!(in alloc; "{esi},")?)?;
    }
    Ok(text)
}

#[test]
fn symbols_that_were_not_heard_are_asked_for(rt: HostRuntime) -> Result<(), Fail> {
    let mut block = NoCodeBlock::start(rt.alloc(), 65, 2)?;
    for turn in 0..63u16 {
        assert!(rt; 1 <= block.symbol());
        block.hear(turn * 2 % 65, b"z");
    }
    assert_eq!(rt; missing(rt.alloc(), &block)?.as_str(), "61,63,");
    source_symbols_suffice();
    Ok(())
}
