//! Rows of calls on one window with their answers: of `hear` the instance, EXT_FTI (length, symbol, block), SBN, ESI
//! and payload, of `settle` the instance, EXT_FTI and expiry, and of `clear`, `expire` and `has` a number.
use crate::{Window, WindowHeard};
use mb_alc::{Body, Fti};
use mb_base::Memory;
use std::alloc::Global;
use std::test::Fail;

/// A text in two packets, in either order and with repeats, the first of which counts; short symbols.
const PARTS: &str = "part | hear 1 7,3,2 0 0 abc
part | hear 1 - 1 0 g
yes | has 1
part | hear 1 - 0 0 xyz
whole abcdefg | hear 1 - 0 1 def
whole abcdefg | hear 1 7,3,2 0 1 def
0 | settle 1 - 5
yes | has 1
done | hear 1 - 0 1 def
0 | expire 5
done | hear 1 7,3,2 0 0 abc
0 | expire 6
no | has 1
noids | hear 1 - 0 0 abc
whole abcdefg | hear 1 7,3,3 0 0 abcdefg
whole abcdefg | hear 1 7,3,3 0 0 abcdefgzz
part | hear 2 7,3,2 0 0 abcdef
whole abcdefg | hear 2 - 1 0 gz
part | hear 3 4,2,1 1 0 cd
whole abcd | hear 3 - 0 0 ab
whole abcdefg | hear 2 - 1 0 gzz
12 | clear 2
no | has 2";

/// Each reason, and for each two that hold together the one that goes before.
const REASONS: &str = "noids | hear 1 - 9 9 .
shape | hear 1 7,0,2 0 0 abc
shape | hear 1 7,3,0 0 0 abc
shape | hear 1 0,3,2 0 0 abc
shape | hear 1 65537,3,2 0 0 abc
part | hear 1 65536,3,2 0 0 abc
shape | hear 1 65537,3,2 9 9 .
differs | hear 1 65535,3,2 0 0 abc
differs | hear 1 65536,4,2 0 0 abc
differs | hear 1 65536,3,3 9 9 .
block | hear 2 7,3,2 2 9 .
symbol | hear 2 7,3,2 0 2 .
symbol | hear 2 7,3,2 0 1 abcdef
symbol | hear 2 7,3,2 1 1 g
length | hear 2 7,3,2 0 0 .
length | hear 2 7,3,2 0 1 de
length | hear 2 8,3,2 1 0 g
symbol | hear 2 7,3,3 0 1 defghij
part | hear 2 8,3,2 1 0 gh
68272 | settle 2 8,3,2 9
block | hear 2 - 2 0 abc
length | hear 2 - 0 0 .
done | hear 2 - 0 0 abc
0 | clear 1
0 | clear 1
0 | settle 3 - 7
no | has 3
0 | settle 3 7,3,2 7
done | hear 3 - 0 0 abc";

fn part_of(word: Option<&str>) -> u32 {
    word.unwrap_or("").parse().unwrap_or(0)
}

fn fti_of(word: &str) -> Option<Fti> {
    if word == "-" {
        return None;
    }
    let mut parts = word.split(',');
    Some(Fti {
        transfer: u64::from(part_of(parts.next())),
        instance: 0,
        symbol: part_of(parts.next()).min(65_535) as u16,
        tail: part_of(parts.next()).to_be_bytes(),
    })
}

fn answer_of(alloc: Global, heard: &WindowHeard) -> Result<String, Memory> {
    let word = match heard {
        WindowHeard::NoIds => "noids",
        WindowHeard::Shape => "shape",
        WindowHeard::Differs => "differs",
        WindowHeard::Block => "block",
        WindowHeard::Symbol => "symbol",
        WindowHeard::Length => "length",
        WindowHeard::Done => "done",
        WindowHeard::Part => "part",
        WindowHeard::Whole { text } => {
            let text = str::from_utf8(text.as_slice()).unwrap_or("?");
            return Ok(format!(in alloc; "whole {text}")?);
        }
    };
    Ok(String::from_str(alloc, word)?)
}

/// What the call of a row answers; of a call without an answer the bytes that the window then keeps.
fn called(alloc: Global, window: &mut Window, row: &str) -> Result<String, Memory> {
    let mut words = row.split(' ');
    let call = words.next().unwrap_or("");
    let first = words.next();
    let id = part_of(first);
    let fti = fti_of(words.next().unwrap_or("-"));
    let second = part_of(words.next());
    if call == "hear" {
        let esi = part_of(words.next()).min(65_535) as u16;
        let sbn = second.min(65_535) as u16;
        let payload = words.next().unwrap_or(".").trim_end_matches('.').as_bytes();
        let heard = window.hear(id, fti.as_ref(), &Body { sbn, esi, payload })?;
        return answer_of(alloc, &heard);
    }
    match call {
        "has" if window.has(id) => return Ok(String::from_str(alloc, "yes")?),
        "has" => return Ok(String::from_str(alloc, "no")?),
        "settle" => window.settle(id, fti.as_ref(), u64::from(second)),
        "clear" => window.clear(id),
        _ => window.expire(u64::from(id)),
    }
    Ok(format!(in alloc; "{}", window.buffered())?)
}

/// The first row that says another answer than its call gives.
fn wrong_row(alloc: Global, rows: &str) -> Result<Option<String>, Memory> {
    let mut window = Window::new(alloc)?;
    for row in rows.split('\n') {
        let (said, call) = row.split_once(" | ").unwrap_or(("", row));
        let answer = called(alloc, &mut window, call)?;
        if answer.as_str() != said {
            return Ok(Some(format!(in alloc; "{answer} for {row}")?));
        }
    }
    Ok(None)
}

#[test]
fn calls_answer_so(rt: HostRuntime) -> Result<(), Fail> {
    for rows in [PARTS, REASONS] {
        let wrong = wrong_row(rt.alloc(), rows)?;
        assert!(rt; wrong.is_none(), "{wrong:?}");
    }
    Ok(())
}

#[test]
fn the_first_slot_makes_room_for_a_17th(rt: HostRuntime) -> Result<(), Fail> {
    let mut window = Window::new(rt.alloc())?;
    let fti = Fti {
        transfer: 65_536,
        instance: 0,
        symbol: 1,
        tail: [0, 1, 0, 0],
    };
    let body = Body {
        sbn: 0,
        esi: 65_535,
        payload: b"z",
    };
    for id in 0..17u32 {
        let heard = window.hear(id, Some(&fti), &body)?;
        assert!(rt; matches!(heard, WindowHeard::Part), "at {id}");
    }
    assert_eq!(rt; window.buffered(), 1_179_648);
    assert_eq!(rt;
        [window.has(0), window.has(1), window.has(16)],
        [false, true, true]
    );
    window.clear(0);
    assert_eq!(rt; [window.has(1), window.has(2)], [false, true]);
    assert_eq!(rt; window.buffered(), 15 * 73_728);
    Ok(())
}
