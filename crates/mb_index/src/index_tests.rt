//! Lists of TOIs, with TOIs that are looked up in them and their places. In a row `2.3` is the TOI 2 * 2^64 + 3.
use crate::Index;
use mb_base::Memory;
use std::alloc::Global;
use std::test::Fail;

/// The TOIs that are added, then one that is looked up and its place, which is `-` where it is absent, and so on.
const ROWS: &str = " | 0 -
5 | 5 0 | 4 - | 6 - | 0 -
1 2 3 4 5 | 1 0 | 3 2 | 5 4 | 0 - | 6 -
9 8 7 6 | 9 0 | 8 1 | 7 2 | 6 3 | 5 - | 10 -
50 10 40 20 30 | 10 1 | 20 3 | 30 4 | 40 2 | 50 0 | 0 - | 15 - | 45 - | 60 -
2.3 3 1.3 | 3 1 | 1.3 2 | 2.3 0 | 3.3 - | 1.2 - | 1.4 - | 2 -
0 281474976710655.18446744073709551615 0.18446744073709551615 1.0 | 0 0
281474976710655.18446744073709551615 0 0.18446744073709551615 | 281474976710655.18446744073709551615 0 | 0 1
1.0 0.18446744073709551615 | 1.0 0 | 0.18446744073709551615 1 | 0 - | 1.18446744073709551615 -";

fn half_of(word: &str) -> u64 {
    word.parse().unwrap_or(0)
}

fn toi_of(word: &str) -> u128 {
    let (high, low) = word.split_once('.').unwrap_or(("0", word));
    (u128::from(half_of(high)) << 64) + u128::from(half_of(low))
}

/// The first look-up of a row whose answer is another.
fn wrong_place(alloc: Global, index: &mut Index, row: &str) -> Result<Option<String>, Memory> {
    index.clear();
    let mut parts = row.split(" | ");
    for word in parts.next().unwrap_or("").split_ascii_whitespace() {
        let toi = toi_of(word);
        if index.place(toi).is_none() && index.len() < 1_024 {
            index.add(toi);
        }
    }
    for part in parts {
        let (toi, place) = part.split_once(' ').unwrap_or(("", ""));
        if index.place(toi_of(toi)) != place.parse().ok() {
            return Ok(Some(format!(in alloc; "{part} of {row}")?));
        }
    }
    Ok(None)
}

#[test]
fn tois_stand_where_they_were_added(rt: HostRuntime) -> Result<(), Fail> {
    let mut index = Index::new(rt.alloc())?;
    for row in ROWS.split('\n') {
        let wrong = wrong_place(rt.alloc(), &mut index, row)?;
        assert!(rt; wrong.is_none(), "{wrong:?}");
    }
    assert_eq!(rt; index.len(), 2);
    Ok(())
}

#[test]
fn a_full_index_has_1024_tois(rt: HostRuntime) -> Result<(), Fail> {
    let mut index = Index::new(rt.alloc())?;
    for n in 0..1_024u32 {
        let toi = u128::from(n * 733 % 1_024);
        if index.place(toi).is_none() && index.len() < 1_024 {
            index.add(toi);
        }
    }
    assert_eq!(rt; index.len(), 1_024);
    for n in 0..1_024u32 {
        let toi = u128::from(n * 733 % 1_024);
        assert_eq!(rt; index.place(toi), Some(n as usize));
    }
    assert_eq!(rt; index.place(1_024), None);
    Ok(())
}
