//! Offered rows against all values that solve them and against a plain elimination, and values that are replayed.
use crate::{Elim, Offer};
use mb_bits::{has_bit, words_for};
use std::process::Abort;
use std::test::Fail;

// The next of numbers that look random.
fn next(seed: &mut u64) -> u64 {
    *seed = seed
        .wrapping_mul(6_364_136_223_846_793_005)
        .wrapping_add(1_442_695_040_888_963_407);
    *seed >> 24
}

// Whether the row sums to zero each list of five bits that the others do.
fn follows(rows: &[u64], row: u64) -> bool {
    for values in 0u64..32 {
        let solved = rows
            .iter()
            .all(|other| (*other & values).count_ones() % 2 == 0);
        if solved && (row & values).count_ones() % 2 == 1 {
            return false;
        }
    }
    true
}

// Adds the row to rows of which each begins at another place, unless nothing is left of it.
fn is_new(begun: &mut [u64; 64], row: u64) -> bool {
    let mut left = row;
    for i in 0..64usize {
        if left >> i & 1 == 1 {
            if begun[i] == 0 {
                begun[i] = left;
                return true;
            }
            left ^= begun[i];
        }
    }
    false
}

// Offers a row, and says whether it was new, as `would_be_new` has to say before.
fn offered(rt: &impl Abort, elim: &mut Elim, row: u64) -> bool {
    assert_eq!(rt; words_for(elim.places() as usize), 1);
    let rank = elim.rank();
    let mut scratch = [0];
    let would = elim.would_be_new(&[row], &mut scratch);
    let offer = elim.offer(&[row]);
    assert_eq!(rt; offer == Offer::New(rank), would);
    assert_eq!(rt; offer == Offer::Determined, !would);
    would
}

fn agrees_with_all_values(rt: &impl Abort, elim: Elim, seed: u64, places: u64) {
    let mut elim = elim;
    let mut seed = seed;
    let mut rows = [0; 8];
    for i in 0..8usize {
        let row = next(&mut seed) & places;
        assert_eq!(rt; offered(rt, &mut elim, row), !follows(&rows, row));
        rows[i] = row;
    }
}

#[test]
fn a_row_is_determined_where_all_values_say_so(rt: HostRuntime) -> Result<(), Fail> {
    for seed in 0..60 {
        agrees_with_all_values(&rt, Elim::new(rt.alloc(), 4)?, seed, 15);
        agrees_with_all_values(&rt, Elim::new(rt.alloc(), 5)?, seed, 31);
    }
    Ok(())
}

#[test]
fn a_plain_elimination_gives_the_same_answers(rt: HostRuntime) -> Result<(), Fail> {
    let mut elim = Elim::new(rt.alloc(), 40)?;
    let mut begun = [0; 64];
    let mut seed = 1;
    for _ in 0..80 {
        let row = next(&mut seed);
        assert_eq!(rt; offered(&rt, &mut elim, row), is_new(&mut begun, row));
    }
    assert!(rt; elim.is_full());
    let mut copy = elim.copy(rt.alloc())?;
    assert!(rt; !offered(&rt, &mut copy, 1));
    Ok(())
}

#[test]
fn rows_of_the_smallest_code_are_told_apart(rt: HostRuntime) -> Result<(), Fail> {
    let mut elim = Elim::new(rt.alloc(), 4)?;
    for row in [7, 6, 8] {
        assert!(rt; offered(&rt, &mut elim, row));
    }
    let mut copy = elim.copy(rt.alloc())?;
    assert_eq!(rt; copy.rank(), 3);
    for (row, is_new) in [(7, false), (1, false), (14, false), (12, true)] {
        assert_eq!(rt; offered(&rt, &mut copy, row), is_new, "{row}");
    }
    assert_eq!(rt; [elim.rank(), copy.rank()], [3, 4]);
    Ok(())
}

// Byte `b` of unknown `i`.
fn unknown(i: usize, b: usize) -> u8 {
    (i.wrapping_mul(i)
        .wrapping_mul(7)
        .wrapping_add(b.wrapping_mul(31))
        % 251) as u8
}

#[test]
fn values_of_new_rows_give_the_unknowns(rt: HostRuntime) -> Result<(), Fail> {
    let mut elim = Elim::new(rt.alloc(), 70)?;
    let mut stripe = [0u8; 140];
    let mut seed = 5;
    for _ in 0..90 {
        assert_eq!(rt; words_for(elim.places() as usize), 2);
        let row = [
            next(&mut seed) << 24 ^ next(&mut seed),
            next(&mut seed) % 64,
        ];
        if let Offer::New(n) = elim.offer(&row) {
            let n = n as usize;
            assert!(rt; n < 70);
            for i in 0..70usize {
                if has_bit(&row, i) {
                    stripe[2 * n] ^= unknown(i, 0);
                    stripe[2 * n + 1] ^= unknown(i, 1);
                }
            }
        }
    }
    assert_eq!(rt; elim.places(), 70);
    assert!(rt; elim.is_full());
    elim.replay(&mut stripe, 2);
    for i in 0..70usize {
        assert_eq!(rt;
            [stripe[2 * i], stripe[2 * i + 1]],
            [unknown(i, 0), unknown(i, 1)],
            "{i}"
        );
    }
    Ok(())
}
