//! What ESIs determine, by the equations in all L intermediate symbols, against the elimination of folded rows.
use crate::usable;
use mb_base::{MemSource, word};
use mb_bits::words_for;
use mb_elim::{Elim, Offer};
use mb_rows::Code;
use mb_tables::{Row, Tables, TablesFault, read_tables};
use std::alloc::Global;
use std::process::Abort;
use std::test::Fail;

/// Tables with numbers that look random, and one row.
fn tables_of(alloc: Global, seed: u32, row: Row) -> Result<Tables, TablesFault> {
    let mut bytes = Vec::new(alloc);
    bytes.extend_from_slice(b"RAPTAB01")?;
    for i in 0..512u32 {
        bytes.extend_from_slice(&word(seed, i).to_be_bytes())?;
    }
    bytes.extend_from_slice(&[0, 1])?;
    for number in [row.k, row.j, row.s, row.lp] {
        bytes.extend_from_slice(&number.to_be_bytes())?;
    }
    let mut source = MemSource::new(bytes, Vec::new(alloc))?;
    read_tables(alloc, &mut source)
}

// The constraints, of a code with one word in each.
fn constraints_of(rt: &(impl AllocGlobal + Abort), code: &Code) -> Result<Vec<u64>, Fail> {
    assert_eq!(rt; words_for(usize::from(code.l())), 1);
    let mut rows = Vec::new(rt.alloc());
    for i in 0..code.l() - code.k() {
        let mut row = [0];
        code.constraint(i, &mut row);
        rows.push(row[0])?;
    }
    Ok(rows)
}

fn lt_row(rt: &impl Abort, code: &Code, esi: u16) -> u64 {
    assert_eq!(rt; words_for(usize::from(code.l())), 1);
    let mut row = [0];
    code.lt_row(esi, &mut row);
    row[0]
}

// Offers the folded row of an ESI, and says whether it was a sum of those before it.
fn is_determined(rt: &impl Abort, code: &Code, elim: &mut Elim, esi: u16) -> bool {
    assert_eq!(rt; words_for(usize::from(code.k())), 1);
    assert_eq!(rt; elim.places(), code.k());
    let mut row = [0];
    code.folded_row(esi, &mut row);
    elim.offer(&row) == Offer::Determined
}

// Whether the row sums the values to zero.
fn is_zero(row: u64, values: u64) -> bool {
    (row & values).count_ones() % 2 == 0
}

// Of all values of the L symbols those that meet the constraints.
fn values_of(rt: &(impl AllocGlobal + Abort), code: &Code) -> Result<Vec<u64>, Fail> {
    let constraints = constraints_of(rt, code)?;
    let mut met = Vec::new(rt.alloc());
    for values in 0..1u64 << code.l().min(20) {
        if constraints.iter().all(|row| is_zero(*row, values)) {
            met.push(values)?;
        }
    }
    Ok(met)
}

// The ESI of this number that a seed draws: of few, so that some come twice, of all, or in their order.
fn drawn(seed: u32, i: u32) -> u16 {
    match seed % 3 {
        0 => (word(seed, i) % 16) as u16,
        1 => (word(seed, i) % 65_536) as u16,
        _ => (i % 65_536) as u16,
    }
}

// Offers the drawn ESIs, and compares each answer with what all values say that the ones before it determine. Says
// whether the first K of them determined the block.
fn all_values_agree(
    rt: &(impl AllocGlobal + Abort),
    code: &Code,
    met: &[u64],
    seed: u32,
) -> Result<bool, Fail> {
    let mut left = met.to_vec(rt.alloc())?;
    let mut elim = Elim::new(rt.alloc(), code.k())?;
    let mut full = false;
    for i in 0..40u32 {
        if i == u32::from(code.k()) {
            full = elim.is_full();
        }
        let esi = drawn(seed, i);
        let row = lt_row(rt, code, esi);
        let wanted = left.iter().all(|values| is_zero(row, *values));
        assert_eq!(rt; is_determined(rt, code, &mut elim, esi), wanted);
        left.retain(|values| is_zero(row, *values));
        assert_eq!(rt; elim.is_full(), left.len() == 1);
    }
    Ok(full)
}

#[test]
fn esis_determine_what_all_values_say(rt: HostRuntime) -> Result<(), Fail> {
    let mut seen = [false; 2];
    for (k, s, lp) in [(4, 5, 17), (4, 6, 17), (5, 5, 15), (5, 6, 31)] {
        for seed in 0..12 {
            let j = (word(seed, 0) % 65_536) as u16;
            let row = Row { k, j, s, lp };
            let tables = tables_of(rt.alloc(), seed, row).ok().ok_or("the tables")?;
            let code = Code::new(rt.alloc(), &tables, k).ok().ok_or("the code")?;
            let met = values_of(&rt, &code)?;
            assert_eq!(rt; met.len(), 1 << k);
            for draw in 0..12 {
                let full = all_values_agree(&rt, &code, &met, draw)?;
                if draw == 2 {
                    assert_eq!(rt; usable(rt.alloc(), &tables, k), Ok(full));
                    seen[usize::from(full)] = true;
                }
            }
        }
    }
    assert!(rt; seen[0] && seen[1]);
    Ok(())
}

// Adds the row to rows of which each begins at another place, unless nothing is left of it.
fn is_new(begun: &mut [u64; 64], row: u64) -> bool {
    let mut left = row;
    for i in 0..64usize {
        if left >> i & 1 == 1 {
            if begun[i] == 0 {
                begun[i] = left;
                return true;
            }
            left ^= begun[i];
        }
    }
    false
}

// Offers the drawn ESIs, and compares each answer with an elimination of the constraints and LT rows.
fn all_symbols_agree(
    rt: &(impl AllocGlobal + Abort),
    code: &Code,
    constraints: &[u64],
    seed: u32,
) -> Result<(), Fail> {
    let mut begun = [0; 64];
    for row in constraints {
        assert!(rt; is_new(&mut begun, *row));
    }
    let mut elim = Elim::new(rt.alloc(), code.k())?;
    for i in 0..120u32 {
        let esi = drawn(seed, i);
        let row = lt_row(rt, code, esi);
        assert_eq!(rt;
            is_determined(rt, code, &mut elim, esi),
            !is_new(&mut begun, row)
        );
    }
    Ok(())
}

#[test]
fn esis_determine_what_an_elimination_of_all_symbols_says(rt: HostRuntime) -> Result<(), Fail> {
    for (k, s, lp) in [
        (4, 5, 17),
        (7, 6, 23),
        (12, 7, 27),
        (23, 9, 41),
        (40, 11, 59),
    ] {
        for seed in 0..12 {
            let j = (word(seed, 0) % 65_536) as u16;
            let row = Row { k, j, s, lp };
            let tables = tables_of(rt.alloc(), seed, row).ok().ok_or("the tables")?;
            let code = Code::new(rt.alloc(), &tables, k).ok().ok_or("the code")?;
            let constraints = constraints_of(&rt, &code)?;
            for draw in 0..12 {
                all_symbols_agree(&rt, &code, &constraints, draw)?;
            }
        }
    }
    Ok(())
}
