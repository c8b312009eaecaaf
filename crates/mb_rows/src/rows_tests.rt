//! Worked numbers of small codes, and rows against elimination by hand.
use crate::{Code, CodeFault, Triple};
use mb_base::MemSource;
use mb_bits::{add_row, has_bit, words_for};
use mb_tables::{Row, Tables, TablesFault, read_tables};
use std::alloc::Global;
use std::process::Abort;
use std::test::Fail;

/// Tables with V0[i] = first + step i, V1[i] = 0, and one row.
fn tables_with(alloc: Global, first: u32, step: u32, row: Row) -> Result<Tables, TablesFault> {
    let mut bytes = Vec::new(alloc);
    bytes.extend_from_slice(b"RAPTAB01")?;
    for i in 0..256u32 {
        let word = first.wrapping_add(step.wrapping_mul(i));
        bytes.extend_from_slice(&word.to_be_bytes())?;
    }
    for _ in 0..256 {
        bytes.extend_from_slice(&[0; 4])?;
    }
    bytes.extend_from_slice(&[0, 1])?;
    for number in [row.k, row.j, row.s, row.lp] {
        bytes.extend_from_slice(&number.to_be_bytes())?;
    }
    let mut source = MemSource::new(bytes, Vec::new(alloc))?;
    read_tables(alloc, &mut source)
}

/// The code of these tables.
fn code_with(alloc: Global, first: u32, step: u32, row: Row) -> Result<Code, CodeFault> {
    match tables_with(alloc, first, step, row) {
        Ok(tables) => Code::new(alloc, &tables, row.k),
        Err(_) => Err(CodeFault::Memory),
    }
}

/// The code of tables with V0[i] = 70001 i.
fn code_of(alloc: Global, k: u16, s: u16, lp: u16) -> Result<Code, CodeFault> {
    code_with(alloc, 0, 70_001, Row { k, j: 0, s, lp })
}

// The LT row of an ESI and its folded row, of a code with one word in each.
fn rows(rt: &impl Abort, code: &Code, esi: u16) -> (u64, u64) {
    assert_eq!(rt; words_for(usize::from(code.l())), 1);
    assert_eq!(rt; words_for(usize::from(code.k())), 1);
    let mut row = [u64::MAX];
    let mut folded = [u64::MAX];
    code.lt_row(esi, &mut row);
    code.folded_row(esi, &mut folded);
    (row[0], folded[0])
}

// Whether the folded row of an ESI is what the constraints leave of its LT row, the last symbol replaced first.
fn agrees(
    rt: &impl Abort,
    code: &Code,
    esi: u16,
    row: &mut [u64],
    other: &mut [u64],
    folded: &mut [u64],
) -> bool {
    let l = code.l();
    let k = code.k();
    assert_eq!(rt; row.len(), words_for(usize::from(l)));
    assert_eq!(rt; other.len(), words_for(usize::from(l)));
    assert_eq!(rt; folded.len(), words_for(usize::from(k)));
    code.lt_row(esi, row);
    code.folded_row(esi, folded);
    for i in (0..l - k).rev() {
        if has_bit(row, usize::from(k) + usize::from(i)) {
            code.constraint(i, other);
            add_row(row, other, 0);
        }
    }
    for place in 0..64 * row.len() {
        let left = place < 64 * folded.len() && has_bit(folded, place);
        if has_bit(row, place) != left {
            return false;
        }
    }
    true
}

#[test]
fn the_smallest_code_has_its_worked_rows(rt: HostRuntime) -> Result<(), Fail> {
    let code = code_of(rt.alloc(), 4, 5, 17).ok().ok_or("the code")?;
    assert_eq!(rt; [code.k(), code.l()], [4, 14]);
    let triples = [
        (10, 13, 8),
        (3, 4, 15),
        (2, 10, 15),
        (2, 16, 3),
        (11, 6, 3),
        (3, 12, 8),
        (3, 2, 8),
        (2, 9, 15),
        (1, 15, 3),
        (10, 5, 3),
    ];
    let rows_of = [
        (10_103, 7),
        (1_092, 1),
        (258, 14),
        (12, 12),
        (7_931, 7),
        (1_288, 6),
        (5_376, 13),
        (384, 2),
        (8, 8),
        (11_230, 3),
    ];
    for esi in 0..10u16 {
        let (d, a, b) = triples[usize::from(esi)];
        assert_eq!(rt; code.triple(esi), Triple { d, a, b });
        assert_eq!(rt; rows(&rt, &code, esi), rows_of[usize::from(esi)]);
    }
    Ok(())
}

// Constraint i, of a code with one word in each.
fn constraint(rt: &impl Abort, code: &Code, i: u16) -> u64 {
    assert_eq!(rt; words_for(usize::from(code.l())), 1);
    assert!(rt; i < code.l() - code.k());
    let mut row = [u64::MAX];
    code.constraint(i, &mut row);
    row[0]
}

// The sum of the symbols at the places of a row, each of them a sum of the first four, which are the bits of a number.
fn sum_over(row: u64, symbols: &[u64; 14]) -> u64 {
    let mut sum = 0;
    for place in 0..14usize {
        if row >> place & 1 == 1 {
            sum ^= symbols[place];
        }
    }
    sum
}

#[test]
fn the_smallest_code_has_its_worked_symbols(rt: HostRuntime) -> Result<(), Fail> {
    let code = code_of(rt.alloc(), 4, 5, 17).ok().ok_or("the code")?;
    let symbols = [1, 2, 4, 8, 9, 3, 7, 14, 12, 12, 2, 2, 3, 15];
    for i in 0..10 {
        assert_eq!(rt; sum_over(constraint(&rt, &code, i), &symbols), 0);
    }
    for esi in 0..100 {
        let (row, folded) = rows(&rt, &code, esi);
        assert_eq!(rt; sum_over(row, &symbols), folded);
    }
    // Bit h of m[j, 3] is set where half symbol h takes symbol j.
    let marks = [7, 13, 14, 11, 25, 26, 28, 21, 22];
    for h in 0..5u16 {
        let row = constraint(&rt, &code, 5 + h);
        for j in 0..9usize {
            assert_eq!(rt; row >> j & 1, marks[j] >> h & 1);
        }
    }
    Ok(())
}

#[test]
fn degrees_go_by_their_bounds(rt: HostRuntime) -> Result<(), Fail> {
    let row = Row {
        k: 100,
        j: 0,
        s: 17,
        lp: 127,
    };
    for (v, degree) in [(10_240, 1), (10_241, 2), (1_048_575, 40)] {
        let code = code_with(rt.alloc(), v, 0, row).ok().ok_or("the code")?;
        assert_eq!(rt; code.l(), 126);
        assert_eq!(rt; code.triple(7).d, degree);
    }
    Ok(())
}

#[test]
fn constraints_take_a_place_twice_as_none(rt: HostRuntime) -> Result<(), Fail> {
    let code = code_of(rt.alloc(), 4, 6, 17).ok().ok_or("the code")?;
    let wanted = [
        17u64, 35, 71, 142, 268, 520, 1_691, 2_861, 4_551, 8_318, 17_392,
    ];
    assert_eq!(rt; code.l() - code.k(), 11);
    for i in 0..11u16 {
        assert_eq!(rt; constraint(&rt, &code, i), wanted[usize::from(i)]);
    }
    assert_eq!(rt; rows(&rt, &code, 0), (26_483, 10));
    Ok(())
}

#[test]
fn folded_rows_are_what_the_constraints_leave(rt: HostRuntime) -> Result<(), Fail> {
    for (k, s, lp) in [(4, 5, 17), (10, 8, 37), (64, 13, 87), (100, 17, 127)] {
        let code = code_of(rt.alloc(), k, s, lp).ok().ok_or("the code")?;
        let mut row = [0; 2];
        let mut other = [0; 2];
        let mut folded = [0; 2];
        let row = &mut row[..words_for(usize::from(code.l())).min(2)];
        let other = &mut other[..words_for(usize::from(code.l())).min(2)];
        let folded = &mut folded[..words_for(usize::from(k)).min(2)];
        for esi in 0..200u16 {
            assert!(rt; agrees(&rt, &code, esi, row, other, folded));
        }
    }
    Ok(())
}

#[test]
fn the_largest_code_is_made(rt: HostRuntime) -> Result<(), Fail> {
    let code = code_of(rt.alloc(), 8_192, 512, 17_439)
        .ok()
        .ok_or("the code")?;
    assert_eq!(rt; [code.k(), code.l()], [8_192, 8_720]);
    let mut row = vec![in rt.alloc(); 0; words_for(8_720)]?;
    let mut other = vec![in rt.alloc(); 0; words_for(8_720)]?;
    let mut folded = vec![in rt.alloc(); 0; words_for(8_192)]?;
    assert!(rt; agrees(&rt, &code, 65_535, &mut row, &mut other, &mut folded));
    let tables = Tables::none(rt.alloc()).ok().ok_or("memory")?;
    assert_eq!(rt;
        Code::new(rt.alloc(), &tables, 4).err(),
        Some(CodeFault::NoRow(4))
    );
    Ok(())
}
