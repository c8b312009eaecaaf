//! Worked symbols of small codes, and symbols against an elimination by hand.
use crate::{EncodeFault, Intermediate, usable};
use mb_base::MemSource;
use mb_bits::xor_plain;
use mb_rows::{Code, CodeFault};
use mb_tables::{Row, Tables, TablesFault, read_tables};
use std::alloc::Global;
use std::process::Abort;
use std::test::Fail;

/// Tables with multiples of two numbers as V0 and V1, and one row.
fn tables_with(alloc: Global, v0: u32, v1: u32, row: Row) -> Result<Tables, TablesFault> {
    let mut bytes = Vec::new(alloc);
    bytes.extend_from_slice(b"RAPTAB01")?;
    for factor in [v0, v1] {
        for i in 0..256u32 {
            bytes.extend_from_slice(&factor.wrapping_mul(i).to_be_bytes())?;
        }
    }
    bytes.extend_from_slice(&[0, 1])?;
    for number in [row.k, row.j, row.s, row.lp] {
        bytes.extend_from_slice(&number.to_be_bytes())?;
    }
    let mut source = MemSource::new(bytes, Vec::new(alloc))?;
    read_tables(alloc, &mut source)
}

#[test]
fn the_smallest_code_has_its_worked_symbols(rt: HostRuntime) -> Result<(), Fail> {
    let row = Row {
        k: 4,
        j: 0,
        s: 5,
        lp: 17,
    };
    let tables = tables_with(rt.alloc(), 70_001, 0, row)
        .ok()
        .ok_or("the tables")?;
    assert_eq!(rt; usable(rt.alloc(), &tables, 4), Ok(true));
    assert_eq!(rt; usable(rt.alloc(), &tables, 5), Err(CodeFault::NoRow(5)));
    let block = b"abcdefghijklmnop";
    let encoder = Intermediate::of(rt.alloc(), &tables, 4, 4, block)
        .ok()
        .ok_or("the encoder")?;
    assert_eq!(rt; encoder.t(), 4);
    let wanted = [
        *b"abcd",
        *b"efgh",
        *b"ijkl",
        *b"mnop",
        *b"abcd",
        [4, 4, 4, 12],
        [8, 8, 8, 24],
        [4, 4, 4, 28],
        *b"mno`",
        *b"abct",
    ];
    for esi in 0..10u16 {
        let mut out = [0xffu8; 4];
        encoder.symbol(esi, &mut out);
        assert_eq!(rt; out, wanted[usize::from(esi)]);
    }
    let no_row = Intermediate::of(rt.alloc(), &tables, 5, 0, &[]);
    assert_eq!(rt; no_row.err(), Some(EncodeFault::NoRow(5)));
    Ok(())
}

#[test]
fn a_code_whose_rows_are_alike_is_not_usable(rt: HostRuntime) -> Result<(), Fail> {
    let row = Row {
        k: 4,
        j: 0,
        s: 5,
        lp: 17,
    };
    let tables = tables_with(rt.alloc(), 0, 0, row).ok().ok_or("the tables")?;
    assert_eq!(rt; usable(rt.alloc(), &tables, 4), Ok(false));
    let none = Intermediate::of(rt.alloc(), &tables, 4, 4, b"abcdefghijklmnop");
    assert_eq!(rt; none.err(), Some(EncodeFault::Unusable(4)));
    Ok(())
}

/// Rows of at most 64 places by the first place that each has set, and which of the source symbols each sums.
#[derive(Drop)]
struct Basis {
    rows: [u64; 64],
    sums: [u64; 64],
}

// What the rows of the basis leave of a row, and the source symbols that were added to it.
fn reduced(basis: &Basis, row: u64, sum: u64) -> (u64, u64) {
    let mut row = row;
    let mut sum = sum;
    for place in 0..64 {
        if row >> place & 1 == 1 && basis.rows[place] != 0 {
            row ^= basis.rows[place];
            sum ^= basis.sums[place];
        }
    }
    (row, sum)
}

fn folded(rt: &impl Abort, code: &Code, esi: u16) -> u64 {
    let mut row = [u64::MAX];
    assert!(rt; code.k() <= 64);
    code.folded_row(esi, &mut row);
    row[0]
}

// The source symbols of ESIs below K as sums over the basis, or `None` where one follows from those before it.
fn basis_of(rt: &impl Abort, code: &Code) -> Option<Basis> {
    let mut basis = Basis {
        rows: [0; 64],
        sums: [0; 64],
    };
    for n in 0..code.k().min(64) {
        let (row, sum) = reduced(&basis, folded(rt, code, n), 1 << n);
        let place = row.trailing_zeros() as usize;
        if 64 <= place {
            return None;
        }
        basis.rows[place] = row;
        basis.sums[place] = sum;
    }
    Some(basis)
}

// Whether the symbols of a block are those that the elimination by hand gives.
fn agrees(
    rt: &impl Abort,
    code: &Code,
    encoder: &Intermediate,
    basis: &Basis,
    block: &[u8],
) -> bool {
    assert_eq!(rt; encoder.t(), 3);
    for esi in 0..300u16 {
        let (left, sum) = reduced(basis, folded(rt, code, esi), 0);
        let mut wanted = [0u8; 3];
        for n in 0..block.len() / 3 {
            if n < 64 && sum >> n & 1 == 1 {
                xor_plain(&mut wanted, &block[3 * n..3 * n + 3]);
            }
        }
        let mut out = [0xffu8; 3];
        encoder.symbol(esi, &mut out);
        if left != 0 || out != wanted {
            return false;
        }
    }
    true
}

// Whether blocks of this row can be encoded, by which the encoder and the elimination by hand agree.
fn is_encoded(rt: &(impl AllocGlobal + Abort), row: Row, block: &[u8]) -> Result<bool, Fail> {
    let k = row.k;
    let tables = tables_with(rt.alloc(), 2_654_435_761, 2_246_822_507, row)
        .ok()
        .ok_or("the tables")?;
    let code = Code::new(rt.alloc(), &tables, k).ok().ok_or("the code")?;
    assert_eq!(rt; block.len(), 3 * usize::from(k));
    match Intermediate::of(rt.alloc(), &tables, k, 3, block) {
        Ok(encoder) => {
            let basis = basis_of(rt, &code).ok_or("the basis")?;
            assert!(rt; agrees(rt, &code, &encoder, &basis, block));
            Ok(true)
        }
        Err(fault) => {
            assert_eq!(rt; fault, EncodeFault::Unusable(k));
            assert!(rt; basis_of(rt, &code).is_none());
            Ok(false)
        }
    }
}

#[test]
fn symbols_are_those_of_an_elimination_by_hand(rt: HostRuntime) -> Result<(), Fail> {
    let text =
        b"The encoder of a block keeps its intermediate symbols; each encoding symbol is the sum of a few of them, and none other!";
    for (k, s, lp) in [(4, 5, 17), (10, 8, 37), (40, 11, 59)] {
        let block = &text[..3 * usize::from(k).min(40)];
        let mut yes = false;
        let mut no = false;
        for j in 0..12 {
            let row = Row { k, j, s, lp };
            if is_encoded(&rt, row, block)? {
                yes = true;
            } else {
                no = true;
            }
        }
        assert!(rt; yes && no);
    }
    Ok(())
}
