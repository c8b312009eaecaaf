ghost use Rattle.std.specs.Prelude.{◌≡◌, length, IfOk};
ghost use Rattle.mb_tables.specs.Limits.{IsK};

use crate::told;
use anyhow::{Result, bail};
use mb_base::{MemSource, word};
use mb_encoder::usable;
use mb_tables::{Tables, make_row, read_tables};
use std::alloc::{AllocError, Global};
use std::time::{Clock, Instant};

/// Tables with numbers that look random, and no row.
fn numbers(alloc: Global) -> Result<Tables> {
    let mut bytes = Vec::new(alloc);
    bytes.extend_from_slice(b"RAPTAB01")?;
    for i in 0..512u32 {
        bytes.extend_from_slice(&word(1, i).to_be_bytes())?;
    }
    bytes.extend_from_slice(&[0, 0])?;
    let mut source = MemSource::new(bytes, Vec::new(alloc))?;
    Ok(read_tables(alloc, &mut source)?)
}

/// Tables with the row that is made for K and J.
pub(crate) fn tables_of(alloc: Global, k: u16, j: u16) -> Result<Tables> {
    if k < 4 || 8_192 < k {
        bail!("K is 4 to 8,192");
    }
    let mut tables = numbers(alloc)?;
    let row = make_row(&tables, k, j);
    tables.add(row)?;
    Ok(tables)
}

/// Prints the first J by which K is usable.
pub(crate) fn find(rt: &(impl Print + AllocGlobal), k: u16) -> Result<()> {
    for j in 0..=u16::MAX {
        if usable(rt.alloc(), &tables_of(rt.alloc(), k, j)?, k)? {
            println!(rt; "j {j}")?;
            return Ok(());
        }
    }
    bail!("no J makes it usable");
}

/// Makes the tables, and nothing else.
pub(crate) fn make(rt: &(impl Print + AllocGlobal), k: u16, j: u16) -> Result<()> {
    tables_of(rt.alloc(), k, j)?;
    Ok(())
}

/// How long `usable` takes.
pub(crate) fn ask(rt: &(impl Clock + Print + AllocGlobal), k: u16, j: u16) -> Result<()> {
    let tables = tables_of(rt.alloc(), k, j)?;
    let start = Instant::now(rt)?;
    if !usable(rt.alloc(), &tables, k)? {
        bail!("not usable");
    }
    told(rt, "usable", start)?;
    Ok(())
}

/// Bytes that are all zero.
pub(crate) fn zero_bytes(alloc: Global, count: usize) -> Result<Vec<u8>, AllocError>
    ensures { IfOk result (λ bytes. length bytes.items ≡ count) }
{
    vec![in alloc; 0; count]
}

/// Words that are all zero.
pub(crate) fn zero_words(alloc: Global, count: usize) -> Result<Vec<u64>, AllocError>
    ensures { IfOk result (λ words. length words.items ≡ count) }
{
    vec![in alloc; 0; count]
}
