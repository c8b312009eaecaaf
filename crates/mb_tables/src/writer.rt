ghost use Rattle.std.specs.Prelude.{◌≡◌, ◌++◌, flat_map, IfOk, OnOk, OnErr};
ghost use Rattle.mb_base.specs.Number.{be_bytes};
ghost use Rattle.mb_tables.specs.Tables.{IsTables, row_bytes, table_bytes};

use crate::reader::MAGIC;
use crate::{Row, Tables};
use mb_base::{Memory, put_be16, put_be32};

fn put_words(words: &[u32], out: &mut Vec<u8>) -> Result<(), Memory>
    ensures { OnOk result (out.new.items ≡ out.old.items ++ flat_map (be_bytes 4) words.now) }
{
    for word in words {
        put_be32(out, *word)?;
    }
    Ok(())
}

fn put_row(row: Row, out: &mut Vec<u8>) -> Result<(), Memory>
    ensures { OnOk result (out.new.items ≡ out.old.items ++ row_bytes row) }
{
    put_be16(out, row.k)?;
    put_be16(out, row.j)?;
    put_be16(out, row.s)?;
    put_be16(out, row.lp)?;
    Ok(())
}

fn put_rows(rows: &[Row], out: &mut Vec<u8>) -> Result<(), Memory>
    ensures { OnOk result (out.new.items ≡ out.old.items ++ flat_map row_bytes rows.now) }
{
    for row in rows {
        put_row(*row, out)?;
    }
    Ok(())
}

impl Tables {
    /// The bytes of the tables' file.
    fn file(&self) -> Result<Vec<u8>, Memory>
        ensures { IfOk result (λ bytes. IsTables bytes.items self.now) }
    {
        let mut bytes = Vec::new(self.alloc);
        bytes.extend_from_slice(&MAGIC)?;
        put_words(&self.v0, &mut bytes)?;
        put_words(&self.v1, &mut bytes)?;
        put_be16(&mut bytes, self.rows.len() as u16)?;
        put_rows(&self.rows, &mut bytes)?;
        Ok(bytes)
    }
}

/// Appends the file of the tables. `Memory` where there is no room for it; the bytes are then as before.
pub fn write_tables(t: &Tables, out: &mut Vec<u8>) -> Result<(), Memory>
    ensures appended { OnOk result (out.new.items ≡ out.old.items ++ table_bytes t.now) }
    ensures tables { OnOk result (IsTables (table_bytes t.now) t.now) }
    ensures kept { OnErr result (out.new.items ≡ out.old.items) }
{
    let bytes = t.file()?;
    out.extend_from_slice(&bytes)?;
    Ok(())
}
