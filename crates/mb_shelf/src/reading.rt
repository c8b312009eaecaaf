ghost use Rattle.std.specs.Prelude.{◌≡◌, ℕ, ◌<◌, ◌≤◌, List, Ok, Err, length, IfOk, vec_len};
ghost use Rattle.mb_base.specs.Outside.{Becomes, Loses};
ghost use Rattle.mb_shelf.specs.Reading.{TakesAll, TakesAllAt, LosesSomeAt, AreMore, AreMoreAt, HasReadCause};

use crate::{ReadAllFault, Shelf};
use mb_base::{Source, room};
use std::alloc::Global;

/// How many bytes one read asks for.
const PIECE: usize = 65_536;

/// Reads all bytes to come of `src`, of which at most `limit` are allowed. At no time more than `limit` and
/// the bytes of one read are kept.
///
/// `Fault` where the source failed, `TooLong` exactly where more than `limit` bytes came, and `Memory`
/// where there is no room for them. After each of these some of the first bytes may be read.
pub fn read_all<S: Source>(
    alloc: Global,
    src: &mut S,
    limit: usize,
) -> Result<Vec<u8>, ReadAllFault>
    ensures all { IfOk result (λ bytes. Becomes (S.left src.old) (S.left src.new) (TakesAll bytes.items)) }
    ensures within { IfOk result (λ bytes. vec_len bytes ≤ limit) }
    ensures too_long { result ≡ Err ReadAllFault.TooLong → AreMore limit (S.left src.old) }
    ensures part { (some : List ℕ) × Loses (S.left src.old) (S.left src.new) some }
    ensures cause { HasReadCause (S.faults src.old) (S.faults src.new) result }
    ensures same { S.made src.new ≡ S.made src.old }
{
    let mut piece = room(alloc, PIECE)?;
    let mut bytes = Vec::new(alloc);
    while bytes.len() <= limit {
        let count = src.read(&mut piece)?;
        if count == 0 {
            return Ok(bytes);
        }
        bytes.extend_from_slice(&piece[..count])?;
    }
    Err(ReadAllFault::TooLong)
}

/// Reads all bytes to come of the file `file` of `shelf`, of which at most `limit` are allowed. At no time
/// more than `limit` and the bytes of one read are kept. The other files stay as they are.
///
/// `Fault` where the shelf failed, `TooLong` exactly where the file has more than `limit` bytes to come,
/// and `Memory` where there is no room for them. After each of these some of the file's first bytes may be
/// read.
pub fn read_file<F: Shelf>(
    alloc: Global,
    shelf: &mut F,
    file: u32,
    limit: usize,
) -> Result<Vec<u8>, ReadAllFault>
    ensures all { IfOk result (λ bytes. Becomes (F.left shelf.old) (F.left shelf.new) (TakesAllAt file bytes.items)) }
    ensures within { IfOk result (λ bytes. vec_len bytes ≤ limit) }
    ensures too_long { result ≡ Err ReadAllFault.TooLong → AreMoreAt file limit (F.left shelf.old) }
    ensures part { Becomes (F.left shelf.old) (F.left shelf.new) (LosesSomeAt file) }
    ensures cause { HasReadCause (F.faults shelf.old) (F.faults shelf.new) result }
    ensures same { F.made shelf.new ≡ F.made shelf.old }
{
    let mut piece = room(alloc, PIECE)?;
    let mut bytes = Vec::new(alloc);
    while bytes.len() <= limit {
        let count = shelf.read(file, &mut piece)?;
        if count == 0 {
            return Ok(bytes);
        }
        bytes.extend_from_slice(&piece[..count])?;
    }
    Err(ReadAllFault::TooLong)
}
