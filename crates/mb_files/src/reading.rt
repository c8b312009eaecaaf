ghost use Rattle.std.specs.Prelude.{◌≡◌, ℕ, ◌+◌, ◌^◌, ◌<◌, ◌≤◌, List, Ok, Err, Option, length, All, IfOk, IfErr, IfSome, IsUtf8};
ghost use Rattle.mb_base.specs.Outside.{Becomes};
ghost use Rattle.mb_shelf.specs.Shelf.{left_at};
ghost use Rattle.mb_shelf.specs.Reading.{TakesAllAt, LosesSomeAt};
ghost use Rattle.mb_files.specs.Description.{described_by};
ghost use Rattle.mb_files.specs.Files.{files_of, AreDescribed, IsWhyBad, IsWhyBadAt, IsInPlace, IsReached, HasFilesCause};

use crate::{FilesFault, Layout, describe};
use mb_base::Bytes;
use mb_geom::{Desc, DescFault};
use mb_shelf::{ReadAllFault, Shelf, read_file};
use std::alloc::Global;

/// The most bytes of a file.
const MAX_LENGTH: usize = 1 << 28;

/// A file with its description.
#[derive(Drop)]
pub struct SentFile {
    /// Its description.
    pub desc: Desc,
    /// Its bytes, as many as the description says.
    pub bytes: Bytes,
}

/// Reads the file `index` of the shelf, counted from 0, and describes it.
fn read_sent<F: Shelf>(
    alloc: Global,
    layout: &Layout,
    location: &[u8],
    shelf: &mut F,
    index: u32,
) -> Result<SentFile, FilesFault>
    requires location { IsUtf8 location.now }
    requires number { index + 1 < 2 ^ 32 }
    ensures described { IfOk result (λ file. described_by layout.now location.now file.bytes ≡ Ok file.desc) }
    ensures all { IfOk result (λ file. Becomes (F.left shelf.old) (F.left shelf.new) (TakesAllAt index file.bytes)) }
    ensures bad { IfErr result (λ fault. IfSome (F.left shelf.old) (λ contents. IsWhyBadAt layout.now location.now index (left_at index contents) fault)) }
    ensures place { IfErr result (IsInPlace (index + 1)) }
    ensures part { Becomes (F.left shelf.old) (F.left shelf.new) (LosesSomeAt index) }
    ensures cause { HasFilesCause (F.faults shelf.old) (F.faults shelf.new) result }
    ensures same { F.made shelf.new ≡ F.made shelf.old }
{
    let bytes = match read_file(alloc, shelf, index, MAX_LENGTH) {
        Ok(bytes) => bytes,
        Err(ReadAllFault::Fault) => return Err(FilesFault::Fault),
        Err(ReadAllFault::TooLong) => return Err(FilesFault::bad(index + 1, DescFault::TooLong)),
        Err(ReadAllFault::Memory) => return Err(FilesFault::Memory),
    };
    match describe(alloc, layout, location, &bytes)? {
        Ok(desc) => Ok(SentFile {
            desc,
            bytes: Bytes::from_vec(bytes),
        }),
        Err(fault) => Err(FilesFault::bad(index + 1, fault)),
    }
}

/// Reads the files at these locations, each a text in UTF-8, and describes them: the file of each location has the
/// whole content of its number on the shelf, counted from 0. One file is read and described after the other, up to
/// the first that can't be.
///
/// `Bad` where the layout can't describe a file, or it has more than 2^28 bytes, of which no more than these and the
/// bytes of one read are kept. `Fault` where the shelf failed, and `Memory` where there is no room for the files.
/// After each of these the files behind are as before.
pub fn read_files<F: Shelf>(
    alloc: Global,
    layout: &Layout,
    locations: &[Bytes],
    shelf: &mut F,
) -> Result<Vec<SentFile>, FilesFault>
    requires texts { All IsUtf8 locations.now }
    requires number { length locations.now < 2 ^ 32 }
    ensures files { IfOk result (λ files. IfSome (F.left shelf.old) (λ contents. files_of layout.now locations.now contents ≡ Ok files.items)) }
    ensures described { IfOk result (λ files. AreDescribed layout.now locations.now files.items) }
    ensures bad { IfErr result (λ fault. IfSome (F.left shelf.old) (λ contents. IsWhyBad layout.now locations.now contents fault)) }
    ensures place { IfErr result (IsInPlace (length locations.now)) }
    ensures order { (reached : ℕ) × Becomes (F.left shelf.old) (F.left shelf.new) (IsReached layout.now locations.now reached) }
    ensures cause { HasFilesCause (F.faults shelf.old) (F.faults shelf.new) result }
    ensures same { F.made shelf.new ≡ F.made shelf.old }
{
    let mut files = Vec::new(alloc);
    for (index, location) in locations.iter().enumerate() {
        files.push(read_sent(alloc, layout, location.as_slice(), shelf, index as u32)?)?;
    }
    Ok(files)
}
