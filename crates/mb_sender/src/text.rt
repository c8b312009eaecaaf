ghost use Rattle.std.specs.Prelude.{◌≡◌, ◌<◌, ◌≤◌, ◌^◌, length, IfOk};
ghost use Rattle.mb_sender.specs.Trace.{text_of_files};

use mb_base::{Bytes, Memory};
use mb_fdt_text::{Fdt, FileEntries, FileEntry, write_fdt};
use mb_files::SentFile;
use mb_geom::{Desc, DescParts};
use std::alloc::Global;

/// An equal description.
fn copy_of(alloc: Global, desc: &Desc) -> Result<Desc, Memory>
    ensures { IfOk result (λ d. d ≡ desc.now) }
{
    let mut location = Vec::new(alloc);
    location.extend_from_slice(desc.location())?;
    let parts = DescParts {
        location: Bytes::from_vec(location),
        content_length: Some(desc.length()),
        transfer_length: Some(desc.length()),
        encoded: false,
        symbol: Some(desc.symbol()),
        scheme: Some(desc.scheme()),
        md5: desc.md5(),
    };
    match Desc::new(parts) {
        Ok(desc) => Ok(desc),
        Err(_) => unreachable!(),
    }
}

/// The text of the FDT Instance that lists the files, by the TOIs 1, 2 and so on (RFC 3926 section 3.4.2).
///
/// # Errors
///
/// [`Memory`] where there is no memory for the text.
pub fn write_text(alloc: Global, expires: u32, files: &[SentFile]) -> Result<Vec<u8>, Memory>
    ensures { IfOk result (λ text. text.items ≡ text_of_files expires files.now) }
{
    let mut entries = Vec::new(alloc);
    for i in 0..files.len() {
        entries.push(FileEntry {
            toi: Some(i as u128 + 1),
            entry: Ok(copy_of(alloc, &files[i].desc)?),
        })?;
    }
    let fdt = Fdt {
        expires: u64::from(expires),
        complete: false,
        files: FileEntries::from_vec(entries),
    };
    write_fdt(alloc, &fdt)
}
