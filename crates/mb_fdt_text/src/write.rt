ghost use Rattle.std.specs.Prelude.{◌≡◌, ◌++◌, ◌&&◌, true, Ok, OnOk, IfOk, is_some, is_ok, codes, decimal, flat_map};
ghost use Rattle.std.specs.List.{list_all};
ghost use Rattle.base64.specs.Engines.{standard};
ghost use Rattle.base64.specs.GeneralPurpose.{encode_of};
ghost use Rattle.mb_base.specs.Number.{be_bytes};
ghost use Rattle.mb_fdt_text.specs.WrittenForm.{attribute, escaped, escaped_byte, complete_attribute};
ghost use Rattle.mb_fdt_text.specs.WrittenForm as form;
ghost use Rattle.mb_geom.specs.Description.{IsGood};
ghost use Rattle.mb_fdt_text.specs.Says.{IsFdt};
ghost use Rattle.mb_fdt_text.specs.Reader.{fdt_of};

use crate::fdt::{Fdt, FileEntry};
use base64::engine::general_purpose::STANDARD;
use mb_base::Memory;
use mb_geom::{Desc, Scheme};
use std::alloc::Global;

/// Whether each entry of the instance has a TOI and a description, so that it can be written.
pub fn is_described(fdt: &Fdt) -> bool
    ensures { result ≡ form.is_described fdt.now }
{
    fdt.files
        .as_slice()
        .iter()
        .all(|entry| entry.toi.is_some() && entry.entry.is_ok())
}

/// The written form of an instance (RFC 3926 section 3.4.2), one text for each instance. Each entry must have a TOI and
/// a description ([`is_described`]), and each is written.
///
/// # Errors
///
/// [`Memory`] where there is no memory for the text.
#[tactic(auto, unfolding(crate::specs::WrittenForm::written_form))]
pub fn write_fdt(alloc: Global, fdt: &Fdt) -> Result<Vec<u8>, Memory>
    requires described { form.is_described fdt.now ≡ true }
    ensures form { IfOk result (λ text. text.items ≡ form.written_form fdt.now) }
    // It is the text of what was given, and reading it gives that.
    ensures text { form.IsWithinLimits fdt.now → IfOk result (λ text. IsFdt text.items fdt.now) }
    ensures read_back { form.IsWithinLimits fdt.now → IfOk result (λ text. fdt_of text.items ≡ Ok fdt.now) }
{
    let mut text = Vec::new(alloc);
    text.extend_from_slice(b"<?xml version=\"1.0\" encoding=\"UTF-8\"?>\n<FDT-Instance")?;
    put_number(alloc, &mut text, b"Expires", u128::from(fdt.expires))?;
    put_complete(&mut text, fdt.complete)?;
    text.extend_from_slice(b">\n")?;
    put_entries(alloc, &mut text, fdt.files.as_slice())?;
    text.extend_from_slice(b"</FDT-Instance>\n")?;
    Ok(text)
}

/// Appends an attribute, and before it a space.
fn put_attribute(text: &mut Vec<u8>, name: &[u8], value: &[u8]) -> Result<(), Memory>
    ensures { OnOk result (text.new.items ≡ text.old.items ++ attribute name.now value.now) }
{
    text.extend_from_slice(b" ")?;
    text.extend_from_slice(name)?;
    text.extend_from_slice(b"=\"")?;
    text.extend_from_slice(value)?;
    text.extend_from_slice(b"\"")?;
    Ok(())
}

/// Appends an attribute whose value is a number.
fn put_number(alloc: Global, text: &mut Vec<u8>, name: &[u8], number: u128) -> Result<(), Memory>
    ensures { OnOk result (text.new.items ≡ text.old.items ++ attribute name.now (decimal number)) }
{
    let digits = format!(in alloc; "{number}")?;
    put_attribute(text, name, digits.as_bytes())
}

/// Appends an attribute whose value is bytes in base64 (RFC 4648 section 4).
fn put_base64(alloc: Global, text: &mut Vec<u8>, name: &[u8], bytes: &[u8]) -> Result<(), Memory>
    ensures { OnOk result (text.new.items ≡ text.old.items ++ attribute name.now (encode_of standard bytes.now)) }
{
    let encoded = STANDARD.encode(alloc, bytes)?;
    put_attribute(text, name, encoded.as_bytes())
}

/// Appends Complete, where the instance is complete.
fn put_complete(text: &mut Vec<u8>, complete: bool) -> Result<(), Memory>
    ensures { OnOk result (text.new.items ≡ text.old.items ++ complete_attribute complete) }
{
    if complete {
        put_attribute(text, b"Complete", b"true")
    } else {
        Ok(())
    }
}

/// Appends a byte of a location as it is written in an attribute.
#[tactic(auto, unfolding(crate::specs::WrittenForm::escaped_byte))]
fn put_escaped_byte(alloc: Global, text: &mut Vec<u8>, byte: u8) -> Result<(), Memory>
    ensures { OnOk result (text.new.items ≡ text.old.items ++ escaped_byte byte) }
{
    match byte {
        b'&' => text.extend_from_slice(b"&amp;")?,
        b'<' => text.extend_from_slice(b"&lt;")?,
        b'>' => text.extend_from_slice(b"&gt;")?,
        b'"' => text.extend_from_slice(b"&quot;")?,
        b'\'' => text.extend_from_slice(b"&apos;")?,
        1..=31 => {
            let reference = format!(in alloc; "&#{byte};")?;
            text.extend_from_slice(reference.as_bytes())?;
        }
        _ => text.push(byte)?,
    }
    Ok(())
}

/// Appends a location as it is written in an attribute.
fn put_escaped(alloc: Global, text: &mut Vec<u8>, location: &[u8]) -> Result<(), Memory>
    ensures { OnOk result (text.new.items ≡ text.old.items ++ escaped location.now) }
{
    for byte in location {
        put_escaped_byte(alloc, text, *byte)?;
    }
    Ok(())
}

/// Appends the attribute of a location.
fn put_location(alloc: Global, text: &mut Vec<u8>, location: &[u8]) -> Result<(), Memory>
    ensures { OnOk result (text.new.items ≡ text.old.items ++ attribute (codes "Content-Location") (escaped location.now)) }
{
    text.extend_from_slice(b" Content-Location=\"")?;
    put_escaped(alloc, text, location)?;
    text.extend_from_slice(b"\"")?;
    Ok(())
}

/// Appends MD5, where it is given.
fn put_md5(alloc: Global, text: &mut Vec<u8>, md5: Option<[u8; 16]>) -> Result<(), Memory>
    ensures { OnOk result (text.new.items ≡ text.old.items ++ form.md5_attribute md5) }
{
    match md5 {
        Some(md5) => put_base64(alloc, text, b"Content-MD5", &md5),
        None => Ok(()),
    }
}

/// Appends the FEC-OTI attributes of symbols of so many bytes.
fn put_coding(alloc: Global, text: &mut Vec<u8>, symbol: u16, scheme: Scheme) -> Result<(), Memory>
    ensures { OnOk result (text.new.items ≡ text.old.items ++ form.oti_attributes symbol scheme) }
{
    match scheme {
        Scheme::NoCode { max_block } => {
            put_number(alloc, text, b"FEC-OTI-FEC-Encoding-ID", 0)?;
            put_number(
                alloc,
                text,
                b"FEC-OTI-Maximum-Source-Block-Length",
                u128::from(max_block),
            )?;
            put_number(
                alloc,
                text,
                b"FEC-OTI-Encoding-Symbol-Length",
                u128::from(symbol),
            )?;
        }
        Scheme::Raptor { z, n, al } => {
            put_number(alloc, text, b"FEC-OTI-FEC-Encoding-ID", 1)?;
            put_number(
                alloc,
                text,
                b"FEC-OTI-Encoding-Symbol-Length",
                u128::from(symbol),
            )?;
            put_base64(
                alloc,
                text,
                b"FEC-OTI-Scheme-Specific-Info",
                &info_bytes(z, n, al),
            )?;
        }
    }
    Ok(())
}

/// Z, N and Al in four bytes (RFC 5053 section 3.2.3).
fn info_bytes(z: u16, n: u8, al: u8) -> [u8; 4]
    ensures { result ≡ form.info_bytes z n al }
{
    [(z / 256) as u8, (z % 256) as u8, n, al]
}

/// Appends a File element, and a line feed.
fn put_file(alloc: Global, text: &mut Vec<u8>, toi: u128, desc: &Desc) -> Result<(), Memory>
    ensures form { OnOk result (text.new.items ≡ text.old.items ++ form.file_element toi desc.now) }
    ensures good { OnOk result (IsGood desc.now) }
{
    text.extend_from_slice(b"<File")?;
    put_location(alloc, text, desc.location())?;
    put_number(alloc, text, b"TOI", toi)?;
    put_number(alloc, text, b"Content-Length", u128::from(desc.length()))?;
    put_number(alloc, text, b"Transfer-Length", u128::from(desc.length()))?;
    put_md5(alloc, text, desc.md5())?;
    put_coding(alloc, text, desc.symbol(), desc.scheme())?;
    text.extend_from_slice(b"/>\n")?;
    Ok(())
}

/// Appends the File element of an entry.
fn put_entry(alloc: Global, text: &mut Vec<u8>, entry: &FileEntry) -> Result<(), Memory>
    requires { (is_some entry.now.toi && is_ok entry.now.entry) ≡ true }
    ensures form { OnOk result (text.new.items ≡ text.old.items ++ form.entry_element entry.now.toi entry.now.entry) }
    ensures good { OnOk result (IfOk entry.now.entry IsGood) }
{
    match (entry.toi, &entry.entry) {
        (Some(toi), Ok(desc)) => put_file(alloc, text, toi, desc),
        _ => unreachable!(),
    }
}

/// Appends the File elements of the entries.
fn put_entries(alloc: Global, text: &mut Vec<u8>, entries: &[FileEntry]) -> Result<(), Memory>
    requires { list_all (λ e. is_some e.toi && is_ok e.entry) entries.now ≡ true }
    ensures form { OnOk result (text.new.items ≡ text.old.items ++ flat_map (λ e. form.entry_element e.toi e.entry) entries.now) }
    ensures good { OnOk result (form.AreGood entries.now) }
{
    for entry in entries {
        put_entry(alloc, text, entry)?;
    }
    Ok(())
}
