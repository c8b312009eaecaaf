ghost use Rattle.std.specs.Prelude.{◌≡◌, ◌&&◌, ◌||◌, IfOk, IfSome, IsOk, IsSome, IsUtf8, is_some, is_none};
ghost use Rattle.mb_geom.specs.Description.{described};
ghost use Rattle.mb_fdt_text.specs.Entry.{entry_of, said_by, refusals, first_refusal, unless, parts_of, raptor_of};
ghost use Rattle.mb_fdt.specs.ValuesView.{said_of, value_of};
ghost use Rattle.mb_fdt.specs.EntryView as entry_view;
ghost use Rattle.mb_fdt_text.specs.Reader.{root_value, file_value};
ghost use Rattle.mb_fdt.specs.SlotsView.{slots_of};
ghost use Rattle.mb_fdt.specs.EntryView.{IsRead, scheme_by, parts_by, fault_of};

use crate::known::FileAttribute;
use crate::root::RootSays;
use crate::slots::Slots;
use crate::values::*;
use mb_base::{Bytes, Memory, be16};
use mb_fdt_text::FileFault::{BadInfo, BadMd5, BadNumber, LongLocation, NoLocation, NoToi};
use mb_fdt_text::{Attr, FileEntry, FileFault};
use mb_geom::{Desc, DescParts, Scheme};
use std::alloc::Global;

/// The most bytes of a location.
const MAX_LOCATION: usize = 2048;

/// The FEC Encoding ID of Compact No-Code (RFC 3695 section 3).
const NO_CODE: u8 = 0;

/// The FEC Encoding ID of Raptor (RFC 5053 section 3.1).
const RAPTOR: u8 = 1;

/// What the values of the attributes of a File element say, each where it is given and can be read. Of the location
/// it is the length alone, so that an element that is refused takes no memory.
#[derive(Clone, Copy)]
struct Values {
    location_length: usize,
    toi: Option<u128>,
    content_length: Option<u64>,
    transfer_length: Option<u64>,
    encoded: bool,
    md5: Option<[u8; 16]>,
    encoding_id: Option<u8>,
    max_block: Option<u32>,
    symbol: Option<u16>,
    info: Option<[u8; 4]>,
}

/// What the values say.
fn values_of(said: &Said<'_>, root: &RootSays<'_>, file: &Slots<'_>) -> Values
    requires { said_of said.now ≡ said_by (root_value (slots_of root.now.slots)) (file_value (slots_of file.now)) }
    ensures { IsRead (said_of said.now) result }
{
    Values {
        location_length: length_in(said.location),
        toi: toi_in(said.toi),
        content_length: u64_in(said.content_length),
        transfer_length: u64_in(said.transfer_length),
        encoded: is_filled(said.encoding) || root.coding.encoded,
        md5: bytes_in(said.md5),
        encoding_id: u8_over(
            file.of_file(FileAttribute::EncodingId),
            root.coding.encoding_id,
        ),
        max_block: u32_over(file.of_file(FileAttribute::MaxBlock), root.coding.max_block),
        symbol: u16_over(file.of_file(FileAttribute::Symbol), root.coding.symbol),
        info: info_over(file.of_file(FileAttribute::Info), root.coding.info),
    }
}

/// The first fault whose condition holds.
fn first_fault(refusals: &[(bool, FileFault)]) -> Option<FileFault>
    ensures { result ≡ first_refusal refusals.now }
{
    for (holds, fault) in refusals {
        if *holds {
            return Some(*fault);
        }
    }
    None
}

/// Whether an attribute is given and can't be read.
fn is_bad<T>(value: Option<&[u8]>, read: &Option<T>) -> bool
    ensures { result ≡ (is_some (value_of value.entry) && is_none read.now) }
{
    value.is_some() && read.is_none()
}

/// Whether an attribute is used and given and can't be read.
fn is_bad_where<T>(used: bool, value: Option<&[u8]>, read: &Option<T>) -> bool
    ensures { result ≡ (used && (is_some (value_of value.entry) && is_none read.now)) }
{
    used && is_bad(value, read)
}

/// Whether the FEC Encoding ID is this number.
fn is_id(values: &Values, id: u8) -> bool
    ensures { result ≡ entry_view.is_id id values.now.encoding_id }
{
    values.encoding_id == Some(id)
}

/// Whether the FEC Encoding ID is that of a scheme that is read.
fn has_scheme(values: &Values) -> bool
    ensures { result ≡ (entry_view.is_id 0 values.now.encoding_id || entry_view.is_id 1 values.now.encoding_id) }
{
    is_id(values, NO_CODE) || is_id(values, RAPTOR)
}

/// Why the element is refused by its attributes, the first reason that holds.
fn refusal(said: &Said<'_>, values: &Values) -> Option<FileFault>
    requires { IsRead (said_of said.now) values.now }
    ensures { result ≡ first_refusal (refusals (said_of said.now)) }
{
    let block = is_bad_where(is_id(values, NO_CODE), said.max_block, &values.max_block);
    let symbol = is_bad_where(has_scheme(values), said.symbol, &values.symbol);
    let info = is_bad_where(is_id(values, RAPTOR), said.info, &values.info);
    first_fault(&[
        (said.location.is_none(), NoLocation),
        (values.location_length > MAX_LOCATION, LongLocation),
        (said.toi.is_none(), NoToi),
        (is_bad(said.toi, &values.toi), BadNumber(Attr::Toi)),
        (
            is_bad(said.content_length, &values.content_length),
            BadNumber(Attr::ContentLength),
        ),
        (
            is_bad(said.transfer_length, &values.transfer_length),
            BadNumber(Attr::TransferLength),
        ),
        (
            is_bad(said.encoding_id, &values.encoding_id),
            BadNumber(Attr::FecOtiFecEncodingId),
        ),
        (block, BadNumber(Attr::FecOtiMaximumSourceBlockLength)),
        (symbol, BadNumber(Attr::FecOtiEncodingSymbolLength)),
        (is_bad(said.md5, &values.md5), BadMd5),
        (info, BadInfo),
    ])
}

/// Raptor with Z, N and Al (RFC 5053 section 3.2.3).
fn raptor(info: [u8; 4]) -> Scheme
    ensures { result ≡ raptor_of info }
{
    Scheme::Raptor {
        z: be16(&info[..2]),
        n: info[2],
        al: info[3],
    }
}

/// The scheme, with the parameters that it needs.
fn scheme(values: &Values) -> Option<Scheme>
    ensures { result ≡ scheme_by values.now }
{
    if is_id(values, NO_CODE) {
        let max_block = values.max_block?;
        Some(Scheme::NoCode { max_block })
    } else if is_id(values, RAPTOR) {
        Some(raptor(values.info?))
    } else {
        None
    }
}

/// The parts of the description of the file at this location.
fn parts(location: Bytes, values: &Values) -> DescParts
    ensures { result ≡ parts_by location values.now }
{
    let symbol = if has_scheme(values) {
        values.symbol
    } else {
        None
    };
    DescParts {
        content_length: values.content_length,
        transfer_length: values.transfer_length,
        encoded: values.encoded,
        symbol,
        scheme: scheme(values),
        md5: values.md5,
        location,
    }
}

/// Why the element has no description, where it has none. Its location isn't needed for that, but for its length.
fn fault(alloc: Global, said: &Said<'_>, values: &Values) -> Option<FileFault>
    requires { IsRead (said_of said.now) values.now }
    ensures { result ≡ fault_of (said_of said.now) }
{
    if let Some(fault) = refusal(said, values) {
        return Some(fault);
    }
    let nowhere = Bytes::from_vec(Vec::new(alloc));
    match Desc::new(parts(nowhere, values)) {
        Ok(_) => None,
        Err(fault) => Some(FileFault::Desc(fault)),
    }
}

/// The description, or why there is none. The location is copied where there is one alone.
fn description(
    alloc: Global,
    said: &Said<'_>,
    values: &Values,
) -> Result<Result<Desc, FileFault>, Memory>
    requires read { IsRead (said_of said.now) values.now }
    requires text { IfSome said.now.location (λ location. IsUtf8 location.now) }
    ensures exact { IfOk result (λ description. description ≡ unless (first_refusal (refusals (said_of said.now))) (described (parts_of (said_of said.now)))) }
    ensures free { IsSome (fault_of (said_of said.now)) → IsOk result }
{
    if let Some(fault) = fault(alloc, said, values) {
        return Ok(Err(fault));
    }
    let location = location_in(alloc, said.location)?;
    match Desc::new(parts(location, values)) {
        Ok(desc) => Ok(Ok(desc)),
        Err(fault) => Ok(Err(FileFault::Desc(fault))),
    }
}

/// The entry of a File element with these values under a root that says this (RFC 3926 sections 3.4.2 and 5.1.1, TS
/// 26.346 section 7.2.10). Where there is no description, no memory is taken.
#[tactic(auto, unfolding(mb_fdt_text::specs::Entry::entry_of))]
pub(crate) fn entry(
    alloc: Global,
    root: &RootSays<'_>,
    file: &Slots<'_>,
) -> Result<FileEntry, Memory>
    ensures exact { IfOk result (λ entry. entry ≡ entry_of (said_by (root_value (slots_of root.now.slots)) (file_value (slots_of file.now)))) }
    ensures free { IsSome (fault_of (said_by (root_value (slots_of root.now.slots)) (file_value (slots_of file.now)))) → IsOk result }
{
    let said = said_in(&root.slots, file);
    let values = values_of(&said, root, file);
    Ok(FileEntry {
        toi: values.toi,
        entry: description(alloc, &said, &values)?,
    })
}
