ghost use Rattle.std.specs.Prelude.{◌≡◌, ◌^◌, ◌<◌, ◌≤◌, IfOk, IfSome, IsUtf8, option_map, option_and_then, nat_lt, length, unwrap_or, []};
ghost use Rattle.std.specs.Option.{option_or};
ghost use Rattle.mb_xml.specs.Value.{number_of, bytes_of};
ghost use Rattle.mb_fdt_text.specs.Reader.{root_value, file_value};
ghost use Rattle.mb_fdt_text.specs.Entry.{said_by, toi_of};
ghost use Rattle.mb_fdt.specs.SlotsView.{slots_of};
ghost use Rattle.mb_fdt.specs.ValuesView.{said_of, value_of, over};

use crate::known::{FileAttribute, RootAttribute};
use crate::slots::Slots;
use mb_base::{Bytes, Memory};
use mb_xml::{base64_in, replaced, replaced_length};
use std::alloc::Global;

/// The values of the attributes that are read for a file, as they stand in the text.
#[derive(Clone, Copy)]
pub(crate) struct Said<'a> {
    pub(crate) location: Option<&'a [u8]>,
    pub(crate) toi: Option<&'a [u8]>,
    pub(crate) content_length: Option<&'a [u8]>,
    pub(crate) transfer_length: Option<&'a [u8]>,
    pub(crate) encoding: Option<&'a [u8]>,
    pub(crate) root_encoding: Option<&'a [u8]>,
    pub(crate) md5: Option<&'a [u8]>,
    pub(crate) encoding_id: Option<&'a [u8]>,
    pub(crate) max_block: Option<&'a [u8]>,
    pub(crate) symbol: Option<&'a [u8]>,
    pub(crate) info: Option<&'a [u8]>,
}

/// The values in the root's tag and in that of a File element. FEC-OTI attributes of the File go before those of
/// the root.
pub(crate) fn said_in<'a>(root: &Slots<'a>, file: &Slots<'a>) -> Said<'a>
    ensures exact { said_of result ≡ said_by (root_value (slots_of root.now)) (file_value (slots_of file.now)) }
    ensures text { IfSome result.location (λ location. IsUtf8 location.now) }
{
    Said {
        location: file.of_file(FileAttribute::Location),
        toi: file.of_file(FileAttribute::Toi),
        content_length: file.of_file(FileAttribute::ContentLength),
        transfer_length: file.of_file(FileAttribute::TransferLength),
        encoding: file.of_file(FileAttribute::ContentEncoding),
        root_encoding: root.of_root(RootAttribute::ContentEncoding),
        md5: file.of_file(FileAttribute::Md5),
        encoding_id: first_of(
            file.of_file(FileAttribute::EncodingId),
            root.of_root(RootAttribute::EncodingId),
        ),
        max_block: first_of(
            file.of_file(FileAttribute::MaxBlock),
            root.of_root(RootAttribute::MaxBlock),
        ),
        symbol: first_of(
            file.of_file(FileAttribute::Symbol),
            root.of_root(RootAttribute::Symbol),
        ),
        info: first_of(
            file.of_file(FileAttribute::Info),
            root.of_root(RootAttribute::Info),
        ),
    }
}

/// The first value, or the second where there is no first.
fn first_of<'a>(file: Option<&'a [u8]>, root: Option<&'a [u8]>) -> Option<&'a [u8]>
    ensures { option_map (λ v. v.now) result ≡ option_or (option_map (λ v. v.now) file.entry) (option_map (λ v. v.now) root.entry) }
{
    file.or(root)
}

/// The number below the limit that a value says, where it is given and says one.
pub(crate) fn number_in(value: Option<&[u8]>, limit: u128) -> Option<u128>
    requires { limit ≤ 2 ^ 112 }
    ensures exact { result ≡ option_and_then (number_of limit) (value_of value.entry) }
    ensures below { IfSome result (λ n. n < limit) }
{
    mb_xml::number_in(value?, limit)
}

/// The TOI that a value says, where it is given and says one: from 1 to below 2^112.
pub(crate) fn toi_in(value: Option<&[u8]>) -> Option<u128>
    ensures { result ≡ option_and_then toi_of (value_of value.entry) }
{
    match number_in(value, 1 << 112) {
        Some(toi) if toi > 0 => Some(toi),
        _ => None,
    }
}

/// The N bytes, 16 at most, of which a value is the base64, where it is given and is one.
pub(crate) fn bytes_in<const N: usize>(value: Option<&[u8]>) -> Option<[u8; N]>
    requires { N ≤ 16 }
    ensures { result ≡ option_and_then (bytes_of N) (value_of value.entry) }
{
    base64_in(value?)
}

/// Whether a value is given and isn't empty.
pub(crate) fn is_filled(value: Option<&[u8]>) -> bool
    ensures { result ≡ nat_lt 0 (length (unwrap_or (value_of value.entry) [])) }
{
    match value {
        Some(value) => mb_xml::is_filled(value),
        None => false,
    }
}

/// The number below 2^64 that a value says, where it is given and says one.
pub(crate) fn u64_in(value: Option<&[u8]>) -> Option<u64>
    ensures { result ≡ option_and_then (number_of (2 ^ 64)) (value_of value.entry) }
{
    match number_in(value, 1 << 64) {
        Some(n) => Some(n as u64),
        None => None,
    }
}

/// The number below 2^32 that a value says, where it is given and says one.
pub(crate) fn u32_in(value: Option<&[u8]>) -> Option<u32>
    ensures { result ≡ option_and_then (number_of (2 ^ 32)) (value_of value.entry) }
{
    match number_in(value, 1 << 32) {
        Some(n) => Some(n as u32),
        None => None,
    }
}

/// The number below 2^16 that a value says, where it is given and says one.
pub(crate) fn u16_in(value: Option<&[u8]>) -> Option<u16>
    ensures { result ≡ option_and_then (number_of (2 ^ 16)) (value_of value.entry) }
{
    match number_in(value, 1 << 16) {
        Some(n) => Some(n as u16),
        None => None,
    }
}

/// The number below 2^8 that a value says, where it is given and says one.
pub(crate) fn u8_in(value: Option<&[u8]>) -> Option<u8>
    ensures { result ≡ option_and_then (number_of (2 ^ 8)) (value_of value.entry) }
{
    match number_in(value, 1 << 8) {
        Some(n) => Some(n as u8),
        None => None,
    }
}

/// How many bytes a value says, 0 where none is given.
pub(crate) fn length_in(value: Option<&[u8]>) -> usize
    ensures { result ≡ length (unwrap_or (value_of value.entry) []) }
{
    match value {
        Some(value) => replaced_length(value),
        None => 0,
    }
}

/// The bytes that a value says, and none where it isn't given.
pub(crate) fn location_in(alloc: Global, value: Option<&[u8]>) -> Result<Bytes, Memory>
    ensures exact { IfOk result (λ location. location ≡ unwrap_or (value_of value.entry) []) }
    ensures text { IfSome value.entry (λ v. IsUtf8 v.now) → IfOk result IsUtf8 }
{
    match value {
        Some(value) => replaced(alloc, value),
        None => Ok(Bytes::from_vec(Vec::new(alloc))),
    }
}

/// The number below 2^8 that a value of a File element says, or what is read of the root where the File has none.
pub(crate) fn u8_over(own: Option<&[u8]>, shared: Option<u8>) -> Option<u8>
    ensures { result ≡ over (number_of (2 ^ 8)) (value_of own.entry) shared }
{
    match own {
        Some(_) => u8_in(own),
        None => shared,
    }
}

/// The number below 2^16 that a value of a File element says, or what is read of the root where the File has none.
pub(crate) fn u16_over(own: Option<&[u8]>, shared: Option<u16>) -> Option<u16>
    ensures { result ≡ over (number_of (2 ^ 16)) (value_of own.entry) shared }
{
    match own {
        Some(_) => u16_in(own),
        None => shared,
    }
}

/// The number below 2^32 that a value of a File element says, or what is read of the root where the File has none.
pub(crate) fn u32_over(own: Option<&[u8]>, shared: Option<u32>) -> Option<u32>
    ensures { result ≡ over (number_of (2 ^ 32)) (value_of own.entry) shared }
{
    match own {
        Some(_) => u32_in(own),
        None => shared,
    }
}

/// The four bytes that a value of a File element says, or what is read of the root where the File has none.
pub(crate) fn info_over(own: Option<&[u8]>, shared: Option<[u8; 4]>) -> Option<[u8; 4]>
    ensures { result ≡ over (bytes_of 4) (value_of own.entry) shared }
{
    match own {
        Some(_) => bytes_in(own),
        None => shared,
    }
}
