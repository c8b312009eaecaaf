ghost use Rattle.std.specs.Prelude.{◌≡◌, position, bytes_eq, codes};
ghost use Rattle.mb_xml.specs.Name.{local_part as local_part_of};
ghost use Rattle.mb_fdt_text.specs.Known as known;
ghost use Rattle.mb_fdt_text.specs.Reader.{slot_of};

use mb_xml::local_part;

/// The attributes of the root that are read (RFC 3926 section 3.4.2).
const ROOT_NAMES: [&[u8]; 8] = [
    b"Expires",
    b"Complete",
    b"Content-Type",
    b"Content-Encoding",
    b"FEC-OTI-FEC-Encoding-ID",
    b"FEC-OTI-Maximum-Source-Block-Length",
    b"FEC-OTI-Encoding-Symbol-Length",
    b"FEC-OTI-Scheme-Specific-Info",
];

/// The attributes of a File element that are read (RFC 3926 section 3.4.2, TS 26.346 section 7.2.10).
const FILE_NAMES: [&[u8]; 11] = [
    b"Content-Location",
    b"TOI",
    b"Content-Length",
    b"Transfer-Length",
    b"Content-Type",
    b"Content-Encoding",
    b"Content-MD5",
    b"FEC-OTI-FEC-Encoding-ID",
    b"FEC-OTI-Maximum-Source-Block-Length",
    b"FEC-OTI-Encoding-Symbol-Length",
    b"FEC-OTI-Scheme-Specific-Info",
];

/// An attribute of the root that is read. Each has the slot of its place in the order of the names.
#[derive(Clone, Copy)]
pub(crate) enum RootAttribute {
    Expires,
    Complete,
    ContentType,
    ContentEncoding,
    EncodingId,
    MaxBlock,
    Symbol,
    Info,
}

impl RootAttribute {
    ghost use Rattle.mb_fdt.specs.AttributeView.{root_slot};

    /// The attribute's slot.
    pub(crate) fn slot(self) -> usize
        ensures { result ≡ root_slot self }
    {
        self as usize
    }
}

/// An attribute of a File element that is read. Each has the slot of its place in the order of the names.
#[derive(Clone, Copy)]
pub(crate) enum FileAttribute {
    Location,
    Toi,
    ContentLength,
    TransferLength,
    ContentType,
    ContentEncoding,
    Md5,
    EncodingId,
    MaxBlock,
    Symbol,
    Info,
}

impl FileAttribute {
    ghost use Rattle.mb_fdt.specs.AttributeView.{file_slot};

    /// The attribute's slot.
    pub(crate) fn slot(self) -> usize
        ensures { result ≡ file_slot self }
    {
        self as usize
    }
}

/// Whether an element of this name is a File element, where it is a child of the root (RFC 3926 section 3.4.2).
pub(crate) fn is_file(name: &[u8]) -> bool
    ensures { result ≡ known.is_file name.now }
{
    local_part(name) == b"File".as_slice()
}

/// Where a name stands in a list of names.
fn place_in(names: &[&[u8]], name: &[u8]) -> Option<usize>
    ensures { result ≡ position (λ known. bytes_eq name.now known.now) names.now }
{
    names.iter().position(|known| name == *known)
}

/// Where the name stands among the attributes of the root that are read.
pub(crate) fn root_place(name: &[u8]) -> Option<usize>
    ensures { result ≡ slot_of known.root_names name.now }
{
    place_in(&ROOT_NAMES, name)
}

/// Where the name stands among the attributes of a File element that are read.
pub(crate) fn file_place(name: &[u8]) -> Option<usize>
    ensures { result ≡ slot_of known.file_names name.now }
{
    place_in(&FILE_NAMES, name)
}

/// Whether an element of this name may be the root (RFC 3926 section 3.4.2).
pub(crate) fn is_instance(name: &[u8]) -> bool
    ensures { result ≡ bytes_eq (local_part_of name.now) (codes "FDT-Instance") }
{
    local_part(name) == b"FDT-Instance".as_slice()
}
