ghost use Rattle.std.specs.Prelude.{◌≡◌, ℕ, List, length};

use mb_geom::{Desc, DescFault};
use std::error::Error;
use std::fmt;
use std::marker::Model;

/// What an FDT Instance says (RFC 3926 section 3.4.2).
#[derive(Drop)]
pub struct Fdt {
    /// The NTP second up to which the instance stands.
    pub expires: u64,
    /// Whether no later instance describes another file.
    pub complete: bool,
    /// Its File elements, in order.
    pub files: FileEntries,
}

/// What one File element says.
#[derive(Drop)]
pub struct FileEntry {
    /// The object's number, where a good one is given.
    pub toi: Option<u128>,
    /// The file's description, or why it has none.
    pub entry: Result<Desc, FileFault>,
}

/// The File elements of an instance, in order, which a contract sees as their list.
#[derive(Drop)]
pub struct FileEntries {
    items: Vec<FileEntry>,
}

impl Model for FileEntries {
    ghost use Rattle.std.specs.Prelude.{List};
    ghost use Rattle.mb_fdt_text.specs.declared.fdt.FileEntry.{FileEntry};

    ghost Value = { List FileEntry };

    ghost view = { λ f. f.items.items };
}

impl FileEntries {
    /// The elements of the vector.
    pub fn from_vec(items: Vec<FileEntry>) -> Self
        ensures { result ≡ items.items }
    {
        FileEntries { items }
    }

    /// The elements, as they were.
    pub fn into_vec(self) -> Vec<FileEntry>
        ensures { result.items ≡ self }
    {
        let FileEntries { items } = self;
        items
    }

    /// The elements, lent.
    pub fn as_slice(&self) -> &[FileEntry]
        ensures { result.now ≡ self.now }
    {
        self.items.as_slice()
    }
}

/// The numeric attributes of FDT-Instance and File.
#[derive(Clone, Copy, Debug, PartialEq, Eq)]
pub enum Attr {
    Toi,
    ContentLength,
    TransferLength,
    FecOtiFecEncodingId,
    FecOtiMaximumSourceBlockLength,
    FecOtiEncodingSymbolLength,
}

impl Attr {
    /// The attribute's name (RFC 3926 section 3.4.2).
    pub fn name(self) -> &'static str {
        match self {
            Attr::Toi => "TOI",
            Attr::ContentLength => "Content-Length",
            Attr::TransferLength => "Transfer-Length",
            Attr::FecOtiFecEncodingId => "FEC-OTI-FEC-Encoding-ID",
            Attr::FecOtiMaximumSourceBlockLength => "FEC-OTI-Maximum-Source-Block-Length",
            Attr::FecOtiEncodingSymbolLength => "FEC-OTI-Encoding-Symbol-Length",
        }
    }
}

/// Why a File element gives no description. Where several reasons hold, the first in this order is given.
#[derive(Clone, Copy, Debug, PartialEq, Eq)]
pub enum FileFault {
    /// It has no Content-Location.
    NoLocation,
    /// Its Content-Location has more than 2,048 bytes.
    LongLocation,
    /// It has no TOI.
    NoToi,
    /// An attribute is no number in its range.
    BadNumber(Attr),
    /// Its Content-MD5 is no base64 of 16 bytes.
    BadMd5,
    /// Its scheme-specific information is no base64 of four bytes.
    BadInfo,
    /// What it says describes no file.
    Desc(DescFault),
}

impl fmt::Display for FileFault {
    fn fmt<W: fmt::Write>(&self, f: &mut fmt::Formatter<W>) -> fmt::Result {
        match self {
            FileFault::NoLocation => f.write_str("no location is given"),
            FileFault::LongLocation => f.write_str("the location has more than 2,048 bytes"),
            FileFault::NoToi => f.write_str("no TOI is given"),
            FileFault::BadNumber(attribute) => {
                write!(f, "{} is no number in its range", attribute.name())
            }
            FileFault::BadMd5 => f.write_str("Content-MD5 is no base64 of 16 bytes"),
            FileFault::BadInfo => {
                f.write_str("the scheme-specific information is no base64 of four bytes")
            }
            FileFault::Desc(fault) => write!(f, "{fault}"),
        }
    }
}

impl Error for FileFault {}

/// Why a text is no FDT Instance.
#[derive(Clone, Copy, Debug, PartialEq, Eq)]
pub enum FdtKind {
    /// It is no UTF-8.
    NotUtf8,
    /// No text goes on so, or it ends too early.
    Syntax,
    /// It has a document type declaration, a CDATA section or a processing instruction.
    Forbidden,
    /// An element stands inside 16 others.
    Depth,
    /// The root has no Expires.
    NoExpires,
    /// The root's Expires is no number of 32 bits.
    BadExpires,
    /// A tag has an attribute twice that is read.
    RepeatedAttribute,
    /// The root has more than 1,024 File elements.
    TooManyFiles,
}

impl fmt::Display for FdtKind {
    fn fmt<W: fmt::Write>(&self, f: &mut fmt::Formatter<W>) -> fmt::Result {
        f.write_str(match self {
            FdtKind::NotUtf8 => "no UTF-8",
            FdtKind::Syntax => "no text goes on so",
            FdtKind::Forbidden => "a forbidden word",
            FdtKind::Depth => "an element inside 16 others",
            FdtKind::NoExpires => "no Expires",
            FdtKind::BadExpires => "Expires is no number of 32 bits",
            FdtKind::RepeatedAttribute => "an attribute stands twice",
            FdtKind::TooManyFiles => "more than 1,024 files",
        })
    }
}

/// Why a text is no FDT Instance, and the offset in bytes where that shows.
#[derive(Clone, Copy, Debug, PartialEq, Eq)]
pub struct FdtFault {
    pub kind: FdtKind,
    pub place: usize,
}

impl fmt::Display for FdtFault {
    fn fmt<W: fmt::Write>(&self, f: &mut fmt::Formatter<W>) -> fmt::Result {
        write!(f, "{} at byte {}", self.kind, self.place)
    }
}

impl Error for FdtFault {}
