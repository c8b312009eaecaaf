ghost use Rattle.std.specs.Prelude.{◌≡◌};

use crate::path::Path;
use crate::root::RootSays;
use crate::slots::Slots;
use crate::tag::Tag;
use crate::token::Token;
use mb_fdt_text::{FdtFault, FdtKind, FileEntry};
use std::alloc::Global;

/// What is begun behind one byte more, or the fault that this byte shows.
pub(crate) type Next<'a> = Result<Token<'a>, FdtFault>;

/// What is known of a text between two of its bytes, beside what is begun there.
#[derive(Drop)]
pub(crate) struct Reader<'a> {
    pub(crate) text: &'a [u8],
    /// The place of the last `<` with which markup began.
    pub(crate) markup: usize,
    /// The place of the last attribute's name.
    pub(crate) attribute: usize,
    pub(crate) tag: Tag<'a>,
    /// The values in the last tag so far.
    pub(crate) slots: Slots<'a>,
    pub(crate) path: Path<'a>,
    pub(crate) root: Option<RootSays<'a>>,
    pub(crate) files: Vec<FileEntry>,
}

/// No text goes on with the byte at this place.
pub(crate) fn syntax<'a>(at: usize) -> Next<'a>
    ensures { result ≡ Err (record { kind = FdtKind.Syntax; place = at }) }
{
    fault(FdtKind::Syntax, at)
}

pub(crate) fn fault<'a>(kind: FdtKind, place: usize) -> Next<'a>
    ensures { result ≡ Err (record { kind = kind; place = place }) }
{
    Err(FdtFault { kind, place })
}

impl<'a> Reader<'a> {
    ghost use Rattle.mb_fdt_text.specs.Reader as definition;
    ghost use Rattle.mb_fdt.specs.ReaderView.{reader_at, next_of, IsPlaced, IsWithin};
    ghost use Rattle.std.specs.Prelude.{◌+◌, IfOk};

    /// Before the first byte of the text.
    pub(crate) fn begin(alloc: Global, text: &'a [u8]) -> Self
        ensures exact { reader_at 0 result ≡ definition.begin }
        ensures text { result.text.now ≡ text.now }
    {
        Reader {
            text,
            markup: 0,
            attribute: 0,
            tag: Tag::new(&[]),
            slots: Slots::empty(0),
            path: Path::outermost(),
            root: None,
            files: Vec::new(alloc),
        }
    }

    /// Where markup may begin.
    pub(crate) fn between(&mut self, at: usize, byte: u8, start: bool) -> Next<'a>
        ensures exact { next_of at result self.new ≡ definition.between (reader_at at self.old) start byte }
        ensures placed { IsWithin (at + 1) result self.new }
        ensures text { self.new.text ≡ self.old.text }
    {
        if byte == b'<' {
            self.markup = at;
            Ok(Token::Opened { start })
        } else if self.path.depth() > 0 || mb_xml::is_space(byte) {
            Ok(Token::Between { start: false })
        } else {
            syntax(at)
        }
    }
}
