ghost use Rattle.std.specs.Prelude.{◌≡◌, ◌+◌, ◌≤◌, length};
ghost use Rattle.mb_fdt_text.specs.Reader as definition;
ghost use Rattle.mb_fdt.specs.ReaderView.{reader_at, next_of, IsWithin, IsByteAt};

use crate::reader::{Next, Reader, fault, syntax};
use crate::token::Token;
use mb_fdt_text::FdtKind;
use mb_xml::{is_name_start, is_space};

/// The most elements that are open at one place.
const DEEPEST: usize = 16;

impl<'a> Reader<'a> {
    /// At the first byte of the text.
    pub(crate) fn front(&mut self, at: usize, byte: u8) -> Next<'a>
        ensures exact { next_of at result self.new ≡ definition.next (reader_at at self.old) definition.Front byte }
        ensures placed { IsWithin (at + 1) result self.new }
        ensures text { self.new.text ≡ self.old.text }
    {
        if byte == 0xef {
            Ok(Token::ByteOrderMark { left: b"\xbb\xbf" })
        } else {
            self.between(at, byte, true)
        }
    }

    /// In a byte order mark, of which these bytes are to come.
    pub(crate) fn mark(&self, at: usize, byte: u8, left: &'a [u8]) -> Next<'a>
        ensures exact { next_of at result self.now ≡ definition.word (definition.syntax (reader_at at self.now)) (definition.mark_left (reader_at at self.now)) left.now byte }
        ensures placed { IsWithin (at + 1) result self.now }
    {
        match left {
            [last] if *last == byte => Ok(Token::Between { start: true }),
            [first, rest @ ..] if *first == byte => Ok(Token::ByteOrderMark { left: rest }),
            _ => syntax(at),
        }
    }

    /// Behind `<`.
    pub(crate) fn opened(&self, at: usize, byte: u8, start: bool) -> Next<'a>
        requires here { IsByteAt self.now.text.now at byte }
        requires behind { self.now.markup + 1 ≤ at }
        ensures exact { next_of at result self.now ≡ definition.opened (reader_at at self.now) start byte }
        ensures placed { IsWithin (at + 1) result self.now }
    {
        let inside = self.path.depth() > 0;
        if byte == b'?' {
            if start {
                Ok(Token::Declares { left: b"xml" })
            } else {
                fault(FdtKind::Forbidden, self.markup)
            }
        } else if byte == b'!' {
            Ok(Token::Bang)
        } else if byte == b'/' && inside {
            Ok(Token::EndName {
                left: self.path.innermost(),
            })
        } else if is_name_start(byte) && (inside || self.root.is_none()) {
            if self.path.depth() >= DEEPEST {
                fault(FdtKind::Depth, self.markup)
            } else {
                Ok(Token::ElementName { from: at })
            }
        } else {
            syntax(at)
        }
    }

    /// Behind `<?` and some bytes of `xml`, of which these are to come.
    pub(crate) fn declares(&self, at: usize, byte: u8, left: &'a [u8]) -> Next<'a>
        ensures exact { next_of at result self.now ≡ definition.declares (reader_at at self.now) left.now byte }
        ensures placed { IsWithin (at + 1) result self.now }
    {
        match left {
            [] if is_space(byte) => Ok(Token::Declaration { question: false }),
            [first, rest @ ..] if *first == byte => Ok(Token::Declares { left: rest }),
            _ => syntax(at),
        }
    }

    /// In an XML declaration, whose last byte was `?` or not.
    pub(crate) fn declaration(&self, at: usize, byte: u8, question: bool) -> Next<'a>
        ensures exact { next_of at result self.now ≡ definition.declaration (reader_at at self.now) question byte }
        ensures placed { IsWithin (at + 1) result self.now }
    {
        if question && byte == b'>' {
            Ok(Token::Between { start: false })
        } else {
            Ok(Token::Declaration {
                question: byte == b'?',
            })
        }
    }

    /// Behind `<!`.
    pub(crate) fn bang(&self, at: usize, byte: u8) -> Next<'a>
        requires { self.now.markup + 2 ≤ at }
        ensures exact { next_of at result self.now ≡ definition.bang (reader_at at self.now) byte }
        ensures placed { IsWithin (at + 1) result self.now }
    {
        match byte {
            b'-' => Ok(Token::BangDash),
            b'[' => Ok(Token::Banned { left: b"CDATA[" }),
            b'D' => Ok(Token::Banned { left: b"OCTYPE" }),
            _ => syntax(at),
        }
    }

    /// Behind `<!-`.
    pub(crate) fn dash(&self, at: usize, byte: u8) -> Next<'a>
        ensures exact { next_of at result self.now ≡ definition.next (reader_at at self.now) definition.BangDash byte }
        ensures placed { IsWithin (at + 1) result self.now }
    {
        if byte == b'-' {
            Ok(Token::Comment { hyphens: 0 })
        } else {
            syntax(at)
        }
    }

    /// Behind `<!` and some bytes of a forbidden word, of which these are to come.
    pub(crate) fn banned(&self, at: usize, byte: u8, left: &'a [u8]) -> Next<'a>
        requires { self.now.markup + 2 ≤ at }
        ensures exact { next_of at result self.now ≡ definition.word (definition.fail FdtKind.Syntax (self.now.markup + 2)) (definition.banned_left (reader_at at self.now)) left.now byte }
        ensures placed { IsWithin (at + 1) result self.now }
    {
        match left {
            [last] if *last == byte => fault(FdtKind::Forbidden, self.markup),
            [first, rest @ ..] if *first == byte => Ok(Token::Banned { left: rest }),
            _ => fault(FdtKind::Syntax, self.markup + 2),
        }
    }

    /// In a comment, which ends with so many hyphens, 2 at most.
    pub(crate) fn comment(&self, at: usize, byte: u8, hyphens: u8) -> Next<'a>
        ensures exact { next_of at result self.now ≡ definition.comment (reader_at at self.now) hyphens byte }
        ensures placed { IsWithin (at + 1) result self.now }
    {
        if hyphens == 2 && byte == b'>' {
            Ok(Token::Between { start: false })
        } else if byte != b'-' {
            Ok(Token::Comment { hyphens: 0 })
        } else if hyphens == 0 {
            Ok(Token::Comment { hyphens: 1 })
        } else {
            Ok(Token::Comment { hyphens: 2 })
        }
    }
}
