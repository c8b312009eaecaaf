ghost use Rattle.std.specs.Prelude.{◌≡◌, ℕ};

use mb_xml::Inside;

/// A value, behind its first quote: the slot of its attribute, where that is read, the quote, the place of its first byte, and
/// what is begun in it.
#[derive(Clone, Copy)]
pub(crate) struct Quoted {
    pub(crate) slot: Option<usize>,
    pub(crate) quote: u8,
    pub(crate) from: usize,
    pub(crate) inside: Inside,
}

/// What was begun in a text and not ended. A name or a value that is begun has the place of its first byte.
#[derive(Clone, Copy)]
pub(crate) enum Token<'a> {
    /// Nothing of the text.
    Front,
    /// A byte order mark, of which these bytes are to come.
    ByteOrderMark { left: &'a [u8] },
    /// Nothing, where markup may begin, at the start of the text or not.
    Between { start: bool },
    /// Markup, by its `<`, at the start of the text or not.
    Opened { start: bool },
    /// `<?xml`, of which these bytes are to come.
    Declares { left: &'a [u8] },
    /// The declaration, whose last byte was `?` or not.
    Declaration { question: bool },
    /// `<!`.
    Bang,
    /// `<!-`.
    BangDash,
    /// A forbidden word, of which these bytes are to come.
    Banned { left: &'a [u8] },
    /// A comment, which ends with so many hyphens, 2 at most.
    Comment { hyphens: u8 },
    /// The name of an element.
    ElementName { from: usize },
    /// White space in a tag.
    InTag,
    /// The name of an attribute.
    AttributeName { from: usize },
    /// White space behind the name of an attribute.
    BehindName { slot: Option<usize> },
    /// What is behind the equals sign of an attribute.
    BehindEquals { slot: Option<usize> },
    /// The value of an attribute.
    Value { quoted: Quoted },
    /// What is behind the value of an attribute.
    BehindValue,
    /// `/` in a tag.
    Slash,
    /// An end tag, whose name has these bytes to come.
    EndName { left: &'a [u8] },
    /// White space in an end tag.
    EndSpace,
}
