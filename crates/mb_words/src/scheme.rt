ghost use Rattle.std.specs.Prelude.{◌≡◌};
ghost use Rattle.mb_words.specs.Scheme.{scheme_of};

/// The scheme by which files are sent.
#[derive(Clone, Copy, Debug, PartialEq, Eq)]
pub enum SchemeWord {
    /// Compact No-Code of RFC 5445.
    NoCode,
    /// Raptor of RFC 5053.
    Raptor,
}

/// The scheme that a text names.
pub(crate) fn scheme_of(text: &str) -> Option<SchemeWord>
    ensures { result ≡ scheme_of text.now }
{
    if text == "nocode" {
        Some(SchemeWord::NoCode)
    } else if text == "raptor" {
        Some(SchemeWord::Raptor)
    } else {
        None
    }
}
