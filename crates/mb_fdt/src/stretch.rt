ghost use Rattle.std.specs.Prelude.{◌≡◌, ◌≤◌, length};
ghost use Rattle.std.specs.List.{take_while};
ghost use Rattle.mb_xml.specs.Name as name;
ghost use Rattle.mb_fdt.specs.PathView.{path_of};
ghost use Rattle.mb_fdt.specs.ReaderView.{IsPlaced};
ghost use Rattle.mb_fdt.specs.Stretch.{is_other, is_of_value, is_passed, IsStretch};

use crate::reader::Reader;
use crate::token::{Quoted, Token};
use mb_xml::{Inside, is_name_byte, is_space};

impl Reader<'_> {
    /// The place behind those bytes from this one on that are passed over at once, since each leaves what is begun as it
    /// is. That takes far less time than a step for each of them.
    pub(crate) fn behind_stretch(&self, at: usize, token: Token<'_>) -> usize
        requires placed { IsPlaced at token self.now }
        requires within { at ≤ length self.now.text.now }
        ensures stretch { IsStretch at result token.entry self.now }
        ensures placed { IsPlaced result token.entry self.now }
    {
        let end = self.text.len();
        at + self.passed_over(&self.text[at..end], token)
    }

    /// How many bytes at the front are passed over, since each leaves what is begun as it is.
    fn passed_over(&self, bytes: &[u8], token: Token<'_>) -> usize
        ensures { result ≤ length (take_while (is_passed token.entry (length (path_of self.now.path))) bytes.now) }
    {
        match token {
            Token::Between { start: false } if self.path.depth() > 0 => others(bytes, b'<'),
            Token::Declaration { question: false } => others(bytes, b'?'),
            Token::Comment { hyphens: 0 } => others(bytes, b'-'),
            Token::Value {
                quoted: Quoted {
                    inside: Inside::Plain,
                    quote,
                    ..
                },
            } => of_value(bytes, quote),
            Token::ElementName { .. } | Token::AttributeName { .. } => of_name(bytes),
            Token::Between { start: false }
            | Token::InTag
            | Token::BehindName { .. }
            | Token::BehindEquals { .. }
            | Token::EndSpace => spaces(bytes),
            _ => 0,
        }
    }
}

/// How many bytes other than this one stand at the front.
fn others(bytes: &[u8], byte: u8) -> usize
    ensures { result ≡ length (take_while (is_other byte) bytes.now) }
{
    bytes.iter().take_while(|b| **b != byte).count()
}

/// How many bytes stand at the front that neither end a value in these quotes, nor begin a reference in it, nor are
/// forbidden there.
fn of_value(bytes: &[u8], quote: u8) -> usize
    ensures { result ≡ length (take_while (is_of_value quote) bytes.now) }
{
    bytes
        .iter()
        .take_while(|b| **b != quote && **b != b'<' && **b != b'&')
        .count()
}

/// How many bytes of a name stand at the front.
fn of_name(bytes: &[u8]) -> usize
    ensures { result ≡ length (take_while name.is_name_byte bytes.now) }
{
    bytes.iter().take_while(|b| is_name_byte(**b)).count()
}

/// How many bytes of white space stand at the front.
fn spaces(bytes: &[u8]) -> usize
    ensures { result ≡ length (take_while name.is_space bytes.now) }
{
    bytes.iter().take_while(|b| is_space(**b)).count()
}
