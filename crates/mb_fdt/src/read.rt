ghost use Rattle.std.specs.Prelude.{◌≡◌, ◌↔◌, IfOk, IsUtf8, Ok, Err, Bool, option_map};
ghost use Rattle.std.specs.Str.{is_utf8};
ghost use Rattle.mb_xml.specs.Value.{is_complete};
ghost use Rattle.mb_fdt_text.specs.Says.{IsFdt};
ghost use Rattle.mb_fdt_text.specs.Faults.{IsFault};
ghost use Rattle.mb_fdt_text.specs.Reader as definition;
ghost use Rattle.mb_fdt_text.specs.Reader.{steps, begin, fdt_of};
ghost use Rattle.mb_fdt.specs.ReaderView.{reader_of, reader_at, root_of, IsPlaced};
ghost use Rattle.mb_fdt.specs.PathView.{path_of};
ghost use Rattle.mb_fdt.specs.ValuesView.{value_of};

use crate::known::RootAttribute;
use crate::reader::Reader;
use crate::token::Token;
use mb_base::Memory;
use mb_fdt_text::{Fdt, FdtFault, FdtKind, FileEntries};
use mb_xml::{says, utf8_place};
use std::alloc::Global;

/// What the text of an FDT Instance says (RFC 3926 section 3.4.2, as a profile of XML 1.0), or its one fault with
/// the place where that shows. It is read once, from its first byte to its last or to the first fault.
///
/// # Errors
///
/// [`Memory`] where there is no memory for the files or their locations.
pub fn read_fdt(alloc: Global, text: &[u8]) -> Result<Result<Fdt, FdtFault>, Memory>
    // An instance is answered exactly where the bytes are its text, and a fault exactly where it is theirs.
    ensures instance { (fdt : Fdt) → IfOk result (λ answer. (answer ≡ Ok fdt) ↔ IsFdt text.now fdt) }
    ensures fault { (fault : FdtFault) → IfOk result (λ answer. (answer ≡ Err fault) ↔ IsFault text.now fault) }
    ensures exact { IfOk result (λ answer. answer ≡ fdt_of text.now) }
{
    let answer = read_bytes(alloc, text)?;
    Ok(answer)
}

/// The same, by the definition of the reader.
#[tactic(auto, unfolding(mb_fdt_text::specs::Reader::fdt_of))]
fn read_bytes(alloc: Global, text: &[u8]) -> Result<Result<Fdt, FdtFault>, Memory>
    ensures { IfOk result (λ answer. answer ≡ fdt_of text.now) }
{
    match utf8_place(text) {
        Some(place) => Ok(Err(FdtFault {
            kind: FdtKind::NotUtf8,
            place,
        })),
        None => read_utf8(alloc, text),
    }
}

/// The same of a text that is UTF-8.
fn read_utf8(alloc: Global, text: &[u8]) -> Result<Result<Fdt, FdtFault>, Memory>
    requires { IsUtf8 text.now }
    ensures { IfOk result (λ answer. answer ≡ definition.finish (steps (Ok begin) text.now)) }
{
    let mut reader = Reader::begin(alloc, text);
    let mut token = Token::Front;
    let mut at = 0;
    while at < text.len() {
        match reader.step(alloc, at, text[at], token)? {
            Ok(next) => token = next,
            Err(fault) => return Ok(Err(fault)),
        }
        // Most bytes of a long text change nothing but the place, so no step is taken for them.
        at = reader.behind_stretch(at + 1, token);
    }
    Ok(finish(text.len(), token, reader))
}

/// What stands there where the text ends.
#[tactic(auto, unfolding(mb_fdt_text::specs::Reader::finish))]
fn finish(at: usize, token: Token<'_>, reader: Reader<'_>) -> Result<Fdt, FdtFault>
    requires { IsPlaced at token reader }
    ensures { result ≡ definition.finish (Ok (reader_of at token.entry reader.entry)) }
{
    match token {
        Token::Between { .. } => whole(at, reader),
        Token::Banned { .. } => Err(FdtFault {
            kind: FdtKind::Syntax,
            place: reader.markup + 2,
        }),
        _ => Err(FdtFault {
            kind: FdtKind::Syntax,
            place: at,
        }),
    }
}

/// What stands there where the text ends and nothing is begun.
fn whole(at: usize, reader: Reader<'_>) -> Result<Fdt, FdtFault>
    ensures { (start : Bool) → result
        ≡ definition.end_of (reader_at at reader.entry) (definition.Between start) (path_of reader.entry.path) (option_map root_of reader.entry.root) }
{
    let outside = reader.path.depth() == 0;
    match reader.root {
        Some(said) if outside => Ok(Fdt {
            expires: said.expires,
            complete: says_yes(said.slots.of_root(RootAttribute::Complete)),
            files: FileEntries::from_vec(reader.files),
        }),
        _ => Err(FdtFault {
            kind: FdtKind::Syntax,
            place: at,
        }),
    }
}

/// Whether the value of Complete is given and says yes (RFC 3926 section 3.4.2).
fn says_yes(value: Option<&[u8]>) -> bool
    ensures { result ≡ is_complete (value_of value.entry) }
{
    match value {
        Some(value) => says(value, b"true") || says(value, b"1"),
        None => false,
    }
}
