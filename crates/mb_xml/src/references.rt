ghost use Rattle.std.specs.Prelude.{◌≡◌, ◌≢◌, ℕ, ◌<◌, ◌≤◌, length, slice_index, IfOk, IfSome, IfNone, IsTrue, IsUtf8};
ghost use Rattle.mb_xml.specs.Reference as reference;
ghost use Rattle.mb_xml.specs.ValueStateView.{radix_of};

use crate::characters::CharacterBytes;
use crate::numbers::digits_number;
use crate::value_state::{Radix, SCALARS_END, is_character};
use mb_base::{Bytes, Memory};
use std::alloc::Global;

/// The character that a reference names between its `&` and `;`, where it is one (XML 1.0 sections 4.1 and 4.6).
#[tactic(auto, unfolding(crate::specs::Reference::referred))]
pub fn referred(name: &[u8]) -> Option<char>
    ensures { result ≡ reference.referred name.now }
{
    if name == b"amp".as_slice() {
        Some('&')
    } else if name == b"lt".as_slice() {
        Some('<')
    } else if name == b"gt".as_slice() {
        Some('>')
    } else if name == b"quot".as_slice() {
        Some('"')
    } else if name == b"apos".as_slice() {
        Some('\'')
    } else if name.starts_with(b"#x") {
        character(&name[2..], Radix::Hexadecimal)
    } else if name.starts_with(b"#") {
        character(&name[1..], Radix::Decimal)
    } else {
        None
    }
}

/// The character whose number the digits write, one or more.
fn character(digits: &[u8], radix: Radix) -> Option<char>
    ensures { result ≡ reference.character_of (radix_of radix) digits.now }
{
    if digits.is_empty() {
        return None;
    }
    let Some(number) = digits_number(digits, radix.base(), u128::from(SCALARS_END)) else {
        return None;
    };
    let number = number as u32;
    if !is_character(number) {
        return None;
    }
    char::from_u32(number)
}

/// Whether the value has no reference, so that its characters are its bytes.
pub(crate) fn is_plain(value: &[u8]) -> bool
    ensures { IsTrue result → reference.replaced value.now ≡ value.now }
{
    match place_of(value, b'&') {
        None => true,
        Some(_) => false,
    }
}

/// How many bytes [`replaced`] gives (XML 1.0 section 4.4).
pub fn replaced_length(value: &[u8]) -> usize
    ensures { result ≡ length (reference.replaced value.now) }
{
    if is_plain(value) {
        return value.len();
    }
    let mut bytes = CharacterBytes::new(value);
    let mut count = 0;
    while bytes.next().is_some() {
        count += 1;
    }
    count
}

/// The value with characters in place of its references (XML 1.0 section 4.4). Where one names no character, the
/// character 0 stands for it. What follows a `&` without a `;` behind it is left out. It takes memory for these bytes
/// alone, at once.
pub fn replaced(alloc: Global, value: &[u8]) -> Result<Bytes, Memory>
    ensures exact { IfOk result (λ bytes. bytes ≡ reference.replaced value.now) }
    ensures short { IfOk result (λ bytes. length bytes ≤ length value.now) }
    ensures text { IsUtf8 value.now → IfOk result (λ bytes. IsUtf8 bytes) }
{
    if is_plain(value) {
        return Ok(Bytes::from_vec(value.to_vec(alloc)?));
    }
    let mut out = Vec::with_capacity(alloc, replaced_length(value))?;
    let mut bytes = CharacterBytes::new(value);
    while let Some(byte) = bytes.next() {
        out.push_reserved(byte);
    }
    Ok(Bytes::from_vec(out))
}

/// The place of the first such byte, if there is one.
pub(crate) fn place_of(bytes: &[u8], byte: u8) -> Option<usize>
    ensures within { IfSome result (λ place. place < length bytes.now) }
    ensures there { IfSome result (λ place. slice_index bytes.now place ≡ byte) }
    ensures first { IfSome result (λ place. (k : ℕ) → k < place → slice_index bytes.now k ≢ byte) }
    ensures none { IfNone result ((k : ℕ) → k < length bytes.now → slice_index bytes.now k ≢ byte) }
{
    bytes.iter().position(|b| *b == byte)
}
