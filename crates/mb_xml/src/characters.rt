ghost use Rattle.std.specs.Prelude.{◌≡◌, ◌≤◌, ◌<◌, Some, [], ◌∷◌, length, nat_lt, take, bytes_eq, encode_utf8, IfNone, IfSome};
ghost use Rattle.mb_xml.specs.Reference as reference;

use crate::references::{place_of, referred};

/// The bytes of a value's characters, one by one, with characters in place of its references (XML 1.0 sections 4.1
/// and 4.6). It borrows the value, so that a value is judged without a copy of it.
#[derive(Clone, Copy)]
pub(crate) struct CharacterBytes<'a> {
    /// What of the value is still to be read.
    behind: &'a [u8],
    /// The character of the last reference, whose bytes from `given` to `count` are still to be given.
    character: [u8; 4],
    given: usize,
    count: usize,
    ghost room: { length character ≡ 4 },
    ghost within: { count ≤ 4 },
}

/// The bytes of a character in UTF-8, with how many they are.
fn encoded(character: char) -> ([u8; 4], usize)
    ensures exact { take result.1 result.0 ≡ encode_utf8 character }
    ensures least { 0 < result.1 }
    ensures most { result.1 ≤ 4 }
{
    let mut room = [0; 4];
    let bytes = character.encode_utf8(&mut room).as_bytes();
    let count = bytes.len();
    let mut kept = [0; 4];
    kept[..count].copy_from_slice(bytes);
    (kept, count)
}

impl<'a> CharacterBytes<'a> {
    ghost use Rattle.mb_xml.specs.CharactersView.{left, Gives};

    /// All bytes of the value's characters.
    pub(crate) fn new(value: &'a [u8]) -> Self
        ensures { left result ≡ reference.replaced value.now }
    {
        CharacterBytes {
            behind: value,
            character: [0; 4],
            given: 0,
            count: 0,
        }
    }

    /// The bytes of a reference whose `&` stands before these bytes, and of what follows it.
    fn behind_ampersand(bytes: &'a [u8]) -> Self
        ensures exact { left result ≡ reference.replaced_in (Some []) bytes.now }
        ensures spent { result.count ≤ result.given → left result ≡ [] }
    {
        let Some(place) = place_of(bytes, b';') else {
            return CharacterBytes::new(&[]);
        };
        let (character, count) = encoded(referred(&bytes[..place]).unwrap_or('\0'));
        CharacterBytes {
            behind: &bytes[place + 1..],
            character,
            given: 0,
            count,
        }
    }

    /// The next byte of the last reference's character, where there is one.
    fn next_of_reference(&mut self) -> Option<u8>
        ensures some { IfSome result (λ byte. left self.old ≡ byte ∷ left self.new) }
        ensures none { IfNone result (self.old.count ≤ self.old.given) }
        ensures same { IfNone result (self.new ≡ self.old) }
    {
        if self.given >= self.count {
            return None;
        }
        let byte = self.character[self.given];
        self.given += 1;
        Some(byte)
    }

    /// The next byte, where there is one.
    pub(crate) fn next(&mut self) -> Option<u8>
        ensures { Gives (left self.old) result (left self.new) }
    {
        if let Some(byte) = self.next_of_reference() {
            return Some(byte);
        }
        match self.behind {
            [] => None,
            [b'&', behind @ ..] => {
                *self = CharacterBytes::behind_ampersand(behind);
                self.next_of_reference()
            }
            [byte, behind @ ..] => {
                self.behind = behind;
                Some(*byte)
            }
        }
    }

    /// Writes the bytes to the front of the room, and answers how many they are, or `None` where it has no room for
    /// them.
    pub(crate) fn put_into(self, room: &mut [u8]) -> Option<usize>
        ensures within { IfSome result (λ count. count ≤ length room.new) }
        ensures exact { IfSome result (λ count. take count room.new ≡ left self.entry) }
        ensures long { IfNone result (length room.old < length (left self.entry)) }
    {
        let mut bytes = self;
        let mut count = 0;
        while let Some(byte) = bytes.next() {
            if count >= room.len() {
                return None;
            }
            room[count] = byte;
            count += 1;
        }
        Some(count)
    }
}

/// Whether the value has a character, its references being replaced (XML 1.0 section 4.4).
pub fn is_filled(value: &[u8]) -> bool
    ensures { result ≡ nat_lt 0 (length (reference.replaced value.now)) }
{
    let mut bytes = CharacterBytes::new(value);
    bytes.next().is_some()
}

/// Whether the value says these words, its references being replaced (XML 1.0 section 4.4).
pub fn says(value: &[u8], words: &[u8]) -> bool
    ensures { result ≡ bytes_eq (reference.replaced value.now) words.now }
{
    let mut bytes = CharacterBytes::new(value);
    for word in words {
        if bytes.next() != Some(*word) {
            return false;
        }
    }
    bytes.next().is_none()
}
