ghost use Rattle.std.specs.Prelude.{◌≡◌, ◌≤◌};
ghost use Rattle.mb_xml.specs.Reference as reference;
ghost use Rattle.mb_xml.specs.Value.{bytes_of};

use crate::characters::CharacterBytes;
use base64::engine::general_purpose::STANDARD;

/// The characters of the base64 of 16 bytes (RFC 4648 section 4).
const MOST_CHARACTERS: usize = 24;

/// The N bytes of which the value is the base64 (RFC 4648 section 4): with its padding, with no bit set behind
/// the last byte, and with nothing around it.
pub(crate) fn base64_bytes<const N: usize>(value: &[u8]) -> Option<[u8; N]>
    ensures { result ≡ bytes_of N value.now }
{
    let mut bytes = [0; N];
    match STANDARD.decode_slice(value, &mut bytes) {
        Ok(count) if count == N => Some(bytes),
        _ => None,
    }
}

/// The N bytes, 16 at most, of which the value is the base64 (RFC 4648 section 4), its references being replaced
/// (XML 1.0 section 4.4). Of a longer value no more is read than tells that it is longer.
pub fn base64_in<const N: usize>(value: &[u8]) -> Option<[u8; N]>
    requires { N ≤ 16 }
    ensures { result ≡ bytes_of N (reference.replaced value.now) }
{
    let mut room = [0; MOST_CHARACTERS];
    let count = CharacterBytes::new(value).put_into(&mut room)?;
    base64_bytes(&room[..count])
}
