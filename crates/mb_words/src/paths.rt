ghost use Rattle.std.specs.Prelude.{◌≡◌, ◌&&◌, nat_le};
ghost use Rattle.std.specs.List.{list_all};
ghost use Rattle.mb_words.specs.Values.{is_path, is_path_byte, is_server};

/// Whether a text is a path of repair requests: 1 to 256 ASCII letters, digits and bytes of `/-._~%`, of which the first
/// is `/`.
#[tactic(auto, unfolding(crate::specs::Values::is_path))]
pub(crate) fn is_path(text: &str) -> bool
    ensures { result ≡ is_path text.now }
{
    let bytes = text.as_bytes();
    bytes.len() <= 256 && bytes.first() == Some(&b'/') && are_path_bytes(bytes)
}

fn are_path_bytes(bytes: &[u8]) -> bool
    ensures { result ≡ list_all is_path_byte bytes.now }
{
    for byte in bytes {
        if !is_path_byte(*byte) {
            return false;
        }
    }
    true
}

#[tactic(auto, unfolding(crate::specs::Values::is_path_byte))]
fn is_path_byte(byte: u8) -> bool
    ensures { result ≡ is_path_byte byte }
{
    (b'a' <= byte && byte <= b'z')
        || (b'A' <= byte && byte <= b'Z')
        || (b'0' <= byte && byte <= b'9')
        || byte == b'/'
        || byte == b'-'
        || byte == b'.'
        || byte == b'_'
        || byte == b'~'
        || byte == b'%'
}

/// Whether a text may name a repair server: 1 to 256 bytes 21 to 7e.
#[tactic(auto, unfolding(crate::specs::Values::is_server))]
pub(crate) fn is_server(text: &str) -> bool
    ensures { result ≡ is_server text.now }
{
    let bytes = text.as_bytes();
    1 <= bytes.len() && bytes.len() <= 256 && are_visible(bytes)
}

fn are_visible(bytes: &[u8]) -> bool
    ensures { result ≡ list_all (λ byte. nat_le 33 byte && nat_le byte 126) bytes.now }
{
    for byte in bytes {
        if *byte < 0x21 || 0x7e < *byte {
            return false;
        }
    }
    true
}
