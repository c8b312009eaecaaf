ghost use Rattle.std.specs.Prelude.{◌≡◌};
ghost use Rattle.mb_xml.specs.Name as name;

/// Whether the byte is white space (XML 1.0 section 2.3).
pub fn is_space(byte: u8) -> bool
    ensures { result ≡ name.is_space byte }
{
    byte == b' ' || byte == b'\t' || byte == b'\r' || byte == b'\n'
}

/// Whether a name may begin with the byte (XML 1.0 section 2.3; each byte of a character above 127 may).
pub fn is_name_start(byte: u8) -> bool
    ensures { result ≡ name.is_name_start byte }
{
    byte.is_ascii_alphabetic() || byte == b'_' || byte == b':' || byte >= 128
}

/// Whether the byte may stand in a name behind its first one (XML 1.0 section 2.3).
pub fn is_name_byte(byte: u8) -> bool
    ensures { result ≡ name.is_name_byte byte }
{
    is_name_start(byte) || byte.is_ascii_digit() || byte == b'-' || byte == b'.'
}

/// A name without its prefix: what stands behind the last colon, or all of it where there is none.
pub fn local_part(whole: &[u8]) -> &[u8]
    ensures { result.now ≡ name.local_part whole.now }
{
    let mut from = 0;
    for (place, byte) in whole.iter().enumerate() {
        if *byte == b':' {
            from = place + 1;
        }
    }
    &whole[from..]
}
