ghost use Rattle.std.specs.Prelude.{◌≡◌, ◌↔◌, if◌then◌else◌, None, Some, IsNone, IfSome, IsUtf8};
ghost use Rattle.std.specs.Str.{IsValidUpTo, is_utf8};
ghost use Rattle.std.specs.Str.Lossy.{utf8_valid_len};

/// Where bytes stop being UTF-8: `None` exactly where they are UTF-8, and else the length of their longest front
/// that is (XML 1.0 section 4.3.3).
pub fn utf8_place(text: &[u8]) -> Option<usize>
    ensures exact { result ≡ (if is_utf8 text.now then None else Some (utf8_valid_len text.now)) }
    ensures utf8 { IsNone result ↔ IsUtf8 text.now }
    ensures place { IfSome result (IsValidUpTo text.now) }
{
    match str::from_utf8(text) {
        Ok(_) => None,
        Err(fault) => Some(fault.valid_up_to()),
    }
}
