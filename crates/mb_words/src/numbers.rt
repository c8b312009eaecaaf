ghost use Rattle.std.specs.Prelude.{◌≡◌, ◌-◌, ◌^◌, if◌then◌else◌, Some, None, min};
ghost use Rattle.mb_words.specs.Numbers.{are_digits, number_in, value_of};

/// The number from `least` to `greatest` that a text of one or more decimal digits stands for. Leading zeros are digits,
/// however many.
///
/// `None` exactly where the text is empty, a byte of it is no digit, or the number is outside the range.
pub fn number_of(text: &str, least: u64, greatest: u64) -> Option<u64>
    ensures { result ≡ number_in least greatest text.now }
{
    let digits = text.as_bytes();
    if digits.is_empty() {
        return None;
    }
    let number = value_of(digits)?;
    if u128::from(least) <= number && number <= u128::from(greatest) {
        Some(number as u64)
    } else {
        None
    }
}

/// The number that digits stand for, or 2^128 - 1 where it is larger, and `None` where a byte is no digit.
fn value_of(digits: &[u8]) -> Option<u128>
    ensures { result ≡ (if are_digits digits.now then Some (min (value_of digits.now) (2 ^ 128 - 1)) else None) }
{
    let mut number = 0u128;
    for digit in digits {
        if !digit.is_ascii_digit() {
            return None;
        }
        number = number
            .saturating_mul(10)
            .saturating_add(u128::from(*digit - b'0'));
    }
    Some(number)
}
