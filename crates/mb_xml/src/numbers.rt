ghost use Rattle.std.specs.Prelude.{◌≡◌, ℕ, List, [], ◌∷◌, ◌^◌, ◌<◌, ◌≤◌, ◌&&◌, nat_lt, option_and_then, IfSome};
ghost use Rattle.std.specs.List.{list_all};
ghost use Rattle.std.specs.Char.{is_digit};
ghost use Rattle.std.specs.Str.Parse.{digits_value};
ghost use Rattle.mb_xml.specs.Value.{number_of, some_if};
ghost use Rattle.mb_xml.specs.Reference as reference;
ghost use Rattle.mb_xml.specs.NumberView.{number_with, behind_space, IsBelow};

use crate::characters::CharacterBytes;
use crate::names::is_space;
use crate::references::is_plain;

/// The number that the digits write, where it is below the limit.
pub(crate) fn digits_number(digits: &[u8], radix: u8, limit: u128) -> Option<u128>
    requires least { 2 ≤ radix }
    requires most { radix ≤ 36 }
    requires limit { limit ≤ 2 ^ 112 }
    ensures { result ≡ some_if (list_all (λ d. is_digit d radix) digits.now
        && nat_lt (digits_value radix digits.now) limit) (digits_value radix digits.now) }
{
    let mut number: u128 = 0;
    for byte in digits {
        // Digits behind it don't make a number smaller, so it need not be known from the limit on.
        if number >= limit {
            return None;
        }
        let Some(digit) = char::from(*byte).to_digit(u32::from(radix)) else {
            return None;
        };
        number = number * u128::from(radix) + u128::from(digit);
    }
    if number < limit { Some(number) } else { None }
}

/// What the bytes of a value so far are of a number.
#[derive(Clone, Copy)]
pub(crate) enum NumberRead {
    /// White space alone.
    Nothing,
    /// Digits behind it, which write this number.
    Digits(u128),
    /// White space behind these.
    Whole(u128),
}

impl NumberRead {
    /// What it is with white space behind it.
    fn spaced(self) -> NumberRead
        ensures { result ≡ behind_space self }
    {
        match self {
            NumberRead::Digits(number) => NumberRead::Whole(number),
            _ => self,
        }
    }

    /// What it is with one byte more, or `None` where no number below the limit goes on so.
    fn further(self, byte: u8, limit: u128) -> Option<NumberRead>
        requires limit { limit ≤ 2 ^ 112 }
        requires below { IsBelow limit self }
        ensures exact { (bytes : List ℕ) → number_with limit self (byte ∷ bytes) ≡ option_and_then (λ next. number_with limit next bytes) result }
        ensures below { IfSome result (IsBelow limit) }
    {
        if is_space(byte) {
            return Some(self.spaced());
        }
        let digit = u128::from(char::from(byte).to_digit(10)?);
        let number = match self {
            NumberRead::Nothing => digit,
            NumberRead::Digits(number) => number * 10 + digit,
            NumberRead::Whole(_) => return None,
        };
        // Digits behind it don't make a number smaller, so it need not be known from the limit on.
        if number < limit {
            Some(NumberRead::Digits(number))
        } else {
            None
        }
    }

    /// The number, where there is one.
    fn number(self, limit: u128) -> Option<u128>
        requires { IsBelow limit self }
        ensures { result ≡ number_with limit self [] }
    {
        match self {
            NumberRead::Nothing => None,
            NumberRead::Digits(number) | NumberRead::Whole(number) => Some(number),
        }
    }
}

/// The number below the limit that a value without references stands for.
fn plain_number(value: &[u8], limit: u128) -> Option<u128>
    requires { limit ≤ 2 ^ 112 }
    ensures { result ≡ number_of limit value.now }
{
    let mut read = NumberRead::Nothing;
    for byte in value {
        read = read.further(*byte, limit)?;
    }
    read.number(limit)
}

/// The number below the limit that the value stands for, its references being replaced (XML 1.0 section 4.4): one
/// decimal digit or more, with white space (section 2.3) before and behind. Leading zeros are allowed, a sign isn't.
pub fn number_in(value: &[u8], limit: u128) -> Option<u128>
    requires { limit ≤ 2 ^ 112 }
    ensures { result ≡ number_of limit (reference.replaced value.now) }
{
    if is_plain(value) {
        return plain_number(value, limit);
    }
    let mut bytes = CharacterBytes::new(value);
    let mut read = NumberRead::Nothing;
    while let Some(byte) = bytes.next() {
        read = read.further(byte, limit)?;
    }
    read.number(limit)
}
