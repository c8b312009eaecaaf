ghost use Rattle.std.specs.Prelude.{◌≡◌, ◌≤◌, option_map, take, nat_eq, []};
ghost use Rattle.std.specs.List.{list_any, starts_with};
ghost use Rattle.mb_xml.specs.Reference as reference;
ghost use Rattle.mb_xml.specs.ValueStateView.{inside_of, radix_of};

/// The first number above those of Unicode scalar values.
pub(crate) const SCALARS_END: u32 = 0x11_0000;

/// The base of the digits of a reference by number.
#[derive(Clone, Copy, Debug, PartialEq, Eq)]
pub enum Radix {
    Decimal,
    Hexadecimal,
}

impl Radix {
    /// How many digits there are.
    pub(crate) fn base(self) -> u8
        ensures exact { result ≡ radix_of self }
        ensures least { 2 ≤ result }
        ensures most { result ≤ 16 }
    {
        match self {
            Radix::Decimal => 10,
            Radix::Hexadecimal => 16,
        }
    }
}

/// Where a reader of an attribute's value stands (XML 1.0 sections 4.1 and 4.6).
#[derive(Clone, Copy, Debug, PartialEq, Eq)]
pub enum Inside {
    /// In no reference.
    Plain,
    /// Behind `&` and the first `count` of these bytes.
    Named { bytes: [u8; 5], count: usize },
    /// Behind `&#`.
    Numbered,
    /// Behind `&#` or `&#x` and digits, with the number that they write, where there are some.
    Digits { radix: Radix, number: Option<u32> },
}

impl Inside {
    /// Right behind `&`.
    pub fn begun() -> Inside
        ensures { inside_of result ≡ reference.Named [] }
    {
        Inside::Named {
            bytes: [0; 5],
            count: 0,
        }
    }
}

/// One byte further in a reference, or `None` where no reference has that byte there. What stands in no reference
/// stays so.
#[tactic(auto, unfolding(crate::specs::Reference::referred_further))]
pub fn further(inside: Inside, byte: u8) -> Option<Inside>
    ensures { option_map inside_of result ≡ reference.referred_further (inside_of inside) byte }
{
    match inside {
        Inside::Plain => Some(Inside::Plain),
        Inside::Named { bytes, count } => named_further(bytes, count, byte),
        Inside::Numbered if byte == b'x' => Some(Inside::Digits {
            radix: Radix::Hexadecimal,
            number: None,
        }),
        Inside::Numbered => digits_further(Radix::Decimal, None, byte),
        Inside::Digits { radix, number } => digits_further(radix, number, byte),
    }
}

/// One byte behind `&` and the first `count` of these bytes.
fn named_further(bytes: [u8; 5], count: usize, byte: u8) -> Option<Inside>
    ensures { option_map inside_of result ≡ reference.named_further (take count bytes) byte }
{
    if count >= bytes.len() {
        return None;
    }
    let mut longer = bytes;
    longer[count] = byte;
    let name = &longer[..count + 1];
    if name == b"#".as_slice() {
        Some(Inside::Numbered)
    } else if !begins_reference(name) {
        None
    } else if byte == b';' {
        Some(Inside::Plain)
    } else {
        Some(Inside::Named {
            bytes: longer,
            count: count + 1,
        })
    }
}

/// Whether a reference by name begins so, behind its `&`.
fn begins_reference(name: &[u8]) -> bool
    ensures { result ≡ list_any (λ word. starts_with nat_eq word name.now) reference.named_references }
{
    b"amp;".starts_with(name)
        || b"lt;".starts_with(name)
        || b"gt;".starts_with(name)
        || b"quot;".starts_with(name)
        || b"apos;".starts_with(name)
}

/// One byte behind `&#` or `&#x` and digits.
fn digits_further(radix: Radix, number: Option<u32>, byte: u8) -> Option<Inside>
    ensures { option_map inside_of result ≡ reference.digits_further (radix_of radix) number byte }
{
    let so_far = number.unwrap_or(0);
    let base = radix.base();
    if let Some(digit) = char::from(byte).to_digit(u32::from(base)) {
        let longer = u64::from(so_far) * u64::from(base) + u64::from(digit);
        if longer >= u64::from(SCALARS_END) {
            return None;
        }
        return Some(Inside::Digits {
            radix,
            number: Some(longer as u32),
        });
    }
    if byte == b';' && is_character(so_far) {
        Some(Inside::Plain)
    } else {
        None
    }
}

/// Whether the number is that of a Unicode scalar value other than 0.
pub(crate) fn is_character(number: u32) -> bool
    ensures { result ≡ reference.is_character number }
{
    0 < number && (number < 0xd800 || 0xe000 <= number && number < SCALARS_END)
}
