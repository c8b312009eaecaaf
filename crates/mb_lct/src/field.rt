ghost use Rattle.std.specs.Prelude.{◌≡◌, ◌+◌, ◌*◌, ◌^◌, ◌<◌, ◌≤◌, ◌++◌, ◌==◌, if◌then◌else◌, None, Some, IfSome, length, vec_len, vec_capacity, OnOk, OnErr};
ghost use Rattle.mb_base.specs.Number.{be_number, be_bytes};

use mb_base::Memory;

/// The most bytes of a number of these headers.
const NUMBER_MAX: usize = 16;

/// The values of a byte.
const BYTE: u64 = 256;

/// The most bytes of a number that is read in one register.
const SHORT_MAX: usize = 8;

/// The number above each of so many bytes.
const SHORT_END: u128 = 1 << (8 * SHORT_MAX);

/// The number that at most eight bytes stand for.
fn read_short(bytes: &[u8]) -> u64
    requires { length bytes.now ≤ 8 }
    ensures value { result ≡ be_number bytes.now }
    ensures below { result < 256 ^ length bytes.now }
{
    let mut number = 0;
    for byte in bytes {
        number = number * BYTE + u64::from(*byte);
    }
    number
}

/// The number that at most 14 bytes stand for.
fn read_number(bytes: &[u8]) -> u128
    requires { length bytes.now ≤ 14 }
    ensures value { result ≡ be_number bytes.now }
    ensures below { result < 256 ^ length bytes.now }
{
    if bytes.len() <= SHORT_MAX {
        return u128::from(read_short(bytes));
    }
    let (upper, lower) = bytes.split_at(bytes.len() - SHORT_MAX);
    u128::from(read_short(upper)) * SHORT_END + u128::from(read_short(lower))
}

/// The number that a TSI's bytes stand for, at most six.
pub(crate) fn read_tsi(bytes: &[u8]) -> u64
    requires { length bytes.now ≤ 6 }
    ensures value { result ≡ be_number bytes.now }
    ensures below { result < 2 ^ 48 }
{
    read_short(bytes)
}

/// The number that a TOI's bytes stand for, at most 14, if there are any.
pub(crate) fn read_toi(bytes: &[u8]) -> Option<u128>
    requires { length bytes.now ≤ 14 }
    ensures value { result ≡ (if length bytes.now == 0 then None else Some (be_number bytes.now)) }
    ensures below { IfSome result (λ toi. toi < 2 ^ 112) }
{
    if bytes.is_empty() {
        None
    } else {
        Some(read_number(bytes))
    }
}

/// Appends the number in so many bytes. After `Memory` the bytes are as before.
pub(crate) fn put_number(out: &mut Vec<u8>, width: usize, number: u128) -> Result<(), Memory>
    requires { width ≤ 16 }
    ensures appended { OnOk result (out.new.items ≡ out.old.items ++ be_bytes width number) }
    ensures kept { OnErr result (out.new.items ≡ out.old.items) }
    ensures full { OnErr result (vec_capacity out.old < vec_len out.old + width) }
    ensures room { vec_capacity out.old ≤ vec_capacity out.new }
{
    out.extend_from_slice(&number.to_be_bytes()[NUMBER_MAX - width..])?;
    Ok(())
}
