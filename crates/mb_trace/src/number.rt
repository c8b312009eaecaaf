ghost use Rattle.std.specs.Prelude.{◌≡◌, ℕ, List, ◌^◌, ◌+◌, ◌<◌, ◌≤◌, ◌++◌, length, vec_len, vec_capacity, OnOk, OnErr};
ghost use Rattle.mb_trace.specs.Number.{be_number, be_bytes, NumbersAreReadBack, BytesAreWrittenBack, AreBytes};

use mb_outside::Memory;

/// The number that two bytes stand for.
pub fn be16(bytes: &[u8]) -> u16
    requires { length bytes.now ≡ 2 }
    ensures { result ≡ be_number bytes.now }
{
    u16::from(bytes[0]) * 256 + u16::from(bytes[1])
}

/// The number that four bytes stand for.
pub fn be32(bytes: &[u8]) -> u32
    requires { length bytes.now ≡ 4 }
    ensures { result ≡ be_number bytes.now }
{
    u32::from(be16(&bytes[..2])) * 0x1_0000 + u32::from(be16(&bytes[2..]))
}

/// The number that six bytes stand for.
pub fn be48(bytes: &[u8]) -> u64
    requires { length bytes.now ≡ 6 }
    ensures value { result ≡ be_number bytes.now }
    ensures below { result < 2 ^ 48 }
{
    u64::from(be16(&bytes[..2])) * 0x1_0000_0000 + u64::from(be32(&bytes[2..]))
}

/// Appends the number in two bytes. After `Memory` the bytes are as before.
pub fn put_be16(out: &mut Vec<u8>, n: u16) -> Result<(), Memory>
    ensures appended { OnOk result (out.new.items ≡ out.old.items ++ be_bytes 2 n) }
    ensures kept { OnErr result (out.new.items ≡ out.old.items) }
    ensures full { OnErr result (vec_capacity out.old < vec_len out.old + 2) }
    ensures room { vec_capacity out.old ≤ vec_capacity out.new }
{
    out.extend_from_slice(&n.to_be_bytes())?;
    Ok(())
}

/// Appends the number in four bytes. After `Memory` the bytes are as before.
pub fn put_be32(out: &mut Vec<u8>, n: u32) -> Result<(), Memory>
    ensures appended { OnOk result (out.new.items ≡ out.old.items ++ be_bytes 4 n) }
    ensures kept { OnErr result (out.new.items ≡ out.old.items) }
    ensures full { OnErr result (vec_capacity out.old < vec_len out.old + 4) }
    ensures room { vec_capacity out.old ≤ vec_capacity out.new }
{
    out.extend_from_slice(&n.to_be_bytes())?;
    Ok(())
}

/// Appends the number in six bytes. After `Memory` the bytes are as before.
pub fn put_be48(out: &mut Vec<u8>, n: u64) -> Result<(), Memory>
    requires { n < 2 ^ 48 }
    ensures appended { OnOk result (out.new.items ≡ out.old.items ++ be_bytes 6 n) }
    ensures kept { OnErr result (out.new.items ≡ out.old.items) }
    ensures full { OnErr result (vec_capacity out.old < vec_len out.old + 6) }
    ensures room { vec_capacity out.old ≤ vec_capacity out.new }
{
    out.extend_from_slice(&n.to_be_bytes()[2..])?;
    Ok(())
}

/// The law of numbers in bytes. It does nothing.
pub fn numbers_are_read_back()
    ensures read { NumbersAreReadBack }
    ensures written { BytesAreWrittenBack }
    ensures width { (width number : ℕ) → length (be_bytes width number) ≡ width }
    ensures bytes { (width number : ℕ) → AreBytes (be_bytes width number) }
    ensures below { (bytes : List ℕ) → AreBytes bytes → be_number bytes < 256 ^ length bytes }
{}
