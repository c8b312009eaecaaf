use mb_base::Bytes;

/// What handing a ready life out gave.
#[derive(Drop)]
pub enum Taken {
    /// Its file.
    File { location: Bytes, bytes: Bytes },
    /// The file that follows from its symbols has another MD5 than its description gives.
    Damaged { given: [u8; 16], found: [u8; 16] },
}
