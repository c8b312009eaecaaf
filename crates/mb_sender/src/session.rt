/// A session beside its files, and how it is sent.
#[derive(Clone, Copy, Debug, PartialEq, Eq)]
pub struct Session {
    /// The Transport Session Identifier.
    pub tsi: u32,
    /// The FDT Instance ID, of at most 20 bits (RFC 3926 section 3.4.1).
    pub instance: u32,
    /// The moment of the first record, in NTP seconds.
    pub start: u64,
    /// The records of each second.
    pub rate: u64,
    /// How often everything is sent.
    pub rounds: u32,
    /// The repair symbols of a block in each round, in percent of its source symbols.
    pub percent: u16,
}
