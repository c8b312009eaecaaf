/// What an FDT Instance did: how many lives it started and prolonged, and how many of its entries are of a life under
/// another description, give no description, have a block size without a row in the tables, or would have passed a
/// limit. A count stands still at the last value of its type.
#[derive(Clone, Copy, Debug, PartialEq, Eq)]
pub struct InstanceReport {
    pub started: u32,
    pub prolonged: u32,
    pub conflicting: u32,
    pub refused: u32,
    pub norow: u32,
    pub full: u32,
}

/// What an entry of an instance did.
#[derive(Clone, Copy, Debug, PartialEq, Eq)]
pub enum Entered {
    /// It started a life.
    Started,
    /// A life under the same description stands longer.
    Prolonged,
    /// A life of the object stands under another description.
    Conflicting,
    /// It gives no description.
    Refused,
    /// The tables lack the row of a block size.
    NoRow,
    /// A life more would pass a limit.
    Full,
}
