/// What became of a symbol of a block.
#[derive(Clone, Copy, Debug, PartialEq, Eq)]
pub enum Heard {
    /// It is kept.
    Kept,
    /// The symbols that are kept determine it, as they do a repeat.
    Determined,
    /// The block has no symbol with its ESI.
    OutOfRange,
}
