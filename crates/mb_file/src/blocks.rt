use mb_block::{BlockRx, BlocksRx};

/// The blocks of a file as far as they were heard.
#[derive(Drop)]
pub(crate) enum Blocks {
    /// No symbol came.
    Nothing,
    /// Under Compact No-Code all blocks stand in one piece.
    NoCode(BlocksRx),
    /// Under Raptor each block stands alone, once a symbol of it came.
    Raptor(Vec<Option<BlockRx>>),
}
