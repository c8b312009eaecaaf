use mb_base::Bytes;

/// What became of a packet of an FDT Instance. Where it is dropped, the first reason in this order that holds is
/// given.
#[derive(Drop)]
pub enum WindowHeard {
    /// The instance has no slot, and the packet no EXT_FTI.
    NoIds,
    /// No text has the packet's EXT_FTI: one of its numbers is 0, or the text would have more than 65,536 bytes.
    Shape,
    /// The packet's EXT_FTI is of another text than the slot's.
    Differs,
    /// The text has no such block.
    Block,
    /// The block has not that many symbols.
    Symbol,
    /// The payload has no byte, or ends with a short symbol that is not the text's last one or lacks bytes of it.
    Length,
    /// The instance was read.
    Done,
    /// A symbol of the text is still missing.
    Part,
    /// The text is whole with this packet's symbols.
    Whole { text: Bytes },
}
