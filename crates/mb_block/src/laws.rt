ghost use Rattle.mb_block.specs.Laws.{SourcesSuffice};

/// The law of what is asked for: under Compact No-Code all source symbols determine a block, whatever is kept of it. It
/// does nothing.
pub fn source_symbols_suffice()
    ensures { SourcesSuffice }
{}
