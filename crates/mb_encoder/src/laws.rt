ghost use Rattle.mb_encoder.specs.Laws.{SymbolsAreOne, SourcesAreSymbols};

/// The law of encoding symbols: a block has one at each ESI at most, and at one below K it is the source symbol. It does
/// nothing.
pub fn symbols_are_one()
    ensures one { SymbolsAreOne }
    ensures source { SourcesAreSymbols }
{}
