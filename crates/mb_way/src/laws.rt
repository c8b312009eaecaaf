ghost use Rattle.mb_way.specs.Laws.{DeterminedIsTested, BlockIsTested, SolutionSolves, KeptIsOneMore, NothingIsKept, HeardAreKept, CompleteByCount, CompleteByHeard, SourcesAreSent};

/// The law of what symbols determine under Raptor: the tests of the definitions say what the equations say, and where
/// intermediate symbols solve pairs, the solution of the definitions does. It does nothing.
pub fn blocks_are_determined()
    ensures determined { DeterminedIsTested }
    ensures block { BlockIsTested }
    ensures solved { SolutionSolves }
{}

/// The law of blocks. A symbol that is kept makes the kept ones one more. A block is complete exactly where as many
/// symbols are kept as it has source symbols, which is exactly where the symbols that were heard determine it. Where a
/// block is complete whose kept symbols were sent, its source symbols are those that were sent. It does nothing.
pub fn blocks_are_as_sent()
    ensures more { KeptIsOneMore }
    ensures nothing { NothingIsKept }
    ensures kept { HeardAreKept }
    ensures count { CompleteByCount }
    ensures heard { CompleteByHeard }
    ensures sent { SourcesAreSent }
{}
