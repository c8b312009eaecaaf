ghost use Rattle.mb_rows.specs.Laws.{RowsAreSums, RowsAreFolded, FirstAreFree, MarksAreEnough, WalksEnd, RowsDetermine, RowsDetermineBlock};

/// The law of LT rows and folded rows: an LT row sums values to what its triple adds up; wherever the constraints are
/// met, the folded row says of the first K symbols what the LT row says of all; and whatever the first K symbols are,
/// the others can be such that the constraints are met. It does nothing.
pub fn rows_fold()
    ensures sums { RowsAreSums }
    ensures folded { RowsAreFolded }
    ensures free { FirstAreFree }
{}

/// The law of what the definitions look for: there is a Gray code with half of its bits set for each source and LDPC
/// symbol, and each walk comes to a place below L. It does nothing.
pub fn rows_are_there()
    ensures marks { MarksAreEnough }
    ensures walks { WalksEnd }
{}

/// The law of what ESIs determine: it follows from K unknowns and their folded rows as from all L and the constraints.
/// It does nothing.
pub fn rows_determine()
    ensures one { RowsDetermine }
    ensures block { RowsDetermineBlock }
{}
