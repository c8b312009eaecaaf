ghost use Rattle.mb_linear.specs.Laws.{SumsAreDetermined, RowsAreDecided, IndependentRowsAreFew, IndependentSumsAreFew, FullRowsDetermineAll, NewRowsAreIndependent, SumsAreReduced, LeftIsSum, LeftIsReduced, ReducedAreIndependent};

/// The law of rows that follow from others: exactly the sums of some of them do, and values tell each other row
/// from these. It does nothing.
pub fn rows_follow()
    ensures sums { SumsAreDetermined }
    ensures decided { RowsAreDecided }
{}

/// The law of independent rows: there are no more of them than places, nor than rows that they are sums of; a row
/// that is no sum of them makes one more; and as many as there are places determine each row. It does nothing.
pub fn rows_are_few()
    ensures places { IndependentRowsAreFew }
    ensures sums { IndependentSumsAreFew }
    ensures new { NewRowsAreIndependent }
    ensures full { FullRowsDetermineAll }
{}

/// The law of reduced rows: nothing is left of a row exactly where it is a sum of them, and what is left of another
/// one is a reduced row more. It does nothing.
pub fn rows_are_reduced()
    ensures sums { SumsAreReduced }
    ensures left { LeftIsSum }
    ensures more { LeftIsReduced }
    ensures independent { ReducedAreIndependent }
{}
