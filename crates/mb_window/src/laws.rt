ghost use Rattle.mb_window.specs.Laws.{WholeIsSent};

/// The law of texts that are put together: where no symbol is missing, a text is the one whose symbols were heard,
/// in whatever order and however often. It does nothing.
pub fn whole_is_sent()
    ensures { WholeIsSent }
{}
