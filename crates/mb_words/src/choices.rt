ghost use Rattle.std.specs.Prelude.{◌≡◌};
ghost use Rattle.mb_words.specs.Choices.{mode_of, report_of};

/// How symbols are asked for.
#[derive(Clone, Copy, Debug, PartialEq, Eq)]
pub enum Mode {
    /// By block and symbol number.
    Symbols,
    /// By ranges of the file's bytes.
    Ranges,
}

/// Which reception report is sent.
#[derive(Clone, Copy, Debug, PartialEq, Eq)]
pub enum ReportWord {
    None,
    Rack,
    Star,
    StarAll,
}

/// The mode that a text names.
pub(crate) fn mode_of(text: &str) -> Option<Mode>
    ensures { result ≡ mode_of text.now }
{
    if text == "symbols" {
        Some(Mode::Symbols)
    } else if text == "ranges" {
        Some(Mode::Ranges)
    } else {
        None
    }
}

/// The report that a text names.
pub(crate) fn report_of(text: &str) -> Option<ReportWord>
    ensures { result ≡ report_of text.now }
{
    if text == "none" {
        Some(ReportWord::None)
    } else if text == "rack" {
        Some(ReportWord::Rack)
    } else if text == "star" {
        Some(ReportWord::Star)
    } else if text == "star-all" {
        Some(ReportWord::StarAll)
    } else {
        None
    }
}
