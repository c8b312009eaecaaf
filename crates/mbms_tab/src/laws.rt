//! What holds of every trace that is shown.

ghost use Rattle.mbms_tab.specs.Laws.{TracesAreShown, WholeTracesAreShown, BrokenTracesAreFound};

/// A law, which runs nothing: bytes that are a trace of fewer records than are shown at most are shown whole.
pub fn traces_are_shown()
    ensures { TracesAreShown }
{}

/// A law, which runs nothing: by what `tab` promises, the word `show`, a trace that is told and not broken, and
/// no counted fault give status 0, or want of memory.
pub fn whole_traces_are_shown()
    ensures { WholeTracesAreShown }
{}

/// A law, which runs nothing: by what `tab` promises, the word `show`, a trace that is told and broken, and no
/// counted fault give status 4, or want of memory.
pub fn broken_traces_are_found()
    ensures { BrokenTracesAreFound }
{}
