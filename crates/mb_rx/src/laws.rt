//! What holds of every run.

ghost use Rattle.std.specs.Prelude.{◌≡◌, ℕ, List, ◌++◌, Option, Some};
ghost use Rattle.mb_base.specs.Outside.{Rose};
ghost use Rattle.mb_base.specs.Broadcast.{Broadcast};
ghost use Rattle.mb_base.specs.Status.{Status};
ghost use Rattle.mb_base.specs.Status.TheVariants as status;
ghost use Rattle.mb_words.specs.declared.rx.RxWords.{RxWords};
ghost use Rattle.mb_tables.specs.Tables.{RaptorTables};
ghost use Rattle.mb_rx.specs.Tables.{AreGoodTables, AreBadTables};
ghost use Rattle.mb_rx.specs.Receive.{Receives, Outputs, IsUncounted, IsWholeTrace, IsCutTrace, Completes, FindsBroken, FindsBad};
ghost use Rattle.mb_rx.specs.Run.{Event, Known, Extends, events_of};

/// A law, which runs nothing: what is known of a run grows, and the events that it has made grow at their end
/// only.
pub fn run_grows()
    ensures { (known more : Known) → Extends known more → (later : List Event) × (events_of more ≡ events_of known ++ later) }
{}

/// A law, which runs nothing: by what `receive` promises, good words, a tables file where they name one, a trace that
/// is not broken and no counted fault give status 0 or 1, or want of memory.
pub fn faultless_calls_complete()
    ensures { (words : RxWords) (told_before told_after : Option (List ℕ)) (tables : RaptorTables) (air_before air_after : Option Broadcast)
        (before after : Outputs) (read_before read_after faults_before faults_after : ℕ) (result : Status)
        → Receives (Some words) told_before told_after air_before air_after before after result
        → (result ≡ status.ReadFault → Rose read_before read_after) → (result ≡ status.AirFault → Rose faults_before faults_after)
        → AreGoodTables words.tables told_before tables → IsWholeTrace air_before
        → IsUncounted read_before read_after faults_before faults_after before after → Completes result }
{}

/// A law, which runs nothing: by what `receive` promises, good words, a tables file where they name one, a trace that
/// is broken where the session is still open and listens, and no counted fault give status 4, or want of memory.
pub fn broken_traces_are_found()
    ensures { (words : RxWords) (told_before told_after : Option (List ℕ)) (tables : RaptorTables) (air_before air_after : Option Broadcast)
        (before after : Outputs) (read_before read_after faults_before faults_after : ℕ) (result : Status)
        → Receives (Some words) told_before told_after air_before air_after before after result
        → (result ≡ status.ReadFault → Rose read_before read_after) → (result ≡ status.AirFault → Rose faults_before faults_after)
        → AreGoodTables words.tables told_before tables → IsCutTrace words tables air_before
        → IsUncounted read_before read_after faults_before faults_after before after → FindsBroken result }
{}

/// A law, which runs nothing: by what `receive` promises, good words that name tables, bytes that are no tables file and
/// no counted fault give status 3, or want of memory.
pub fn bad_tables_are_found()
    ensures { (words : RxWords) (told_before told_after : Option (List ℕ)) (air_before air_after : Option Broadcast)
        (before after : Outputs) (read_before read_after faults_before faults_after : ℕ) (result : Status)
        → Receives (Some words) told_before told_after air_before air_after before after result
        → (result ≡ status.ReadFault → Rose read_before read_after) → AreBadTables words.tables told_before
        → IsUncounted read_before read_after faults_before faults_after before after → FindsBad result }
{}
