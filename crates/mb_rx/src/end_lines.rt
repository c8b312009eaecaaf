ghost use Rattle.std.specs.Prelude.{◌≡◌, List, Some, [], ◌∷◌, length, IfOk};
ghost use Rattle.std.specs.List.{list_all};
ghost use Rattle.mb_base.specs.Broadcast.{Record};
ghost use Rattle.mb_alc.specs.Words.{kinds};
ghost use Rattle.mb_tables.specs.Tables.{RaptorTables};
ghost use Rattle.mb_rx.specs.Receive.{known_of};
ghost use Rattle.mb_machine.specs.Counts.{reasons};
ghost use Rattle.mb_rx.specs.Run.{count_line, expired_line, fault_lines, drop_lines, end_events, end_moment, incomplete_lines};
ghost use Rattle.mb_rx.specs.ValueView.{seen};
ghost use Rattle.mb_rx.specs.Steps.{Prints};

use crate::cause::Cause;
use crate::events::print;
use crate::faults::Faults;
use crate::lines::{dropped_line, end_line, expired_line, incomplete_line, reason_word};
use crate::receiver::Receiver;
use mb_alc::FaultKind;
use mb_base::{Sink, Status};
use mb_life::Life;
use mb_machine::{Drops, Reason};
use mb_words::RxWords;
use std::alloc::Global;

/// Prints how many datagrams were dropped for the reason of a word, if any were.
fn print_count<O: Sink>(alloc: Global, out: &mut O, word: &str, n: u64) -> Result<(), Status>
    ensures printed { Prints (O.written out.old) (O.faults out.old) (O.written out.new) (O.faults out.new) (count_line word.now n) result }
    ensures same { O.made out.new ≡ O.made out.old }
{
    if n == 0 {
        return Ok(());
    }
    let line = dropped_line(alloc, word, n)?;
    print(out, line.as_str())
}

/// Prints how many datagrams were no packet, by these kinds of faults.
fn print_faults<O: Sink>(
    alloc: Global,
    out: &mut O,
    faults: Faults,
    kinds: &[FaultKind],
) -> Result<(), Status>
    ensures printed { Prints (O.written out.old) (O.faults out.old) (O.written out.new) (O.faults out.new) (fault_lines faults kinds.now) result }
    ensures same { O.made out.new ≡ O.made out.old }
{
    for kind in kinds {
        print_count(alloc, out, kind.word(), faults.count(*kind))?;
    }
    Ok(())
}

/// Prints how many packets were dropped for these reasons.
fn print_drops<O: Sink>(
    alloc: Global,
    out: &mut O,
    drops: Drops,
    reasons: &[Reason],
) -> Result<(), Status>
    ensures printed { Prints (O.written out.old) (O.faults out.old) (O.written out.new) (O.faults out.new) (drop_lines drops reasons.now) result }
    ensures same { O.made out.new ≡ O.made out.old }
{
    for reason in reasons {
        print_count(alloc, out, reason_word(*reason), drops.count(*reason))?;
    }
    Ok(())
}

/// Prints how many lives ended that were not handed out, if any did.
fn print_expired<O: Sink>(alloc: Global, out: &mut O, n: u64) -> Result<(), Status>
    ensures printed { Prints (O.written out.old) (O.faults out.old) (O.written out.new) (O.faults out.new) (expired_line n) result }
    ensures same { O.made out.new ≡ O.made out.old }
{
    if n == 0 {
        return Ok(());
    }
    let line = expired_line(alloc, n)?;
    print(out, line.as_str())
}

/// Prints a life, unless it was handed out.
fn print_life<O: Sink>(alloc: Global, out: &mut O, life: &Life) -> Result<(), Status>
    ensures printed { Prints (O.written out.old) (O.faults out.old) (O.written out.new) (O.faults out.new)
        (incomplete_lines (life.now ∷ [])) result }
    ensures same { O.made out.new ≡ O.made out.old }
{
    if life.is_done() {
        return Ok(());
    }
    let line = incomplete_line(alloc, life.toi(), life.missing())?;
    print(out, line.as_str())
}

/// Prints each life that was not handed out, and answers whether there is none.
pub fn print_incomplete<O: Sink>(alloc: Global, out: &mut O, lives: &[Life]) -> Result<bool, Status>
    ensures printed { Prints (O.written out.old) (O.faults out.old) (O.written out.new) (O.faults out.new)
        (incomplete_lines lives.now) result }
    ensures complete { IfOk result (λ all. all ≡ list_all (λ life. life.done) lives.now) }
    ensures same { O.made out.new ≡ O.made out.old }
{
    let mut all = true;
    for life in lives {
        print_life(alloc, out, life)?;
        all = all && life.is_done();
    }
    Ok(all)
}

/// The moment at which a session ended.
fn end_moment(words: &RxWords, cause: Cause, receiver: &Receiver) -> u64
    ensures { result ≡ end_moment words.now cause (seen receiver.now) }
{
    match cause {
        Cause::Quiet => words.until,
        Cause::Ended | Cause::Closed | Cause::Limit => receiver.table.clock(),
    }
}

/// Prints the lines that end a session of so many datagrams, and answers whether each life was handed out.
pub fn print_end<O: Sink>(
    alloc: Global,
    out: &mut O,
    words: &RxWords,
    cause: Cause,
    receiver: &Receiver,
    datagrams: u32,
) -> Result<bool, Status>
    ensures printed { (tables : RaptorTables) (records : List Record) → length records ≡ datagrams
        → Prints (O.written out.old) (O.faults out.old) (O.written out.new) (O.faults out.new)
        (end_events (known_of words.now tables records (Some cause)) (seen receiver.now) (Some cause)) result }
    ensures complete { IfOk result (λ all. all ≡ list_all (λ life. life.done) receiver.now.table.lives) }
    ensures same { O.made out.new ≡ O.made out.old }
{
    let moment = end_moment(words, cause, receiver);
    let line = end_line(alloc, cause, moment, u64::from(datagrams))?;
    print(out, line.as_str())?;
    print_expired(alloc, out, receiver.table.expired())?;
    print_faults(alloc, out, receiver.faults, &FaultKind::ALL)?;
    print_drops(alloc, out, receiver.drops, &Reason::ALL)?;
    print_incomplete(alloc, out, receiver.table.lives())
}
