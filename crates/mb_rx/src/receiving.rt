ghost use Rattle.std.specs.Prelude.{◌≡◌, ◌≢◌, ◌<◌, ◌≤◌, map, string_bytes, false, Some, None, Err, IfOk};
ghost use Rattle.mb_base.specs.Outside.{Rose};
ghost use Rattle.mb_base.specs.Status.TheVariants as status;
ghost use Rattle.mb_tables.specs.Tables.{AreTables};
ghost use Rattle.mb_rx.specs.Receive.{Receives, names_tables, outputs};
ghost use Rattle.mb_rx.specs.RunResult.{Runs};
ghost use Rattle.mb_rx.specs.Words.{words_of};

use crate::cause::Ending;
use crate::end_lines::print_end;
use crate::events::print;
use crate::receiver::Receiver;
use crate::session::listen;
use crate::tables::tables_for;
use crate::words::read_words;
use mb_base::{Air, Chance, Gate, Links, Sink, Source, Status, Store, WordsFault};
use mb_program::{broken_line, refuse};
use mb_tables::Tables;
use mb_words::RxWords;
use std::alloc::Global;
use std::thread::Threads;

/// Receives a session with good words and these tables, to its last line.
fn run<R: Threads + Sync, A: Air, S: Store, O: Sink, G: Gate>(
    rt: &R,
    alloc: Global,
    words: &RxWords,
    tables: Tables,
    air: &mut A,
    store: &mut S,
    out: &mut O,
    gate: &G,
) -> Result<Status, Status>
    requires workers { (0 < words.now.workers) × (words.now.workers ≤ 64) }
    requires tables { AreTables tables }
    ensures run { Runs words.now tables (A.broadcast air.old) (A.broadcast air.new)
        (outputs (S.files store.old) (S.faults store.old) (O.written out.old) (O.faults out.old))
        (outputs (S.files store.new) (S.faults store.new) (O.written out.new) (O.faults out.new)) result }
    ensures ended { IfOk result (λ s. s ≢ status.AirFault) }
    ensures air_later { A.faults air.old ≤ A.faults air.new }
    ensures air_fault { result ≡ Err status.AirFault → Rose (A.faults air.old) (A.faults air.new) }
    ensures same_air { A.made air.new ≡ A.made air.old }
    ensures same_store { S.made store.new ≡ S.made store.old }
    ensures same_out { O.made out.new ≡ O.made out.old }
{
    let mut receiver = Receiver::new(alloc, words.tsi, tables)?;
    let listened = listen(rt, alloc, words, &mut receiver, air, store, out, gate)?;
    match listened.ending {
        Ending::EndsBy(cause) => {
            let complete = print_end(alloc, out, words, cause, &receiver, listened.datagrams)?;
            Ok(if complete {
                Status::Done
            } else {
                Status::Incomplete
            })
        }
        Ending::BreaksAt(place) => {
            let line = broken_line(alloc, place)?;
            print(out, line.as_str())?;
            Ok(Status::TraceBroken)
        }
    }
}

/// Reads the tables that good words name, and receives the session with them.
fn receive_with<R: Threads + Sync, T: Source, A: Air, S: Store, O: Sink, G: Gate>(
    rt: &R,
    alloc: Global,
    words: &RxWords,
    tables: &mut T,
    air: &mut A,
    store: &mut S,
    out: &mut O,
    gate: &G,
) -> Status
    requires workers { (0 < words.now.workers) × (words.now.workers ≤ 64) }
    ensures received { Receives (Some words.now) (T.left tables.old) (T.left tables.new) (A.broadcast air.old) (A.broadcast air.new)
        (outputs (S.files store.old) (S.faults store.old) (O.written out.old) (O.faults out.old))
        (outputs (S.files store.new) (S.faults store.new) (O.written out.new) (O.faults out.new)) result }
    ensures read_fault { result ≡ status.ReadFault → Rose (T.faults tables.old) (T.faults tables.new) }
    ensures air_fault { result ≡ status.AirFault → Rose (A.faults air.old) (A.faults air.new) }
    ensures unread { words.now.tables ≡ None → tables.new ≡ tables.old }
    ensures same_tables { T.made tables.new ≡ T.made tables.old }
    ensures same_air { A.made air.new ≡ A.made air.old }
    ensures same_store { S.made store.new ≡ S.made store.old }
    ensures same_out { O.made out.new ≡ O.made out.old }
{
    let tables = match tables_for(alloc, words, tables, out) {
        Ok(tables) => tables,
        Err(status) => return status,
    };
    match run(rt, alloc, words, tables, air, store, out, gate) {
        Ok(status) => status,
        Err(status) => status,
    }
}

/// Receives a session: reads the words and the tables that they name, takes datagrams from the air until the session
/// ends, puts each file that is determined into the store unless it is damaged, and prints what happened (3GPP TS
/// 26.346 section 7, RFC 3926, RFC 5053).
///
/// The words are those of `read_words`. Each line is printed, and each file put, before the next datagram is
/// taken. The tables' source is read to its end where the words name tables, and else not at all. Nothing is sent,
/// and no random word is drawn as long as the words name no server. It returns 0 where every life that stands at the
/// end was handed out and 1 where some was not; 2 where the words are refused; 3 where the tables' bytes are no tables
/// file; 4 where the trace ends inside a record; 5, 6, 7 and 8 where the tables' source, the air, the store or the
/// sink failed; 9 for want of memory. A life that expired is told by the line `expired` alone. What was stored and
/// printed before stays.
pub fn receive<
    R: Threads + Sync,
    T: Source,
    A: Air,
    S: Store,
    O: Sink,
    L: Links,
    C: Chance,
    G: Gate,
>(
    rt: &R,
    alloc: Global,
    words: &[String],
    tables: &mut T,
    air: &mut A,
    store: &mut S,
    out: &mut O,
    links: &mut L,
    chance: &mut C,
    gate: &G,
) -> Status
    ensures received { Receives (words_of (map string_bytes words.now)) (T.left tables.old) (T.left tables.new) (A.broadcast air.old) (A.broadcast air.new)
        (outputs (S.files store.old) (S.faults store.old) (O.written out.old) (O.faults out.old))
        (outputs (S.files store.new) (S.faults store.new) (O.written out.new) (O.faults out.new)) result }
    // The faults of the outside have their cause in this call.
    ensures read_fault { result ≡ status.ReadFault → Rose (T.faults tables.old) (T.faults tables.new) }
    ensures air_fault { result ≡ status.AirFault → Rose (A.faults air.old) (A.faults air.new) }
    ensures store_fault { result ≡ status.StoreFault → Rose (S.faults store.old) (S.faults store.new) }
    ensures out_fault { result ≡ status.OutFault → Rose (O.faults out.old) (O.faults out.new) }
    // What stays as it was.
    ensures same_air { A.made air.new ≡ A.made air.old }
    ensures same_store { S.made store.new ≡ S.made store.old }
    ensures same_out { O.made out.new ≡ O.made out.old }
    ensures same_tables { T.made tables.new ≡ T.made tables.old }
    ensures unread_tables { names_tables (words_of (map string_bytes words.now)) ≡ false → tables.new ≡ tables.old }
    ensures same_links { links.new ≡ links.old }
    ensures same_chance { chance.new ≡ chance.old }
{
    match read_words(alloc, words) {
        Ok(values) => receive_with(rt, alloc, &values, tables, air, store, out, gate),
        Err(WordsFault::Refused) => refuse(out),
        Err(WordsFault::Memory) => Status::Memory,
    }
}
