ghost use Rattle.std.specs.Prelude.{◌≡◌, ◌<◌, ◌≤◌, [], ◌∷◌, Some, Err, OnOk};
ghost use Rattle.mb_base.specs.Outside.{Rose};
ghost use Rattle.mb_base.specs.Status.TheVariants as status;
ghost use Rattle.mb_rx.specs.Receive.{Does, outputs};
ghost use Rattle.mb_rx.specs.Run.{after_record, packet_events, taken_events, hand_out_events};
ghost use Rattle.mb_machine.specs.Laws.{with_hand_outs};
ghost use Rattle.mb_life.specs.Taking.{IsTaken};
ghost use Rattle.mb_life.specs.Life.{Life};
ghost use Rattle.mb_rx.specs.Taking.{HandsOneOut};
ghost use Rattle.mb_rx.specs.Steps.{Prints};
ghost use Rattle.mb_rx.specs.ValueView.{seen};
ghost use Rattle.mb_rx.specs.Listening as listening;

use crate::cause::{Cause, DATAGRAMS_MAX, Ending};
use crate::events::{print, put};
use crate::lines::{
    bad_instance_line, damaged_line, instance_line, late_instance_line, stored_line,
};
use crate::receiver::Receiver;
use mb_base::{Air, AirEvent, DatagramBuffer, Gate, Sink, Status, Store};
use mb_life::Taken;
use mb_machine::Happened;
use mb_objects::{Table, TakeFault};
use mb_words::RxWords;
use std::alloc::Global;
use std::thread::Threads;

/// How listening ended, and how many datagrams were taken.
#[derive(Clone, Copy)]
pub struct Listened {
    pub ending: Ending,
    pub datagrams: u32,
}

/// Puts the file of a life and prints its line, or the line of a damaged one.
fn store_taken<S: Store, O: Sink>(
    alloc: Global,
    toi: u128,
    taken: &Taken,
    store: &mut S,
    out: &mut O,
) -> Result<(), Status>
    ensures stored { (life : Life) → life.toi ≡ toi → IsTaken life taken.now
        → Does (outputs (S.files store.old) (S.faults store.old) (O.written out.old) (O.faults out.old))
        (outputs (S.files store.new) (S.faults store.new) (O.written out.new) (O.faults out.new)) (taken_events life) result }
    ensures same_store { S.made store.new ≡ S.made store.old }
    ensures same_out { O.made out.new ≡ O.made out.old }
{
    match taken {
        Taken::File { location, bytes } => {
            let (location, bytes) = (location.as_slice(), bytes.as_slice());
            put(store, toi, location, bytes)?;
            let line = stored_line(alloc, toi, bytes.len(), location)?;
            print(out, line.as_str())
        }
        Taken::Damaged { given, found } => {
            let line = damaged_line(alloc, toi, given, found)?;
            print(out, line.as_str())
        }
    }
}

/// Hands the first ready life out and makes its events, or answers that none is ready.
fn hand_one_out<R: Threads + Sync, S: Store, O: Sink, G: Gate>(
    rt: &R,
    alloc: Global,
    words: &RxWords,
    table: &mut Table,
    store: &mut S,
    out: &mut O,
    gate: &G,
) -> Result<bool, Status>
    requires workers { (0 < words.now.workers) × (words.now.workers ≤ 64) }
    ensures out { HandsOneOut table.old table.new
        (outputs (S.files store.old) (S.faults store.old) (O.written out.old) (O.faults out.old))
        (outputs (S.files store.new) (S.faults store.new) (O.written out.new) (O.faults out.new)) result }
    ensures same_store { S.made store.new ≡ S.made store.old }
    ensures same_out { O.made out.new ≡ O.made out.old }
{
    let Some(toi) = table.ready() else {
        return Ok(false);
    };
    match table.take(rt, toi, words.workers, gate) {
        Ok(taken) => {
            store_taken(alloc, toi, &taken, store, out)?;
            Ok(true)
        }
        Err(TakeFault::NotReady) => Ok(false),
        Err(TakeFault::Memory) => Err(Status::Memory),
    }
}

/// Hands the ready lives out, the first one first, until none is ready.
fn hand_out<R: Threads + Sync, S: Store, O: Sink, G: Gate>(
    rt: &R,
    alloc: Global,
    words: &RxWords,
    table: &mut Table,
    store: &mut S,
    out: &mut O,
    gate: &G,
) -> Result<(), Status>
    requires workers { (0 < words.now.workers) × (words.now.workers ≤ 64) }
    ensures left { OnOk result (table.new ≡ with_hand_outs table.old) }
    ensures made { Does (outputs (S.files store.old) (S.faults store.old) (O.written out.old) (O.faults out.old))
        (outputs (S.files store.new) (S.faults store.new) (O.written out.new) (O.faults out.new))
        (hand_out_events table.old.lives) result }
    ensures same_store { S.made store.new ≡ S.made store.old }
    ensures same_out { O.made out.new ≡ O.made out.old }
{
    while hand_one_out(rt, alloc, words, table, store, out, gate)? {}
    Ok(())
}

/// Prints the line of what a packet did, where there is one.
fn print_happened<O: Sink>(
    alloc: Global,
    happened: Option<Happened>,
    out: &mut O,
) -> Result<(), Status>
    ensures printed { Prints (O.written out.old) (O.faults out.old) (O.written out.new) (O.faults out.new) (packet_events happened) result }
    ensures same { O.made out.new ≡ O.made out.old }
{
    let Some(happened) = happened else {
        return Ok(());
    };
    match happened {
        Happened::Instance { id, report } => {
            let line = instance_line(alloc, id, &report)?;
            print(out, line.as_str())
        }
        Happened::BadInstance { id, fault } => {
            let line = bad_instance_line(alloc, id, fault)?;
            print(out, line.as_str())
        }
        Happened::LateInstance { id } => {
            let line = late_instance_line(alloc, id)?;
            print(out, line.as_str())
        }
        Happened::Dropped(_) | Happened::Part { .. } | Happened::Heard { .. } => Ok(()),
    }
}

/// Hears a datagram of the moment `at`, prints what it did, and hands the ready lives out.
fn hear_datagram<R: Threads + Sync, S: Store, O: Sink, G: Gate>(
    rt: &R,
    alloc: Global,
    words: &RxWords,
    receiver: &mut Receiver,
    at: u64,
    bytes: &[u8],
    store: &mut S,
    out: &mut O,
    gate: &G,
) -> Result<(), Status>
    requires workers { (0 < words.now.workers) × (words.now.workers ≤ 64) }
    ensures heard { OnOk result (seen receiver.new ≡ (after_record (record { receiver = seen receiver.old; events = [] }) (record { at = at; bytes = bytes.now })).receiver) }
    ensures made { Does (outputs (S.files store.old) (S.faults store.old) (O.written out.old) (O.faults out.old))
        (outputs (S.files store.new) (S.faults store.new) (O.written out.new) (O.faults out.new))
        (after_record (record { receiver = seen receiver.old; events = [] }) (record { at = at; bytes = bytes.now })).events result }
    ensures same_store { S.made store.new ≡ S.made store.old }
    ensures same_out { O.made out.new ≡ O.made out.old }
{
    let happened = receiver.hear(at, bytes)?;
    print_happened(alloc, happened, out)?;
    hand_out(rt, alloc, words, &mut receiver.table, store, out, gate)
}

/// Takes the next datagram from the air and hears it, or answers how the session ended. Once the sender has
/// closed the session, the air is not asked any more.
fn hear_next<R: Threads + Sync, A: Air, S: Store, O: Sink, G: Gate>(
    rt: &R,
    alloc: Global,
    words: &RxWords,
    receiver: &mut Receiver,
    air: &mut A,
    buf: &mut DatagramBuffer,
    store: &mut S,
    out: &mut O,
    gate: &G,
) -> Result<Option<Ending>, Status>
    requires workers { (0 < words.now.workers) × (words.now.workers ≤ 64) }
    ensures hears { listening.Hears words.now (A.broadcast air.old) (A.broadcast air.new) (seen receiver.old) (seen receiver.new)
        (outputs (S.files store.old) (S.faults store.old) (O.written out.old) (O.faults out.old))
        (outputs (S.files store.new) (S.faults store.new) (O.written out.new) (O.faults out.new)) result }
    ensures air_later { A.faults air.old ≤ A.faults air.new }
    ensures air_fault { result ≡ Err status.AirFault → Rose (A.faults air.old) (A.faults air.new) }
    ensures same_air { A.made air.new ≡ A.made air.old }
    ensures same_store { S.made store.new ≡ S.made store.old }
    ensures same_out { O.made out.new ≡ O.made out.old }
{
    if receiver.table.is_closed() {
        return Ok(Some(Ending::EndsBy(Cause::Closed)));
    }
    match air.next(words.until, buf) {
        AirEvent::Datagram { at, len } => {
            let bytes = buf.front(len);
            hear_datagram(rt, alloc, words, receiver, at, bytes, store, out, gate)?;
            Ok(None)
        }
        AirEvent::Quiet => Ok(Some(Ending::EndsBy(Cause::Quiet))),
        AirEvent::Ended => Ok(Some(Ending::EndsBy(Cause::Ended))),
        AirEvent::Broken { place } => Ok(Some(Ending::BreaksAt(place))),
        AirEvent::Failed => Err(Status::AirFault),
    }
}

/// Listens to a session from its beginning to its end: hears each datagram and makes its events.
pub fn listen<R: Threads + Sync, A: Air, S: Store, O: Sink, G: Gate>(
    rt: &R,
    alloc: Global,
    words: &RxWords,
    receiver: &mut Receiver,
    air: &mut A,
    store: &mut S,
    out: &mut O,
    gate: &G,
) -> Result<Listened, Status>
    requires workers { (0 < words.now.workers) × (words.now.workers ≤ 64) }
    ensures listens { listening.Listens words.now (A.broadcast air.old) (A.broadcast air.new) (seen receiver.old) (seen receiver.new)
        (outputs (S.files store.old) (S.faults store.old) (O.written out.old) (O.faults out.old))
        (outputs (S.files store.new) (S.faults store.new) (O.written out.new) (O.faults out.new)) result }
    ensures air_later { A.faults air.old ≤ A.faults air.new }
    ensures air_fault { result ≡ Err status.AirFault → Rose (A.faults air.old) (A.faults air.new) }
    ensures same_air { A.made air.new ≡ A.made air.old }
    ensures same_store { S.made store.new ≡ S.made store.old }
    ensures same_out { O.made out.new ≡ O.made out.old }
{
    let mut buf = DatagramBuffer::new(alloc)?;
    for datagrams in 0..DATAGRAMS_MAX {
        let next = hear_next(rt, alloc, words, receiver, air, &mut buf, store, out, gate)?;
        if let Some(ending) = next {
            return Ok(Listened { ending, datagrams });
        }
    }
    let cause = if receiver.table.is_closed() {
        Cause::Closed
    } else {
        Cause::Limit
    };
    Ok(Listened {
        ending: Ending::EndsBy(cause),
        datagrams: DATAGRAMS_MAX,
    })
}
