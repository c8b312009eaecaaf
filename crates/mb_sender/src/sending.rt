ghost use Rattle.std.specs.Prelude.{◌≡◌, ℕ, ◌+◌, ◌*◌, ◌<◌, ◌≤◌, [], ◌∷◌, length, take, OnOk};
ghost use Rattle.std.specs.List.{AllByRecursion};
ghost use Rattle.mb_base.specs.Outside.{Grows};
ghost use Rattle.mb_sender.specs.Trace as form;
ghost use Rattle.mb_sender.specs.Sent.{IsSession, IsSendable, Sends, HasSendCause, records_most, text_most, files_most};

use crate::blocks::{is_good, send_block};
use crate::fault::SendFault;
use crate::outgoing::Outgoing;
use crate::packets::{TEXT_SYMBOL, closing_packet, text_packet};
use crate::session::Session;
use mb_base::{Sink, room};
use mb_files::SentFile;
use mb_tables::Tables;
use std::alloc::Global;

/// Sends a symbol of the text.
fn send_text_symbol<O: Sink>(
    session: &Session,
    text: &[u8],
    esi: u16,
    line: &mut Outgoing,
    out: &mut O,
) -> Result<(), SendFault>
    requires session { IsSession session.now }
    requires text { length text.now ≤ text_most }
    requires esi { 1400 * esi ≤ length text.now }
    requires number { line.old.number < records_most }
    ensures sent { Sends session.now (O.written out.old) (O.written out.new) line.old line.new (form.text_packet session.now text.now esi ∷ []) result }
    ensures cause { HasSendCause (O.faults out.old) (O.faults out.new) result }
    ensures same { O.made out.new ≡ O.made out.old }
{
    let p = text_packet(session, text, esi);
    line.send(session, &p, out)
}

/// Sends the text, symbol by symbol.
fn send_text<O: Sink>(
    session: &Session,
    text: &[u8],
    line: &mut Outgoing,
    out: &mut O,
) -> Result<(), SendFault>
    requires session { IsSession session.now }
    requires text { length text.now ≤ text_most }
    requires number { line.old.number + length (form.text_packets session.now text.now) ≤ records_most }
    ensures sent { Sends session.now (O.written out.old) (O.written out.new) line.old line.new (form.text_packets session.now text.now) result }
    ensures cause { HasSendCause (O.faults out.old) (O.faults out.new) result }
    ensures same { O.made out.new ≡ O.made out.old }
{
    for esi in 0..text.len().div_ceil(TEXT_SYMBOL) {
        send_text_symbol(session, text, esi as u16, line, out)?;
    }
    Ok(())
}

/// Sends a file in a round, block by block.
fn send_file<O: Sink>(
    alloc: Global,
    session: &Session,
    tables: &Tables,
    round: u32,
    toi: u32,
    file: &SentFile,
    line: &mut Outgoing,
    out: &mut O,
) -> Result<(), SendFault>
    requires session { IsSession session.now }
    requires file { IsSendable session.now tables.now file.now }
    requires number { line.old.number + length (form.file_packets session.now tables.now round toi file.now) ≤ records_most }
    ensures sent { Sends session.now (O.written out.old) (O.written out.new) line.old line.new (form.file_packets session.now tables.now round toi file.now) result }
    ensures cause { HasSendCause (O.faults out.old) (O.faults out.new) result }
    ensures same { O.made out.new ≡ O.made out.old }
{
    is_good(&file.desc);
    let mut symbol = room(alloc, usize::from(file.desc.symbol()))?;
    for number in 0..file.desc.blocks() {
        let (sbn, symbol) = (number as u16, symbol.as_mut_slice());
        send_block(
            alloc, session, tables, round, toi, file, sbn, symbol, line, out,
        )?;
    }
    Ok(())
}

/// Sends the files in a round, from TOI 1 on.
fn send_files<O: Sink>(
    alloc: Global,
    session: &Session,
    tables: &Tables,
    round: u32,
    files: &[SentFile],
    line: &mut Outgoing,
    out: &mut O,
) -> Result<(), SendFault>
    requires session { IsSession session.now }
    requires files { AllByRecursion (IsSendable session.now tables.now) files.now }
    requires few { length files.now ≤ files_most }
    requires number { line.old.number + length (form.files_packets session.now tables.now round 1 files.now) ≤ records_most }
    ensures sent { Sends session.now (O.written out.old) (O.written out.new) line.old line.new (form.files_packets session.now tables.now round 1 files.now) result }
    ensures cause { HasSendCause (O.faults out.old) (O.faults out.new) result }
    ensures same { O.made out.new ≡ O.made out.old }
{
    for i in 0..files.len() {
        let toi = i as u32 + 1;
        send_file(alloc, session, tables, round, toi, &files[i], line, out)?;
    }
    Ok(())
}

/// Sends everything once.
fn send_round<O: Sink>(
    alloc: Global,
    session: &Session,
    tables: &Tables,
    text: &[u8],
    files: &[SentFile],
    round: u32,
    line: &mut Outgoing,
    out: &mut O,
) -> Result<(), SendFault>
    requires session { IsSession session.now }
    requires text { length text.now ≤ text_most }
    requires files { AllByRecursion (IsSendable session.now tables.now) files.now }
    requires few { length files.now ≤ files_most }
    requires number { line.old.number + length (form.round_packets session.now tables.now text.now files.now round) ≤ records_most }
    ensures sent { Sends session.now (O.written out.old) (O.written out.new) line.old line.new (form.round_packets session.now tables.now text.now files.now round) result }
    ensures cause { HasSendCause (O.faults out.old) (O.faults out.new) result }
    ensures same { O.made out.new ≡ O.made out.old }
{
    send_text(session, text, line, out)?;
    send_files(alloc, session, tables, round, files, line, out)
}

/// Sends all rounds.
fn send_rounds<O: Sink>(
    alloc: Global,
    session: &Session,
    tables: &Tables,
    text: &[u8],
    files: &[SentFile],
    line: &mut Outgoing,
    out: &mut O,
) -> Result<(), SendFault>
    requires session { IsSession session.now }
    requires text { length text.now ≤ text_most }
    requires files { AllByRecursion (IsSendable session.now tables.now) files.now }
    requires few { length files.now ≤ files_most }
    requires number { line.old.number + length (form.rounds_packets session.now tables.now text.now files.now) ≤ records_most }
    ensures sent { Sends session.now (O.written out.old) (O.written out.new) line.old line.new (form.rounds_packets session.now tables.now text.now files.now) result }
    ensures cause { HasSendCause (O.faults out.old) (O.faults out.new) result }
    ensures same { O.made out.new ≡ O.made out.old }
{
    for round in 0..session.rounds {
        send_round(alloc, session, tables, text, files, round, line, out)?;
    }
    Ok(())
}

/// Sends the rounds and the packet that closes the session, and writes what is held.
fn send_all<O: Sink>(
    alloc: Global,
    session: &Session,
    tables: &Tables,
    text: &[u8],
    files: &[SentFile],
    line: &mut Outgoing,
    out: &mut O,
) -> Result<(), SendFault>
    requires session { IsSession session.now }
    requires text { length text.now ≤ text_most }
    requires files { AllByRecursion (IsSendable session.now tables.now) files.now }
    requires few { length files.now ≤ files_most }
    requires number { line.old.number + length (form.session_packets session.now tables.now text.now files.now) ≤ records_most }
    ensures sent { Sends session.now (O.written out.old) (O.written out.new) line.old line.new (form.session_packets session.now tables.now text.now files.now) result }
    ensures empty { OnOk result (line.new.held ≡ []) }
    ensures cause { HasSendCause (O.faults out.old) (O.faults out.new) result }
    ensures same { O.made out.new ≡ O.made out.old }
{
    send_rounds(alloc, session, tables, text, files, line, out)?;
    let end = closing_packet(session);
    line.send(session, &end, out)?;
    line.flush(session, out)
}

/// Writes the trace of a session: in each round the packets of its FDT Instance, whose text is `text`, and then those of
/// the files, which have the TOIs from 1 on, block by block; and at the end the packet that closes the session. Record `n`
/// has the moment `start + n / rate`.
///
/// With a percentage of repair symbols each block of a file under Raptor must have an encoder under the tables. Without
/// one the tables are not used.
///
/// # Errors
///
/// `Failed` where a call of the sink failed, and `Memory` where there is no room for a piece of the trace or a block. Then
/// the first bytes of the trace were written, and no others.
pub fn write_session<O: Sink>(
    alloc: Global,
    session: &Session,
    tables: &Tables,
    text: &[u8],
    files: &[SentFile],
    out: &mut O,
) -> Result<(), SendFault>
    requires session { IsSession session.now }
    requires text { length text.now ≤ text_most }
    requires files { AllByRecursion (IsSendable session.now tables.now) files.now }
    requires few { length files.now ≤ files_most }
    requires records { length (form.session_packets session.now tables.now text.now files.now) ≤ records_most }
    ensures written { OnOk result (Grows (O.written out.old) (O.written out.new) (form.sender_bytes session.now tables.now text.now files.now)) }
    ensures part { (n : ℕ) × Grows (O.written out.old) (O.written out.new) (take n (form.sender_bytes session.now tables.now text.now files.now)) }
    ensures cause { HasSendCause (O.faults out.old) (O.faults out.new) result }
    ensures same { O.made out.new ≡ O.made out.old }
{
    let mut line = Outgoing::new(alloc);
    send_all(alloc, session, tables, text, files, &mut line, out)
}
