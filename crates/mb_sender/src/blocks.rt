ghost use Rattle.std.specs.Prelude.{◌≡◌, ℕ, ◌+◌, ◌*◌, ◌-◌, ◌<◌, ◌≤◌, min, false, [], ◌∷◌, length, map, IfOk};
ghost use Rattle.std.specs.List.{range_with_len};
ghost use Rattle.mb_geom.specs.Description.{IsGood, block_count, block_size, is_no_code};
ghost use Rattle.mb_geom.specs.SourceSymbol.{source_symbols};
ghost use Rattle.mb_encoder.specs.Usable.{IsUsable};
ghost use Rattle.mb_encoder.specs.Symbols.{symbols_of};
ghost use Rattle.mb_sender.specs.Trace as form;
ghost use Rattle.mb_sender.specs.Sent.{IsSession, IsSendable, Sends, HasSendCause, records_most};
ghost use Rattle.mb_sender.specs.Block.{IsEncoderOfBlock};

use crate::fault::SendFault;
use crate::outgoing::Outgoing;
use crate::packets::symbol_packet;
use crate::session::Session;
use mb_base::{Memory, Sink, room};
use mb_encoder::{EncodeFault, Intermediate};
use mb_files::SentFile;
use mb_geom::{Desc, Scheme};
use mb_tables::Tables;
use std::alloc::Global;

/// The number of ESIs.
const ESIS: u64 = 65_536;

/// How many bytes of a source symbol are sent.
fn sent_length(desc: &Desc, sbn: u16, i: u16) -> u16
    requires block { sbn < block_count desc.now }
    requires symbol { i < block_size desc.now sbn }
    ensures exact { result ≡ form.sent_length desc.now sbn i }
    ensures within { result ≤ desc.now.symbol }
{
    let number = u64::from(desc.symbols_before(sbn)) + u64::from(i) + 1;
    if desc.scheme().is_no_code() && number == desc.symbols() {
        desc.tail()
    } else {
        desc.symbol()
    }
}

/// What is known of each description, as a clause.
pub(crate) fn is_good(desc: &Desc)
    ensures { IsGood desc.now }
{
    let _length = desc.length();
}

/// Sends a source symbol of a block. The room holds it.
fn send_source<O: Sink>(
    session: &Session,
    toi: u32,
    file: &SentFile,
    sbn: u16,
    esi: u16,
    symbol: &mut [u8],
    line: &mut Outgoing,
    out: &mut O,
) -> Result<(), SendFault>
    requires session { IsSession session.now }
    requires whole { length file.now.bytes ≡ file.now.desc.length }
    requires small { file.now.desc.symbol ≤ 65515 }
    requires block { sbn < block_count file.now.desc }
    requires esi { esi < block_size file.now.desc sbn }
    requires room { length symbol.old ≡ file.now.desc.symbol }
    requires number { line.old.number < records_most }
    ensures sent { Sends session.now (O.written out.old) (O.written out.new) line.old line.new (form.source_packet session.now toi file.now sbn esi ∷ []) result }
    ensures room { length symbol.new ≡ length symbol.old }
    ensures cause { HasSendCause (O.faults out.old) (O.faults out.new) result }
    ensures same { O.made out.new ≡ O.made out.old }
{
    file.desc.symbol_of(file.bytes.as_slice(), sbn, esi, symbol);
    let length = usize::from(sent_length(&file.desc, sbn, esi));
    let p = symbol_packet(session, toi, &file.desc, sbn, esi, &symbol[..length]);
    line.send(session, &p, out)
}

/// Sends the source symbols of a block. The room holds one of them.
fn send_sources<O: Sink>(
    session: &Session,
    toi: u32,
    file: &SentFile,
    sbn: u16,
    symbol: &mut [u8],
    line: &mut Outgoing,
    out: &mut O,
) -> Result<(), SendFault>
    requires session { IsSession session.now }
    requires whole { length file.now.bytes ≡ file.now.desc.length }
    requires small { file.now.desc.symbol ≤ 65515 }
    requires block { sbn < block_count file.now.desc }
    requires room { length symbol.old ≡ file.now.desc.symbol }
    requires number { line.old.number + length (form.source_packets session.now toi file.now sbn) ≤ records_most }
    ensures sent { Sends session.now (O.written out.old) (O.written out.new) line.old line.new (form.source_packets session.now toi file.now sbn) result }
    ensures room { length symbol.new ≡ length symbol.old }
    ensures cause { HasSendCause (O.faults out.old) (O.faults out.new) result }
    ensures same { O.made out.new ≡ O.made out.old }
{
    is_good(&file.desc);
    for i in 0..file.desc.k_of(sbn) {
        send_source(session, toi, file, sbn, i as u16, symbol, line, out)?;
    }
    Ok(())
}

/// The source symbols of a block, one behind the other. The room holds one of them.
fn gather(alloc: Global, file: &SentFile, sbn: u16, symbol: &mut [u8]) -> Result<Vec<u8>, Memory>
    requires whole { length file.now.bytes ≡ file.now.desc.length }
    requires block { sbn < block_count file.now.desc }
    requires size { block_size file.now.desc sbn ≤ 8192 }
    requires room { length symbol.old ≡ file.now.desc.symbol }
    ensures count { IfOk result (λ block. length block.items ≡ block_size file.now.desc sbn * file.now.desc.symbol) }
    ensures symbols { IfOk result (λ block. symbols_of file.now.desc.symbol (block_size file.now.desc sbn) block.items ≡ source_symbols file.now.desc file.now.bytes sbn) }
    ensures room { length symbol.new ≡ length symbol.old }
{
    let k = file.desc.k_of(sbn) as u16;
    let mut block = Vec::new(alloc);
    for i in 0..k {
        file.desc.symbol_of(file.bytes.as_slice(), sbn, i, symbol);
        block.extend_from_slice(symbol)?;
    }
    Ok(block)
}

/// The encoder of a block. The room holds one of its symbols.
fn encoder_of(
    alloc: Global,
    tables: &Tables,
    file: &SentFile,
    sbn: u16,
    symbol: &mut [u8],
) -> Result<Intermediate, Memory>
    requires whole { length file.now.bytes ≡ file.now.desc.length }
    requires block { sbn < block_count file.now.desc }
    requires size { block_size file.now.desc sbn ≤ 8192 }
    requires usable { IsUsable tables.now (block_size file.now.desc sbn) }
    requires room { length symbol.old ≡ file.now.desc.symbol }
    ensures encoder { IfOk result (IsEncoderOfBlock tables.now file.now sbn) }
    ensures room { length symbol.new ≡ length symbol.old }
{
    let _rows = tables.rows();
    let k = file.desc.k_of(sbn) as u16;
    let block = gather(alloc, file, sbn, symbol)?;
    match Intermediate::of(alloc, tables, k, file.desc.symbol(), block.as_slice()) {
        Ok(encoder) => Ok(encoder),
        Err(EncodeFault::Memory) => Err(Memory),
        Err(_) => unreachable!(),
    }
}

/// The ESIs of repair symbols.
#[derive(Clone, Copy)]
pub(crate) struct Esis {
    /// The first one.
    pub(crate) first: u64,
    /// How many there are.
    pub(crate) count: u64,
}

/// The ESIs of the repair symbols of a block in a round.
pub(crate) fn repair_esis(percent: u16, round: u32, k: u32) -> Esis
    requires { k ≤ 8192 }
    ensures first { result.first ≡ form.first_repair percent round k }
    ensures count { result.count ≡ min (form.repairs percent k) (65536 - form.first_repair percent round k) }
{
    let repairs = (u64::from(k) * u64::from(percent)).div_ceil(100);
    let first = u64::from(k) + u64::from(round) * repairs;
    Esis {
        first,
        count: repairs.min(ESIS.saturating_sub(first)),
    }
}

/// Sends a repair symbol of a block. The room holds it.
fn send_repair<O: Sink>(
    session: &Session,
    tables: &Tables,
    toi: u32,
    file: &SentFile,
    sbn: u16,
    encoder: &Intermediate,
    esi: u16,
    symbol: &mut [u8],
    line: &mut Outgoing,
    out: &mut O,
) -> Result<(), SendFault>
    requires session { IsSession session.now }
    requires small { file.now.desc.symbol ≤ 65515 }
    requires block { sbn < block_count file.now.desc }
    requires encoder { IsEncoderOfBlock tables.now file.now sbn encoder.now }
    requires raptor { is_no_code file.now.desc.scheme ≡ false }
    requires room { length symbol.old ≡ file.now.desc.symbol }
    requires number { line.old.number < records_most }
    ensures sent { Sends session.now (O.written out.old) (O.written out.new) line.old line.new (form.repair_packet session.now tables.now toi file.now sbn esi ∷ []) result }
    ensures room { length symbol.new ≡ length symbol.old }
    ensures cause { HasSendCause (O.faults out.old) (O.faults out.new) result }
    ensures same { O.made out.new ≡ O.made out.old }
{
    encoder.symbol(esi, symbol);
    let p = symbol_packet(session, toi, &file.desc, sbn, esi, symbol);
    line.send(session, &p, out)
}

/// Sends the repair symbols of a block with these ESIs. The room holds one of them.
fn send_esis<O: Sink>(
    session: &Session,
    tables: &Tables,
    toi: u32,
    file: &SentFile,
    sbn: u16,
    encoder: &Intermediate,
    esis: Esis,
    symbol: &mut [u8],
    line: &mut Outgoing,
    out: &mut O,
) -> Result<(), SendFault>
    requires session { IsSession session.now }
    requires small { file.now.desc.symbol ≤ 65515 }
    requires block { sbn < block_count file.now.desc }
    requires encoder { IsEncoderOfBlock tables.now file.now sbn encoder.now }
    requires raptor { is_no_code file.now.desc.scheme ≡ false }
    requires esis { esis.first + esis.count ≤ 65536 }
    requires room { length symbol.old ≡ file.now.desc.symbol }
    requires number { line.old.number + esis.count ≤ records_most }
    ensures sent { Sends session.now (O.written out.old) (O.written out.new) line.old line.new
        (map (form.repair_packet session.now tables.now toi file.now sbn) (range_with_len esis.first esis.count)) result }
    ensures room { length symbol.new ≡ length symbol.old }
    ensures cause { HasSendCause (O.faults out.old) (O.faults out.new) result }
    ensures same { O.made out.new ≡ O.made out.old }
{
    for n in 0..esis.count {
        let esi = (esis.first + n) as u16;
        send_repair(
            session, tables, toi, file, sbn, encoder, esi, symbol, line, out,
        )?;
    }
    Ok(())
}

/// Sends the repair symbols of a block in a round, for which it makes the block's encoder. The room holds one of them.
fn send_repairs<O: Sink>(
    alloc: Global,
    session: &Session,
    tables: &Tables,
    round: u32,
    toi: u32,
    file: &SentFile,
    sbn: u16,
    symbol: &mut [u8],
    line: &mut Outgoing,
    out: &mut O,
) -> Result<(), SendFault>
    requires session { IsSession session.now }
    requires file { IsSendable session.now tables.now file.now }
    requires block { sbn < block_count file.now.desc }
    requires raptor { is_no_code file.now.desc.scheme ≡ false }
    requires room { length symbol.old ≡ file.now.desc.symbol }
    requires number { line.old.number + length (form.repair_packets session.now tables.now round toi file.now sbn) ≤ records_most }
    ensures sent { Sends session.now (O.written out.old) (O.written out.new) line.old line.new (form.repair_packets session.now tables.now round toi file.now sbn) result }
    ensures room { length symbol.new ≡ length symbol.old }
    ensures cause { HasSendCause (O.faults out.old) (O.faults out.new) result }
    ensures same { O.made out.new ≡ O.made out.old }
{
    is_good(&file.desc);
    let esis = repair_esis(session.percent, round, file.desc.k_of(sbn));
    if esis.count == 0 {
        return Ok(());
    }
    let encoder = encoder_of(alloc, tables, file, sbn, symbol)?;
    send_esis(
        session, tables, toi, file, sbn, &encoder, esis, symbol, line, out,
    )
}

/// Sends a block of a file in a round. The room holds one symbol.
pub(crate) fn send_block<O: Sink>(
    alloc: Global,
    session: &Session,
    tables: &Tables,
    round: u32,
    toi: u32,
    file: &SentFile,
    sbn: u16,
    symbol: &mut [u8],
    line: &mut Outgoing,
    out: &mut O,
) -> Result<(), SendFault>
    requires session { IsSession session.now }
    requires file { IsSendable session.now tables.now file.now }
    requires block { sbn < block_count file.now.desc }
    requires room { length symbol.old ≡ file.now.desc.symbol }
    requires number { line.old.number + length (form.block_packets session.now tables.now round toi file.now sbn) ≤ records_most }
    ensures sent { Sends session.now (O.written out.old) (O.written out.new) line.old line.new (form.block_packets session.now tables.now round toi file.now sbn) result }
    ensures room { length symbol.new ≡ length symbol.old }
    ensures cause { HasSendCause (O.faults out.old) (O.faults out.new) result }
    ensures same { O.made out.new ≡ O.made out.old }
{
    send_sources(session, toi, file, sbn, symbol, line, out)?;
    if file.desc.scheme().is_no_code() {
        return Ok(());
    }
    send_repairs(
        alloc, session, tables, round, toi, file, sbn, symbol, line, out,
    )
}
