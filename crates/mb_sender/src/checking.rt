ghost use Rattle.std.specs.Prelude.{◌≡◌, ℕ, ◌+◌, ◌*◌, ◌^◌, ◌<◌, ◌≤◌, true, false, length, IfOk};
ghost use Rattle.std.specs.List.{AllByRecursion};
ghost use Rattle.mb_geom.specs.Description.{IsGood, block_count, block_size, is_no_code};
ghost use Rattle.mb_encoder.specs.Usable.{IsUsable};
ghost use Rattle.mb_tables.specs.Tables.{RaptorTables};
ghost use Rattle.mb_sender.specs.Trace as form;
ghost use Rattle.mb_sender.specs.Sent.{IsSession, IsSendable, HasEncoders, records_most, text_most, files_most};
ghost use Rattle.mb_sender.specs.Counts.{symbols_of_files, packets_most};

use crate::blocks::is_good;
use crate::packets::TEXT_SYMBOL;
use crate::session::Session;
use mb_base::Memory;
use mb_encoder::usable;
use mb_files::SentFile;
use mb_rows::CodeFault;
use mb_tables::Tables;
use std::alloc::Global;

/// The FDT Instance IDs are below this (RFC 3926 section 3.4.1).
const INSTANCES: u32 = 1 << 20;

/// The last moment of a start.
const LAST_START: u64 = 1 << 47;

/// The most bytes of a symbol that a datagram holds behind its header.
const SYMBOL_MOST: u16 = 65_515;

/// The most bytes of a text.
const TEXT_MOST: usize = 65_536;

/// The most files.
const FILES_MOST: usize = 1_024;

/// The most records.
const RECORDS_MOST: u128 = 1 << 47;

/// Whether the numbers of a session fit their fields.
fn is_session(session: &Session) -> bool
    ensures { result ≡ true → IsSession session.now }
{
    session.instance < INSTANCES && session.start <= LAST_START && session.rate > 0
}

/// Whether blocks of so many symbols have an encoder.
fn has_encoder(alloc: Global, tables: &Tables, k: u16) -> Result<bool, Memory>
    ensures { IfOk result (λ has. has ≡ true → IsUsable tables.now k) }
{
    match usable(alloc, tables, k) {
        Ok(has) => Ok(has),
        Err(CodeFault::NoRow(_)) => Ok(false),
        Err(CodeFault::Memory) => Err(Memory),
    }
}

/// Whether each block of a file has an encoder, where it has repair symbols.
fn has_encoders(
    alloc: Global,
    session: &Session,
    tables: &Tables,
    file: &SentFile,
) -> Result<bool, Memory>
    ensures { IfOk result (λ has. has ≡ true → HasEncoders session.now tables.now file.now) }
{
    if session.percent == 0 {
        return Ok(true);
    }
    if file.desc.scheme().is_no_code() {
        return Ok(true);
    }
    is_good(&file.desc);
    let parts = file.desc.parts();
    if !has_encoder(alloc, tables, parts.il as u16)? {
        return Ok(false);
    }
    has_encoder(alloc, tables, parts.is as u16)
}

/// Whether a file can be sent.
fn is_sendable(
    alloc: Global,
    session: &Session,
    tables: &Tables,
    file: &SentFile,
) -> Result<bool, Memory>
    ensures { IfOk result (λ can. can ≡ true → IsSendable session.now tables.now file.now) }
{
    if file.bytes.as_slice().len() as u64 != file.desc.length() {
        return Ok(false);
    }
    if file.desc.symbol() > SYMBOL_MOST {
        return Ok(false);
    }
    has_encoders(alloc, session, tables, file)
}

/// Whether all files can be sent.
fn are_sendable(
    alloc: Global,
    session: &Session,
    tables: &Tables,
    files: &[SentFile],
) -> Result<bool, Memory>
    ensures { IfOk result (λ can. can ≡ true → AllByRecursion (IsSendable session.now tables.now) files.now) }
{
    for i in 0..files.len() {
        if !is_sendable(alloc, session, tables, &files[i])? {
            return Ok(false);
        }
    }
    Ok(true)
}

/// How many source symbols the files have.
fn count_symbols(files: &[SentFile]) -> u64
    requires { length files.now ≤ files_most }
    ensures exact { result ≡ symbols_of_files files.now }
    ensures bound { result ≤ 2 ^ 38 }
    ensures good { AllByRecursion (λ file. IsGood file.desc) files.now }
{
    let mut total = 0;
    for i in 0..files.len() {
        is_good(&files[i].desc);
        total += files[i].desc.symbols();
    }
    total
}

/// Whether there is a moment for each record.
fn has_moments(session: &Session, text: &[u8], files: &[SentFile]) -> bool
    requires text { length text.now ≤ text_most }
    requires few { length files.now ≤ files_most }
    ensures { result ≡ true → (tables : RaptorTables) → length (form.session_packets session.now tables text.now files.now) ≤ records_most }
{
    let symbols = count_symbols(files) * (1 + u64::from(session.percent));
    let once = text.len().div_ceil(TEXT_SYMBOL) as u64 + symbols;
    u128::from(session.rounds) * u128::from(once) + 1 <= RECORDS_MOST
}

/// Whether a session can be written: its numbers fit their fields, the text and the list of files are not too long, each
/// file has as many bytes as its description says, in symbols that fit a datagram, with an encoder for each block that has
/// repair symbols, and there is a moment for each record.
///
/// # Errors
///
/// [`Memory`] where there is no memory to try an encoder.
pub fn can_send(
    alloc: Global,
    session: &Session,
    tables: &Tables,
    text: &[u8],
    files: &[SentFile],
) -> Result<bool, Memory>
    ensures session { IfOk result (λ can. can ≡ true → IsSession session.now) }
    ensures text { IfOk result (λ can. can ≡ true → length text.now ≤ text_most) }
    ensures files { IfOk result (λ can. can ≡ true → AllByRecursion (IsSendable session.now tables.now) files.now) }
    ensures few { IfOk result (λ can. can ≡ true → length files.now ≤ files_most) }
    ensures records { IfOk result (λ can. can ≡ true → length (form.session_packets session.now tables.now text.now files.now) ≤ records_most) }
{
    if text.len() > TEXT_MOST || files.len() > FILES_MOST {
        return Ok(false);
    }
    if !is_session(session) || !has_moments(session, text, files) {
        return Ok(false);
    }
    are_sendable(alloc, session, tables, files)
}
