ghost use Rattle.std.specs.Prelude.{IsTrue, false, ◌≡◌, ℕ, Ok, Err, ◌+◌, ◌*◌, ◌<◌, ◌≤◌, ◌++◌, ◌^◌, [], length, flat_map, take, drop, All, IfOk, IfErr, OnOk, List, Option};
ghost use Rattle.mb_base.specs.Outside.{Loses, EndsAt};
ghost use Rattle.mb_base.specs.Number.{be_number, be_bytes};
ghost use Rattle.mb_tables.specs.Limits.{IsRow};
ghost use Rattle.mb_tables.specs.Tables.{AreWords, AreRows, IsAbove, IsRising, IsTables, magic, row_bytes, head_bytes};
ghost use Rattle.mb_tables.specs.Refused.{Tells, ReadsTold};
ghost use Rattle.mb_tables.specs.Parts.{IsShort, StopsAt, StopsBehind, IsBehind, ReadsHead, Explains, HasFaultCause};

use crate::fill::fill;
use crate::limits::first_out;
use crate::tables::{WORDS, is_above};
use crate::{Row, Tables, TablesFault};
use mb_base::{Source, be16, be32};
use std::alloc::Global;

/// The first bytes of a tables file.
pub(crate) const MAGIC: [u8; 8] = *b"RAPTAB01";

/// Where V0, V1, the number of rows and the rows begin.
const V0_AT: u64 = 8;

const V1_AT: u64 = 1_032;

const COUNT_AT: u64 = 2_056;

const ROWS_AT: u64 = 2_058;

/// How many bytes a row has.
const ROW: usize = 8;

fn read_magic<S: Source>(src: &mut S) -> Result<(), TablesFault>
    ensures read { OnOk result (Loses (S.left src.old) (S.left src.new) magic) }
    ensures refused { IfErr result (λ fault. Tells (S.left src.old) (Explains fault)) }
    ensures cause { HasFaultCause (S.faults src.old) (S.faults src.new) result }
    ensures same { S.made src.new ≡ S.made src.old }
{
    let mut bytes = [0; 8];
    let count = fill(src, &mut bytes)?;
    if bytes[..count] != MAGIC[..count] {
        return Err(TablesFault::Magic);
    }
    if count < 8 {
        return Err(TablesFault::Truncated(count as u64));
    }
    Ok(())
}

fn read_word<S: Source>(src: &mut S, at: u64) -> Result<u32, TablesFault>
    requires { at ≤ 2058 }
    ensures read { IfOk result (λ word. Loses (S.left src.old) (S.left src.new) (be_bytes 4 word)) }
    ensures refused { IfErr result (λ fault. Tells (S.left src.old) (IsShort at 4 fault)) }
    ensures cause { HasFaultCause (S.faults src.old) (S.faults src.new) result }
    ensures same { S.made src.new ≡ S.made src.old }
{
    let mut bytes = [0; 4];
    let count = fill(src, &mut bytes)?;
    if count < 4 {
        return Err(TablesFault::Truncated(at + count as u64));
    }
    Ok(be32(&bytes))
}

fn read_words<S: Source>(alloc: Global, src: &mut S, at: u64) -> Result<Vec<u32>, TablesFault>
    requires { at ≤ 1032 }
    ensures read { IfOk result (λ words. Loses (S.left src.old) (S.left src.new) (flat_map (be_bytes 4) words.items)) }
    ensures good { IfOk result (λ words. AreWords words.items) }
    ensures refused { IfErr result (λ fault. Tells (S.left src.old) (IsShort at 1024 fault)) }
    ensures cause { HasFaultCause (S.faults src.old) (S.faults src.new) result }
    ensures same { S.made src.new ≡ S.made src.old }
{
    let mut words = Vec::with_capacity(alloc, WORDS)?;
    for i in 0..WORDS {
        let word = match read_word(src, at + 4 * i as u64) {
            Ok(word) => word,
            Err(fault) => return Err(fault),
        };
        words.push(word)?;
    }
    Ok(words)
}

fn read_count<S: Source>(src: &mut S) -> Result<u16, TablesFault>
    ensures read { IfOk result (λ count. Loses (S.left src.old) (S.left src.new) (be_bytes 2 count)) }
    ensures refused { IfErr result (λ fault. Tells (S.left src.old) (IsShort 2056 2 fault)) }
    ensures cause { HasFaultCause (S.faults src.old) (S.faults src.new) result }
    ensures same { S.made src.new ≡ S.made src.old }
{
    let mut bytes = [0; 2];
    let count = fill(src, &mut bytes)?;
    if count < 2 {
        return Err(TablesFault::Truncated(COUNT_AT + count as u64));
    }
    Ok(be16(&bytes))
}

fn row_of(bytes: &[u8]) -> Row
    requires { length bytes.now ≡ 8 }
    ensures { result ≡ record {
      k = be_number (take 2 bytes.now);
      j = be_number (take 2 (drop 2 bytes.now));
      s = be_number (take 2 (drop 4 bytes.now));
      lp = be_number (take 2 (drop 6 bytes.now));
    } }
{
    Row {
        k: be16(&bytes[..2]),
        j: be16(&bytes[2..4]),
        s: be16(&bytes[4..6]),
        lp: be16(&bytes[6..8]),
    }
}

/// Whether K, where `count` bytes of its row were read, is above that of the rows before or was not read.
fn is_in_order(count: usize, rows: &[Row], k: u16) -> bool
    requires { IsRising rows.now }
    ensures above { IsTrue result → 2 ≤ count → IsAbove k rows.now }
    ensures below { result ≡ false → (2 ≤ count) × (IsAbove k rows.now → ⊥) }
{
    count < 2 || is_above(rows, k)
}

fn read_row<S: Source>(src: &mut S, rows: &[Row]) -> Result<Row, TablesFault>
    requires rising { IsRising rows.now }
    requires few { length rows.now < 2 ^ 16 }
    ensures read { IfOk result (λ row. Loses (S.left src.old) (S.left src.new) (row_bytes row)) }
    ensures good { IfOk result (λ row. IsRow row × IsAbove row.k rows.now) }
    ensures refused { IfErr result (λ fault. Tells (S.left src.old) (StopsAt rows.now fault)) }
    ensures cause { HasFaultCause (S.faults src.old) (S.faults src.new) result }
    ensures same { S.made src.new ≡ S.made src.old }
{
    let mut bytes = [0; ROW];
    let count = fill(src, &mut bytes)?;
    let number = rows.len() as u16;
    let row = row_of(&bytes);
    if !is_in_order(count, rows, row.k) {
        return Err(TablesFault::Order(number));
    }
    if count < ROW {
        return Err(TablesFault::Truncated(ROWS_AT + 8 * u64::from(number) + count as u64));
    }
    match first_out(row) {
        Some(field) => Err(TablesFault::Range(number, field)),
        None => Ok(row),
    }
}

fn read_rows<S: Source>(alloc: Global, src: &mut S, count: u16) -> Result<Vec<Row>, TablesFault>
    ensures read { IfOk result (λ rows. Loses (S.left src.old) (S.left src.new) (flat_map row_bytes rows.items)) }
    ensures good { IfOk result (λ rows. AreRows rows.items × (length rows.items ≡ count)) }
    ensures refused { IfErr result (λ fault. Tells (S.left src.old) (StopsBehind count fault)) }
    ensures cause { HasFaultCause (S.faults src.old) (S.faults src.new) result }
    ensures same { S.made src.new ≡ S.made src.old }
{
    let mut rows = Vec::new(alloc);
    for index in 0..count {
        let row = match read_row(src, &rows) {
            Ok(row) => row,
            Err(fault) => return Err(fault),
        };
        rows.push(row)?;
    }
    Ok(rows)
}

/// What stands before the rows.
#[derive(Drop)]
struct Head {
    v0: Vec<u32>,
    v1: Vec<u32>,
    count: u16,
}

fn read_head<S: Source>(alloc: Global, src: &mut S) -> Result<Head, TablesFault>
    ensures read { IfOk result (λ head. ReadsHead (S.left src.old) (S.left src.new) head.v0.items head.v1.items head.count) }
    ensures refused { IfErr result (λ fault. Tells (S.left src.old) (Explains fault)) }
    ensures cause { HasFaultCause (S.faults src.old) (S.faults src.new) result }
    ensures same { S.made src.new ≡ S.made src.old }
{
    match read_magic(src) {
        Ok(()) => {}
        Err(fault) => return Err(fault),
    }
    let v0 = match read_words(alloc, src, V0_AT) {
        Ok(words) => words,
        Err(fault) => return Err(fault),
    };
    let v1 = match read_words(alloc, src, V1_AT) {
        Ok(words) => words,
        Err(fault) => return Err(fault),
    };
    match read_count(src) {
        Ok(count) => Ok(Head { v0, v1, count }),
        Err(fault) => Err(fault),
    }
}

/// Whether the source ends here.
fn read_end<S: Source>(src: &mut S) -> Result<(), TablesFault>
    ensures end { OnOk result (Loses (S.left src.old) (S.left src.new) []) }
    ensures ends { OnOk result (EndsAt (S.left src.new)) }
    ensures refused { IfErr result (λ fault. Tells (S.left src.old) (IsBehind fault)) }
    ensures cause { HasFaultCause (S.faults src.old) (S.faults src.new) result }
    ensures same { S.made src.new ≡ S.made src.old }
{
    let mut byte = [0; 1];
    if fill(src, &mut byte)? == 0 {
        Ok(())
    } else {
        Err(TablesFault::Trailing)
    }
}

fn read_file<S: Source>(alloc: Global, src: &mut S) -> Result<Tables, TablesFault>
    ensures read { IfOk result (λ tables. Tells (S.left src.old) (λ bytes. IsTables bytes tables)) }
    ensures end { OnOk result (EndsAt (S.left src.new)) }
    ensures refused { IfErr result (λ fault. Tells (S.left src.old) (Explains fault)) }
    ensures cause { HasFaultCause (S.faults src.old) (S.faults src.new) result }
    ensures same { S.made src.new ≡ S.made src.old }
{
    let head = match read_head(alloc, src) {
        Ok(head) => head,
        Err(fault) => return Err(fault),
    };
    let rows = match read_rows(alloc, src, head.count) {
        Ok(rows) => rows,
        Err(fault) => return Err(fault),
    };
    match read_end(src) {
        Ok(()) => Ok(Tables::from_parts(alloc, head.v0, head.v1, rows)),
        Err(fault) => Err(fault),
    }
}

/// Reads a tables file to the end of its source. The fault is the first in reading order: an `Order` is found
/// where the row's K is read, and a `Range` where the whole row is. After a fault the source is left where it had
/// come to.
pub fn read_tables<S: Source>(alloc: Global, src: &mut S) -> Result<Tables, TablesFault>
    // Each answer but one that the source or memory is the cause of is the one that reading the bytes gives, and
    // reading them gives no other.
    ensures reads { ReadsTold (S.left src.old) result }
    ensures read { IfOk result (λ tables. Tells (S.left src.old) (λ bytes. IsTables bytes tables)) }
    ensures end { OnOk result (EndsAt (S.left src.new)) }
    ensures refused { IfErr result (λ fault. Tells (S.left src.old) (Explains fault)) }
    ensures cause { HasFaultCause (S.faults src.old) (S.faults src.new) result }
    ensures same { S.made src.new ≡ S.made src.old }
{
    read_file(alloc, src)
}
