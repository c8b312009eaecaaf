ghost use Rattle.std.specs.Prelude.{◌≡◌, ◌<◌, ◌/◌, ◌%◌, ◌+◌, ◌++◌, ◌^◌, IfOk, OnOk, string_bytes};
ghost use Rattle.mb_rx.specs.Lines as line;

use crate::cause::Cause;
use mb_fdt::{FdtFault, FdtKind};
use mb_machine::{InstanceReport, Reason};
use std::alloc::{AllocError, Global};

/// The line that says what an FDT Instance did.
pub fn instance_line(alloc: Global, id: u32, report: &InstanceReport) -> Result<String, AllocError>
    ensures { IfOk result (λ text. string_bytes text ≡ line.instance id report.now) }
{
    let (started, prolonged) = (report.started, report.prolonged);
    let others = others_text(alloc, report)?;
    format!(in alloc; "fdt {id} started {started} prolonged {prolonged} {others}\n")
}

#[tactic(auto, unfolding(crate::specs::Lines::others))]
fn others_text(alloc: Global, report: &InstanceReport) -> Result<String, AllocError>
    ensures { IfOk result (λ text. string_bytes text ≡ line.others report.now) }
{
    let (conflicting, refused) = (report.conflicting, report.refused);
    let (norow, full) = (report.norow, report.full);
    format!(in alloc; "conflicting {conflicting} refused {refused} norow {norow} full {full}")
}

/// The line that says where the text of an FDT Instance has its fault.
pub fn bad_instance_line(alloc: Global, id: u32, fault: FdtFault) -> Result<String, AllocError>
    ensures { IfOk result (λ text. string_bytes text ≡ line.bad_instance id fault) }
{
    let (number, place) = (fault_number(fault.kind), fault.place);
    format!(in alloc; "fdt {id} fault {number} at {place}\n")
}

/// The line of an FDT Instance that was whole after its Expires.
pub fn late_instance_line(alloc: Global, id: u32) -> Result<String, AllocError>
    ensures { IfOk result (λ text. string_bytes text ≡ line.late_instance id) }
{
    format!(in alloc; "fdt {id} late\n")
}

fn fault_number(kind: FdtKind) -> u8
    ensures { result ≡ line.fault_number kind }
{
    match kind {
        FdtKind::NotUtf8 => 1,
        FdtKind::Syntax => 2,
        FdtKind::Forbidden => 3,
        FdtKind::Depth => 4,
        FdtKind::NoExpires => 5,
        FdtKind::BadExpires => 6,
        FdtKind::RepeatedAttribute => 7,
        FdtKind::TooManyFiles => 8,
    }
}

/// The line that follows a file into the store.
pub fn stored_line(
    alloc: Global,
    toi: u128,
    len: usize,
    location: &[u8],
) -> Result<String, AllocError>
    ensures { IfOk result (λ text. string_bytes text ≡ line.stored toi len location.now) }
{
    let shown = location_text(alloc, location)?;
    format!(in alloc; "stored {toi} {len} {shown}\n")
}

/// The line of a file whose bytes have another digest than its description gives.
pub fn damaged_line(
    alloc: Global,
    toi: u128,
    given: &[u8; 16],
    found: &[u8; 16],
) -> Result<String, AllocError>
    ensures { IfOk result (λ text. string_bytes text ≡ line.damaged toi given.now found.now) }
{
    let given = digest_text(alloc, given)?;
    let found = digest_text(alloc, found)?;
    format!(in alloc; "damaged {toi} {given} {found}\n")
}

/// A digest as it is printed: two digits for each byte.
fn digest_text(alloc: Global, digest: &[u8; 16]) -> Result<String, AllocError>
    ensures { IfOk result (λ text. string_bytes text ≡ line.digest_text digest.now) }
{
    let mut text = String::with_capacity(alloc, 32)?;
    for byte in digest {
        text.push(small_hex_digit(*byte / 16))?;
        text.push(small_hex_digit(*byte % 16))?;
    }
    Ok(text)
}

fn small_hex_digit(n: u8) -> char
    requires { n < 16 }
    ensures { result ≡ line.small_hex_digit n }
{
    if n < 10 {
        char::from(b'0' + n)
    } else {
        char::from(b'a' - 10 + n)
    }
}

/// A location as it is printed: visible ASCII characters as they are, and every other byte and the percent
/// sign as a percent sign and two digits.
fn location_text(alloc: Global, location: &[u8]) -> Result<String, AllocError>
    ensures { IfOk result (λ text. string_bytes text ≡ line.location_text location.now) }
{
    let mut text = String::with_capacity(alloc, location.len())?;
    for byte in location {
        push_byte(&mut text, *byte)?;
    }
    Ok(text)
}

fn push_byte(text: &mut String, byte: u8) -> Result<(), AllocError>
    ensures { OnOk result (string_bytes text.new ≡ string_bytes text.old ++ line.location_byte byte) }
{
    if (0x21..=0x7e).contains(&byte) && byte != b'%' {
        text.push(char::from(byte))
    } else {
        text.push('%')?;
        text.push(hex_digit(byte / 16))?;
        text.push(hex_digit(byte % 16))
    }
}

fn hex_digit(n: u8) -> char
    requires { n < 16 }
    ensures { result ≡ line.hex_digit n }
{
    if n < 10 {
        char::from(b'0' + n)
    } else {
        char::from(b'A' - 10 + n)
    }
}

/// The line of a session's end.
pub fn end_line(
    alloc: Global,
    cause: Cause,
    moment: u64,
    datagrams: u64,
) -> Result<String, AllocError>
    ensures { IfOk result (λ text. string_bytes text ≡ line.end cause moment datagrams) }
{
    let word = cause_word(cause);
    format!(in alloc; "end {word} {moment} datagrams {datagrams}\n")
}

fn cause_word(cause: Cause) -> &'static str
    ensures { result.now ≡ line.cause_word cause }
{
    match cause {
        Cause::Quiet => "quiet",
        Cause::Ended => "ended",
        Cause::Closed => "closed",
        Cause::Limit => "limit",
    }
}

/// The line of the lives that ended and were not handed out.
pub fn expired_line(alloc: Global, n: u64) -> Result<String, AllocError>
    ensures { IfOk result (λ text. string_bytes text ≡ line.expired n) }
{
    format!(in alloc; "expired {n}\n")
}

/// The word by which a reason to drop is printed.
pub fn reason_word(reason: Reason) -> &'static str
    ensures { result.now ≡ line.reason_word reason }
{
    match reason {
        Reason::Closed => "closed",
        Reason::OtherSession => "othersession",
        Reason::NoToi => "notoi",
        Reason::NoBody => "nobody",
        Reason::FdtWithoutIds => "fdtwithoutids",
        Reason::FdtEncoded => "fdtencoded",
        Reason::FdtShape => "fdtshape",
        Reason::Unknown => "unknown",
        Reason::FtiDiffers => "ftidiffers",
        Reason::CodePointDiffers => "codepointdiffers",
        Reason::Block => "block",
        Reason::Symbol => "symbol",
        Reason::Length => "length",
        Reason::Done => "done",
    }
}

/// The line of the datagrams that were dropped for one reason.
pub fn dropped_line(alloc: Global, word: &str, n: u64) -> Result<String, AllocError>
    ensures { IfOk result (λ text. string_bytes text ≡ line.dropped word.now n) }
{
    format!(in alloc; "dropped {word} {n}\n")
}

/// The line of a file that was not handed out.
pub fn incomplete_line(alloc: Global, toi: u128, missing: u64) -> Result<String, AllocError>
    ensures { IfOk result (λ text. string_bytes text ≡ line.incomplete toi missing) }
{
    format!(in alloc; "incomplete {toi} {missing}\n")
}
