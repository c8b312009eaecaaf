ghost use Rattle.std.specs.Prelude.{◌≡◌, ◌<◌, ◌≤◌, ◌+◌, length, option_map, max, IfNone};
ghost use Rattle.mb_geom.specs.Description.{IsGood, block_count, block_size};
ghost use Rattle.mb_alc.specs.PacketView.{packet_seen, body_seen};
ghost use Rattle.mb_window.specs.Symbols.{symbol_count};
ghost use Rattle.mb_life.specs.Hearing.{CanHear};
ghost use Rattle.mb_machine.specs.Packets.{is_scheme, fti_differs, code_point, esi_end, is_past_block, is_good_length, may_be_short, ends_file, symbols_refused, object_reason};

use mb_alc::{Body, Fti, Packet};
use mb_base::{be16, be32};
use mb_geom::{Desc, Scheme};
use mb_life::Life;
use mb_machine::Reason;

/// The ESIs of a Raptor block are below this (RFC 5053 section 3.1).
const RAPTOR_END: u32 = 65_536;

/// Whether the last four bytes of EXT_FTI are those of the scheme.
fn is_scheme(scheme: Scheme, last: &[u8; 4]) -> bool
    ensures { result ≡ is_scheme scheme last.now }
{
    match scheme {
        Scheme::NoCode { max_block } => be32(last) == max_block,
        Scheme::Raptor { z, n, al } => be16(&last[..2]) == z && last[2] == n && last[3] == al,
    }
}

/// Whether an EXT_FTI is not that of the file.
fn fti_differs(desc: &Desc, fti: Option<&Fti>) -> bool
    ensures { result ≡ fti_differs desc.now (option_map (λ f. f.now) fti.entry) }
{
    let Some(fti) = fti else {
        return false;
    };
    fti.transfer != desc.length()
        || fti.symbol != desc.symbol()
        || !is_scheme(desc.scheme(), &fti.tail)
}

/// The codepoint of a scheme, which is its FEC Encoding ID.
fn code_point(scheme: Scheme) -> u8
    ensures { result ≡ code_point scheme }
{
    match scheme {
        Scheme::NoCode { .. } => 0,
        Scheme::Raptor { .. } => 1,
    }
}

/// Whether a symbol's last bytes may be left out.
fn may_be_short(scheme: Scheme) -> bool
    ensures { result ≡ may_be_short scheme }
{
    match scheme {
        Scheme::NoCode { .. } => true,
        Scheme::Raptor { n, .. } => n == 1,
    }
}

/// The number above the ESIs of a block of `k` source symbols.
fn esi_end(scheme: Scheme, k: u32) -> u32
    ensures { result ≡ esi_end scheme k }
{
    match scheme {
        Scheme::NoCode { .. } => k,
        Scheme::Raptor { .. } => RAPTOR_END,
    }
}

/// How many symbols a payload holds.
fn symbol_count(desc: &Desc, body: &Body<'_>) -> usize
    requires { 0 < desc.now.symbol }
    ensures exact { result ≡ symbol_count desc.now (body_seen body.now) }
    ensures most { result ≤ length body.now.payload.now }
{
    body.payload.len().div_ceil(usize::from(desc.symbol()))
}

/// Whether the payload's last symbol is the last source symbol of the file.
fn ends_file(desc: &Desc, body: &Body<'_>, k: u32) -> bool
    requires symbol { 0 < desc.now.symbol }
    requires k { k ≡ block_size desc.now body.now.sbn }
    ensures { result ≡ ends_file desc.now (body_seen body.now) }
{
    u32::from(body.sbn) + 1 == desc.blocks()
        && usize::from(body.esi) + symbol_count(desc, body) == k as usize
}

/// Whether the payload's symbols are whole, or its last one is the file's and has the file's bytes of it.
fn is_good_length(desc: &Desc, body: &Body<'_>, k: u32) -> bool
    requires good { IsGood desc.now }
    requires block { body.now.sbn < block_count desc.now }
    requires k { k ≡ block_size desc.now body.now.sbn }
    ensures { result ≡ is_good_length desc.now (body_seen body.now) }
{
    let length = body.payload.len();
    let short = length % usize::from(desc.symbol());
    if length == 0 || short == 0 {
        return length > 0;
    }
    may_be_short(desc.scheme()) && ends_file(desc, body, k) && usize::from(desc.tail()) <= short
}

/// Why the file has no such symbols.
fn symbols_refused(desc: &Desc, body: &Body<'_>) -> Option<Reason>
    requires { IsGood desc.now }
    ensures { result ≡ symbols_refused desc.now (body_seen body.now) }
{
    if u32::from(body.sbn) >= desc.blocks() {
        return Some(Reason::Block);
    }
    let k = desc.k_of(body.sbn);
    let count = symbol_count(desc, body);
    if usize::from(body.esi) + count.max(1) > esi_end(desc.scheme(), k) as usize {
        return Some(Reason::Symbol);
    }
    if !is_good_length(desc, body, k) {
        return Some(Reason::Length);
    }
    None
}

/// The first reason why a packet of a life's object is dropped. Where there is none, the life can hear its symbols.
pub fn object_reason(life: &Life, packet: &Packet<'_>, body: &Body<'_>) -> Option<Reason>
    ensures exact { result ≡ object_reason life.now (packet_seen packet.now) (body_seen body.now) }
    ensures can { IfNone result (CanHear life.now body.now.sbn body.now.esi (length body.now.payload.now)) }
{
    let desc = life.desc();
    let _length = desc.length();
    if fti_differs(desc, packet.exts.fti.as_ref()) {
        return Some(Reason::FtiDiffers);
    }
    if packet.lct.cp != code_point(desc.scheme()) {
        return Some(Reason::CodePointDiffers);
    }
    if let Some(reason) = symbols_refused(desc, body) {
        return Some(reason);
    }
    if life.is_done() {
        return Some(Reason::Done);
    }
    None
}
