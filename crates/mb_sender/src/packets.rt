ghost use Rattle.std.specs.Prelude.{◌≡◌, ℕ, ◌*◌, ◌^◌, ◌<◌, ◌≤◌, length};
ghost use Rattle.mb_alc.specs.PacketView.{packet_seen};
ghost use Rattle.mb_alc.specs.Written.{FitsPacket};
ghost use Rattle.mb_sender.specs.Trace as form;
ghost use Rattle.mb_sender.specs.Sent.{IsSession, symbol_most};

use crate::session::Session;
use mb_alc::{Body, Exts, Fti, Packet};
use mb_geom::{Desc, Scheme};
use mb_lct::Lct;

/// The bytes of a symbol of the text.
pub(crate) const TEXT_SYMBOL: usize = 1_400;

/// EXT_FTI's last four bytes for the text: a block has at most 64 symbols (RFC 3926 section 5.1.2.1).
const TEXT_BLOCK: [u8; 4] = [0, 0, 0, 64];

/// The header of a packet of an object.
fn object_header(session: &Session, toi: u32, cp: u8) -> Lct
    ensures header { result ≡ form.object_header session.now toi cp }
    ensures tsi { session.now.tsi < 2 ^ 32 }
{
    Lct {
        tsi: u64::from(session.tsi),
        toi: Some(u128::from(toi)),
        close_session: false,
        close_object: false,
        cp,
    }
}

/// The code point of packets of a file: its FEC Encoding ID.
fn code_point(scheme: Scheme) -> u8
    ensures { result ≡ form.code_point scheme }
{
    match scheme {
        Scheme::NoCode { .. } => 0,
        Scheme::Raptor { .. } => 1,
    }
}

/// What the extensions of the text's packets say.
fn text_extensions(session: &Session, text: &[u8]) -> Exts
    ensures { result ≡ form.text_extensions session.now text.now }
{
    Exts {
        fdt: Some(session.instance),
        fti: Some(Fti {
            transfer: text.len() as u64,
            instance: 0,
            symbol: TEXT_SYMBOL as u16,
            tail: TEXT_BLOCK,
        }),
        cenc: None,
    }
}

/// A symbol of the text; the last one has the bytes that are left.
fn text_symbol(text: &[u8], esi: u16) -> &[u8]
    requires { 1400 * esi ≤ length text.now }
    ensures symbol { result.now ≡ form.text_symbol text.now esi }
    ensures short { length result.now ≤ 1400 }
{
    let rest = &text[TEXT_SYMBOL * usize::from(esi)..];
    &rest[..rest.len().min(TEXT_SYMBOL)]
}

/// The packet with a symbol of the text.
pub(crate) fn text_packet<'a>(session: &Session, text: &'a [u8], esi: u16) -> Packet<'a>
    requires session { IsSession session.now }
    requires text { length text.now ≤ 65536 }
    requires esi { 1400 * esi ≤ length text.now }
    ensures packet { packet_seen result ≡ form.text_packet session.now text.now esi }
    ensures fits { FitsPacket (packet_seen result) }
{
    Packet {
        lct: object_header(session, 0, 0),
        exts: text_extensions(session, text),
        body: Some(Body {
            sbn: 0,
            esi,
            payload: text_symbol(text, esi),
        }),
    }
}

/// The packet with a symbol of a file.
pub(crate) fn symbol_packet<'a>(
    session: &Session,
    toi: u32,
    desc: &Desc,
    sbn: u16,
    esi: u16,
    symbol: &'a [u8],
) -> Packet<'a>
    requires { length symbol.now ≤ symbol_most }
    ensures packet { packet_seen result ≡ form.symbol_packet session.now toi desc.now sbn esi symbol.now }
    ensures fits { FitsPacket (packet_seen result) }
{
    Packet {
        lct: object_header(session, toi, code_point(desc.scheme())),
        exts: Exts::NONE,
        body: Some(Body {
            sbn,
            esi,
            payload: symbol,
        }),
    }
}

/// The packet that closes the session.
pub(crate) fn closing_packet<'a>(session: &Session) -> Packet<'a>
    ensures packet { packet_seen result ≡ form.closing_packet session.now }
    ensures fits { FitsPacket (packet_seen result) }
{
    Packet {
        lct: Lct {
            tsi: u64::from(session.tsi),
            toi: None,
            close_session: true,
            close_object: false,
            cp: 0,
        },
        exts: Exts::NONE,
        body: None,
    }
}
