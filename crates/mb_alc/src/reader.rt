ghost use Rattle.std.specs.Prelude.{◌≡◌, ◌↔◌, Ok, Err};
ghost use Rattle.mb_alc.specs.Packet as packet;
ghost use Rattle.mb_alc.specs.Packet.{IsPacket, IsPacketFault, body_of, packet_of};
ghost use Rattle.mb_alc.specs.PacketView.{Sees, SeesBody};

use crate::extension::read_exts;
use crate::fault::PacketFault;
use crate::packet::{Body, Packet};
use mb_base::be16;
use mb_lct::read_lct;

/// The bytes of a FEC payload ID.
pub(crate) const PAYLOAD_ID: usize = 4;

/// The greatest codepoint: it is the FEC Encoding ID, 0 or 1.
pub(crate) const CODE_POINT_MAX: u8 = 1;

/// What stands behind the header.
fn read_body(bytes: &[u8]) -> Result<Option<Body<'_>>, PacketFault>
    ensures { SeesBody result (body_of bytes.now) }
{
    if bytes.is_empty() {
        return Ok(None);
    }
    if bytes.len() < PAYLOAD_ID {
        return Err(PacketFault::NoPayloadId);
    }
    let (id, payload) = bytes.split_at(PAYLOAD_ID);
    let sbn = be16(&id[..2]);
    let esi = be16(&id[2..]);
    Ok(Some(Body { sbn, esi, payload }))
}

/// The packet by its parts one after another, or the first fault.
fn packet_in(bytes: &[u8]) -> Result<Packet<'_>, PacketFault>
    ensures { Sees result (packet_of bytes.now) }
{
    let head = read_lct(bytes)?;
    let exts = read_exts(&bytes[head.ext_at..head.end])?;
    if head.lct.cp > CODE_POINT_MAX {
        return Err(PacketFault::CodePoint(head.lct.cp));
    }
    let body = read_body(&bytes[head.end..])?;
    Ok(Packet {
        lct: head.lct,
        exts,
        body,
    })
}

/// Reads the packet that a datagram is (RFC 3450 section 2, RFC 3926). Its payload borrows the datagram. A packet
/// that ends with its header has no body.
///
/// The faults, the first that holds:
/// - `Lct`: it has no LCT header, as `read_lct` says.
/// - `Ext`: the rest of the header is no list of extensions, as `ExtFault` says.
/// - `CodePoint`: the codepoint is above 1.
/// - `NoPayloadId`: one to three bytes stand behind the header.
pub fn read_packet(bytes: &[u8]) -> Result<Packet<'_>, PacketFault>
    ensures exact { Sees result (packet_of bytes.now) }
    ensures found { (p : packet.Packet) → IsPacket bytes.now p ↔ Sees result (Ok p) }
    ensures refused { (fault : PacketFault) → IsPacketFault bytes.now fault ↔ (result ≡ Err fault) }
{
    packet_in(bytes)
}
