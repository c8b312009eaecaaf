ghost use Rattle.std.specs.Prelude.{◌≡◌, ◌+◌, ◌*◌, ◌^◌, ◌<◌, ◌≤◌, ◌++◌, ◌↔◌, length, option_map, Ok, IsTrue, IfSome, OnOk, OnErr, vec_len, vec_capacity};
ghost use Rattle.mb_alc.specs.Packet.{IsPacket, packet_of};
ghost use Rattle.mb_alc.specs.PacketView.{body_seen, packet_seen};
ghost use Rattle.mb_alc.specs.Written as written;
ghost use Rattle.mb_alc.specs.Written.{fdt_bytes, fti_bytes, cenc_bytes, words_if, body_bytes, packet_bytes, FitsPacket, HasWidths};

use crate::extension::{CENC, FDT, FLUTE_VERSION, FTI, FTI_WORDS, INSTANCE_IDS};
use crate::packet::{Body, Exts, Fti, Packet};
use crate::reader::{CODE_POINT_MAX, PAYLOAD_ID};
use mb_base::{DATAGRAM_MAX, Memory, put_be16, put_be32, put_be48};
use mb_lct::{WORD, fits_header, header_words, write_lct};

/// EXT_FDT of FLUTE version 1 with FDT Instance ID 0, which is a single word.
const FIRST_INSTANCE: u32 = FDT as u32 * (1 << 24) + FLUTE_VERSION as u32 * INSTANCE_IDS;

/// The first transfer length that is too long.
const TRANSFER_END: u64 = 1 << 48;

/// The words of the extensions.
fn ext_words(exts: Exts) -> u8
    ensures exact { result ≡ written.ext_words exts }
    ensures most { result ≤ 6 }

    // What the types say, as reading back needs it.
    ensures tail { IfSome exts.fti (λ fti. length fti.tail ≡ 4) }
{
    let fti = if exts.fti.is_some() { FTI_WORDS } else { 0 };
    u8::from(exts.fdt.is_some()) + fti + u8::from(exts.cenc.is_some())
}

/// The bytes of the FEC payload ID and the payload.
fn body_size(body: &Option<Body<'_>>) -> usize
    ensures exact { result ≡ length (body_bytes (option_map body_seen body.now)) }
    ensures most { result < 2 ^ 63 + 4 }
{
    match body {
        Some(body) => PAYLOAD_ID + body.payload.len(),
        None => 0,
    }
}

/// The bytes of the packet.
fn packet_size(p: &Packet<'_>) -> usize
    ensures { result ≡ length (packet_bytes (packet_seen p.now)) }
{
    let words = header_words(&p.lct) + ext_words(p.exts);
    WORD * usize::from(words) + body_size(&p.body)
}

/// Whether the packet can be written: its header as `fits_header` of `mb_lct` says, a codepoint of 0 or 1, an
/// FDT Instance ID below 2^20, a transfer length below 2^48, and at most 65,535 bytes in all.
pub fn fits_packet(p: &Packet<'_>) -> bool
    ensures { IsTrue result ↔ FitsPacket (packet_seen p.now) }
{
    fits_header(&p.lct, ext_words(p.exts))
        && p.lct.cp <= CODE_POINT_MAX
        && p.exts.fdt.is_none_or(|id| id < INSTANCE_IDS)
        && p.exts.fti.is_none_or(|fti| fti.transfer < TRANSFER_END)
        && packet_size(p) <= DATAGRAM_MAX
}

/// Appends EXT_FDT, if there is one (RFC 3926 section 3.4.1).
fn put_fdt(fdt: Option<u32>, out: &mut Vec<u8>) -> Result<(), Memory>
    requires { IfSome fdt (λ id. id < 2 ^ 20) }
    ensures appended { OnOk result (out.new.items ≡ out.old.items ++ fdt_bytes fdt) }
    ensures full { OnErr result (vec_capacity out.old < vec_len out.old + 4 * words_if 1 fdt) }
    ensures room { vec_capacity out.old ≤ vec_capacity out.new }
{
    if let Some(id) = fdt {
        put_be32(out, FIRST_INSTANCE + id)?;
    }
    Ok(())
}

/// Appends EXT_FTI, if there is one (RFC 3926 section 5.1.1).
fn put_fti(fti: Option<Fti>, out: &mut Vec<u8>) -> Result<(), Memory>
    requires { IfSome fti (λ fti. fti.transfer < 2 ^ 48) }
    ensures appended { OnOk result (out.new.items ≡ out.old.items ++ fti_bytes fti) }
    ensures full { OnErr result (vec_capacity out.old < vec_len out.old + 4 * words_if 4 fti) }
    ensures room { vec_capacity out.old ≤ vec_capacity out.new }

    // What the types say, as reading back needs it.
    ensures instance { IfSome fti (λ fti. fti.instance < 2 ^ 16) }
    ensures symbol { IfSome fti (λ fti. fti.symbol < 2 ^ 16) }
    ensures tail { IfSome fti (λ fti. length fti.tail ≡ 4) }
{
    if let Some(fti) = fti {
        out.extend_from_slice(&[FTI, FTI_WORDS])?;
        put_be48(out, fti.transfer)?;
        put_be16(out, fti.instance)?;
        put_be16(out, fti.symbol)?;
        out.extend_from_slice(&fti.tail)?;
    }
    Ok(())
}

/// Appends EXT_CENC, if there is one (RFC 3926 section 3.4.3).
fn put_cenc(cenc: Option<u8>, out: &mut Vec<u8>) -> Result<(), Memory>
    ensures appended { OnOk result (out.new.items ≡ out.old.items ++ cenc_bytes cenc) }
    ensures full { OnErr result (vec_capacity out.old < vec_len out.old + 4 * words_if 1 cenc) }
    ensures room { vec_capacity out.old ≤ vec_capacity out.new }
{
    if let Some(algorithm) = cenc {
        out.extend_from_slice(&[CENC, algorithm, 0, 0])?;
    }
    Ok(())
}

/// Appends the FEC payload ID and the payload, if there is a body (RFC 3695 section 2, RFC 5053 section 3.1).
fn put_body(body: &Option<Body<'_>>, out: &mut Vec<u8>) -> Result<(), Memory>
    ensures appended { OnOk result
        (out.new.items ≡ out.old.items ++ body_bytes (option_map body_seen body.now)) }
    ensures full { OnErr result
        (vec_capacity out.old < vec_len out.old + length (body_bytes (option_map body_seen body.now))) }
    ensures room { vec_capacity out.old ≤ vec_capacity out.new }

    // What the types say, as reading back needs it.
    ensures sbn { IfSome body.now (λ body. body.sbn < 2 ^ 16) }
    ensures esi { IfSome body.now (λ body. body.esi < 2 ^ 16) }
{
    if let Some(body) = body {
        put_be16(out, body.sbn)?;
        put_be16(out, body.esi)?;
        out.extend_from_slice(body.payload)?;
    }
    Ok(())
}

/// Appends the parts of the packet.
fn put_parts(p: &Packet<'_>, out: &mut Vec<u8>) -> Result<(), Memory>
    requires { FitsPacket (packet_seen p.now) }
    ensures appended { OnOk result (out.new.items ≡ out.old.items ++ packet_bytes (packet_seen p.now)) }
    ensures full { OnErr result (vec_capacity out.old < vec_len out.old + length (packet_bytes (packet_seen p.now))) }
    ensures room { vec_capacity out.old ≤ vec_capacity out.new }

    // What the types say, as reading back needs it.
    ensures widths { OnOk result (HasWidths (packet_seen p.now)) }
{
    let words = ext_words(p.exts);
    write_lct(&p.lct, words, out)?;
    put_fdt(p.exts.fdt, out)?;
    put_fti(p.exts.fti, out)?;
    put_cenc(p.exts.cenc, out)?;
    put_body(&p.body, out)?;
    Ok(())
}

/// Appends the packet (RFC 3450 section 2): its LCT header as `write_lct` writes it, EXT_FDT, EXT_FTI and
/// EXT_CENC as far as it has them, and its body. `read_packet` reads it back. `Memory` where there is no room
/// for all of it; the bytes are then as before.
pub fn write_packet(p: &Packet<'_>, out: &mut Vec<u8>) -> Result<(), Memory>
    requires { FitsPacket (packet_seen p.now) }
    ensures appended { OnOk result (out.new.items ≡ out.old.items ++ packet_bytes (packet_seen p.now)) }
    ensures written { OnOk result (IsPacket (packet_bytes (packet_seen p.now)) (packet_seen p.now)) }
    ensures read_back { OnOk result (packet_of (packet_bytes (packet_seen p.now)) ≡ Ok (packet_seen p.now)) }
    ensures kept { OnErr result (out.new.items ≡ out.old.items) }
    ensures full { OnErr result (vec_capacity out.old < vec_len out.old + length (packet_bytes (packet_seen p.now))) }
    ensures room { vec_capacity out.old ≤ vec_capacity out.new }
{
    // With the room taken first, nothing after it can fail half-way.
    out.reserve(packet_size(p))?;
    put_parts(p, out)?;
    Ok(())
}
