ghost use Rattle.std.specs.Prelude.{◌≡◌, IfOk, option_map};
ghost use Rattle.mb_alc.specs.PacketView.{packet_seen, body_seen};
ghost use Rattle.mb_fdt.specs.Reader.{fdt_of};
ghost use Rattle.mb_machine.specs.Table.{Table, life_of};
ghost use Rattle.mb_machine.specs.Packets.{read_instance, hear_in_window, is_encoded, hear_fdt, hear_object, hear_body, hear_in_session, hear_packet};
ghost use Rattle.mb_objects.specs.Stepping.{holding, Steps};

use crate::entries::add_files;
use crate::lives::Lives;
use crate::objects::object_reason;
use mb_alc::{Body, Fti, Packet};
use mb_base::Memory;
use mb_fdt::read_fdt;
use mb_machine::{Happened, Reason};
use mb_way::Codes;
use mb_window::{Window, WindowHeard};
use std::alloc::Global;

/// Reads the text of an instance that is whole, at this clock.
fn read_instance(
    alloc: Global,
    window: &mut Window,
    codes: &mut Codes,
    lives: &mut Lives,
    clock: u64,
    id: u32,
    fti: Option<&Fti>,
    text: &[u8],
) -> Result<Happened, Memory>
    ensures step { IfOk result (λ h. (t : Table) → t.tables ≡ codes.old → t.clock ≡ clock → Steps t (read_instance id (option_map (λ f. f.now) fti.entry) (fdt_of text.now) (holding t window.old lives.old)) window.new lives.new h) }
    ensures tables { codes.new ≡ codes.old }
{
    match read_fdt(alloc, text)? {
        Err(fault) => {
            window.clear(id);
            Ok(Happened::BadInstance { id, fault })
        }
        Ok(fdt) if fdt.expires < clock => {
            window.clear(id);
            Ok(Happened::LateInstance { id })
        }
        Ok(fdt) => {
            window.settle(id, fti, fdt.expires);
            let report = add_files(alloc, codes, lives, fdt.expires, fdt.files)?;
            Ok(Happened::Instance { id, report })
        }
    }
}

/// Hears symbols of an instance.
fn hear_in_window(
    alloc: Global,
    window: &mut Window,
    codes: &mut Codes,
    lives: &mut Lives,
    clock: u64,
    id: u32,
    fti: Option<&Fti>,
    body: &Body<'_>,
) -> Result<Happened, Memory>
    ensures step { IfOk result (λ h. (t : Table) → t.tables ≡ codes.old → t.clock ≡ clock → Steps t (hear_in_window id (option_map (λ f. f.now) fti.entry) (body_seen body.now) (holding t window.old lives.old)) window.new lives.new h) }
    ensures tables { codes.new ≡ codes.old }
{
    let reason = match window.hear(id, fti, body)? {
        WindowHeard::Part => return Ok(Happened::Part { id }),
        WindowHeard::Whole { text } => {
            return read_instance(alloc, window, codes, lives, clock, id, fti, text.as_slice());
        }
        WindowHeard::NoIds => Reason::FdtWithoutIds,
        WindowHeard::Shape => Reason::FdtShape,
        WindowHeard::Differs => Reason::FtiDiffers,
        WindowHeard::Block => Reason::Block,
        WindowHeard::Symbol => Reason::Symbol,
        WindowHeard::Length => Reason::Length,
        WindowHeard::Done => Reason::Done,
    };
    Ok(Happened::Dropped(reason))
}

/// Whether EXT_CENC names an encoding.
fn is_encoded(algorithm: Option<u8>) -> bool
    ensures { result ≡ is_encoded algorithm }
{
    algorithm.is_some_and(|algorithm| algorithm != 0)
}

/// Hears a packet with TOI 0.
fn hear_fdt(
    alloc: Global,
    window: &mut Window,
    codes: &mut Codes,
    lives: &mut Lives,
    clock: u64,
    packet: &Packet<'_>,
    body: &Body<'_>,
) -> Result<Happened, Memory>
    ensures step { IfOk result (λ h. (t : Table) → t.tables ≡ codes.old → t.clock ≡ clock → Steps t (hear_fdt (packet_seen packet.now) (body_seen body.now) packet.now.exts.fdt (holding t window.old lives.old)) window.new lives.new h) }
    ensures tables { codes.new ≡ codes.old }
{
    let exts = &packet.exts;
    let Some(id) = exts.fdt else {
        return Ok(Happened::Dropped(Reason::FdtWithoutIds));
    };
    if !window.has(id) && exts.fti.is_none() {
        return Ok(Happened::Dropped(Reason::FdtWithoutIds));
    }
    if is_encoded(exts.cenc) {
        return Ok(Happened::Dropped(Reason::FdtEncoded));
    }
    if packet.lct.cp != 0 {
        return Ok(Happened::Dropped(Reason::CodePointDiffers));
    }
    hear_in_window(
        alloc,
        window,
        codes,
        lives,
        clock,
        id,
        exts.fti.as_ref(),
        body,
    )
}

/// Hears a packet of an object.
fn hear_object(
    alloc: Global,
    codes: &Codes,
    lives: &mut Lives,
    toi: u128,
    packet: &Packet<'_>,
    body: &Body<'_>,
) -> Result<Happened, Memory>
    ensures { IfOk result (λ h. (t : Table) → Steps t (hear_object (life_of toi lives.old) (packet_seen packet.now) (body_seen body.now) (record t { lives = lives.old })) t.slots lives.new h) }
{
    let Some(place) = lives.place(toi) else {
        return Ok(Happened::Dropped(Reason::Unknown));
    };
    if let Some(reason) = object_reason(&lives.as_slice()[place], packet, body) {
        return Ok(Happened::Dropped(reason));
    }
    lives.learn(codes, place);
    let news = lives.hear(alloc, place, body.sbn, body.esi, body.payload)?;
    Ok(Happened::Heard {
        toi,
        sbn: body.sbn,
        kept: news.kept,
        determined: news.determined,
    })
}

/// What a session is known by, beside its instances and lives.
#[derive(Clone, Copy)]
pub struct Session {
    pub tsi: u64,
    pub clock: u64,
    pub closed: bool,
}

/// Hears a packet, or drops it for the first reason that holds.
pub fn hear_packet(
    alloc: Global,
    window: &mut Window,
    codes: &mut Codes,
    lives: &mut Lives,
    session: Session,
    packet: &Packet<'_>,
) -> Result<Happened, Memory>
    ensures step { IfOk result (λ h. (t : Table) → t.tsi ≡ session.tsi → t.tables ≡ codes.old → t.clock ≡ session.clock → t.closed ≡ session.closed
        → Steps t (hear_packet (packet_seen packet.now) (holding t window.old lives.old)) window.new lives.new h) }
    ensures tables { codes.new ≡ codes.old }
{
    if session.closed {
        return Ok(Happened::Dropped(Reason::Closed));
    }
    if packet.lct.tsi != session.tsi {
        return Ok(Happened::Dropped(Reason::OtherSession));
    }
    let Some(toi) = packet.lct.toi else {
        return Ok(Happened::Dropped(Reason::NoToi));
    };
    let Some(body) = packet.body else {
        return Ok(Happened::Dropped(Reason::NoBody));
    };
    if toi == 0 {
        hear_fdt(alloc, window, codes, lives, session.clock, packet, &body)
    } else {
        hear_object(alloc, codes, lives, toi, packet, &body)
    }
}
