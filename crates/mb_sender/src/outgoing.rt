ghost use Rattle.std.specs.Prelude.{◌≡◌, ℕ, ◌+◌, ◌<◌, ◌++◌, ◌∷◌, [], OnOk, OnErr};
ghost use Rattle.mb_alc.specs.PacketView.{packet_seen};
ghost use Rattle.mb_alc.specs.Written.{FitsPacket};
ghost use Rattle.mb_sender.specs.Sent.{IsSession, Sends, HasSendCause, records_most, bytes_from};

use crate::fault::SendFault;
use crate::session::Session;
use mb_alc::{Packet, write_packet};
use mb_base::{Memory, Sink, trace_bytes, write_all};
use std::alloc::Global;
use std::marker::Model;

/// How many bytes are held before they are written.
const PIECE: usize = 1 << 16;

/// Records on their way out, which are written in pieces. A contract sees how many there were, and what is held.
#[derive(Drop)]
pub(crate) struct Outgoing {
    /// How many records there were.
    number: u64,
    /// The datagram of the last one.
    datagram: Vec<u8>,
    /// The bytes that are not yet written.
    held: Vec<u8>,
}

impl Model for Outgoing {
    ghost use Rattle.mb_sender.specs.Sent.{Line};

    ghost Value = { Line };

    ghost view = { λ o. record { number = o.number; held = o.held.items } };
}

impl Outgoing {
    /// No record yet.
    pub(crate) fn new(alloc: Global) -> Outgoing
        ensures { result ≡ record { number = 0; held = [] } }
    {
        Outgoing {
            number: 0,
            datagram: Vec::new(alloc),
            held: Vec::new(alloc),
        }
    }

    /// Holds the record of a packet.
    fn hold(&mut self, session: &Session, p: &Packet<'_>) -> Result<(), Memory>
        requires session { IsSession session.now }
        requires number { self.old.number < records_most }
        requires fits { FitsPacket (packet_seen p.now) }
        ensures held { OnOk result (self.new.held ≡ self.old.held ++ bytes_from session.now self.old.number (packet_seen p.now ∷ [])) }
        ensures number { OnOk result (self.new.number ≡ self.old.number + 1) }
        ensures kept { OnErr result (self.new.held ≡ self.old.held) }
    {
        self.datagram.clear();
        write_packet(p, &mut self.datagram)?;
        let at = session.start + self.number / session.rate;
        trace_bytes(at, self.datagram.as_slice(), &mut self.held)?;
        self.number += 1;
        Ok(())
    }

    /// Writes what is held.
    pub(crate) fn flush<O: Sink>(&mut self, session: &Session, out: &mut O) -> Result<(), SendFault>
        ensures sent { Sends session.now (O.written out.old) (O.written out.new) self.old self.new [] result }
        ensures empty { OnOk result (self.new.held ≡ []) }
        ensures cause { HasSendCause (O.faults out.old) (O.faults out.new) result }
        ensures same { O.made out.new ≡ O.made out.old }
    {
        write_all(out, self.held.as_slice())?;
        self.held.clear();
        Ok(())
    }

    /// Sends a packet in the next record.
    pub(crate) fn send<O: Sink>(
        &mut self,
        session: &Session,
        p: &Packet<'_>,
        out: &mut O,
    ) -> Result<(), SendFault>
        requires session { IsSession session.now }
        requires number { self.old.number < records_most }
        requires fits { FitsPacket (packet_seen p.now) }
        ensures sent { Sends session.now (O.written out.old) (O.written out.new) self.old self.new (packet_seen p.now ∷ []) result }
        ensures cause { HasSendCause (O.faults out.old) (O.faults out.new) result }
        ensures same { O.made out.new ≡ O.made out.old }
    {
        self.hold(session, p)?;
        if self.held.len() >= PIECE {
            self.flush(session, out)?;
        }
        Ok(())
    }
}
