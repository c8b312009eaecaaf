ghost use Rattle.std.specs.Prelude.{◌≡◌, IfOk};
ghost use Rattle.mb_base.specs.Broadcast.{Record};
ghost use Rattle.mb_rx.specs.Receiver.{fresh, step};
ghost use Rattle.mb_rx.specs.ValueView.{seen};

use crate::faults::Faults;
use mb_alc::read_packet;
use mb_base::Memory;
use mb_machine::{Drops, Happened};
use mb_objects::Table;
use mb_tables::Tables;
use std::alloc::Global;

/// The table of a session, and how many of its datagrams were no packet or were dropped.
#[derive(Drop)]
pub struct Receiver {
    pub table: Table,
    pub faults: Faults,
    pub drops: Drops,
}

impl Receiver {
    /// The receiver of the session with this TSI, which has heard nothing, with these tables of the Raptor code.
    /// `Memory` where there is no room for its table.
    pub fn new(alloc: Global, tsi: u64, tables: Tables) -> Result<Receiver, Memory>
        ensures { IfOk result (λ receiver. seen receiver ≡ fresh tsi tables) }
    {
        Ok(Receiver {
            table: Table::new(alloc, tsi, tables)?,
            faults: Faults::NONE,
            drops: Drops::none(),
        })
    }

    /// Hears a datagram of the NTP second `at`, and answers what its packet did, where it is one. A datagram that is
    /// no packet moves the clock and is counted by its fault, and a packet that is dropped by its reason.
    pub fn hear(&mut self, at: u64, bytes: &[u8]) -> Result<Option<Happened>, Memory>
        ensures { IfOk result (λ happened. step (seen self.old) (record { at = at; bytes = bytes.now }) ≡ record { receiver = seen self.new; happened = happened }) }
    {
        let packet = match read_packet(bytes) {
            Ok(packet) => packet,
            Err(fault) => {
                self.table.tick(at);
                self.faults = self.faults.counted(fault.kind());
                return Ok(None);
            }
        };
        let happened = self.table.packet(at, &packet)?;
        if let Happened::Dropped(reason) = happened {
            self.drops = self.drops.counted(reason);
        }
        Ok(Some(happened))
    }
}
