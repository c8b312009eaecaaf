ghost use Rattle.std.specs.Prelude.{◌≡◌, ◌<◌, ◌≤◌, find, option_map, IfOk, IfSome, Some};
ghost use Rattle.mb_alc.specs.PacketView.{packet_seen};
ghost use Rattle.mb_life.specs.Life.{Life, is_ready};
ghost use Rattle.mb_machine.specs.Table.{fresh, tick};
ghost use Rattle.mb_machine.specs.Laws.{IsFirstReady};
ghost use Rattle.mb_machine.specs.Packets as packets;
ghost use Rattle.mb_objects.specs.Takes.{Takes};
ghost use Rattle.mb_objects.specs.Bound.{memory_bound, memory_held};

use crate::lives::Lives;
use crate::packets::{Session, hear_packet};
use mb_alc::Packet;
use mb_base::{Gate, Memory};
use mb_life::{Life, Taken};
use mb_machine::Happened;
use mb_tables::Tables;
use mb_way::Codes;
use mb_window::Window;
use std::alloc::Global;
use std::marker::Model;
use std::thread::Threads;

/// Why no life was handed out.
#[derive(Clone, Copy, Debug, PartialEq, Eq)]
pub enum TakeFault {
    /// No life of the TOI is ready.
    NotReady,
    /// There is no room for its file.
    Memory,
}

/// The table of a session. A contract sees that of the definitions.
#[derive(Drop)]
pub struct Table {
    alloc: Global,
    tsi: u64,
    codes: Codes,
    clock: u64,
    closed: bool,
    window: Window,
    lives: Lives,
    expired: u64,
}

impl Model for Table {
    ghost use Rattle.mb_machine.specs.Table.{Table};

    ghost Value = { Table };

    ghost view = { λ t. record { tsi = t.tsi; tables = t.codes; clock = t.clock; closed = t.closed; slots = t.window; lives = t.lives; expired = t.expired } };
}

/// Whether a packet closes the session with this TSI.
fn closes(tsi: u64, packet: &Packet<'_>) -> bool
    ensures { result ≡ packets.closes tsi (packet_seen packet.now) }
{
    packet.lct.tsi == tsi && packet.lct.close_session
}

/// Gives the codes up that no life has, where fewer lives stand than before. A packet that ends none does no more than
/// compare.
fn forget_where_fewer(codes: &mut Codes, before: usize, after: usize)
    ensures { codes.new ≡ codes.old }
{
    if after < before {
        codes.forget_unused();
    }
}

impl Table {
    /// The table of the session with this TSI, which has heard nothing, over the tables of the Raptor code. `Memory`
    /// where there is no room for its window and its index.
    pub fn new(alloc: Global, tsi: u64, tables: Tables) -> Result<Table, Memory>
        ensures { IfOk result (λ table. table ≡ fresh tsi tables) }
    {
        let codes = Codes::new(alloc, tables);
        let window = Window::new(alloc)?;
        let lives = Lives::new(alloc)?;
        Ok(Table {
            alloc,
            tsi,
            codes,
            clock: 0,
            closed: false,
            window,
            lives,
            expired: 0,
        })
    }

    /// Moves the clock to the NTP second `at`, unless it is past it, and ends the lives and the read instances that
    /// stand up to an earlier one.
    pub fn tick(&mut self, at: u64)
        ensures { self.new ≡ tick at self.old }
    {
        self.clock = self.clock.max(at);
        self.window.expire(self.clock);
        let before = self.lives.as_slice().len();
        self.expired = self.expired.saturating_add(self.lives.expire(self.clock));
        forget_where_fewer(&mut self.codes, before, self.lives.as_slice().len());
    }

    /// Moves the clock to the NTP second `at`, and hears a packet of that moment, or drops it for the first reason that
    /// holds. A packet of the session with Close Session closes it, also where it is dropped. It takes memory only for
    /// an FDT Instance, and for a block or a file of which nothing was heard. After `Memory` an instance may have acted
    /// in part.
    pub fn packet(&mut self, at: u64, packet: &Packet<'_>) -> Result<Happened, Memory>
        ensures { IfOk result (λ happened. packets.packet at (packet_seen packet.now) self.old ≡ record { table = self.new; happened = happened }) }
    {
        self.tick(at);
        let session = Session {
            tsi: self.tsi,
            clock: self.clock,
            closed: self.closed,
        };
        let happened = hear_packet(
            self.alloc,
            &mut self.window,
            &mut self.codes,
            &mut self.lives,
            session,
            packet,
        )?;
        self.closed |= closes(self.tsi, packet);
        Ok(happened)
    }

    /// Whether the sender closed the session.
    pub fn is_closed(&self) -> bool
        ensures { result ≡ self.now.closed }
    {
        self.closed
    }

    /// The greatest moment so far, in NTP seconds.
    pub fn clock(&self) -> u64
        ensures { result ≡ self.now.clock }
    {
        self.clock
    }

    /// How many lives ended that were not handed out.
    pub fn expired(&self) -> u64
        ensures { result ≡ self.now.expired }
    {
        self.expired
    }

    /// The lives, in the order in which they started.
    pub fn lives(&self) -> &[Life]
        ensures { result.now ≡ self.now.lives }
    {
        self.lives.as_slice()
    }

    /// The TOI of the first life that is ready.
    pub fn ready(&self) -> Option<u128>
        ensures ready { result ≡ option_map (λ life. life.toi) (find is_ready self.now.lives) }
        ensures first { (life : Life) → find is_ready self.now.lives ≡ Some life → IsFirstReady self.now.lives life }
    {
        self.lives.first_ready()
    }

    /// Hands the life of the TOI out, where it is ready: its file, or both digests where that is damaged. All memory is
    /// taken before any work: after a fault the table is as before.
    ///
    /// # Errors
    ///
    /// `NotReady` exactly where no life of the TOI is ready, and `Memory`.
    pub fn take<R: Threads + Sync, G: Gate>(
        &mut self,
        rt: &R,
        toi: u128,
        workers: u32,
        gate: &G,
    ) -> Result<Taken, TakeFault>
        requires workers { (1 ≤ workers) × (workers ≤ 64) }
        ensures { Takes toi self.old self.new result }
    {
        let Some(place) = self.lives.ready_place(toi) else {
            return Err(TakeFault::NotReady);
        };
        self.lives.tell(&mut self.codes, place);
        let Ok(taken) = self.lives.take(rt, self.alloc, place, workers, gate) else {
            return Err(TakeFault::Memory);
        };
        self.codes.forget_unused();
        Ok(taken)
    }

    /// The bytes of the buffers of its files and instances.
    pub fn buffered(&self) -> u64
        ensures most { result ≤ memory_bound self.now }
        ensures least { memory_held self.now ≤ result }
    {
        self.window.buffered() + self.lives.buffered()
    }
}
