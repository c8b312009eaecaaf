ghost use Rattle.std.specs.Prelude.{◌≡◌, ◌≤◌, IfOk, OnErr};
ghost use Rattle.mb_alc.specs.PacketView.{body_seen};
ghost use Rattle.mb_window.specs.Buffer.{IsRun};
ghost use Rattle.mb_window.specs.Turn.{IsTurn};
ghost use Rattle.mb_window.specs.Window.{text_in, is_expired, buffer_of};

use crate::assembly::Assembly;
use crate::geometry::{Geometry, Run};
use mb_alc::Body;
use mb_base::Memory;
use std::alloc::Global;

/// What is known of an instance's text.
#[derive(Drop)]
pub enum State {
    /// It was read, and stands until the NTP second `expires`.
    Read { geometry: Geometry, expires: u64 },
    /// Some of its symbols were heard.
    Heard(Assembly),
}

/// An instance in the window.
#[derive(Drop)]
pub struct Slot {
    pub id: u32,
    pub state: State,
}

/// What a packet did to an instance's state.
#[derive(Drop)]
pub enum Turn {
    /// Nothing, since the text was read.
    Done,
    /// Its symbols were kept, and one is still missing.
    Kept,
    /// Nothing, since the text may be whole with its symbols: here they are kept in a copy.
    Copied(Assembly),
}

impl State {
    /// How the text is cut.
    pub fn geometry(&self) -> &Geometry
        ensures { result.now ≡ text_in self.now }
    {
        match self {
            State::Read { geometry, .. } => geometry,
            State::Heard(assembly) => assembly.geometry(),
        }
    }

    /// Hears the symbols of a payload. `Memory` where there is no room for a copy.
    pub fn hear(&mut self, alloc: Global, run: Run, body: &Body<'_>) -> Result<Turn, Memory>
        requires { IsRun (text_in self.old) (body_seen body.now) run }
        ensures turn { IfOk result (IsTurn self.old (body_seen body.now) self.new) }
        ensures refused { OnErr result (self.new ≡ self.old) }
    {
        let State::Heard(assembly) = self else {
            return Ok(Turn::Done);
        };
        if run.count < assembly.missing() {
            assembly.hear(run, body);
            return Ok(Turn::Kept);
        }
        let mut copy = assembly.copy(alloc)?;
        copy.hear(run, body);
        Ok(Turn::Copied(copy))
    }

    /// Whether it was read and expired before `clock`.
    pub fn is_expired(&self, clock: u64) -> bool
        ensures { result ≡ is_expired clock self.now }
    {
        match self {
            State::Read { expires, .. } => *expires < clock,
            State::Heard(_) => false,
        }
    }

    /// The bytes of a text that is put together, and of its bits.
    pub fn buffered(&self) -> u64
        ensures exact { result ≡ buffer_of self.now }
        ensures most { result ≤ 73728 }
    {
        match self {
            State::Read { .. } => 0,
            State::Heard(assembly) => assembly.buffered(),
        }
    }
}
