ghost use Rattle.std.specs.Prelude.{◌≡◌, ℕ, Option};
ghost use Rattle.mb_outside.specs.Outside.{Becomes};

use crate::DatagramBuffer;

/// How many bytes a datagram has at most.
pub const DATAGRAM_MAX: usize = 65_535;

/// What listening to the air gave.
#[derive(Clone, Copy, Debug, PartialEq, Eq)]
pub enum AirEvent {
    /// A datagram of `len` bytes, heard at the moment `at` in NTP seconds.
    Datagram { at: u64, len: usize },
    /// The next record is of a later moment than was asked for.
    Quiet,
    /// No record is left.
    Ended,
    /// No record is left, and the trace ends inside a record whose first byte is at `place`.
    Broken { place: u64 },
    /// The air failed.
    Failed,
}

/// Datagrams that come from outside, each with its moment.
pub trait Air {
    ghost use Rattle.mb_outside.specs.Broadcast.{Broadcast, Hears, IsWithin, EventCause, Rests};

    /// Plain data that the implementation chooses and no call changes.
    type Made;

    ghost made: { Self → Self.Made };

    /// What is on the air, where it is told.
    ghost broadcast: { Self → Option Broadcast };

    ghost faults: { Self → ℕ };

    /// Takes the next record, if its moment is at most `until`, and moves its bytes into the front of
    /// `buf`. Every other answer takes none.
    fn next(&mut self, until: u64, buf: &mut DatagramBuffer) -> AirEvent
        ensures within { IsWithin until result }
        ensures heard { Becomes (broadcast self.old) (broadcast self.new) (Hears until result buf.new) }
        ensures cause { EventCause (faults self.old) (faults self.new) result }
        ensures same { made self.new ≡ made self.old };

    /// Rests until the moment `until`. It takes no record and cannot fail.
    fn rest(&mut self, until: u64)
        ensures rested { Becomes (broadcast self.old) (broadcast self.new) (Rests until) }
        ensures faults { faults self.new ≡ faults self.old }
        ensures same { made self.new ≡ made self.old };
}
