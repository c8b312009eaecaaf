ghost use Rattle.std.specs.Prelude.{◌≡◌, ℕ, ◌<◌, ◌≤◌, Option, List, length, take, IfOk, OnErr};
ghost use Rattle.mb_outside.specs.Outside.{HasCause, Loses, Stays, EndsAt, AreToldBytes};

use crate::Failed;

/// Bytes that come from outside, one after another.
pub trait Source {
    /// Plain data that the implementation chooses and no call changes.
    type Made;

    ghost made: { Self → Self.Made };

    /// The bytes to come, where they are told.
    ghost left: { Self → Option (List ℕ) };

    ghost faults: { Self → ℕ };

    /// Moves the first bytes to come into the front of `buf`, and answers how many they were. Into a
    /// `buf` that is not empty it answers 0 exactly at the end. After `Failed` the bytes to come are as
    /// before.
    fn read(&mut self, buf: &mut [u8]) -> Result<usize, Failed>
        ensures within { IfOk result (λ n. n ≤ length buf.new) }
        ensures moved { IfOk result (λ n. Loses (left self.old) (left self.new) (take n buf.new)) }
        ensures end { IfOk result (λ n. n ≡ 0 → 0 < length buf.new → EndsAt (left self.new)) }
        ensures kept { OnErr result (Stays (left self.old) (left self.new)) }
        ensures cause { HasCause (faults self.old) (faults self.new) result }
        ensures same { made self.new ≡ made self.old };

    /// The law that what is told is bytes.
    ghost bytes: { (source : Self) → AreToldBytes (left source) };
}
