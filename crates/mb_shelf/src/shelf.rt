ghost use Rattle.std.specs.Prelude.{◌≡◌, ℕ, ◌<◌, ◌≤◌, Option, List, length, take, IfOk, OnErr};
ghost use Rattle.mb_base.specs.Outside.{HasCause, Becomes, Stays};
ghost use Rattle.mb_shelf.specs.Shelf.{LosesAt, FileEndsAt, AreToldFiles};

use mb_base::Failed;

/// Files that are read by their number, counted from 0, each from its first byte to its last.
pub trait Shelf {
    /// Plain data that the implementation chooses and no call changes.
    type Made;

    ghost made: { Self → Self.Made };

    /// The bytes to come of each file, where they are told.
    ghost left: { Self → Option (List (List ℕ)) };

    ghost faults: { Self → ℕ };

    /// Moves the first bytes to come of the file `file` into the front of `buf`, and answers how many they
    /// were. Into a `buf` that is not empty it answers 0 exactly at the end of that file. A number past the
    /// last file reads as a file with no bytes. The bytes to come of the other files are as before, and
    /// after `Failed` those of all files.
    fn read(&mut self, file: u32, buf: &mut [u8]) -> Result<usize, Failed>
        ensures within { IfOk result (λ n. n ≤ length buf.new) }
        ensures moved { IfOk result (λ n. Becomes (left self.old) (left self.new) (LosesAt file (take n buf.new))) }
        ensures end { IfOk result (λ n. n ≡ 0 → 0 < length buf.new → FileEndsAt file (left self.new)) }
        ensures kept { OnErr result (Stays (left self.old) (left self.new)) }
        ensures cause { HasCause (faults self.old) (faults self.new) result }
        ensures same { made self.new ≡ made self.old };

    /// The law that what is told is bytes.
    ghost bytes: { (shelf : Self) → AreToldFiles (left shelf) };
}
