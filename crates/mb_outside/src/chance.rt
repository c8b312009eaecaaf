ghost use Rattle.std.specs.Prelude.{◌≡◌, ℕ, ◌≤◌, Option, List};
ghost use Rattle.mb_outside.specs.Outside.{Becomes};
ghost use Rattle.mb_outside.specs.Chance.{Draws};

/// Random words.
pub trait Chance {
    /// Plain data that the implementation chooses and no call changes.
    type Made;

    ghost made: { Self → Self.Made };

    /// The words to come, where they are told.
    ghost words: { Self → Option (List ℕ) };

    ghost faults: { Self → ℕ };

    /// Takes the next word, and gives 0 where none is left. It never fails.
    fn word(&mut self) -> u32
        ensures drawn { Becomes (words self.old) (words self.new) (Draws result) }
        ensures faults { faults self.old ≤ faults self.new }
        ensures same { made self.new ≡ made self.old };
}
