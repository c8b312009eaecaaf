ghost use Rattle.std.specs.Prelude.{◌≡◌, ℕ, Option, List, [], ◌∷◌, OnOk, OnErr};
ghost use Rattle.mb_outside.specs.Outside.{HasCause, Grows, Stays};
ghost use Rattle.mb_outside.specs.Files.{File};

use crate::Failed;

/// Where files are put.
pub trait Store {
    /// Plain data that the implementation chooses and no call changes.
    type Made;

    ghost made: { Self → Self.Made };

    /// The files that were put, in order, where they are told.
    ghost files: { Self → Option (List File) };

    ghost faults: { Self → ℕ };

    /// Puts the file of the object `toi`. After `Failed` the files are as before.
    fn put(&mut self, toi: u128, location: &[u8], bytes: &[u8]) -> Result<(), Failed>
        ensures put { OnOk result (Grows (files self.old) (files self.new)
            (record { toi = toi; location = location.now; bytes = bytes.now } ∷ [])) }
        ensures kept { OnErr result (Stays (files self.old) (files self.new)) }
        ensures cause { HasCause (faults self.old) (faults self.new) result }
        ensures same { made self.new ≡ made self.old };
}
