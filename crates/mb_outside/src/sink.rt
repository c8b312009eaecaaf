ghost use Rattle.std.specs.Prelude.{◌≡◌, ℕ, ◌<◌, ◌≤◌, Option, List, length, take, IfOk, OnOk, OnErr};
ghost use Rattle.mb_outside.specs.Outside.{HasCause, Grows, Stays};

use crate::Failed;

/// Bytes that go outside, one after another.
pub trait Sink {
    /// Plain data that the implementation chooses and no call changes.
    type Made;

    ghost made: { Self → Self.Made };

    /// The bytes that were written, where they are told.
    ghost written: { Self → Option (List ℕ) };

    ghost faults: { Self → ℕ };

    /// Appends the first bytes of `buf`, at least one where there is one, and answers how many they
    /// were. After `Failed` what was written is as before.
    fn write(&mut self, buf: &[u8]) -> Result<usize, Failed>
        ensures within { IfOk result (λ n. n ≤ length buf.now) }
        ensures some { IfOk result (λ n. 0 < length buf.now → 0 < n) }
        ensures appended { IfOk result (λ n. Grows (written self.old) (written self.new) (take n buf.now)) }
        ensures kept { OnErr result (Stays (written self.old) (written self.new)) }
        ensures cause { HasCause (faults self.old) (faults self.new) result }
        ensures same { made self.new ≡ made self.old };
}

/// Appends all of `bytes`. It fails where a call of the sink failed, and then only the first bytes, as
/// many as were taken before, are appended.
pub fn write_all<O: Sink>(out: &mut O, bytes: &[u8]) -> Result<(), Failed>
    ensures written { OnOk result (Grows (O.written out.old) (O.written out.new) bytes.now) }
    ensures part { (n : ℕ) × (n ≤ length bytes.now) × Grows (O.written out.old) (O.written out.new) (take n bytes.now) }
    ensures cause { HasCause (O.faults out.old) (O.faults out.new) result }
    ensures same { O.made out.new ≡ O.made out.old }
{
    let mut at = 0;
    while at < bytes.len() {
        at += out.write(&bytes[at..])?;
    }
    Ok(())
}
