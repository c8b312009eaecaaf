ghost use Rattle.std.specs.Prelude.{◌≡◌, ℕ, ◌<◌, ◌≤◌, ◌↔◌, Option, length, take, Bool, true, false, IsTrue, IfOk, OnOk, OnErr, IsOk};
ghost use Rattle.mb_outside.specs.Outside.{HasCause, Becomes};
ghost use Rattle.mb_outside.specs.Links.{Traffic, Connects, FailsToConnectOrStopsTelling, Sends, Receives, Breaks};

use crate::Failed;

/// Connections to repair servers, one at a time.
pub trait Links {
    /// Plain data that the implementation chooses and no call changes.
    type Made;

    ghost made: { Self → Self.Made };

    /// Whether a connection stands. This is always told.
    ghost connected: { Self → Bool };

    /// What was sent and answered on each connection, where it is told. Only a `connect` that fails may stop
    /// telling it, as where it finds no room to note the connection.
    ghost traffic: { Self → Option Traffic };

    ghost faults: { Self → ℕ };

    /// Ends an earlier connection, and makes one to `server`.
    fn connect(&mut self, server: u32) -> Result<(), Failed>
        ensures connected { IsTrue (connected self.new) ↔ IsOk result }
        ensures made_one { OnOk result (Becomes (traffic self.old) (traffic self.new) (Connects server)) }
        ensures made_none { OnErr result (FailsToConnectOrStopsTelling server (traffic self.old) (traffic self.new)) }
        ensures cause { HasCause (faults self.old) (faults self.new) result }
        ensures same { made self.new ≡ made self.old };

    /// Sends the first bytes of `buf`, at least one where there is one, and answers how many.
    fn send(&mut self, buf: &[u8]) -> Result<usize, Failed>
        requires { IsTrue (connected self.old) }
        ensures within { IfOk result (λ n. n ≤ length buf.now) }
        ensures some { IfOk result (λ n. 0 < length buf.now → 0 < n) }
        ensures connected { connected self.new ≡ connected self.old }
        ensures sent { IfOk result (λ n. Becomes (traffic self.old) (traffic self.new) (Sends (take n buf.now))) }
        ensures broke { OnErr result (Becomes (traffic self.old) (traffic self.new) (Breaks false)) }
        ensures cause { HasCause (faults self.old) (faults self.new) result }
        ensures same { made self.new ≡ made self.old };

    /// Moves the first bytes that wait into the front of `buf`, and answers how many. Into a `buf` that
    /// is not empty it answers 0 exactly at the end of the answer.
    fn recv(&mut self, buf: &mut [u8]) -> Result<usize, Failed>
        requires { IsTrue (connected self.old) }
        ensures within { IfOk result (λ n. n ≤ length buf.new) }
        ensures connected { connected self.new ≡ connected self.old }
        ensures received { IfOk result (λ n. Becomes (traffic self.old) (traffic self.new) (Receives (length buf.new) (take n buf.new))) }
        ensures broke { OnErr result (Becomes (traffic self.old) (traffic self.new) (Breaks true)) }
        ensures cause { HasCause (faults self.old) (faults self.new) result }
        ensures same { made self.new ≡ made self.old };

    /// Ends the connection, if one stands. It cannot fail.
    fn finish(&mut self)
        ensures connected { connected self.new ≡ false }
        ensures kept { Becomes (traffic self.old) (traffic self.new) (λ old new. new ≡ old) }
        ensures faults { faults self.new ≡ faults self.old }
        ensures same { made self.new ≡ made self.old };
}
