ghost use Rattle.std.specs.Prelude.{◌≡◌, [], ◌∷◌};
ghost use Rattle.mb_rx.specs.Run.{Put, Line};
ghost use Rattle.mb_rx.specs.Steps.{Prints, Puts};

use mb_base::{Failed, Sink, Status, Store};

/// Prints a line.
pub fn print<O: Sink>(out: &mut O, line: &str) -> Result<(), Status>
    ensures printed { Prints (O.written out.old) (O.faults out.old) (O.written out.new) (O.faults out.new) (Line line.now ∷ []) result }
    ensures same { O.made out.new ≡ O.made out.old }
{
    mb_program::print(out, line)
}

/// Puts a file into the store.
pub fn put<S: Store>(store: &mut S, toi: u128, location: &[u8], bytes: &[u8]) -> Result<(), Status>
    ensures put { Puts (S.files store.old) (S.faults store.old) (S.files store.new) (S.faults store.new)
        (Put (record { toi = toi; location = location.now; bytes = bytes.now }) ∷ []) result }
    ensures same { S.made store.new ≡ S.made store.old }
{
    match store.put(toi, location, bytes) {
        Ok(()) => Ok(()),
        Err(Failed) => Err(Status::StoreFault),
    }
}
