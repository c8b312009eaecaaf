ghost use Rattle.std.specs.Prelude.{◌≡◌, ◌≤◌, None, length, IfOk};

use mb_outside::{Failed, Source};
use std::io::{self, Read};

/// A source over a reader of the system. A read that a signal interrupted is made again. Of its bytes nothing is
/// told.
#[derive(Drop)]
pub struct StdSource<R: Read + Drop> {
    inner: R,
    /// How many reads failed.
    faults: u64,
}

impl<R: Read + Drop> StdSource<R> {
    /// The source of what `inner` has left.
    pub fn new(inner: R) -> Self
        ensures { result.faults ≡ 0 }
    {
        StdSource { inner, faults: 0 }
    }
}

/// Reads as the reader does, once more where a signal interrupted it.
fn read_through<R: Read>(inner: &mut R, buf: &mut [u8]) -> io::Result<usize>
    ensures { IfOk result (λ n. n ≤ length buf.new) }
{
    for _ in 0..u64::MAX {
        match inner.read(buf) {
            Err(error) if error.kind() == io::ErrorKind::Interrupted => {}
            done => return done,
        }
    }
    Err(io::Error::from(io::ErrorKind::Interrupted))
}

impl<R: Read + Drop> Source for StdSource<R> {
    type Made = ();

    ghost made = { λ _. tt };

    ghost left = { λ _. None };

    ghost faults = { λ s. s.faults };

    fn read(&mut self, buf: &mut [u8]) -> Result<usize, Failed> {
        match read_through(&mut self.inner, buf) {
            Ok(count) => Ok(count),
            Err(_) => {
                self.faults = self.faults.saturating_add(1);
                Err(Failed)
            }
        }
    }

    ghost bytes = { λ _. tt };
}
