ghost use Rattle.std.specs.Prelude.{◌≡◌, ℕ, ◌<◌, ◌≤◌, None, length, IfOk};

use mb_outside::{Failed, Sink};
use std::io::{self, Write};

/// A sink over a writer of the system. Each write is passed on and flushed at once, so that no line comes
/// late. What a signal interrupted is done again. Of its bytes nothing is told.
#[derive(Drop)]
pub struct StdSink<W: Write + Drop> {
    inner: W,
    /// How many writes failed.
    faults: u64,
}

impl<W: Write + Drop> StdSink<W> {
    /// The sink that appends to `inner`.
    pub fn new(inner: W) -> Self
        ensures { result.faults ≡ 0 }
    {
        StdSink { inner, faults: 0 }
    }
}

/// Writes as the writer does, once more where a signal interrupted it.
fn write_some<W: Write>(inner: &mut W, buf: &[u8]) -> io::Result<usize>
    ensures { IfOk result (λ n. n ≤ length buf.now) }
{
    for _ in 0..u64::MAX {
        match inner.write(buf) {
            Err(error) if error.kind() == io::ErrorKind::Interrupted => {}
            done => return done,
        }
    }
    Err(io::Error::from(io::ErrorKind::Interrupted))
}

/// Flushes as the writer does, once more where a signal interrupted it.
fn flush<W: Write>(inner: &mut W) -> io::Result<()> {
    for _ in 0..u64::MAX {
        match inner.flush() {
            Err(error) if error.kind() == io::ErrorKind::Interrupted => {}
            done => return done,
        }
    }
    Err(io::Error::from(io::ErrorKind::Interrupted))
}

/// Writes the first bytes of `buf` and flushes them. It takes none only where there is none.
fn write_through<W: Write>(inner: &mut W, buf: &[u8]) -> io::Result<usize>
    ensures within { IfOk result (λ n. n ≤ length buf.now) }
    ensures some { IfOk result (λ n. 0 < length buf.now → 0 < n) }
{
    let count = write_some(inner, buf)?;
    if count == 0 && !buf.is_empty() {
        return Err(io::Error::from(io::ErrorKind::WriteZero));
    }
    flush(inner)?;
    Ok(count)
}

impl<W: Write + Drop> Sink for StdSink<W> {
    type Made = ();

    ghost made = { λ _. tt };

    ghost written = { λ _. None };

    ghost faults = { λ s. s.faults };

    fn write(&mut self, buf: &[u8]) -> Result<usize, Failed> {
        match write_through(&mut self.inner, buf) {
            Ok(count) => Ok(count),
            Err(_) => {
                self.faults = self.faults.saturating_add(1);
                Err(Failed)
            }
        }
    }
}
