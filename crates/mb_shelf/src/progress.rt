ghost use Rattle.std.specs.Prelude.{◌≡◌, ◌≤◌, length, IfOk};

use mb_base::{Failed, Source, StdSource};
use std::fs::File;
use std::io::Read;
use std::rt::Files;

/// How far a real file is read.
#[derive(Drop)]
pub(crate) enum Progress<F: Read + Drop> {
    /// It was not opened yet.
    Unopened,
    Opened(StdSource<F>),
    /// It was read to its end, and is closed.
    Ended,
}

/// The file with this path, if it can be opened. A path that is no text can't.
fn opened<R: Files>(files: &R, path: &[u8]) -> Result<R::File, Failed> {
    let Ok(path) = str::from_utf8(path) else {
        return Err(Failed);
    };
    File::open(files, path).map_err(|_| Failed)
}

impl<F: Read + Drop> Progress<F> {
    /// Reads the next bytes of the file with this path, which is opened at the first read and closed at its
    /// end. A file that could not be opened is tried again at the next read.
    pub(crate) fn read<R: Files<File = F>>(
        &mut self,
        files: &R,
        path: &[u8],
        buf: &mut [u8],
    ) -> Result<usize, Failed>
        ensures { IfOk result (λ n. n ≤ length buf.new) }
    {
        if let Progress::Unopened = self {
            *self = Progress::Opened(StdSource::new(opened(files, path)?));
        }
        let Progress::Opened(source) = self else {
            return Ok(0);
        };
        let count = source.read(buf)?;
        if count == 0 && !buf.is_empty() {
            *self = Progress::Ended;
        }
        Ok(count)
    }
}
