ghost use Rattle.std.specs.Prelude.{◌≡◌, None};

use mb_base::{Failed, Memory, Source, StdSource};
use std::alloc::Global;
use std::fs::File;
use std::io::{BufReader, Read};
use std::rt::Files;

/// What a source of a file reads.
#[derive(Drop)]
enum Named<F: Read + Drop> {
    /// No file was named.
    Nothing,
    /// The file could not be opened.
    Unopened,
    Opened(StdSource<BufReader<F>>),
}

/// A source over a file that arguments name. It is empty where they name none, and its reads fail where the file could
/// not be opened. Of its bytes nothing is told.
#[derive(Drop)]
pub struct FileSource<F: Read + Drop> {
    named: Named<F>,
    /// How many reads failed.
    faults: u64,
}

/// The file with this path, if it can be opened.
fn opened<R: Files>(files: &R, path: &[u8]) -> Option<R::File> {
    let path = str::from_utf8(path).ok()?;
    File::open(files, path).ok()
}

impl<F: Read + Drop> FileSource<F> {
    /// The source where no file is named.
    pub fn nothing() -> Self
        ensures { result.faults ≡ 0 }
    {
        FileSource {
            named: Named::Nothing,
            faults: 0,
        }
    }

    /// The source of the file with this path, which can't be opened where it is no text. `Memory` where there is no room
    /// for a buffer.
    pub fn open<R: Files<File = F>>(
        files: &R,
        alloc: Global,
        path: &[u8],
    ) -> Result<FileSource<F>, Memory> {
        let Some(file) = opened(files, path) else {
            return Ok(FileSource {
                named: Named::Unopened,
                faults: 0,
            });
        };
        let Ok(reader) = BufReader::new(alloc, file) else {
            return Err(Memory);
        };
        Ok(FileSource {
            named: Named::Opened(StdSource::new(reader)),
            faults: 0,
        })
    }
}

impl<F: Read + Drop> Source for FileSource<F> {
    type Made = ();

    ghost made = { λ _. tt };

    ghost left = { λ _. None };

    ghost faults = { λ s. s.faults };

    fn read(&mut self, buf: &mut [u8]) -> Result<usize, Failed> {
        let read = match &mut self.named {
            Named::Nothing => Ok(0),
            Named::Unopened => Err(Failed),
            Named::Opened(source) => source.read(buf),
        };
        if read.is_err() {
            self.faults = self.faults.saturating_add(1);
        }
        read
    }

    ghost bytes = { λ _. tt };
}
