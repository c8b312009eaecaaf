ghost use Rattle.std.specs.Prelude.{◌≡◌, ◌≤◌, None, length, vec_len, IfOk};

use crate::Shelf;
use crate::progress::Progress;
use mb_base::{Bytes, Failed, Memory};
use std::alloc::Global;
use std::rt::Files;

/// A shelf of real files. A file is opened at its first read and closed at its end, so a caller that reads one
/// file after another has one open at a time. Of what the files hold nothing is told.
#[derive(Drop)]
pub struct FileShelf<'a, R: Files> {
    files: &'a R,
    paths: &'a [Bytes],
    /// How far each of the files is read.
    progress: Vec<Progress<R::File>>,
    /// How many reads failed.
    faults: u64,
    ghost each: { vec_len progress ≡ length paths.now },
}

impl<'a, R: Files> FileShelf<'a, R> {
    /// The shelf of the files with these paths, of which the first has the number 0. None is opened yet.
    /// `Memory` where there is no room to note how far each is read.
    pub fn new(files: &'a R, alloc: Global, paths: &'a [Bytes]) -> Result<Self, Memory>
        ensures paths { IfOk result (λ s. s.paths.now ≡ paths.now) }
        ensures faults { IfOk result (λ s. s.faults ≡ 0) }
    {
        let mut progress = Vec::with_capacity(alloc, paths.len())?;
        for _ in paths {
            progress.push(Progress::Unopened)?;
        }
        Ok(FileShelf {
            files,
            paths,
            progress,
            faults: 0,
        })
    }

    /// Reads the next bytes of a file, and none past the last file.
    fn read_next(&mut self, file: usize, buf: &mut [u8]) -> Result<usize, Failed>
        ensures within { IfOk result (λ n. n ≤ length buf.new) }
        ensures faults { self.new.faults ≡ self.old.faults }
    {
        let Some(path) = self.paths.get(file) else {
            return Ok(0);
        };
        self.progress[file].read(self.files, path.as_slice(), buf)
    }
}

impl<'a, R: Files> Shelf for FileShelf<'a, R> {
    type Made = ();

    ghost made = { λ _. tt };

    ghost left = { λ _. None };

    ghost faults = { λ s. s.faults };

    /// It fails where the file can't be opened or read: its path is no text, names no file, or names a
    /// folder, or the system refuses it.
    fn read(&mut self, file: u32, buf: &mut [u8]) -> Result<usize, Failed> {
        let read = self.read_next(file as usize, buf);
        if read.is_err() {
            self.faults = self.faults.saturating_add(1);
        }
        read
    }

    ghost bytes = { λ _. tt };
}
