ghost use Rattle.std.specs.Prelude.{◌≡◌, IfOk};
ghost use Rattle.mb_outside.specs.Files.{File};

use crate::Bytes;
use mb_outside::Memory;
use std::alloc::Global;
use std::marker::Model;

/// A file that was put, with its own copies of the location and the bytes.
#[derive(Drop)]
pub(crate) struct Entry {
    toi: u128,
    location: Bytes,
    bytes: Bytes,
}

impl Model for Entry {
    ghost Value = { File };

    ghost view = { λ e. record { toi = e.toi; location = e.location; bytes = e.bytes } };
}

impl Entry {
    pub(crate) fn copied(
        alloc: Global,
        toi: u128,
        location: &[u8],
        bytes: &[u8],
    ) -> Result<Self, Memory>
        ensures { IfOk result (λ e. e ≡ record { toi = toi; location = location.now; bytes = bytes.now }) }
    {
        let location = Bytes::from_vec(location.to_vec(alloc)?);
        let bytes = Bytes::from_vec(bytes.to_vec(alloc)?);
        Ok(Entry {
            toi,
            location,
            bytes,
        })
    }

    pub(crate) fn toi(&self) -> u128
        ensures { result ≡ self.now.toi }
    {
        self.toi
    }

    pub(crate) fn location(&self) -> &[u8]
        ensures { result.now ≡ self.now.location }
    {
        self.location.as_slice()
    }

    pub(crate) fn bytes(&self) -> &[u8]
        ensures { result.now ≡ self.now.bytes }
    {
        self.bytes.as_slice()
    }
}
