ghost use Rattle.mb_fdt.specs.SlotsView.{slots_of};
ghost use Rattle.mb_fdt.specs.CodingView.{IsCoding};

use crate::known::RootAttribute;
use crate::slots::Slots;
use crate::values::{bytes_in, is_filled, u8_in, u16_in, u32_in};

/// What the root's tag says of the coding of all files, each where it is given and can be read. It is read once,
/// so that a long value costs the same however many files there are.
#[derive(Clone, Copy)]
pub(crate) struct Coding {
    pub(crate) encoded: bool,
    pub(crate) encoding_id: Option<u8>,
    pub(crate) max_block: Option<u32>,
    pub(crate) symbol: Option<u16>,
    pub(crate) info: Option<[u8; 4]>,
}

/// What the values in the root's tag say of the coding.
pub(crate) fn coding_in(slots: &Slots<'_>) -> Coding
    ensures { IsCoding (slots_of slots.now) result }
{
    Coding {
        encoded: is_filled(slots.of_root(RootAttribute::ContentEncoding)),
        encoding_id: u8_in(slots.of_root(RootAttribute::EncodingId)),
        max_block: u32_in(slots.of_root(RootAttribute::MaxBlock)),
        symbol: u16_in(slots.of_root(RootAttribute::Symbol)),
        info: bytes_in(slots.of_root(RootAttribute::Info)),
    }
}
