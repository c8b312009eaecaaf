ghost use Rattle.mb_fdt.specs.SlotsView.{slots_of};
ghost use Rattle.mb_fdt.specs.CodingView.{IsCoding};

use crate::coding::Coding;
use crate::slots::Slots;

/// What the root's tag says.
#[derive(Clone, Copy)]
pub(crate) struct RootSays<'a> {
    pub(crate) expires: u64,
    pub(crate) slots: Slots<'a>,
    /// What these values say of the coding of all files.
    pub(crate) coding: Coding,
    ghost read: { IsCoding (slots_of slots) coding },
}

impl RootSays<'_> {
    ghost use Rattle.std.specs.Prelude.{◌≡◌, []};

    /// What a tag without attributes says, but for its Expires.
    pub(crate) fn nothing() -> Self
        ensures { slots_of result.slots ≡ [] }
    {
        RootSays {
            expires: 0,
            slots: Slots::empty(0),
            coding: Coding {
                encoded: false,
                encoding_id: None,
                max_block: None,
                symbol: None,
                info: None,
            },
        }
    }
}
