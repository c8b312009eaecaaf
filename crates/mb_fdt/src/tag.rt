ghost use Rattle.std.specs.Prelude.{◌≡◌, [], length};
ghost use Rattle.mb_fdt_text.specs.Known as known;

use crate::known;
use crate::known::{file_place, root_place};

/// The name of a tag, and whether it is that of a File element, where the element is a child of the root.
#[derive(Clone, Copy)]
pub(crate) struct Tag<'a> {
    name: &'a [u8],
    is_file: bool,
    ghost known: { is_file ≡ known.is_file name.now },
}

impl<'a> Tag<'a> {
    ghost use Rattle.std.specs.Prelude.{◌≤◌};
    ghost use Rattle.mb_fdt_text.specs.Reader.{slot_of};
    ghost use Rattle.mb_fdt_text.specs.Known.{read_names};

    /// The tag of this name.
    pub(crate) fn new(name: &'a [u8]) -> Self
        ensures { result.name.now ≡ name.now }
    {
        let is_file = known::is_file(name);
        Tag { name, is_file }
    }

    /// The name.
    pub(crate) fn name(&self) -> &'a [u8]
        ensures { result.now ≡ self.now.name.now }
    {
        self.name
    }

    /// Whether the tag is that of a File element, where the element is a child of the root.
    pub(crate) fn is_file(&self) -> bool
        ensures { result ≡ known.is_file self.now.name.now }
    {
        self.is_file
    }

    /// How many attributes are read in the tag of an element inside so many others.
    pub(crate) fn slot_count(&self, around: usize) -> usize
        ensures exact { result ≡ length (read_names around self.now.name.now) }
        ensures most { result ≤ 11 }
    {
        match around {
            0 => 8,
            1 if self.is_file => 11,
            _ => 0,
        }
    }

    /// Where an attribute stands among those that are read in the tag of an element inside so many others.
    pub(crate) fn place(&self, around: usize, attribute: &[u8]) -> Option<usize>
        ensures { result ≡ slot_of (read_names around self.now.name.now) attribute.now }
    {
        match around {
            0 => root_place(attribute),
            1 if self.is_file => file_place(attribute),
            _ => None,
        }
    }
}
