ghost use Rattle.std.specs.Prelude.{◌≡◌, ℕ, ◌≤◌, option_map, length, map, true};
ghost use Rattle.mb_fdt.specs.TextValues.{are_texts};

use crate::known::{FileAttribute, RootAttribute};

/// The most attributes that are read in one tag.
pub(crate) const SLOTS: usize = 11;

/// The values of the attributes that are read in one tag, by their places in the list of their names.
#[derive(Clone, Copy)]
pub(crate) struct Slots<'a> {
    values: [Option<&'a [u8]>; SLOTS],
    count: usize,
    ghost whole: { length values ≡ 11 },
    ghost within: { count ≤ 11 },
    ghost texts: { are_texts (map (λ value. option_map (λ v. v.now) value) values) ≡ true },
}

impl<'a> Slots<'a> {
    ghost use Rattle.std.specs.Prelude.{Some, None, slice_set, replicate, IfSome, IsUtf8};
    ghost use Rattle.mb_fdt_text.specs.Reader.{slot};
    ghost use Rattle.mb_fdt.specs.SlotsView.{slots_of};
    ghost use Rattle.mb_fdt.specs.AttributeView.{root_slot, file_slot};

    /// So many slots without values.
    pub(crate) fn empty(count: usize) -> Self
        requires { count ≤ 11 }
        ensures { slots_of result ≡ replicate count None }
    {
        Slots {
            values: [None; SLOTS],
            count,
        }
    }

    /// The value in a slot, where there is one.
    pub(crate) fn value(&self, place: usize) -> Option<&'a [u8]>
        ensures exact { option_map (λ v. v.now) result ≡ slot (slots_of self.now) place }
        ensures text { IfSome result (λ v. IsUtf8 v.now) }
    {
        if place < self.count {
            self.values[place]
        } else {
            None
        }
    }

    /// The value of an attribute of the root, in whose tag these are the slots.
    pub(crate) fn of_root(&self, attribute: RootAttribute) -> Option<&'a [u8]>
        ensures exact { option_map (λ v. v.now) result ≡ slot (slots_of self.now) (root_slot attribute) }
        ensures text { IfSome result (λ v. IsUtf8 v.now) }
    {
        self.value(attribute.slot())
    }

    /// The value of an attribute of a File element, in whose tag these are the slots.
    pub(crate) fn of_file(&self, attribute: FileAttribute) -> Option<&'a [u8]>
        ensures exact { option_map (λ v. v.now) result ≡ slot (slots_of self.now) (file_slot attribute) }
        ensures text { IfSome result (λ v. IsUtf8 v.now) }
    {
        self.value(attribute.slot())
    }

    /// Puts a value into a slot, where there is such a slot.
    pub(crate) fn put(&mut self, place: usize, value: &'a [u8])
        requires { IsUtf8 value.now }
        ensures { slots_of self.new ≡ slice_set (slots_of self.old) place (Some value.now) }
    {
        if place < SLOTS {
            self.values[place] = Some(value);
        }
    }
}
