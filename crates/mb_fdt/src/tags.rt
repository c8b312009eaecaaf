ghost use Rattle.std.specs.Prelude.{◌≡◌, ◌+◌, ◌≤◌, ℕ, List, [], ◌∷◌, slice_range, length, option_map, IfOk, Ok};
ghost use Rattle.mb_fdt_text.specs.Reader as definition;
ghost use Rattle.mb_fdt.specs.SlotsView.{slots_of};
ghost use Rattle.mb_fdt.specs.PathView.{path_of};
ghost use Rattle.mb_fdt.specs.ReaderView.{reader_at, reader_of, root_of, next_of, IsPlaced, IsWithin, IsByteAt, HasRoom};

use crate::coding::coding_in;
use crate::entry::entry;
use crate::known::{RootAttribute, is_instance};
use crate::reader::{Next, Reader, fault, syntax};
use crate::root::RootSays;
use crate::slots::Slots;
use crate::tag::Tag;
use crate::token::Token;
use crate::values::number_in;
use mb_base::Memory;
use mb_fdt_text::FdtKind;
use mb_xml::{is_name_byte, is_name_start, is_space};
use std::alloc::Global;

/// The most File elements that an instance has.
const MAX_FILES: usize = 1024;

/// The first number that Expires doesn't have (RFC 3926 section 3.4.2, a number of 32 bits).
const EXPIRES_END: u128 = 1 << 32;

impl<'a> Reader<'a> {
    /// The end of a tag, behind which its content begins where the element isn't empty.
    fn leave(&mut self, empty: bool) -> Token<'a>
        requires { HasRoom self.old }
        ensures exact { (at : ℕ) → Ok (reader_of (at + 1) result self.new) ≡ definition.leave (reader_at at self.old) empty }
        ensures placed { (at : ℕ) → IsPlaced at result self.new }
        ensures text { self.new.text ≡ self.old.text }
    {
        if !empty {
            self.path.enter(self.tag.name());
        }
        Token::Between { start: false }
    }

    /// What the root's tag says, which is nothing before it has ended.
    fn root_says(&self) -> RootSays<'a>
        ensures { slots_of result.slots ≡ definition.root_slots (option_map root_of self.now.root) }
    {
        match self.root {
            Some(said) => said,
            None => RootSays::nothing(),
        }
    }

    /// The end of the root's tag.
    fn root_end(&mut self, empty: bool) -> Next<'a>
        requires { HasRoom self.old }
        ensures exact { (at : ℕ) → next_of at result self.new ≡ definition.tag_end (reader_at at self.old) empty [] }
        ensures placed { (at : ℕ) → IsWithin at result self.new }
        ensures text { self.new.text ≡ self.old.text }
    {
        let Some(value) = self.slots.of_root(RootAttribute::Expires) else {
            return fault(FdtKind::NoExpires, self.markup);
        };
        let Some(expires) = number_in(Some(value), EXPIRES_END) else {
            return fault(FdtKind::BadExpires, self.markup);
        };
        self.root = Some(RootSays {
            expires: expires as u64,
            slots: self.slots,
            coding: coding_in(&self.slots),
        });
        Ok(self.leave(empty))
    }

    /// The end of the tag of a child of the root.
    fn child_end(&mut self, alloc: Global, empty: bool) -> Result<Next<'a>, Memory>
        requires { HasRoom self.old }
        ensures exact { IfOk result (λ next. (root : List ℕ) (at : ℕ) → next_of at next self.new ≡ definition.tag_end (reader_at at self.old) empty (root ∷ [])) }
        ensures placed { IfOk result (λ next. (at : ℕ) → IsWithin at next self.new) }
        ensures text { self.new.text ≡ self.old.text }
    {
        if self.tag.is_file() {
            let entry = entry(alloc, &self.root_says(), &self.slots)?;
            self.files.push(entry)?;
        }
        Ok(Ok(self.leave(empty)))
    }

    /// The end of a tag.
    fn tag_end(&mut self, alloc: Global, empty: bool) -> Result<Next<'a>, Memory>
        requires { HasRoom self.old }
        ensures exact { IfOk result (λ next. (at : ℕ) → next_of at next self.new ≡ definition.tag_end (reader_at at self.old) empty (path_of self.old.path)) }
        ensures placed { IfOk result (λ next. (at : ℕ) → IsWithin at next self.new) }
        ensures text { self.new.text ≡ self.old.text }
    {
        match self.path.depth() {
            0 => Ok(self.root_end(empty)),
            1 => self.child_end(alloc, empty),
            _ => Ok(Ok(self.leave(empty))),
        }
    }

    /// Behind a name or a value in a tag.
    pub(crate) fn in_tag(&mut self, alloc: Global, at: usize, byte: u8) -> Result<Next<'a>, Memory>
        requires { HasRoom self.old }
        ensures exact { IfOk result (λ next. next_of at next self.new ≡ definition.in_tag (reader_at at self.old) byte) }
        ensures placed { IfOk result (λ next. IsWithin (at + 1) next self.new) }
        ensures text { self.new.text ≡ self.old.text }
    {
        if is_space(byte) {
            Ok(Ok(Token::InTag))
        } else if byte == b'/' {
            Ok(Ok(Token::Slash))
        } else if byte == b'>' {
            self.tag_end(alloc, false)
        } else {
            Ok(syntax(at))
        }
    }

    /// Behind white space in a tag.
    pub(crate) fn spaced(&mut self, alloc: Global, at: usize, byte: u8) -> Result<Next<'a>, Memory>
        requires room { HasRoom self.old }
        requires here { IsByteAt self.old.text.now at byte }
        ensures exact { IfOk result (λ next. next_of at next self.new ≡ definition.next (reader_at at self.old) definition.InTag byte) }
        ensures placed { IfOk result (λ next. IsWithin (at + 1) next self.new) }
        ensures text { self.new.text ≡ self.old.text }
    {
        if !is_name_start(byte) {
            return self.in_tag(alloc, at, byte);
        }
        self.attribute = at;
        Ok(Ok(Token::AttributeName { from: at }))
    }

    /// Right behind the name of an element.
    pub(crate) fn named(
        &mut self,
        alloc: Global,
        at: usize,
        byte: u8,
        from: usize,
    ) -> Result<Next<'a>, Memory>
        requires room { HasRoom self.old }
        requires begun { from ≤ at }
        requires within { at ≤ length self.old.text.now }
        ensures exact { IfOk result (λ next. next_of at next self.new ≡ definition.named (reader_at at self.old) (slice_range self.old.text.now from at) byte) }
        ensures placed { IfOk result (λ next. IsWithin (at + 1) next self.new) }
        ensures text { self.new.text ≡ self.old.text }
    {
        let tag = Tag::new(&self.text[from..at]);
        let depth = self.path.depth();
        if depth == 0 && !is_instance(tag.name()) {
            return Ok(syntax(at));
        }
        if depth == 1 && tag.is_file() && self.files.len() >= MAX_FILES {
            return Ok(fault(FdtKind::TooManyFiles, self.markup));
        }
        self.slots = Slots::empty(tag.slot_count(depth));
        self.tag = tag;
        self.in_tag(alloc, at, byte)
    }

    /// In the name of an element, or right behind it.
    pub(crate) fn element_name(
        &mut self,
        alloc: Global,
        at: usize,
        byte: u8,
        from: usize,
    ) -> Result<Next<'a>, Memory>
        requires room { HasRoom self.old }
        requires begun { from ≤ at }
        requires here { IsByteAt self.old.text.now at byte }
        ensures exact { IfOk result (λ next. next_of at next self.new
            ≡ definition.next (reader_at at self.old) (definition.ElementName (slice_range self.old.text.now from at)) byte) }
        ensures placed { IfOk result (λ next. IsWithin (at + 1) next self.new) }
        ensures text { self.new.text ≡ self.old.text }
    {
        if !is_name_byte(byte) {
            return self.named(alloc, at, byte, from);
        }
        Ok(Ok(Token::ElementName { from }))
    }

    /// Behind `/` in a tag.
    pub(crate) fn slash(&mut self, alloc: Global, at: usize, byte: u8) -> Result<Next<'a>, Memory>
        requires { HasRoom self.old }
        ensures exact { IfOk result (λ next. next_of at next self.new ≡ definition.next (reader_at at self.old) definition.Slash byte) }
        ensures placed { IfOk result (λ next. IsWithin (at + 1) next self.new) }
        ensures text { self.new.text ≡ self.old.text }
    {
        if byte == b'>' {
            self.tag_end(alloc, true)
        } else {
            Ok(syntax(at))
        }
    }

    /// In an end tag, whose name has these bytes to come.
    pub(crate) fn end_name(&mut self, at: usize, byte: u8, left: &'a [u8]) -> Next<'a>
        ensures exact { next_of at result self.new ≡ definition.end_name (reader_at at self.old) left.now byte }
        ensures placed { IsWithin (at + 1) result self.new }
        ensures text { self.new.text ≡ self.old.text }
    {
        match left {
            [] => self.end_space(at, byte),
            [first, rest @ ..] if *first == byte => Ok(Token::EndName { left: rest }),
            _ => syntax(at),
        }
    }

    /// In an end tag, behind its name.
    pub(crate) fn end_space(&mut self, at: usize, byte: u8) -> Next<'a>
        ensures exact { next_of at result self.new ≡ definition.end_space (reader_at at self.old) byte }
        ensures placed { IsWithin (at + 1) result self.new }
        ensures text { self.new.text ≡ self.old.text }
    {
        if is_space(byte) {
            Ok(Token::EndSpace)
        } else if byte == b'>' {
            self.path.leave();
            Ok(Token::Between { start: false })
        } else {
            syntax(at)
        }
    }
}
