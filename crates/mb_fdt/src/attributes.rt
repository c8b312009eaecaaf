ghost use Rattle.std.specs.Prelude.{◌≡◌, ◌+◌, ◌≤◌, slice_range, length, IsUtf8, is_some, option_and_then};
ghost use Rattle.mb_fdt.specs.SlotsView.{slots_of};
ghost use Rattle.mb_xml.specs.Reference.{referred_further};
ghost use Rattle.mb_xml.specs.ValueStateView.{inside_of};
ghost use Rattle.mb_fdt_text.specs.Reader as definition;
ghost use Rattle.mb_fdt.specs.ReaderView.{reader_at, next_of, quoted_of, IsWithin, IsByteAt, HasRoom, IsBegun};

use crate::reader::{Next, Reader, fault, syntax};
use crate::token::{Quoted, Token};
use mb_fdt_text::FdtKind;
use mb_xml::{Inside, further, is_name_byte, is_space};

impl<'a> Reader<'a> {
    /// Behind the name of an attribute and white space.
    pub(crate) fn equals(&self, at: usize, byte: u8, slot: Option<usize>) -> Next<'a>
        requires { HasRoom self.now }
        ensures exact { next_of at result self.now ≡ definition.equals (reader_at at self.now) slot byte }
        ensures placed { IsWithin (at + 1) result self.now }
    {
        if is_space(byte) {
            Ok(Token::BehindName { slot })
        } else if byte == b'=' {
            Ok(Token::BehindEquals { slot })
        } else {
            syntax(at)
        }
    }

    /// Right behind the name of an attribute.
    pub(crate) fn attribute_named(&self, at: usize, byte: u8, from: usize) -> Next<'a>
        requires room { HasRoom self.now }
        requires begun { from ≤ at }
        requires within { at ≤ length self.now.text.now }
        ensures exact { next_of at result self.now ≡ definition.attribute_named (reader_at at self.now)
            (definition.slot_of (definition.names_read (reader_at at self.now)) (slice_range self.now.text.now from at)) byte }
        ensures placed { IsWithin (at + 1) result self.now }
    {
        let name = &self.text[from..at];
        let slot = self.tag.place(self.path.depth(), name);
        if self.is_given(slot) {
            fault(FdtKind::RepeatedAttribute, self.attribute)
        } else {
            self.equals(at, byte, slot)
        }
    }

    /// In the name of an attribute, or right behind it.
    pub(crate) fn attribute_name(&self, at: usize, byte: u8, from: usize) -> Next<'a>
        requires room { HasRoom self.now }
        requires begun { from ≤ at }
        requires here { IsByteAt self.now.text.now at byte }
        ensures exact { next_of at result self.now
            ≡ definition.next (reader_at at self.now) (definition.AttributeName (slice_range self.now.text.now from at)) byte }
        ensures placed { IsWithin (at + 1) result self.now }
    {
        if is_name_byte(byte) {
            Ok(Token::AttributeName { from })
        } else {
            self.attribute_named(at, byte, from)
        }
    }

    /// Whether the tag has a value for this slot already.
    fn is_given(&self, slot: Option<usize>) -> bool
        ensures { result ≡ is_some (option_and_then (definition.slot (slots_of self.now.slots)) slot) }
    {
        match slot {
            Some(place) => self.slots.value(place).is_some(),
            None => false,
        }
    }

    /// Behind the equals sign of an attribute.
    pub(crate) fn behind_equals(&self, at: usize, byte: u8, slot: Option<usize>) -> Next<'a>
        requires room { HasRoom self.now }
        requires here { IsByteAt self.now.text.now at byte }
        requires utf8 { IsUtf8 self.now.text.now }
        ensures exact { next_of at result self.now ≡ definition.next (reader_at at self.now) (definition.BehindEquals slot) byte }
        ensures placed { IsWithin (at + 1) result self.now }
    {
        if is_space(byte) {
            Ok(Token::BehindEquals { slot })
        } else if byte == b'"' || byte == b'\'' {
            let quoted = Quoted {
                slot,
                quote: byte,
                from: at + 1,
                inside: Inside::Plain,
            };
            Ok(Token::Value { quoted })
        } else {
            syntax(at)
        }
    }

    /// In a value, in no reference.
    fn plain(&mut self, at: usize, byte: u8, quoted: Quoted) -> Next<'a>
        requires begun { IsBegun at quoted self.old }
        requires here { IsByteAt self.old.text.now at byte }
        ensures exact { next_of at result self.new ≡ definition.plain (reader_at at self.old) (quoted_of self.old.text.now at quoted) byte }
        ensures placed { IsWithin (at + 1) result self.new }
        ensures text { self.new.text ≡ self.old.text }
    {
        if byte == quoted.quote {
            self.end_value(at, quoted);
            Ok(Token::BehindValue)
        } else if byte == b'<' {
            syntax(at)
        } else if byte == b'&' && quoted.slot.is_some() {
            Ok(longer(quoted, Inside::begun()))
        } else {
            Ok(longer(quoted, Inside::Plain))
        }
    }

    /// Keeps a value that ends before this place, where it is one that is read.
    fn end_value(&mut self, at: usize, quoted: Quoted)
        requires begun { IsBegun at quoted self.old }
        requires here { IsByteAt self.old.text.now at quoted.quote }
        ensures exact { reader_at at self.new ≡ definition.with_value (reader_at at self.old) (quoted_of self.old.text.now at quoted) }
        ensures text { self.new.text ≡ self.old.text }
    {
        if let Some(place) = quoted.slot {
            let value = &self.text[quoted.from..at];
            self.slots.put(place, value);
        }
    }

    /// In a value, in a reference.
    fn referring(&self, at: usize, byte: u8, quoted: Quoted) -> Next<'a>
        requires begun { IsBegun at quoted self.now }
        requires here { IsByteAt self.now.text.now at byte }
        ensures exact { next_of at result self.now ≡ definition.referring (reader_at at self.now) (quoted_of self.now.text.now at quoted) byte
            (referred_further (inside_of quoted.inside) byte) }
        ensures placed { IsWithin (at + 1) result self.now }
    {
        match further(quoted.inside, byte) {
            Some(inside) => Ok(longer(quoted, inside)),
            None => syntax(at),
        }
    }

    /// In a value.
    pub(crate) fn value(&mut self, at: usize, byte: u8, quoted: Quoted) -> Next<'a>
        requires begun { IsBegun at quoted self.old }
        requires here { IsByteAt self.old.text.now at byte }
        ensures exact { next_of at result self.new ≡ definition.value (reader_at at self.old) (quoted_of self.old.text.now at quoted) (inside_of quoted.inside) byte }
        ensures placed { IsWithin (at + 1) result self.new }
        ensures text { self.new.text ≡ self.old.text }
    {
        match quoted.inside {
            Inside::Plain => self.plain(at, byte, quoted),
            _ => self.referring(at, byte, quoted),
        }
    }
}

/// A value with one byte more, and what is begun in it then.
fn longer<'a>(quoted: Quoted, inside: Inside) -> Token<'a>
    ensures { result ≡ Token.Value (record quoted { inside = inside }) }
{
    let quoted = Quoted {
        slot: quoted.slot,
        quote: quoted.quote,
        from: quoted.from,
        inside,
    };
    Token::Value { quoted }
}
