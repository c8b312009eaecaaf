ghost use Rattle.std.specs.Prelude.{◌≡◌, ◌+◌, IfOk, IsUtf8};
ghost use Rattle.mb_fdt_text.specs.Reader as definition;
ghost use Rattle.mb_fdt.specs.ReaderView.{reader_of, next_of, IsPlaced, IsWithin, IsByteAt};

use crate::reader::{Next, Reader, syntax};
use crate::token::Token;
use mb_base::Memory;
use mb_xml::is_name_byte;
use std::alloc::Global;

impl<'a> Reader<'a> {
    /// One byte more, behind what was begun before it.
    #[tactic(auto, unfolding(mb_fdt_text::specs::Reader::step))]
    pub(crate) fn step(
        &mut self,
        alloc: Global,
        at: usize,
        byte: u8,
        token: Token<'a>,
    ) -> Result<Next<'a>, Memory>
        requires placed { IsPlaced at token self.old }
        requires here { IsByteAt self.old.text.now at byte }
        requires utf8 { IsUtf8 self.old.text.now }
        ensures exact { IfOk result (λ next. next_of at next self.new ≡ definition.step (reader_of at token.entry self.old) byte) }
        ensures placed { IfOk result (λ next. IsWithin (at + 1) next self.new) }
        ensures text { self.new.text ≡ self.old.text }
    {
        match token {
            Token::Front => Ok(self.front(at, byte)),
            Token::ByteOrderMark { left } => Ok(self.mark(at, byte, left)),
            Token::Between { start } => Ok(self.between(at, byte, start)),
            Token::Opened { start } => Ok(self.opened(at, byte, start)),
            Token::Declares { left } => Ok(self.declares(at, byte, left)),
            Token::Declaration { question } => Ok(self.declaration(at, byte, question)),
            Token::Bang => Ok(self.bang(at, byte)),
            Token::BangDash => Ok(self.dash(at, byte)),
            Token::Banned { left } => Ok(self.banned(at, byte, left)),
            Token::Comment { hyphens } => Ok(self.comment(at, byte, hyphens)),
            Token::ElementName { from } => self.element_name(alloc, at, byte, from),
            Token::InTag => self.spaced(alloc, at, byte),
            Token::AttributeName { from } => Ok(self.attribute_name(at, byte, from)),
            Token::BehindName { slot } => Ok(self.equals(at, byte, slot)),
            Token::BehindEquals { slot } => Ok(self.behind_equals(at, byte, slot)),
            Token::Value { quoted } => Ok(self.value(at, byte, quoted)),
            Token::BehindValue => self.in_tag(alloc, at, byte),
            Token::Slash => self.slash(alloc, at, byte),
            Token::EndName { left } => Ok(self.end_name(at, byte, left)),
            Token::EndSpace => Ok(self.end_space(at, byte)),
        }
    }
}
