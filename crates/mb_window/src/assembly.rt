ghost use Rattle.std.specs.Prelude.{◌≡◌, ℕ, ◌+◌, ◌*◌, ◌-◌, ◌<◌, ◌≤◌, ◌^◌, ◌⊎◌, ◌++◌, take, drop, min, length, IfOk, vec_len};
ghost use Rattle.mb_geom.specs.Partition.{ceiling};
ghost use Rattle.mb_geom.specs.Description.{symbols};
ghost use Rattle.mb_window.specs.Symbols.{keep_at, is_whole, joined};
ghost use Rattle.mb_window.specs.Assembled.{nothing_of};
ghost use Rattle.mb_window.specs.Buffer.{missing_in, keep_run, IsRun};
ghost use Rattle.mb_window.specs.Window.{heard_more};
ghost use Rattle.mb_alc.specs.PacketView.{body_seen};

use crate::geometry::{Geometry, Run};
use mb_alc::Body;
use mb_base::Memory;
use mb_bits::{flip_bit, has_bit, words_for};
use std::alloc::Global;
use std::marker::Model;

/// A text that is put together from its symbols.
#[derive(Drop)]
pub struct Assembly {
    geometry: Geometry,
    /// The text's bytes, where they were heard.
    text: Vec<u8>,
    /// A bit for each symbol, set where the symbol was heard.
    heard: Vec<u64>,
    /// How many symbols were not heard.
    missing: usize,
}

impl Model for Assembly {
    ghost use Rattle.mb_window.specs.Assembled.{Assembled};

    ghost Value = { Assembled };

    ghost use Rattle.mb_window.specs.Buffer.{seen_in, IsBuffer};

    ghost view = { λ a. record { text = a.geometry; kept = seen_in a.geometry a.text.items a.heard.items } };

    ghost invariant = { λ a. IsBuffer a.geometry a.text.items a.heard.items a.missing };
}

impl Assembly {
    /// A text of which nothing was heard. `Memory` where there is no room for it.
    pub fn new(alloc: Global, geometry: Geometry) -> Result<Assembly, Memory>
        ensures { IfOk result (λ a. a ≡ nothing_of geometry) }
    {
        let missing = geometry.symbols();
        let text = vec![in alloc; 0; geometry.length()]?;
        let heard = vec![in alloc; 0; words_for(missing)]?;
        Ok(Assembly {
            geometry,
            text,
            heard,
            missing,
        })
    }

    /// The same once more. `Memory` where there is no room for it.
    pub fn copy(&self, alloc: Global) -> Result<Assembly, Memory>
        ensures { IfOk result (λ a. a ≡ self.now) }
    {
        Ok(Assembly {
            geometry: self.geometry.copy(),
            text: Vec::from_slice(alloc, &self.text)?,
            heard: Vec::from_slice(alloc, &self.heard)?,
            missing: self.missing,
        })
    }

    /// How the text is cut.
    pub fn geometry(&self) -> &Geometry
        ensures { result.now ≡ self.now.text }
    {
        &self.geometry
    }

    /// How many of its symbols were not heard.
    pub fn missing(&self) -> usize
        ensures { result ≡ missing_in self.now.kept }
    {
        self.missing
    }

    /// The bytes of the text and of its bits.
    pub fn buffered(&self) -> u64
        ensures exact { result ≡ self.now.text.length + 8 * ceiling (symbols self.now.text) 64 }
        ensures most { result ≤ 73728 }
    {
        self.geometry.length() as u64 + 8 * words_for(self.geometry.symbols()) as u64
    }

    /// The text, of which each symbol was heard.
    pub fn into_text(self) -> Vec<u8>
        requires { missing_in self.kept ≡ 0 }
        ensures { result.items ≡ joined self.kept }
    {
        let Assembly { text, .. } = self;
        text
    }

    /// Keeps the symbol at a place, unless it was heard before.
    fn keep(&mut self, place: usize, bytes: &[u8])
        requires place { place < symbols self.old.text }
        requires enough { min self.old.text.symbol (self.old.text.length - place * self.old.text.symbol) ≤ length bytes.now }
        requires most { length bytes.now ≤ self.old.text.symbol }
        ensures { self.new ≡ record self.old { kept = keep_at self.old.text place bytes.now self.old.kept } }
    {
        if has_bit(&self.heard, place) {
            return;
        }
        let at = place * self.geometry.symbol();
        let len = self.geometry.symbol().min(self.geometry.length() - at);
        put_at(&mut self.text, at, &bytes[..len]);
        flip_bit(&mut self.heard, place);
        self.missing -= 1;
    }

    /// Keeps the symbols of a payload that were not heard before.
    pub fn hear(&mut self, run: Run, body: &Body<'_>)
        requires { IsRun self.old.text (body_seen body.now) run }
        ensures heard { self.new ≡ heard_more self.old (body_seen body.now) }
        ensures missing { missing_in self.old.kept ≤ missing_in self.new.kept + run.count }
    {
        self.keep_run(run.first, run.count, body.payload);
    }

    /// Keeps so many symbols at consecutive places, whose bytes follow each other.
    fn keep_run(&mut self, first: usize, count: usize, payload: &[u8])
        requires places { first + count ≤ symbols self.old.text }
        requires bytes { min (count * self.old.text.symbol) (self.old.text.length - first * self.old.text.symbol) ≤ length payload.now }
        ensures { self.new ≡ record self.old { kept = keep_run count self.old.text first payload.now self.old.kept } }
    {
        let symbol = self.geometry.symbol();
        let mut place = first;
        let mut left = count;
        let mut rest = payload;
        while left > 0 {
            let (bytes, others) = rest.split_at(symbol.min(rest.len()));
            self.keep(place, bytes);
            rest = others;
            place += 1;
            left -= 1;
        }
    }
}

/// Copies a part of the bytes.
fn put_at(bytes: &mut [u8], at: usize, part: &[u8])
    requires { at + length part.now ≤ length bytes.old }
    ensures { bytes.new ≡ take at bytes.old ++ (part.now ++ drop (at + length part.now) bytes.old) }
{
    bytes[at..at + part.len()].copy_from_slice(part);
}
