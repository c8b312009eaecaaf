ghost use Rattle.std.specs.Prelude.{◌≡◌, ◌↔◌, ℕ, List, [], ◌∷◌, ◌++◌, ◌+◌, ◌*◌, ◌/◌, ◌<◌, ◌≤◌, ◌^◌, ◌==◌, Bool, true, false, length, slice_index, IfOk};
ghost use Rattle.mb_linear.specs.Row.{AreRows};
ghost use Rattle.mb_linear.specs.Span.{IsSumOf, AreIndependent};
ghost use Rattle.mb_bits.specs.BitRow.{row_of};
ghost use Rattle.mb_elim.specs.Offered.{Offered};
ghost use Rattle.mb_elim.specs.Values.{AreSums, AreUnknowns};

use crate::reduce::{reduce, take_row};
use crate::replay::{put_by_pivots, reduce_values, solve_values};
use mb_base::Memory;
use mb_bits::{first_bit, words_for};
use std::alloc::Global;
use std::marker::Model;

/// What an offered row was.
#[derive(Clone, Copy, Debug, PartialEq, Eq)]
pub enum Offer {
    /// No sum of the rows before it, and the new row of this number, counted from 0.
    New(u16),
    /// A sum of rows before it.
    Determined,
}

/// Rows of bits that were offered, as far as they were new. A contract sees the new rows as they came.
#[derive(Drop)]
pub struct Elim {
    places: u16,
    /// How many rows were new.
    rank: u16,
    /// The new rows, each reduced by those before it.
    rows: Vec<u64>,
    /// For each of them, which of the reduced rows before it were added to it.
    masks: Vec<u64>,
    /// For each of them, its first place that is set.
    pivots: Vec<u16>,
}

impl Model for Elim {
    ghost use Rattle.std.specs.Prelude.{◌+◌, ◌/◌};
    ghost use Rattle.mb_elim.specs.Offered.{Offered};
    ghost use Rattle.mb_elim.specs.Kept.{IsKept, offered_of};

    ghost Value = { Offered };

    ghost view = { λ e. offered_of e.places ((e.places + 63) / 64) e.rank e.rows.items e.masks.items };

    ghost invariant = { λ e. IsKept e.places ((e.places + 63) / 64) e.rank e.rows.items e.masks.items e.pivots.items };
}

// Words that are all zero.
fn zero_words(alloc: Global, count: usize) -> Result<Vec<u64>, Memory>
    ensures { IfOk result (λ words. length words.items ≡ count) }
{
    Ok(vec![in alloc; 0; count]?)
}

// Places that are all the first.
fn first_places(alloc: Global, count: usize) -> Result<Vec<u16>, Memory>
    ensures count { IfOk result (λ places. length places.items ≡ count) }
    ensures first { IfOk result (λ places. (i : ℕ) → slice_index places.items i ≡ 0) }
{
    Ok(vec![in alloc; 0; count]?)
}

impl Elim {
    /// An elimination of rows of so many places that was offered none. It takes all its memory here.
    ///
    /// # Errors
    ///
    /// `Memory` where there is no room for it.
    pub fn new(alloc: Global, places: u16) -> Result<Elim, Memory>
        requires some { 1 ≤ places }
        requires most { places ≤ 8192 }
        ensures { IfOk result (λ e. e ≡ record { places = places; news = [] }) }
    {
        let count = places as usize;
        let rows = zero_words(alloc, words_for(count) * count)?;
        let masks = zero_words(alloc, words_for(count * (count + 1) / 2))?;
        let pivots = first_places(alloc, count)?;
        Ok(Elim {
            places,
            rank: 0,
            rows,
            masks,
            pivots,
        })
    }

    /// How many places its rows have.
    pub fn places(&self) -> u16
        ensures { result ≡ self.now.places }
    {
        self.places
    }

    /// How many rows were new.
    pub fn rank(&self) -> u16
        ensures count { result ≡ length self.now.news }
        ensures few { result ≤ self.now.places }
        ensures rows { AreRows self.now.places self.now.news }
        ensures independent { AreIndependent self.now.places self.now.news }
    {
        self.rank
    }

    /// Whether as many rows were new as they have places: then each row is a sum of them.
    pub fn is_full(&self) -> bool
        ensures count { result ≡ (length self.now.news == self.now.places) }
        ensures all { result ≡ true → (row : List Bool) → length row ≡ self.now.places → IsSumOf self.now.places self.now.news row }
    {
        self.rank == self.places
    }

    /// Takes a row, and says whether it is a sum of rows that were offered before. Place i is bit `i % 64` of word
    /// `i / 64`; what lies behind the last place is not looked at.
    pub fn offer(&mut self, row: &[u64]) -> Offer
        requires words { length row.now ≡ (self.old.places + 63) / 64 }
        ensures determined { result ≡ Offer.Determined ↔ IsSumOf self.old.places self.old.news (row_of self.old.places row.now) }
        ensures places { self.new.places ≡ self.old.places }
        ensures same { result ≡ Offer.Determined → self.new ≡ self.old }
        ensures new { (n : ℕ) → result ≡ Offer.New n → n ≡ length self.old.news }
        ensures added { (n : ℕ) → result ≡ Offer.New n → self.new ≡ record { places = self.old.places; news = self.old.news ++ row_of self.old.places row.now ∷ [] } }
    {
        let rank = self.rank;
        if rank == self.places {
            return Offer::Determined;
        }
        if take_row(
            &mut self.rows,
            &mut self.masks,
            &mut self.pivots,
            rank,
            self.places,
            row,
        ) {
            self.rank = rank + 1;
            Offer::New(rank)
        } else {
            Offer::Determined
        }
    }

    /// Whether `offer` would answer `New`. It works in `scratch`.
    pub fn would_be_new(&self, row: &[u64], scratch: &mut [u64]) -> bool
        requires words { length row.now ≡ (self.now.places + 63) / 64 }
        requires scratch { length scratch.old ≡ length row.now }
        ensures sum { result ≡ false ↔ IsSumOf self.now.places self.now.news (row_of self.now.places row.now) }
        ensures scratch { length scratch.new ≡ length scratch.old }
    {
        let rank = self.rank as usize;
        scratch.copy_from_slice(row);
        reduce(
            scratch,
            &self.rows[..row.len() * rank],
            &self.pivots[..rank],
        );
        match first_bit(scratch) {
            Some(place) if place < self.places as usize => true,
            _ => false,
        }
    }

    /// An elimination that was offered the same rows.
    ///
    /// # Errors
    ///
    /// `Memory` where there is no room for it.
    pub fn copy(&self, alloc: Global) -> Result<Elim, Memory>
        ensures { IfOk result (λ e. e ≡ self.now) }
    {
        Ok(Elim {
            places: self.places,
            rank: self.rank,
            rows: self.rows.to_vec(alloc)?,
            masks: self.masks.to_vec(alloc)?,
            pivots: self.pivots.to_vec(alloc)?,
        })
    }

    /// Makes of a stripe of values, `width` bytes for each new row in the order in which they came, the values of
    /// the unknowns: where row n was the sum of the unknowns at the places of the n-th new row, row i is then
    /// unknown i. It takes no memory.
    pub fn replay(&self, stripe: &mut [u8], width: usize)
        requires full { length self.now.news ≡ self.now.places }
        requires stripe { length stripe.old ≡ width * self.now.places }
        ensures count { length stripe.new ≡ length stripe.old }
        ensures unknowns { (unknowns : List (List ℕ)) → length unknowns ≡ self.now.places → AreSums width self.now.news unknowns stripe.old → AreUnknowns width unknowns stripe.new }
    {
        let count = self.places as usize;
        reduce_values(stripe, &self.masks, count, width);
        solve_values(stripe, &self.rows, &self.pivots, words_for(count), width);
        put_by_pivots(stripe, &self.pivots, width);
    }
}
