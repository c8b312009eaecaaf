ghost use Rattle.std.specs.Prelude.{◌≡◌, ◌≢◌, ℕ, ◌+◌, ◌-◌, ◌*◌, ◌/◌, ◌<◌, ◌≤◌, ◌^◌, ◌==◌, ◌&&◌, Bool, false, length, nat_lt, IfOk};
ghost use Rattle.mb_linear.specs.Row.{plus};
ghost use Rattle.mb_bits.specs.BitRow.{bit_in};
ghost use Rattle.mb_rows.specs.Places.{is_odd_in, is_odd_over};
ghost use Rattle.mb_rows.specs.Constraints.{ldpc_of, in_ldpc, in_half};
ghost use Rattle.mb_rows.specs.Folding.{half_set, symbol_set};
ghost use Rattle.mb_rows.specs.Walk.{taken};
ghost use Rattle.mb_rows.specs.Kept.{kept_bit, known_bit, AreFolded};

use crate::Triple;
use crate::constraint::{ldpc_of, put_half};
use crate::walk::{first_below, next};
use mb_base::Memory;
use mb_bits::{add_row, flip_bit, has_bit, words_for};
use std::alloc::Global;

/// Adds the source places of an intermediate symbol to those of others. The LDPC and half symbols are looked up
/// among those that are kept.
pub(crate) fn add_symbol(k: u16, folded: &[u64], symbol: u16, out: &mut [u64])
    requires source { k ≤ 64 * length out.old }
    requires kept { k ≤ symbol → length out.old * (symbol - k) + length out.old ≤ length folded.now }
    ensures places { (place : ℕ) → bit_in out.new place ≡ plus (known_bit k (length out.old) folded.now symbol place) (bit_in out.old place) }
    ensures words { length out.new ≡ length out.old }
{
    if symbol < k {
        flip_bit(out, usize::from(symbol));
    } else {
        let width = out.len();
        let at = width * usize::from(symbol - k);
        add_row(out, &folded[at..at + width], 0);
    }
}

// As `add_symbol`, where it is to be.
fn add_if(k: u16, folded: &[u64], symbol: u16, chosen: bool, out: &mut [u64])
    requires source { k ≤ 64 * length out.old }
    requires kept { k ≤ symbol → length out.old * (symbol - k) + length out.old ≤ length folded.now }
    ensures places { (place : ℕ) → bit_in out.new place ≡ plus (chosen && known_bit k (length out.old) folded.now symbol place) (bit_in out.old place) }
    ensures words { length out.new ≡ length out.old }
{
    if chosen {
        add_symbol(k, folded, symbol, out);
    }
}

// Sets or clears a place of one of the symbols that are kept.
fn flip_kept(r: u16, place: u16, width: usize, folded: &mut [u64])
    requires within { place < 64 * width }
    requires words { width * r + width ≤ length folded.old }
    requires fits { 64 * length folded.old < 2 ^ 64 }
    ensures bits { (q i : ℕ) → i < 64 * width → kept_bit width folded.new q i ≡ plus ((place == i) && (r == q)) (kept_bit width folded.old q i) }
    ensures words { length folded.new ≡ length folded.old }
{
    flip_bit(folded, 64 * (width * usize::from(r)) + usize::from(place));
}

// Adds source symbol i to the three LDPC symbols that it is added to.
fn add_to_ldpc(s: u16, i: u16, width: usize, folded: &mut [u64])
    requires some { 2 ≤ s }
    requires few { s ≤ 512 }
    requires source { i < 64 * width }
    requires words { width * s ≤ length folded.old }
    requires fits { 64 * length folded.old < 2 ^ 64 }
    ensures own { (r place : ℕ) → place < 64 * width → kept_bit width folded.new r place ≡ plus ((i == place) && in_ldpc s r i) (kept_bit width folded.old r place) }
    ensures words { length folded.new ≡ length folded.old }
{
    let [first, second, third] = ldpc_of(s, i);
    flip_kept(first, i, width, folded);
    flip_kept(second, i, width, folded);
    flip_kept(third, i, width, folded);
}

// Puts the source symbols to the LDPC symbols that they are added to, of which none has any yet.
fn fold_ldpc(k: u16, s: u16, width: usize, folded: &mut [u64])
    requires some { 2 ≤ s }
    requires few { s ≤ 512 }
    requires source { k ≤ 64 * width }
    requires words { width * s ≤ length folded.old }
    requires fits { 64 * length folded.old < 2 ^ 64 }
    requires none { (place : ℕ) → bit_in folded.old place ≡ false }
    ensures symbols { (h : ℕ) → AreFolded k s h s width folded.new }
    ensures words { length folded.new ≡ length folded.old }
{
    for i in 0..k {
        add_to_ldpc(s, i, width, folded);
    }
}

// Adds up the source and LDPC symbols that are added to half symbol i.
fn fold_half(k: u16, s: u16, h: u16, i: u16, folded: &[u64], scratch: &mut [u64], out: &mut [u64])
    requires few { h ≤ 16 }
    requires which { i < h }
    requires sum { k + s < 2 ^ 16 }
    requires source { k ≤ 64 * length out.old }
    requires kept { length out.old * s ≤ length folded.now }
    requires ldpc { AreFolded k s h s (length out.old) folded.now }
    requires scratch { k + s ≤ 64 * length scratch.old }
    ensures places { (place : ℕ) → bit_in out.new place ≡ half_set k s h i place }
    ensures words { length out.new ≡ length out.old }
    ensures scratch_words { length scratch.new ≡ length scratch.old }
{
    put_half(h, k + s, i, scratch);
    out.fill(0);
    for j in 0..k + s {
        add_if(k, folded, j, has_bit(scratch, usize::from(j)), out);
    }
}

// Puts the half symbols behind the LDPC symbols.
fn fold_halves(k: u16, s: u16, h: u16, width: usize, scratch: &mut [u64], folded: &mut [u64])
    requires few { h ≤ 16 }
    requires sum { k + s + h < 2 ^ 16 }
    requires source { k ≤ 64 * width }
    requires words { length folded.old ≡ width * (s + h) }
    requires ldpc { AreFolded k s h s width folded.old }
    requires scratch { k + s ≤ 64 * length scratch.old }
    ensures symbols { AreFolded k s h (s + h) width folded.new }
    ensures words { length folded.new ≡ length folded.old }
{
    for i in 0..h {
        let (earlier, behind) = folded.split_at_mut(width * usize::from(s + i));
        fold_half(k, s, h, i, earlier, scratch, &mut behind[..width]);
    }
}

// Words that are all zero.
fn zero_words(alloc: Global, count: usize) -> Result<Vec<u64>, Memory>
    ensures count { IfOk result (λ words. length words.items ≡ count) }
    ensures zero { IfOk result (λ words. (place : ℕ) → bit_in words.items place ≡ false) }
{
    Ok(vec![in alloc; 0; count]?)
}

/// The source places of the LDPC and half symbols.
pub(crate) fn fold(alloc: Global, k: u16, s: u16, h: u16) -> Result<Vec<u64>, Memory>
    requires source { k ≤ 8192 }
    requires some { 2 ≤ s }
    requires few { s ≤ 512 }
    requires half { h ≤ 16 }
    ensures symbols { IfOk result (λ folded. AreFolded k s h (s + h) ((k + 63) / 64) folded.items) }
    ensures words { IfOk result (λ folded. length folded.items ≡ (k + 63) / 64 * (s + h)) }
{
    let width = words_for(usize::from(k));
    let mut folded = zero_words(alloc, width * usize::from(s + h))?;
    fold_ldpc(k, s, width, &mut folded);
    let mut scratch = zero_words(alloc, words_for(usize::from(k + s)))?;
    fold_halves(k, s, h, width, &mut scratch, &mut folded);
    Ok(folded)
}

/// Adds up the source places of the symbols that a triple takes, as often as it takes them.
pub(crate) fn put_folded(t: Triple, l: u16, lp: u16, k: u16, folded: &[u64], out: &mut [u64])
    requires l { l ≤ lp }
    requires twice { lp < 2 * l }
    requires step { 1 ≤ t.a }
    requires step_below { t.a < lp }
    requires begin { t.b < lp }
    requires source { k ≤ 64 * length out.old }
    requires kept { length folded.now ≡ length out.old * (l - k) }
    ensures places { (place : ℕ) → bit_in out.new place ≡ is_odd_over (is_odd_in (taken l lp t)) (known_bit k (length out.old) folded.now) l place }
    ensures words { length out.new ≡ length out.old }
{
    out.fill(0);
    let mut b = t.b;
    for _ in 0..u16::from(t.d).min(l) {
        let symbol = first_below(l, t.a, lp, b);
        add_symbol(k, folded, symbol, out);
        b = next(symbol, t.a, lp);
    }
}
