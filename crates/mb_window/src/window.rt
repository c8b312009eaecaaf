ghost use Rattle.std.specs.Prelude.{◌≡◌, ◌≤◌, [], length, IfOk, IfSome, Option, vec_len, vec_capacity, position, ◌==◌, ◌<◌, OnErr, slice_index_or};
ghost use Rattle.std.specs.Option.{option_map};
ghost use Rattle.mb_alc.specs.PacketView.{body_seen};
ghost use Rattle.mb_window.specs.Symbols as symbol;
ghost use Rattle.mb_window.specs.Symbols.{symbols_of};
ghost use Rattle.mb_window.specs.Assembled.{nothing_of};
ghost use Rattle.mb_window.specs.Buffer.{IsRun};
ghost use Rattle.mb_window.specs.declared.slot.Slot.{Slot};
ghost use Rattle.mb_window.specs.Window.{assembled_in, settled_text, has, slots_most, slot_place, slot_at, with_room, with_slot, text_in, text_for, symbols_refused, hear_with, hear_symbols, hear, settle, clear, expire, buffered, buffered_most, Hears};

use crate::assembly::Assembly;
use crate::geometry::{Geometry, Run};
use crate::heard::WindowHeard;
use crate::slot::{Slot, State, Turn};
use mb_alc::{Body, Fti};
use mb_base::{Bytes, Memory};
use std::alloc::Global;
use std::marker::Model;

/// How many slots stand at most.
const SLOTS_MAX: usize = 16;

/// The instances whose texts are put together, or were read, which a contract sees as the list of their slots in
/// the order in which they were made.
#[derive(Drop)]
pub struct Window {
    alloc: Global,
    slots: Vec<Slot>,
}

impl Model for Window {
    ghost use Rattle.std.specs.Prelude.{List, ◌≤◌, vec_len, vec_capacity};
    ghost use Rattle.mb_window.specs.declared.slot.Slot.{Slot};

    ghost Value = { List Slot };

    ghost use Rattle.mb_window.specs.Window.{slots_most};

    ghost view = { λ w. w.slots.items };

    ghost invariant = { λ w. (vec_len w.slots ≤ slots_most) × (slots_most ≤ vec_capacity w.slots) };
}

/// Where the instance's slot stands.
fn place_of(slots: &[Slot], id: u32) -> Option<usize>
    ensures place { result ≡ slot_place id slots.now }
    ensures within { IfSome result (λ place. place < length slots.now) }
{
    slots.iter().position(|slot| slot.id == id)
}

/// Gives the slot up that was made first, where there is no room for one more.
fn make_room(slots: &mut Vec<Slot>)
    requires few { vec_len slots.old ≤ slots_most }
    ensures left { slots.new.items ≡ with_room slots.old.items }
    ensures few { vec_len slots.new < slots_most }
    ensures room { vec_capacity slots.new ≡ vec_capacity slots.old }
{
    if slots.len() >= SLOTS_MAX {
        slots.remove(0);
    }
}

/// Puts the slot in its place, or last.
fn put_slot(slots: &mut Vec<Slot>, place: Option<usize>, slot: Slot)
    requires few { vec_len slots.old ≤ slots_most }
    requires room { slots_most ≤ vec_capacity slots.old }
    requires within { IfSome place (λ i. i < vec_len slots.old) }
    ensures put { slots.new.items ≡ with_slot place slot slots.old.items }
    ensures few { vec_len slots.new ≤ slots_most }
    ensures room { vec_capacity slots.new ≡ vec_capacity slots.old }
{
    match place {
        Some(i) => slots[i] = slot,
        None => {
            make_room(slots);
            slots.push_reserved(slot);
        }
    }
}

/// The slot at a place.
fn slot_in(slots: &[Slot], place: Option<usize>) -> Option<&Slot>
    ensures { option_map (λ slot. slot.now) result ≡ slot_at place slots.now }
{
    slots.get(place?)
}

/// The geometry of the text that a packet is of, by its EXT_FTI and the instance's slot, or why it is dropped.
fn geometry_for(slot: Option<&Slot>, fti: Option<&Fti>) -> Result<Geometry, WindowHeard>
    ensures { result ≡ text_for (option_map (λ s. s.now) slot.entry) (option_map (λ f. f.now) fti.entry) }
{
    let given = match fti {
        None => None,
        Some(fti) => match Geometry::new(fti) {
            None => return Err(WindowHeard::Shape),
            Some(geometry) => Some(geometry),
        },
    };
    match (slot, given) {
        (None, None) => Err(WindowHeard::NoIds),
        (None, Some(geometry)) => Ok(geometry),
        (Some(slot), None) => Ok(slot.state.geometry().copy()),
        (Some(slot), Some(geometry)) if geometry.is_same(slot.state.geometry()) => {
            Ok(slot.state.geometry().copy())
        }
        (Some(_), Some(_)) => Err(WindowHeard::Differs),
    }
}

/// Answers the text where it is whole, and else keeps it in the instance's slot.
fn take_in(slots: &mut Vec<Slot>, place: Option<usize>, id: u32, assembly: Assembly) -> WindowHeard
    requires few { vec_len slots.old ≤ slots_most }
    requires room { slots_most ≤ vec_capacity slots.old }
    requires within { IfSome place (λ i. i < vec_len slots.old) }
    ensures heard { Hears (hear_with id place slots.old.items assembly.text assembly.kept) slots.new.items result }
    ensures few { vec_len slots.new ≤ slots_most }
    ensures room { vec_capacity slots.new ≡ vec_capacity slots.old }
{
    if assembly.missing() == 0 {
        return WindowHeard::Whole {
            text: Bytes::from_vec(assembly.into_text()),
        };
    }
    let state = State::Heard(assembly);
    put_slot(slots, place, Slot { id, state });
    WindowHeard::Part
}

/// Hears a packet of an instance that has no slot.
fn hear_first(
    alloc: Global,
    slots: &mut Vec<Slot>,
    id: u32,
    geometry: Geometry,
    run: Run,
    body: &Body<'_>,
) -> Result<WindowHeard, Memory>
    requires few { vec_len slots.old ≤ slots_most }
    requires room { slots_most ≤ vec_capacity slots.old }
    requires run { IsRun geometry (body_seen body.now) run }
    ensures heard { IfOk result (Hears (hear_symbols id None slots.old.items (body_seen body.now) (Some (nothing_of geometry))) slots.new.items) }
    ensures refused { OnErr result (slots.new.items ≡ slots.old.items) }
    ensures few { vec_len slots.new ≤ slots_most }
    ensures room { slots_most ≤ vec_capacity slots.new }
{
    let mut assembly = Assembly::new(alloc, geometry)?;
    assembly.hear(run, body);
    Ok(take_in(slots, None, id, assembly))
}

/// Hears a packet of the instance whose slot stands at a place.
fn hear_more(
    alloc: Global,
    slots: &mut Vec<Slot>,
    place: usize,
    id: u32,
    run: Run,
    body: &Body<'_>,
) -> Result<WindowHeard, Memory>
    requires few { vec_len slots.old ≤ slots_most }
    requires room { slots_most ≤ vec_capacity slots.old }
    requires within { place < vec_len slots.old }
    requires id { (slot : Slot) → (slice_index_or slots.old.items place slot).id ≡ id }
    requires run { (slot : Slot) → IsRun (text_in (slice_index_or slots.old.items place slot).state) (body_seen body.now) run }
    ensures heard { (slot : Slot) → IfOk result (Hears (hear_symbols id (Some place) slots.old.items (body_seen body.now)
        (assembled_in (slice_index_or slots.old.items place slot).state)) slots.new.items) }
    ensures refused { OnErr result (slots.new.items ≡ slots.old.items) }
    ensures few { vec_len slots.new ≤ slots_most }
    ensures room { slots_most ≤ vec_capacity slots.new }
{
    let slot = &mut slots[place];
    match slot.state.hear(alloc, run, body)? {
        Turn::Done => Ok(WindowHeard::Done),
        Turn::Kept => Ok(WindowHeard::Part),
        Turn::Copied(assembly) => Ok(take_in(slots, Some(place), id, assembly)),
    }
}

/// Hears a packet with an instance's ID.
fn hear_in(
    alloc: Global,
    slots: &mut Vec<Slot>,
    id: u32,
    fti: Option<&Fti>,
    body: &Body<'_>,
) -> Result<WindowHeard, Memory>
    requires few { vec_len slots.old ≤ slots_most }
    requires room { slots_most ≤ vec_capacity slots.old }
    ensures heard { IfOk result (Hears (hear id (option_map (λ f. f.now) fti.entry) (body_seen body.now) slots.old.items) slots.new.items) }
    ensures refused { OnErr result (slots.new.items ≡ slots.old.items) }
    ensures few { vec_len slots.new ≤ slots_most }
    ensures room { slots_most ≤ vec_capacity slots.new }
{
    let place = place_of(slots, id);
    let geometry = match geometry_for(slot_in(slots, place), fti) {
        Ok(geometry) => geometry,
        Err(reason) => return Ok(reason),
    };
    let run = match geometry.run_of(body) {
        Ok(run) => run,
        Err(reason) => return Ok(reason),
    };
    match place {
        None => hear_first(alloc, slots, id, geometry, run, body),
        Some(place) => hear_more(alloc, slots, place, id, run, body),
    }
}

/// The geometry of the text of the instance's slot, or of an EXT_FTI that a text has.
fn settled_geometry(slot: Option<&Slot>, fti: Option<&Fti>) -> Option<Geometry>
    ensures { result ≡ settled_text (option_map (λ s. s.now) slot.entry) (option_map (λ f. f.now) fti.entry) }
{
    match (slot, fti) {
        (Some(slot), _) => Some(slot.state.geometry().copy()),
        (None, Some(fti)) => Geometry::new(fti),
        (None, None) => None,
    }
}

impl Window {
    /// A window without an instance, in which all room for slots is taken. `Memory` where there is none.
    pub fn new(alloc: Global) -> Result<Window, Memory>
        ensures { IfOk result (λ window. window ≡ []) }
    {
        let slots = Vec::with_capacity(alloc, SLOTS_MAX)?;
        Ok(Window { alloc, slots })
    }

    /// Whether the instance has a slot.
    pub fn has(&self, id: u32) -> bool
        ensures { result ≡ has id self.now }
    {
        place_of(&self.slots, id).is_some()
    }

    /// Hears a packet of an instance, with its ID, its EXT_FTI and its FEC payload ID and payload: it is dropped for
    /// the first reason in the order of [`WindowHeard`] that holds and changes nothing, or its symbols are kept in
    /// the instance's slot, which is made where there is none, with the first of 16 slots given up. Where the text
    /// is whole with them it is answered, and the window stays as it was: the caller then settles or clears the
    /// instance. After `Memory` the window is as before.
    pub fn hear(
        &mut self,
        id: u32,
        fti: Option<&Fti>,
        body: &Body<'_>,
    ) -> Result<WindowHeard, Memory>
        ensures heard { IfOk result (Hears (hear id (option_map (λ f. f.now) fti.entry) (body_seen body.now) self.old) self.new) }
        ensures refused { OnErr result (self.new ≡ self.old) }
    {
        hear_in(self.alloc, &mut self.slots, id, fti, body)
    }

    /// Notes that the instance was read and stands until the NTP second `expires`, in its slot or, with the text
    /// that the EXT_FTI is of, in a new last one, for which the first of 16 is given up. It takes no memory.
    pub fn settle(&mut self, id: u32, fti: Option<&Fti>, expires: u64)
        ensures { self.new ≡ settle id (option_map (λ f. f.now) fti.entry) expires self.old }
    {
        let place = place_of(&self.slots, id);
        if let Some(geometry) = settled_geometry(slot_in(&self.slots, place), fti) {
            let state = State::Read { geometry, expires };
            put_slot(&mut self.slots, place, Slot { id, state });
        }
    }

    /// Gives the instance's slot up. Where it has none, the first of 16 is given up, as if one had been made for
    /// it. It takes no memory.
    pub fn clear(&mut self, id: u32)
        ensures { self.new ≡ clear id self.old }
    {
        match place_of(&self.slots, id) {
            Some(place) => {
                self.slots.remove(place);
            }
            None => make_room(&mut self.slots),
        }
    }

    /// Gives the instances up that were read and expired before `clock`, in NTP seconds.
    pub fn expire(&mut self, clock: u64)
        ensures { self.new ≡ expire clock self.old }
    {
        self.slots.retain(|slot| !slot.state.is_expired(clock));
    }

    /// The bytes of the texts that are put together, and of a bit for each of their symbols.
    pub fn buffered(&self) -> u64
        ensures exact { result ≡ buffered self.now }
        ensures most { result ≤ buffered_most }
    {
        let mut bytes = 0;
        for slot in &self.slots {
            bytes += slot.state.buffered();
        }
        bytes
    }
}
