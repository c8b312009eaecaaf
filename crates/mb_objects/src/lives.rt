ghost use Rattle.std.specs.Prelude.{◌≡◌, ℕ, ◌+◌, ◌-◌, ◌<◌, ◌≤◌, ◌^◌, ◌==◌, ◌&&◌, ◌++◌, ◌∷◌, [], not, false, true, map, filter, find, length, position, option_map, slice_set, slice_index_or, IfOk, IfSome, OnOk, OnErr, Some, None, vec_len};
ghost use Rattle.mb_geom.specs.Partition.{ceiling};
ghost use Rattle.mb_geom.specs.Description.{plain, equations};
ghost use Rattle.mb_life.specs.Life.{Life, is_ready, prolong, hand_out, kept_in};
ghost use Rattle.mb_life.specs.Hearing.{CanHear, hear_payload};
ghost use Rattle.mb_life.specs.Taking.{IsTaken};
ghost use Rattle.mb_machine.specs.Table.{lives_most, is_past, needed, life_of};
ghost use Rattle.mb_machine.specs.Laws.{IsFirstReady};
ghost use Rattle.mb_objects.specs.Takes.{if_ready, IsReadyAt};
ghost use Rattle.mb_objects.specs.Bound.{lives_held};
ghost use Rattle.mb_objects.specs.LivesView.{tois, AreApart, AllFrom};

use mb_base::{Gate, Memory};
use mb_index::Index;
use mb_life::{Life, News, Taken};
use mb_way::Codes;
use std::alloc::Global;
use std::marker::Model;
use std::thread::Threads;

/// The lives of a session, in the order in which they started, which a contract sees as their list.
#[derive(Drop)]
pub struct Lives {
    items: Vec<Life>,
    /// Where each TOI's life stands.
    index: Index,
    /// How many lives are ready.
    ready: usize,
    /// No life ends before it.
    first_end: u64,
}

impl Model for Lives {
    ghost use Rattle.std.specs.Prelude.{List};
    ghost use Rattle.mb_life.specs.Life.{Life};

    ghost Value = { List Life };

    ghost use Rattle.mb_objects.specs.LivesView.{AreLives};

    ghost view = { λ l. l.items.items };

    ghost invariant = { λ l. AreLives l.items.items l.index l.ready l.first_end };
}

/// How many lives are ready.
fn ready_among(lives: &[Life]) -> usize
    ensures { result ≡ length (filter is_ready lives.now) }
{
    let mut ready = 0;
    for life in lives {
        ready += usize::from(life.is_ready());
    }
    ready
}

/// The first moment at which a life ends.
fn first_end_of(lives: &[Life]) -> u64
    ensures { AllFrom result lives.now }
{
    let mut first = u64::MAX;
    for life in lives {
        first = first.min(life.expires());
    }
    first
}

/// Whether the clock has passed the life's expiry.
fn is_past(life: &Life, clock: u64) -> bool
    ensures { result ≡ is_past clock life.now }
{
    life.expires() < clock
}

/// How many of the lives that the clock has passed were not handed out.
fn unfinished_past(lives: &[Life], clock: u64) -> usize
    ensures { result ≡ length (filter (λ life. is_past clock life && not life.done) lives.now) }
{
    lives
        .iter()
        .filter(|life| is_past(life, clock) && !life.is_done())
        .count()
}

/// Leaves the lives that the clock has not passed.
fn end_past(lives: &mut Vec<Life>, clock: u64)
    ensures { lives.new.items ≡ filter (λ life. not (is_past clock life)) lives.old.items }
{
    lives.retain(|life| !is_past(life, clock));
}

/// The first life that is ready.
fn find_ready(lives: &[Life]) -> Option<&Life>
    ensures { option_map (λ life. life.now) result ≡ find is_ready lives.now }
{
    lives.iter().find(|life| life.is_ready())
}

/// Makes the index of these lives.
fn index_lives(index: &mut Index, lives: &[Life])
    requires apart { AreApart lives.now }
    requires few { length lives.now ≤ lives_most }
    ensures { index.new ≡ tois lives.now }
{
    index.clear();
    for life in lives {
        index.add(life.toi());
    }
}

impl Lives {
    /// No life, with the room for the index. `Memory` where there is none.
    pub fn new(alloc: Global) -> Result<Lives, Memory>
        ensures { IfOk result (λ lives. lives ≡ []) }
    {
        let index = Index::new(alloc)?;
        Ok(Lives {
            items: Vec::new(alloc),
            index,
            ready: 0,
            first_end: u64::MAX,
        })
    }

    /// The lives, in the order in which they started.
    pub fn as_slice(&self) -> &[Life]
        ensures lives { result.now ≡ self.now }
        ensures few { length result.now ≤ lives_most }
        ensures apart { AreApart result.now }
    {
        self.items.as_slice()
    }

    /// Where the TOI's life stands.
    pub fn place(&self, toi: u128) -> Option<usize>
        ensures place { result ≡ position (λ life. life.toi == toi) self.now }
        ensures within { IfSome result (λ place. place < length self.now) }
    {
        self.index.place(toi)
    }

    /// Where the TOI's life stands, if that is ready.
    pub fn ready_place(&self, toi: u128) -> Option<usize>
        ensures none { result ≡ None → if_ready (life_of toi self.now) ≡ None }
        ensures within { IfSome result (λ place. place < length self.now) }
        ensures at { IfSome result (λ place. (d : Life) → IsReadyAt toi self.now place (slice_index_or self.now place d)) }
    {
        let place = self.place(toi)?;
        if !self.items[place].is_ready() {
            return None;
        }
        Some(place)
    }

    /// Ends the lives that the clock has passed, and answers how many of them were not handed out.
    pub fn expire(&mut self, clock: u64) -> u64
        ensures left { self.new ≡ filter (λ life. not (is_past clock life)) self.old }
        ensures count { result ≡ length (filter (λ life. is_past clock life && not life.done) self.old) }
    {
        if clock <= self.first_end {
            return 0;
        }
        let expired = unfinished_past(&self.items, clock);
        end_past(&mut self.items, clock);
        index_lives(&mut self.index, &self.items);
        self.ready = ready_among(&self.items);
        self.first_end = first_end_of(&self.items);
        expired as u64
    }

    /// Starts a life of a TOI that has none, where fewer than 1,024 stand.
    pub fn start(&mut self, life: Life) -> Result<(), Memory>
        requires few { length self.old < lives_most }
        requires new { position (λ other. other.toi == life.toi) self.old ≡ None }
        ensures started { OnOk result (self.new ≡ self.old ++ life ∷ []) }
        ensures refused { OnErr result (self.new ≡ self.old) }
    {
        let (toi, expires, ready) = (life.toi(), life.expires(), life.is_ready());
        self.items.push(life)?;
        self.index.add(toi);
        self.ready += usize::from(ready);
        self.first_end = self.first_end.min(expires);
        Ok(())
    }

    /// Lets the life at a place stand up to `expires` at least.
    pub fn prolong(&mut self, place: usize, expires: u64)
        requires { place < length self.old }
        ensures { (life : Life) → self.new ≡ slice_set self.old place (prolong expires (slice_index_or self.old place life)) }
    {
        self.items[place].prolong(expires);
    }

    /// Hears the symbols of a payload in a block of the life at a place, the first of which has this ESI. It takes
    /// memory only for the first symbol of a block or of the file. After `Memory` the lives are as before.
    pub fn hear(
        &mut self,
        alloc: Global,
        place: usize,
        sbn: u16,
        esi: u16,
        payload: &[u8],
    ) -> Result<News, Memory>
        requires within { place < length self.old }
        requires can { (d : Life) → CanHear (slice_index_or self.old place d) sbn esi (length payload.now) }
        ensures block { OnOk result ((d : Life) → sbn < length (slice_index_or self.old place d).kept) }
        ensures heard { IfOk result (λ n. (d : Life) → self.new ≡ slice_set self.old place (hear_payload sbn esi payload.now (slice_index_or self.old place d))) }
        ensures kept { IfOk result (λ n. (d : Life) → n.kept ≡ length (kept_in sbn (slice_index_or self.new place d)) - length (kept_in sbn (slice_index_or self.old place d))) }
        ensures determined { IfOk result (λ n. (d : Life) → n.determined ≡ ceiling (length payload.now) (slice_index_or self.old place d).desc.symbol - n.kept) }
        ensures refused { OnErr result (self.new ≡ self.old) }
    {
        let life = &mut self.items[place];
        let was_ready = life.is_ready();
        let heard = life.hear(alloc, sbn, esi, payload);
        self.ready = self.ready + usize::from(life.is_ready()) - usize::from(was_ready);
        heard
    }

    /// Notes in the codes of the session which codes of the blocks of the life at a place are known to be usable.
    pub fn tell(&self, codes: &mut Codes, place: usize)
        requires { place < length self.now }
        ensures { codes.new ≡ codes.old }
    {
        self.items[place].tell(codes);
    }

    /// Lets the life at a place know which codes of its blocks are known to be usable, before its first symbol is heard.
    pub fn learn(&mut self, codes: &Codes, place: usize)
        requires { place < length self.old }
        ensures { self.new ≡ self.old }
    {
        self.items[place].learn(codes);
    }

    /// The TOI of the first life that is ready.
    pub fn first_ready(&self) -> Option<u128>
        ensures toi { result ≡ option_map (λ life. life.toi) (find is_ready self.now) }
        ensures first { (life : Life) → find is_ready self.now ≡ Some life → IsFirstReady self.now life }
    {
        if self.ready == 0 {
            return None;
        }
        let life = find_ready(&self.items)?;
        let _length = life.desc().length();
        Some(life.toi())
    }

    /// Hands the file of the ready life at a place out, or finds it damaged. After `Memory` the lives are as before.
    pub fn take<R: Threads + Sync, G: Gate>(
        &mut self,
        rt: &R,
        alloc: Global,
        place: usize,
        workers: u32,
        gate: &G,
    ) -> Result<Taken, Memory>
        requires within { place < length self.old }
        requires ready { (d : Life) → is_ready (slice_index_or self.old place d) ≡ true }
        requires workers { (1 ≤ workers) × (workers ≤ 64) }
        ensures taken { IfOk result (λ t. (d : Life) → IsTaken (slice_index_or self.old place d) t) }
        ensures once { IfOk result (λ t. (d : Life) → is_ready (hand_out (slice_index_or self.old place d)) ≡ false) }
        ensures left { IfOk result (λ t. (d : Life) → self.new ≡ slice_set self.old place (hand_out (slice_index_or self.old place d))) }
        ensures refused { OnErr result (self.new ≡ self.old) }
    {
        let life = &mut self.items[place];
        let _length = life.desc().length();
        let taken = life.take(rt, alloc, workers, gate)?;
        self.ready = self.ready + usize::from(life.is_ready()) - 1;
        Ok(taken)
    }

    /// The bytes of the buffers of all files of which a symbol is kept.
    pub fn buffered(&self) -> u64
        ensures most { result ≤ needed (λ d. plain d + equations d) self.now }
        ensures least { lives_held self.now ≤ result }
        ensures small { result ≤ 2 ^ 60 }
    {
        let mut bytes = 0;
        for life in &self.items {
            bytes += life.buffered();
        }
        bytes
    }
}
