ghost use Rattle.std.specs.Prelude.{◌≡◌, ℕ, ◌<◌, ◌≤◌, ◌==◌, ◌++◌, ◌∷◌, [], length, position, None, IfOk, IfSome, vec_len, vec_capacity};
ghost use Rattle.std.specs.List.{insert};
ghost use Rattle.mb_index.specs.Index.{index_most};
ghost use Rattle.mb_index.specs.Order.{IsOrder, IsRank};

use mb_base::Memory;
use std::alloc::Global;
use std::marker::Model;

/// How many TOIs an index takes at most.
const INDEX_MAX: usize = 1024;

/// A list of at most 1,024 TOIs (transport object identifiers, RFC 3451 section 5.1: numbers below 2^112), none of
/// which stands twice. A contract sees the list, in the order in which they were added.
#[derive(Drop)]
pub struct Index {
    /// In the order in which they were added.
    tois: Vec<u128>,
    /// Their places, by rising TOI.
    sorted: Vec<u16>,
}

impl Model for Index {
    ghost use Rattle.std.specs.Prelude.{List, ℕ, ◌≤◌, vec_capacity, length};
    ghost use Rattle.mb_index.specs.Index.{index_most};
    ghost use Rattle.mb_index.specs.Order.{IsOrder};

    ghost Value = { List ℕ };

    ghost view = { λ index. index.tois.items };

    ghost invariant = { λ index. IsOrder index.tois.items index.sorted.items × (length index.tois.items ≤ index_most) × (index_most ≤ vec_capacity index.tois) × (index_most ≤ vec_capacity index.sorted) };
}

/// How many of the TOIs are below this one, by binary search: a sender may choose any TOIs, so no hash is used that
/// chosen ones would fill alike.
fn rank_of(tois: &[u128], sorted: &[u16], toi: u128) -> usize
    requires sorted { IsOrder tois.now sorted.now }
    ensures rank { IsRank tois.now sorted.now toi result }
{
    let mut low = 0;
    let mut high = sorted.len();
    while low < high {
        let middle = low + (high - low) / 2;
        if tois[usize::from(sorted[middle])] < toi {
            low = middle + 1;
        } else {
            high = middle;
        }
    }
    low
}

/// The place of the TOI.
fn place_in(tois: &[u128], sorted: &[u16], toi: u128) -> Option<usize>
    requires sorted { IsOrder tois.now sorted.now }
    ensures place { result ≡ position (λ other. other == toi) tois.now }
    ensures within { IfSome result (λ place. place < length tois.now) }
{
    let rank = rank_of(tois, sorted, toi);
    let place = usize::from(*sorted.get(rank)?);
    if tois[place] == toi {
        Some(place)
    } else {
        None
    }
}

/// Puts a place at a rank, where there is room for it. It takes no memory.
fn put_place(sorted: &mut Vec<u16>, rank: usize, place: u16)
    requires within { rank ≤ vec_len sorted.old }
    requires room { vec_len sorted.old < vec_capacity sorted.old }
    ensures put { sorted.new.items ≡ insert sorted.old.items rank place }
    ensures room { vec_capacity sorted.new ≡ vec_capacity sorted.old }
{
    let put = sorted.insert(rank, place).is_ok();
    prove!(put);
}

impl Index {
    /// An index without a TOI that has its room for 1,024. `Memory` where there is none.
    pub fn new(alloc: Global) -> Result<Index, Memory>
        ensures { IfOk result (λ index. index ≡ []) }
    {
        let tois = Vec::with_capacity(alloc, INDEX_MAX)?;
        let sorted = Vec::with_capacity(alloc, INDEX_MAX)?;
        Ok(Index { tois, sorted })
    }

    /// The place of the TOI, counted from 0 in the order in which they were added.
    pub fn place(&self, toi: u128) -> Option<usize>
        ensures place { result ≡ position (λ other. other == toi) self.now }
        ensures within { IfSome result (λ place. place < length self.now) }
    {
        place_in(&self.tois, &self.sorted, toi)
    }

    /// Adds a TOI that isn't there as the last one, where fewer than 1,024 are. It takes no memory.
    pub fn add(&mut self, toi: u128)
        requires room { length self.old < index_most }
        requires absent { position (λ other. other == toi) self.old ≡ None }
        ensures added { self.new ≡ self.old ++ toi ∷ [] }
    {
        let rank = rank_of(&self.tois, &self.sorted, toi);
        let place = self.tois.len() as u16;
        put_place(&mut self.sorted, rank, place);
        self.tois.push_reserved(toi);
    }

    /// Takes all TOIs out, and keeps the room.
    pub fn clear(&mut self)
        ensures { self.new ≡ [] }
    {
        self.tois.clear();
        self.sorted.clear();
    }

    /// How many TOIs it has.
    pub fn len(&self) -> usize
        ensures exact { result ≡ length self.now }
        ensures most { result ≤ index_most }
    {
        self.tois.len()
    }
}

// A session with an index may run on another thread, so it is checked here that one can be sent and shared.
fn is_shared<T: Send + Sync>(_value: &T) {}

fn index_is_shared(index: &Index) {
    is_shared(index);
}
