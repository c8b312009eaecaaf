ghost use Rattle.std.specs.Prelude.{◌≡◌, ◌↔◌, IsTrue};

use crate::Numbers;

/// Which calls of an object in memory fail, and the counts of its calls. The calls that can fail are
/// numbered from 1. Each count stands still at the last value of its type.
#[derive(Drop)]
pub(crate) struct Plan {
    /// The numbers of the calls that are to fail.
    failing: Numbers,
    /// How many calls were made.
    calls: u64,
    /// How many of them were listed.
    listed: u64,
    /// How many others found no room.
    refused: u64,
}

impl Plan {
    ghost use Rattle.mb_memory.specs.Plan.{next_count, new_plan, called, refused_once, IsListed};

    pub(crate) fn new(failing: Vec<u64>) -> Self
        ensures { result ≡ new_plan failing.items }
    {
        Plan {
            failing: Numbers::from_vec(failing),
            calls: 0,
            listed: 0,
            refused: 0,
        }
    }

    /// Counts one more call, and answers whether it is to fail.
    pub(crate) fn call(&mut self) -> bool
        ensures listed { IsTrue result ↔ IsListed self.new }
        ensures counted { self.new ≡ called self.old result }
    {
        self.calls = self.calls.saturating_add(1);
        let listed = self.failing.has(self.calls);
        if listed {
            self.listed = self.listed.saturating_add(1);
        }
        listed
    }

    /// Counts a call that found no room.
    pub(crate) fn refuse(&mut self)
        ensures { self.new ≡ refused_once self.old }
    {
        self.refused = self.refused.saturating_add(1);
    }

    pub(crate) fn refused(&self) -> u64
        ensures { result ≡ self.now.refused }
    {
        self.refused
    }
}
