ghost use Rattle.std.specs.Prelude.{◌≡◌, ◌<◌};
ghost use Rattle.mb_machine.specs.Counts.{number_of, no_drops, drop_count, counted};

use crate::reason::Reason;
use std::marker::Model;

/// How many packets were dropped for each reason. A count stands still at the last value of its type. A contract sees
/// the list of counts, in the order of the reasons.
#[derive(Clone, Copy)]
pub struct Drops {
    counts: [u64; 14],
}

impl Model for Drops {
    ghost use Rattle.std.specs.Prelude.{List, ℕ};

    ghost Value = { List ℕ };

    ghost view = { λ drops. drops.counts };

    ghost inverse = { λ counts. record { counts = counts } };
}

/// Where a reason stands among them, from 0.
fn number_of(reason: Reason) -> usize
    ensures exact { result ≡ number_of reason }
    ensures within { result < 14 }
{
    match reason {
        Reason::Closed => 0,
        Reason::OtherSession => 1,
        Reason::NoToi => 2,
        Reason::NoBody => 3,
        Reason::FdtWithoutIds => 4,
        Reason::FdtEncoded => 5,
        Reason::FdtShape => 6,
        Reason::Unknown => 7,
        Reason::FtiDiffers => 8,
        Reason::CodePointDiffers => 9,
        Reason::Block => 10,
        Reason::Symbol => 11,
        Reason::Length => 12,
        Reason::Done => 13,
    }
}

impl Drops {
    /// No packet was dropped.
    pub fn none() -> Drops
        ensures { result ≡ no_drops }
    {
        Drops { counts: [0; 14] }
    }

    /// These counts with one more for the reason.
    pub fn counted(self, reason: Reason) -> Drops
        ensures { result ≡ counted reason self }
    {
        let mut counts = self.counts;
        let number = number_of(reason);
        counts[number] = counts[number].saturating_add(1);
        Drops { counts }
    }

    /// How many were dropped for the reason.
    pub fn count(&self, reason: Reason) -> u64
        ensures { result ≡ drop_count self.now reason }
    {
        self.counts[number_of(reason)]
    }
}
