ghost use Rattle.std.specs.Prelude.{◌≡◌, ℕ, ◌+◌, ◌*◌, ◌<◌, ◌≤◌, ◌^◌};
ghost use Rattle.mb_geom.specs.Partition.{partition_of};

/// How things are divided into parts that differ by one thing at most (RFC 5053 section 5.3.1.2):
/// first `jl` parts of `il` things each, then `js` parts of `is` things each.
#[derive(Clone, Copy, Debug, PartialEq, Eq)]
pub struct Parts {
    /// The things in each of the first parts.
    pub il: u64,
    /// The things in each of the other parts.
    pub is: u64,
    /// The number of the first parts.
    pub jl: u64,
    /// The number of the other parts.
    pub js: u64,
}

/// Divides `i` things into `j` parts as evenly as can be, the longer parts first
/// (RFC 5053 section 5.3.1.2).
pub fn partition(i: u64, j: u64) -> Parts
    requires { 1 ≤ j }
    ensures exact { result ≡ partition_of i j }
    ensures number { result.jl + result.js ≡ j }
    ensures things { result.jl * result.il + result.js * result.is ≡ i }
    ensures even { result.il ≤ result.is + 1 }
    ensures longer_first { result.is ≤ result.il }
{
    let jl = i % j;
    Parts {
        il: i.div_ceil(j),
        is: i / j,
        jl,
        js: j - jl,
    }
}

impl Parts {
    ghost use Rattle.std.specs.Prelude.{length, slice_index, max, take, sum};
    ghost use Rattle.mb_geom.specs.Partition.{sizes_of};

    /// No parts, of no things.
    pub(crate) const NONE: Parts = Parts {
        il: 0,
        is: 0,
        jl: 0,
        js: 0,
    };

    /// The number of parts.
    pub fn count(self) -> u64
        requires { self.jl + self.js < 2 ^ 64 }
        ensures { result ≡ length (sizes_of self) }
    {
        self.jl + self.js
    }

    /// The number of things in a part, by its number from 0.
    pub fn size(self, number: u64) -> u64
        requires { number < length (sizes_of self) }
        ensures exact { result ≡ slice_index (sizes_of self) number }
        ensures within { result ≤ max self.il self.is }
    {
        if number < self.jl { self.il } else { self.is }
    }

    /// The number of things in the parts before one, by its number from 0.
    pub fn before(self, number: u64) -> u64
        requires { self.jl * self.il + self.js * self.is < 2 ^ 64 }
        ensures { result ≡ sum (take number (sizes_of self)) }
    {
        let longer = number.min(self.jl);
        let shorter = (number - longer).min(self.js);
        longer * self.il + shorter * self.is
    }
}
