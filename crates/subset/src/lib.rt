// Sets of stations (document 01, "Subsets"): a set is a number below 2^k, and station i is worth 2^i.
#![tactic(auto)]

ghost use Rattle.std.specs.Prelude.{◌≡◌, ◌^◌, ◌≤◌, ◌<◌};
ghost use Rattle.std.specs.Int.Count.{ones};
ghost use Rattle.limits.specs.Limits.{max_terminals};
ghost use Rattle.subset.specs.Sets.{full, single, has, is_part, rest, union};

// A set of stations, as its number.
#[derive(Clone, Copy, PartialEq, Eq)]
pub struct Subset(pub u16);

impl Subset {
    // The empty set.
    pub const EMPTY: Subset = Subset(0);

    // The full set for k stations.
    pub fn full(k: u8) -> Subset
        requires { k ≤ max_terminals }
        ensures { result.0 ≡ full k }
    {
        Subset((1u16 << k) - 1)
    }

    // The set of station i alone.
    pub fn single(i: u8) -> Subset
        requires { i < max_terminals }
        ensures { result.0 ≡ single i }
    {
        Subset(1u16 << i)
    }

    // The number of stations: the count of ones.
    pub fn size(self) -> u32
        ensures { result ≡ ones self.0 }
    {
        u16::count_ones(self.0)
    }

    // Whether station i is in the set.
    pub fn has(self, i: u8) -> bool
        requires { i < max_terminals }
        ensures { result ≡ has self.0 i }
    {
        (self.0 >> i) % 2 == 1
    }

    // Whether every station of the set is in w.
    pub fn is_part_of(self, w: Subset) -> bool
        ensures { result ≡ is_part self.0 w.0 }
    {
        self.0 & w.0 == self.0
    }

    // The rest: the stations of the set that are not in y.
    pub fn without(self, y: Subset) -> Subset
        ensures { result.0 ≡ rest self.0 y.0 }
    {
        Subset(self.0 - (self.0 & y.0))
    }

    // The stations of either set.
    pub fn union(self, o: Subset) -> Subset
        ensures { result.0 ≡ union self.0 o.0 }
    {
        Subset(self.0 | o.0)
    }
}

// How many sets k stations have.
pub fn sets_of(k: u8) -> usize
    requires { k ≤ max_terminals }
    ensures { result ≡ 2 ^ k }
{
    1usize << k
}
