// Where the subsets of one size stand in the order: how many subsets of each size there are follows from how many of the size before it, by a product
// and a quotient.
ghost use Rattle.std.specs.Prelude.{◌^◌, ◌<◌, ◌≤◌};
ghost use Rattle.limits.specs.Limits.{max_terminals};
ghost use Rattle.subset_at.specs.laws.Sizes.{RangeAt};

// The positions of the subsets of one size: from `first` up to, and without, `last`.
#[derive(Clone, Copy)]
pub struct SizeRange {
    pub size: u16,
    pub first: u16,
    pub last: u16,
}

// The positions of the subsets of k stations that have the size of the one at a position.
pub fn size_range(k: u8, position: u16) -> SizeRange
    requires { (k ≤ max_terminals) × (position < 2 ^ k) }
    ensures { RangeAt k position result.size result.first result.last }
{
    let stations = k as u16;
    let mut size: u16 = 0;
    let mut first: u16 = 0;
    let mut count: u16 = 1;
    // Not a `for`: each position is in a range, and a `for` over the sizes would need the same answer once more behind it.
    while count <= position - first {
        first += count;
        count = count * (stations - size) / (size + 1);
        size += 1;
    }
    SizeRange {
        size,
        first,
        last: first + count,
    }
}
