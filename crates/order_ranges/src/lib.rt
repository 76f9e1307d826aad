// The sets below a number in their order, and where the sets of one size stand there.
#![tactic(auto)]

ghost use Rattle.std.specs.Prelude.{◌≡◌, ◌<◌, ◌≤◌, length};
ghost use Rattle.limits.specs.Limits.{max_subsets};
ghost use Rattle.order_ranges.specs.laws.Ranges.{Ordered, SizeEnd, entry_of};

use order::{POSITIONS, copy_order};
use subset::Subset;

// The sets below `size`, in their order, become the first entries: how many there are.
pub fn sets_below(size: usize, sets: &mut [u16]) -> usize
    requires { (length sets.old ≡ max_subsets) × (size ≤ max_subsets) }
    ensures { (result ≤ max_subsets) × Ordered (entry_of sets.new) result size }
{
    copy_order(sets);
    let mut count: usize = 0;
    for position in 0..POSITIONS {
        let w = sets[position];
        sets[count] = w;
        if (w as usize) < size {
            count += 1;
        }
    }
    count
}

// The end of the range of positions, from `first` on, whose sets have one size.
pub fn end_of_size(sets: &[u16], first: usize) -> usize
    requires { first < length sets.now }
    ensures { SizeEnd (entry_of sets.now) (length sets.now) first result }
{
    let size = Subset(sets[first]).size();
    for last in first + 1..sets.len() {
        if Subset(sets[last]).size() != size {
            return last;
        }
    }
    sets.len()
}
