// The sets of k stations in their order, and where the sets of one size stand there.
#![tactic(auto)]

ghost use Rattle.std.specs.Prelude.{◌≡◌, map, ◌^◌, ◌<◌, ◌≤◌, length};
ghost use Rattle.std.specs.Int.Count.{ones};
ghost use Rattle.limits.specs.Limits.{max_terminals, max_subsets};
ghost use Rattle.lists.specs.Numbers.{numbers};
ghost use Rattle.lists.specs.Over.{over};
ghost use Rattle.order.specs.Order.{order_by};
ghost use Rattle.subset_at.specs.laws.Stations.{set_at};
ghost use Rattle.order_ranges.specs.laws.Ranges.{SizeEnd};

use arc_index::index_arcs;
use subset::{Subset, sets_of};
use subset_at::sizes::size_range;

// How many sets there are, and how many places of sizes: one for each size from 0 on, and one for the end.
const MAX_SETS: usize = limits::MAX_SUBSETS as usize;

const MAX_PLACES: usize = limits::MAX_TERMINALS as usize + 2;

// The size of each set, by its number.
fn put_sizes(sizes: &mut [u16])
    requires { length sizes.old ≤ max_subsets }
    ensures { sizes.new ≡ map ones (numbers 0 (length sizes.old)) }
{
    for (w, size) in sizes.iter_mut().enumerate() {
        *size = Subset(w as u16).size() as u16;
    }
}

// The sets of k stations in their order become the first entries. They are indexed by their size, as legs are by their end: each set is looked at a
// fixed number of times.
pub fn sets_in_order(k: u8, sets: &mut [u16])
    requires { (k ≤ max_terminals) × (2 ^ k ≤ length sets.old) }
    ensures { sets.new ≡ over (order_by ones k) sets.old }
{
    let count = sets_of(k);
    let mut sizes = [0u16; MAX_SETS];
    let mut places = [0u16; MAX_PLACES];
    put_sizes(&mut sizes[..count]);
    index_arcs(&sizes, k as u16 + 1, count as u16, sets, &mut places);
}

// The end of the range of positions, from `first` on, whose sets of k stations have one size.
pub fn end_of_size(k: u8, first: usize) -> usize
    requires { (k ≤ max_terminals) × (first < 2 ^ k) }
    ensures { SizeEnd (set_at k) (2 ^ k) first result }
{
    let range = size_range(k, first as u16);
    range.last as usize
}
