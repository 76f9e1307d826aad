// The subsets of ten stations in their order (document 01, "Subsets"): by size, then by number.
#![tactic(auto)]

ghost use Rattle.std.specs.Prelude.{◌≡◌, map, length};
ghost use Rattle.limits.specs.Limits.{max_subsets};
ghost use Rattle.lists.specs.Numbers.{numbers};
ghost use Rattle.order.specs.Order.{in_order};

mod entries;

// How many positions the order has.
pub const POSITIONS: usize = limits::MAX_SUBSETS as usize;

// All subsets in their order, one for each position. A call lays the table out on the stack once, so that a search calls this once and reads the
// copy.
pub fn copy_order(sets: &mut [u16])
    requires { length sets.old ≡ max_subsets }
    ensures { sets.new ≡ map in_order (numbers 0 max_subsets) }
{
    // Not `copy_from_slice`: of so many bytes it calls `memcpy`, and the library for C calls only `memset` of the C library.
    let table = entries::ORDER;
    for position in 0..POSITIONS {
        sets[position] = table[position];
    }
}
