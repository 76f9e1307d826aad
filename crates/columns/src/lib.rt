// The cells of four sets are taken from the table, lowered along the legs until no leg gives less, and put back; so are those of each set of
// one size, four at a time.
#![tactic(auto)]

ghost use Rattle.std.specs.Prelude.{◌≡◌, false, ℕ, ◌<◌, ◌≤◌, length};
ghost use Rattle.limits.specs.Limits.{max_subsets};
ghost use Rattle.settling.specs.laws.Legs.{tables_of};
ghost use Rattle.lanes.specs.laws.Four.{nth};
ghost use Rattle.order_ranges.specs.laws.Ranges.{Ordered, OneSize, entry_of};
ghost use Rattle.columns.specs.laws.Searched.{Tables};
ghost use Rattle.columns.specs.laws.ClosedCells.{FourClosed, SetsClosed, NextFour};
ghost use Rattle.columns.specs.laws.NoneFinite.{AllNone};

use lanes::{Four, four_from, give_columns, take_columns};
use limits::Cost;
use settling::Legs;
use turns::lower_by_turns;
use working_none::WORKING_NONE;

// The sets at four positions from `position` on; past the last one before `last`, that one again.
fn sets_at(sets: &[u16], position: usize, last: usize) -> Four<usize>
    requires { (position < last) × (last ≤ length sets.now) × (length sets.now ≤ max_subsets) }
    ensures { NextFour (entry_of sets.now) position last (nth result) }
{
    let at = four_from(position, last);
    Four {
        a: sets[at.a] as usize,
        b: sets[at.b] as usize,
        c: sets[at.c] as usize,
        d: sets[at.d] as usize,
    }
}

// Whether one of the lanes' cells is finite. (Not `any`: without a branch a machine looks at several cells at once.)
fn some_finite(lanes: &[Cost]) -> bool
    ensures { result ≡ false → AllNone lanes.now }
{
    let mut found = false;
    for cost in lanes {
        found |= *cost < WORKING_NONE;
    }
    found
}

// The cells of four sets are lowered along the legs until no leg gives less; where all of them are "none", none does. The index may leave out
// legs that are dearer than parallel ones; the lanes have four entries for each site.
fn close_four(
    legs: Legs,
    arcs: usize,
    size: usize,
    sets: Four<usize>,
    cells: &mut [Cost],
    lanes: &mut [Cost],
)
    requires { Tables legs.n arcs size (tables_of legs) legs.index.now legs.places.now cells.old lanes.old × ((j : ℕ) → j < 4 → nth sets j < size) }
    ensures { FourClosed legs.entry.n arcs size (tables_of legs.entry) (nth sets) cells.old cells.new }
{
    take_columns(cells, legs.n, size, sets, lanes);
    if !some_finite(lanes) {
        return;
    }
    lower_by_turns(legs, lanes);
    legs.settle(lanes);
    give_columns(lanes, legs.n, size, sets, cells);
}

// The same for the sets at the positions from `first` up to `last`, which have one size.
pub fn close_sets(
    sets: &[u16],
    legs: Legs,
    arcs: usize,
    size: usize,
    first: usize,
    last: usize,
    cells: &mut [Cost],
    lanes: &mut [Cost],
)
    requires { Ordered (entry_of sets.now) (length sets.now) size × OneSize (entry_of sets.now) (length sets.now) first last
        × (length sets.now ≤ max_subsets) × Tables legs.n arcs size (tables_of legs) legs.index.now legs.places.now cells.old lanes.old }
    ensures { SetsClosed legs.entry.n arcs size (tables_of legs.entry) (entry_of sets.now) first last last cells.old cells.new }
{
    for position in (first..last).step_by(4) {
        let four = sets_at(sets, position, last);
        close_four(legs, arcs, size, four, cells, lanes);
    }
}
