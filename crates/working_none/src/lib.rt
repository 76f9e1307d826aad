// "None" while the table is filled, and what becomes of it in the end.
#![tactic(auto)]

ghost use Rattle.std.specs.Prelude.{◌≡◌, map, length};
ghost use Rattle.lists.specs.Numbers.{numbers};
ghost use Rattle.working_none.specs.laws.WorkingNone.{finished};
ghost use Rattle.working_none.specs.laws.Low.{entry};

use limits::Cost;

// Above every total; two of them, added, are below half of what a cell can hold.
pub const WORKING_NONE: Cost = 1_073_741_823;

// A cell of the search as it stands in the table.
fn finished(cost: Cost) -> Cost
    ensures { result ≡ finished cost }
{
    if cost == WORKING_NONE {
        return limits::NO_COST;
    }
    cost
}

// Each "none" of the search becomes the table's.
pub fn finish(cells: &mut [Cost])
    ensures { cells.new ≡ map (λ i. finished (entry cells.old i)) (numbers 0 (length cells.old)) }
{
    for cost in cells.iter_mut() {
        *cost = finished(*cost);
    }
}
