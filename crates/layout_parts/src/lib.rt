// Which part splits a set w at a site v, in one step of the layout.
#![tactic(auto)]

ghost use Rattle.std.specs.Prelude.{◌≡◌, ◌&&◌, ◌+◌, ◌*◌, ◌-◌, ◌^◌, ◌≤◌, ◌<◌, eqb, length};
ghost use Rattle.limits.specs.Limits.{max_terminals, no_cost};
ghost use Rattle.lists.specs.Find.{first};
ghost use Rattle.subset.specs.Sets.{is_part};
ghost use Rattle.cost_table.specs.Cells.{cell_in};
ghost use Rattle.layout_steps.specs.Steps.{found_as};
ghost use Rattle.layout_parts.specs.Parts.{splits_in};

use cost_table::cell;
use layout_steps::CostedSheet;
use limits::Cost;
use subset::Subset;

// Whether y is within w, and its cell and that of the rest make v's cell, `cost`, which is finite. Only finite cells are added.
fn part_splits(cells: &[Cost], k: u8, v: u16, w: Subset, y: Subset, cost: Cost) -> bool
    requires { (k ≤ max_terminals) × (v * 2 ^ k + w.0 < length cells.now) × (cost < no_cost) }
    ensures { result
        ≡ (is_part y.0 w.0
        && eqb (cell_in cells.now (2 ^ k) v y.0 + cell_in cells.now (2 ^ k) v (w.0 - y.0)) cost) }
{
    if !y.is_part_of(w) {
        return false;
    }
    let part = cell(cells, k, v, y);
    if part == limits::NO_COST {
        return false;
    }
    let rest = cell(cells, k, v, w.without(y));
    if rest == limits::NO_COST {
        return false;
    }
    (part as u64) + (rest as u64) == cost as u64
}

// "the lowest Y within W, neither empty nor W, with cell (v, Y) + cell (v, W without Y) = cell (v, W)"
pub fn splitting_part(sheet: CostedSheet, v: u16, w: Subset) -> Option<u16>
    requires { let k = sheet.terminals in
        ((k ≤ max_terminals) × (v * 2 ^ k + w.0 < length sheet.cells.now) × (cell_in sheet.cells.now (2 ^ k) v w.0 < no_cost)) }
    ensures { let s = sheet.entry in (result ≡ found_as (first (splits_in s.terminals s.cells.now v w.0) w.0)) }
{
    let cost = cell(sheet.cells, sheet.terminals, v, w);
    for y in 1..w.0 {
        if part_splits(sheet.cells, sheet.terminals, v, w, Subset(y), cost) {
            return Some(y);
        }
    }
    None
}
