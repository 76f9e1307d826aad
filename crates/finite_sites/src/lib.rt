// Sites that have a finite cell of one station. The others have no finite cell of more, so that a search passes over them.
#![tactic(auto)]

ghost use Rattle.std.specs.Prelude.{◌≡◌, false, ◌+◌, ◌*◌, ◌<◌, ◌≤◌, length, MatchOption};
ghost use Rattle.limits.specs.Limits.{max_nodes, max_subsets};
ghost use Rattle.cost_table.specs.Cells.{cell_in};
ghost use Rattle.lanes.specs.laws.Four.{nth};
ghost use Rattle.finite_sites.specs.laws.Finite.{NoTerminal, NoneBetween, NextFinite, FourFinite};

use lanes::Four;
use limits::Cost;
use working_none::WORKING_NONE;

// Whether site v has a finite cell of one station.
fn has_finite(cells: &[Cost], size: usize, v: usize) -> bool
    requires { (v * size + size ≤ length cells.now) × (size ≤ max_subsets) }
    ensures { result ≡ false → NoTerminal (cell_in cells.now size v) size }
{
    let row = v * size;
    // Not a `for`: the sets of one station are powers of two.
    let mut one = 1;
    while one < size {
        if cells[row + one] < WORKING_NONE {
            return true;
        }
        one += one;
    }
    false
}

// The first site, from `from` on, that has one.
pub fn next_finite(cells: &[Cost], size: usize, n: usize, from: usize) -> Option<usize>
    requires { (n * size ≤ length cells.now) × (size ≤ max_subsets) × (from ≤ n) }
    ensures { MatchOption result (NoneBetween (cell_in cells.now size) size n from n)
        (λ v. (v < n) × NoneBetween (cell_in cells.now size) size n from v) }
{
    for v in from..n {
        if has_finite(cells, size, v) {
            return Some(v);
        }
    }
    None
}

// The same, but site v where no site after it has one.
fn finite_after(cells: &[Cost], size: usize, n: usize, v: usize) -> usize
    requires { (n * size ≤ length cells.now) × (size ≤ max_subsets) × (v < n) × (n ≤ max_nodes) }
    ensures { NextFinite (cell_in cells.now size) size n v result }
{
    next_finite(cells, size, n, v + 1).unwrap_or(v)
}

// Site v and the next three that have one; past the last one, that one again.
pub fn four_finite(cells: &[Cost], size: usize, n: usize, v: usize) -> Four<usize>
    requires { (n * size ≤ length cells.now) × (size ≤ max_subsets) × (v < n) × (n ≤ max_nodes) }
    ensures { FourFinite (cell_in cells.now size) size n v (nth result) }
{
    let b = finite_after(cells, size, n, v);
    let c = finite_after(cells, size, n, b);
    let d = finite_after(cells, size, n, c);
    Four { a: v, b, c, d }
}
