// The cost table (document 01, "The cost table"): one cell for each site and each set of stations, at place v times 2^k + W.
#![tactic(auto)]

pub mod cheapest;

ghost use Rattle.std.specs.Prelude.{◌≡◌, ◌+◌, ◌*◌, ◌^◌, ◌≤◌, ◌<◌, length};
ghost use Rattle.limits.specs.Limits.{max_terminals};
ghost use Rattle.cost_table.specs.Cells.{cell_in};

use limits::Cost;
use subset::{Subset, sets_of};

// The cell of site v and the set w, for k stations.
pub fn cell(cells: &[Cost], k: u8, v: u16, w: Subset) -> Cost
    requires { (k ≤ max_terminals) × (v * 2 ^ k + w.0 < length cells.now) }
    ensures { result ≡ cell_in cells.now (2 ^ k) v w.0 }
{
    cells[(v as usize) * sets_of(k) + (w.0 as usize)]
}
