// The root of a plan: "The root is the lowest cheapest sender."
ghost use Rattle.std.specs.Prelude.{◌*◌, ◌^◌, ◌≤◌, length};
ghost use Rattle.limits.specs.Limits.{max_terminals};
ghost use Rattle.cost_table.specs.Cheapest.{LowestTo};
ghost use Rattle.layout.specs.Root.{full_cell_in};

use cost_table::cheapest::cheapest_sender;
use limits::Cost;
use subset::Subset;

// The root for n sites and k stations, where a sender has a finite full-set cell.
pub fn best_root(cells: &[Cost], landings: &[u16], n: u16, k: u8) -> u16
    requires { (1 ≤ n) × (k ≤ max_terminals) × (n * 2 ^ k ≤ length cells.now) × (n ≤ length landings.now) }
    ensures { LowestTo (full_cell_in k cells.now landings.now) n result }
{
    cheapest_sender(cells, landings, n, k, Subset::full(k))
}
