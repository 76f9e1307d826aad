// The cheapest sender of a set of stations: of the senders whose cell of the set is least, the lowest.
ghost use Rattle.std.specs.Prelude.{◌≡◌, cond, ◌*◌, ◌^◌, ◌≤◌, ◌<◌, ltb, length};
ghost use Rattle.limits.specs.Limits.{max_terminals};
ghost use Rattle.cost_table.specs.Cheapest.{sender_column, LowestTo};

use crate::cell;
use landing_entries::is_sender;
use limits::Cost;
use subset::Subset;

// The cell of site v and the set w, where the site is a sender; else "none".
pub fn sender_cell(cells: &[Cost], landings: &[u16], n: u16, k: u8, v: u16, w: Subset) -> Cost
    requires { (k ≤ max_terminals) × (n * 2 ^ k ≤ length cells.now) × (n ≤ length landings.now) × (w.0 < 2 ^ k) × (v < n) }
    ensures { result ≡ sender_column cells.now landings.now k w.0 v }
{
    if is_sender(landings[v as usize]) {
        return cell(cells, k, v, w);
    }
    limits::NO_COST
}

// The second of two sites where its cell of the set w, as that of a sender, is less; else the first.
fn cheaper(
    cells: &[Cost],
    landings: &[u16],
    n: u16,
    k: u8,
    w: Subset,
    first: u16,
    second: u16,
) -> u16
    requires { (k ≤ max_terminals) × (n * 2 ^ k ≤ length cells.now) × (n ≤ length landings.now) × (w.0 < 2 ^ k) × (first < n) × (second < n) }
    ensures { let f = sender_column cells.now landings.now k w.0 in result ≡ cond (ltb (f second) (f first)) second first }
{
    if sender_cell(cells, landings, n, k, second, w)
        < sender_cell(cells, landings, n, k, first, w)
    {
        return second;
    }
    first
}

// Of n sites the cheapest sender, for k stations and the set w. Where no sender has a finite cell, it is a site whose cell, as that of a sender,
// is "none".
pub fn cheapest_sender(cells: &[Cost], landings: &[u16], n: u16, k: u8, w: Subset) -> u16
    requires { (1 ≤ n) × (k ≤ max_terminals) × (n * 2 ^ k ≤ length cells.now) × (n ≤ length landings.now) × (w.0 < 2 ^ k) }
    ensures { LowestTo (sender_column cells.now landings.now k w.0) n result }
{
    let mut node = 0;
    for v in 1..n {
        node = cheaper(cells, landings, n, k, w, node, v);
    }
    node
}
