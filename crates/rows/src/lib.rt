// The cells of one site, one for each set of stations, as they are before the search.
#![tactic(auto)]

ghost use Rattle.std.specs.Prelude.{◌≡◌, map, ◌*◌, ◌≤◌, length};
ghost use Rattle.limits.specs.Limits.{max_nodes, max_subsets};
ghost use Rattle.lists.specs.Numbers.{numbers};
ghost use Rattle.rows.specs.laws.Start.{start_cell};
ghost use Rattle.rows.specs.laws.Rows.{EachRow, StartRow};

use landing_entries::terminals_in;
use limits::Cost;
use subset::Subset;
use working_none::WORKING_NONE;

// The cell of the set w before the search, at a site with these landings: 0 for the empty set, and for one station that lands there.
fn start_cell(landings: Subset, w: u16) -> Cost
    ensures { result ≡ start_cell landings.0 w }
{
    if w == 0 {
        return 0;
    }
    let set = Subset(w);
    if set.is_part_of(landings) && set.size() == 1 {
        return 0;
    }
    WORKING_NONE
}

// The cells of a site before the search.
fn start_row(landings: Subset, row: &mut [Cost])
    requires { length row.old ≤ max_subsets }
    ensures { row.new ≡ map (start_cell landings.0) (numbers 0 (length row.old)) }
{
    for (w, cost) in row.iter_mut().enumerate() {
        *cost = start_cell(landings, w as u16);
    }
}

// The cells of all sites before the search.
pub fn start_rows(landings: &[u16], n: usize, size: usize, cells: &mut [Cost])
    requires { (n ≤ max_nodes) × (size ≤ max_subsets) × (length cells.old ≡ n * size) × (n ≤ length landings.now) }
    ensures { EachRow (StartRow landings.now) n size n cells.old cells.new }
{
    for v in 0..n {
        let from = v * size;
        let to = from + size;
        start_row(terminals_in(landings[v]), &mut cells[from..to]);
    }
}
