// The search: the cost table over the graph that loaded tables hold (document 01, "The cost table").
// Of parallel legs a cheapest one is kept. The cells start with the landings; then, size by size, the sets are split at each site, and closed over the legs.
#![tactic(auto)]

ghost use Rattle.std.specs.Prelude.{◌≡◌, ◌*◌, ◌^◌, ◌≤◌, length, replicate};
ghost use Rattle.limits.specs.Limits.{no_cost, max_subsets};
ghost use Rattle.lists.specs.Over.{over};
ghost use Rattle.lent_tables.specs.SheetTables.{sheet_tables, with_landings};
ghost use Rattle.arc_index.specs.laws.Indexed.{Indexed, WholeIndex};
ghost use Rattle.working_none.specs.laws.Low.{entry};
ghost use Rattle.settling.specs.laws.Arcs.{start_at, end_at, weight_at};
ghost use Rattle.settling.specs.laws.Legs.{tables_of};
ghost use Rattle.settling.specs.laws.Lowered.{AllCovered};
ghost use Rattle.graph.specs.HeldGraph.{graph_in};
ghost use Rattle.cost_table.specs.Cells.{cost_table};
ghost use Rattle.order_ranges.specs.laws.Ranges.{Ordered, entry_of};
ghost use Rattle.search.specs.Searchable.{Searchable};

use columns::close_sets;
use kept_arcs::keep_cheapest;
use limits::Cost;
use order::POSITIONS;
use order_ranges::{end_of_size, sets_below};
use rows::start_rows;
use settling::Legs;
use splits::split_rows;
use subset::sets_of;
use working_none::finish;

// Four cells for each of the most sites, and for each of the most sets.
const MAX_LANES: usize = 4 * limits::MAX_NODES as usize;

// The most legs, and a place for each of the most sites and one for the end.
const MAX_ARCS: usize = limits::MAX_ARCS as usize;

const MAX_PLACES: usize = limits::MAX_NODES as usize + 1;

// The cells of all sites and sets. The index may leave out legs that are dearer than parallel ones; `sets` has the sets in their order, and `lanes` four
// entries for each site and for each set.
fn fill(
    legs: Legs,
    landings: &[u16],
    sets: &[u16],
    k: u8,
    arcs: usize,
    cells: &mut [Cost],
    lanes: &mut [Cost],
)
    requires { let t = with_landings landings.now (tables_of legs) in
        (Searchable legs.n k arcs t × Indexed legs.n arcs (graph_in legs.n k arcs t).end legs.index.now legs.places.now × (length cells.old ≡ legs.n * 2 ^ k)
        × (legs.n * 4 ≤ length lanes.old) × (2 ^ k * 4 ≤ length lanes.old) × Ordered (entry_of sets.now) (length sets.now) (2 ^ k)
        × (length sets.now ≤ max_subsets) × AllCovered arcs (start_at t) (end_at t) (weight_at t) legs.index.now (entry legs.places.now legs.n)) }
    ensures { cells.new ≡ cost_table (graph_in legs.entry.n k arcs (with_landings landings.now (tables_of legs.entry))) no_cost }
{
    let n = legs.n;
    let size = sets_of(k);
    let wide = n * 4;
    start_rows(landings, n, size, cells);
    // Not a `for`: a range of one size after the other.
    let mut first: usize = 1;
    while first < sets.len() {
        let last = end_of_size(sets, first);
        split_rows(sets, landings, n, size, first, last, cells, lanes);
        close_sets(
            sets,
            legs,
            arcs,
            size,
            first,
            last,
            cells,
            &mut lanes[..wide],
        );
        first = last;
    }
    finish(cells);
}

// The cost table and the marks of a sheet with n sites, k stations and so many legs, over the tables that hold it and the index of its legs.
pub fn search(
    starts: &[u16],
    ends: &[u16],
    weights: &[u32],
    landings: &[u16],
    index: &[u16],
    places: &[u16],
    n: u16,
    k: u8,
    arcs: u16,
    cells: &mut [Cost],
    marks: &mut [u8],
)
    requires { let t = sheet_tables starts.now ends.now weights.now landings.now in
        (Searchable n k arcs t × WholeIndex n arcs (graph_in n k arcs t).end index.now places.now × (n * 2 ^ k ≤ length cells.old)
        × (n ≤ length marks.old)) }
    ensures { let t = sheet_tables starts.now ends.now weights.now landings.now in
        ((cells.new ≡ over (cost_table (graph_in n k arcs t) no_cost) cells.old)
        × (marks.new ≡ over (replicate n 1) marks.old)) }
{
    let nodes = n as usize;
    let size = sets_of(k);
    let total = nodes * size;
    let mut sets = [0u16; POSITIONS];
    let count = sets_below(size, &mut sets);
    let mut lanes = [0 as Cost; MAX_LANES];
    let mut kept = [0u16; MAX_ARCS];
    let mut begins = [0u16; MAX_PLACES];
    keep_cheapest(
        starts,
        weights,
        index,
        places,
        nodes,
        &mut kept,
        &mut begins,
    );
    let legs = Legs {
        n: nodes,
        starts,
        ends,
        weights,
        index: &kept,
        places: &begins,
    };
    fill(
        legs,
        landings,
        &sets[..count],
        k,
        arcs as usize,
        &mut cells[..total],
        &mut lanes,
    );
    let marked = &mut marks[..nodes];
    marked.fill(1);
}
