// The search over tables that hold a sheet, with its index: the legs are indexed by their end, the cost table is searched, and every site is marked.
#![tactic(auto)]

ghost use Rattle.std.specs.Prelude.{◌≡◌, length, replicate};
ghost use Rattle.limits.specs.Limits.{no_cost};
ghost use Rattle.lists.specs.Over.{over};
ghost use Rattle.lent_tables.specs.SheetTables.{sheet_tables};
ghost use Rattle.lent_tables.specs.IndexTables.{index_tables};
ghost use Rattle.lent_tables.specs.Lengths.{search_lengths};
ghost use Rattle.graph.specs.HeldGraph.{graph_in};
ghost use Rattle.network.specs.HeldSheet.{HeldSheet};
ghost use Rattle.network.specs.Indexed.{indexed};
ghost use Rattle.cost_table.specs.Cells.{cost_table};

use arc_index::index_arcs;
use limits::Cost;
use search::search;

// A sheet with n sites, k stations and so many legs, over the tables that hold it: the index, the cost table and the marks.
pub fn search_indexed(
    starts: &[u16],
    ends: &[u16],
    weights: &[u32],
    landings: &[u16],
    by_end: &mut [u16],
    places: &mut [u16],
    n: u16,
    k: u8,
    arcs: u16,
    cells: &mut [Cost],
    marks: &mut [u8],
)
    requires { let t = sheet_tables starts.now ends.now weights.now landings.now in
        HeldSheet n k arcs t (search_lengths (length by_end.old) (length places.old) (length cells.old) (length marks.old)) }
    ensures { let G = graph_in n k arcs (sheet_tables starts.now ends.now weights.now landings.now) in
        ((index_tables by_end.new places.new ≡ indexed G (index_tables by_end.old places.old))
        × ((cells.new ≡ over (cost_table G no_cost) cells.old)
        × (marks.new ≡ over (replicate n 1) marks.old))) }
{
    index_arcs(ends, n, arcs, by_end, places);
    search(
        starts, ends, weights, landings, by_end, places, n, k, arcs, cells, marks,
    );
}
