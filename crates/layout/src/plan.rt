// "Following and splitting hand the work to each other until the sets are used up. Legs are listed as they are added."
ghost use Rattle.std.specs.Prelude.{◌≡◌, ◌-◌, ◌^◌, ◌≤◌, ◌<◌, length};
ghost use Rattle.limits.specs.Limits.{no_cost};
ghost use Rattle.lists.specs.Over.{over};
ghost use Rattle.subset.specs.Sets.{full};
ghost use Rattle.lent_tables.specs.SheetTables.{sheet_tables};
ghost use Rattle.graph.specs.HeldGraph.{graph_in};
ghost use Rattle.cost_table.specs.Cells.{cell_in};
ghost use Rattle.layout_steps.specs.Costed.{costed_graph};
ghost use Rattle.layout_walk.specs.Plan.{laid, Ready, ReadySheet};
ghost use Rattle.layout_walk.specs.laws.Walk.{Placed, Unfollowed, Stored};

use layout_parts::splitting_part;
use layout_steps::CostedSheet;
use layout_walk::{Stop, walk};
use limits::Cost;
use subset::Subset;

// The legs of site v with the set w are listed in `out` from the place `at` on; the place after them.
// Legs are followed in a loop, so that the calls are only as deep as sets are split. The sheet is lent to them, so that none of them copies it.
#[cycle(follow_split)]
fn follow(sheet: &CostedSheet, v: u16, w: Subset, out: &mut [u16], at: usize) -> usize
    requires { ReadySheet sheet.now × Placed (costed_graph sheet.now) sheet.now.cells.now v w.0 at (length out.old) }
    ensures { let s = sheet.now in Stored (laid (costed_graph s) s.cells.now v w.0) at result out.old out.new }
{
    match walk(*sheet, v, w, out, at) {
        Stop::Done { place, .. } => place,
        Stop::Stuck { node, place } => split(sheet, node, w, out, place),
    }
}

// The same where no leg fits: "Y is laid first, then the rest".
#[cycle(follow_split)]
fn split(sheet: &CostedSheet, v: u16, w: Subset, out: &mut [u16], at: usize) -> usize
    requires { ReadySheet sheet.now × Placed (costed_graph sheet.now) sheet.now.cells.now v w.0 at (length out.old)
        × Unfollowed (costed_graph sheet.now) sheet.now.cells.now v w.0 }
    ensures { let s = sheet.now in Stored (laid (costed_graph s) s.cells.now v w.0) at result out.old out.new }
{
    match splitting_part(*sheet, v, w) {
        Some(y) => {
            let part = Subset(y);
            let rest = w.without(part);
            let mid = follow(sheet, v, part, out, at);
            follow(sheet, v, rest, out, mid)
        }
        None => at,
    }
}

// The legs of the root with the full set are the first entries of `out`; how many there are. Later entries are untouched.
// The tables hold a sheet with n sites, k stations and so many legs, and its finished cost table. They pass one by one: docs/FUNCTIONS.md names
// the parameters.
pub fn lay_out(
    starts: &[u16],
    ends: &[u16],
    weights: &[u32],
    landings: &[u16],
    cells: &[Cost],
    n: u16,
    k: u8,
    arcs: u16,
    root: u16,
    out: &mut [u16],
) -> usize
    requires { let t = sheet_tables starts.now ends.now weights.now landings.now in
        (Ready n k arcs t cells.now
        × ((root < n) × (cell_in cells.now (2 ^ k) root (full k) < no_cost) × (n - 1 ≤ length out.old))) }
    ensures { let t = sheet_tables starts.now ends.now weights.now landings.now in
        ((out.new ≡ over (laid (graph_in n k arcs t) cells.now root (full k)) out.old)
        × (result ≡ length (laid (graph_in n k arcs t) cells.now root (full k)))) }
{
    let sheet = &CostedSheet {
        starts,
        ends,
        weights,
        landings,
        cells,
        nodes: n,
        terminals: k,
        arcs,
    };
    follow(sheet, root, Subset::full(k), out, 0)
}
