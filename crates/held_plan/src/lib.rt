// The plan of a sheet that tables hold: its legs are indexed by their end, the cost table is searched, every site is marked, and the best plan is laid
// out and written.
#![tactic(auto)]

ghost use Rattle.std.specs.Prelude.{◌≡◌, length, replicate};
ghost use Rattle.limits.specs.Limits.{no_cost};
ghost use Rattle.lists.specs.Over.{over};
ghost use Rattle.answer.specs.Stated.{stated};
ghost use Rattle.lent_tables.specs.IndexTables.{index_tables};
ghost use Rattle.loaded_sheet.specs.Held.{tables_of, graph_of};
ghost use Rattle.cost_table.specs.Cells.{cost_table};
ghost use Rattle.lent_tables.specs.Lengths.{search_lengths};
ghost use Rattle.network.specs.HeldSheet.{HeldSheet};
ghost use Rattle.network.specs.Indexed.{indexed};
ghost use Rattle.best_plan.specs.Plan.{plan_of};
ghost use Rattle.best_plan.specs.laws.Best.{SentBack};

use answer::Answer;
use best_plan::best_plan;
use indexed_search::search_indexed;
use limits::{Cost, Counts};
use loaded_sheet::LoadedSheet;

// The plan of a loaded sheet: the index, the cost table, the marks, and the plan.
pub fn plan_held(
    sheet: LoadedSheet,
    by_end: &mut [u16],
    places: &mut [u16],
    cells: &mut [Cost],
    marks: &mut [u8],
    buffer: &mut [u8],
) -> Answer
    requires { HeldSheet sheet.counts.n sheet.counts.k sheet.counts.arcs (tables_of sheet)
        (search_lengths (length by_end.old) (length places.old) (length cells.old) (length marks.old)) }
    ensures { let G = graph_of sheet.entry in
        ((index_tables by_end.new places.new ≡ indexed G (index_tables by_end.old places.old))
        × ((cells.new ≡ over (cost_table G no_cost) cells.old)
        × ((marks.new ≡ over (replicate sheet.entry.counts.n 1) marks.old)
        × SentBack (plan_of G) (stated result) buffer.old buffer.new))) }
{
    let Counts { n, k, arcs } = sheet.counts;
    search_indexed(
        sheet.starts,
        sheet.ends,
        sheet.weights,
        sheet.landings,
        by_end,
        places,
        n,
        k,
        arcs,
        cells,
        marks,
    );
    best_plan(sheet, cells, buffer)
}
