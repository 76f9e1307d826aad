// The plan that a finished cost table gives: its root, its total and its legs, written into the plan buffer.
#![tactic(auto)]

ghost use Rattle.std.proofs.Math.Option.{some};
ghost use Rattle.answer.specs.Stated.{stated};
ghost use Rattle.loaded_sheet.specs.Held.{tables_of, graph_of};
ghost use Rattle.planfile.specs.laws.FormatLaws.{Fits};
ghost use Rattle.best_plan.specs.Plan.{plan_with, plan_of};
ghost use Rattle.best_plan.specs.laws.Best.{SentBack, FinishedSheet, FiniteRoot};

use answer::{Answer, Plan, SearchFault, TableFault};
use cost_table::cheapest::sender_cell;
use layout::plan::lay_out;
use layout::root::best_root;
use limits::{Cost, Counts};
use loaded_sheet::LoadedSheet;
use planfile::write::{WriteFault, write_plan};
use subset::Subset;

// The most legs of a tree: one for each site but the root.
const MAX_TREE_ARCS: usize = (limits::MAX_NODES as usize) - 1;

// The plan's file, where the buffer is long enough for it. Every number of a plan fits its bytes, so that there is always a file.
fn write_best(root: u16, total: u64, arcs: &[u16], buffer: &mut [u8]) -> Answer
    requires { Fits root total arcs.now }
    ensures { SentBack (some (plan_with root total arcs.now)) (stated result) buffer.old buffer.new }
{
    match write_plan(root, total, arcs, buffer) {
        Ok(_) => Ok(Plan {
            root,
            total,
            arcs: arcs.len() as u16,
        }),
        Err(WriteFault::ShortBuffer) => Err(TableFault::ShortBuffer.into()),
        Err(WriteFault::NoFile) => unreachable!(),
    }
}

// The plan from a root whose full-set cell is this cost, and finite: its legs are laid out, and its file is written.
fn lay_best(sheet: LoadedSheet, cells: &[Cost], root: u16, cost: Cost, buffer: &mut [u8]) -> Answer
    requires { FinishedSheet sheet.counts.n sheet.counts.k sheet.counts.arcs (tables_of sheet) cells.now
        × FiniteRoot sheet.counts.n sheet.counts.k cells.now sheet.landings.now root cost }
    ensures { SentBack (plan_of (graph_of sheet.entry)) (stated result) buffer.old buffer.new }
{
    let Counts { n, k, arcs } = sheet.counts;
    let mut listed = [0u16; MAX_TREE_ARCS];
    let count = lay_out(
        sheet.starts,
        sheet.ends,
        sheet.weights,
        sheet.landings,
        cells,
        n,
        k,
        arcs,
        root,
        &mut listed,
    );
    write_best(root, u64::from(cost), &listed[..count], buffer)
}

// The plan by the cells: none, where every sender's full-set cell is "none".
pub fn best_plan(sheet: LoadedSheet, cells: &[Cost], buffer: &mut [u8]) -> Answer
    requires { FinishedSheet sheet.counts.n sheet.counts.k sheet.counts.arcs (tables_of sheet) cells.now }
    ensures { SentBack (plan_of (graph_of sheet.entry)) (stated result) buffer.old buffer.new }
{
    let Counts { n, k, arcs: _ } = sheet.counts;
    let root = best_root(cells, sheet.landings, n, k);
    let cost = sender_cell(cells, sheet.landings, n, k, root, Subset::full(k));
    if cost == limits::NO_COST {
        return Err(SearchFault::NoPlan.into());
    }
    lay_best(sheet, cells, root, cost, buffer)
}
