// A plan file is read against the tables that hold a sheet: it is tested by itself, the sites that its legs reach are marked, and the plan is
// tested.
#![tactic(auto)]

ghost use Rattle.std.specs.Prelude.{◌≡◌, length};
ghost use Rattle.answer.specs.Stated.{stated};
ghost use Rattle.lent_tables.specs.SheetTables.{sheet_tables};
ghost use Rattle.loaded_sheet.specs.Held.{tables_of, graph_of};
ghost use Rattle.lent_tables.specs.Lengths.{marks_only};
ghost use Rattle.network.specs.HeldSheet.{HeldSheet};
ghost use Rattle.marking.specs.Listed.{listed_in, graph_along};
ghost use Rattle.reaching.specs.Marks.{marks_of};
ghost use Rattle.plan_tests.specs.PlanFaults.{answered_as};
ghost use Rattle.plan_tests.specs.ByMarks.{judged_fault};
ghost use Rattle.file_reader.specs.FileAnswer.{answer_to, marks_after};
ghost use Rattle.file_reader.specs.ArcsReady.{ArcsReady};

use answer::Answer;
use file_tests::open_file;
use limits::Counts;
use loaded_sheet::LoadedSheet;
use marking::ListedArcs;
use plan_tests::test_plan;
use planfile::fields::Listing;
use reaching::reach;

// The legs of a file that has no fault by itself: the sites that they reach are marked, and the plan is tested. The marks have one entry
// for each site.
fn read_arcs(
    arcs: ListedArcs,
    root: u16,
    total: u32,
    k: u8,
    weights: &[u32],
    landings: &[u16],
    marks: &mut [u8],
) -> Answer
    requires { let t = sheet_tables arcs.starts.now arcs.ends.now weights.now landings.now in
        ArcsReady arcs.listing.file.now root arcs.listing.count k t marks.old }
    ensures { let s = arcs.entry in
        ((marks.new ≡ marks_of (graph_along (length marks.old) s) (listed_in s) root)
        × (stated result
        ≡ answered_as (judged_fault s.listing.file.now root total s.listing.count k weights.now landings.now marks.new) root total s.listing.count)) }
{
    reach(arcs, root, marks);
    test_plan(arcs.listing, root, total, k, weights, landings, marks)
}

// A file, against a loaded sheet.
pub fn read_file(file: &[u8], sheet: LoadedSheet, marks: &mut [u8]) -> Answer
    requires { HeldSheet sheet.counts.n sheet.counts.k sheet.counts.arcs (tables_of sheet) (marks_only (length marks.old)) }
    ensures { let G = graph_of sheet.entry in
        ((stated result ≡ answer_to G file.now) × (marks.new ≡ marks_after G file.now marks.old)) }
{
    let Counts { n, k, arcs } = sheet.counts;
    let head = open_file(file, n, arcs)?;
    let listed = ListedArcs {
        listing: Listing {
            file,
            count: head.count,
        },
        starts: sheet.starts,
        ends: sheet.ends,
    };
    let nodes = n as usize;
    read_arcs(
        listed,
        head.root,
        head.total,
        k,
        sheet.weights,
        sheet.landings,
        &mut marks[..nodes],
    )
}
