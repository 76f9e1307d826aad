// A plan file is read against the tables that hold a sheet, and where it is accepted, the prices of its legs are divided into shares.
#![tactic(auto)]

ghost use Rattle.std.specs.Prelude.{◌≡◌, length};
ghost use Rattle.answer.specs.Stated.{stated_sharing};
ghost use Rattle.lent_tables.specs.SheetTables.{sheet_tables};
ghost use Rattle.graph.specs.Graph.{Graph};
ghost use Rattle.loaded_sheet.specs.Held.{tables_of, graph_of};
ghost use Rattle.lent_tables.specs.Lengths.{share_lengths};
ghost use Rattle.network.specs.HeldSheet.{HeldSheet};
ghost use Rattle.file_reader.specs.FileAnswer.{marks_after};
ghost use Rattle.file_shares.specs.Sharing.{sharing_to, shares_after};
ghost use Rattle.file_shares.specs.PlanReady.{PlanReady, SomePlan, Divided};

use answer::{Shared, Sharing};
use file_reader::read_file;
use limits::{Cost, Counts};
use loaded_sheet::LoadedSheet;
use marking::ListedArcs;
use planfile::fields::Listing;
use price_parts::split_listed;
use serving::parents::{NO_PARENT, set_parents};
use serving::seats::serve;

const MAX_NODES: usize = limits::MAX_NODES as usize;

// The prices of the listed legs, divided over k stations: the shares, one entry a station, and the unassigned sum. The marks have one entry for
// each site, and the listed legs are a plan.
fn divide(
    arcs: ListedArcs,
    k: u8,
    weights: &[u32],
    landings: &[u16],
    marks: &[u8],
    shares: &mut [Cost],
) -> Cost
    requires { let t = sheet_tables arcs.starts.now arcs.ends.now weights.now landings.now in
        (SomePlan arcs.listing.file.now arcs.listing.count k t marks.now × (length shares.old ≡ k)) }
    ensures { let s = arcs.entry in
        (let t = sheet_tables s.starts.now s.ends.now weights.now landings.now in
        ((G : Graph) (root : _) → PlanReady G root s.listing.file.now s.listing.count k t marks.now
        → Divided G root s.listing.file.now s.listing.count shares.new result)) }
{
    let mut parents = [NO_PARENT; MAX_NODES];
    let mut served = [0u16; MAX_NODES];
    set_parents(arcs, &mut parents);
    serve(&parents, marks, landings, k, &mut served);
    split_listed(arcs.listing, arcs.ends, weights, &served, shares)
}

// A file, against a loaded sheet.
pub fn share_file(file: &[u8], sheet: LoadedSheet, marks: &mut [u8], shares: &mut [Cost]) -> Sharing
    requires { HeldSheet sheet.counts.n sheet.counts.k sheet.counts.arcs (tables_of sheet) (share_lengths (length marks.old) (length shares.old)) }
    ensures { let G = graph_of sheet.entry in
        ((stated_sharing result ≡ sharing_to G file.now)
        × ((marks.new ≡ marks_after G file.now marks.old)
        × (shares.new ≡ shares_after G file.now shares.old))) }
{
    let Counts { n, k, arcs: _ } = sheet.counts;
    let plan = read_file(file, sheet, marks)?;
    let listed = ListedArcs {
        listing: Listing {
            file,
            count: plan.arcs,
        },
        starts: sheet.starts,
        ends: sheet.ends,
    };
    let nodes = n as usize;
    let terminals = k as usize;
    let unassigned = divide(
        listed,
        k,
        sheet.weights,
        sheet.landings,
        &marks[..nodes],
        &mut shares[..terminals],
    );
    Ok(Shared {
        plan,
        unassigned: u64::from(unassigned),
    })
}
