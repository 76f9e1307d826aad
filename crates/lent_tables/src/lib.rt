// The lent tables: the lengths that are needed of them, and whether they have them. specs/SheetTables.antt has the tables that hold a sheet, as a
// record of lists, and specs/IndexTables.antt those that hold the index of its legs; a function is lent each table by itself.
#![tactic(auto)]

ghost use Rattle.std.specs.Prelude.{◌≡◌, ◌≤◌};
ghost use Rattle.limits.specs.Limits.{max_terminals};
ghost use Rattle.lent_tables.specs.Lengths.{is_enough, further_pass, lengths_pass, marks_only, share_lengths, search_lengths};

use limits::Counts;
use subset::sets_of;

// The lengths of all further tables, those that are not loaded with the sheet: leg numbers by end (one entry a leg), starting places (n + 1), cells
// (n times 2^k), marks (n) and shares (k). None where a table is not needed.
#[derive(Clone, Copy)]
pub struct FurtherLengths {
    pub by_end: Option<usize>,
    pub places: Option<usize>,
    pub cells: Option<usize>,
    pub marks: Option<usize>,
    pub shares: Option<usize>,
}

impl FurtherLengths {
    // No further table is needed.
    pub const NONE: FurtherLengths = FurtherLengths {
        by_end: None,
        places: None,
        cells: None,
        marks: None,
        shares: None,
    };

    // The marks are needed.
    pub fn of_marks(marks: usize) -> FurtherLengths
        ensures { result ≡ marks_only marks }
    {
        FurtherLengths {
            marks: Some(marks),
            ..FurtherLengths::NONE
        }
    }

    // The marks and the shares are needed.
    pub fn of_shares(marks: usize, shares: usize) -> FurtherLengths
        ensures { result ≡ share_lengths marks shares }
    {
        FurtherLengths {
            shares: Some(shares),
            ..FurtherLengths::of_marks(marks)
        }
    }

    // The tables of the search are needed.
    pub fn of_search(by_end: usize, places: usize, cells: usize, marks: usize) -> FurtherLengths
        ensures { result ≡ search_lengths by_end places cells marks }
    {
        FurtherLengths {
            by_end: Some(by_end),
            places: Some(places),
            cells: Some(cells),
            ..FurtherLengths::of_marks(marks)
        }
    }
}

// Whether a further table has so many entries, where it is needed.
fn is_enough(need: usize, table: Option<usize>) -> bool
    ensures { result ≡ is_enough need table }
{
    match table {
        Some(count) => need <= count,
        None => true,
    }
}

// Whether the further tables of these lengths are long enough for a sheet with so many sites, stations and legs.
fn further_enough(counts: Counts, further: FurtherLengths) -> bool
    requires { counts.k ≤ max_terminals }
    ensures { result ≡ further_pass counts.n counts.k counts.arcs further }
{
    let node_count = counts.n as usize;
    is_enough(counts.arcs as usize, further.by_end)
        && is_enough(node_count + 1, further.places)
        && is_enough(node_count * sets_of(counts.k), further.cells)
        && is_enough(node_count, further.marks)
        && is_enough(counts.k as usize, further.shares)
}

// Whether all tables of these lengths are.
pub fn long_enough(
    counts: Counts,
    starts: usize,
    ends: usize,
    weights: usize,
    landings: usize,
    further: FurtherLengths,
) -> bool
    requires { counts.k ≤ max_terminals }
    ensures { result ≡ lengths_pass counts.n counts.k counts.arcs starts ends weights landings further }
{
    let arc_count = counts.arcs as usize;
    arc_count <= starts
        && arc_count <= ends
        && arc_count <= weights
        && counts.n as usize <= landings
        && further_enough(counts, further)
}
