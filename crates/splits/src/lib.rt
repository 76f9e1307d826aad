// The cells of each site, one for each set of stations, are lowered by the splits of the sets of one size into two parts, four sites at a time.
#![tactic(auto)]

ghost use Rattle.std.specs.Prelude.{◌≡◌, ◌+◌, ◌*◌, ◌<◌, ◌≤◌, length};
ghost use Rattle.limits.specs.Limits.{max_nodes, max_subsets};
ghost use Rattle.order_ranges.specs.laws.Ranges.{Ordered, OneSize, entry_of};
ghost use Rattle.working_none.specs.laws.Low.{AllLow};
ghost use Rattle.lanes.specs.laws.Four.{nth};
ghost use Rattle.lanes.specs.laws.WriteFour.{write_rows};
ghost use Rattle.set_splits.specs.laws.FourCosts.{rows_at};
ghost use Rattle.splits.specs.laws.FourRows.{cells_at, Rows, RowsTaken};
ghost use Rattle.splits.specs.laws.SplitRows.{FourSplit, SplitTo};

use finite_sites::{four_finite, next_finite};
use lanes::{Four, set_lanes};
use limits::Cost;
use set_splits::best_splits;

// The cells of four sites and the set w, in a table with so many cells for each site.
fn read_rows(cells: &[Cost], size: usize, rows: Four<usize>, w: usize) -> Four<Cost>
    requires { (rows.a * size + w < length cells.now) × (rows.b * size + w < length cells.now)
        × (rows.c * size + w < length cells.now) × (rows.d * size + w < length cells.now) }
    ensures { result ≡ rows_at (cells_at cells.now size (nth rows)) w }
{
    Four {
        a: cells[rows.a * size + w],
        b: cells[rows.b * size + w],
        c: cells[rows.c * size + w],
        d: cells[rows.d * size + w],
    }
}

// They are written; where two of the sites are one, the later value counts.
fn write_rows(cells: &mut [Cost], size: usize, rows: Four<usize>, w: usize, four: Four<Cost>)
    requires { (rows.a * size + w < length cells.old) × (rows.b * size + w < length cells.old)
        × (rows.c * size + w < length cells.old) × (rows.d * size + w < length cells.old) }
    ensures { cells.new ≡ write_rows size (nth rows) w (nth four) cells.old }
{
    cells[rows.a * size + w] = four.a;
    cells[rows.b * size + w] = four.b;
    cells[rows.c * size + w] = four.c;
    cells[rows.d * size + w] = four.d;
}

// The cells of four sites, set by set: four for each set.
fn take_rows(cells: &[Cost], size: usize, rows: Four<usize>, by_set: &mut [Cost])
    requires { Rows cells.now size (nth rows) × (size * 4 ≤ length by_set.old) }
    ensures { RowsTaken cells.now size (nth rows) size by_set.old by_set.new }
{
    for w in 0..size {
        set_lanes(by_set, w, read_rows(cells, size, rows, w));
    }
}

// The landing sets of four sites: the stations that are heard there, and the flag of a sender, which is no station.
fn heard_at(landings: &[u16], sites: Four<usize>) -> Four<usize>
    requires { (sites.a < length landings.now) × (sites.b < length landings.now) × (sites.c < length landings.now) × (sites.d < length landings.now) }
{
    Four {
        a: landings[sites.a] as usize,
        b: landings[sites.b] as usize,
        c: landings[sites.c] as usize,
        d: landings[sites.d] as usize,
    }
}

// Each set at the positions from `first` up to `last` of the order, which have one size: its cells at four sites become these least ones. There are
// four entries for each set in `by_set`.
fn split_four(
    sets: &[u16],
    size: usize,
    rows: Four<usize>,
    heard: Four<usize>,
    first: usize,
    last: usize,
    cells: &mut [Cost],
    by_set: &mut [Cost],
)
    requires { Ordered (entry_of sets.now) (length sets.now) size × OneSize (entry_of sets.now) (length sets.now) first last
        × (0 < first) × Rows cells.old size (nth rows) × (size * 4 ≤ length by_set.old) }
    ensures { FourSplit (entry_of sets.now) first last size (nth rows) cells.old cells.new }
{
    take_rows(cells, size, rows, by_set);
    for position in first..last {
        let w = sets[position] as usize;
        write_rows(cells, size, rows, w, best_splits(by_set, w, heard));
    }
}

// The splits of the sets of one size at all sites. A site without a finite cell of one station has none of more. There are four entries for each set in
// `by_set`.
pub fn split_rows(
    sets: &[u16],
    landings: &[u16],
    n: usize,
    size: usize,
    first: usize,
    last: usize,
    cells: &mut [Cost],
    by_set: &mut [Cost],
)
    requires { Ordered (entry_of sets.now) (length sets.now) size × OneSize (entry_of sets.now) (length sets.now) first last
        × (0 < first) × (n ≤ max_nodes) × (size ≤ max_subsets) × (length cells.old ≡ n * size) × AllLow cells.old
        × (size * 4 ≤ length by_set.old) × (n ≤ length landings.now) }
    ensures { SplitTo (entry_of sets.now) first last n size n cells.old cells.new }
{
    let mut from = 0;
    while let Some(v) = next_finite(cells, size, n, from) {
        let four = four_finite(cells, size, n, v);
        let heard = heard_at(landings, four);
        split_four(sets, size, four, heard, first, last, cells, by_set);
        from = four.d + 1;
    }
}
