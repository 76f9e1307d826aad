// Four cells of one site at a time, and four columns of the table, those of four sets, side by side: a table with four cells for each site.
#![tactic(auto)]

ghost use Rattle.std.specs.Prelude.{◌≡◌, ℕ, ◌+◌, ◌*◌, ◌<◌, ◌≤◌, min, ltb, length};
ghost use Rattle.limits.specs.Limits.{max_subsets};
ghost use Rattle.lanes.specs.laws.Four.{nth, signed_limit, FourSmall, four_at, four_of, less_four, four_from};
ghost use Rattle.lanes.specs.laws.WriteFour.{write_four};
ghost use Rattle.lanes.specs.laws.Columns.{ColumnsTaken, ColumnsGiven};

use limits::{Cost, SignedCost};

// The cells of one site, one for each of four sets; or four sets, or four sites.
#[derive(Clone, Copy)]
pub struct Four<T> {
    pub a: T,
    pub b: T,
    pub c: T,
    pub d: T,
}

// The four columns of a table that has no other ones.
const LANES: Four<usize> = Four {
    a: 0,
    b: 1,
    c: 2,
    d: 3,
};

// Whether a cost is less than another one. Both are below half of what a cell can hold, and are compared as signed numbers: a machine compares
// four of these at once in fewer steps.
pub fn less(x: Cost, y: Cost) -> bool
    requires { (x < signed_limit) × (y < signed_limit) }
    ensures { result ≡ ltb x y }
{
    (x as SignedCost) < (y as SignedCost)
}

// The lesser of two such costs. (The library's `min` of costs compares them as unsigned numbers.)
fn lesser_signed(x: Cost, y: Cost) -> Cost
    requires { (x < signed_limit) × (y < signed_limit) }
    ensures { result ≡ min x y }
{
    if less(x, y) {
        return x;
    }
    y
}

// The lesser ones of four and four costs.
pub fn lesser_of(x: Four<Cost>, y: Four<Cost>) -> Four<Cost>
    requires { FourSmall x × FourSmall y }
    ensures { result ≡ less_four x y }
{
    Four {
        a: lesser_signed(x.a, y.a),
        b: lesser_signed(x.b, y.b),
        c: lesser_signed(x.c, y.c),
        d: lesser_signed(x.d, y.d),
    }
}

// The four numbers from `first` on; past the last one below `end`, that one again.
pub fn four_from(first: usize, end: usize) -> Four<usize>
    requires { (first < end) × (end ≤ max_subsets) }
    ensures { result ≡ four_from first end }
{
    let last = end - 1;
    Four {
        a: first,
        b: (first + 1).min(last),
        c: (first + 2).min(last),
        d: (first + 3).min(last),
    }
}

// The cells of site v and four sets, in a table with so many cells for each site.
fn read_four(cells: &[Cost], size: usize, v: usize, sets: Four<usize>) -> Four<Cost>
    requires { (v * size + size ≤ length cells.now) × (sets.a < size) × (sets.b < size) × (sets.c < size) × (sets.d < size) }
    ensures { result ≡ four_at cells.now size v (nth sets) }
{
    let row = v * size;
    Four {
        a: cells[row + sets.a],
        b: cells[row + sets.b],
        c: cells[row + sets.c],
        d: cells[row + sets.d],
    }
}

// They are written; where two of the sets are one, the later value counts.
fn write_four(cells: &mut [Cost], size: usize, v: usize, sets: Four<usize>, four: Four<Cost>)
    requires { (v * size + size ≤ length cells.old) × (sets.a < size) × (sets.b < size) × (sets.c < size) × (sets.d < size) }
    ensures { cells.new ≡ write_four size v (nth sets) (nth four) cells.old }
{
    let row = v * size;
    cells[row + sets.a] = four.a;
    cells[row + sets.b] = four.b;
    cells[row + sets.c] = four.c;
    cells[row + sets.d] = four.d;
}

// The cells of site v in four columns.
pub fn lanes_of(lanes: &[Cost], v: usize) -> Four<Cost>
    requires { v * 4 + 4 ≤ length lanes.now }
    ensures { result ≡ four_of lanes.now v }
{
    read_four(lanes, 4, v, LANES)
}

// They are written.
pub fn set_lanes(lanes: &mut [Cost], v: usize, four: Four<Cost>)
    requires { v * 4 + 4 ≤ length lanes.old }
    ensures { lanes.new ≡ write_four 4 v (λ j. j) (nth four) lanes.old }
{
    write_four(lanes, 4, v, LANES, four);
}

// The cells of four sets, site by site.
pub fn take_columns(cells: &[Cost], n: usize, size: usize, sets: Four<usize>, lanes: &mut [Cost])
    requires { (n * size ≤ length cells.now) × (n * 4 ≤ length lanes.old) × ((j : ℕ) → j < 4 → nth sets j < size) }
    ensures { ColumnsTaken size (nth sets) cells.now n lanes.old lanes.new }
{
    for v in 0..n {
        set_lanes(lanes, v, read_four(cells, size, v, sets));
    }
}

// They become the cells of the four sets, from the last site on: its cells were taken last, and are the nearest in a cache. Where two of the sets are one,
// the later column counts.
pub fn give_columns(lanes: &[Cost], n: usize, size: usize, sets: Four<usize>, cells: &mut [Cost])
    requires { (n * size ≤ length cells.old) × (n * 4 ≤ length lanes.now) × ((j : ℕ) → j < 4 → nth sets j < size) }
    ensures { ColumnsGiven size (nth sets) lanes.now n cells.old cells.new }
{
    for v in (0..n).rev() {
        write_four(cells, size, v, sets, lanes_of(lanes, v));
    }
}
