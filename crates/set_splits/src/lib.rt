// The splits of one set into two parts at four sites: the least that the set costs there by itself or by a split.
#![tactic(auto)]

ghost use Rattle.std.specs.Prelude.{◌≡◌, ◌+◌, ◌-◌, ◌*◌, ◌<◌, ◌≤◌, length};
ghost use Rattle.limits.specs.Limits.{max_subsets};
ghost use Rattle.lanes.specs.laws.Four.{FourLow};
ghost use Rattle.set_splits.specs.laws.FourCosts.{sum_four, both_finite, set_costs, FourCosts, costs_from};
ghost use Rattle.set_splits.specs.laws.PairSums.{PairAsked, pair_from};
ghost use Rattle.set_splits.specs.laws.BestSplit.{BestSplits};
ghost use Rattle.set_splits.specs.laws.FreeParts.{FreePart, FreeParts, none_empty, rest_costs};

use lanes::{Four, lanes_of, lesser_of};
use limits::Cost;
use working_none::WORKING_NONE;

// Four costs and four costs, added.
fn sum_of(x: Four<Cost>, y: Four<Cost>) -> Four<Cost>
    requires { FourLow x × FourLow y }
    ensures { result ≡ sum_four x y }
{
    Four {
        a: x.a + y.a,
        b: x.b + y.b,
        c: x.c + y.c,
        d: x.d + y.d,
    }
}

// Whether at one of four sites both costs are finite.
fn both_finite(x: Four<Cost>, y: Four<Cost>) -> bool
    ensures { result ≡ both_finite x y }
{
    ((x.a < WORKING_NONE) & (y.a < WORKING_NONE))
        | ((x.b < WORKING_NONE) & (y.b < WORKING_NONE))
        | ((x.c < WORKING_NONE) & (y.c < WORKING_NONE))
        | ((x.d < WORKING_NONE) & (y.d < WORKING_NONE))
}

// The four costs from entry `at` on: those of the set at / 4.
fn costs_from(by_set: &[Cost], at: usize) -> Four<Cost>
    requires { (at + 4 ≤ length by_set.now) × (at < max_subsets * 4) }
    ensures { result ≡ costs_from by_set.now at }
{
    Four {
        a: by_set[at],
        b: by_set[at + 1],
        c: by_set[at + 2],
        d: by_set[at + 3],
    }
}

// At each of four sites the lesser of two splits of a set: its lowest station is with `rest`, or with y. Each set is given by its first entry.
fn pair_sums(by_set: &[Cost], y: usize, rest: usize, lowest: usize) -> Four<Cost>
    requires { PairAsked by_set.now y rest lowest }
    ensures { result ≡ pair_from by_set.now y rest lowest }
{
    let one = sum_of(costs_from(by_set, y), costs_from(by_set, rest + lowest));
    let other = sum_of(costs_from(by_set, y + lowest), costs_from(by_set, rest));
    lesser_of(one, other)
}

// Of each of four sites, the least of the cell of the set w and of its splits into two parts. They are tried in pairs, by the parts of w without its
// lowest station. Where the first split has at each site a part that is "none", so has every other one, and they are not tried.
fn least_splits(by_set: &[Cost], w: usize) -> Four<Cost>
    requires { FourCosts by_set.now w × (0 < w) }
    ensures { BestSplits (set_costs by_set.now) w result }
{
    let mut best = lanes_of(by_set, w);
    let others = (w - 1) & w;
    let lowest = w - others;
    if !both_finite(lanes_of(by_set, others), lanes_of(by_set, lowest)) {
        return best;
    }
    let top = others * 4;
    let low = lowest * 4;
    let half = top / 2;
    let mut y = top;
    // Not a `for`: from one part of the set to the next smaller one.
    while half < y {
        let sums = pair_sums(by_set, y, top - y, low);
        best = lesser_of(sums, best);
        y = (y - 1) & top;
    }
    best
}

// Whether a station of the set w is heard at each of four sites.
fn meets_all(w: usize, heard: Four<usize>) -> bool {
    ((w & heard.a) > 0) & ((w & heard.b) > 0) & ((w & heard.c) > 0) & ((w & heard.d) > 0)
}

// The lowest station of the set w that is heard at site j of four, where its cell is 0; else the empty set.
fn free_part(by_set: &[Cost], w: usize, heard: usize, j: usize) -> usize
    requires { FourCosts by_set.now w × (j < 4) }
    ensures { FreePart (set_costs by_set.now j) w result }
{
    let both = heard & w;
    if both == 0 {
        return 0;
    }
    let lowest = both - ((both - 1) & both);
    if 0 < by_set[lowest * 4 + j] {
        return 0;
    }
    lowest
}

// These at four sites.
fn free_parts(by_set: &[Cost], w: usize, heard: Four<usize>) -> Four<usize>
    requires { FourCosts by_set.now w }
    ensures { FreeParts (set_costs by_set.now) w result }
{
    Four {
        a: free_part(by_set, w, heard.a, 0),
        b: free_part(by_set, w, heard.b, 1),
        c: free_part(by_set, w, heard.c, 2),
        d: free_part(by_set, w, heard.d, 3),
    }
}

// Whether none of four parts is empty.
fn none_empty(parts: Four<usize>) -> bool
    ensures { result ≡ none_empty parts }
{
    (0 < parts.a) & (0 < parts.b) & (0 < parts.c) & (0 < parts.d)
}

// The cell of the set w without a part, at site j of four.
fn rest_cost(by_set: &[Cost], w: usize, part: usize, j: usize) -> Cost
    requires { FourCosts by_set.now w × (part ≤ w) × (j < 4) }
    ensures { result ≡ set_costs by_set.now j (w - part) }
{
    by_set[(w - part) * 4 + j]
}

// These at four sites.
fn rest_costs(by_set: &[Cost], w: usize, parts: Four<usize>) -> Four<Cost>
    requires { FourCosts by_set.now w × FreeParts (set_costs by_set.now) w parts }
    ensures { result ≡ rest_costs (set_costs by_set.now) w parts }
{
    Four {
        a: rest_cost(by_set, w, parts.a, 0),
        b: rest_cost(by_set, w, parts.b, 1),
        c: rest_cost(by_set, w, parts.c, 2),
        d: rest_cost(by_set, w, parts.d, 3),
    }
}

// Of each of four sites, the least of the cell of the set w and of its splits. Where a station of w is heard at each of them, the other stations cost as
// much as all, and no split is tried. `heard` says which stations are.
pub fn best_splits(by_set: &[Cost], w: usize, heard: Four<usize>) -> Four<Cost>
    requires { FourCosts by_set.now w × (0 < w) }
    ensures { BestSplits (set_costs by_set.now) w result }
{
    if meets_all(w, heard) {
        let parts = free_parts(by_set, w, heard);
        if none_empty(parts) {
            return lesser_of(rest_costs(by_set, w, parts), lanes_of(by_set, w));
        }
    }
    least_splits(by_set, w)
}
