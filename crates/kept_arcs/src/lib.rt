// The legs that count in a search: of those with the same start and the same end a cheapest one.
#![tactic(auto)]

ghost use Rattle.std.specs.Prelude.{◌≡◌, ◌⊎◌, true, ℕ, ◌+◌, ◌<◌, ◌≤◌, length};
ghost use Rattle.limits.specs.Limits.{max_nodes, max_arcs};
ghost use Rattle.working_none.specs.laws.Low.{entry};
ghost use Rattle.kept_arcs.specs.laws.Kept.{KeptOne, KeptTo};
ghost use Rattle.kept_arcs.specs.laws.Groups.{ArcAt, IndexAsked, KeptIndex};

// As many entries as there are sites at most.
const SITES: usize = limits::MAX_NODES as usize;

// The cheaper of two legs; the first where both cost the same.
fn cheaper(weights: &[u32], x: u16, y: u16) -> u16
    requires { (x < length weights.now) × (y < length weights.now) }
    ensures { ((result ≡ x) × (entry weights.now x ≤ entry weights.now y))
        ⊎ ((result ≡ y) × (entry weights.now y ≤ entry weights.now x)) }
{
    if weights[y as usize] < weights[x as usize] {
        return y;
    }
    x
}

// Whether the entry at `place` is one of those from `first` up to `count`, with a leg that has this start.
fn is_parallel(
    starts: &[u16],
    kept: &[u16],
    first: usize,
    count: usize,
    place: usize,
    start: u16,
) -> bool
    requires { (count ≤ length kept.now) × ((p : ℕ) → first ≤ p → p < count → entry kept.now p < length starts.now) }
    ensures { result ≡ true → (first ≤ place) × (place < count) × (entry starts.now (entry kept.now place) ≡ start) }
{
    if place < first {
        return false;
    }
    if count <= place {
        return false;
    }
    starts[kept[place] as usize] == start
}

// Leg e is kept among the legs of its end, which are the entries from `first` up to `count`: in the place of a dearer one with its start, or behind them.
// `last` says of each site where the last leg from there was kept.
fn keep_arc(
    starts: &[u16],
    weights: &[u32],
    e: u16,
    first: usize,
    count: usize,
    last: &mut [u16],
    kept: &mut [u16],
) -> usize
    requires { (e < length starts.now) × (e < length weights.now) × (entry starts.now e < length last.old) × (first ≤ count)
        × (count < length kept.old) × (count < max_arcs)
        × ((p : ℕ) → first ≤ p → p < count → (entry kept.old p < length starts.now) × (entry kept.old p < length weights.now)) }
    ensures { KeptOne starts.now weights.now e first count result kept.old kept.new }
{
    let start = starts[e as usize];
    let place = last[start as usize] as usize;
    if is_parallel(starts, kept, first, count, place, start) {
        kept[place] = cheaper(weights, kept[place], e);
        return count;
    }
    last[start as usize] = count as u16;
    kept[count] = e;
    count + 1
}

// The legs at the places from `from` up to `end` of a list are kept behind the first entries; how many entries there are then.
fn keep_group(
    starts: &[u16],
    weights: &[u32],
    list: &[u16],
    from: usize,
    end: usize,
    first: usize,
    last: &mut [u16],
    kept: &mut [u16],
) -> usize
    requires { (length last.old ≡ max_nodes) × (from ≤ end) × (first + end ≤ from + max_arcs) × (max_arcs ≤ length kept.old)
        × ((j : ℕ) → from ≤ j → j < end → ArcAt starts.now weights.now list.now j) }
    ensures { KeptTo starts.now weights.now list.now from end first result kept.old kept.new }
{
    let mut count = first;
    for i in from..end {
        count = keep_arc(starts, weights, list[i], first, count, last, kept);
    }
    count
}

// The index of the kept legs, from that of all legs. The legs of site v are the entries from entry v of `begins` on.
pub fn keep_cheapest(
    starts: &[u16],
    weights: &[u32],
    list: &[u16],
    places: &[u16],
    n: usize,
    kept: &mut [u16],
    begins: &mut [u16],
)
    requires { IndexAsked n starts.now weights.now list.now places.now × (max_arcs ≤ length kept.old) × (n < length begins.old) }
    ensures { KeptIndex starts.now weights.now list.now places.now n kept.new begins.new }
{
    let mut last = [0u16; SITES];
    begins[0] = 0;
    let mut count = 0;
    for v in 0..n {
        let from = places[v] as usize;
        let end = places[v + 1] as usize;
        count = keep_group(starts, weights, list, from, end, count, &mut last, kept);
        begins[v + 1] = count as u16;
    }
}
