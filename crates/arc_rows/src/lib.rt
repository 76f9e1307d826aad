// The listed legs row by row: a row has the listed legs that start at one site, each once, by the number of a record that lists it. The rows are
// walked site by site, from the root on, in the order in which the sites are marked, so that each listed leg is looked at once.
// Nothing is proved of the rows but bounds: a leg marks its end only where its start is marked.
#![tactic(auto)]

ghost use Rattle.std.specs.Prelude.{◌≤◌, ◌<◌, length};
ghost use Rattle.limits.specs.Limits.{max_nodes, max_arcs};
ghost use Rattle.marking.specs.Links.{Below};
ghost use Rattle.marking.specs.Listed.{listed_in, graph_along, LeadWithin};
ghost use Rattle.marking.specs.Marking.{Carried};
ghost use Rattle.arc_rows.specs.Rows.{StartsBelow, AllBelow, RowsReady, Queued, RowMarked};

use marking::ListedArcs;

const MAX_NODES: usize = limits::MAX_NODES as usize;

const MAX_ARCS: usize = limits::MAX_ARCS as usize;

// No record has this number. The tables of rows have an entry of two bytes for each site and each leg: fixed memory.
const NO_RECORD: u16 = 65_535;

// The record after the new one, i, in a row that begins with `first`: the last record of a row is followed by itself.
fn followed_by(first: u16, i: u16) -> u16 {
    if first == NO_RECORD {
        return i;
    }
    first
}

// The record after record i, in whose leg's entry `next` stands, or none after the last of a row.
fn later_record(next: u16, i: u16) -> u16 {
    if next == i {
        return NO_RECORD;
    }
    next
}

// Each listed leg comes into the row of its start: `first` has the first record of each site's row, `next` the record after each leg's.
fn link(arcs: ListedArcs, first: &mut [u16], next: &mut [u16])
    requires { StartsBelow (length first.old) (listed_in arcs) arcs.starts.now × Below (length next.old) (listed_in arcs) }
{
    for i in 0..arcs.listing.count {
        let e = arcs.listing.arc(i);
        let start = arcs.starts[e] as usize;
        if next[e] == NO_RECORD {
            next[e] = followed_by(first[start], i);
            first[start] = i;
        }
    }
}

// Site v comes to the end of the queue, where there is room: how many sites the queue has then.
fn push(queue: &mut [u16], tail: usize, v: u16) -> usize
    requires { tail ≤ length queue.old }
    ensures { Queued v queue.old queue.new result }
{
    if tail < queue.len() {
        queue[tail] = v;
        return tail + 1;
    }
    tail
}

// The legs of one row mark their ends, which come into the queue.
fn mark_row(
    arcs: ListedArcs,
    next: &[u16],
    first: u16,
    queued: usize,
    queue: &mut [u16],
    marks: &mut [u8],
) -> usize
    requires { RowsReady (listed_in arcs) arcs.starts.now arcs.ends.now next.now (length marks.old) × AllBelow (length marks.old) queue.old
        × (queued ≤ length queue.old) }
    ensures { let s = arcs.entry in RowMarked (graph_along (length marks.old) s) (listed_in s) marks.old marks.new queue.new result }
{
    let mut tail = queued;
    let mut i = first;
    for _ in 0..arcs.listing.count {
        if arcs.listing.count <= i {
            break;
        }
        let e = arcs.listing.arc(i);
        if arcs.mark_end(e, marks) {
            tail = push(queue, tail, arcs.ends[e]);
        }
        i = later_record(next[e], i);
    }
    tail
}

// From the root on, the row of each site in the queue.
fn walk(
    arcs: ListedArcs,
    first: &[u16],
    next: &[u16],
    root: u16,
    queue: &mut [u16],
    marks: &mut [u8],
)
    requires { RowsReady (listed_in arcs) arcs.starts.now arcs.ends.now next.now (length marks.old) × AllBelow (length marks.old) queue.old
        × (root < length marks.old) × (length marks.old ≤ length first.now) }
    ensures { let s = arcs.entry in Carried (graph_along (length marks.old) s) (listed_in s) marks.old marks.new }
{
    let mut tail = push(queue, 0, root);
    let mut at = 0;
    // The index is counted by hand: the queue grows while it is walked.
    while at < tail {
        let v = queue[at] as usize;
        tail = mark_row(arcs, next, first[v], tail, queue, marks);
        at += 1;
    }
}

// The rows, and the walk along them.
pub fn mark_rows(arcs: ListedArcs, root: u16, marks: &mut [u8])
    requires { (root < length marks.old) × (length marks.old ≤ max_nodes) × LeadWithin (length marks.old) arcs × Below max_arcs (listed_in arcs) }
    ensures { let s = arcs.entry in Carried (graph_along (length marks.old) s) (listed_in s) marks.old marks.new }
{
    let mut first = [NO_RECORD; MAX_NODES];
    let mut next = [NO_RECORD; MAX_ARCS];
    let mut queue = [0u16; MAX_NODES];
    link(arcs, &mut first, &mut next);
    walk(arcs, &first, &next, root, &mut queue, marks);
}
