// Passes over the listed legs: each marks the ends of the legs whose starts are marked, until one marks no further site.
ghost use Rattle.std.specs.Prelude.{length};
ghost use Rattle.marking.specs.Listed.{listed_in, graph_along, LeadWithin};
ghost use Rattle.reaching.specs.Passes.{Passed, Completed};

use marking::ListedArcs;

// One pass over the listed legs: whether it marked a site.
fn mark_once(arcs: ListedArcs, marks: &mut [u8]) -> bool
    requires { LeadWithin (length marks.old) arcs }
    ensures { let s = arcs.entry in Passed (graph_along (length marks.old) s) (listed_in s) marks.old marks.new result }
{
    let mut marked = false;
    for i in 0..arcs.listing.count {
        marked |= arcs.mark_end(arcs.listing.arc(i), marks);
    }
    marked
}

// Pass after pass, until none marks a site.
pub fn mark_all(arcs: ListedArcs, marks: &mut [u8])
    requires { LeadWithin (length marks.old) arcs }
    ensures { let s = arcs.entry in Completed (graph_along (length marks.old) s) (listed_in s) marks.old marks.new }
{
    while mark_once(arcs, marks) {}
}
