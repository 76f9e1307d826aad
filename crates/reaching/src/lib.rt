// Which sites the listed legs of a file reach from a root, as marks: 1 for a site that a directed path leads to, else 0.
// The legs are followed row by row from the root, each listed leg once; then passes over the listed legs mark what is left, until one marks no
// site. What is marked is right whatever the rows are, and the last pass tells that nothing is left: the rows only save passes.
#![tactic(auto)]

mod passes;

ghost use Rattle.std.specs.Prelude.{◌≡◌, ◌≤◌, ◌<◌, length};
ghost use Rattle.limits.specs.Limits.{max_nodes, max_arcs};
ghost use Rattle.marking.specs.Links.{Below};
ghost use Rattle.marking.specs.Listed.{listed_in, graph_along, LeadWithin};
ghost use Rattle.reaching.specs.Marks.{marks_of};

use crate::passes::mark_all;
use arc_rows::mark_rows;
use marking::ListedArcs;

// The marks of all sites: the slice has one entry for each.
pub fn reach(arcs: ListedArcs, root: u16, marks: &mut [u8])
    requires { (root < length marks.old) × (length marks.old ≤ max_nodes) × LeadWithin (length marks.old) arcs × Below max_arcs (listed_in arcs) }
    ensures { let s = arcs.entry in (marks.new ≡ marks_of (graph_along (length marks.old) s) (listed_in s) root) }
{
    marks.fill(0);
    marks[root as usize] = 1;
    mark_rows(arcs, root, marks);
    mark_all(arcs, marks);
}
