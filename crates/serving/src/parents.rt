// The parents of the sites: the start of the listed leg that ends at each site; and the way up from a site by the parents.
ghost use Rattle.std.specs.Prelude.{◌≤◌, ◌<◌, length, get_or};
ghost use Rattle.limits.specs.Limits.{max_nodes};
ghost use Rattle.marking.specs.Listed.{listed_in, LeadWithin};
ghost use Rattle.serving.specs.Parents.{NoParents, Parents, Ways, Entered};

use marking::ListedArcs;
use subset::Subset;

// No listed leg ends at the site. The table has an entry of two bytes for each site: fixed memory.
pub const NO_PARENT: u16 = 65_535;

// The start of each listed leg is the parent of its end.
pub fn set_parents(arcs: ListedArcs, parents: &mut [u16])
    requires { LeadWithin (length parents.old) arcs × NoParents parents.old × (length parents.old ≤ max_nodes) }
    ensures { let s = arcs.entry in Parents (λ e. get_or s.starts.now e 0) (λ e. get_or s.ends.now e 0) (listed_in s) parents.new }
{
    for i in 0..arcs.listing.count {
        let e = arcs.listing.arc(i);
        parents[arcs.ends[e] as usize] = arcs.starts[e];
    }
}

// The station is entered at a seat and at each site above it. A way up has fewer steps than there are sites.
pub fn enter_above(parents: &[u16], seat: usize, terminal: Subset, served: &mut [u16])
    requires { Ways parents.now × (seat < length parents.now) × (length parents.now ≤ length served.old) }
    ensures { Entered parents.now seat terminal.0 served.old served.new }
{
    let mut v = seat;
    for _ in 0..parents.len() {
        let entered = Subset(served[v]).union(terminal);
        served[v] = entered.0;
        let parent = parents[v];
        if parent == NO_PARENT {
            return;
        }
        v = parent as usize;
    }
}
