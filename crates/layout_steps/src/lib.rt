// The tests of one step of the layout at a site v with a set w: whether nothing is added, and which leg fits.
#![tactic(auto)]

ghost use Rattle.std.specs.Prelude.{◌≡◌, false, ◌+◌, ◌<◌, ◌≤◌, length, get_or, MatchOption};
ghost use Rattle.lists.specs.Find.{first};
ghost use Rattle.layout_steps.specs.Steps.{done_at, values_fit, fits_in, found_as, ArcsHeld};
ghost use Rattle.layout_steps.specs.Costed.{arc_tables_in};
ghost use Rattle.layout_steps.specs.laws.Passing.{block_arcs, PassedOver};

use cost_table::cell;
use landing_entries::terminals_in;
use limits::Cost;
use subset::Subset;

// How many legs are looked at together where legs from other sites are passed over.
const BLOCK: usize = 64;

// The tables of a sheet with so many sites, stations and legs, and its finished cost table.
#[derive(Clone, Copy)]
pub struct CostedSheet<'a> {
    pub starts: &'a [u16],
    pub ends: &'a [u16],
    pub weights: &'a [u32],
    pub landings: &'a [u16],
    pub cells: &'a [Cost],
    pub nodes: u16,
    pub terminals: u8,
    pub arcs: u16,
}

// Whether a leg with this start and price fits at v, where its end's cell is `far` and v's cell is `cost`. Only a finite cell is added to.
fn arc_fits(start: u16, weight: u32, far: Cost, v: u16, cost: Cost) -> bool
    ensures { result ≡ values_fit start weight far v cost }
{
    if start != v {
        return false;
    }
    if far == limits::NO_COST {
        return false;
    }
    (weight as u64) + (far as u64) == cost as u64
}

// Whether one of the legs of a block, from `from` on, starts at v.
fn block_has(starts: &[u16], from: usize, v: u16) -> bool
    requires { from + block_arcs ≤ length starts.now }
    ensures { result ≡ false → PassedOver starts.now v from (from + block_arcs) (from + block_arcs) }
{
    let end = from + BLOCK;
    let mut found = false;
    for start in &starts[from..end] {
        found = found | (*start == v);
    }
    found
}

// The leg from which on one may start at v, from `from` on: whole blocks in which none does are passed over.
fn pass_blocks(starts: &[u16], arcs: usize, v: u16, from: usize) -> usize
    requires { (arcs ≤ length starts.now) × (from ≤ arcs) }
    ensures { PassedOver starts.now v from arcs result }
{
    for i in (from..arcs).step_by(BLOCK) {
        if arcs - i < BLOCK || block_has(starts, i, v) {
            return i;
        }
    }
    arcs
}

// The first leg, from `from` on, that starts at v.
fn next_from(starts: &[u16], arcs: usize, v: u16, from: usize) -> Option<usize>
    requires { (arcs ≤ length starts.now) × (from ≤ arcs) }
    ensures { MatchOption result (PassedOver starts.now v from arcs arcs) (λ i. (i < arcs) × PassedOver starts.now v from arcs i) }
{
    for i in pass_blocks(starts, arcs, v, from)..arcs {
        if starts[i] == v {
            return Some(i);
        }
    }
    None
}

impl<'a> CostedSheet<'a> {
    // "nothing is added when W is empty, or when W is one station and v is its landing"
    pub fn is_done(self, v: u16, w: Subset) -> bool
        requires { v < length self.landings.now }
        ensures { result ≡ done_at (get_or self.entry.landings.now v 0) w.0 }
    {
        if w.0 == 0 {
            return true;
        }
        if w.size() != 1 {
            return false;
        }
        w.is_part_of(terminals_in(self.landings[v as usize]))
    }

    // "the lowest-numbered leg from v whose price plus the finite cell (end, W) equals cell (v, W)"
    pub fn fitting_arc(self, v: u16, w: Subset) -> Option<u16>
        requires { ArcsHeld self.terminals self.arcs (arc_tables_in self) self.cells.now v w.0 }
        ensures { let s = self.entry in
            (result ≡ found_as (first (fits_in s.terminals s.arcs (arc_tables_in s) s.cells.now v w.0) s.arcs)) }
    {
        let cost = cell(self.cells, self.terminals, v, w);
        let end = self.arcs as usize;
        let mut from = 0;
        while let Some(i) = next_from(self.starts, end, v, from) {
            let far = cell(self.cells, self.terminals, self.ends[i], w);
            if arc_fits(self.starts[i], self.weights[i], far, v, cost) {
                return Some(i as u16);
            }
            from = i + 1;
        }
        None
    }
}
