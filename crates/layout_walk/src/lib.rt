// "the lowest-numbered leg from v .. is added, and its end is followed with W", leg after leg, until nothing is added or no leg fits.
#![tactic(auto)]

ghost use Rattle.std.specs.Prelude.{length};
ghost use Rattle.layout_steps.specs.Costed.{costed_graph};
ghost use Rattle.layout_walk.specs.Plan.{ReadySheet};
ghost use Rattle.layout_walk.specs.laws.Walk.{Placed};
ghost use Rattle.layout_walk.specs.laws.Stops.{Stopped};

use layout_steps::CostedSheet;
use subset::Subset;

// Where a walk along fitting legs stops, with the place after the legs that were listed: at a site where nothing is added, so that it is done; or at
// a site where something is to be added, and no leg fits.
#[derive(Clone, Copy)]
pub enum Stop {
    Done { node: u16, place: usize },
    Stuck { node: u16, place: usize },
}

// The legs that are followed from site v with the set w are listed in `out` from the place `at` on.
pub fn walk(sheet: CostedSheet, v: u16, w: Subset, out: &mut [u16], at: usize) -> Stop
    requires { ReadySheet sheet × Placed (costed_graph sheet) sheet.cells.now v w.0 at (length out.old) }
    ensures { let s = sheet.entry in Stopped (costed_graph s) s.cells.now v w.0 at out.old out.new result }
{
    let mut node = v;
    let mut place = at;
    while !sheet.is_done(node, w) {
        let Some(e) = sheet.fitting_arc(node, w) else {
            return Stop::Stuck { node, place };
        };
        out[place] = e;
        place += 1;
        node = sheet.ends[e as usize];
    }
    Stop::Done { node, place }
}
