// The turn of one site: the legs that end there, by the index, lower the cells of their starts, and these have a turn.
#![tactic(auto)]

ghost use Rattle.std.specs.Prelude.{◌≡◌, ◌+◌, ◌*◌, ◌<◌, ◌≤◌, length};
ghost use Rattle.limits.specs.Limits.{max_nodes};
ghost use Rattle.working_none.specs.laws.Low.{AllLow};
ghost use Rattle.settling.specs.laws.LowerFour.{LoweredAt};
ghost use Rattle.turn_table.specs.laws.Entries.{turn_entries};
ghost use Rattle.lanes.specs.laws.Four.{FourSmall};
ghost use Rattle.settling.specs.laws.Legs.{SomeLegs};
ghost use Rattle.visits.specs.laws.ByIndex.{LoweredByLegs};

use lanes::{Four, lanes_of};
use limits::Cost;
use settling::{Legs, along, lower};
use turn_table::{NO_TURN, Round, enter, turn_key};

// Each cell of site u that is above what a leg gives falls to it, and the site has a turn, which is given back.
fn lower_in_turn(
    round: Round,
    u: usize,
    by: Four<Cost>,
    lanes: &mut [Cost],
    turns: &mut [u64],
) -> u64
    requires { (length turns.old ≡ turn_entries) × (u < max_nodes) × (u * 4 + 4 ≤ length lanes.old) × AllLow lanes.old × FourSmall by }
    ensures { LoweredAt u by lanes.old lanes.new }
{
    let key = turn_key(round, by, lanes_of(lanes, u));
    let turn = enter(u, key, turns);
    lower(lanes, u, by);
    turn
}

// The legs that end at site v, by the index: where one gives less, the cells of its start fall. The soonest turn that a start has for it is given back, or
// NO_TURN.
pub fn visit(
    legs: Legs,
    round: impl Into<Round>,
    v: usize,
    lanes: &mut [Cost],
    turns: &mut [u64],
) -> u64
    requires { (length turns.old ≡ turn_entries) × (v < legs.n) × SomeLegs legs lanes.old }
    ensures { LoweredByLegs legs.entry lanes.old lanes.new }
{
    let round = round.into();
    let here = lanes_of(lanes, v);
    let end = legs.places[v + 1] as usize;
    let mut from = legs.places[v] as usize;
    let mut soon = NO_TURN;
    while let Some(i) = legs.next_falling(here, from, end, lanes) {
        let e = legs.index[i] as usize;
        let by = along(here, legs.weights[e]);
        soon = lower_in_turn(round, legs.starts[e] as usize, by, lanes, turns).min(soon);
        from = i + 1;
    }
    soon
}
