// A first lowering of the cells of four sets along the legs: a site whose cells fell has a turn, the least turn is taken first, and in its turn
// the legs that end there are tried, by the index. It only makes the settling short: that no leg gives less is found there.
#![tactic(auto)]

ghost use Rattle.std.specs.Prelude.{◌≡◌, ◌≤◌, length};
ghost use Rattle.limits.specs.Limits.{max_nodes};
ghost use Rattle.turn_table.specs.laws.Entries.{turn_entries};
ghost use Rattle.settling.specs.laws.Legs.{SomeLegs};
ghost use Rattle.visits.specs.laws.ByIndex.{LoweredByLegs};

use limits::Cost;
use settling::Legs;
use turn_table::{ENTRIES, NO_TURN, Round, enter_all, first_turn, leave, site_of};
use visits::visit;

// How many turns are taken in a round at most.
fn most_turns(round: Round, n: usize) -> usize
    requires { n ≤ max_nodes }
{
    match round {
        Round::AllWait | Round::RestWaits => n + n / 4,
        Round::LeastFirst => 5 * n,
    }
}

// The turns of a round, the least first.
fn take_turns(legs: Legs, round: Round, lanes: &mut [Cost], turns: &mut [u64])
    requires { (length turns.old ≡ turn_entries) × SomeLegs legs lanes.old }
    ensures { LoweredByLegs legs.entry lanes.old lanes.new }
{
    enter_all(round, lanes, legs.n, turns);
    let mut turn = first_turn(turns);
    for _ in 0..most_turns(round, legs.n) {
        let Some(v) = site_of(turn) else {
            return;
        };
        if legs.n <= v {
            return;
        }
        let other = leave(v, turns);
        let new = visit(legs, round, v, lanes, turns);
        turn = new.min(other);
    }
}

// The cells of four sets, lowered along the legs by turns. In the first rounds a site waits: it has its turn by a sum of four costs, so that most sites
// have one turn, when their cells of all four sets have fallen. In the last one it has its turn by the least cost to which a cell fell: in each turn
// but the first of a site, a cell that fell since its last turn falls no more, so that 5 n turns are enough.
pub fn lower_by_turns(legs: Legs, lanes: &mut [Cost])
    requires { SomeLegs legs lanes.old }
    ensures { LoweredByLegs legs.entry lanes.old lanes.new }
{
    let mut turns = [NO_TURN; ENTRIES];
    for round in [Round::AllWait, Round::RestWaits, Round::LeastFirst] {
        take_turns(legs, round, lanes, &mut turns);
    }
}
