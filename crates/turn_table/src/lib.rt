// The table of turns: which sites have a turn, by which key, and which is next. A key is a cost, or a sum of four costs.
#![tactic(auto)]

ghost use Rattle.std.specs.Prelude.{◌≡◌, ◌+◌, ◌*◌, ◌<◌, ◌≤◌, length};
ghost use Rattle.limits.specs.Limits.{max_nodes};
ghost use Rattle.turn_table.specs.Rounds.{round_of};
ghost use Rattle.turn_table.specs.laws.Entries.{turn_entries, key_limit};

use lanes::{Four, lanes_of};
use limits::Cost;
use working_none::WORKING_NONE;

// A site without a turn. In the table it is a number above all turns, so that the soonest of several turns is their least.
pub const NO_TURN: u64 = 18_446_744_073_709_551_615;

// Where the turns of groups begin: entry v of a table of turns is 1,024 times the key of site v plus v, or NO_TURN. Of the further entries, each is the
// least of eight sites, then of 64 sites, and the last four of 256 sites.
const GROUPS: usize = 1024;

const LARGE_GROUPS: usize = 1152;

const QUARTERS: usize = 1168;

pub const ENTRIES: usize = 1172;

// Turns are taken in three rounds. In the first two the sites wait: each has its turn by a sum of four costs. In the first all sites with a finite cell
// have one, in the second those that are left; in the third the least cost is first.
#[derive(Clone, Copy)]
pub enum Round {
    AllWait,
    RestWaits,
    LeastFirst,
}

// A round by its number: 0, 1, or a later one.
impl From<u8> for Round {
    ghost from_gives = { λ number round. round ≡ round_of number };

    fn from(number: u8) -> Round {
        match number {
            0 => Round::AllWait,
            1 => Round::RestWaits,
            _ => Round::LeastFirst,
        }
    }
}

// The least of the four turns from `from` on.
fn soonest_of_four(turns: &[u64], from: usize) -> u64
    requires { (from + 4 ≤ length turns.now) × (length turns.now ≡ turn_entries) }
{
    let low = turns[from].min(turns[from + 1]);
    let high = turns[from + 2].min(turns[from + 3]);
    low.min(high)
}

// The least of the eight turns from `from` on.
fn soonest(turns: &[u64], from: usize) -> u64
    requires { (from + 8 ≤ length turns.now) × (length turns.now ≡ turn_entries) }
{
    soonest_of_four(turns, from).min(soonest_of_four(turns, from + 4))
}

// Site v has a turn by a key; the least of its keys counts. The turn is given back.
pub fn enter(v: usize, key: u64, turns: &mut [u64]) -> u64
    requires { (length turns.old ≡ turn_entries) × (v < max_nodes) × (key < key_limit) }
{
    let turn = key * 1024 + v as u64;
    turns[v] = turn.min(turns[v]);
    let group = GROUPS + v / 8;
    turns[group] = turn.min(turns[group]);
    let large = LARGE_GROUPS + v / 64;
    turns[large] = turn.min(turns[large]);
    let quarter = QUARTERS + v / 256;
    turns[quarter] = turn.min(turns[quarter]);
    turn
}

// The soonest turn, or NO_TURN.
pub fn first_turn(turns: &[u64]) -> u64
    requires { length turns.now ≡ turn_entries }
{
    soonest_of_four(turns, QUARTERS)
}

// Site v has no turn; the soonest of the others. The entries of the site's own groups are cleared first, so that the groups of every size can be looked at
// at the same time.
pub fn leave(v: usize, turns: &mut [u64]) -> u64
    requires { (length turns.old ≡ turn_entries) × (v < max_nodes) }
{
    let group = GROUPS + v / 8;
    let large = LARGE_GROUPS + v / 64;
    let quarter = QUARTERS + v / 256;
    turns[v] = NO_TURN;
    turns[group] = NO_TURN;
    turns[large] = NO_TURN;
    turns[quarter] = NO_TURN;
    let of_eight = soonest(turns, v / 8 * 8);
    let of_large = of_eight.min(soonest(turns, GROUPS + v / 64 * 8));
    let of_quarter = of_large.min(soonest_of_four(turns, LARGE_GROUPS + v / 256 * 4));
    let of_all = of_quarter.min(first_turn(turns));
    turns[group] = of_eight;
    turns[large] = of_large;
    turns[quarter] = of_quarter;
    of_all
}

// The site that has a turn: none for NO_TURN.
pub fn site_of(turn: u64) -> Option<usize> {
    if turn == NO_TURN {
        return None;
    }
    Some((turn % 1024) as usize)
}

// The least of four costs.
fn least_of(four: Four<Cost>) -> Cost {
    four.a.min(four.b).min(four.c.min(four.d))
}

// A cost, or another one where it is "none" or more.
fn finite_or(cost: Cost, other: Cost) -> Cost {
    if cost < WORKING_NONE {
        return cost;
    }
    other
}

// The sum of four costs; for one that is "none" or more, the least of them counts. Where the sum is below "none", none of them is.
fn cost_sum(four: Four<Cost>) -> u64
    ensures { result < key_limit }
{
    let sum = u64::from(four.a) + u64::from(four.b) + u64::from(four.c) + u64::from(four.d);
    if sum < u64::from(WORKING_NONE) {
        return sum;
    }
    let least = least_of(four);
    let low = u64::from(finite_or(four.a, least)) + u64::from(finite_or(four.b, least));
    let high = u64::from(finite_or(four.c, least)) + u64::from(finite_or(four.d, least));
    low + high
}

// What a cell falls to, or "none" where it does not fall.
fn fallen(new: Cost, old: Cost) -> Cost {
    if new < old {
        return new;
    }
    WORKING_NONE
}

// By which key a site has a turn that had the cells `old` and is given `by`: by the sum of what it is given, and in the last round by the least to which
// a cell falls.
pub fn turn_key(round: impl Into<Round>, by: Four<Cost>, old: Four<Cost>) -> u64
    ensures { result < key_limit }
{
    match round.into() {
        Round::AllWait | Round::RestWaits => cost_sum(by),
        Round::LeastFirst => u64::from(least_of(Four {
            a: fallen(by.a, old.a),
            b: fallen(by.b, old.b),
            c: fallen(by.c, old.c),
            d: fallen(by.d, old.d),
        })),
    }
}

// Site v, which has these cells, has a turn by their sum, where one of them is finite.
fn enter_by_sum(v: usize, here: Four<Cost>, turns: &mut [u64])
    requires { (length turns.old ≡ turn_entries) × (v < max_nodes) }
{
    if least_of(here) == WORKING_NONE {
        return;
    }
    enter(v, cost_sum(here), turns);
}

// Site v, which has these cells, has its turn by the least of them, where it has a turn.
fn enter_by_least(v: usize, here: Four<Cost>, turns: &mut [u64])
    requires { (length turns.old ≡ turn_entries) × (v < max_nodes) }
{
    if turns[v] == NO_TURN {
        return;
    }
    enter(v, u64::from(least_of(here)), turns);
}

// The one in the first round, else the other.
fn enter_site(round: Round, v: usize, here: Four<Cost>, turns: &mut [u64])
    requires { (length turns.old ≡ turn_entries) × (v < max_nodes) }
{
    match round {
        Round::AllWait => enter_by_sum(v, here, turns),
        Round::RestWaits | Round::LeastFirst => enter_by_least(v, here, turns),
    }
}

// In the first round each site that has a finite cell has a turn, by the sum of its cells; in a later one each that still has a turn has it by the least of them.
pub fn enter_all(round: impl Into<Round>, lanes: &[Cost], n: usize, turns: &mut [u64])
    requires { (length turns.old ≡ turn_entries) × (n ≤ max_nodes) × (n * 4 ≤ length lanes.now) }
{
    let round = round.into();
    for v in 0..n {
        enter_site(round, v, lanes_of(lanes, v), turns);
    }
}
