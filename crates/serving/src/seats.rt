// The seats of the stations, and the stations that sit at or below each site.
ghost use Rattle.std.specs.Prelude.{◌≡◌, ◌≤◌, ◌<◌, ◌&&◌, eqb, length, IfSome};
ghost use Rattle.limits.specs.Limits.{max_terminals};
ghost use Rattle.subset.specs.Sets.{has};
ghost use Rattle.landing_entries.specs.Entries.{terminals_in};
ghost use Rattle.serving.specs.Parents.{Ways};
ghost use Rattle.serving.specs.Seats.{found_at, seat_in, TerminalEntered, NoneServed, Served};

use crate::parents::enter_above;
use landing_entries::terminals_in;
use subset::Subset;

// Whether station i can be heard at a site with this mark and this landing entry, and the site is marked.
fn may_seat(mark: u8, entry: u16, i: u8) -> bool
    requires { i < max_terminals }
    ensures { result ≡ (eqb mark 1 && has (terminals_in entry) i) }
{
    if mark != 1 {
        return false;
    }
    terminals_in(entry).has(i)
}

// The seat of station i: the lowest marked site where it can be heard.
fn seat_of(marks: &[u8], landings: &[u16], i: u8) -> Option<usize>
    requires { (i < max_terminals) × (length marks.now ≤ length landings.now) }
    ensures lowest { found_at result ≡ seat_in marks.now landings.now i }
    ensures on { IfSome result (λ v. v < length marks.now) }
{
    for (v, mark) in marks.iter().enumerate() {
        if may_seat(*mark, landings[v], i) {
            return Some(v);
        }
    }
    None
}

// Station i is entered at its seat and at each site above it.
fn enter_terminal(parents: &[u16], marks: &[u8], landings: &[u16], i: u8, served: &mut [u16])
    requires { Ways parents.now × (i < max_terminals) × (length marks.now ≤ length landings.now)
        × (length marks.now ≤ length parents.now) × (length parents.now ≤ length served.old) }
    ensures { TerminalEntered parents.now marks.now landings.now i served.old served.new }
{
    if let Some(seat) = seat_of(marks, landings, i) {
        enter_above(parents, seat, Subset::single(i), served);
    }
}

// Each of k stations is entered at its seat and at each site above it.
pub fn serve(parents: &[u16], marks: &[u8], landings: &[u16], k: u8, served: &mut [u16])
    requires { Ways parents.now × (k ≤ max_terminals) × (length marks.now ≤ length landings.now)
        × (length marks.now ≤ length parents.now) × (length parents.now ≤ length served.old) × NoneServed served.old }
    ensures { Served parents.now marks.now landings.now k served.new }
{
    for i in 0..k {
        enter_terminal(parents, marks, landings, i, served);
    }
}
