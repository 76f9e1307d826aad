// The flags of the senders in the first n entries of a landing table: each site gets one where no site has one.
ghost use Rattle.std.specs.Prelude.{◌≡◌, ◌≤◌, ◌↔◌, IsTrue, SomeIndex, length};
ghost use Rattle.landing_entries.specs.Entries.{is_sender_at};
ghost use Rattle.landing_entries.specs.laws.Flags.{all_flagged, flagged_unless_some};

use crate::is_sender;

// Whether one of these sites is a sender.
fn has_sender(landings: &[u16]) -> bool
    ensures { IsTrue result ↔ SomeIndex landings.now (λ v. IsTrue (is_sender_at landings.now v)) }
{
    landings.iter().any(|entry| is_sender(*entry))
}

// Each of the first n sites is made a sender.
fn flag_all(landings: &mut [u16], n: usize)
    requires { n ≤ length landings.old }
    ensures { landings.new ≡ all_flagged n landings.old }
{
    for v in 0..n {
        landings[v] |= limits::SENDER_FLAG;
    }
}

// Each of the first n sites is made a sender where none of them is one.
pub fn flag_unless_some(landings: &mut [u16], n: usize)
    requires { n ≤ length landings.old }
    ensures { landings.new ≡ flagged_unless_some n landings.old }
{
    if has_sender(&landings[..n]) {
        return;
    }
    flag_all(landings, n);
}
