// An entry of the landing table: the stations that can be heard at its site are its lowest ten bits, and the bit worth 1,024 says that the site
// is a sender. Nothing else looks into an entry.
#![tactic(auto)]

pub mod flags;

ghost use Rattle.std.specs.Prelude.{◌≡◌};
ghost use Rattle.landing_entries.specs.Entries.{terminals_in, sender_in};

use subset::Subset;

// The stations of an entry.
pub fn terminals_in(entry: u16) -> Subset
    ensures { result.0 ≡ terminals_in entry }
{
    Subset(entry % limits::MAX_SUBSETS)
}

// Whether the site of an entry is a sender.
pub fn is_sender(entry: u16) -> bool
    ensures { result ≡ sender_in entry }
{
    entry / limits::SENDER_FLAG % 2 == 1
}
