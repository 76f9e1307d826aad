// The records between the head and the end of a sheet: how many bytes and legs and which landings each has.
ghost use Rattle.std.specs.Prelude.{◌≡◌, length};
ghost use Rattle.records.specs.Records.{size};
ghost use Rattle.records.specs.Arcs.{arcs_of};
ghost use Rattle.records.specs.Landings.{heard_by, LandsOne};

use subset::Subset;

#[derive(Clone, Copy)]
pub enum Record {
    // `LK`: one leg.
    OneWay { start: u16, end: u16, weight: u32 },
    // `BK`: two legs, from start to end first, then back, each at that price.
    BothWays { start: u16, end: u16, weight: u32 },
    // `ST`: a landing, a site where the station can be heard.
    Landing { terminal: u8, node: u16 },
    // `SR`: a site that may open a plan.
    Sender { node: u16 },
}

// The bytes of `HD`, of `LK` or `BK`, of `ST`, of `SR` and of `ED`, each with its mark.
pub const HEAD_SIZE: usize = 5;

pub const LINK_SIZE: usize = 10;

pub const LANDING_SIZE: usize = 5;

pub const SENDER_SIZE: usize = 4;

pub const END_SIZE: usize = 2;

impl Record {
    // How many bytes it takes.
    pub fn size(self) -> usize
        ensures { result ≡ size self }
    {
        match self {
            Record::OneWay { .. } | Record::BothWays { .. } => LINK_SIZE,
            Record::Landing { .. } => LANDING_SIZE,
            Record::Sender { .. } => SENDER_SIZE,
        }
    }

    // How many legs it has.
    pub fn arc_count(self) -> u16
        ensures { result ≡ length (arcs_of self) }
    {
        match self {
            Record::OneWay { .. } => 1,
            Record::BothWays { .. } => 2,
            Record::Landing { .. } | Record::Sender { .. } => 0,
        }
    }

    // The stations that have a landing by it.
    pub fn heard(self) -> Subset
        requires { LandsOne self }
        ensures { result.0 ≡ heard_by self }
    {
        match self {
            Record::Landing { terminal, .. } => Subset::single(terminal),
            Record::OneWay { .. } | Record::BothWays { .. } | Record::Sender { .. } =>
                Subset::EMPTY,
        }
    }
}
