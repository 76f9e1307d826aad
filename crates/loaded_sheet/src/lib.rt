// A loaded sheet as one value: its counts, and the tables that hold it.
#![tactic(auto)]

use limits::Counts;

// How many sites, stations and legs the sheet has; the starts, the ends and the prices of its legs, and the landing entries.
#[derive(Clone, Copy)]
pub struct LoadedSheet<'a> {
    pub counts: Counts,
    pub starts: &'a [u16],
    pub ends: &'a [u16],
    pub weights: &'a [u32],
    pub landings: &'a [u16],
}
