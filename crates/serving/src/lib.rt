// Which stations sit at or below each site of a plan (document 02, W-204): from the seat of each station the sites above it are walked up, each by
// the start of the listed leg that ends there, its parent, and the station is entered at each of them.
#![tactic(auto)]

pub mod parents;
pub mod seats;
