// Laying out a plan from a finished cost table (document 01, "Laying out a plan"): the root, and the legs in the order in which they are added.
#![tactic(auto)]

pub mod plan;
pub mod root;
