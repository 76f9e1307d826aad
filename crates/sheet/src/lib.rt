// The verdict on a byte string: the head, and then record after record to the end or the first refusal.
#![tactic(auto)]

pub mod judge;
mod opening;
