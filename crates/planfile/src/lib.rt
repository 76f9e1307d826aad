// The plan file: its fields, and the writing of one into a lent buffer.
#![tactic(auto)]

pub mod fields;
pub mod write;
