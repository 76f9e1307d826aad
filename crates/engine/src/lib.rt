// The engine: the planning entry point, from a sheet to the plan file.
#![tactic(auto)]

pub mod planning;
