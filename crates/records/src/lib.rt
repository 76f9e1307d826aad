// The records of a sheet: what each says, how many bytes and legs and which landings it has, and its fields, read from the bytes after its mark.
#![tactic(auto)]

pub mod fields;
pub mod record;
