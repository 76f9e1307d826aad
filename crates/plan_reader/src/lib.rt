// The plan reader: a sheet, a plan file and all the tables but the cells go in; it accepts the file, or says what is wrong and where.
#![tactic(auto)]

pub mod read;
