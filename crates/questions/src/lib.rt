// The questions about a finished cost table (document 01, "The cost table"), on the cells and the numbers: the cell for a site and a subset, and
// the best sender of a subset. Any numbers may be asked, with any table. Nothing is written.
#![tactic(auto)]

pub mod cell_question;
mod ranges;
pub mod sender_question;
