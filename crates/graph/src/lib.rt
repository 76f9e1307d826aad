// The theory of directed subtrees, least totals and the table that has them. The crate has no code: see specs/, from Graph.antt on.
#![tactic(auto)]
