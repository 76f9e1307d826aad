// The graph that a sheet describes, and the graph that loaded tables hold. The crate has no code: see specs/, from Network.antt on.
#![tactic(auto)]
