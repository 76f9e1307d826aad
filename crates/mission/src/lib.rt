// No code: what the mission demands of the planner, as types in specs/.
#![tactic(auto)]
