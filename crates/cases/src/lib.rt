// No code: document 01's cases A to L, plan files, and sheets that name senders; the engines that the points shut out; what the enquirer's
// answers mean; and the shares of plans, those of the engine's too. See specs/.
#![tactic(auto)]
