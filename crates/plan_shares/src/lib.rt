// No code: where each station of a plan sits, which stations a leg serves, each one's part of a price, the shares of the stations and the unassigned
// sum; and the theorems about them. See specs/.
#![tactic(auto)]
