// Facts about lists that the kit's libraries lack. The crate has no code: see specs/.
#![tactic(auto)]
