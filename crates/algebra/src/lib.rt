// Integer algebra, in specs/ alone: this crate has no code.
#![tactic(auto)]
