// Document 01 as definitions, with their laws, in specs/ alone: this crate has no code.
#![tactic(auto)]
