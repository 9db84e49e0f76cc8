// What stands in the fit's scratch between the steps of a level. It has no code.
#![tactic(auto)]
