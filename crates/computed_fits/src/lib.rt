// Fits that the rules accept, and one that they refuse for each figure, computed and proved: a crate of its own, since computing in f64 takes its time. It
// has no code.
#![tactic(auto)]
