// Facts of the machine's i64 arithmetic. It has no code.
#![tactic(auto)]
