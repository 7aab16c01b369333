// The laws of a refutation's run: it is the run of a point, turn by turn, and is made exactly where there is no point.
#![tactic(auto)]
