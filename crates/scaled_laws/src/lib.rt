// The laws of rows whose numbers stand over one denominator.
#![tactic(auto)]
