// Rows that the definitions compute: what an input is answered with. Nothing stands on them.
#![tactic(auto)]
