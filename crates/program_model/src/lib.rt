// What the program as a whole means: its commands, the items and texts of each, and how it ends.
#![tactic(auto)]
