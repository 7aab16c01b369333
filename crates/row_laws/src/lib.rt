//! Laws of the rows of a tableau: their numbers, their common divisor, short numbers, and what a pivot makes of them.
#![tactic(auto)]
