//! Affine forms over whole numbers of 128 bits, the checked arithmetic under them, and the tokens of texts.
#![tactic(auto)]

pub use affine_forms::{
    Bytes, Form, FormRefusal, Forms, MOST_COMPONENTS, MOST_CONTEXT_ROWS, MOST_NESTING,
    MOST_PARAMETERS, MOST_ROWS, MOST_UNKNOWNS, Overflow, WantOfMemory, add_combined, difference,
    divide_all, divides, floor_div, floor_mod, gcd, gcd_with, is_whole, lower_bound, minus,
    negate_all, negate_around, nonnegative, plus, positive, remainders, residues, round_form,
    rounding, times, upper_bound,
};
pub use text_tokens::{
    Kind, Lexeme, blank, digits, group_end, integer, next_open, open_after, plain_number, token,
    unsigned_part,
};
