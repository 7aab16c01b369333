//! The limits of problems and of trees, as the definitions have them.

/// The most unknowns of a problem.
pub const MOST_UNKNOWNS: usize = 128;

/// The most parameters of a problem, and of a tree that is read.
pub const MOST_PARAMETERS: usize = 48;

/// The most tableau rows.
pub const MOST_ROWS: usize = 4096;

/// The most context rows.
pub const MOST_CONTEXT_ROWS: usize = 256;

/// The most components of a list.
pub const MOST_COMPONENTS: usize = 128;

/// The most nodes that choose or define on one path of a tree.
pub const MOST_NESTING: usize = 200;
