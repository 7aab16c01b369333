ghost use Rattle.std.specs.Prelude.{◌≤◌};
ghost use Rattle.pip_model.specs.Limits.{most_params};

use crate::parameter_vector::ParameterVector;
use pip_problem::Limits;

/// What the words ask for.
#[derive(Drop)]
pub enum Command {
    Solve(SolveOptions),
    Eval(ParameterVector),
    Simplify(SimplifyOptions),
    /// Whether certificates are accepted.
    Check,
    /// The accepted certificates, with the steps that their refutations share written once.
    Share,
    Trial(TrialOptions),
    Pieces(PiecesOptions),
    Restrict(WalkOptions),
    Same(WalkOptions),
    Least(WalkOptions),
}

/// How problems are read and solved.
#[derive(Drop)]
pub struct SolveOptions {
    /// The input is one problem in PolyLib's matrices.
    pub polylib: bool,
    /// The answers are simplified.
    pub simplify: bool,
    /// A certificate stands behind each answer; never where the answers are simplified.
    pub certificate: bool,
    pub limits: Limits,
}

/// Which answers are simplified.
#[derive(Drop)]
pub struct SimplifyOptions {
    /// The number of their parameters, at most 48.
    pub params: usize,
    ghost few: { params ≤ most_params },
}

/// Which problems are drawn.
#[derive(Drop)]
pub struct TrialOptions {
    pub seed: u64,
    /// How many problems, at most 10,000.
    pub count: u16,
}

/// Which answers are taken apart.
#[derive(Drop)]
pub struct PiecesOptions {
    /// The number of their parameters, at most 48.
    pub params: usize,
    ghost few: { params ≤ most_params },
}

/// How answers are walked under a context.
#[derive(Drop)]
pub struct WalkOptions {
    /// The number of their parameters, at most 48.
    pub params: usize,
    pub limits: Limits,
    ghost few: { params ≤ most_params },
}
