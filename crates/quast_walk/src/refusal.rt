ghost use Rattle.std.specs.Prelude.{◌≡◌};
ghost use Rattle.pip_problem.specs.declared.refusal.Refusal.TheVariants as run;
ghost use Rattle.quast_walk.specs.declared.refusal.ToolRefusal.TheVariants as tool;

use affine_forms::{FormRefusal, WantOfMemory};
use pip_problem::Refusal;
use thiserror::Error;

/// Why a walk of trees is refused. The number in a budget's refusal is the limit. Negative says that a vector of the
/// context leads to a new parameter whose form is below 0 there; Lengths has the numbers of components of two lists.
#[derive(Clone, Copy, Debug, PartialEq, Eq, Error)]
pub enum ToolRefusal {
    #[error(transparent)]
    Run(Refusal),
    #[error("a new parameter below 0")]
    Negative,
    #[error("lists of {0} and {1} components")]
    Lengths(usize, usize),
}

impl From<Refusal> for ToolRefusal {
    ghost from_gives = { λ refusal e. e ≡ tool.Run refusal };

    fn from(refusal: Refusal) -> ToolRefusal {
        ToolRefusal::Run(refusal)
    }
}

impl From<WantOfMemory> for ToolRefusal {
    ghost from_gives = { λ _ e. e ≡ tool.Run run.WantOfMemory };

    fn from(_: WantOfMemory) -> ToolRefusal {
        ToolRefusal::Run(Refusal::WantOfMemory)
    }
}

impl From<FormRefusal> for ToolRefusal {
    ghost use Rattle.quast_walk.specs.Faults.{of_form};

    ghost from_gives = { λ refusal e. e ≡ of_form refusal };

    fn from(refusal: FormRefusal) -> ToolRefusal {
        ToolRefusal::Run(Refusal::from(refusal))
    }
}
