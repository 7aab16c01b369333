ghost use Rattle.std.specs.Prelude.{◌≡◌};
ghost use Rattle.short_run.specs.declared.stop.Stop.TheVariants as stop;
ghost use Rattle.pip_problem.specs.declared.refusal.Refusal.TheVariants as code;

use affine_forms::WantOfMemory;
use pip_problem::Refusal;

/// Why a run over short numbers ends before its answer: it is refused, or a number is not short, or it has many cuts.
#[derive(Drop)]
pub enum Stop {
    Refused(Refusal),
    Long,
}

impl From<Refusal> for Stop {
    ghost from_gives = { λ refusal s. s ≡ stop.Refused refusal };

    fn from(refusal: Refusal) -> Stop {
        Stop::Refused(refusal)
    }
}

impl From<WantOfMemory> for Stop {
    ghost from_gives = { λ _ s. s ≡ stop.Refused code.WantOfMemory };

    fn from(_: WantOfMemory) -> Stop {
        Stop::Refused(Refusal::WantOfMemory)
    }
}
