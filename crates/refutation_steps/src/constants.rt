ghost use Rattle.std.specs.Prelude.{◌≡◌, ◌<◌, ℤ, Some, length, IfOk, IfSome};
ghost use Rattle.pip_model.specs.Contexts.{IsContext};
ghost use Rattle.pip_model.specs.Refuting as model;
ghost use Rattle.pip_model.specs.Run.{Work, Done};
ghost use Rattle.point_turns.specs.Points.{form_rows};
ghost use Rattle.point_turns.specs.Turns.{negative_from};

use crate::room::RefutationRoom;
use affine_forms::{Form, WantOfMemory};
use certificate_parts::Refutation;

// The first of forms over no places that is below 0.
fn first_below(forms: &[Form]) -> Option<usize>
    requires { IsContext 0 forms.now }
    ensures value { result ≡ negative_from 0 (form_rows 0 forms.now) }
    ensures within { IfSome result (λ r. r < length forms.now) }
{
    for i in 0..forms.len() {
        if forms[i].at(0) < 0 {
            return Some(i);
        }
    }
    None
}

// The steps where the forms are over no places, and so numbers, and one is below 0: the first such, taken once.
pub(crate) fn refute_at_once(
    room: &mut RefutationRoom,
    forms: &[Form],
    places: &[i128],
) -> Result<Option<Refutation>, WantOfMemory>
    requires { IsContext (length places.now) forms.now }
    ensures { IfOk result (λ o. IfSome o (λ steps. (first : ℤ) (w : Work) →
        model.refute (length places.now) forms.now places.now first w ≡ Done (Some steps) w)) }
{
    if !places.is_empty() {
        return Ok(None);
    }
    match first_below(forms) {
        None => Ok(None),
        Some(r) => {
            let steps = room.trace.single_step(r)?;
            Ok(Some(steps))
        }
    }
}
