ghost use Rattle.std.specs.Prelude.{◌≡◌, ◌+◌, ◌≤◌, IfOk, IsTrue};
ghost use Rattle.pip_model.specs.Tools.{widened_components};
ghost use Rattle.pip_model.specs.Tree as model;
ghost use Rattle.pip_model.specs.Tree.{is_scoped};

use crate::reading::Reading;
use crate::spreading::spread_list;
use affine_forms::WantOfMemory;
use quast::Component;

/// A list of the first tree over so many places, of which its own are the first.
pub fn first_list(
    reading: &Reading,
    components: &[Component],
    places: usize,
) -> Result<Vec<Component>, WantOfMemory>
    requires few { reading.now.parameters + reading.now.between ≤ places }
    requires scoped { IsTrue (is_scoped (reading.now.parameters + reading.now.between) (model.Leaf components.now)) }
    ensures { IfOk result (λ v. v.items ≡ widened_components places components.now) }
{
    let own = reading.parameters + reading.between;
    let wide = spread_list(reading.alloc, components, own, places - own)?;
    Ok(wide)
}
