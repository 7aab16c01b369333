ghost use Rattle.std.specs.Prelude.{◌≡◌, ◌<◌, ◌≤◌, [], ◌∷◌, length, All, IfOk};
ghost use Rattle.pip_model.specs.Limits.{most_params};
ghost use Rattle.pip_model.specs.Tree as model;
ghost use Rattle.pip_model.specs.Agreement.{Agrees};
ghost use Rattle.affine_forms.specs.Checks.{Fits};
ghost use Rattle.quast.specs.Answers.{answer_of, IsOver};
ghost use Rattle.quast.specs.Components.{IsComponent};
ghost use Rattle.quast.specs.Places.{IsPoint};
ghost use Rattle.item_writing.specs.Endings.{told};
ghost use Rattle.tree_items.specs.Values.{ratios_of, tree_valued, valued};

use affine_forms::{Form, WantOfMemory};
use item_writing::Ending;
use quast::{Answer, Component, Place, Quast, Scratch};
use std::alloc::Global;

// A component's value, the numerator over its denominator, in lowest terms.
fn ratio(alloc: Global, component: &Component, numerator: i128) -> Result<Component, WantOfMemory>
    requires { Fits numerator }
    ensures value { IfOk result (λ c. c ≡ model.reduced component.now.den (numerator ∷ [])) }
    ensures component { IfOk result (IsComponent 0) }
{
    let form = Form::try_new(alloc, &[numerator])?;
    Ok(Component::reduced(component.den(), form))
}

// The values of a list's components.
fn ratios(
    alloc: Global,
    components: &[Component],
    numerators: &[i128],
) -> Result<Vec<Component>, WantOfMemory>
    requires { IsPoint components.now numerators.now }
    ensures values { IfOk result (λ made. made.items ≡ ratios_of components.now numerators.now) }
    ensures count { IfOk result (λ made. length made.items ≡ length components.now) }
    ensures components { IfOk result (λ made. All (IsComponent 0) made.items) }
{
    let mut made = Vec::with_capacity(alloc, components.len())?;
    for (i, component) in components.iter().enumerate() {
        made.push(ratio(alloc, component, numerators[i])?)?;
    }
    Ok(made)
}

// The point of a list's values, as a tree over no parameters.
fn point(
    alloc: Global,
    components: &[Component],
    numerators: &[i128],
) -> Result<Quast, WantOfMemory>
    requires { IsPoint components.now numerators.now }
    ensures { IfOk result (λ q. q.tree ≡ model.Leaf (ratios_of components.now numerators.now)) }
{
    Ok(Quast::list(ratios(alloc, components, numerators)?))
}

// The value of a tree at a parameter vector, as a tree over no parameters.
#[tactic(auto, using(crate::proofs::Values::tree_valued_landed))]
fn value_of_tree(alloc: Global, tree: &Quast, params: &[i128]) -> Result<Quast, Ending>
    requires width { length params.now ≡ tree.now.width }
    requires few { length params.now ≤ most_params }
    requires fits { All Fits params.now }
    ensures { Agrees (λ q. q.tree) told result (tree_valued tree.now.tree params.now) }
{
    let mut scratch = Scratch::reserve(alloc)?;
    match tree.value_at(params, &mut scratch)? {
        Place::Bottom => Ok(Quast::bottom(0)),
        Place::At(components, numerators) => Ok(point(alloc, components, numerators)?),
    }
}

// The value of an answer at a parameter vector, as an answer over no parameters.
pub(crate) fn value_of(alloc: Global, answer: &Answer, params: &[i128]) -> Result<Answer, Ending>
    requires scope { IsOver (length params.now) answer.now }
    requires few { length params.now ≤ most_params }
    requires fits { All Fits params.now }
    ensures { Agrees answer_of told result (valued (answer_of answer.now) params.now) }
{
    match answer {
        Answer::Void => Ok(Answer::Void),
        Answer::Tree(tree) => Ok(Answer::Tree(value_of_tree(alloc, tree, params)?)),
    }
}
