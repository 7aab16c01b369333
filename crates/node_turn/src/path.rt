ghost use Rattle.std.specs.Prelude.{◌≡◌, ◌^◌, ◌+◌, ◌-◌, ◌<◌, ◌≤◌, [], ◌∷◌, false, length, take, IfOk, OnOk, IsTrue};
ghost use Rattle.pip_model.specs.Contexts.{IsContext};
ghost use Rattle.pip_model.specs.Forms as model;
ghost use Rattle.pip_model.specs.Listed.{all_fit, opposite_listed};
ghost use Rattle.sign_split.specs.Scoped.{IsKeptContext};
ghost use Rattle.node_turn.specs.Nodes.{IsBelow, IsBack};

use affine_forms::{Form, WantOfMemory};
use new_parameters::Quotients;
use sign_split::{Context, ContextMark};
use std::alloc::Global;

/// Where a run stands: the mode of its problem, how many if and newparm nodes are above, and the context and the
/// quotients of the path to here.
#[derive(Drop)]
pub struct Path {
    pub integer: bool,
    pub depth: u64,
    pub context: Context,
    pub quotients: Quotients,
}

// The opposite of a condition, -c - 1.
fn opposite(context: &mut Context, condition: &Form) -> Result<Form, WantOfMemory>
    requires some { 1 ≤ length condition.now }
    requires fits { IsTrue (all_fit (opposite_listed condition.now)) }
    ensures value { IfOk result (λ form. form ≡ model.opposite condition.now) }
    ensures length { IfOk result (λ form. length form ≡ length condition.now) }
    ensures kept { IsKeptContext context.old context.new }
{
    let mut form = context.copy_form(condition.as_slice())?;
    match form.opposite() {
        Ok(()) => Ok(form),
        Err(_) => unreachable!(),
    }
}

impl Path {
    /// A path to no node: no mode, no depth, no context and no quotients yet. It takes no memory.
    pub fn new(alloc: Global) -> Path
        ensures mode { result.integer ≡ false }
        ensures depth { result.depth ≡ 0 }
        ensures width { result.context.width ≡ 0 }
        ensures forms { result.context.forms ≡ [] }
        ensures quotients { result.quotients ≡ record { params = 0; quotients = [] } }
    {
        Path {
            integer: false,
            depth: 0,
            context: Context::new(alloc, 0),
            quotients: Quotients::new(alloc, 0),
        }
    }

    /// Gives all memory back.
    pub fn discard(self) {
        self.context.discard();
    }

    // Goes one level down, with one more form in the context. Takes no memory.
    fn enter(&mut self, form: Form)
        requires room { 1 ≤ self.old.context.spare }
        requires narrow { length form ≤ self.old.context.width + 1 }
        requires depth { self.old.depth < 2 ^ 64 - 1 }
        ensures { IsBelow self.old (form ∷ []) [] self.new }
    {
        self.context.add(form);
        self.depth += 1;
    }

    /// Goes one level down, with a copy of a form in the context.
    pub fn enter_copy(&mut self, form: &Form) -> Result<(), WantOfMemory>
        requires room { 1 ≤ self.old.context.spare }
        requires narrow { length form.now ≤ self.old.context.width + 1 }
        requires depth { self.old.depth < 2 ^ 64 - 1 }
        ensures { OnOk result (IsBelow self.old (form.now ∷ []) [] self.new) }
    {
        let copy = self.context.copy_form(form.as_slice())?;
        self.enter(copy);
        Ok(())
    }

    /// Goes one level down, with the opposite of a form in the context.
    pub fn enter_opposite(&mut self, form: &Form) -> Result<(), WantOfMemory>
        requires some { 1 ≤ length form.now }
        requires fits { IsTrue (all_fit (opposite_listed form.now)) }
        requires room { 1 ≤ self.old.context.spare }
        requires narrow { length form.now ≤ self.old.context.width + 1 }
        requires depth { self.old.depth < 2 ^ 64 - 1 }
        ensures { OnOk result (IsBelow self.old (model.opposite form.now ∷ []) [] self.new) }
    {
        let fails = opposite(&mut self.context, form)?;
        self.enter(fails);
        Ok(())
    }

    /// Goes back to marks of the context and of the quotients. The depth stays.
    pub fn back_to(&mut self, context: ContextMark, quotients: usize)
        requires forms { context.forms ≤ length self.old.context.forms }
        requires narrow { IsContext context.width (take context.forms self.old.context.forms) }
        requires quotients { quotients ≤ length self.old.quotients.quotients }
        ensures { IsBack self.old context quotients self.new }
    {
        self.context.back_to(context);
        self.quotients.back_to(quotients);
    }
}
