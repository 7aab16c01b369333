ghost use Rattle.std.specs.Prelude.{◌≡◌, ◌+◌, ◌<◌, [], length, map, All, IsTrue, IfOk, OnOk};
ghost use Rattle.pip_model.specs.Contexts.{IsContext};
ghost use Rattle.pip_model.specs.Forms as model;
ghost use Rattle.pip_model.specs.Made.{narrow_to};

use affine_forms::{Form, WantOfMemory};
use kept_run::Spares;
use std::alloc::Global;

// Forms over their first places, in rooms that are kept from list to list.
#[derive(Drop)]
pub(crate) struct Narrowed {
    pub(crate) forms: Vec<Form>,
    pub(crate) spares: Spares,
}

// The form over its first places, in a room that is kept.
pub(crate) fn narrow_form(
    spares: &mut Spares,
    form: &Form,
    width: usize,
) -> Result<Form, WantOfMemory>
    requires { width < length form.now }
    ensures value { IfOk result (λ made. made ≡ narrow_to width form.now) }
    ensures long { IfOk result (λ made. length made ≡ width + 1) }
{
    let (front, _) = form.as_slice().split_at(width);
    let mut made = spares.take();
    made.reserve(width.saturating_add(1))?;
    made.extend_from_slice(front)?;
    made.push(form.at(form.width()))?;
    Ok(Form::from_entries(made))
}

// Whether the forms are over so many places.
fn are_over(forms: &[Form], width: usize) -> bool
    ensures { IsTrue result → All (λ c. model.width c ≡ width) forms.now }
{
    forms.iter().all(|form| form.width() == width)
}

impl Narrowed {
    // No forms. It takes no memory.
    pub(crate) fn new(alloc: Global) -> Narrowed
        ensures { result.forms.items ≡ [] }
    {
        Narrowed {
            forms: Vec::new(alloc),
            spares: Spares::new(alloc),
        }
    }

    // Makes these forms over their first places, instead of those that it has.
    pub(crate) fn fill(&mut self, forms: &[Form], width: usize) -> Result<(), WantOfMemory>
        requires { All (λ c. width < length c) forms.now }
        ensures value { OnOk result (self.new.forms.items ≡ map (narrow_to width) forms.now) }
        ensures context { OnOk result (IsContext width self.new.forms.items) }
    {
        self.spares.make_room();
        self.spares.keep_from(&mut self.forms, 0);
        self.forms.reserve(forms.len())?;
        for form in forms {
            self.forms
                .push(narrow_form(&mut self.spares, form, width)?)?;
        }
        Ok(())
    }

    // These forms over their first places: themselves where they are over no more.
    pub(crate) fn narrow<'f>(
        &'f mut self,
        forms: &'f [Form],
        width: usize,
    ) -> Result<&'f [Form], WantOfMemory>
        requires { All (λ c. width < length c) forms.now }
        ensures value { IfOk result (λ made. made.now ≡ map (narrow_to width) forms.now) }
        ensures context { IfOk result (λ made. IsContext width made.now) }
    {
        if are_over(forms, width) {
            return Ok(forms);
        }
        self.fill(forms, width)?;
        Ok(&self.forms)
    }
}
