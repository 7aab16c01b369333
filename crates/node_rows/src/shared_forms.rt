ghost use Rattle.std.specs.Prelude.{◌≡◌, ◌↔◌, ◌^◌, ◌<◌, [], length, IsTrue, IfOk};

use affine_forms::{Form, WantOfMemory};
use std::alloc::Global;
use std::marker::Model;
use std::rc::Rc;

// A list of forms that all its copies share. An empty one takes no memory.
#[derive(Drop)]
pub(crate) struct SharedForms {
    list: Option<Rc<Vec<Form>>>,
}

impl Model for SharedForms {
    ghost use Rattle.std.specs.Prelude.{ℤ, List, []};
    ghost use Rattle.std.specs.Option.{option_map_or};

    ghost Value = { List (List ℤ) };

    ghost view = { λ s. option_map_or (λ list. list.value.items) s.list [] };
}

// Copies of the forms.
fn copies(alloc: Global, forms: &[Form]) -> Result<Vec<Form>, WantOfMemory>
    ensures { IfOk result (λ v. v.items ≡ forms.now) }
{
    let mut made = Vec::with_capacity(alloc, forms.len())?;
    for form in forms {
        let copy = form.try_clone(alloc)?;
        made.push(copy)?;
    }
    Ok(made)
}

impl SharedForms {
    // No forms. It takes no memory.
    pub(crate) fn none() -> SharedForms
        ensures { result ≡ [] }
    {
        SharedForms { list: None }
    }

    // Copies of the forms.
    pub(crate) fn copied(alloc: Global, forms: &[Form]) -> Result<SharedForms, WantOfMemory>
        ensures { IfOk result (λ s. s ≡ forms.now) }
    {
        let list = Rc::new(alloc, copies(alloc, forms)?)?;
        Ok(SharedForms { list: Some(list) })
    }

    // The same forms, which both hold from now on.
    pub(crate) fn try_share(&self) -> Result<SharedForms, WantOfMemory>
        ensures { IfOk result (λ s. s ≡ self.now) }
    {
        match &self.list {
            None => Ok(SharedForms::none()),
            Some(list) => {
                let list = list.clone()?;
                Ok(SharedForms { list: Some(list) })
            }
        }
    }

    // No forms from now on.
    pub(crate) fn clear(&mut self)
        ensures { self.new ≡ [] }
    {
        self.list = None;
    }

    // The forms.
    pub(crate) fn as_slice(&self) -> &[Form]
        ensures { result.now ≡ self.now }
    {
        match &self.list {
            None => &[],
            Some(list) => list.as_slice(),
        }
    }

    // How many forms there are.
    pub(crate) fn len(&self) -> usize
        ensures value { result ≡ length self.now }
        ensures bound { result < 2 ^ 63 }
    {
        self.as_slice().len()
    }

    // Whether there are no forms.
    pub(crate) fn is_empty(&self) -> bool
        ensures { IsTrue result ↔ self.now ≡ [] }
    {
        self.as_slice().is_empty()
    }
}
