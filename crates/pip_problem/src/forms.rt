ghost use Rattle.std.specs.Prelude.{◌≡◌, IfOk};

use affine_forms::{Form, WantOfMemory};
use std::alloc::Global;
use std::marker::Model;

// A list of forms.
#[derive(Drop)]
pub(crate) struct FormList {
    items: Vec<Form>,
}

impl Model for FormList {
    ghost use Rattle.std.specs.Prelude.{List, ℤ};

    ghost Value = { List (List ℤ) };

    ghost view = { λ forms. forms.items.items };
}

impl FormList {
    /// The list of these forms, which are not copied.
    pub fn new(items: Vec<Form>) -> FormList
        ensures { result ≡ items.items }
    {
        FormList { items }
    }

    /// A copy of these forms.
    pub fn try_new(alloc: Global, forms: &[Form]) -> Result<FormList, WantOfMemory>
        ensures { IfOk result (λ made. made ≡ forms.now) }
    {
        let mut items = Vec::with_capacity(alloc, forms.len())?;
        for form in forms {
            items.push(Form::try_new(alloc, form.as_slice())?)?;
        }
        Ok(FormList { items })
    }

    /// The forms, none of which is copied.
    pub fn into_items(self) -> Vec<Form>
        ensures { result.items ≡ self }
    {
        self.items
    }

    /// The forms.
    pub fn as_slice(&self) -> &[Form]
        ensures { result.now ≡ self.now }
    {
        &self.items
    }
}
