ghost use Rattle.std.specs.Prelude.{◌≡◌, ◌+◌, ◌++◌, [], ◌∷◌, length, OnOk, OnErr};
ghost use Rattle.affine_forms.specs.Forms.{HaveWidth};

use crate::form::Form;
use crate::memory::WantOfMemory;
use std::alloc::Global;
use std::marker::Model;

/// A width and a list of forms of that width.
#[derive(Drop)]
pub struct Forms {
    width: usize,
    items: Vec<Form>,
}

impl Model for Forms {
    ghost use Rattle.affine_forms.specs.Forms.{FormsOfWidth, HaveWidth};

    ghost Value = { FormsOfWidth };

    ghost view = { λ f. record { width = f.width; forms = f.items.items } };

    ghost invariant = { λ f. HaveWidth f.width f.items.items };
}

impl Forms {
    /// No form, of this width. It takes no memory.
    pub fn new(alloc: Global, width: usize) -> Forms
        ensures { result ≡ record { width = width; forms = [] } }
    {
        Forms {
            width,
            items: Vec::new(alloc),
        }
    }

    /// Appends a form of the width. A refusal leaves the list as it was.
    pub fn push(&mut self, form: Form) -> Result<(), WantOfMemory>
        requires { length form ≡ self.old.width + 1 }
        ensures ok { OnOk result
            (self.new ≡ record { width = self.old.width; forms = self.old.forms ++ form ∷ [] }) }
        ensures err { OnErr result (self.new ≡ self.old) }
    {
        self.items.push(form)?;
        Ok(())
    }

    /// The number of coefficients of each form.
    pub fn width(&self) -> usize
        ensures { result ≡ self.now.width }
    {
        self.width
    }

    /// The forms in order.
    pub fn as_slice(&self) -> &[Form]
        ensures value { result.now ≡ self.now.forms }
        ensures width { HaveWidth self.now.width result.now }
    {
        &self.items
    }
}
