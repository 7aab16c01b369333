ghost use Rattle.std.specs.Prelude.{◌≡◌, ◌+◌, ◌≤◌, ◌++◌, [], ◌∷◌, length, take, All, OnOk, OnErr};
ghost use Rattle.leaf_check.specs.Goals.{without_last};

use affine_forms::{Form, WantOfMemory};
use spare_forms::Spares;
use std::alloc::Global;
use std::marker::Model;

/// The known forms of a refutation, in the order of their numbers.
#[derive(Drop)]
pub struct Known {
    width: usize,
    forms: Vec<Form>,
    // Forms that were dropped, as room for others.
    spares: Spares,
}

impl Model for Known {
    ghost use Rattle.std.specs.Prelude.{◌≡◌, ◌+◌, length, All};
    ghost use Rattle.leaf_check.specs.Known.{KnownForms};

    ghost Value = { KnownForms };

    ghost view = { λ k. record { width = k.width; forms = k.forms.items } };

    ghost invariant = { λ k. All (λ c. length c ≡ k.width + 1) k.forms.items };
}

impl Known {
    /// No forms over so many places. It takes no memory.
    pub fn new(alloc: Global, width: usize) -> Known
        ensures { result ≡ record { width = width; forms = [] } }
    {
        Known {
            width,
            forms: Vec::new(alloc),
            spares: Spares::new(alloc),
        }
    }

    /// No forms over so many places from now on. It takes no memory.
    pub fn restart(&mut self, width: usize)
        ensures { self.new ≡ record { width = width; forms = [] } }
    {
        self.truncate(0);
        self.width = width;
    }

    /// From now on the rooms of forms that are dropped are kept for others, where there is memory for their list.
    pub fn keep_rooms(&mut self)
        ensures { self.new ≡ self.old }
    {
        self.spares.make_room();
    }

    // Keeps the rooms of all but the first so many of some forms, which leave them.
    pub(crate) fn keep_from(&mut self, forms: &mut Vec<Form>, first: usize)
        requires { first ≤ length forms.old.items }
        ensures forms { forms.new.items ≡ take first forms.old.items }
        ensures same { self.new ≡ self.old }
    {
        self.spares.keep_from(forms, first);
    }

    // No numbers, in the room of a form that was dropped where one is kept.
    pub(crate) fn room(&mut self) -> Vec<i128>
        ensures empty { result.items ≡ [] }
        ensures same { self.new ≡ self.old }
    {
        self.spares.take()
    }

    /// The number of places.
    pub fn width(&self) -> usize
        ensures { result ≡ self.now.width }
    {
        self.width
    }

    /// The number of forms.
    pub fn len(&self) -> usize
        ensures { result ≡ length self.now.forms }
    {
        self.forms.len()
    }

    /// The forms in order.
    pub fn as_slice(&self) -> &[Form]
        ensures value { result.now ≡ self.now.forms }
        ensures wide { All (λ c. length c ≡ self.now.width + 1) self.now.forms }
    {
        &self.forms
    }

    // Puts a form behind the others. A refusal leaves them as they were.
    pub(crate) fn push(&mut self, form: Form) -> Result<(), WantOfMemory>
        requires { length form ≡ self.old.width + 1 }
        ensures ok { OnOk result (self.new ≡ record self.old { forms = self.old.forms ++ form ∷ [] }) }
        ensures err { OnErr result (self.new ≡ self.old) }
    {
        self.forms.push(form)?;
        Ok(())
    }

    /// Drops the forms behind the first n.
    pub fn truncate(&mut self, n: usize)
        ensures { self.new ≡ record self.old { forms = take n self.old.forms } }
    {
        if n < self.forms.len() {
            self.spares.keep_from(&mut self.forms, n);
        }
    }

    // Moves the forms behind these. Where there is no memory for that they stay.
    pub(crate) fn move_behind(&mut self, forms: &mut Vec<Form>) -> Result<(), WantOfMemory>
        ensures ok { OnOk result (forms.new.items ≡ forms.old.items ++ self.old.forms) }
        ensures err { OnErr result (forms.new.items ≡ forms.old.items) }
        ensures wide { All (λ c. length c ≡ self.old.width + 1) self.old.forms }
        ensures width { self.new.width ≡ self.old.width }
    {
        forms.append(&mut self.forms)?;
        Ok(())
    }

    // Takes room for so many more forms.
    pub(crate) fn reserve(&mut self, forms: usize) -> Result<(), WantOfMemory>
        ensures { self.new ≡ self.old }
    {
        self.forms.reserve(forms)?;
        Ok(())
    }

    /// Drops the last form.
    pub fn drop_last(&mut self)
        ensures { self.new ≡ record self.old { forms = without_last self.old.forms } }
    {
        let rest = self.len().saturating_sub(1);
        self.truncate(rest);
    }
}
