ghost use Rattle.std.specs.Prelude.{◌≡◌, ◌+◌, ◌≤ℤ◌, pos, ℕ, length, map, All};
ghost use Rattle.pip_model.specs.Tree.{reduced};
ghost use Rattle.pip_model.specs.Simplified.{component_without};
ghost use Rattle.pip_model.specs.Forms.{width};
ghost use Rattle.affine_forms.specs.Checks.{Fits};
ghost use Rattle.quast.specs.Components.{IsComponent, LacksPlace};

use affine_forms::{Form, floor_div, gcd_with};
use std::marker::Model;

/// One component of a point: the value of an affine form over a denominator of at least 1, in lowest terms.
#[derive(Drop)]
pub struct Component {
    den: i128,
    form: Form,
}

impl Model for Component {
    ghost use Rattle.pip_model.specs.Tree as model;
    ghost use Rattle.pip_model.specs.TreeCode.{component_code};
    ghost use Rattle.pip_model.specs.Forms.{width};
    ghost use Rattle.quast.specs.Components.{IsComponent};

    ghost Value = { model.Component };

    ghost coded = { component_code };

    ghost view = { λ c. record { den = c.den; form = c.form } };

    ghost invariant = { λ c. IsComponent (width c.form) (record { den = c.den; form = c.form }) };
}

impl Component {
    /// The form over `den`, both divided by the greatest common divisor of `den` and all entries.
    #[inline(always)]
    pub fn reduced(den: i128, form: Form) -> Component
        requires positive { pos 1 ≤ℤ den }
        requires fits { Fits den }
        ensures value { result ≡ reduced den form }
        ensures component { (w : ℕ) → length form ≡ w + 1 → IsComponent w result }
    {
        let divisor = gcd_with(den, form.as_slice());
        let mut form = form;
        form.divide_exact(divisor);
        Component {
            den: floor_div(den, divisor),
            form,
        }
    }

    /// The denominator, at least 1.
    pub fn den(&self) -> i128
        ensures value { result ≡ self.now.den }
        ensures component { IsComponent (width self.now.form) self.now }
    {
        self.den
    }

    /// The form over the denominator.
    pub fn form(&self) -> &Form
        ensures { result.now ≡ self.now.form }
    {
        &self.form
    }

    /// The form over the denominator, taken out.
    pub fn into_form(self) -> Form
        ensures { result ≡ self.form }
    {
        self.form
    }

    fn remove(&mut self, i: usize)
        requires { LacksPlace i self.old }
        ensures { self.new ≡ component_without i self.old }
    {
        self.form.remove(i);
    }
}

/// The components of a list.
#[derive(Drop)]
pub struct Components {
    items: Vec<Component>,
}

impl Model for Components {
    ghost use Rattle.std.specs.Prelude.{List};
    ghost use Rattle.std.specs.Coded.{coded_list};
    ghost use Rattle.pip_model.specs.Tree as model;
    ghost use Rattle.pip_model.specs.TreeCode.{component_code};

    ghost Value = { List model.Component };

    ghost coded = { coded_list component_code };

    ghost view = { λ c. c.items.items };
}

impl Components {
    pub(crate) fn new(items: Vec<Component>) -> Components
        ensures { result ≡ items.items }
    {
        Components { items }
    }

    /// The components in order.
    pub fn as_slice(&self) -> &[Component]
        ensures { result.now ≡ self.now }
    {
        self.items.as_slice()
    }

    /// The components in order, taken out.
    pub fn into_items(self) -> Vec<Component>
        ensures { result.items ≡ self }
    {
        self.items
    }

    /// Drops coefficient `i`, which is 0, from each form.
    pub fn remove(&mut self, i: usize)
        requires { All (LacksPlace i) self.old }
        ensures { self.new ≡ map (component_without i) self.old }
    {
        for c in self.items.iter_mut() {
            c.remove(i);
        }
    }
}
