ghost use Rattle.std.specs.Prelude.{◌≡◌, [], All, IfOk, OnOk, OnErr};
ghost use Rattle.node_rows.specs.ReadRows.{IsRead, all_rows};

use crate::basis::Basis;
use crate::node_rows::{NodeRows, make_all};
use crate::shared_forms::SharedForms;
use affine_forms::WantOfMemory;
use std::mem::replace;
use tableau::Tableau;

// Makes the rows of the forms that are left, if there are any.
pub(crate) fn make_rest(
    rows: &mut Tableau,
    basis: &Basis,
    forms: &mut SharedForms,
) -> Result<(), WantOfMemory>
    requires { All (IsRead rows.old basis.now) forms.old }
    ensures ok { OnOk result (rows.new ≡ all_rows rows.old basis.now forms.old) }
    ensures none { OnOk result (forms.new ≡ []) }
    ensures err { OnErr result (rows.new ≡ rows.old) }
    ensures kept { OnErr result (forms.new ≡ forms.old) }
{
    if forms.is_empty() {
        return Ok(());
    }
    make_all(rows, basis, forms)
}

impl NodeRows {
    /// No rows over so many columns and places from now on. It takes no memory, and the room stays.
    pub fn reshape(&mut self, unknowns: usize, width: usize)
        ensures { self.new ≡ record { unknowns = unknowns; width = width; rows = [] } }
    {
        self.forms.clear();
        self.made.reshape(unknowns, width);
    }

    // Becomes rows of which some are read off forms.
    fn copy_forms(&mut self, t: &NodeRows) -> Result<(), WantOfMemory>
        ensures ok { OnOk result (self.new ≡ t.now) }
        ensures err { OnErr result (self.new ≡ self.old) }
    {
        let copy = t.try_clone(t.made.allocator())?;
        *self = copy;
        Ok(())
    }

    /// Becomes the same as other rows, in the room that there is where it is enough. A refusal leaves no rows, over
    /// the columns and places of the others.
    pub fn copy_from(&mut self, t: &NodeRows) -> Result<(), WantOfMemory>
        ensures ok { OnOk result (self.new ≡ t.now) }
        ensures err { OnErr result (self.new ≡ record t.now { rows = [] }) }
    {
        self.reshape(t.unknowns(), t.width());
        if t.forms.is_empty() {
            self.made.copy_from(&t.made)
        } else {
            self.copy_forms(t)
        }
    }

    /// All rows as they are in a tableau. No rows stay. A refusal leaves the rows as they were.
    pub fn take_made(&mut self) -> Result<Tableau, WantOfMemory>
        ensures ok { IfOk result (λ t. t ≡ self.old) }
        ensures err { OnErr result (self.new ≡ self.old) }
    {
        make_rest(&mut self.made, &self.basis, &mut self.forms)?;
        let none = Tableau::new(self.made.allocator(), 0, 0);
        Ok(replace(&mut self.made, none))
    }

    /// The rows are those of the tableau from now on.
    pub fn put(&mut self, made: Tableau)
        ensures { self.new ≡ made }
    {
        self.forms.clear();
        self.made = made;
    }
}
