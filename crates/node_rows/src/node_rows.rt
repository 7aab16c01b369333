ghost use Rattle.std.specs.Prelude.{◌≡◌, true, IsTrue, ℕ, ℤ, List, ◌+◌, ◌-◌, ◌^◌, ◌<◌, ◌≤◌, All, [], length, map, take, IfOk, OnOk, OnErr};
ghost use Rattle.std.specs.List.{list_all};
ghost use Rattle.pip_model.specs.Numbers.{is_nonneg};
ghost use Rattle.pip_model.specs.Rows as model;
ghost use Rattle.form_laws.specs.Bounds.{norm as norm_of};
ghost use Rattle.tableau.specs.Tableaus.{TableauRows};
ghost use Rattle.node_rows.specs.ReadRows.{IsRead, all_rows};

use crate::basis::{Basis, measure};
use crate::products::greatest_norm;
use crate::reading::{constant, is_nowhere_below, push_read};
use crate::shared_forms::SharedForms;
use affine_forms::{Form, WantOfMemory};
use std::alloc::Global;
use std::marker::Model;
use tableau::Tableau;

/// The rows of a node, over the same columns and places: those of the unknowns, and behind them either rows as they are
/// in a tableau, or the rows of forms, which are made of the unknowns' rows where they are asked for. Copies share the
/// forms.
///
/// Contracts see a tableau's rows.
#[derive(Drop)]
pub struct NodeRows {
    pub(crate) made: Tableau,
    pub(crate) forms: SharedForms,
    pub(crate) norm: u64,
    pub(crate) basis: Basis,
}

impl Model for NodeRows {
    ghost use Rattle.std.specs.Prelude.{◌≤◌, All};
    ghost use Rattle.tableau.specs.Tableaus.{TableauRows};
    ghost use Rattle.form_laws.specs.Bounds.{norm as norm_of};
    ghost use Rattle.node_rows.specs.ReadRows.{IsRead, all_rows};

    ghost Value = { TableauRows };

    ghost view = { λ t. all_rows t.made t.basis t.forms };

    ghost invariant = { λ t. All (IsRead t.made t.basis) t.forms × All (λ f. norm_of f ≤ t.norm) t.forms };
}

/// Whether so many forms are read off so many unknowns' rows. Fewer take longer to read than to keep as rows.
pub fn are_read_off(forms: usize, unknowns: usize) -> bool {
    forms >= unknowns.saturating_mul(8).saturating_add(8)
}

// The same basis.
fn same_basis(alloc: Global, basis: &Basis) -> Result<Basis, WantOfMemory>
    ensures read { IfOk result (λ b. (t : TableauRows) (f : List ℤ) → IsRead t basis.now f → IsRead t b f) }
    ensures scale { IfOk result (λ b. b.scale ≡ basis.now.scale) }
{
    let columns = Vec::from_slice(alloc, basis.columns.as_slice())?;
    Ok(Basis {
        scale: basis.scale,
        most: basis.most,
        columns,
    })
}

// The unknowns' rows, and then those of the forms.
fn all_made(rows: &Tableau, basis: &Basis, forms: &[Form]) -> Result<Tableau, WantOfMemory>
    requires { All (IsRead rows.now basis.now) forms.now }
    ensures { IfOk result (λ t. t ≡ all_rows rows.now basis.now forms.now) }
{
    let mut made = rows.try_clone(rows.allocator())?;
    for form in forms {
        push_read(&mut made, rows, basis, form)?;
    }
    Ok(made)
}

// Makes the rows of all forms.
pub(crate) fn make_all(
    rows: &mut Tableau,
    basis: &Basis,
    forms: &mut SharedForms,
) -> Result<(), WantOfMemory>
    requires { All (IsRead rows.old basis.now) forms.old }
    ensures ok { OnOk result (rows.new ≡ all_rows rows.old basis.now forms.old) }
    ensures none { OnOk result (forms.new ≡ []) }
    ensures err { OnErr result (rows.new ≡ rows.old) }
    ensures kept { OnErr result (forms.new ≡ forms.old) }
{
    let made = all_made(rows, basis, forms.as_slice())?;
    *rows = made;
    forms.clear();
    Ok(())
}

// Makes of the rows those that `start` gives of these forms. A refusal leaves none.
fn restart_rows(rows: &mut Tableau, forms: &[Form]) -> Result<(), WantOfMemory>
    requires { All (λ form. length form ≡ rows.old.unknowns + rows.old.width + 1) forms.now }
    ensures ok { OnOk result (rows.new
        ≡ record rows.old { rows = model.start rows.old.unknowns rows.old.width forms.now }) }
    ensures err { OnErr result (rows.new ≡ record rows.old { rows = [] }) }
{
    let refusal = rows.restart(forms);
    if refusal.is_err() {
        rows.reshape(rows.unknowns(), rows.width());
    }
    refusal
}

impl NodeRows {
    /// No rows over so many columns and places. It takes no memory.
    pub fn new(alloc: Global, unknowns: usize, width: usize) -> NodeRows
        ensures { result ≡ record { unknowns = unknowns; width = width; rows = [] } }
    {
        NodeRows {
            made: Tableau::new(alloc, unknowns, width),
            forms: SharedForms::none(),
            norm: 0,
            basis: Basis {
                scale: 1,
                most: 1,
                columns: Vec::new(alloc),
            },
        }
    }

    // Makes of the rows those that `start` gives of these forms, and keeps all. A refusal leaves none.
    fn restart_made(&mut self, forms: &[Form]) -> Result<(), WantOfMemory>
        requires { All (λ form. length form ≡ self.old.unknowns + self.old.width + 1) forms.now }
        ensures ok { OnOk result (self.new
            ≡ record self.old { rows = model.start self.old.unknowns self.old.width forms.now }) }
        ensures err { OnErr result (self.new ≡ record self.old { rows = [] }) }
    {
        self.forms.clear();
        restart_rows(&mut self.made, forms)
    }

    // The same, where they are read off the unknowns' rows.
    fn restart_by_forms(&mut self, forms: &[Form], norm: u64) -> Result<(), WantOfMemory>
        requires wide { All (λ form. length form ≡ self.old.unknowns + self.old.width + 1) forms.now }
        requires norm { All (λ form. norm_of form ≤ norm) forms.now }
        ensures ok { OnOk result (self.new
            ≡ record self.old { rows = model.start self.old.unknowns self.old.width forms.now }) }
        ensures err { OnErr result (self.new ≡ record self.old { rows = [] }) }
    {
        self.forms.clear();
        self.made.reshape(self.made.unknowns(), self.made.width());
        let copies = SharedForms::copied(self.made.allocator(), forms)?;
        restart_rows(&mut self.made, &[])?;
        match measure(&self.made, norm) {
            None => restart_rows(&mut self.made, forms),
            Some(basis) => {
                self.forms = copies;
                self.basis = basis;
                self.norm = norm;
                Ok(())
            }
        }
    }

    /// Makes of the rows those that `start` gives of these forms. A refusal leaves no rows, over the same columns and
    /// places.
    pub fn restart(&mut self, forms: &[Form]) -> Result<(), WantOfMemory>
        requires { All (λ form. length form ≡ self.old.unknowns + self.old.width + 1) forms.now }
        ensures ok { OnOk result (self.new
            ≡ record self.old { rows = model.start self.old.unknowns self.old.width forms.now }) }
        ensures err { OnErr result (self.new ≡ record self.old { rows = [] }) }
    {
        if !are_read_off(forms.len(), self.made.unknowns()) {
            return self.restart_made(forms);
        }
        match greatest_norm(forms) {
            None => self.restart_made(forms),
            Some(norm) => self.restart_by_forms(forms, norm),
        }
    }

    /// The number of rows.
    pub fn rows(&self) -> usize
        ensures { result ≡ length self.now.rows }
    {
        self.made.rows() + self.forms.len()
    }

    /// The number of columns.
    pub fn unknowns(&self) -> usize
        ensures { result ≡ self.now.unknowns }
    {
        self.made.unknowns()
    }

    /// The number of places of a constant form.
    pub fn width(&self) -> usize
        ensures { result ≡ self.now.width }
    {
        self.made.width()
    }

    /// The allocator that the rows keep.
    pub fn allocator(&self) -> Global {
        self.made.allocator()
    }

    /// The rows in front that are kept as rows, those of the unknowns among them if all rows are.
    pub fn made(&self) -> &Tableau
        ensures unknowns { result.now.unknowns ≡ self.now.unknowns }
        ensures width { result.now.width ≡ self.now.width }
        ensures rows { result.now.rows ≡ take (length result.now.rows) self.now.rows }
        ensures least { self.now.unknowns ≤ length self.now.rows → self.now.unknowns ≤ length result.now.rows }
        ensures row { (i : ℕ) → i < length result.now.rows
            → model.row_at result.now.rows i ≡ model.row_at self.now.rows i }
        ensures first { self.now.unknowns ≤ length self.now.rows
            → take self.now.unknowns result.now.rows ≡ take self.now.unknowns self.now.rows }
    {
        &self.made
    }

    /// Whether it is found of row i without making it that no entry of its constant form is below 0; never of one of
    /// the rows in front that are kept as rows.
    pub fn is_nowhere_below(&self, i: usize) -> bool
        requires { i < length self.now.rows }
        ensures { IsTrue result → list_all is_nonneg (model.row_at self.now.rows i).constant ≡ true }
    {
        let n = self.made.rows();
        if i < n {
            false
        } else {
            is_nowhere_below(&self.made, &self.basis, &self.forms.as_slice()[i - n])
        }
    }

    /// The constant form of row i.
    pub fn constant(&self, i: usize) -> Result<Form, WantOfMemory>
        requires { i < length self.now.rows }
        ensures value { IfOk result (λ f. f ≡ (model.row_at self.now.rows i).constant) }
        ensures length { IfOk result (λ f. length f ≡ self.now.width + 1) }
    {
        let n = self.made.rows();
        if i < n {
            Form::try_new(self.made.allocator(), self.made.row(i).constant)
        } else {
            constant(&self.made, &self.basis, &self.forms.as_slice()[i - n])
        }
    }

    /// The same rows.
    pub fn try_clone(&self, alloc: Global) -> Result<NodeRows, WantOfMemory>
        ensures { IfOk result (λ t. t ≡ self.now) }
    {
        let basis = same_basis(alloc, &self.basis)?;
        let forms = self.forms.try_share()?;
        let made = self.made.try_clone(alloc)?;
        Ok(NodeRows {
            made,
            forms,
            norm: self.norm,
            basis,
        })
    }
}
