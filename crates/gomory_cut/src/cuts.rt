ghost use Rattle.std.specs.Prelude.{◌≡◌, ◌<◌, pos, length, slice_set, All, OnOk, OnErr};
ghost use Rattle.pip_model.specs.Forms.{entry, negate};
ghost use Rattle.pip_model.specs.Rows.{row_at};
ghost use Rattle.pip_model.specs.Cuts as model;
ghost use Rattle.pip_model.specs.Agreement.{IsChecked};
ghost use Rattle.affine_forms.specs.Checks.{Fits, is_overflow};
ghost use Rattle.tableau.specs.Tableaus.{with_row, with_rounded};

use affine_forms::{Form, Overflow, WantOfMemory, negate_all, negate_around, remainders, residues};
use tableau::Tableau;

/// Adds the cut by a row whose residue is a constant: where the row's quantity is whole, the sum of the fractional
/// parts of its coefficients times the columns' quantities is at least the residue.
pub fn constant_cut(t: &mut Tableau, row: usize) -> Result<(), WantOfMemory>
    requires { row < length t.old.rows }
    ensures ok { OnOk result (t.new ≡ with_row t.old (model.constant_cut (row_at t.old.rows row))) }
    ensures err { OnErr result (t.new ≡ t.old) }
{
    let alloc = t.allocator();
    let row = t.row(row);
    let den = row.den;
    let coefs = remainders(alloc, den, row.coefs)?;
    let mut constant = residues(alloc, den, row.constant)?;
    negate_all(&mut constant);
    t.push_row(den, &coefs, &constant)?;
    Ok(())
}

// The cut's constant form: the opposite of the residue, and d at place q.
fn cut_form(residue: Vec<i128>, q: usize, d: i128) -> Vec<i128>
    requires place { q < length residue.items }
    requires d { Fits d }
    requires fits { All Fits residue.items }
    ensures value { result.items ≡ slice_set (negate residue.items) q d }
    ensures fits { All Fits result.items }
{
    let mut made = residue;
    negate_around(&mut made, q, d);
    made
}

// Adds the cut by a row, whose residue this is, and the quotient at place q.
fn push_cut(t: &mut Tableau, row: usize, residue: Vec<i128>, q: usize) -> Result<(), WantOfMemory>
    requires row { row < length t.old.rows }
    requires place { q < t.old.width }
    requires residue { residue.items ≡ (model.residue_of (row_at t.old.rows row)).form }
    requires fits { All Fits residue.items }
    requires free { entry residue.items q ≡ pos 0 }
    ensures ok { OnOk result (t.new ≡ with_row t.old (model.parametric_cut (row_at t.old.rows row) q)) }
    ensures err { OnErr result (t.new ≡ t.old) }
{
    let alloc = t.allocator();
    let row = t.row(row);
    let den = row.den;
    let coefs = remainders(alloc, den, row.coefs)?;
    let constant = cut_form(residue, q, den);
    t.push_row(den, &coefs, &constant)?;
    Ok(())
}

/// Adds the cut by a row whose residue over the row's denominator is the quotient at place q, a place at which the
/// residue is 0.
pub fn parametric_cut(t: &mut Tableau, row: usize, q: usize) -> Result<(), WantOfMemory>
    requires row { row < length t.old.rows }
    requires place { q < t.old.width }
    requires free { entry (model.residue_of (row_at t.old.rows row)).form q ≡ pos 0 }
    ensures ok { OnOk result (t.new ≡ with_row t.old (model.parametric_cut (row_at t.old.rows row) q)) }
    ensures err { OnErr result (t.new ≡ t.old) }
{
    let alloc = t.allocator();
    let view = t.row(row);
    let residue = residues(alloc, view.den, view.constant)?;
    push_cut(t, row, residue, q)
}

/// Adds the same cut, where the row's residue is at hand.
pub fn parametric_cut_by(
    t: &mut Tableau,
    row: usize,
    residue: &Form,
    q: usize,
) -> Result<(), WantOfMemory>
    requires row { row < length t.old.rows }
    requires place { q < t.old.width }
    requires residue { residue.now ≡ (model.residue_of (row_at t.old.rows row)).form }
    requires free { entry residue.now q ≡ pos 0 }
    ensures ok { OnOk result (t.new ≡ with_row t.old (model.parametric_cut (row_at t.old.rows row) q)) }
    ensures err { OnErr result (t.new ≡ t.old) }
{
    let residue = Vec::from_slice(t.allocator(), residue.as_slice())?;
    push_cut(t, row, residue, q)
}

/// Rounds a row's constant form by the quotient at place q, in place of a cut. It takes no memory.
pub fn rewrite(t: &mut Tableau, row: usize, q: usize) -> Result<(), Overflow>
    requires row { row < length t.old.rows }
    requires place { q < t.old.width }
    ensures listed { IsChecked is_overflow (model.rounded_listed (row_at t.old.rows row) q) result }
    ensures ok { OnOk result (t.new ≡ with_rounded t.old row q) }
    ensures err { OnErr result (t.new ≡ t.old) }
{
    t.round_constant(row, q)
}
