ghost use Rattle.std.specs.Prelude.{◌≡◌, ◌+◌, ◌<◌, ◌≤◌, true, false, length, option_map, All, IfOk, IfSome, IfNone, OnSome};
ghost use Rattle.pip_model.specs.Rows as model;
ghost use Rattle.pip_model.specs.Cuts as cuts;
ghost use Rattle.affine_forms.specs.Forms.{IsResidue};
ghost use Rattle.gomory_cut.specs.Fractions.{IsFractionOf};
ghost use Rattle.tableau.specs.Tableaus.{IsRow};

use affine_forms::{Form, WantOfMemory, is_whole, residues};
use std::alloc::Global;
use tableau::Tableau;

/// A row whose constant form is not whole over the row's denominator D, and whether only its constant is not: D divides
/// each coefficient, so that the row's residue is a constant.
#[derive(Clone, Copy, Debug, PartialEq, Eq)]
pub struct FractionRow {
    pub row: usize,
    pub in_constant: bool,
}

// The fraction of row i, none where its denominator divides its constant form.
fn divided_fraction_at(t: &Tableau, i: usize) -> Option<FractionRow>
    requires { i < length t.now.rows }
    ensures whole { IfNone result (model.is_whole (model.row_at t.now.rows i).den (model.row_at t.now.rows i).constant
        ≡ true) }
    ensures fraction { OnSome result (model.is_whole (model.row_at t.now.rows i).den
        (model.row_at t.now.rows i).constant ≡ false) }
    ensures row { IfSome result (λ f. f.row ≡ i) }
    ensures constant { IfSome result (IsFractionOf t.now.rows) }
    ensures formed { IfSome result (λ f. IsRow t.now.unknowns t.now.width (model.row_at t.now.rows f.row)) }
{
    let row = t.row(i);
    let (coefficients, constant) = row.constant.split_at(row.constant.len() - 1);
    let in_constant = is_whole(row.den, coefficients);
    if in_constant && is_whole(row.den, constant) {
        return None;
    }
    Some(FractionRow {
        row: i,
        in_constant,
    })
}

// The fraction of row i, none where its constant form is whole, as over the denominator 1.
fn fraction_at(t: &Tableau, i: usize) -> Option<FractionRow>
    requires { i < length t.now.rows }
    ensures whole { IfNone result (model.is_whole (model.row_at t.now.rows i).den (model.row_at t.now.rows i).constant
        ≡ true) }
    ensures fraction { OnSome result (model.is_whole (model.row_at t.now.rows i).den
        (model.row_at t.now.rows i).constant ≡ false) }
    ensures row { IfSome result (λ f. f.row ≡ i) }
    ensures constant { IfSome result (IsFractionOf t.now.rows) }
    ensures formed { IfSome result (λ f. IsRow t.now.unknowns t.now.width (model.row_at t.now.rows f.row)) }
{
    let row = t.row(i);
    if row.den == 1 {
        return None;
    }
    divided_fraction_at(t, i)
}

/// The fraction of the first of the unknowns' rows that is not whole. It takes no memory.
pub fn find_fraction(t: &Tableau) -> Option<FractionRow>
    requires { t.now.unknowns ≤ length t.now.rows }
    ensures value { option_map (λ f. f.row) result ≡ model.first_fraction t.now.unknowns t.now.rows }
    ensures constant { IfSome result (IsFractionOf t.now.rows) }
    ensures bound { IfSome result (λ f. f.row < t.now.unknowns) }
    ensures row { IfSome result (λ f. IsRow t.now.unknowns t.now.width (model.row_at t.now.rows f.row)) }
{
    for i in 0..t.unknowns() {
        if let Some(fraction) = fraction_at(t, i) {
            return Some(fraction);
        }
    }
    None
}

/// The first of the unknowns' rows whose constant form has an entry that the row's denominator does not divide. It
/// takes no memory.
pub fn first_fraction(t: &Tableau) -> Option<usize>
    requires { t.now.unknowns ≤ length t.now.rows }
    ensures value { result ≡ model.first_fraction t.now.unknowns t.now.rows }
    ensures bound { IfSome result (λ i. i < t.now.unknowns) }
    ensures row { IfSome result (λ i. IsRow t.now.unknowns t.now.width (model.row_at t.now.rows i)) }
{
    match find_fraction(t) {
        Some(fraction) => Some(fraction.row),
        None => None,
    }
}

/// The form g, which is `-t` modulo D entry by entry for the row's constant form t and denominator D, and D: the new
/// parameter of a cut by the row is the floor of g over D.
pub fn residue_of(alloc: Global, t: &Tableau, row: usize) -> Result<(Form, i128), WantOfMemory>
    requires { row < length t.now.rows }
    ensures value { IfOk result (λ g. record { form = g.0; den = g.1 } ≡ cuts.residue_of
        (model.row_at t.now.rows row)) }
    ensures width { IfOk result (λ g. length g.0 ≡ t.now.width + 1) }
    ensures entries { IfOk result (λ g. All (IsResidue g.1) g.0) }
{
    let row = t.row(row);
    let entries = residues(alloc, row.den, row.constant)?;
    Ok((Form::from_entries(entries), row.den))
}
