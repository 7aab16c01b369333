ghost use Rattle.std.specs.Prelude.{◌≡◌, [], ◌<◌, ◌≤◌, pos, ◌≤ℤ◌, length, map, take, All, IfOk};
ghost use Rattle.pip_model.specs.Forms.{constant};
ghost use Rattle.pip_model.specs.Tree.{Component, reduced};
ghost use Rattle.pip_model.specs.Rows.{row_at};
ghost use Rattle.pip_model.specs.Run.{row_component};
ghost use Rattle.affine_forms.specs.Checks.{Fits};

use affine_forms::{WantOfMemory, floor_div, gcd_with};
use gomory_cut::Tableau;
use std::alloc::Global;
use std::marker::Model;

/// A whole vector.
#[derive(Drop)]
pub struct Point {
    values: Vec<i128>,
}

impl Model for Point {
    ghost use Rattle.std.specs.Prelude.{List, ℤ};

    ghost Value = { List ℤ };

    ghost view = { λ p. p.values.items };
}

impl Point {
    /// Its numbers, in order.
    pub fn as_slice(&self) -> &[i128]
        ensures { result.now ≡ self.now }
    {
        &self.values
    }

    /// Keeps the first n of its numbers. Takes no memory.
    pub fn keep_first(&mut self, n: usize)
        requires { n ≤ length self.old }
        ensures { self.new ≡ take n self.old }
    {
        self.values.truncate(n);
    }

    /// The point of these numbers. It takes no memory.
    pub fn from_values(values: Vec<i128>) -> Point
        ensures { result ≡ values.items }
    {
        Point { values }
    }

    /// The point of no places.
    pub fn empty(alloc: Global) -> Point
        ensures { result ≡ [] }
    {
        Point {
            values: Vec::new(alloc),
        }
    }
}

/// The constant of a component in lowest terms, of a denominator and a form without coefficients.
pub fn reduced_constant(den: i128, form: &[i128]) -> i128
    requires positive { pos 1 ≤ℤ den }
    requires fits { Fits den }
    requires form_fits { All Fits form.now }
    requires single { length form.now ≡ 1 }
    ensures { result ≡ constant (reduced den form.now).form }
{
    let divisor = gcd_with(den, form);
    floor_div(form[0], divisor)
}

// The value of the unknown of row i.
fn value_at(rows: &Tableau, i: usize) -> i128
    requires width { rows.now.width ≡ 0 }
    requires row { i < length rows.now.rows }
    ensures { result ≡ constant (row_component (row_at rows.now.rows i)).form }
{
    let row = rows.row(i);
    reduced_constant(row.den, row.constant)
}

// The unknowns' values.
pub(crate) fn values(alloc: Global, rows: &Tableau) -> Result<Point, WantOfMemory>
    requires width { rows.now.width ≡ 0 }
    requires rows { rows.now.unknowns ≤ length rows.now.rows }
    ensures { IfOk result (λ p. p ≡ map (λ (c : Component). constant c.form)
        (map row_component (take rows.now.unknowns rows.now.rows))) }
{
    let mut values = Vec::with_capacity(alloc, rows.unknowns())?;
    for i in 0..rows.unknowns() {
        values.push(value_at(rows, i))?;
    }
    Ok(Point { values })
}
