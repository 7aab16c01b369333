ghost use Rattle.std.specs.Prelude.{◌≡◌, ◌+◌, ◌*◌, ◌<◌, ◌≤◌, ◌++◌, ◌-ℤ◌, pos, All, IfOk, OnOk};
ghost use Rattle.pip_model.specs.Limits.{most_unknowns, most_params};
ghost use Rattle.pip_model.specs.NativeText.{form_of_row};
ghost use Rattle.program_model.specs.Trial.{after_draw, after_draws, drawn, numbers_drawn, ranges, row_ranges, rows_drawn, problem_drawn, draws_of};
ghost use Rattle.affine_forms.specs.Checks.{Fits};

use crate::generator::Generator;
use affine_forms::{Bytes, Form, WantOfMemory};
use pip_problem::Problem;
use std::alloc::Global;

// A number below `range`, less `offset`.
fn draw_number(generator: &mut Generator, range: u64, offset: u64) -> i128
    requires { 0 < range }
    ensures value { result ≡ pos (drawn (after_draw generator.old) range) -ℤ pos offset }
    ensures fits { Fits result }
    ensures state { generator.new ≡ after_draw generator.old }
{
    generator.draw(range) as i128 - offset as i128
}

// Appends so many coefficients, each of -4 .. 4.
fn push_coefficients(
    entries: &mut Vec<i128>,
    generator: &mut Generator,
    count: usize,
) -> Result<(), WantOfMemory>
    requires { All Fits entries.old.items }
    ensures items { OnOk result
        (entries.new.items ≡ entries.old.items ++ numbers_drawn (ranges count (9, 4)) generator.old) }
    ensures fits { OnOk result (All Fits entries.new.items) }
    ensures state { OnOk result (generator.new ≡ after_draws count generator.old) }
{
    for _ in 0..count {
        entries.push(draw_number(generator, 9, 4))?;
    }
    Ok(())
}

// A row's form. The constant is drawn between the unknowns' coefficients and the parameters', and stands last.
fn draw_row(
    alloc: Global,
    generator: &mut Generator,
    unknowns: usize,
    params: usize,
) -> Result<Form, WantOfMemory>
    requires unknowns { unknowns ≤ most_unknowns }
    requires params { params ≤ most_params }
    ensures row { IfOk result
        (λ form. form ≡ form_of_row unknowns (numbers_drawn (row_ranges unknowns params) generator.old)) }
    ensures state { OnOk result (generator.new ≡ after_draws (unknowns + 1 + params) generator.old) }
{
    let mut entries = Vec::with_capacity(alloc, unknowns + 1 + params)?;
    push_coefficients(&mut entries, generator, unknowns)?;
    let constant = draw_number(generator, 21, 10);
    push_coefficients(&mut entries, generator, params)?;
    entries.push(constant)?;
    Ok(Form::from_entries(entries))
}

// So many rows' forms.
fn draw_rows(
    alloc: Global,
    generator: &mut Generator,
    unknowns: usize,
    params: usize,
    count: usize,
) -> Result<Vec<Form>, WantOfMemory>
    requires unknowns { unknowns ≤ most_unknowns }
    requires params { params ≤ most_params }
    ensures rows { IfOk result (λ rows. rows.items ≡ rows_drawn unknowns params count generator.old) }
    ensures state { OnOk result (generator.new ≡ after_draws (count * (unknowns + 1 + params)) generator.old) }
{
    let mut rows = Vec::with_capacity(alloc, count)?;
    for _ in 0..count {
        rows.push(draw_row(alloc, generator, unknowns, params)?)?;
    }
    Ok(rows)
}

/// The problem that is drawn next: 1 to 3 unknowns, 0 to 2 parameters, 1 to 4 rows and no context row; one in four asks
/// for rational points. Only want of memory refuses it, and then some of its draws are made.
pub fn draw_problem(alloc: Global, generator: &mut Generator) -> Result<Problem, WantOfMemory>
    ensures problem { IfOk result (λ p. p ≡ problem_drawn generator.old) }
    ensures state { OnOk result (generator.new ≡ after_draws (draws_of generator.old) generator.old) }
{
    let unknowns = 1 + generator.draw(3) as usize;
    let params = generator.draw(3) as usize;
    let count = 1 + generator.draw(4) as usize;
    let integer = generator.draw(4) != 0;
    let rows = draw_rows(alloc, generator, unknowns, params, count)?;
    let comment = Bytes::try_new(alloc, b"()")?;
    let context = Vec::new(alloc);
    Ok(Problem::from_parts(unknowns, params, rows, context, integer, comment))
}
