ghost use Rattle.std.specs.Prelude.{◌≤◌, ◌<◌, length, IfOk};
ghost use Rattle.pip_model.specs.Limits.{most_params, most_rows};
ghost use Rattle.pip_model.specs.MatrixText.{matrix_rows as matrix_rows_of};
ghost use Rattle.pip_model.specs.Agreement.{Agrees};
ghost use Rattle.text_reading.specs.Steps.{AreRead, IsRead};
ghost use Rattle.pip_problem.specs.Faults.{read_fault};
ghost use Rattle.polylib_reader.specs.Matrices.{size as size_of, context_matrix as context_matrix_of, constraint_matrix as constraint_matrix_of};

use crate::number::{number, numbers};
use crate::row::{push_inequalities, row_head};
use affine_forms::{Form, MOST_CONTEXT_ROWS, MOST_PARAMETERS, MOST_ROWS, MOST_UNKNOWNS};
use pip_problem::{LimitKind, ReadRefusal};
use std::alloc::Global;
use text_reading::{Reads, within};

// A matrix that was read.
#[derive(Drop)]
pub(crate) struct Matrix {
    /// The number of parameters of a context matrix, of unknowns of a constraint matrix.
    pub size: usize,
    /// The inequalities of its rows.
    pub forms: Vec<Form>,
    pub after: usize,
}

// What is known of a matrix before its rows: how many there are, of how many entries behind the first, and the limit of
// the inequalities that they give.
#[derive(Clone, Copy)]
struct Shape {
    rows: usize,
    width: usize,
    kind: LimitKind,
    most: usize,
}

// The inequalities of a matrix's rows, and the place behind them.
fn matrix_rows(
    alloc: Global,
    bytes: &[u8],
    shape: Shape,
    place: usize,
) -> Reads<Vec<Form>, ReadRefusal>
    requires place { place ≤ length bytes.now }
    requires width { 0 < shape.width }
    requires most { shape.most ≤ most_rows }
    ensures { AreRead (λ v. v.items) read_fault bytes.now place result
        (matrix_rows_of bytes.now shape.kind shape.most shape.width 0 shape.rows place) }
{
    let mut forms = Vec::new(alloc);
    let mut count = 0;
    let mut at = place;
    for _ in 0..shape.rows {
        let head = row_head(bytes, shape.kind, shape.most, count, at)?;
        let (entries, after) = numbers(alloc, bytes, shape.width, head.after)?;
        push_inequalities(alloc, &mut forms, head.equality, entries)?;
        count = head.count;
        at = after;
    }
    Ok((forms, at))
}

// A number from `low` to `high`, and the place behind it.
#[tactic(auto, unfolding(crate::specs::Matrices::size))]
fn size(
    bytes: &[u8],
    kind: LimitKind,
    low: usize,
    high: usize,
    place: usize,
) -> Reads<usize, ReadRefusal>
    requires { place ≤ length bytes.now }
    ensures reads { IsRead (λ n. n) read_fault bytes.now place result (size_of bytes.now kind low high place) }
    ensures range { IfOk result (λ x. (low ≤ x.0) × (x.0 ≤ high)) }
{
    within(kind, low, high, number(bytes, place)?)
}

// The context matrix: its rows, its columns, and its entries row by row.
pub(crate) fn context_matrix(alloc: Global, bytes: &[u8]) -> Result<Matrix, ReadRefusal>
    ensures agrees { Agrees (λ m. ((m.size, m.forms.items), m.after)) read_fault result (context_matrix_of bytes.now) }
    ensures params { IfOk result (λ m. m.size ≤ most_params) }
    ensures order { IfOk result (λ m. m.after ≤ length bytes.now) }
{
    let (rows, at) = size(bytes, LimitKind::ContextRows, 0, MOST_CONTEXT_ROWS, 0)?;
    let most_columns = MOST_PARAMETERS + 2;
    let (columns, at) = size(bytes, LimitKind::ContextColumns, 2, most_columns, at)?;
    let params = columns - 2;
    let shape = Shape {
        rows,
        width: params + 1,
        kind: LimitKind::ContextRows,
        most: MOST_CONTEXT_ROWS,
    };
    let (forms, after) = matrix_rows(alloc, bytes, shape, at)?;
    Ok(Matrix {
        size: params,
        forms,
        after,
    })
}

// The constraint matrix over so many parameters.
pub(crate) fn constraint_matrix(
    alloc: Global,
    bytes: &[u8],
    params: usize,
    place: usize,
) -> Result<Matrix, ReadRefusal>
    requires place { place ≤ length bytes.now }
    requires params { params ≤ most_params }
    ensures agrees { Agrees (λ m. ((m.size, m.forms.items), m.after)) read_fault result
        (constraint_matrix_of bytes.now params place) }
    ensures order { IfOk result (λ m. m.after ≤ length bytes.now) }
{
    let (rows, at) = size(bytes, LimitKind::Rows, 0, MOST_ROWS, place)?;
    let most_columns = params + 2 + MOST_UNKNOWNS;
    let (columns, at) = size(bytes, LimitKind::Columns, params + 3, most_columns, at)?;
    let unknowns = columns - params - 2;
    let shape = Shape {
        rows,
        width: unknowns + params + 1,
        kind: LimitKind::Rows,
        most: MOST_ROWS,
    };
    let (forms, after) = matrix_rows(alloc, bytes, shape, at)?;
    Ok(Matrix {
        size: unknowns,
        forms,
        after,
    })
}
