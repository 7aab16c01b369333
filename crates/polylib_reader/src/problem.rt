ghost use Rattle.std.specs.Prelude.{IfOk};
ghost use Rattle.pip_model.specs.MatrixText.{read_matrices as read_matrices_of};
ghost use Rattle.pip_model.specs.Printed.{IsGroup};
ghost use Rattle.pip_model.specs.Agreement.{Agrees};
ghost use Rattle.pip_problem.specs.Faults.{read_fault};

use crate::matrix::{constraint_matrix, context_matrix};
use crate::number::number;
use crate::option::options;
use pip_problem::{Bytes, Problem, ReadRefusal};
use std::alloc::Global;
use text_reading::no_big_parameter;

/// The problem that all the bytes spell, with the comment `()`.
///
/// A row whose first entry is 0 is two inequalities, the given one and then the one with all entries negated; both are
/// counted. The first word that differs decides the refusal, which keeps the place of that word's first byte, the count
/// or the column.
pub fn read_matrices(alloc: Global, bytes: &[u8]) -> Result<Problem, ReadRefusal>
    ensures agrees { Agrees (λ x. x) read_fault result (read_matrices_of bytes.now) }
    ensures group { IfOk result (λ p. IsGroup p.comment) }
{
    let context = context_matrix(alloc, bytes)?;
    let place = no_big_parameter(number(bytes, context.after)?)?;
    let constraints = constraint_matrix(alloc, bytes, context.size, place)?;
    let integer = options(bytes, constraints.after)?;
    let comment = Bytes::try_new(alloc, b"()")?;
    Ok(Problem::from_parts(
        constraints.size,
        context.size,
        constraints.forms,
        context.forms,
        integer,
        comment,
    ))
}
