ghost use Rattle.std.specs.Prelude.{◌≡◌, ◌≤◌, ◌^◌, ◌<◌, IfOk};
ghost use Rattle.pip_model.specs.Reading.{within as within_of, no_big_parameter as no_big_parameter_of};
ghost use Rattle.pip_model.specs.Agreement.{Agrees};
ghost use Rattle.pip_problem.specs.Faults.{read_fault};

use pip_problem::{LimitKind, ReadRefusal};

/// A count that was read, with the place behind it, where it lies from `low` to `high`.
pub fn within(
    kind: LimitKind,
    low: usize,
    high: usize,
    read: (i128, usize),
) -> Result<(usize, usize), ReadRefusal>
    ensures agrees { Agrees (λ x. x) read_fault result (within_of kind low high read) }
    ensures range { IfOk result (λ x. (low ≤ x.0) × (x.0 ≤ high)) }
    ensures place { IfOk result (λ x. x.1 ≡ read.1) }
{
    let (count, place) = read;
    match usize::try_from(count) {
        Ok(size) if low <= size && size <= high => Ok((size, place)),
        _ => Err(ReadRefusal::Limit(kind, count)),
    }
}

/// The place behind the big parameter's column that was read, which is to be -1: none.
pub fn no_big_parameter(read: (i128, usize)) -> Result<usize, ReadRefusal>
    ensures agrees { Agrees (λ x. x) read_fault result (no_big_parameter_of read) }
    ensures place { IfOk result (λ place. place ≡ read.1) }
{
    match read {
        (-1, place) => Ok(place),
        (column, _) => Err(ReadRefusal::BigParameter(column)),
    }
}
