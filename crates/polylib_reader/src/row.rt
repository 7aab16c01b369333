ghost use Rattle.std.specs.Prelude.{◌≡◌, ◌≤◌, ◌<◌, ◌++◌, length, All, IfOk, OnOk};
ghost use Rattle.pip_model.specs.Limits.{most_rows};
ghost use Rattle.pip_model.specs.MatrixText.{is_equality as is_equality_of, inequalities, counted as counted_of};
ghost use Rattle.pip_model.specs.Agreement.{Agrees};
ghost use Rattle.affine_forms.specs.Checks.{Fits};
ghost use Rattle.pip_problem.specs.Faults.{read_fault};
ghost use Rattle.polylib_reader.specs.Matrices.{row_head as row_head_of};

use crate::number::number_word;
use crate::word::next_word;
use affine_forms::{Form, WantOfMemory, negated};
use pip_problem::{LimitKind, ReadRefusal};
use std::alloc::Global;
use text_reading::Reads;

// What a row's first entry says.
#[derive(Clone, Copy)]
pub(crate) struct RowHead {
    pub equality: bool,
    /// How many inequalities there are with this row's.
    pub count: usize,
    pub after: usize,
}

// Whether a row is an equality, by its first entry that was read, and the place behind that.
fn is_equality(start: usize, first: (i128, usize)) -> Reads<bool, ReadRefusal>
    ensures agrees { Agrees (λ x. x) read_fault result (is_equality_of start first) }
    ensures place { IfOk result (λ x. x.1 ≡ first.1) }
{
    match first {
        (0, after) => Ok((true, after)),
        (1, after) => Ok((false, after)),
        _ => Err(ReadRefusal::Syntax(start)),
    }
}

// So many inequalities, of at most `most`.
fn check_count(kind: LimitKind, most: usize, count: usize) -> Result<usize, ReadRefusal>
    ensures agrees { Agrees (λ x. x) read_fault result (counted_of kind most count) }
    ensures within { IfOk result (λ count. count ≤ most) }
{
    if most < count {
        Err(ReadRefusal::Limit(kind, count as i128))
    } else {
        Ok(count)
    }
}

// The first entry of a row behind so many inequalities.
pub(crate) fn row_head(
    bytes: &[u8],
    kind: LimitKind,
    most: usize,
    count: usize,
    place: usize,
) -> Result<RowHead, ReadRefusal>
    requires place { place ≤ length bytes.now }
    requires count { count ≤ most }
    requires most { most ≤ most_rows }
    ensures agrees { Agrees (λ head. ((head.equality, head.count), head.after)) read_fault result
        (row_head_of bytes.now kind most count place) }
    ensures within { IfOk result (λ head. head.count ≤ most) }
    ensures order { IfOk result (λ head. (place ≤ head.after) × (head.after ≤ length bytes.now)) }
{
    let word = next_word(bytes, place);
    let (equality, after) = is_equality(word.start, number_word(&word)?)?;
    let count = check_count(kind, most, count + if equality { 2 } else { 1 })?;
    Ok(RowHead {
        equality,
        count,
        after,
    })
}

// Appends a row's inequalities: an equality is two, the second with all entries negated.
pub(crate) fn push_inequalities(
    alloc: Global,
    forms: &mut Vec<Form>,
    equality: bool,
    entries: Vec<i128>,
) -> Result<(), WantOfMemory>
    requires some { 0 < length entries.items }
    requires fits { All Fits entries.items }
    ensures { OnOk result (forms.new.items ≡ forms.old.items ++ inequalities equality entries.items) }
{
    if equality {
        let opposite = negated(alloc, &entries)?;
        forms.push(Form::from_entries(entries))?;
        forms.push(Form::from_entries(opposite))?;
    } else {
        forms.push(Form::from_entries(entries))?;
    }
    Ok(())
}
