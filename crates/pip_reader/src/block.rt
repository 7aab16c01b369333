ghost use Rattle.std.specs.Prelude.{◌≤◌, ◌<◌, length};
ghost use Rattle.text_reading.specs.Steps.{AreRead, IsRead};
ghost use Rattle.pip_problem.specs.Faults.{read_fault};
ghost use Rattle.pip_reader.specs.Rows as model;

use crate::row::form_row;
use affine_forms::Form;
use pip_problem::ReadRefusal;
use text_reading::{Reads, SpareRows, expect};
use text_tokens::Kind;

// So many rows of `width` numbers, the constant of each behind its first coefficients.
#[derive(Clone, Copy)]
pub(crate) struct Block {
    pub(crate) rows: usize,
    pub(crate) width: usize,
    pub(crate) coefficients: usize,
}

// The rows of a block as forms, and the place behind them.
fn form_rows(
    spare: &mut SpareRows,
    bytes: &[u8],
    block: Block,
    place: usize,
) -> Reads<Vec<Form>, ReadRefusal>
    requires place { place ≤ length bytes.now }
    requires constant { block.coefficients < block.width }
    ensures { AreRead (λ v. v.items) read_fault bytes.now place result
        (model.form_rows bytes.now block.rows block.width block.coefficients place) }
{
    let mut forms = spare.list(block.rows)?;
    let mut at = place;
    for _ in 0..block.rows {
        let (form, after) = form_row(spare, bytes, block.width, block.coefficients, at)?;
        forms.push(form)?;
        at = after;
    }
    Ok((forms, at))
}

// The rows of a block between brackets as forms, and the place behind them.
pub(crate) fn form_block(
    spare: &mut SpareRows,
    bytes: &[u8],
    block: Block,
    place: usize,
) -> Reads<Vec<Form>, ReadRefusal>
    requires place { place ≤ length bytes.now }
    requires constant { block.coefficients < block.width }
    ensures { IsRead (λ v. v.items) read_fault bytes.now place result
        (model.form_block bytes.now block.rows block.width block.coefficients place) }
{
    let at = expect(bytes, Kind::LeftParen, place)?;
    let (forms, at) = form_rows(spare, bytes, block, at)?;
    let after = expect(bytes, Kind::RightParen, at)?;
    Ok((forms, after))
}
