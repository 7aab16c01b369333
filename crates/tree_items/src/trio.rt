ghost use Rattle.std.specs.Prelude.{◌≡◌, ◌≤◌, length, Some};
ghost use Rattle.pip_model.specs.Limits.{most_params};
ghost use Rattle.program_model.specs.ItemKinds as kinds;
ghost use Rattle.item_writing.specs.Items.{Finds, FindsItem};
ghost use Rattle.tree_items.specs.Pairs.{IsTrio, trio_of};

use affine_forms::Forms;
use item_writing::{Ending, needed_answer};
use pip_reader::read_context;
use quast_text::Spoken;
use std::alloc::Global;

/// A context and two answers over as many parameters.
#[derive(Drop)]
pub struct Trio {
    pub(crate) rows: Forms,
    pub(crate) first: Spoken,
    pub(crate) second: Spoken,
}

// The two answers behind a context, and the place behind these.
#[tactic(auto, using(crate::proofs::Trios::trio_given, crate::proofs::Trios::trio_stopped))]
fn rest_of_trio(
    alloc: Global,
    bytes: &[u8],
    rows: Forms,
    at: usize,
    params: usize,
) -> Result<(Trio, usize), Ending>
    requires place { at ≤ length bytes.now }
    requires few { params ≤ most_params }
    requires width { rows.width ≡ params }
    ensures { Finds (λ x. Some (trio_of x.0, x.1)) (IsTrio params)
        (kinds.trio_by bytes.now params (Some (rows.forms, at))) at (length bytes.now) result }
{
    let (first, at) = needed_answer(alloc, bytes, at, params)?;
    let (second, after) = needed_answer(alloc, bytes, at, params)?;
    let trio = Trio {
        rows,
        first,
        second,
    };
    Ok((trio, after))
}

// The context and the two answers of which the first begins with the first `(` at or behind a place, and the place
// behind them; none exactly where there is no `(`.
pub(crate) fn trio_at(
    alloc: Global,
    bytes: &[u8],
    at: usize,
    params: usize,
) -> Result<Option<(Trio, usize)>, Ending>
    requires place { at ≤ length bytes.now }
    requires few { params ≤ most_params }
    ensures { FindsItem trio_of (IsTrio params) (kinds.trio bytes.now params at) at (length bytes.now) result }
{
    match read_context(alloc, bytes, at, params)? {
        Some((rows, at)) => Ok(Some(rest_of_trio(alloc, bytes, rows, at, params)?)),
        None => Ok(None),
    }
}
