ghost use Rattle.std.specs.Prelude.{◌≤◌, length, IfOk};
ghost use Rattle.pip_model.specs.Limits.{most_unknowns, most_params};
ghost use Rattle.text_reading.specs.Steps.{IsRead};
ghost use Rattle.pip_problem.specs.Faults.{read_fault};
ghost use Rattle.pip_reader.specs.Header as model;

use affine_forms::{MOST_CONTEXT_ROWS, MOST_PARAMETERS, MOST_ROWS, MOST_UNKNOWNS};
use pip_problem::{LimitKind, ReadRefusal};
use text_reading::{Reads, no_big_parameter, number, within};

// How many unknowns, parameters, tableau rows and context rows a problem has.
#[derive(Clone, Copy)]
pub(crate) struct Sizes {
    pub unknowns: usize,
    pub params: usize,
    pub rows: usize,
    pub context_rows: usize,
}

// A number from `low` to `high`, and the place behind it.
#[tactic(auto, unfolding(crate::specs::Header::size))]
fn size(
    bytes: &[u8],
    kind: LimitKind,
    low: usize,
    high: usize,
    place: usize,
) -> Reads<usize, ReadRefusal>
    requires { place ≤ length bytes.now }
    ensures reads { IsRead (λ n. n) read_fault bytes.now place result (model.size bytes.now kind low high place) }
    ensures high { IfOk result (λ x. x.0 ≤ high) }
{
    within(kind, low, high, number(bytes, place)?)
}

// The four numbers of sizes, each in its range, and the place behind them.
pub(crate) fn read_sizes(bytes: &[u8], place: usize) -> Reads<Sizes, ReadRefusal>
    requires { place ≤ length bytes.now }
    ensures reads { IsRead (λ s. s) read_fault bytes.now place result (model.sizes bytes.now place) }
    ensures unknowns { IfOk result (λ x. x.0.unknowns ≤ most_unknowns) }
    ensures params { IfOk result (λ x. x.0.params ≤ most_params) }
{
    let (unknowns, at) = size(bytes, LimitKind::Unknowns, 1, MOST_UNKNOWNS, place)?;
    let (params, at) = size(bytes, LimitKind::Parameters, 0, MOST_PARAMETERS, at)?;
    let (rows, at) = size(bytes, LimitKind::Rows, 0, MOST_ROWS, at)?;
    let (context_rows, at) = size(bytes, LimitKind::ContextRows, 0, MOST_CONTEXT_ROWS, at)?;
    let sizes = Sizes {
        unknowns,
        params,
        rows,
        context_rows,
    };
    Ok((sizes, at))
}

// No big parameter, then whether whole points are asked for, and the place behind them.
pub(crate) fn read_mode(bytes: &[u8], place: usize) -> Reads<bool, ReadRefusal>
    requires { place ≤ length bytes.now }
    ensures { IsRead (λ integer. integer) read_fault bytes.now place result (model.mode bytes.now place) }
{
    let at = no_big_parameter(number(bytes, place)?)?;
    let (flag, after) = number(bytes, at)?;
    Ok((flag != 0, after))
}
