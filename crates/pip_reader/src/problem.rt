ghost use Rattle.std.specs.Prelude.{◌≡◌, ◌≤◌, ◌<◌, ◌↔◌, length, drop, IsTrue, None, IfOk, IfErr, IfSome};
ghost use Rattle.std.specs.List.{list_all};
ghost use Rattle.pip_model.specs.Moved.{is_closed};
ghost use Rattle.pip_model.specs.NativeText.{problem_at as problem_at_of, read_native};
ghost use Rattle.pip_model.specs.Printed.{IsGroup};
ghost use Rattle.pip_model.specs.Limits.{most_unknowns, most_params};
ghost use Rattle.pip_model.specs.Agreement.{Agrees};
ghost use Rattle.text_reading.specs.Spare.{most_spare_rows};
ghost use Rattle.text_reading.specs.Steps.{IsRead};
ghost use Rattle.pip_problem.specs.Faults.{read_fault};
ghost use Rattle.pip_reader.specs.Problems.{problem_of, head_of, blocks_of, blocks_by_sizes, problem_by_steps};
ghost use Rattle.pip_reader.specs.Refusals.{IsNoOption};

use crate::block::{Block, form_block};
use crate::header::{Sizes, read_mode, read_sizes};
use affine_forms::Form;
use pip_problem::{Bytes, Problem, ReadRefusal};
use std::alloc::Global;
use text_reading::{Reads, SpareRows, block_in, expect, group};
use text_tokens::{Kind, next_open};

// What stands before a problem's rows.
#[derive(Drop)]
struct Head {
    comment: Bytes,
    sizes: Sizes,
    integer: bool,
}

// A problem's rows and those of its context.
#[derive(Drop)]
struct Blocks {
    rows: Vec<Form>,
    context: Vec<Form>,
}

// What a problem is made of.
#[derive(Drop)]
struct ProblemParts {
    head: Head,
    blocks: Blocks,
}

// The comment, the sizes and the mode, and the place behind them.
fn head_at(alloc: Global, bytes: &[u8], place: usize) -> Reads<Head, ReadRefusal>
    requires { place ≤ length bytes.now }
    ensures reads { IsRead (λ h. h) read_fault bytes.now place result (head_of bytes.now place) }
    ensures unknowns { IfOk result (λ x. x.0.sizes.unknowns ≤ most_unknowns) }
    ensures params { IfOk result (λ x. x.0.sizes.params ≤ most_params) }
{
    let (comment, at) = group(alloc, bytes, place)?;
    let (sizes, at) = read_sizes(bytes, at)?;
    let (integer, at) = read_mode(bytes, at)?;
    let head = Head {
        comment,
        sizes,
        integer,
    };
    Ok((head, at))
}

// The rows of these sizes, and the place behind them.
fn blocks_at(
    spare: &mut SpareRows,
    bytes: &[u8],
    sizes: Sizes,
    place: usize,
) -> Reads<Blocks, ReadRefusal>
    requires place { place ≤ length bytes.now }
    requires unknowns { sizes.unknowns ≤ most_unknowns }
    requires params { sizes.params ≤ most_params }
    ensures { IsRead blocks_of read_fault bytes.now place result (blocks_by_sizes bytes.now sizes place) }
{
    let block = Block {
        rows: sizes.rows,
        width: sizes.unknowns + 1 + sizes.params,
        coefficients: sizes.unknowns,
    };
    let (rows, at) = form_block(spare, bytes, block, place)?;
    let (context, at) = block_in(spare, bytes, sizes.context_rows, sizes.params + 1, at)?;
    Ok((Blocks { rows, context }, at))
}

// The parts of a problem, and the place behind its last `)`.
fn parts_at(spare: &mut SpareRows, bytes: &[u8], place: usize) -> Reads<ProblemParts, ReadRefusal>
    requires { place ≤ length bytes.now }
    ensures { IsRead problem_of read_fault bytes.now place result (problem_by_steps bytes.now place) }
{
    let first = expect(bytes, Kind::LeftParen, place)?;
    let (head, at) = head_at(spare.allocator(), bytes, first)?;
    let (blocks, at) = blocks_at(spare, bytes, head.sizes, at)?;
    let after = expect(bytes, Kind::RightParen, at)?;
    Ok((ProblemParts { head, blocks }, after))
}

// The problem that begins at a place, and the place behind its last `)`.
fn problem_at(spare: &mut SpareRows, bytes: &[u8], place: usize) -> Reads<Problem, ReadRefusal>
    requires { place ≤ length bytes.now }
    ensures reads { IsRead (λ p. p) read_fault bytes.now place result (problem_at_of bytes.now place) }
    ensures group { IfOk result (λ x. IsGroup x.0.comment) }
{
    let (parts, after) = parts_at(spare, bytes, place)?;
    let ProblemParts { head, blocks } = parts;
    let problem = Problem::from_parts(
        head.sizes.unknowns,
        head.sizes.params,
        blocks.rows,
        blocks.context,
        head.integer,
        head.comment,
    );
    Ok((problem, after))
}

/// The problem that begins with the first `(` at or behind `start`, and the place behind its last `)`; none exactly
/// where there is no `(`.
///
/// The first token that differs from the format decides the refusal, which keeps the place of that token's first byte
/// (the number of bytes at their end), the count that is out of its range, or the big parameter's column. A number of
/// more than 127 bits where one is expected is `Wide`. It never answers `OptionWord`. `start` is at most the number of
/// bytes. The rows are read into spare rooms.
pub fn read_problem_in(
    spare: &mut SpareRows,
    bytes: &[u8],
    start: usize,
) -> Result<Option<(Problem, usize)>, ReadRefusal>
    requires { start ≤ length bytes.now }
    ensures agrees { Agrees (λ x. x) read_fault result (read_native bytes.now start) }
    ensures none { IfOk result (λ o. (o ≡ None) ↔ IsTrue (list_all is_closed (drop start bytes.now))) }
    ensures place { IfOk result (λ o. IfSome o (λ x. (start < x.1) × (x.1 ≤ length bytes.now))) }
    ensures group { IfOk result (λ o. IfSome o (λ x. IsGroup x.0.comment)) }
    ensures no_option { IfErr result IsNoOption }
{
    match next_open(bytes, start) {
        None => Ok(None),
        Some(place) => Ok(Some(problem_at(spare, bytes, place)?)),
    }
}

/// The same, in new rooms.
pub fn read_problem(
    alloc: Global,
    bytes: &[u8],
    start: usize,
) -> Result<Option<(Problem, usize)>, ReadRefusal>
    requires { start ≤ length bytes.now }
    ensures agrees { Agrees (λ x. x) read_fault result (read_native bytes.now start) }
    ensures none { IfOk result (λ o. (o ≡ None) ↔ IsTrue (list_all is_closed (drop start bytes.now))) }
    ensures place { IfOk result (λ o. IfSome o (λ x. (start < x.1) × (x.1 ≤ length bytes.now))) }
    ensures group { IfOk result (λ o. IfSome o (λ x. IsGroup x.0.comment)) }
    ensures no_option { IfErr result IsNoOption }
{
    let mut spare = SpareRows::new(alloc);
    let read = read_problem_in(&mut spare, bytes, start);
    drop(spare);
    read
}

/// Keeps the rooms of a problem's rows, as `SpareRows::keep` does.
pub fn keep_rows(spare: &mut SpareRows, problem: Problem)
    ensures { spare.new ≤ most_spare_rows }
{
    let (rows, context) = problem.into_rows();
    spare.keep(context);
    spare.keep(rows);
}
