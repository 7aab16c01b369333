ghost use Rattle.std.specs.Prelude.{◌≡◌, ℕ, ◌+◌, ◌<◌, ◌≤◌, ℤ, Some, List, [], ◌∷◌, ◌++◌, false, length, map, IfOk, OnOk};
ghost use Rattle.pip_model.specs.Contexts.{IsContext};
ghost use Rattle.pip_model.specs.Rows.{Row};
ghost use Rattle.short_run.specs.Turns.{negative_from};
ghost use Rattle.kept_run.specs.Remembered.{IsFormed, IsReplay, IsStopped, IsRemembered};
ghost use Rattle.short_run.specs.Points.{first_rows, is_end};

use affine_forms::{Form, WantOfMemory};
use short_run::{ShortTableau, Stop, start_short};
use std::alloc::Global;

/// Pivots of a run without parameters, in order: their rows as they stood before each, the places of these rows, and
/// their columns. And the rows that the pivots made of the first ones.
#[derive(Drop)]
pub struct Replay {
    pub pivots: ShortTableau,
    pub rows: Vec<usize>,
    pub columns: Vec<usize>,
    pub end: ShortTableau,
}

/// The pivots of a run or of its beginning, and whether its last rows show a point: none is below 0, and those of the
/// unknowns are whole.
#[derive(Drop)]
pub struct Remembered {
    pub run: Replay,
    pub at_end: bool,
}

impl Remembered {
    /// No run yet. It takes no memory.
    pub fn new(alloc: Global) -> Remembered
        ensures pivots { result.run.pivots.rows ≡ [] }
        ensures rows { result.run.rows.items ≡ [] }
        ensures columns { result.run.columns.items ≡ [] }
        ensures end { result.run.end.rows ≡ [] }
        ensures at_end { result.at_end ≡ false }
    {
        let run = Replay {
            pivots: ShortTableau::new(alloc, 0),
            rows: Vec::new(alloc),
            columns: Vec::new(alloc),
            end: ShortTableau::new(alloc, 0),
        };
        Remembered { run, at_end: false }
    }
}

// Starts again with no pivot.
fn restart(m: &mut Replay, places: usize, forms: &[Form]) -> Result<(), Stop>
    requires { IsContext places forms.now }
    ensures formed { OnOk result (IsFormed m.new) }
    ensures unknowns { OnOk result (m.new.end.unknowns ≡ places) }
    ensures replay { OnOk result (IsReplay (first_rows places forms.now) m.new) }
{
    m.pivots.restart(places);
    m.rows.clear();
    m.columns.clear();
    start_short(&mut m.end, places, forms)?;
    Ok(())
}

// Adds the place of a row or a column.
fn push_place(places: &mut Vec<usize>, i: usize) -> Result<(), WantOfMemory>
    ensures { OnOk result (places.new.items ≡ places.old.items ++ i ∷ []) }
{
    places.push(i)?;
    Ok(())
}

// The step at the first row below 0: whether a column enters. Where one does, the pivot is written down and made.
#[tactic(auto, using(run_laws::proofs::RowsAt::length_pivot))]
fn pivot_at(m: &mut Replay, r: usize) -> Result<bool, Stop>
    requires formed { IsFormed m.old }
    requires row { r < length m.old.end.rows }
    requires first { negative_from 0 m.old.end.rows ≡ Some r }
    requires few { length m.old.columns.items < length m.old.end.rows }
    ensures formed { IfOk result (λ x. IsFormed m.new) }
    ensures unknowns { IfOk result (λ x. m.new.end.unknowns ≡ m.old.end.unknowns) }
    ensures rows { IfOk result (λ x. length m.new.end.rows ≡ length m.old.end.rows) }
    ensures columns { IfOk result (λ x. length m.new.columns.items ≤ length m.old.columns.items + 1) }
    ensures replay { IfOk result (λ x. (first : List Row) → IsReplay first m.old → IsReplay first m.new) }
{
    let Some(c) = m.end.entering(r) else {
        return Ok(false);
    };
    m.pivots.push_copy(&m.end, r)?;
    push_place(&mut m.rows, r)?;
    push_place(&mut m.columns, c)?;
    if !m.end.pivot(r, c) {
        return Err(Stop::Long);
    }
    Ok(true)
}

// Pivots up to the run's first cut or its end, but no more in all than it has rows.
fn run_up(m: &mut Replay) -> Result<(), Stop>
    requires { IsFormed m.old }
    ensures formed { OnOk result (IsFormed m.new) }
    ensures unknowns { OnOk result (m.new.end.unknowns ≡ m.old.end.unknowns) }
    ensures replay { OnOk result ((first : List Row) → IsReplay first m.old → IsReplay first m.new) }
{
    for _ in m.columns.len()..m.end.rows() {
        let Some(r) = m.end.first_below() else {
            return Ok(());
        };
        if !pivot_at(m, r)? {
            return Ok(());
        }
    }
    Ok(())
}

// Whether no row is below 0, and those of the unknowns are whole.
fn shows_point(rows: &ShortTableau) -> bool
    requires { rows.now.unknowns ≤ length rows.now.rows }
    ensures { result ≡ is_end rows.now.unknowns rows.now.rows }
{
    rows.first_below().is_none() && rows.first_fraction().is_none()
}

// Goes on from the last rows up to the run's first cut or its end, and sees whether they show a point.
pub(crate) fn run_to_end(m: &mut Remembered) -> Result<(), Stop>
    requires { IsFormed m.old.run }
    ensures stopped { OnOk result (IsStopped m.new) }
    ensures unknowns { OnOk result (m.new.run.end.unknowns ≡ m.old.run.end.unknowns) }
    ensures replay { OnOk result ((first : List Row) → IsReplay first m.old.run → IsReplay first m.new.run) }
{
    run_up(&mut m.run)?;
    m.at_end = shows_point(&m.run.end);
    Ok(())
}

/// The run of the forms as rows up to its first cut or its end, but no more pivots than it has rows, in the room of the
/// run before it. Nothing is counted.
pub fn remember(m: &mut Remembered, places: usize, forms: &[Form]) -> Result<(), Stop>
    requires { IsContext places forms.now }
    ensures { OnOk result (IsRemembered places forms.now m.new) }
{
    restart(&mut m.run, places, forms)?;
    run_to_end(m)
}
