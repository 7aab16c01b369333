ghost use Rattle.std.specs.Prelude.{◌≡◌, ◌≤◌, IfOk};
ghost use Rattle.pip_model.specs.Leaves.{IsReached};
ghost use Rattle.pip_model.specs.Limits.{most_nesting};
ghost use Rattle.pip_model.specs.Right.{IsRight};
ghost use Rattle.pip_model.specs.Run as model;
ghost use Rattle.pip_model.specs.Run.{IsBudget, answered, first_node, run_from, setting};
ghost use Rattle.pip_model.specs.Agreement.{Agrees, AgreesCounted};
ghost use Rattle.pip_model.specs.WellFormed.{IsProblem, IsWellFormedAnswer};
ghost use Rattle.pip_problem.specs.Faults.{run_fault};
ghost use Rattle.pip_problem.specs.Counts.{IsCountedRun};
ghost use Rattle.quast.specs.Answers.{answer_of, IsOver};
ghost use Rattle.node_turn.specs.Turns.{tree_in};
ghost use Rattle.pip_solve.specs.Frames.{HasRoom};
ghost use Rattle.pip_solve.specs.Starts.{IsFirstPath};

use crate::node::run;
use crate::plain::plain_tree;
use crate::rooms::Rooms;
use crate::starting::{add_forms, start_path, start_rows};
use node_turn::{NodeRows, Path, Point, Work};
use pip_problem::{Limits, Problem, Refusal};
use plain_run::point_shortly;
use quast::{Answer, Quast};
use std::alloc::Global;

/// The room of a run, which is used again from problem to problem. What was solved before changes no answer, and a
/// refusal leaves the room for the next problem.
#[derive(Drop)]
pub struct Solver {
    rows: NodeRows,
    pub(crate) path: Path,
    pub(crate) rooms: Rooms,
}

impl Solver {
    /// No room yet. It takes no memory.
    pub fn new(alloc: Global) -> Solver {
        Solver {
            rows: NodeRows::new(alloc, 0, 0),
            path: Path::new(alloc),
            rooms: Rooms::new(alloc),
        }
    }

    /// Gives all room back.
    pub fn discard(self) {
        let Solver { rows, path, rooms } = self;
        drop(rows);
        path.discard();
        rooms.discard();
    }

    /// The allocator that the room is taken from.
    pub fn allocator(&self) -> Global {
        self.rows.allocator()
    }

    // The tree of a problem whose context has a point, from the path to its first node. Room for all frames that may
    // wait is made first.
    fn tree_by_nodes(
        &mut self,
        problem: &Problem,
        levels: usize,
        work: &mut Work,
    ) -> Result<Quast, Refusal>
        requires path { IsFirstPath problem.now self.old.path }
        requires room { HasRoom levels self.old.path }
        requires nesting { levels ≡ work.old.budget.nesting }
        requires few { levels ≤ most_nesting }
        ensures gives { AgreesCounted tree_in run_fault result work.new
            (run_from (setting problem.now) (first_node problem.now) work.old) }
        ensures width { IfOk result (λ tree. tree.width ≡ problem.now.params) }
    {
        let alloc = self.rows.allocator();
        self.rooms.pending.restart(levels)?;
        self.rows.reshape(problem.unknowns(), problem.params());
        start_rows(alloc, problem, &mut self.rows)?;
        run(&mut self.rows, &mut self.path, &mut self.rooms, work)
    }

    // The tree of a problem whose context has a point, from the path to its first node: over rows of 64 bits where there
    // are no parameters and all numbers have that many, else node by node.
    fn tree(&mut self, problem: &Problem, levels: usize, work: &mut Work) -> Result<Quast, Refusal>
        requires path { IsFirstPath problem.now self.old.path }
        requires room { HasRoom levels self.old.path }
        requires nesting { levels ≡ work.old.budget.nesting }
        requires few { levels ≤ most_nesting }
        ensures gives { AgreesCounted tree_in run_fault result work.new
            (run_from (setting problem.now) (first_node problem.now) work.old) }
        ensures width { IfOk result (λ tree. tree.width ≡ problem.now.params) }
    {
        if problem.params() == 0 {
            let rooms = &mut self.rooms;
            if let Some(made) = plain_tree(&mut rooms.spares, &mut rooms.plain, problem, work) {
                return made;
            }
        }
        self.tree_by_nodes(problem, levels, work)
    }

    // The tree of a problem whose context has a point.
    fn tree_anew(
        &mut self,
        problem: &Problem,
        levels: usize,
        work: &mut Work,
    ) -> Result<Quast, Refusal>
        requires nesting { levels ≡ work.old.budget.nesting }
        requires few { levels ≤ most_nesting }
        ensures gives { AgreesCounted tree_in run_fault result work.new
            (run_from (setting problem.now) (first_node problem.now) work.old) }
        ensures width { IfOk result (λ tree. tree.width ≡ problem.now.params) }
    {
        start_path(problem, levels, &mut self.path)?;
        self.tree(problem, levels, work)
    }

    /// The point that `context_point` finds for a problem, in the room that is kept.
    pub fn context_point(
        &mut self,
        problem: &Problem,
        work: &mut Work,
    ) -> Result<Option<Point>, Refusal>
        ensures gives { IsCountedRun (λ o. o) run_fault result work.old work.new
            (model.point problem.now.params problem.now.context) }
    {
        let alloc = self.rows.allocator();
        if problem.params() > 0 {
            let room = &mut self.rooms.plain;
            let forms = problem.context();
            if let Some(found) = point_shortly(alloc, room, problem.params(), forms, work) {
                return found;
            }
        }
        let context = &mut self.path.context;
        context.restart(problem.params());
        add_forms(problem, context, 0)?;
        context.point(alloc, work)
    }

    /// The answer that `answer_from` gives, in the room that is kept.
    pub fn answer_from(
        &mut self,
        problem: &Problem,
        point: &Option<Point>,
        limits: &Limits,
        work: &mut Work,
    ) -> Result<Answer, Refusal>
        requires budget { work.old.budget ≡ limits.now }
        ensures gives { AgreesCounted answer_of run_fault result work.new
            (model.answer_from problem.now point.now work.old) }
        ensures scope { IfOk result (IsOver problem.now.params) }
    {
        let levels = limits.nesting() as usize;
        match point {
            None => Ok(Answer::Void),
            Some(_) => {
                let tree = self.tree_anew(problem, levels, work)?;
                Ok(Answer::Tree(tree))
            }
        }
    }

    // The answer of the run, after what was counted.
    fn answer(
        &mut self,
        problem: &Problem,
        limits: &Limits,
        work: &mut Work,
    ) -> Result<Answer, Refusal>
        requires budget { work.old.budget ≡ limits.now }
        ensures gives { AgreesCounted answer_of run_fault result work.new (model.answer problem.now work.old) }
        ensures scope { IfOk result (IsOver problem.now.params) }
    {
        let alloc = self.rows.allocator();
        let levels = limits.nesting() as usize;
        start_path(problem, levels, &mut self.path)?;
        if !self.path.context.has_point(alloc, work)? {
            return Ok(Answer::Void);
        }
        let tree = self.tree(problem, levels, work)?;
        Ok(Answer::Tree(tree))
    }

    // The answer of the run from its start, in which nothing is counted yet.
    fn answer_from_start(&mut self, problem: &Problem, limits: &Limits) -> Result<Answer, Refusal>
        ensures gives { Agrees answer_of run_fault result (answered (model.solve limits.now problem.now)) }
        ensures scope { IfOk result (IsOver problem.now.params) }
        ensures problem { IsProblem problem.now }
        ensures budget { IsBudget limits.now }
    {
        let _ = problem.unknowns();
        let _ = limits.nesting();
        let mut work = Work::start(limits);
        self.answer(problem, limits, &mut work)
    }

    /// The answer that `solve` gives, in the room that is kept.
    pub fn solve(&mut self, problem: &Problem, limits: &Limits) -> Result<Answer, Refusal>
        ensures gives { Agrees answer_of run_fault result (answered (model.solve limits.now problem.now)) }
        ensures right { IfOk result (λ a. IsRight problem.now (answer_of a)) }
        ensures reached { IfOk result (λ a. IsReached problem.now (answer_of a)) }
        ensures well_formed { IfOk result (λ a. IsWellFormedAnswer problem.now.params (answer_of a)) }
        ensures scope { IfOk result (IsOver problem.now.params) }
    {
        let answer = self.answer_from_start(problem, limits);
        answer
    }
}
