ghost use Rattle.std.specs.Prelude.{◌≡◌, IfOk};
ghost use Rattle.pip_model.specs.Run.{Work as Counts};
ghost use Rattle.pip_solve.specs.Frames.{finished, next_run, HasNextRoom, IsClosing, IsNext};

use crate::pending::{Frame, Pending};
use affine_forms::WantOfMemory;
use node_turn::{NodeRows, Path};
use quast::Quast;
use std::mem::replace;

// What is in hand next: the node of the rows, or the whole tree.
#[derive(Drop)]
pub(crate) enum Next {
    Node,
    Tree(Quast),
}

// The rows become these, and those that held them before are kept as room.
fn take_rows(rows: &mut NodeRows, due: NodeRows, pending: &mut Pending)
    ensures rows { rows.new ≡ due }
    ensures kept { pending.new ≡ pending.old }
{
    pending.keep(replace(rows, due));
}

// The frames that wait for a tree are closed over it, up to an if whose second tree is due: the rows are those of its
// node, the path goes back there, and the opposite condition joins the context.
pub(crate) fn close(
    tree: Quast,
    rows: &mut NodeRows,
    path: &mut Path,
    pending: &mut Pending,
) -> Result<Next, WantOfMemory>
    requires { IsClosing tree path.old pending.old }
    ensures gives { IfOk result (λ next. (w : Counts) → finished path.old pending.old.frames tree.tree w
        ≡ next_run rows.new path.new pending.new.frames next w) }
    ensures next { IfOk result (IsNext 0 path.old pending.old rows.new path.new pending.new) }
    ensures room { IfOk result (HasNextRoom pending.new.most path.new) }
{
    let alloc = rows.allocator();
    let mut tree = tree;
    while let Some(frame) = pending.pop() {
        path.depth -= 1;
        match frame {
            Frame::SecondDue {
                condition,
                rows: due,
                context,
                quotients,
            } => {
                path.back_to(context, quotients);
                take_rows(rows, due, pending);
                path.enter_opposite(&condition)?;
                pending.push(Frame::FirstMade {
                    condition,
                    first: tree,
                });
                return Ok(Next::Node);
            }
            Frame::FirstMade { condition, first } => {
                tree = Quast::select_within(alloc, condition, first, tree)?
            }
            Frame::NewParm { form, den } => tree = Quast::define_within(alloc, form, den, tree)?,
        }
    }
    Ok(Next::Tree(tree))
}
