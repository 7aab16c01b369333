ghost use Rattle.std.specs.Prelude.{◌+◌, ◌≤◌, length};
ghost use Rattle.pip_model.specs.Run.{class};
ghost use Rattle.pip_model.specs.ToolAgreement.{AgreesWalked};
ghost use Rattle.pip_model.specs.Walks.{by_run};
ghost use Rattle.sign_split.specs.Classes.{class_of};
ghost use Rattle.quast_walk.specs.Faults.{tool_fault};

use affine_forms::Form;
use context::{Context, Work};
use quast_walk::ToolRefusal;
use sign_split::Class;
use std::alloc::Global;

/// The class of a node's form on a walk.
pub fn sign(
    alloc: Global,
    form: &Form,
    context: &mut Context,
    work: &mut Work,
) -> Result<Class, ToolRefusal>
    requires { length form.now ≤ context.old.width + 1 }
    ensures { AgreesWalked class_of tool_fault result work.new
        (by_run (class context.old.forms context.old.width form.now) work.old) }
{
    quast_walk::sign(alloc, form, context, work)
}
