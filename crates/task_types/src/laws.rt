//! What follows from the definitions. The functions do nothing: each contract is a law.
ghost use Rattle.std.specs.Thread.{IsSend, IsSync};
ghost use Rattle.task_types.specs.contracts.task_def.TaskDef.{the_row};

use crate::objects::{Object, Tags};

/// A definition may go to another thread, and be read by several.
pub fn definitions_cross_threads()
    ensures sent { IsSend the_row }
    ensures shared { IsSync the_row }
{
    sends::<Object>();
    shares::<Object>();
    sends::<Tags>();
    shares::<Tags>();
}

fn sends<T: Send>()
    ensures { IsSend T.row }
{}

fn shares<T: Sync>()
    ensures { IsSync T.row }
{}
