//! What follows from the definitions. The functions do nothing: each contract is a law.
ghost use Rattle.std.specs.Thread.{IsSend};
ghost use Rattle.hook_book.specs.contracts.book.HookBook.{the_row};

use crate::book::HookBook;

/// A book of hooks may go to another thread.
pub fn hooks_cross_threads()
    ensures sent { IsSend the_row }
{
    sends::<HookBook>();
}

fn sends<T: Send>()
    ensures { IsSend T.row }
{}
