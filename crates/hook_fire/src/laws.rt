//! What follows from the definitions. The functions do nothing: each contract is a law.
ghost use Rattle.std.specs.Prelude.{◌≡◌, ◌≢◌, ◌<◌, ◌≤◌, ◌⊎◌, ℕ, List, Result, Err};
ghost use Rattle.farm_text.specs.Moment.{IsMomentText};
ghost use Rattle.task_defs.specs.Values.{IsMoment};
ghost use Rattle.farm_text.specs.Document.{Document};
ghost use Rattle.task_defs.specs.Definitions.{Says, rules};
ghost use Rattle.task_defs.specs.Faults.{IsFault};
ghost use Rattle.task_defs.specs.declared.fault.DefFault.{DefFault};
ghost use Rattle.task_types.specs.declared.task_def.TaskDef.{TaskDef};
ghost use Rattle.hook_fire.specs.Firing.{IsFired};
ghost use Rattle.hook_fire.specs.declared.fault.FireFault.{FireFault};
ghost use Rattle.hook_fire.specs.declared.fault.FireFault.TheVariants.{NoMemory};

use farm_text::{a_text_has_one_moment, moment_texts_are_one};
use jsone_render::laws::the_rendering_is_one;
use task_defs::the_fault_is_one;

/// A firing has one answer, unless memory runs out.
pub fn the_firing_is_one()
    ensures { (template payload : Document) (moment : ℕ) (id : List ℕ) (a b : Result TaskDef FireFault)
        → a ≢ Err NoMemory → b ≢ Err NoMemory
        → IsFired template payload moment id a → IsFired template payload moment id b → a ≡ b }
{
    the_rendering_is_one();
    moment_texts_are_one();
    a_text_has_one_moment();
    the_fault_is_one();
}

/// The text of a moment past the last one that is read is read as none, and so breaks the rule of moments.
pub fn late_moments_are_not_read()
    ensures { (moment : ℕ) (text : List ℕ) → 253_370_764_799_999 < moment → IsMomentText moment text → ¬ IsMoment text }
{}

/// No document is without a definition that it says or a fault that it has, for whichever task.
pub fn each_document_says_or_breaks()
    ensures { (d : Document) (id : List ℕ) → ¬ ¬ (((def : TaskDef) × Says d id def) ⊎ ((f : DefFault) × IsFault (rules d id) f)) }
{}

/// No firing up to the end of the year 9999 is without an answer, where memory is ample.
pub fn each_firing_has_an_answer()
    ensures { (template payload : Document) (moment : ℕ) (id : List ℕ) → moment ≤ 253_402_300_799_999
        → ¬ ¬ ((r : Result TaskDef FireFault) × IsFired template payload moment id r × (r ≢ Err NoMemory)) }
{}
