//! What follows from the definitions. The functions do nothing: each contract is a law.
ghost use Rattle.std.specs.Prelude.{◌≡◌, ℕ, List};
ghost use Rattle.farm_text.specs.Slug.{IsUuid4};
ghost use Rattle.farm_text.specs.Document.{Document};
ghost use Rattle.task_defs.specs.Faults.{IsFault};
ghost use Rattle.task_defs.specs.Definitions.{IsFullForm, Says, rules};
ghost use Rattle.task_defs.specs.declared.fault.DefFault.{DefFault};
ghost use Rattle.task_types.specs.declared.task_def.TaskDef.{TaskDef};
ghost use Rattle.task_defs.specs.declared.reading.TheConstants.{LONGEST_DEFINITION};

use farm_text::{a_text_has_one_moment, written_moments_are_read_back};

/// The fault of a document is one, and there is none where it says a definition.
pub fn the_fault_is_one()
    ensures one { (d : Document) (id : List ℕ) (fault other : DefFault)
        → IsFault (rules d id) fault → IsFault (rules d id) other → fault ≡ other }
    ensures none { (d : Document) (id : List ℕ) (def : TaskDef) (fault : DefFault)
        → Says d id def → ¬ IsFault (rules d id) fault }
{}

/// The full form of a definition is one.
pub fn the_full_form_is_one()
    ensures { (def : TaskDef) (full other : Document) → IsFullForm def full → IsFullForm def other → full ≡ other }
{}

/// The longest full form: what the contracts say of the constant, they say of this number.
pub fn the_longest_definition()
    ensures { LONGEST_DEFINITION ≡ 8388608 }
{}

/// The full form of a definition that a document says, says the same definition.
pub fn a_full_form_says_its_definition()
    ensures { (d : Document) (id : List ℕ) (def : TaskDef) (full : Document)
        → IsUuid4 id → Says d id def → IsFullForm def full → Says full id def }
{
    written_moments_are_read_back();
    a_text_has_one_moment();
}

/// Of what documents say, equal full forms come of equal definitions.
pub fn equal_full_forms_are_of_equal_definitions()
    ensures { (d e : Document) (id other : List ℕ) (a b : TaskDef) (full : Document)
        → IsUuid4 id → IsUuid4 other → Says d id a → Says e other b
        → IsFullForm a full → IsFullForm b full → a ≡ b }
{
    written_moments_are_read_back();
    a_text_has_one_moment();
}
