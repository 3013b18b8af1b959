//! Laws of records. The functions do nothing: their contracts are the laws.
ghost use Rattle.std.specs.Prelude.{◌≡◌, ◌≤◌, ℕ, List, [], ◌++◌, length};
ghost use Rattle.farm_record.specs.Records.{IsRecord};
ghost use Rattle.task_types.specs.declared.change.Change.{Change};

use farm_text::a_text_is_of_one_document;
use task_defs::{equal_full_forms_are_of_equal_definitions, the_full_form_is_one};

/// A record is of one change.
pub fn a_record_is_of_one_change()
    ensures { (a b : Change) (bytes : List ℕ) → IsRecord a bytes → IsRecord b bytes → a ≡ b }
{
    a_text_is_of_one_document();
    equal_full_forms_are_of_equal_definitions();
}

/// A change has one record.
pub fn a_change_has_one_record()
    ensures { (change : Change) (a b : List ℕ) → IsRecord change a → IsRecord change b → a ≡ b }
{
    the_full_form_is_one();
}

/// No record begins another one.
pub fn no_record_begins_another()
    ensures { (a b : Change) (bytes more : List ℕ) → IsRecord a bytes → IsRecord b (bytes ++ more) → more ≡ [] }
{
    a_text_is_of_one_document();
    equal_full_forms_are_of_equal_definitions();
}

/// A record has at most 16,777,216 bytes, so that a journal takes it.
pub fn records_are_short()
    ensures { (change : Change) (bytes : List ℕ) → IsRecord change bytes → length bytes ≤ 16777216 }
{}
