//! Task definitions: what a task is to do, and for whom, read from a document or refused by the first rule that it breaks, and written.
#![tactic(auto)]

mod documents;
mod fault;
mod full_length;
mod full_text;
mod keys;
mod labels;
mod laws;
mod lengths;
mod queue;
mod reading;
mod stages;
mod texts;
mod times;
mod values;

pub use fault::{DefError, DefFault};
pub use full_text::{full_text_of, write_full_text};
pub use laws::{
    a_full_form_says_its_definition, equal_full_forms_are_of_equal_definitions, the_fault_is_one,
    the_full_form_is_one, the_longest_definition,
};
pub use queue::queue_from_name;
pub use reading::{LONGEST_DEFINITION, read_task};
