//! The definition of a task that is made, as a text.
ghost use Rattle.std.specs.Prelude.{◌≡◌, ◌↔◌, IsTrue};
ghost use Rattle.farm_text.specs.Slug.{IsUuid4};
ghost use Rattle.farm_record.specs.Records.{IsDefinitionText};
ghost use Rattle.farm_record.specs.Reading.{Reads};

use crate::unread::Unread;
use farm_text::{Doc, ReadFault, SlugId, a_text_is_of_one_document};
use std::alloc::{AllocError, Global};
use task_defs::{
    DefError, a_full_form_says_its_definition, full_text_of, read_task, the_fault_is_one,
    the_full_form_is_one,
};
use task_types::TaskDef;

/// The definition whose text this is, for the task of this id.
pub(crate) fn definition(alloc: Global, id: SlugId, text: &[u8]) -> Result<TaskDef, Unread>
    requires { IsUuid4 id }
    ensures { Reads (λ def. IsDefinitionText (record { id = id; definition = def }) text.now) result }
{
    a_text_is_of_one_document();
    a_full_form_says_its_definition();
    the_fault_is_one();
    the_full_form_is_one();
    let doc = match Doc::read(alloc, text) {
        Ok(doc) => doc,
        Err(ReadFault::NoMemory) => return Err(Unread::NoMemory),
        Err(ReadFault::NotJson) => return Err(Unread::NotARecord),
        Err(ReadFault::NotWhole(_)) => return Err(Unread::NotARecord),
    };
    let def = match read_task(alloc, &doc, id) {
        Ok(def) => def,
        Err(DefError::NoMemory) => {
            drop(doc);
            return Err(Unread::NoMemory);
        }
        Err(DefError::Fault(_)) => {
            drop(doc);
            return Err(Unread::NotARecord);
        }
    };
    drop(doc);
    match full_text_of(alloc, &def) {
        Ok(full) => {
            if is_same(full.as_bytes(), text) {
                Ok(def)
            } else {
                drop(def);
                Err(Unread::NotARecord)
            }
        }
        Err(AllocError) => {
            drop(def);
            Err(Unread::NoMemory)
        }
    }
}

/// Whether two texts are the same.
fn is_same(a: &[u8], b: &[u8]) -> bool
    ensures { IsTrue result ↔ (a.now ≡ b.now) }
{
    a == b
}
