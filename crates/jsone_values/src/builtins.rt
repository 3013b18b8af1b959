//! Functions of the language that take one value.
ghost use Rattle.std.specs.Prelude.{◌≡◌, ℤ, pos, IfOk, Ok, Err};
ghost use Rattle.farm_text.specs.Doc.{document};
ghost use Rattle.jsone_values.specs.declared.faults.Fault.{Fault};
ghost use Rattle.jsone_values.specs.Builtins.{kind_of, text_of, IsLengthOf};
ghost use Rattle.jsone_values.specs.Numbers.{IsInRange};

use crate::faults::{Fault, Stop};
use crate::texts::count_of;
use farm_text::{Doc, Text};
use std::alloc::Global;

/// The name of the value's kind.
pub fn kind_of(value: &Doc) -> &'static str
    ensures { result.now ≡ kind_of (document value.now) }
{
    match value {
        Doc::Null => "null",
        Doc::Bool(_) => "boolean",
        Doc::Int(_) => "number",
        Doc::Text(_) => "string",
        Doc::List(_) => "array",
        Doc::Map(_) => "object",
    }
}

/// The text of a number, a truth value, null or a text.
pub fn text_of(alloc: Global, value: &Doc) -> Result<Text, Stop>
    ensures text { IfOk result (λ text. text_of (document value.now) ≡ Ok text) }
    ensures fault { (fault : Fault) → result ≡ Err (Stop.Fault fault) → text_of (document value.now) ≡ Err fault }
{
    match value {
        Doc::List(_) | Doc::Map(_) => Err(Stop::Fault(Fault::WrongKind)),
        Doc::Text(text) => match text.clone() {
            Ok(text) => Ok(text),
            Err(_) => Err(Stop::NoMemory),
        },
        _ => match value.write(alloc) {
            Ok(text) => Ok(text),
            Err(_) => Err(Stop::NoMemory),
        },
    }
}

fn counted(count: usize) -> Result<i64, Fault>
    ensures { IsInRange (pos count) result }
{
    if count <= 0x7fff_ffff_ffff_ffff {
        Ok(count as i64)
    } else {
        Err(Fault::OutOfRange)
    }
}

/// The characters of a text, or the members of a list.
pub fn length_of(value: &Doc) -> Result<i64, Fault>
    ensures { IsLengthOf (document value.now) result }
{
    match value {
        Doc::Text(text) => counted(count_of(text.as_str())),
        Doc::List(items) => counted(items.len()),
        _ => Err(Fault::WrongKind),
    }
}
