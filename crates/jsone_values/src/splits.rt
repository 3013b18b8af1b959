//! Texts that are cut at separators.
ghost use Rattle.std.specs.Prelude.{◌≡◌, ℕ, ◌<◌, List, length, map, Ok, IfOk};
ghost use Rattle.std.specs.Char.{encode_utf8};
ghost use Rattle.std.specs.Str.{chars};
ghost use Rattle.farm_text.specs.Document.{text as plain, array, items_of};
ghost use Rattle.farm_text.specs.Doc.{document, documents};
ghost use Rattle.jsone_values.specs.Meets.{Meets};
ghost use Rattle.jsone_values.specs.Splits.{IsSplit, IsPieces};

use crate::faults::{Fault, Stop};
use crate::indexes::of_character;
use farm_text::Doc;
use std::alloc::{AllocError, Global};

/// The pieces of a text between the separators.
fn pieces(alloc: Global, text: &str, separator: &str) -> Result<Vec<Doc>, AllocError>
    requires { 0 < length separator.now }
    ensures { IfOk result (λ v. (ps : List (List ℕ)) × IsSplit separator.now text.now ps
        × (documents v.items ≡ map plain ps)) }
{
    let mut pieces = Vec::new(alloc);
    let mut rest = text;
    while let Some((piece, behind)) = rest.split_once(separator) {
        pieces.push(Doc::text(alloc, piece)?)?;
        rest = behind;
    }
    pieces.push(Doc::text(alloc, rest)?)?;
    Ok(pieces)
}

/// The characters of a text, each as a text.
fn characters(alloc: Global, text: &str) -> Result<Vec<Doc>, AllocError>
    ensures { IfOk result (λ v. documents v.items ≡ map (λ c. plain (encode_utf8 c)) (chars text.now)) }
{
    let mut characters = Vec::new(alloc);
    for character in text.chars() {
        characters.push(of_character(alloc, character)?)?;
    }
    Ok(characters)
}

fn cut(alloc: Global, text: &str, separator: &str) -> Result<Vec<Doc>, AllocError>
    ensures { IfOk result (λ v. IsPieces (plain text.now) (plain separator.now)
        (Ok (array (items_of (documents v.items))))) }
{
    if separator.is_empty() {
        characters(alloc, text)
    } else {
        pieces(alloc, text, separator)
    }
}

/// The pieces of a text between the separators; by an empty separator, its characters.
pub fn split_of(alloc: Global, value: &Doc, separator: &Doc) -> Result<Doc, Stop>
    ensures { Meets (IsPieces (document value.now) (document separator.now)) result }
{
    let (Doc::Text(text), Doc::Text(separator)) = (value, separator) else {
        return Err(Stop::Fault(Fault::WrongKind));
    };
    match cut(alloc, text.as_str(), separator.as_str()) {
        Ok(pieces) => Ok(Doc::List(pieces)),
        Err(_) => Err(Stop::NoMemory),
    }
}
