//! Texts of a template, in which `${e}` is the value of an expression.
ghost use Rattle.std.specs.Prelude.{◌≡◌, ◌+◌, ◌++◌, ◌∷◌, [], ℕ, List, length, IfOk, MatchOption, MatchResult, string_bytes, Ok};
ghost use Rattle.farm_text.specs.Document.{Document};
ghost use Rattle.farm_text.specs.Doc.{document};
ghost use Rattle.jsone_eval.specs.Scopes.{scopes_of};
ghost use Rattle.jsone_render.specs.Answers.{Answers, Kept, found_in, StandsIn, EndsAt, IsStop};
ghost use Rattle.jsone_render.specs.Texts.{ends_with_dollar, NoneEnds, shown, Valued, Interpolated, Written, TextRenders};

use crate::ends::only_end;
use crate::faults::RenderFault;
use crate::paths::here;
use crate::readings::{Reading, Readings};
use crate::renderer::Renderer;
use farm_text::{Doc, Text};
use jsone_values::builtins::text_of;
use jsone_values::faults::{Fault, Stop};
use std::alloc::{AllocError, Global};
use std::rc::Rc;

/// The expression that ends before the first `}` before which one can end.
fn expression_in(
    alloc: Global,
    readings: &mut Readings,
    behind: &[u8],
) -> Result<Option<Rc<Reading>>, AllocError>
    ensures { IfOk result (λ found. MatchOption found (NoneEnds behind.now) (λ reading. StandsIn behind.now reading.value)) }
{
    if let Some(reading) = readings.begun(behind)? {
        return Ok(Some(reading));
    }
    let Some(end) = only_end(behind) else {
        return Ok(None);
    };
    let reading = readings.reading(alloc, &behind[..end])?;
    if reading.has_tree() {
        Ok(Some(reading))
    } else {
        Ok(None)
    }
}

/// The same, and what stands behind its `}`.
fn cut_expression<'a>(
    alloc: Global,
    readings: &mut Readings,
    behind: &'a str,
) -> Result<Option<(Rc<Reading>, &'a str)>, AllocError>
    ensures { IfOk result (EndsAt behind.now) }
{
    match expression_in(alloc, readings, behind.as_bytes())? {
        Some(reading) => {
            let end = reading.len();
            Ok(Some((reading, &behind[end + 1..])))
        }
        None => Ok(None),
    }
}

fn ends_with_dollar(text: &[u8]) -> bool
    ensures { result ≡ ends_with_dollar text.now }
{
    match text {
        [] => false,
        [.., last] => *last == b'$',
    }
}

/// The text that a value gives.
fn shown(alloc: Global, value: &Doc) -> Result<Text, Stop>
    ensures { MatchResult result (λ t. shown (document value.now) ≡ Ok t)
        (λ stop. IsStop (shown (document value.now)) stop) }
{
    match value {
        Doc::Null => Ok(Text::from_string(String::new(alloc))),
        _ => text_of(alloc, value),
    }
}

impl<'a> Renderer<'a> {
    /// The text of the value of an expression.
    fn valued(&mut self, alloc: Global, reading: &Reading) -> Result<Text, RenderFault>
        ensures answers { Answers (λ t. t) (Valued reading.now (scopes_of self.old.context) self.old.cost.spent) result self.new.cost.spent }
        ensures scopes { Kept result (scopes_of self.old.context) (scopes_of self.new.context) }
    {
        let value = match self.evaluate_reading(alloc, reading) {
            Ok(value) => value,
            Err(fault) => return Err(fault),
        };
        let made = shown(alloc, &value);
        drop(value);
        match made {
            Ok(text) => Ok(text),
            Err(Stop::Fault(rule)) => Err(here(alloc, rule)),
            Err(Stop::NoMemory) => Err(RenderFault::NoMemory),
        }
    }

    /// The text with the values of its expressions.
    fn interpolate(&mut self, alloc: Global, text: &str) -> Result<String, RenderFault>
        ensures answers { Answers string_bytes (Interpolated text.now (scopes_of self.old.context) self.old.cost.spent) result self.new.cost.spent }
        ensures scopes { Kept result (scopes_of self.old.context) (scopes_of self.new.context) }
    {
        let mut out = String::new(alloc);
        let mut rest = text;
        while let Some((front, behind)) = rest.split_once("${") {
            out.push_str(front)?;
            if ends_with_dollar(front.as_bytes()) {
                out.push_str("{")?;
                rest = behind;
            } else {
                match cut_expression(alloc, &mut self.readings, behind)? {
                    Some((reading, next)) => {
                        let value = match self.valued(alloc, &reading) {
                            Ok(value) => value,
                            Err(fault) => return Err(fault),
                        };
                        out.push_str(value.as_str())?;
                        rest = next;
                    }
                    None => return Err(here(alloc, Fault::Syntax)),
                }
            }
        }
        out.push_str(rest)?;
        Ok(out)
    }

    /// The same, paid for by its bytes.
    pub(crate) fn written(&mut self, alloc: Global, text: &str) -> Result<String, RenderFault>
        ensures answers { Answers string_bytes (Written text.now (scopes_of self.old.context) self.old.cost.spent) result self.new.cost.spent }
        ensures scopes { Kept result (scopes_of self.old.context) (scopes_of self.new.context) }
    {
        let out = match self.interpolate(alloc, text) {
            Ok(out) => out,
            Err(fault) => return Err(fault),
        };
        match self.charge((out.len() as u64).saturating_add(1)) {
            Ok(()) => Ok(out),
            Err(fault) => Err(fault),
        }
    }

    /// A text of the template.
    pub(crate) fn text(&mut self, alloc: Global, text: &str) -> Result<Option<Doc>, RenderFault>
        ensures answers { Answers found_in (TextRenders text.now (scopes_of self.old.context) self.old.cost.spent) result self.new.cost.spent }
        ensures scopes { Kept result (scopes_of self.old.context) (scopes_of self.new.context) }
    {
        let out = match self.written(alloc, text) {
            Ok(out) => out,
            Err(fault) => return Err(fault),
        };
        Ok(Some(Doc::Text(Text::from_string(out))))
    }
}
