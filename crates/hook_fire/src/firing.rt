//! What a hook makes when it is fired.
ghost use Rattle.std.specs.Prelude.{ℕ, MatchResult};
ghost use Rattle.farm_text.specs.Doc.{document};
ghost use Rattle.jsone_render.specs.Outcomes.{given};
ghost use Rattle.hook_fire.specs.Firing.{ComesTo, Makes, IsRefused, IsFired};

use crate::context::context;
use crate::defaults::with_defaults;
use crate::fault::FireFault;
use farm_text::{Doc, Moment, SlugId};
use hook_book::Hook;
use jsone_render::{RenderFault, render};
use std::alloc::Global;
use task_defs::{DefError, read_task};
use task_types::TaskDef;

/// The definition of the task of the drawn id that the hook makes when it is fired at this moment with this payload: its template rendered,
/// with its defaults, read as a definition. Else the first fault of the template, that it costs too much, or the least rule that the definition breaks.
pub fn fire(
    alloc: Global,
    hook: &Hook,
    payload: &Doc,
    moment: Moment,
    drawn: SlugId,
) -> Result<TaskDef, FireFault>
    ensures { IsFired (document hook.now.template) (document payload.now) moment drawn result }
{
    let whole = match made(alloc, &hook.template, payload, moment, drawn) {
        Ok(whole) => whole,
        Err(fault) => return Err(fault),
    };
    match read_task(alloc, &whole, drawn) {
        Ok(def) => Ok(def),
        Err(DefError::Fault(fault)) => Err(FireFault::Definition(fault)),
        Err(DefError::NoMemory) => Err(FireFault::NoMemory),
    }
}

/// The document that is read as the definition: the rendered template with its defaults.
fn made(
    alloc: Global,
    template: &Doc,
    payload: &Doc,
    moment: Moment,
    drawn: SlugId,
) -> Result<Doc, FireFault>
    ensures { MatchResult result
        (λ d. Makes (document template.now) (document payload.now) moment drawn (document d))
        (IsRefused (document template.now) (document payload.now) moment drawn) }
{
    let rendered = match rendered(alloc, template, payload, moment, drawn) {
        Ok(rendered) => rendered,
        Err(fault) => return Err(fault),
    };
    match with_defaults(alloc, rendered, moment) {
        Ok(whole) => Ok(whole),
        Err(_) => Err(FireFault::NoMemory),
    }
}

/// The value of the template in the context of the firing.
fn rendered(
    alloc: Global,
    template: &Doc,
    payload: &Doc,
    moment: Moment,
    drawn: SlugId,
) -> Result<Doc, FireFault>
    ensures { MatchResult result
        (λ d. (cost : ℕ) × ComesTo (document template.now) (document payload.now) moment drawn (given (document d) cost))
        (IsRefused (document template.now) (document payload.now) moment drawn) }
{
    let context = match context(alloc, payload, moment, drawn) {
        Ok(context) => context,
        Err(_) => return Err(FireFault::NoMemory),
    };
    match render(alloc, template, &context) {
        Ok(value) => Ok(value),
        Err(RenderFault::Fault(fault)) => Err(FireFault::Template(fault)),
        Err(RenderFault::TooMuchWork) => Err(FireFault::TooMuchWork),
        Err(RenderFault::NoMemory) => Err(FireFault::NoMemory),
    }
}
