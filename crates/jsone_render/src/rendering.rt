//! The whole template.
ghost use Rattle.farm_text.specs.Doc.{document};
ghost use Rattle.jsone_render.specs.Answers.{IsAnswer};
ghost use Rattle.jsone_render.specs.Templates.{IsRendered};

use crate::faults::RenderFault;
use crate::lists::{as_map, or_null};
use crate::names::are_names;
use crate::paths::here;
use crate::readings::Readings;
use crate::renderer::Renderer;
use farm_text::Doc;
use jsone_eval::{Context, Cost};
use jsone_values::faults::Fault;
use std::alloc::Global;

/// The template with the names of the context, which has to be a map of names: its value, or the first fault. What is removed is null.
pub fn render(alloc: Global, template: &Doc, context: &Doc) -> Result<Doc, RenderFault>
    ensures { IsAnswer (IsRendered (document template.now) (document context.now)) result }
{
    let Some(names) = as_map(context) else {
        return Err(here(alloc, Fault::BadContext));
    };
    if !are_names(names) {
        return Err(here(alloc, Fault::BadContext));
    }
    let mut renderer = Renderer {
        context: Context::new(alloc, context),
        cost: Cost::new(),
        readings: Readings::new(alloc),
    };
    match renderer.value(alloc, template) {
        Ok(found) => Ok(or_null(found)),
        Err(fault) => Err(fault),
    }
}
