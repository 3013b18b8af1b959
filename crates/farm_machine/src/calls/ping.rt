ghost use Rattle.std.specs.Prelude.{None, ◌≡◌, IfOk};

use crate::case::{Called, Done, Scene};
use call_rules::ping_scopes;
use farm_asks::reply::Answer;
use farm_text::{Doc, Entries};
use scope_sets::Expr;
use std::alloc::{AllocError, Global};

/// Whether the farm is there.
#[derive(Clone, Copy)]
pub(crate) struct Ping {}

impl Called for Ping {
    ghost use Rattle.farm_machine.specs.Calls.Ping.{ping};

    ghost case = { λ _. ping };

    fn parameter(&self, _alloc: Global, _at: &Scene<'_>) -> Result<Option<Answer>, AllocError> {
        Ok(None)
    }

    fn absent(&self, _alloc: Global, _at: &Scene<'_>) -> Result<Option<Answer>, AllocError> {
        Ok(None)
    }

    fn policy(&self, alloc: Global, _at: &Scene<'_>) -> Result<Expr, AllocError> {
        Ok(ping_scopes(alloc))
    }

    fn rule(&self, _alloc: Global, _at: &Scene<'_>) -> Result<Option<Answer>, AllocError> {
        Ok(None)
    }

    fn deed(self, alloc: Global, _at: &Scene<'_>) -> Result<Done, AllocError> {
        let body = Entries::new(alloc)
            .with(alloc, "alive", Doc::Bool(true))?
            .into_doc();
        let text = body.write(alloc);
        drop(body);
        Ok(Done::Reads(text?))
    }
}
