//! What a template sees of the firing.
ghost use Rattle.std.specs.Prelude.{◌≡◌, IfOk, codes};
ghost use Rattle.farm_text.specs.Doc.{document};
ghost use Rattle.farm_text.specs.Document.{no_members, put, text as plain_text};
ghost use Rattle.farm_text.specs.Entries.{held};
ghost use Rattle.hook_fire.specs.Contexts.{IsContext};

use farm_text::{Doc, Entries, Moment, SlugId, Text};
use std::alloc::{AllocError, Global};

/// The names that a template may use: `firedBy`, `now`, `payload` and `taskId`.
pub(crate) fn context(
    alloc: Global,
    payload: &Doc,
    moment: Moment,
    drawn: SlugId,
) -> Result<Doc, AllocError>
    ensures { IfOk result (λ d. IsContext (document payload.now) moment drawn (document d)) }
{
    let fired_by = Doc::text(alloc, "triggerHook")?;
    let now = moment.to_text(alloc)?;
    let sent = payload.clone()?;
    let id = drawn.to_text(alloc)?;
    let names = names_of(alloc, fired_by, now, sent, id)?;
    Ok(names.into_doc())
}

fn names_of(
    alloc: Global,
    fired_by: Doc,
    now: Text,
    sent: Doc,
    id: Text,
) -> Result<Entries, AllocError>
    ensures { IfOk result (λ e. held e
        ≡ put (codes "taskId") (plain_text id) (put (codes "payload") (document sent)
        (put (codes "now") (plain_text now) (put (codes "firedBy") (document fired_by) no_members)))) }
{
    Entries::new(alloc)
        .with(alloc, "firedBy", fired_by)?
        .with(alloc, "now", Doc::Text(now))?
        .with(alloc, "payload", sent)?
        .with(alloc, "taskId", Doc::Text(id))
}
