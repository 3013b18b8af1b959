//! The rules that one key alone can break.
ghost use Rattle.std.specs.Prelude.{◌≡◌, MatchResult, codes};
ghost use Rattle.std.specs.List.{filter_map};
ghost use Rattle.farm_text.specs.Slug.{slug_of};
ghost use Rattle.farm_text.specs.Document.{get};
ghost use Rattle.farm_text.specs.Doc.{document};
ghost use Rattle.task_defs.specs.Values.{texts_in, slug_or, requires_in, priority_in, retries_in};
ghost use Rattle.task_defs.specs.Faults.{Holds, Breaks};
ghost use Rattle.task_defs.specs.Rules.{GroupBreaks, DependenciesBreak, RequiresBreaks, RoutesBreak, PriorityBreaks, RetriesBreak, ScopesBreak};

use crate::fault::DefError;
use crate::{texts, values};
use farm_text::{Doc, SlugId};
use std::alloc::Global;
use task_types::{Dependencies, Priority, Requires, Routes, Scopes};

/// The task's group, the task itself if nothing is said.
pub(crate) fn group(alloc: Global, doc: &Doc, id: SlugId) -> Result<SlugId, DefError>
    ensures { MatchResult result
        (λ s. Holds (GroupBreaks (document doc.now)) × (s ≡ slug_or id (get (codes "taskGroupId") (document doc.now))))
        (Breaks 4 (GroupBreaks (document doc.now))) }
{
    match values::slug(doc.get("taskGroupId"), id) {
        Some(group) => Ok(group),
        None => Err(DefError::at(alloc, 4, "taskGroupId")),
    }
}

/// The tasks that it waits for.
pub(crate) fn dependencies(alloc: Global, doc: &Doc) -> Result<Dependencies, DefError>
    ensures { MatchResult result
        (λ ids. Holds (DependenciesBreak (document doc.now)) × (ids ≡ filter_map slug_of (texts_in (get (codes "dependencies") (document doc.now)))))
        (Breaks 5 (DependenciesBreak (document doc.now))) }
{
    match texts::dependencies(alloc, doc.get("dependencies"))? {
        Some(ids) => Ok(ids),
        None => Err(DefError::at(alloc, 5, "dependencies")),
    }
}

/// What is asked of them.
pub(crate) fn asked(alloc: Global, doc: &Doc) -> Result<Requires, DefError>
    ensures { MatchResult result
        (λ r. Holds (RequiresBreaks (document doc.now)) × (r ≡ requires_in (get (codes "requires") (document doc.now))))
        (Breaks 6 (RequiresBreaks (document doc.now))) }
{
    match values::asked(doc.get("requires")) {
        Some(asked) => Ok(asked),
        None => Err(DefError::at(alloc, 6, "requires")),
    }
}

/// The routes.
pub(crate) fn routes(alloc: Global, doc: &Doc) -> Result<Routes, DefError>
    ensures { MatchResult result
        (λ r. Holds (RoutesBreak (document doc.now)) × (r ≡ texts_in (get (codes "routes") (document doc.now))))
        (Breaks 7 (RoutesBreak (document doc.now))) }
{
    match texts::routes(alloc, doc.get("routes"))? {
        Some(routes) => Ok(routes),
        None => Err(DefError::at(alloc, 7, "routes")),
    }
}

/// The priority.
pub(crate) fn priority(alloc: Global, doc: &Doc) -> Result<Priority, DefError>
    ensures { MatchResult result
        (λ p. Holds (PriorityBreaks (document doc.now)) × (p ≡ priority_in (get (codes "priority") (document doc.now))))
        (Breaks 8 (PriorityBreaks (document doc.now))) }
{
    match values::priority(doc.get("priority")) {
        Some(priority) => Ok(priority),
        None => Err(DefError::at(alloc, 8, "priority")),
    }
}

/// The number of retries.
pub(crate) fn retries(alloc: Global, doc: &Doc) -> Result<u8, DefError>
    ensures { MatchResult result
        (λ n. Holds (RetriesBreak (document doc.now)) × (n ≡ retries_in (get (codes "retries") (document doc.now))))
        (Breaks 9 (RetriesBreak (document doc.now))) }
{
    match values::retries(doc.get("retries")) {
        Some(retries) => Ok(retries),
        None => Err(DefError::at(alloc, 9, "retries")),
    }
}

/// The scopes.
pub(crate) fn scopes(alloc: Global, doc: &Doc) -> Result<Scopes, DefError>
    ensures { MatchResult result
        (λ s. Holds (ScopesBreak (document doc.now)) × (s ≡ texts_in (get (codes "scopes") (document doc.now))))
        (Breaks 13 (ScopesBreak (document doc.now))) }
{
    match texts::scopes(alloc, doc.get("scopes"))? {
        Some(scopes) => Ok(scopes),
        None => Err(DefError::at(alloc, 13, "scopes")),
    }
}
