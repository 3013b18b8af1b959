//! What stands at the keys of a definition.
ghost use Rattle.std.specs.Prelude.{◌≡◌, ◌≤◌, ◌↔◌, IsTrue, map, All, length, IsSome, IfOk, MatchOption, codes, ℕ, List};
ghost use Rattle.std.specs.List.{filter_map, IsDistinct};
ghost use Rattle.std.specs.Str.{bytes_eq};
ghost use Rattle.farm_text.specs.Slug.{IsSlug, slug_of};
ghost use Rattle.farm_text.specs.Document.{text as plain_text, array, items_of};
ghost use Rattle.farm_text.specs.Doc.{document};
ghost use Rattle.task_types.specs.Forms.{IsIdentifier, IsProject, IsRoute, queue_name};
ghost use Rattle.task_types.specs.Choices.{priority_of, requires_of};
ghost use Rattle.task_defs.specs.Documents.{seen};
ghost use Rattle.task_defs.specs.Values.{IsTextOf, Ill, Well, IsQueue, IsRetries, IsMoment, text_or, texts_in, slug_or, requires_in, priority_in, retries_in, members_or_none};
ghost use Rattle.task_types.specs.Maps.{AreTags};
ghost use Rattle.task_defs.specs.Parts.{IsOnlyMoment};

use crate::documents::as_text;
use farm_text::{Doc, Moment, SlugId, Text, read_moment};
use std::alloc::{AllocError, Global};
use task_types::{Identifier, Object, Priority, ProjectName, Requires, Tags};

/// The name of a project, `none` if nothing is said, or `None` where the value is no such name.
pub(crate) fn project(alloc: Global, value: Option<&Doc>) -> Result<Option<ProjectName>, AllocError>
    ensures { IfOk result (λ found. MatchOption found (Ill (IsTextOf IsProject) (seen value.entry))
        (λ p. Well (IsTextOf IsProject) (seen value.entry) × (p ≡ text_or (codes "none") (seen value.entry)))) }
{
    match value {
        None => Ok(ProjectName::new(Text::from_str(alloc, "none")?)),
        Some(Doc::Text(text)) => Ok(ProjectName::new(text.clone()?)),
        Some(_) => Ok(None),
    }
}

/// An identifier, `-` if nothing is said, or `None` where the value is none.
pub(crate) fn scheduler(
    alloc: Global,
    value: Option<&Doc>,
) -> Result<Option<Identifier>, AllocError>
    ensures { IfOk result (λ found. MatchOption found (Ill (IsTextOf IsIdentifier) (seen value.entry))
        (λ i. Well (IsTextOf IsIdentifier) (seen value.entry) × (i ≡ text_or (codes "-") (seen value.entry)))) }
{
    match value {
        None => Ok(Identifier::new(Text::from_str(alloc, "-")?)),
        Some(Doc::Text(text)) => Ok(Identifier::new(text.clone()?)),
        Some(_) => Ok(None),
    }
}

/// The id whose slugid the value is, this one if nothing is said, or `None` where the value is no slugid.
pub(crate) fn slug(value: Option<&Doc>, id: SlugId) -> Option<SlugId>
    ensures { MatchOption result (Ill (IsTextOf IsSlug) (seen value.entry))
        (λ s. Well (IsTextOf IsSlug) (seen value.entry) × (s ≡ slug_or id (seen value.entry))) }
{
    match value {
        None => Some(id),
        Some(Doc::Text(text)) => SlugId::read(text.as_bytes()),
        Some(_) => None,
    }
}

/// What is asked of the dependencies, or `None` where the value is no such word.
pub(crate) fn asked(value: Option<&Doc>) -> Option<Requires>
    ensures { MatchOption result (Ill (IsTextOf (λ t. IsSome (requires_of t))) (seen value.entry))
        (λ r. Well (IsTextOf (λ t. IsSome (requires_of t))) (seen value.entry) × (r ≡ requires_in (seen value.entry))) }
{
    match value {
        None => Some(Requires::AllCompleted),
        Some(Doc::Text(text)) => Requires::from_name(text.as_str()),
        Some(_) => None,
    }
}

/// The priority, or `None` where the value is no name of one.
pub(crate) fn priority(value: Option<&Doc>) -> Option<Priority>
    ensures { MatchOption result (Ill (IsTextOf (λ t. IsSome (priority_of t))) (seen value.entry))
        (λ p. Well (IsTextOf (λ t. IsSome (priority_of t))) (seen value.entry) × (p ≡ priority_in (seen value.entry))) }
{
    match value {
        None => Some(Priority::Lowest),
        Some(Doc::Text(text)) => Priority::from_name(text.as_str()),
        Some(_) => None,
    }
}

/// The number of retries, or `None` where the value is out of range.
pub(crate) fn retries(value: Option<&Doc>) -> Option<u8>
    ensures { MatchOption result (Ill IsRetries (seen value.entry)) (λ n. Well IsRetries (seen value.entry) × (n ≡ retries_in (seen value.entry))) }
{
    match value {
        None => Some(5),
        Some(Doc::Int(n)) if 0 <= *n && *n <= 49 => Some(*n as u8),
        Some(_) => None,
    }
}

/// The moment whose text the value is, or `None` where it is none.
pub(crate) fn moment(value: &Doc) -> Option<Moment>
    ensures { MatchOption result (¬ IsTextOf IsMoment (document value.now)) (IsOnlyMoment (document value.now)) }
{
    match as_text(value) {
        Some(text) => read_moment(text.as_bytes()),
        None => None,
    }
}

/// The map that stands there, without members if nothing is said, or `None` where the value is no map.
pub(crate) fn object(alloc: Global, value: Option<&Doc>) -> Result<Object, AllocError>
    ensures { IfOk result (λ o. o ≡ members_or_none (seen value.entry)) }
{
    let found = match value {
        Some(value) => Object::from_doc(value.clone()?),
        None => None,
    };
    Ok(found.unwrap_or(Object::empty(alloc)))
}

/// The tags, none if nothing is said, or `None` where the value is no map of texts.
pub(crate) fn tags(alloc: Global, value: Option<&Doc>) -> Result<Option<Tags>, AllocError>
    ensures { IfOk result (λ found. MatchOption found (Ill AreTags (seen value.entry)) (λ t. Well AreTags (seen value.entry) × (t ≡ members_or_none (seen value.entry)))) }
{
    match value {
        None => Ok(Some(Tags::empty(alloc))),
        Some(value) => Ok(Tags::from_doc(value.clone()?)),
    }
}
