//! The moments of a definition.
ghost use Rattle.std.specs.Prelude.{◌≡◌, ℕ, ◌+◌, ◌<◌, ◌≤◌, ◌↔◌, IsTrue, min, None, codes, MatchOption, MatchResult};
ghost use Rattle.farm_text.specs.Document.{get};
ghost use Rattle.farm_text.specs.declared.moment.TheConstants.{LAST_MOMENT};
ghost use Rattle.farm_text.specs.Doc.{document};
ghost use Rattle.task_defs.specs.Faults.{Holds, Breaks};
ghost use Rattle.task_defs.specs.Keys.{KeyBreaks};
ghost use Rattle.task_defs.specs.Rules.{MomentBreaks, DeadlineBreaks, ExpiresBreaks, IsExpires};
ghost use Rattle.task_defs.specs.Parts.{IsOnlyAt, expires_by};

use crate::fault::DefError;
use crate::keys::value;
use crate::values::moment;
use farm_text::{Doc, LAST_TOLD_MOMENT, Moment};
use std::alloc::Global;

/// Five days, in milliseconds: the longest time from the creation of a task to its deadline.
const LONGEST_TASK: u64 = 432_000_000;

/// 365 days, in milliseconds: how long after its deadline a task expires, if nothing is said.
const REMEMBERED: u64 = 31_536_000_000;

/// What the three keys say.
#[derive(Drop)]
pub(crate) struct Times {
    pub(crate) created: Moment,
    pub(crate) deadline: Moment,
    pub(crate) expires: Option<Moment>,
}

/// The moments that the three keys say.
pub(crate) fn read_times(alloc: Global, doc: &Doc) -> Result<Times, DefError>
    requires { Holds (KeyBreaks (document doc.now)) }
    ensures { MatchResult result
        (λ t. Holds (MomentBreaks (document doc.now)) × IsOnlyAt (get (codes "created") (document doc.now)) t.created
        × IsOnlyAt (get (codes "deadline") (document doc.now)) t.deadline
        × MatchOption t.expires (get (codes "expires") (document doc.now) ≡ None) (IsOnlyAt (get (codes "expires") (document doc.now))))
        (Breaks 10 (MomentBreaks (document doc.now))) }
{
    let created = match moment(value(doc, "created")) {
        Some(created) => created,
        None => return Err(DefError::at(alloc, 10, "created")),
    };
    let deadline = match moment(value(doc, "deadline")) {
        Some(deadline) => deadline,
        None => return Err(DefError::at(alloc, 10, "deadline")),
    };
    let expires = match doc.get("expires") {
        None => None,
        Some(expires) => match moment(expires) {
            Some(expires) => Some(expires),
            None => return Err(DefError::at(alloc, 10, "expires")),
        },
    };
    Ok(Times {
        created,
        deadline,
        expires,
    })
}

/// Refuses a deadline that is not after the creation, or too long after it.
pub(crate) fn check_deadline(
    alloc: Global,
    doc: &Doc,
    created: Moment,
    deadline: Moment,
) -> Result<(), DefError>
    requires created { IsOnlyAt (get (codes "created") (document doc.now)) created }
    requires deadline { IsOnlyAt (get (codes "deadline") (document doc.now)) deadline }
    ensures { MatchResult result (λ _. Holds (DeadlineBreaks (document doc.now))) (Breaks 11 (DeadlineBreaks (document doc.now))) }
{
    if is_within(created.millis(), deadline.millis()) {
        Ok(())
    } else {
        Err(DefError::at(alloc, 11, "deadline"))
    }
}

/// When the task expires, as is said, or by default.
pub(crate) fn expires(
    alloc: Global,
    doc: &Doc,
    deadline: Moment,
    said: Option<Moment>,
) -> Result<Moment, DefError>
    requires deadline { IsOnlyAt (get (codes "deadline") (document doc.now)) deadline }
    requires said { MatchOption said (get (codes "expires") (document doc.now) ≡ None) (IsOnlyAt (get (codes "expires") (document doc.now))) }
    ensures { MatchResult result
        (λ e. Holds (ExpiresBreaks (document doc.now)) × IsExpires (document doc.now) deadline e × ((n : ℕ) → IsExpires (document doc.now) deadline n → e ≡ n))
        (Breaks 12 (ExpiresBreaks (document doc.now))) }
{
    let expires = said_or_default(deadline, said);
    if deadline.millis() < expires.millis() {
        Ok(expires)
    } else {
        Err(DefError::at(alloc, 12, "expires"))
    }
}

fn said_or_default(deadline: Moment, said: Option<Moment>) -> Moment
    ensures { result ≡ expires_by deadline said }
{
    match said {
        Some(said) => said,
        None => forgotten(deadline),
    }
}

/// 365 days after a deadline, or the last moment that a text gives.
fn forgotten(deadline: Moment) -> Moment
    ensures { result ≡ min (deadline + 31_536_000_000) 253_370_764_799_999 }
{
    match Moment::from_millis((deadline.millis() + REMEMBERED).min(LAST_TOLD_MOMENT)) {
        Some(moment) => moment,
        None => unreachable!(),
    }
}

/// Whether a deadline comes after the creation, by at most five days.
fn is_within(created: u64, deadline: u64) -> bool
    requires { created ≤ LAST_MOMENT }
    ensures { IsTrue result ↔ ((created < deadline) × (deadline ≤ created + 432_000_000)) }
{
    created < deadline && deadline <= created + LONGEST_TASK
}
