//! What one call has for the order of refusals, and where it is judged.
ghost use Rattle.std.specs.Prelude.{◌≡◌, ◌+◌, ◌≤◌, None, IfOk};
ghost use Rattle.farm_text.specs.declared.moment.TheConstants.{LAST_TOLD_MOMENT};
ghost use Rattle.farm_asks.specs.Config.{claim_millis};
ghost use Rattle.scope_sets.specs.Expressions.{view};
ghost use Rattle.farm_machine.specs.Case.{Setting, Case, IsFirstRule};
ghost use Rattle.farm_machine.specs.Deeds.{IsDeed, IsReady};

use crate::tables::Tables;
use farm_asks::config::Config;
use farm_asks::reply::Answer;
use farm_text::{Moment, SlugId, Text};
use scope_sets::Expr;
use std::alloc::{AllocError, Global};
use std::marker::Model;
use task_types::Kind;

/// How many seconds a claim lasts at most, whatever a configuration says: a day.
const LONGEST_CLAIM: u32 = 86_400;

/// Where a call is judged: the farm, the call's moment, and the id that was drawn for it.
#[derive(Drop)]
pub(crate) struct Scene<'a> {
    pub(crate) config: &'a Config,
    pub(crate) tables: &'a Tables,
    pub(crate) moment: Moment,
    pub(crate) drawn: SlugId,
}

impl<'a> Model for Scene<'a> {
    ghost use Rattle.std.specs.Coded.{codes};
    ghost use Rattle.task_types.specs.Codes.{members_code};
    ghost use Rattle.hook_book.specs.Codes.{document_code};
    ghost use Rattle.farm_machine.specs.Case.{Setting};
    ghost use Rattle.farm_machine.specs.State.{working};

    ghost Value = { Setting };

    ghost coded = { Prim.hlevel (codes, members_code, document_code) };

    ghost view = { λ s. record { state = working s.config.now s.tables.now; moment = s.moment; drawn = s.drawn } };
}

impl<'a> Scene<'a> {
    /// Until when a run is a worker's that takes or keeps it now: for a second at least, and a day at most.
    pub(crate) fn taken_until(&self) -> Moment
        requires { self.now.moment ≤ LAST_TOLD_MOMENT }
        ensures { result ≡ self.now.moment + claim_millis self.now.state.config }
    {
        let seconds = self.config.claim_timeout.min(LONGEST_CLAIM).max(1);
        match Moment::from_millis(self.moment.millis() + 1_000 * u64::from(seconds)) {
            Some(moment) => moment,
            None => unreachable!(),
        }
    }
}

/// What a call does where nothing refuses it.
#[derive(Drop)]
pub(crate) enum Done {
    /// It changes nothing, and this is the text of its answer's body.
    Reads(Text),
    /// It makes this change, and answers what becomes of the tasks that it names.
    Changes(Kind),
}

/// A call that asks something: what it has for the order of refusals, part by part. Each part is asked only where those
/// before it did not refuse.
pub(crate) trait Called {
    /// What the call has for the order, where it is judged.
    ghost case: { Self → Setting → Case };

    /// The answer where a parameter names nothing that it may name.
    fn parameter(&self, alloc: Global, at: &Scene<'_>) -> Result<Option<Answer>, AllocError>
        ensures { IfOk result (λ a. a ≡ (case self.now at.now).parameter) };

    /// The answer where what it is of is not there.
    fn absent(&self, alloc: Global, at: &Scene<'_>) -> Result<Option<Answer>, AllocError>
        ensures { IfOk result (λ a. a ≡ (case self.now at.now).absent) };

    /// What the caller's scopes have to hold.
    fn policy(&self, alloc: Global, at: &Scene<'_>) -> Result<Expr, AllocError>
        requires { (case self.now at.now).absent ≡ None }
        ensures { IfOk result (λ e. view e ≡ (case self.now at.now).policy) };

    /// The answer of the first of its own rules that ends it.
    fn rule(&self, alloc: Global, at: &Scene<'_>) -> Result<Option<Answer>, AllocError>
        requires { (case self.now at.now).absent ≡ None }
        ensures { IfOk result (λ a. IsFirstRule (case self.now at.now).rules a) };

    /// What it does.
    fn deed(self, alloc: Global, at: &Scene<'_>) -> Result<Done, AllocError>
        requires named { (case self at.now).parameter ≡ None }
        requires there { (case self at.now).absent ≡ None }
        requires unruled { IsFirstRule (case self at.now).rules None }
        requires ready { IsReady at.now }
        ensures { IfOk result (λ d. IsDeed at.now (case self at.now).deed d) };
}
