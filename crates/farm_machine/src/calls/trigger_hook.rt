ghost use Rattle.std.specs.Prelude.{◌≡◌, IfOk, option_map};
ghost use Rattle.farm_asks.specs.declared.question.Call.{Call};
ghost use Rattle.farm_machine.specs.Deeds.{IsReady};
ghost use Rattle.farm_machine.specs.Refused.{setting_at, IsJudged};
ghost use Rattle.farm_machine.specs.Verdict.{form_of};
ghost use Rattle.farm_machine.specs.Written.{AreWritten};

use crate::calls::create_task::CreateTask;
use crate::case::{Called, Done, Scene};
use crate::firing::{Firing, firing_of};
use crate::judged::Judged;
use crate::order::{finish, refusal};
use crate::tables::Tables;
use call_rules::trigger_scope;
use farm_asks::answers;
use farm_asks::config::Config;
use farm_asks::question::{Caller, Trigger};
use farm_asks::reply::Answer;
use farm_text::{Doc, Moment, SlugId};
use scope_sets::Expr;
use std::alloc::{AllocError, Global};

/// A hook is fired: what refuses that up to its policy. What comes of it is judged by `judge_trigger`.
#[derive(Drop)]
pub(crate) struct TriggerHook {
    pub(crate) trigger: Trigger,
}

impl Called for TriggerHook {
    ghost use Rattle.farm_machine.specs.Calls.TriggerHook.{trigger_hook};

    ghost case = { λ call. trigger_hook call.trigger };

    fn parameter(&self, _alloc: Global, _at: &Scene<'_>) -> Result<Option<Answer>, AllocError> {
        Ok(None)
    }

    fn absent(&self, alloc: Global, at: &Scene<'_>) -> Result<Option<Answer>, AllocError> {
        let name = &self.trigger.hook;
        let found = at.config.hooks.find(name.group.as_str(), name.id.as_str());
        if found.is_some() {
            return Ok(None);
        }
        Ok(Some(answers::no_hook(alloc, name)?))
    }

    fn policy(&self, alloc: Global, _at: &Scene<'_>) -> Result<Expr, AllocError> {
        trigger_scope(alloc, &self.trigger.hook)
    }

    fn rule(&self, _alloc: Global, _at: &Scene<'_>) -> Result<Option<Answer>, AllocError> {
        Ok(None)
    }

    fn deed(self, alloc: Global, _at: &Scene<'_>) -> Result<Done, AllocError> {
        drop(self);
        let body = Doc::Null;
        let text = body.write(alloc);
        drop(body);
        Ok(Done::Reads(text?))
    }
}

/// Judges a triggerHook: where nothing refuses it up to its policy, its hook is fired, and what comes of that is judged as a createTask
/// under the drawn id. The tables stay as they were.
pub(crate) fn judge_trigger(
    alloc: Global,
    caller: &Caller,
    trigger: Trigger,
    config: &Config,
    tables: &mut Tables,
    moment: Moment,
    drawn: SlugId,
) -> Result<Judged, AllocError>
    requires { IsReady (setting_at config.now tables.old moment drawn) }
    ensures judged { IfOk result (IsJudged (setting_at config.now tables.old moment drawn) caller.now (form_of (Call.TriggerHook trigger))) }
    ensures written { IfOk result (λ judged. AreWritten judged.change (option_map (λ r. r.items) judged.written)) }
    ensures same { tables.new ≡ tables.old }
{
    let at = Scene {
        config,
        tables: &*tables,
        moment,
        drawn,
    };
    let call = TriggerHook { trigger };
    let refused = match refusal(alloc, caller, &call, &at) {
        Ok(refused) => refused,
        Err(error) => {
            drop(call);
            return Err(error);
        }
    };
    if let Some(answer) = refused {
        drop(call);
        return Ok(Judged::only(answer));
    }
    let firing = match firing_of(alloc, &call.trigger, &at) {
        Ok(firing) => firing,
        Err(error) => {
            drop(call);
            return Err(error);
        }
    };
    drop(call);
    match firing {
        Firing::Refuses(answer) => Ok(Judged::only(answer)),
        Firing::Makes(creation) => {
            finish(
                alloc,
                CreateTask { creation },
                config,
                tables,
                moment,
                drawn,
            )
        }
    }
}
