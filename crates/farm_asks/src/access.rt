//! What a caller may do.
ghost use Rattle.std.specs.Prelude.{◌≡◌, IfOk};
ghost use Rattle.std.specs.Option.{option_copied};
ghost use Rattle.farm_asks.specs.declared.question.Caller.{Caller};
ghost use Rattle.farm_asks.specs.Access.{HasAccess};
ghost use Rattle.farm_asks.specs.Told.{told};

use crate::answers;
use crate::config::Config;
use crate::grants::Closure;
use crate::question::{Caller, Credentials};
use crate::reply::Answer;
use farm_text::Moment;
use hawk_auth::AuthHead;
use scope_sets::ScopeSet;
use std::alloc::{AllocError, Global};

/// What a caller may do.
#[derive(Drop)]
pub enum Access<'a> {
    /// It has these scopes, which are borrowed of what is kept.
    Keeps(&'a ScopeSet),
    /// It has these scopes, which were made for this call.
    Makes(ScopeSet),
    /// It is refused with this answer.
    Refused(Answer),
}

/// What this caller may do at this moment.
pub fn access_of<'a>(
    alloc: Global,
    config: &'a Config,
    caller: &Caller,
    moment: Moment,
) -> Result<Access<'a>, AllocError>
    ensures { IfOk result (λ access. HasAccess config.now moment caller.now (told access)) }
{
    match caller {
        Caller::Anonymous => anonymous_access(alloc, config, moment),
        Caller::Signed(credentials) => signed_access(alloc, config, credentials, moment),
    }
}

/// What whoever gives no credentials may do.
fn anonymous_access<'a>(
    alloc: Global,
    config: &'a Config,
    _moment: Moment,
) -> Result<Access<'a>, AllocError>
    ensures { IfOk result (λ access. HasAccess config.now _moment Caller.Anonymous (told access)) }
{
    match config.roles.anonymous() {
        Closure::Whole(scopes) => Ok(Access::Keeps(scopes)),
        Closure::TooMany => Ok(Access::Refused(answers::expansion_limit(alloc)?)),
    }
}

/// What whoever gives these credentials may do.
fn signed_access<'a>(
    alloc: Global,
    config: &'a Config,
    credentials: &Credentials,
    moment: Moment,
) -> Result<Access<'a>, AllocError>
    ensures { IfOk result (λ access. HasAccess config.now moment (Caller.Signed credentials.now) (told access)) }
{
    // Its milliseconds bound the seconds that a refusal tells.
    let _millis = moment.millis();
    let head = AuthHead {
        header: Some(credentials.header.as_slice()),
        count: credentials.count as usize,
        method: credentials.method.as_slice(),
        target: credentials.target.as_slice(),
        content_type: content_type_of(credentials),
        body: credentials.body.as_slice(),
        host: config.host.as_str(),
        port: config.port,
    };
    match config
        .clients
        .check(alloc, config.roles.roles(), &head, moment)
    {
        Ok(scopes) => Ok(Access::Makes(scopes)),
        Err(fault) => Ok(Access::Refused(answers::refused_caller(alloc, &fault)?)),
    }
}

/// The value of the Content-Type field, if there is one.
fn content_type_of(credentials: &Credentials) -> Option<&[u8]>
    ensures { option_copied result ≡ credentials.now.content_type }
{
    match &credentials.content_type {
        Some(value) => Some(value.as_slice()),
        None => None,
    }
}
