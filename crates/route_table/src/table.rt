//! The table, over a router of `matchit`.
ghost use Rattle.std.specs.String.{string_bytes};
ghost use Rattle.std.specs.Prelude.{◌≡◌, ◌+◌, false, true, map, MatchOption, IfOk, OnOk};
ghost use Rattle.matchit.specs.Seek.{first};
ghost use Rattle.matchit.specs.declared.error.InsertError.TheVariants.{OutOfMemory};
ghost use Rattle.route_table.specs.Contents.{Holds, number_of};
ghost use Rattle.route_table.specs.Fits.{IsRouteOf};
ghost use Rattle.route_table.specs.Routes.{segments_of};
ghost use Rattle.route_table.specs.Segments.{parameters_in, parts_of};
ghost use Rattle.route_table.specs.Tokens.{takes, tokens_of, masked, masked_byte};

use crate::parameters::parameters;
use crate::path::PathForm;
use crate::route::{Route, route_of};
use matchit::{InsertError, Router};
use std::alloc::{AllocError, Global};
use std::marker::Model;

/// The routes of the API, made once.
#[derive(Drop)]
pub struct Table {
    router: Router<PathForm>,
}

impl Model for Table {
    ghost use Rattle.route_table.specs.Contents.{Holds};

    ghost Value = { Unit {0} };

    ghost view = { λ t. tt };

    ghost invariant = { λ t. Holds 17 t.router };
}

/// The route of a method and a path, and the parts of the path that stand for its parameters, as they are written there.
#[derive(Drop)]
pub struct Found<'a> {
    pub route: Route,
    pub parameters: Vec<&'a [u8]>,
}

impl Table {
    /// The table. It fails for want of memory alone.
    pub fn new(alloc: Global) -> Result<Table, AllocError> {
        let mut router = Router::new(alloc);
        insert_queue(&mut router)?;
        insert_runs(&mut router)?;
        Ok(Table { router })
    }

    /// The route of a method and a path (the target before its query), with its parameters, or none.
    pub fn route<'a>(
        &self,
        alloc: Global,
        method: &[u8],
        path: &'a [u8],
    ) -> Result<Option<Found<'a>>, AllocError>
        ensures { IfOk result (IsRouteOf method.now path.now) }
    {
        let Some(form) = self.form_of(alloc, path)? else {
            return Ok(None);
        };
        let Some(route) = route_of(form, method) else {
            return Ok(None);
        };
        let parameters = parameters(alloc, form.text(), path)?;
        Ok(Some(Found { route, parameters }))
    }

    /// The form of a path, if it has one.
    fn form_of(&self, alloc: Global, path: &[u8]) -> Result<Option<PathForm>, AllocError>
        ensures { IfOk result (λ found. MatchOption found
            ((form : PathForm) → takes false (tokens_of (segments_of form)) path.now ≡ false)
            (λ form. takes false (tokens_of (segments_of form)) path.now ≡ true)) }
    {
        match str::from_utf8(path) {
            Ok(text) => Ok(self.find(text)),
            Err(_) => Ok(self.find(masked(alloc, path)?.as_str())),
        }
    }

    /// The form of a path that is text, if it has one.
    fn find(&self, path: &str) -> Option<PathForm>
        ensures { MatchOption result
            ((form : PathForm) → takes false (tokens_of (segments_of form)) path.now ≡ false)
            (λ form. takes false (tokens_of (segments_of form)) path.now ≡ true) }
    {
        match self.router.at(path) {
            Ok(found) => Some(*found.value),
            Err(_) => None,
        }
    }
}

/// Adds the paths of ping, of tasks and of claims.
fn insert_queue(router: &mut Router<PathForm>) -> Result<(), AllocError>
    requires { Holds 0 router.old }
    ensures { OnOk result (Holds 8 router.new) }
{
    insert(router, PathForm::Ping)?;
    insert(router, PathForm::Task)?;
    insert(router, PathForm::Status)?;
    insert(router, PathForm::Schedule)?;
    insert(router, PathForm::Rerun)?;
    insert(router, PathForm::Cancel)?;
    insert(router, PathForm::Claim)?;
    insert(router, PathForm::ClaimInTwo)
}

/// Adds the paths of runs, lists, pending counts and hooks.
fn insert_runs(router: &mut Router<PathForm>) -> Result<(), AllocError>
    requires { Holds 8 router.old }
    ensures { OnOk result (Holds 17 router.new) }
{
    insert(router, PathForm::Reclaim)?;
    insert(router, PathForm::Completed)?;
    insert(router, PathForm::Failed)?;
    insert(router, PathForm::Exception)?;
    insert(router, PathForm::Group)?;
    insert(router, PathForm::Dependents)?;
    insert(router, PathForm::Pending)?;
    insert(router, PathForm::PendingInTwo)?;
    insert(router, PathForm::Trigger)
}

/// Adds the next path.
fn insert(router: &mut Router<PathForm>, form: PathForm) -> Result<(), AllocError>
    requires { Holds (number_of form) router.old }
    ensures { OnOk result (Holds (number_of form + 1) router.new) }
{
    match router.insert(form.text(), form) {
        Ok(()) => Ok(()),
        Err(error) => Err(no_memory(error)),
    }
}

/// Want of memory, which is all that may refuse a path of the table: no two of them conflict.
fn no_memory(error: InsertError) -> AllocError
    requires { error ≡ OutOfMemory }
{
    match error {
        InsertError::OutOfMemory => AllocError,
        _ => unreachable!(),
    }
}

/// The path with a question mark for each byte that is no ASCII. No word of a route has either.
fn masked(alloc: Global, path: &[u8]) -> Result<String, AllocError>
    ensures { IfOk result (λ text. string_bytes text ≡ masked path.now) }
{
    let mut text = String::new(alloc);
    for b in path {
        text.push(char::from(ascii(*b)))?;
    }
    Ok(text)
}

/// The byte where it is ASCII, else a question mark.
fn ascii(b: u8) -> u8
    ensures { result ≡ masked_byte b }
{
    if b.is_ascii() { b } else { b'?' }
}
