//! Which call a message makes, and who sends it.
ghost use Rattle.std.specs.Prelude.{◌≡◌, IfOk};
ghost use Rattle.api_routes.specs.Routes as routes;

use crate::calls::route_call;
use crate::names::no_route;
use crate::queries::cut;
use farm_asks::question::{Call, Caller, Credentials};
use http_wire::Message;
use route_table::{Found, Table};
use std::alloc::{AllocError, Global};

/// The call of a message, by the route that its method and its target have, and its body where the call has one.
pub fn call_of(alloc: Global, table: &Table, message: &Message) -> Result<Call, AllocError>
    ensures { IfOk result (routes.IsCallOf message.now) }
{
    let (path, query) = cut(message.target.as_slice(), b'?');
    match table.route(alloc, message.method.as_slice(), path)? {
        Some(Found { route, parameters }) => {
            let body = message.body.as_slice();
            route_call(alloc, route, parameters.as_slice(), query, body)
        }
        None => no_route(alloc, path),
    }
}

/// Who sends a message: whoever has no Authorization field gives no credentials. It takes no memory.
pub fn caller_of(message: Message) -> Caller
    ensures { result ≡ routes.caller_from message }
{
    let Message {
        method,
        target,
        authorization,
        authorizations,
        content_type,
        body,
        closes: _,
    } = message;
    match authorization {
        Some(header) => Caller::Signed(Credentials {
            header,
            count: authorizations,
            method,
            target,
            content_type,
            body,
        }),
        None => Caller::Anonymous,
    }
}
