//! Paths that have no route, and their names.
ghost use Rattle.std.specs.Prelude.{◌≡◌, IfOk};
ghost use Rattle.api_routes.specs.Names as names;

use farm_asks::question::Call;
use farm_text::Text;
use scope_sets::scopes::is_printable;
use std::alloc::{AllocError, Global};

/// The call of a path that has no route.
pub(crate) fn no_route(alloc: Global, path: &[u8]) -> Result<Call, AllocError>
    ensures { IfOk result (λ c. c ≡ Call.NoRoute (names.route_name path.now)) }
{
    Ok(Call::NoRoute(Text::from_str(alloc, route_name(path))?))
}

/// The path where it is printable ASCII, else `-`.
fn route_name(path: &[u8]) -> &str
    ensures { result.now ≡ names.route_name path.now }
{
    match str::from_utf8(path) {
        Ok(name) if is_printable(path) => name,
        _ => "-",
    }
}
