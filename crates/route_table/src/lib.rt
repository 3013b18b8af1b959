//! The routes of the API: which of them a method and a path have.
//!
//! `specs/Routes.antt` is the table, a line a route. Paths are found by `matchit`, and the method is tested after.
#![tactic(auto)]

mod laws;
mod parameters;
mod path;
mod route;
mod table;

pub use laws::no_two_routes_fit;
pub use path::PathForm;
pub use route::Route;
pub use table::{Found, Table};
