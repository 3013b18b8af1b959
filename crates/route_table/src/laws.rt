//! The laws of the table, as functions that do nothing: each contract is one.
ghost use Rattle.route_table.specs.Fits.{NoTwoFit};

/// No two routes fit one method and path.
pub fn no_two_routes_fit()
    ensures { NoTwoFit }
{}
