//! The status codes of HTTP that a farm answers.

use std::marker::Model;

/// A status code of HTTP that a farm answers (RFC 9110, section 15; 507: RFC 4918, section 11.5). A contract sees its number.
#[derive(Clone, Copy)]
pub struct StatusCode {
    code: u16,
}

impl Model for StatusCode {
    ghost use Rattle.std.specs.Prelude.{ℕ};

    ghost Value = { ℕ };

    ghost view = { λ s. s.code };

    ghost inverse = { λ n. record { code = n } };
}

impl StatusCode {
    ghost use Rattle.std.specs.Prelude.{◌≡◌};

    pub const OK: StatusCode = StatusCode { code: 200 };

    pub const BAD_REQUEST: StatusCode = StatusCode { code: 400 };

    pub const UNAUTHORIZED: StatusCode = StatusCode { code: 401 };

    pub const FORBIDDEN: StatusCode = StatusCode { code: 403 };

    pub const NOT_FOUND: StatusCode = StatusCode { code: 404 };

    pub const CONFLICT: StatusCode = StatusCode { code: 409 };

    pub const INTERNAL_SERVER_ERROR: StatusCode = StatusCode { code: 500 };

    pub const SERVICE_UNAVAILABLE: StatusCode = StatusCode { code: 503 };

    pub const INSUFFICIENT_STORAGE: StatusCode = StatusCode { code: 507 };

    /// Its number.
    pub fn as_u16(&self) -> u16
        ensures { result ≡ self.now }
    {
        self.code
    }
}
