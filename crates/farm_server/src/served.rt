ghost use Rattle.std.specs.Prelude.{◌≡◌};
ghost use Rattle.farm_server.specs.declared.served.TheConstants.{REQUESTS};

use http_wire::Wire;

/// How many requests one connection serves. The reply to the last one closes it.
pub const REQUESTS: u64 = 1_000;

/// A connection serves a thousand requests: what the contracts say of `REQUESTS`, they say of that number.
pub fn a_connection_serves_a_thousand()
    ensures { REQUESTS ≡ 1000 }
{}

/// Why a connection ended.
#[derive(Clone, Copy, Debug, PartialEq, Eq)]
pub enum Served {
    /// The input ended where a request would begin, or a request asked to close.
    Closed,
    /// The input ended inside a request. Nothing is written for it.
    EndedInside,
    /// What came is no request, or one that is not read; the reply to it was written.
    WireFault(Wire),
    /// A read failed.
    ReadFault,
    /// A write failed. A front of the replies was written.
    WriteFault,
    /// The connection's last request was served.
    Full,
    /// Memory ran out. Nothing is written for that request.
    NoMemory,
}
