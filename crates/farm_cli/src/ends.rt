//! How a run ends by how its connection did.
ghost use Rattle.std.specs.Prelude.{◌≡◌};
ghost use Rattle.farm_cli.specs.Ends.{status_of};

use console_commands::{Ended, Status};
use farm_server::Served;
use http_wire::Wire;
use std::alloc::Global;

/// So a connection ended.
pub(crate) fn after_serving(alloc: Global, served: Served) -> Ended
    ensures { result.status ≡ status_of served }
{
    match served {
        Served::Closed | Served::Full => Ended::plain(Status::Done),
        Served::EndedInside => Ended::told(alloc, Status::Wire, ": it ends inside a request"),
        Served::WireFault(wire) => Ended::told(alloc, Status::Wire, wire_words(wire)),
        Served::ReadFault => Ended::on_console(alloc, Status::Read),
        Served::WriteFault => Ended::on_console(alloc, Status::Write),
        Served::NoMemory => Ended::plain(Status::NoMemory),
    }
}

/// Why what came is not served.
fn wire_words(wire: Wire) -> &'static str {
    match wire {
        Wire::HeadTooLarge => ": a request's head has more than 16384 bytes",
        Wire::NoLength => ": a request has a Transfer-Encoding, where a Content-Length is needed",
        Wire::BodyTooLarge => ": a request's body has more than 1048576 bytes",
        Wire::EndedInside => ": it ends inside a request",
        Wire::HeadFault | Wire::End | Wire::ReadFault | Wire::NoMemory => {
            ": what came is no request"
        }
    }
}
