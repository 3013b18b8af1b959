ghost use Rattle.std.specs.Prelude.{◌≡◌};
ghost use Rattle.farm_serving.specs.Numbers.{of_nothing, of_refusal, of_connection, FitTogether, both};

use farm_server::Served;

/// What workers did, in numbers.
#[derive(Clone, Copy, Debug, PartialEq, Eq)]
pub struct Ended {
    /// The messages that were asked.
    pub served: u64,
    /// The accepts that failed.
    pub accept_faults: u64,
    /// The connections that a failed read ended.
    pub read_faults: u64,
    /// The connections that a failed write ended.
    pub write_faults: u64,
    /// The connections that ended by what is no request, or inside one.
    pub wire_faults: u64,
    /// The connections that ended for want of memory.
    pub no_memory: u64,
}

impl Ended {
    /// Nothing was done.
    pub fn nothing() -> Ended
        ensures { result ≡ of_nothing }
    {
        Ended {
            served: 0,
            accept_faults: 0,
            read_faults: 0,
            write_faults: 0,
            wire_faults: 0,
            no_memory: 0,
        }
    }

    /// One accept failed.
    pub(crate) fn refused() -> Ended
        ensures { result ≡ of_refusal }
    {
        Ended {
            accept_faults: 1,
            ..Ended::nothing()
        }
    }

    /// One connection ended so, of which this many messages were asked.
    pub(crate) fn connection(asked: u64, served: Served) -> Ended
        ensures { result ≡ of_connection asked served }
    {
        let mut ended = Ended {
            served: asked,
            ..Ended::nothing()
        };
        match served {
            Served::ReadFault => ended.read_faults = 1,
            Served::WriteFault => ended.write_faults = 1,
            Served::WireFault(_) | Served::EndedInside => ended.wire_faults = 1,
            Served::NoMemory => ended.no_memory = 1,
            Served::Closed | Served::Full => {}
        }
        ended
    }

    /// The numbers of both, added up.
    pub(crate) fn plus(self, other: Ended) -> Ended
        requires { FitTogether self other }
        ensures { result ≡ both self other }
    {
        Ended {
            served: self.served + other.served,
            accept_faults: self.accept_faults + other.accept_faults,
            read_faults: self.read_faults + other.read_faults,
            write_faults: self.write_faults + other.write_faults,
            wire_faults: self.wire_faults + other.wire_faults,
            no_memory: self.no_memory + other.no_memory,
        }
    }
}
