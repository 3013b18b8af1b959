//! What a door in memory keeps.
ghost use Rattle.std.specs.Prelude.{◌≡◌, ◌+◌, ◌≤◌, [], length, vec_capacity};

use causes::FaultCount;
use http_wire::MemoryLink;
use std::alloc::{AllocError, Global};
use std::snapshot::Snapshot;

/// A link that a door took back, with the number of its messages that were asked.
#[derive(Drop)]
pub struct Returned {
    pub link: MemoryLink,
    pub asked: u64,
}

/// Links that are to come at a door, and room for what it tells of them.
#[derive(Drop)]
pub(crate) struct Coming {
    pub(crate) links: Vec<MemoryLink>,
    pub(crate) given: Vec<Snapshot<MemoryLink>>,
    pub(crate) returned: Vec<Returned>,
    ghost fresh: { (given.items ≡ []) × (returned.items ≡ []) },
    ghost room: { (length links.items ≤ vec_capacity given) × (length links.items ≤ vec_capacity returned) },
}

/// A door in memory, at which chosen links come. Chosen accepts fail, and so does one that finds no link.
///
/// It tells its links as it gave them and as it took them back, and keeps the latter. It takes room for that as it is made.
#[derive(Drop)]
pub struct MemoryListener {
    pub(crate) alloc: Global,
    pub(crate) coming: Vec<MemoryLink>,
    pub(crate) twins: Vec<Coming>,
    pub(crate) failing: Vec<u64>,
    pub(crate) calls: u64,
    pub(crate) faults: FaultCount,
    pub(crate) out: u64,
    pub(crate) given: Vec<Snapshot<MemoryLink>>,
    pub(crate) returned: Vec<Returned>,
    ghost back: { length returned.items + out ≡ length given.items },
    ghost gives: { length given.items + length coming.items ≤ vec_capacity given },
    ghost takes: { length given.items + length coming.items ≤ vec_capacity returned },
}

impl Coming {
    /// These links, the last of them first.
    pub(crate) fn new(alloc: Global, links: Vec<MemoryLink>) -> Result<Coming, AllocError> {
        let count = links.len();
        let given = Vec::with_capacity(alloc, count)?;
        let returned = Vec::with_capacity(alloc, count)?;
        Ok(Coming {
            links,
            given,
            returned,
        })
    }

    /// No links. It takes no memory.
    pub(crate) fn none(alloc: Global) -> Coming {
        Coming {
            links: Vec::new(alloc),
            given: Vec::new(alloc),
            returned: Vec::new(alloc),
        }
    }
}
