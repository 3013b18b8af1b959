//! A door in memory, which tells its links.
ghost use Rattle.std.specs.Prelude.{◌≡◌, ◌+◌, ◌-◌, ◌^◌, ◌<◌, [], ◌∷◌, Some, length, vec_capacity, IfOk};
ghost use Rattle.farm_text.specs.Logs.{LogGrows};
ghost use Rattle.listeners.specs.Memory.{memory_state, links_given, links_taken, links_out, accepts_made, accept_faults};

use crate::coming::{Coming, MemoryListener, Returned};
use crate::door::Listener;
use causes::{Failed, FaultCount};
use http_wire::MemoryLink;
use std::alloc::{AllocError, Global};
use std::snapshot::Snapshot;

impl MemoryListener {
    /// A door at which these links come, the last of them first. The accepts whose numbers, from 0 on, are in `failing`
    /// fail. At its twins, of which the last is made first, those of `twins` come.
    ///
    /// # Errors
    ///
    /// Want of memory for what it and its twins tell.
    pub fn new(
        alloc: Global,
        coming: Vec<MemoryLink>,
        failing: Vec<u64>,
        twins: Vec<Vec<MemoryLink>>,
    ) -> Result<MemoryListener, AllocError>
        ensures given { IfOk result (λ door. links_given door ≡ Some []) }
        ensures taken { IfOk result (λ door. links_taken door ≡ Some []) }
        ensures out { IfOk result (λ door. links_out door ≡ 0) }
        ensures accepts { IfOk result (λ door. accepts_made door ≡ 0) }
        ensures faults { IfOk result (λ door. accept_faults door ≡ 0) }
    {
        let mut roomy = Vec::new(alloc);
        for links in twins {
            roomy.push(Coming::new(alloc, links)?)?;
        }
        let coming = Coming::new(alloc, coming)?;
        Ok(MemoryListener::over(alloc, coming, failing, roomy))
    }

    /// A door at which these links come.
    fn over(alloc: Global, coming: Coming, failing: Vec<u64>, twins: Vec<Coming>) -> MemoryListener
        ensures given { result.given.items ≡ [] }
        ensures returned { result.returned.items ≡ [] }
        ensures counts { (result.out ≡ 0) × (result.calls ≡ 0) × (result.faults ≡ 0) }
    {
        let Coming {
            links,
            given,
            returned,
        } = coming;
        MemoryListener {
            alloc,
            coming: links,
            twins,
            failing,
            calls: 0,
            faults: FaultCount::new(),
            out: 0,
            given,
            returned,
        }
    }

    /// The links that were taken back, in order.
    pub fn returned(&self) -> &[Returned]
        ensures { result.now ≡ self.now.returned.items }
    {
        self.returned.as_slice()
    }

    /// Gives a link, which is kept in mind as it is now.
    fn give(&mut self, link: MemoryLink) -> MemoryLink
        requires out { self.old.out < 2 ^ 64 - 1 }
        requires gives { length self.old.given.items + length self.old.coming.items < vec_capacity self.old.given }
        requires takes { length self.old.given.items + length self.old.coming.items < vec_capacity self.old.returned }
        ensures same { result ≡ link }
        ensures given { LogGrows (links_given self.old) (links_given self.new) (memory_state link ∷ []) }
        ensures taken { LogGrows (links_taken self.old) (links_taken self.new) [] }
        ensures out { links_out self.new ≡ links_out self.old + 1 }
        ensures counts { (accepts_made self.new ≡ accepts_made self.old) × (accept_faults self.new ≡ accept_faults self.old) }
    {
        self.out += 1;
        if self.given.push(Snapshot::of(&link)).is_err() {
            unreachable!();
        }
        link
    }
}

impl Listener for MemoryListener {
    type Peer = MemoryLink;

    ghost given = { links_given };

    ghost taken = { links_taken };

    ghost out = { links_out };

    ghost accepts = { accepts_made };

    ghost faults = { accept_faults };

    fn accept(&mut self) -> Result<MemoryLink, Failed> {
        let call = self.calls;
        self.calls = call.saturating_add(1);
        if self.out == u64::MAX || self.failing.contains(&call) {
            self.faults.raise();
            return Err(Failed);
        }
        match self.coming.pop() {
            Some(link) => Ok(self.give(link)),
            None => {
                self.faults.raise();
                Err(Failed)
            }
        }
    }

    fn done(&mut self, peer: MemoryLink, asked: u64) {
        self.out -= 1;
        if self.returned.push(Returned { link: peer, asked }).is_err() {
            unreachable!();
        }
    }

    fn twin(&mut self) -> Result<MemoryListener, Failed> {
        let coming = match self.twins.pop() {
            Some(coming) => coming,
            None => Coming::none(self.alloc),
        };
        Ok(MemoryListener::over(
            self.alloc,
            coming,
            Vec::new(self.alloc),
            Vec::new(self.alloc),
        ))
    }
}
