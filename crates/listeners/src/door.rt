//! What links come from.
ghost use Rattle.std.specs.Prelude.{◌≡◌, ℕ, ◌+◌, ◌<◌, List, [], ◌∷◌, Option, MatchResult, IfOk};
ghost use Rattle.causes.specs.Causes.{HasCause};
ghost use Rattle.farm_text.specs.Logs.{LogGrows};
ghost use Rattle.http_wire.specs.Calls.{LinkState, state_of};
ghost use Rattle.listeners.specs.Doors.{IsMore, IsNewDoor};

use causes::Failed;
use http_wire::Link;

/// A door, at which peers come. It gives the link of each, and takes it back when it was served.
pub trait Listener: Sized {
    type Peer: Link;

    // Each link as it was when it was given, in order, where the door tells its links.
    ghost given: { Self → Option (List LinkState) };

    // Each link as it was when it was taken back, with the number of its messages that were asked, in order, where the door tells.
    ghost taken: { Self → Option (List (LinkState × ℕ)) };

    // How many links are out: they were given, and not yet taken back.
    ghost out: { Self → ℕ };

    // How many accepts were made.
    ghost accepts: { Self → ℕ };

    // How many of them have failed.
    ghost faults: { Self → ℕ };

    /// Waits for the next peer, and gives its link.
    fn accept(&mut self) -> Result<Self::Peer, Failed>
        ensures given { MatchResult result
            (λ peer. LogGrows (given self.old) (given self.new) (state_of Self.Peer.Link peer ∷ []))
            (λ failed. LogGrows (given self.old) (given self.new) []) }
        ensures taken { LogGrows (taken self.old) (taken self.new) [] }
        ensures out { MatchResult result (λ peer. out self.new ≡ out self.old + 1) (λ failed. out self.new ≡ out self.old) }
        ensures accepts { IsMore 1 (accepts self.old) (accepts self.new) }
        ensures cause { HasCause (faults self.old) (faults self.new) result };

    /// Takes back a link that was served, of which this many messages were asked.
    fn done(&mut self, peer: Self::Peer, asked: u64)
        requires out { 0 < out self.old }
        ensures given { LogGrows (given self.old) (given self.new) [] }
        ensures taken { LogGrows (taken self.old) (taken self.new) ((state_of Self.Peer.Link peer, asked) ∷ []) }
        ensures out { out self.new + 1 ≡ out self.old }
        ensures accepts { accepts self.new ≡ accepts self.old }
        ensures faults { faults self.new ≡ faults self.old };

    /// Another door at which the same peers come, with logs and counts of its own. A failure is counted among those of accepts.
    fn twin(&mut self) -> Result<Self, Failed>
        ensures new { IfOk result (λ twin. IsNewDoor (given self.old) (given twin) (taken self.old) (taken twin) (out twin) (accepts twin) (faults twin)) }
        ensures given { LogGrows (given self.old) (given self.new) [] }
        ensures taken { LogGrows (taken self.old) (taken self.new) [] }
        ensures out { out self.new ≡ out self.old }
        ensures accepts { accepts self.new ≡ accepts self.old }
        ensures cause { HasCause (faults self.old) (faults self.new) result };
}
