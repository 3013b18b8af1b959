//! The law of a machine, histories of what was done to it, and what asks leave in them.
//!
//! A machine is a labelled transition system: its entries are ticks and calls, and each may come in some states and leads from
//! there to another. A history is the list of what came, the oldest first. What a desk, a connection and a whole server did
//! is said over such histories. The functions here do nothing: their contracts are the laws of these definitions.
#![tactic(auto)]

ghost use Rattle.std.specs.Prelude.{◌≡◌, ℕ, ◌+◌, ◌<◌, ◌↔◌, List, ◌++◌, length, Some, IsSome, AllPairs, Contains};
ghost use Rattle.history.specs.Rules.{Rules};
ghost use Rattle.history.specs.Histories.{end_state, IsLegal, reply_at, asked_at, calls_of};
ghost use Rattle.history.specs.Asks.{IsAsk, AreEntries, HasOneEntry, LeadsAlone};

/// What calls do to a state. No value of such a type is made: a marker names the law.
pub trait Machine {
    /// What a caller asks.
    type Question;
    /// What the code answers: the reply, and whatever else tells which entries the ask made.
    type Answer;
    /// What the calls change.
    type State;
    /// One step of a history: a call, or a tick before it.
    type Entry;
    /// What a caller is told.
    type Reply;
    /// A state to begin from, and what else is told of it.
    type Opening;

    /// When an entry may come, what it does and what it replies.
    ghost rules: { Rules Self.Question Self.Answer Self.State Self.Entry Self.Reply };

    /// The state that an opening begins from.
    ghost start: { Self.Opening → Self.State };
}

/// A law: a history goes on by another that is legal from where it ends, and what was asked and replied in it stays.
pub fn histories_go_on<M: Machine>()
    ensures legal { (state : M.State) (first next : List M.Entry)
        → IsLegal M.rules state (first ++ next) ↔ (IsLegal M.rules state first × IsLegal M.rules (end_state M.rules state first) next) }
    ensures ends { (state : M.State) (first next : List M.Entry)
        → end_state M.rules state (first ++ next) ≡ end_state M.rules (end_state M.rules state first) next }
    ensures calls { (place : ℕ) (first next : List M.Entry)
        → calls_of M.rules place (first ++ next) ≡ calls_of M.rules place first ++ calls_of M.rules (place + length first) next }
    ensures asked { (first next : List M.Entry) (place : ℕ) (question : M.Question)
        → asked_at M.rules first place ≡ Some question → asked_at M.rules (first ++ next) place ≡ Some question }
    ensures replied { (state : M.State) (first next : List M.Entry) (place : ℕ) (reply : M.Reply)
        → reply_at M.rules state first place ≡ Some reply → reply_at M.rules state (first ++ next) place ≡ Some reply }
{}

/// A law: the places of a history's calls are those at which something was asked, each once and in order.
pub fn calls_have_one_place<M: Machine>()
    ensures exact { (history : List M.Entry) (place : ℕ)
        → Contains (calls_of M.rules 0 history) place ↔ IsSome (asked_at M.rules history place) }
    ensures rising { (history : List M.Entry) → AllPairs (λ earlier later. earlier < later) (calls_of M.rules 0 history) }
{}

/// A law: a history leaves one state and one list of calls. Where a question and a reply have one entry in a state, an ask
/// has one call and leaves one state, and asks that are answered alike have one list of entries.
pub fn asks_have_one_outcome<M: Machine>()
    ensures call { HasOneEntry M.rules → (old : M.State) (question : M.Question) (answer : M.Answer) (call other : M.Entry) (new another : M.State)
        → IsAsk M.rules old question answer call new → IsAsk M.rules old question answer other another → call ≡ other }
    ensures ask { HasOneEntry M.rules → (old : M.State) (question : M.Question) (answer : M.Answer) (call other : M.Entry) (new another : M.State)
        → IsAsk M.rules old question answer call new → IsAsk M.rules old question answer other another → new ≡ another }
    ensures made { HasOneEntry M.rules → (opening : M.State) (asks : List (M.Question × M.Answer)) (made others : List M.Entry)
        → AreEntries M.rules opening asks made → AreEntries M.rules opening asks others → made ≡ others }
    ensures state { (opening : M.State) (history : List M.Entry) (mine others : List ℕ) (state other : M.State)
        → LeadsAlone M.rules opening history mine state → LeadsAlone M.rules opening history others other → state ≡ other }
    ensures places { (opening : M.State) (history : List M.Entry) (mine others : List ℕ) (state other : M.State)
        → LeadsAlone M.rules opening history mine state → LeadsAlone M.rules opening history others other → mine ≡ others }
{}

#[cfg(test)]
mod tests;
