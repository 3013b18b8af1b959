//! What is kept at a shared desk between any two steps, and what each step tells who makes it.
ghost use Rattle.std.specs.Prelude.{ℕ};
ghost use Rattle.shared_desk.specs.Views.{newcomer, drawn, fewer, fresh, merged, spent};
ghost use Rattle.shared_desk.specs.Rule.{IsKept, looked, raised, HasLearned};

use crate::view::View;
use atomic_table::{Join, Play, Split, TableRule};
use farm_desk::Object;
use history::Machine;
use std::marker::{Brand, PhantomData};
use std::snapshot::Snapshot;

/// What a caller of a desk of this object knows.
pub(crate) type ViewOf<O> = View<O, <<O as Object>::Law as Machine>::Entry>;

/// The two words, the slot and the seats of a desk.
pub(crate) type Hall<O> = atomic_table::Shared<O, ViewOf<O>, Snapshot<O>, Turns>;

/// A caller's place at the table.
pub(crate) type Seat<O> = atomic_table::Seat<O, ViewOf<O>>;

/// Callers take turns with the object, in the order of their tickets.
pub struct Turns;

impl<O: Object> TableRule<O, ViewOf<O>, Snapshot<O>> for Turns {
    ghost holds = { λ key. IsKept O.Law.rules O.Law.start O.state O.holds key.value };

    ghost first = { λ key. newcomer key.value };
}

/// A caller draws a ticket.
pub(crate) struct Draw;

impl<O, E> Play<O, View<O, E>> for Draw {
    ghost then = { drawn };
}

/// A caller looks whether its ticket is served, and takes the object if it is.
pub(crate) struct Look;

impl<O: Object> Play<O, ViewOf<O>> for Look {
    ghost then = { looked O.Law.rules O.Law.start O.state O.holds };
}

/// What was asked, and what was answered.
pub(crate) trait Asked<Q, A> {
    ghost asked: { Q → A → Type 0 };
}

impl<Q, A> Asked<Q, A> for Brand {
    ghost asked = { λ _ _. Unit {0} };
}

/// A caller gives the object back, and raises the number that is served.
pub(crate) struct Raise<M> {
    asked: PhantomData<M>,
}

impl<O: Object, M: Asked<O::Question, O::Answer>> Play<O, ViewOf<O>> for Raise<M> {
    ghost then = { λ step before found after. raised O.Law.rules O.state M.asked before after };
}

/// A caller that took in another one sees the history as it is.
pub(crate) struct Learn;

impl<O: Object> Play<O, ViewOf<O>> for Learn {
    ghost then = { λ step before found after. HasLearned O.Law.rules O.state before after };
}

/// A number of asks.
pub(crate) trait Portion {
    ghost asks: { ℕ };
}

impl Portion for Brand {
    ghost asks = { 0 };
}

/// A caller gives asks away to a new one.
pub(crate) struct Cut<N> {
    portion: PhantomData<N>,
}

impl<O, E, N: Portion> Split<View<O, E>> for Cut<N> {
    ghost left = { λ view. fewer view N.asks };

    ghost right = { λ view. fresh view N.asks };
}

/// A caller takes in another one.
pub(crate) struct Merge;

impl<O, E> Join<View<O, E>> for Merge {
    ghost both = { merged };

    ghost spent = { spent };
}
