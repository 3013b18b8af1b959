//! What a caller knows of a shared desk. No values of these types are made: they stand in proofs alone.
use std::collections::LinkedList;

/// Where a caller is in an ask.
pub enum Stage<E> {
    /// It asks nothing.
    Idle,
    /// It took in another caller's asks, and what that one had seen is this history.
    Merged(LinkedList<E>),
    /// It has drawn this ticket.
    Waiting(u64),
    /// It has the object, with this ticket.
    Holding(u64),
}

/// What a caller knows.
pub struct View<O, E> {
    /// The object that the desk began with. The view of a caller that was taken in has none.
    pub first: Option<O>,
    /// The history that it has seen.
    pub seen: LinkedList<E>,
    /// The places of its own calls, in the order of asking.
    pub mine: LinkedList<u64>,
    /// How many asks it may still make.
    pub left: u64,
    pub stage: Stage<E>,
}
