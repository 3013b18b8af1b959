//! Which run is claimed next, and what falls due first: rows by their numbers, from 0.
//!
//! `Pending` keeps the rows that wait for a worker, `Leases` those that a worker has, and `Deadlines` those with a deadline to come. Each
//! takes its memory in `reserve` alone. They are array heaps that know the place of each row, `Pending` one for each queue, which it finds by
//! its name in an ordered map: the best and the first stand at the top, and to add, move or remove a row takes few steps, which `Steps`
//! counts without cost. `Firsts` gives the rows of a queue in their order and takes none out: what it costs grows with the rows that it
//! gives, and not with those that wait.
#![tactic(auto)]

mod behind;
mod due_rows;
mod entries;
mod firsts;
mod heap;
mod heap_edits;
mod laws;
mod names;
mod pending;
mod queues;
mod room;
mod steps;
mod turns;

pub use due_rows::{Deadlines, DueRows, Leases};
pub use entries::rank;
pub use firsts::Firsts;
pub use laws::{the_best_is_one, the_first_due_is_one};
pub use pending::Pending;
pub use steps::Steps;
