//! The workers of a run: the first has what the house lent, and the others have twins and forks of that.
ghost use Rattle.std.specs.Prelude.{◌≡◌, ◌+◌, ◌<◌, ◌≤◌, vec_capacity, All, IfOk, IfErr, OnOk, map, [], length};
ghost use Rattle.causes.specs.Causes.{Rose};
ghost use Rattle.farm_crews.specs.Crew.{station_by, status_of_lack, IsStill, IsBeside, AreCrew, IsWholeCrew, IsKeptCrew, IsDoorFailed};
ghost use Rattle.farm_crews.specs.declared.crew.Lack.TheVariants.{Door, Memory};

use causes::Failed;
use console_commands::Status;
use farm_server::NoGate;
use farm_serving::Worker;
use farm_text::{Clock, Draws};
use listeners::Listener;

/// Why not every worker stands ready.
#[derive(Clone, Copy, Debug, PartialEq, Eq)]
pub(crate) enum Lack {
    /// No twin of the door could be made.
    Door,
    /// Memory ran out.
    Memory,
}

impl Lack {
    /// The status that it calls for.
    pub fn status(self) -> Status
        ensures { result ≡ status_of_lack self }
    {
        match self {
            Lack::Door => Status::Door,
            Lack::Memory => Status::NoMemory,
        }
    }
}

/// A worker of a run, whose gate does nothing.
pub type Hand<D, C, I> = Worker<D, C, I, NoGate>;

/// Another worker beside the first.
fn beside<D: Listener, C: Clock + Drop, I: Draws + Drop>(
    first: &mut Hand<D, C, I>,
) -> Result<Hand<D, C, I>, Lack>
    ensures still { IsStill (station_by D.Listener C.Clock I.Draws first.old) (station_by D.Listener C.Clock I.Draws first.new) }
    ensures made { IfOk result (λ other. IsBeside (station_by D.Listener C.Clock I.Draws first.new) (station_by D.Listener C.Clock I.Draws other)) }
    ensures kept { OnOk result (D.faults first.new.door ≡ D.faults first.old.door) }
    ensures cause { IfErr result (λ lack. lack ≡ Door → Rose (D.faults first.old.door) (D.faults first.new.door)) }
    ensures spared { IfErr result (λ lack. lack ≡ Memory → D.faults first.new.door ≡ D.faults first.old.door) }
{
    let Ok(clock) = first.clock.fork() else {
        return Err(Lack::Memory);
    };
    let Ok(draws) = first.draws.fork() else {
        return Err(Lack::Memory);
    };
    match first.door.twin() {
        Ok(door) => Ok(Worker {
            door,
            clock,
            draws,
            gate: NoGate,
        }),
        Err(Failed) => Err(Lack::Door),
    }
}

/// As many workers more, beside the first, as are asked for, in this row.
fn add_others<D: Listener, C: Clock + Drop, I: Draws + Drop>(
    first: &mut Hand<D, C, I>,
    others: &mut Vec<Hand<D, C, I>>,
    count: usize,
) -> Result<(), Lack>
    requires none { others.old.items ≡ [] }
    requires room { count ≤ vec_capacity others.old }
    ensures still { IsStill (station_by D.Listener C.Clock I.Draws first.old) (station_by D.Listener C.Clock I.Draws first.new) }
    ensures beside { All (IsBeside (station_by D.Listener C.Clock I.Draws first.new)) (map (station_by D.Listener C.Clock I.Draws) others.new.items) }
    ensures capacity { vec_capacity others.new ≡ vec_capacity others.old }
    ensures most { length others.new.items ≤ count }
    ensures all { OnOk result ((length others.new.items ≡ count) × (D.faults first.new.door ≡ D.faults first.old.door)) }
    ensures cause { IfErr result (λ lack. lack ≡ Door → Rose (D.faults first.old.door) (D.faults first.new.door)) }
    ensures spared { IfErr result (λ lack. lack ≡ Memory → D.faults first.new.door ≡ D.faults first.old.door) }
{
    'twins: for _made in 0..count {
        match beside(first) {
            Ok(other) => others.push_reserved(other),
            Err(lack) => return Err(lack),
        }
    }
    Ok(())
}

/// Gathers so many workers in a row that has room for them, of which the first is this one; or fewer, and says what was lacking.
pub(crate) fn gather<D: Listener, C: Clock + Drop, I: Draws + Drop>(
    first: Hand<D, C, I>,
    row: &mut Vec<Hand<D, C, I>>,
    count: usize,
) -> Result<(), Lack>
    requires none { row.old.items ≡ [] }
    requires some { 0 < count }
    requires room { count ≤ vec_capacity row.old }
    ensures some { 0 < length row.new.items }
    ensures crew { AreCrew (station_by D.Listener C.Clock I.Draws first) (map (station_by D.Listener C.Clock I.Draws) row.new.items) }
    ensures whole { OnOk result (IsWholeCrew count (station_by D.Listener C.Clock I.Draws first) (map (station_by D.Listener C.Clock I.Draws) row.new.items)) }
    ensures cause { IfErr result (λ lack. lack ≡ Door → IsDoorFailed (station_by D.Listener C.Clock I.Draws first) (map (station_by D.Listener C.Clock I.Draws) row.new.items)) }
    ensures spared { IfErr result (λ lack. lack ≡ Memory → IsKeptCrew (station_by D.Listener C.Clock I.Draws first) (map (station_by D.Listener C.Clock I.Draws) row.new.items)) }
{
    let mut first = first;
    let gathered = add_others(&mut first, row, count - 1);
    match row.insert(0, first) {
        Ok(()) => gathered,
        Err(_) => unreachable!(),
    }
}
