//! The farm over a disk: what was acknowledged is on it.
ghost use Rattle.std.specs.Prelude.{◌≡◌, ◌≢◌, ◌≤◌, ◌^◌, ◌-◌, false, true, ℕ, List, [], ◌++◌, length, Option, option_to_list, IfOk, IfErr};
ghost use Rattle.causes.specs.Causes.{HasCause, Rose};
ghost use Rattle.disk_base.specs.Contents.{StopsLeave};
ghost use Rattle.disk_journal.specs.Images.{IsImage, IsWithin};
ghost use Rattle.disk_journal.specs.Opening.{HasOpenCause, answer_of};
ghost use Rattle.disk_journal.specs.declared.fault.OpenFault.TheVariants.{Disk, Damaged};
ghost use Rattle.task_index.specs.Contents.{Contents};
ghost use Rattle.farm_rows.specs.Summary.{summary_of};
ghost use Rattle.farm_core.specs.Farm.{state_of, AsksDisk, TellsFaults, HoldsHistory};
ghost use Rattle.farm_machine.specs.Entry.{Entry};
ghost use Rattle.farm_machine.specs.Law.{Opening};
ghost use Rattle.farm_machine.specs.Step.{farm_rules};
ghost use Rattle.history.specs.Asks.{IsAsk};
ghost use Rattle.history.specs.Histories.{entries, Leads};
ghost use Rattle.farm_core.specs.Opened.{HasOpened, IsFarmDamaged, KeepsRefused, disk_left};

use crate::asking::{keep_due, perform};
use crate::records::Records;
use crate::restoring::{first_fault, restore};
use disk_base::Disk;
use disk_journal::{DiskFault, Journal, OpenFault};
use farm_asks::config::Config;
use farm_asks::question::Question;
use farm_asks::reply::{Asked, Reply};
use farm_desk::Object;
use farm_machine::law::Farm as Law;
use farm_machine::step::moment_of;
use farm_machine::tables::Tables;
use farm_rows::Summary;
use std::alloc::Global;

/// How much a farm keeps.
#[derive(Clone, Copy, Debug, PartialEq, Eq)]
pub struct Counts {
    /// The records that were on its disk at its opening, and those that it kept since; one whose append failed is not counted.
    pub records: u64,
    /// Its tasks.
    pub tasks: u32,
}

/// A farm whose changes are records on a disk. Once a call of the disk fails, it has halted.
#[derive(Drop)]
pub struct Farm<D: Disk> {
    alloc: Global,
    config: Config,
    tables: Tables,
    records: Records<D>,
}

/// Opens the journal on a disk, and replays it.
fn open_records<D: Disk>(alloc: Global, disk: D) -> Result<(Tables, Records<D>), (OpenFault, D)>
    ensures works { IfOk result (λ o. o.1.halted ≡ false) }
    ensures opened { IfOk result (λ o. HasOpened D.tells (D.contents disk).bytes (D.contents o.1.disk) o.1.end o.1.count o.0) }
    ensures damaged { D.tells → (place : ℕ) → IfErr result (λ e. e.0 ≡ Damaged place → IsFarmDamaged (D.contents disk).bytes place) }
    ensures untouched { D.tells → IfErr result (λ e. e.0 ≢ Disk → KeepsRefused (D.contents disk) (D.contents e.1)) }
    ensures any_moment { D.tells → (bodies : List (List ℕ)) (pending : Option (List ℕ)) → IsImage [] bodies pending (D.contents disk).bytes
        → StopsLeave (D.contents disk) (D.contents (disk_left (λ o. o.1.disk) result)) (IsWithin [] bodies (option_to_list pending)) }
    ensures cause { HasOpenCause (D.faults disk) (D.faults (disk_left (λ o. o.1.disk) result)) (answer_of (λ e. e.0) result) }
{
    let (journal, bodies) = match Journal::open(alloc, disk) {
        Ok((journal, bodies)) => (journal, bodies),
        Err((fault, disk, before)) => {
            let first = first_fault(alloc, fault, &before);
            return Err((first, disk));
        }
    };
    match restore(alloc, &bodies) {
        Ok(tables) => {
            let count = bodies.len() as u64;
            Ok((tables, Records::new(journal, count)))
        }
        Err(fault) => Err((fault, journal.into_disk())),
    }
}

impl<D: Disk> Farm<D> {
    /// Opens the farm that a disk has the records of: its tables are their replay. An `Err` hands the disk back, and unless a call of it failed
    /// with all that it had: as it was, or with the gate behind its bodies closed.
    ///
    /// Over what a stop of an earlier farm left, a stop in it leaves what a stop at its start might have left, or the same records, or these
    /// and the one pending behind them.
    pub fn open(alloc: Global, disk: D, config: Config) -> Result<Self, (OpenFault, D)>
        ensures opened { IfOk result (λ farm. HasOpened D.tells (D.contents disk).bytes (D.contents farm.records.disk) farm.records.end farm.records.count farm.tables) }
        ensures state { IfOk result (λ farm. (farm.config ≡ config) × (farm.records.halted ≡ false)) }
        ensures damaged { D.tells → (place : ℕ) → IfErr result (λ e. e.0 ≡ Damaged place → IsFarmDamaged (D.contents disk).bytes place) }
        ensures untouched { D.tells → IfErr result (λ e. e.0 ≢ Disk → KeepsRefused (D.contents disk) (D.contents e.1)) }
        ensures any_moment { D.tells → (bodies : List (List ℕ)) (pending : Option (List ℕ)) → IsImage [] bodies pending (D.contents disk).bytes
            → StopsLeave (D.contents disk) (D.contents (disk_left (λ farm. farm.records.disk) result)) (IsWithin [] bodies (option_to_list pending)) }
        ensures cause { HasOpenCause (D.faults disk) (D.faults (disk_left (λ farm. farm.records.disk) result)) (answer_of (λ e. e.0) result) }
    {
        match open_records(alloc, disk) {
            Ok((tables, records)) => Ok(Farm {
                alloc,
                config,
                tables,
                records,
            }),
            Err(refused) => {
                drop(config);
                Err(refused)
            }
        }
    }

    /// How many records and tasks there are.
    pub fn counts(&self) -> Counts
        ensures records { result.records ≡ self.now.records.count }
        ensures tasks { result.tasks ≡ length self.now.tables.rows }
    {
        Counts {
            records: self.records.count(),
            tasks: self.tables.len(),
        }
    }

    /// How its tasks stand, counted.
    pub fn summary(&self) -> Summary
        ensures { result ≡ summary_of self.now.tables.rows }
    {
        self.tables.summary()
    }

    /// Whether a call of its disk failed since it was opened: then it answers all that is asked with that alone.
    pub fn halted(&self) -> bool
        ensures { result ≡ self.now.records.halted }
    {
        self.records.halted()
    }

    /// The disk.
    pub fn into_disk(self) -> D
        ensures { result ≡ self.records.disk }
    {
        let Farm {
            alloc: _,
            config,
            tables,
            records,
        } = self;
        drop(config);
        drop(tables);
        records.into_disk()
    }

    /// Asks one question: what is due at its moment is kept as a tick and resolved, and then the call is judged, its change kept, and made.
    ///
    /// A farm that has halted answers so, and touches nothing.
    pub fn answer(&mut self, question: Question) -> Asked
        ensures asked { self.old.records.halted ≡ false → AsksDisk D.tells
            (state_of self.old.config self.old.tables self.old.records.halted) (D.contents self.old.records.disk) self.old.records.end self.old.records.count question result
            (state_of self.new.config self.new.tables self.new.records.halted) (D.contents self.new.records.disk) self.new.records.end self.new.records.count }
        ensures halted { self.old.records.halted ≡ true → (self.new ≡ self.old) × (result ≡ record { reply = Reply.Halted; ticked = false }) }
        ensures cause { result.reply ≡ Reply.DiskFault → Rose (D.faults self.old.records.disk) (D.faults self.new.records.disk) }
        ensures faults { self.old.records.halted ≡ false → TellsFaults (D.faults self.old.records.disk) (D.faults self.new.records.disk) self.new.records.halted }
        ensures later { D.faults self.old.records.disk ≤ D.faults self.new.records.disk }
    {
        if self.records.halted() {
            drop(question);
            return Asked {
                reply: Reply::Halted,
                ticked: false,
            };
        }
        let moment = moment_of(&self.tables, &question);
        match keep_due(&mut self.tables, &mut self.records, moment) {
            Ok(ticked) => {
                let reply = perform(
                    self.alloc,
                    &mut self.tables,
                    &mut self.records,
                    &self.config,
                    question,
                );
                Asked { reply, ticked }
            }
            Err(DiskFault) => {
                drop(question);
                Asked {
                    reply: Reply::DiskFault,
                    ticked: false,
                }
            }
        }
    }
}

impl<D: Disk> Object for Farm<D> {
    type Question = Question;

    type Answer = Asked;

    type Law = Law;

    ghost state = { λ farm. state_of farm.config farm.tables farm.records.halted };

    ghost holds = { λ farm opening seen. HoldsHistory D.tells (D.contents farm.records.disk) farm.records.end (D.faults farm.records.disk)
        (state_of farm.config farm.tables farm.records.halted) opening seen };

    /// As `answer`; and what the farm holds of a history goes on by the entries of the ask.
    fn ask(&mut self, question: Question) -> Asked
        ensures asks { let old = state_of self.old.config self.old.tables self.old.records.halted in let new = state_of self.new.config self.new.tables self.new.records.halted in
            (call : Entry) × IsAsk farm_rules old question result call new × ((opening : Opening) (seen : List Entry) → Leads farm_rules opening.state seen old
            → HoldsHistory D.tells (D.contents self.old.records.disk) self.old.records.end (D.faults self.old.records.disk) old opening seen
            → HoldsHistory D.tells (D.contents self.new.records.disk) self.new.records.end (D.faults self.new.records.disk) new opening (seen ++ entries farm_rules old question result call)) }
        ensures asked { self.old.records.halted ≡ false → AsksDisk D.tells
            (state_of self.old.config self.old.tables self.old.records.halted) (D.contents self.old.records.disk) self.old.records.end self.old.records.count question result
            (state_of self.new.config self.new.tables self.new.records.halted) (D.contents self.new.records.disk) self.new.records.end self.new.records.count }
        ensures halted { self.old.records.halted ≡ true → (self.new ≡ self.old) × (result ≡ record { reply = Reply.Halted; ticked = false }) }
        ensures cause { result.reply ≡ Reply.DiskFault → Rose (D.faults self.old.records.disk) (D.faults self.new.records.disk) }
    {
        self.answer(question)
    }
}
