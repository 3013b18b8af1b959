//! The farm without a disk.
ghost use Rattle.std.specs.Prelude.{◌≡◌, ◌≤◌, false};
ghost use Rattle.farm_text.specs.declared.moment.TheConstants.{LAST_TOLD_MOMENT};
ghost use Rattle.farm_machine.specs.Changes.{moment_of as moment_by};
ghost use Rattle.task_index.specs.Due.{is_due};
ghost use Rattle.farm_rows.specs.Summary.{summary_of};
ghost use Rattle.farm_machine.specs.State.{working, empty_state};
ghost use Rattle.farm_core.specs.Bare.{IsResolved, IsPerformed};
ghost use Rattle.farm_core.specs.Diskless.{HaveNoDisk};

use farm_asks::config::Config;
use farm_asks::question::Question;
use farm_asks::reply::{Asked, Reply};
use farm_desk::Object;
use farm_machine::law::Farm;
use farm_machine::step::{apply, moment_of, plan};
use farm_machine::tables::{Tables, due, tick};
use farm_rows::Summary;
use farm_text::Moment;
use std::alloc::Global;
use std::marker::Model;

/// A farm that keeps all in memory. A contract sees it as its state. No reply of it tells of a disk.
#[derive(Drop)]
pub struct Bare {
    alloc: Global,
    config: Config,
    tables: Tables,
}

impl Model for Bare {
    ghost use Rattle.std.specs.Coded.{codes};
    ghost use Rattle.task_types.specs.Codes.{members_code};
    ghost use Rattle.hook_book.specs.Codes.{document_code};
    ghost use Rattle.farm_machine.specs.State.{State, working};

    ghost Value = { State };

    ghost coded = { Prim.hlevel (codes, members_code, document_code) };

    ghost view = { λ b. working b.config b.tables };
}

impl Bare {
    /// The empty farm of this configuration. It takes no memory.
    pub fn new(alloc: Global, config: Config) -> Bare
        ensures { result ≡ empty_state config }
    {
        Bare {
            alloc,
            config,
            tables: Tables::new(alloc),
        }
    }

    /// How the tasks of the farm stand, counted.
    pub fn summary(&self) -> Summary
        ensures { result ≡ summary_of self.now.contents.rows }
    {
        self.tables.summary()
    }
}

impl Object for Bare {
    type Question = Question;

    type Answer = Asked;

    type Law = Farm;

    ghost state = { λ bare. bare };

    ghost holds = { λ bare opening seen. HaveNoDisk seen };

    fn ask(&mut self, question: Question) -> Asked {
        let moment = moment_of(&self.tables, &question);
        let ticked = resolve_due(&mut self.tables, moment);
        let reply = perform(self.alloc, &mut self.tables, &self.config, question);
        Asked { reply, ticked }
    }
}

/// Resolves what is due at the moment, and says whether anything was.
fn resolve_due(tables: &mut Tables, moment: Moment) -> bool
    requires { moment ≤ LAST_TOLD_MOMENT }
    ensures { IsResolved tables.old moment result tables.new }
{
    let is_due = due(tables, moment);
    if is_due {
        tick(tables, moment);
    }
    is_due
}

/// Performs a call at whose moment nothing is due.
fn perform(alloc: Global, tables: &mut Tables, config: &Config, question: Question) -> Reply
    requires { is_due tables.old (moment_by tables.old question) ≡ false }
    ensures { IsPerformed config.now tables.old question result tables.new }
{
    let moment = moment_of(tables, &question);
    match plan(alloc, tables, config, question) {
        Ok(plan) => apply(tables, plan),
        Err(_) => {
            tables.reach(moment);
            Reply::OutOfMemory
        }
    }
}
