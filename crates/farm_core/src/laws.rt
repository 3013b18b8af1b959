//! Laws of what a farm's disk has. The functions do nothing: their contracts are the laws.
ghost use Rattle.std.specs.Prelude.{◌≡◌, false, ℕ, List, ◌++◌, [], Option, option_to_list};
ghost use Rattle.std.specs.Thread.{IsSend};
ghost use Rattle.disk_base.specs.Contents.{LeftNow, StopsLeave};
ghost use Rattle.disk_journal.specs.Images.{IsImage, IsWithin};
ghost use Rattle.history.specs.Histories.{Leads};
ghost use Rattle.task_index.specs.Contents.{Contents};
ghost use Rattle.farm_machine.specs.Entry.{Entry};
ghost use Rattle.farm_machine.specs.Law.{Opening};
ghost use Rattle.farm_machine.specs.Replay.{Restores};
ghost use Rattle.farm_machine.specs.State.{State};
ghost use Rattle.farm_machine.specs.Step.{farm_rules};
ghost use Rattle.farm_asks.specs.declared.config.Config.{Config as AnyConfig};
ghost use Rattle.farm_core.specs.contracts.bare.Bare as bare;
ghost use Rattle.farm_core.specs.contracts.farm.Farm as farm;
ghost use Rattle.farm_core.specs.Farm.{HoldsHistory, WasAsked, state_of};
ghost use Rattle.farm_core.specs.Opened.{HasOpened, Replays, IsFarmDamaged, IsSound};

use disk_base::Disk;
use farm_machine::tables::farms_tables_cross_threads;
use farm_record::a_record_is_of_one_change;
use hook_book::hooks_cross_threads;

/// A file is never damaged that a stop leaves within records that may be replayed.
pub fn what_replays_is_never_damaged()
    ensures { (file : List ℕ) (bodies more : List (List ℕ)) (contents : Contents) (place : ℕ)
        → Replays (bodies ++ more) contents → IsWithin [] bodies more file → IsFarmDamaged file place → ⊥ }
{
    a_record_is_of_one_change();
}

/// Whatever legal history a farm's disk holds, since an opening whose records restore its state: no image of it is damaged. An opening
/// without records restores no tasks, so this holds of each farm that began on an empty disk.
pub fn images_are_never_damaged<D: Disk>()
    ensures { D.tells → (disk : D) (end faults : ℕ) (state : State) (opening : Opening) (seen : List Entry)
        → Restores opening.records opening.state.contents → Leads farm_rules opening.state seen state
        → HoldsHistory D.tells (D.contents disk) end faults state opening seen
        → (image : List ℕ) (place : ℕ) → LeftNow (D.contents disk) image → IsFarmDamaged image place → ⊥ }
{
    a_record_is_of_one_change();
}

/// A file that is no farm's is damaged at one place.
pub fn a_farm_is_damaged_at_one_place()
    ensures { (file : List ℕ) (place other : ℕ) → IsFarmDamaged file place → IsFarmDamaged file other → place ≡ other }
{
    a_record_is_of_one_change();
}

/// A stop at any moment inside an ask of a farm at work, that holds a legal history since an opening whose records restore its state, leaves
/// a file that is sound, so it is not damaged. So does one inside an opening over a sound file; and no bytes are one.
pub fn stops_are_never_damaged<D: Disk>()
    ensures empty { IsSound [] }
    ensures asks { D.tells → (disk after : D) → WasAsked D.tells (D.contents disk) (D.contents after) → StopsLeave (D.contents disk) (D.contents after) IsSound }
    ensures inside { D.tells → (disk after : D) → WasAsked D.tells (D.contents disk) (D.contents after)
        → (image : List ℕ) → (D.contents after).left_since (D.contents disk).moment image → IsSound image }
    ensures openings { D.tells → (disk after : D) → IsSound (D.contents disk).bytes
        → ((bodies : List (List ℕ)) (pending : Option (List ℕ)) → IsImage [] bodies pending (D.contents disk).bytes
        → StopsLeave (D.contents disk) (D.contents after) (IsWithin [] bodies (option_to_list pending)))
        → StopsLeave (D.contents disk) (D.contents after) IsSound }
{
    a_record_is_of_one_change();
}

/// A farm that was opened from a disk holds the history that begins from the records it was replayed from, and has no entry yet.
pub fn an_opened_farm_holds_its_records<D: Disk>()
    ensures { (file : List ℕ) (disk : D) (end count : ℕ) (config : AnyConfig) (contents : Contents)
        → (opened : HasOpened D.tells file (D.contents disk) end count contents)
        → HoldsHistory D.tells (D.contents disk) end (D.faults disk) (state_of config contents false)
        (record { state = state_of config contents false; records = opened.replays.changes; faults = D.faults disk }) [] }
{}

/// A farm on a disk may go to another thread where its disk may.
pub fn farms_cross_threads<D: Disk + Send>()
    ensures sent { IsSend (farm.the_row D.row D.Disk) }
{
    hooks_cross_threads();
    farms_tables_cross_threads();
}

/// A farm in memory may go to another thread.
pub fn bare_farms_cross_threads()
    ensures sent { IsSend bare.the_row }
{
    hooks_cross_threads();
    farms_tables_cross_threads();
}
