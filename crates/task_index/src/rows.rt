//! The tasks, with what is kept beside them.
ghost use Rattle.std.specs.Prelude.{◌≡◌, ◌<◌, IfSome, find, length, slice_get, option_copied};
ghost use Rattle.std.specs.List.{position};
ghost use Rattle.task_index.specs.Changes.{has_id};
ghost use Rattle.task_index.specs.Contents.{row_with};
ghost use Rattle.task_index.specs.Members.{in_group};
ghost use Rattle.task_index.specs.Listing.{places_of};
ghost use Rattle.task_index.specs.Picks.{are_picks};
ghost use Rattle.task_index.specs.Indexed.{IsIndexOf};
ghost use Rattle.task_index.specs.PlaceLists.{AreListed};

use crate::index::Index;
use crate::lists::TaskList;
use crate::place_lists::PlaceLists;
use farm_text::SlugId;
use run_states::TaskRow;
use std::marker::Model;
use task_types::RunName;

/// The tasks, which are looked up by what is kept beside them. They are seen as the list of the tasks.
#[derive(Drop)]
pub struct Rows<'a> {
    list: &'a [TaskRow],
    index: &'a Index,
}

impl<'a> Model for Rows<'a> {
    ghost use Rattle.std.specs.Prelude.{List};
    ghost use Rattle.std.specs.Coded.{codes};
    ghost use Rattle.task_types.specs.Codes.{members_code};
    ghost use Rattle.run_states.specs.Rows.{Row};
    ghost use Rattle.task_index.specs.Indexed.{IsIndexOf};

    ghost Value = { List Row };

    ghost coded = { Prim.hlevel (codes, members_code) };

    ghost view = { λ r. r.list.now };

    ghost invariant = { λ r. IsIndexOf r.index.now r.list.now };
}

impl<'a> Rows<'a> {
    /// These tasks, and what is kept beside them.
    pub fn new(list: &'a [TaskRow], index: &'a Index) -> Rows<'a>
        requires { IsIndexOf index.now list.now }
        ensures { result ≡ list.now }
    {
        Rows { list, index }
    }

    /// All tasks.
    pub(crate) fn list(&self) -> &'a [TaskRow]
        ensures { result.now ≡ self.now }
    {
        self.list
    }

    /// The task with this id.
    pub fn with(&self, id: SlugId) -> Option<&'a TaskRow>
        ensures { option_copied result ≡ row_with id self.now }
    {
        self.index.row_with(self.list, id)
    }

    /// The place of the task with this id.
    pub(crate) fn place(&self, id: SlugId) -> Option<usize>
        ensures { result ≡ position (has_id id) self.now }
    {
        self.index.place_of(self.list, id)
    }

    /// Whether the runs of these names are, each in its turn, the pick of the queue of the task at a place.
    pub(crate) fn are_picks(&self, place: usize, names: &[RunName]) -> bool
        requires { place < length self.now }
        ensures { IfSome (slice_get self.now place) (λ row. result ≡ are_picks row.definition.queue names.now self.now) }
    {
        self.index.are_picks(self.list, place, names)
    }

    /// The first task of a group.
    pub(crate) fn first_of(&self, group: SlugId) -> Option<&'a TaskRow>
        ensures { option_copied result ≡ find (in_group group) self.now }
    {
        self.index.first_of(self.list, group)
    }

    /// The places of the tasks of a list.
    pub(crate) fn places_on<'b>(&self, lists: &'b PlaceLists, list: &TaskList) -> &'b [u32]
        requires { AreListed lists.now self.now }
        ensures { result.now ≡ places_of list.now self.now }
    {
        match list {
            TaskList::Group(group) => self.index.members_of(self.list, lists, *group),
            TaskList::Dependants(id) => self.index.dependants_of(self.list, lists, *id),
        }
    }
}
