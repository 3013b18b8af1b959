//! What is kept beside the tasks, so that they are found without a walk over all: where each stands, which are of each group, what falls
//! due first, which wait for which, and which wait in each queue.
//!
//! Each part of it may be given up, and then all tasks are walked over. Functions take the tasks beside it.
ghost use Rattle.std.specs.Prelude.{◌≡◌, ◌≤◌, ◌<◌, ◌++◌, ◌∷◌, [], List, None, IfSome, IfOk, find, filter, min, nat_le, length, count_by, slice_get, option_copied};
ghost use Rattle.std.specs.List.{position, reduce};
ghost use Rattle.run_states.specs.Rows.{Row, loses_claim};
ghost use Rattle.task_index.specs.Contents.{row_with};
ghost use Rattle.task_index.specs.Changes.{has_id};
ghost use Rattle.task_index.specs.Due.{all_due_moments, meets_deadline};
ghost use Rattle.task_index.specs.Ready.{is_ready};
ghost use Rattle.task_index.specs.Members.{in_group};
ghost use Rattle.task_index.specs.declared.lists.TaskList.TheVariants.{Group, Dependants};
ghost use Rattle.task_index.specs.Listing.{places_of};
ghost use Rattle.task_index.specs.Dependencies.{ids_of, place_in};
ghost use Rattle.task_index.specs.PlaceLists.{AreListed};
ghost use Rattle.task_index.specs.Picks.{waits_under, picks, are_picks};
ghost use Rattle.task_index.specs.Indexed.{IsIndexOf, IsIndexBut};

use crate::dependencies::DependencyGraph;
use crate::dependencies::kept::{keep_added, keep_changed, known_ready, note_added};
use crate::dependencies::noted::place_behind;
use crate::dues::{Dues, keep_dues, known_deadline, known_lease, reserve};
use crate::members::Members;
use crate::members::kept::{first_of, first_place, keep_member, note_member};
use crate::picks::{are_picks, picks};
use crate::place_lists::PlaceLists;
use crate::places::{keep_noted, note_new, place_of, row_with};
use crate::queues::Queues;
use crate::queues::kept::{
    are_picks_at, keep_queued, keep_waiting, note_queued, pending_in, picks_in,
};
use crate::rows::Rows;
use crate::settle::ready_place;
use crate::walks::{deadline_place, first_due, lost_place};
use farm_text::{Moment, SlugId, Text};
use run_states::TaskRow;
use slug_places::places::Places;
use std::alloc::{AllocError, Global};
use std::collections::BTreeMap;
use task_types::{Creation, RunName, TaskQueue};

/// What is kept beside the tasks.
#[derive(Drop)]
pub struct Index {
    /// The place of each task by its id.
    places: Option<Places>,
    /// The places of the tasks of each group.
    members: Option<Members>,
    /// When each task falls due.
    dues: Option<Dues>,
    /// Which tasks wait for which, and which of them are ready.
    graph: Option<DependencyGraph>,
    /// Which tasks wait for a worker, each in its queue.
    queues: Option<Queues>,
}

impl Index {
    /// The index of no tasks. It takes no memory.
    pub fn new(alloc: Global) -> Index
        ensures { IsIndexOf result [] }
    {
        Index {
            places: Some(BTreeMap::new(alloc)),
            members: Some(Members::new(alloc)),
            dues: Some(Dues::new(alloc)),
            graph: Some(DependencyGraph::new(alloc)),
            queues: Some(Queues::new(alloc)),
        }
    }

    /// An index of which all is given up, which is right for any tasks.
    pub fn given_up() -> Index
        ensures { (rows : List Row) → IsIndexOf result rows }
    {
        Index {
            places: None,
            members: None,
            dues: None,
            graph: None,
            queues: None,
        }
    }

    /// The place of the task with this id.
    pub fn place_of(&self, rows: &[TaskRow], id: SlugId) -> Option<usize>
        requires { IsIndexOf self.now rows.now }
        ensures { result ≡ position (has_id id) rows.now }
    {
        place_of(rows, self.places.as_ref(), id)
    }

    /// The task with this id.
    pub fn row_with<'a>(&self, rows: &'a [TaskRow], id: SlugId) -> Option<&'a TaskRow>
        requires { IsIndexOf self.now rows.now }
        ensures { option_copied result ≡ row_with id rows.now }
    {
        row_with(rows, self.places.as_ref(), id)
    }

    /// The first task of a group.
    pub(crate) fn first_of<'a>(&self, rows: &'a [TaskRow], group: SlugId) -> Option<&'a TaskRow>
        requires { IsIndexOf self.now rows.now }
        ensures { option_copied result ≡ find (in_group group) rows.now }
    {
        first_of(&self.members, rows, group)
    }

    /// The place of the first task of a group.
    pub(crate) fn first_place(&self, rows: &[TaskRow], group: SlugId) -> Option<usize>
        requires { IsIndexOf self.now rows.now }
        ensures { result ≡ position (in_group group) rows.now }
    {
        first_place(&self.members, rows, group)
    }

    /// The places of the tasks of a group.
    pub fn members_of<'a>(
        &self,
        rows: &[TaskRow],
        lists: &'a PlaceLists,
        group: SlugId,
    ) -> &'a [u32]
        requires index { IsIndexOf self.now rows.now }
        requires listed { AreListed lists.now rows.now }
        ensures { result.now ≡ places_of (Group group) rows.now }
    {
        match self.first_place(rows, group) {
            Some(place) => lists.members(place),
            None => &[],
        }
    }

    /// The places of the tasks that wait for the one with this id.
    pub fn dependants_of<'a>(
        &self,
        rows: &[TaskRow],
        lists: &'a PlaceLists,
        id: SlugId,
    ) -> &'a [u32]
        requires index { IsIndexOf self.now rows.now }
        requires listed { AreListed lists.now rows.now }
        ensures { result.now ≡ places_of (Dependants id) rows.now }
    {
        match self.place_of(rows, id) {
            Some(place) => lists.dependants(place),
            None => &[],
        }
    }

    /// The place of a named id among the tasks, with one more behind them that has an id; and behind that one, where none has the named id.
    pub(crate) fn place_behind(&self, rows: &[TaskRow], id: SlugId, named: SlugId) -> usize
        requires { IsIndexOf self.now rows.now }
        ensures { result ≡ place_in (ids_of rows.now ++ id ∷ []) named }
    {
        place_behind(rows, self.places.as_ref(), id, named)
    }

    /// The first moment at which something falls due, of those up to this one.
    pub fn first_due(&self, rows: &[TaskRow], moment: Moment) -> Option<Moment>
        requires { IsIndexOf self.now rows.now }
        ensures { result ≡ reduce min (filter (λ due. nat_le due moment) (all_due_moments rows.now)) }
    {
        match &self.dues {
            Some(dues) => dues.first(moment),
            None => first_due(rows, moment),
        }
    }

    /// The place of the first task whose deadline is at this very moment.
    pub fn deadline_place(&self, rows: &[TaskRow], at: Moment) -> Option<usize>
        requires { IsIndexOf self.now rows.now }
        ensures { result ≡ position (meets_deadline at) rows.now }
    {
        match known_deadline(&self.dues, at) {
            Some(place) => place,
            None => deadline_place(rows, at),
        }
    }

    /// The place of the first task whose claim ends at this moment or before.
    pub fn lost_place(&self, rows: &[TaskRow], at: Moment) -> Option<usize>
        requires { IsIndexOf self.now rows.now }
        ensures { result ≡ position (loses_claim at) rows.now }
    {
        match known_lease(&self.dues, at) {
            Some(place) => place,
            None => lost_place(rows, at),
        }
    }

    /// The place of the first task that is ready.
    pub(crate) fn first_ready(&self, rows: &[TaskRow]) -> Option<usize>
        requires { IsIndexOf self.now rows.now }
        ensures { result ≡ position (is_ready rows.now) rows.now }
    {
        match known_ready(&self.graph) {
            Some(place) => place,
            None => ready_place(&Rows::new(rows, self)),
        }
    }

    /// How many tasks wait in the queue of a name.
    pub fn pending(&self, rows: &[TaskRow], queue: &Text) -> usize
        requires { IsIndexOf self.now rows.now }
        ensures { result ≡ count_by (waits_under queue.now) rows.now }
    {
        pending_in(&self.queues, rows, queue)
    }

    /// The runs that are claimed next in a queue, so many, or all that wait. The places of ids tell that no two tasks have one.
    pub fn picks(
        &self,
        alloc: Global,
        rows: &[TaskRow],
        queue: &TaskQueue,
        most: u8,
    ) -> Result<Vec<RunName>, AllocError>
        requires { IsIndexOf self.now rows.now }
        ensures { IfOk result (λ names. names.items ≡ picks most queue.now rows.now) }
    {
        match &self.places {
            Some(_) => picks_in(alloc, &self.queues, rows, queue, most),
            None => picks(alloc, rows, queue, most),
        }
    }

    /// Whether the runs of these names are, each in its turn, the pick of the queue of the task at a place.
    pub(crate) fn are_picks(&self, rows: &[TaskRow], place: usize, names: &[RunName]) -> bool
        requires within { place < length rows.now }
        requires index { IsIndexOf self.now rows.now }
        ensures { IfSome (slice_get rows.now place) (λ row. result ≡ are_picks row.definition.queue names.now rows.now) }
    {
        match &self.places {
            Some(_) => are_picks_at(&self.queues, rows, place, names),
            None => are_picks(rows, &rows[place].definition().queue, names),
        }
    }

    /// Makes room for a task that is to be created behind these. All that is kept stays right, also where memory is wanting.
    pub fn note(
        &mut self,
        alloc: Global,
        rows: &[TaskRow],
        creation: &Creation,
    ) -> Result<(), AllocError>
        requires index { IsIndexOf self.old rows.now }
        requires few { length rows.now ≤ 1_000_000 }
        requires unknown { row_with creation.now.id rows.now ≡ None }
        ensures { IsIndexOf self.new rows.now }
    {
        note_added(&mut self.graph, alloc, rows, self.places.as_ref(), creation)?;
        let place = rows.len() as u32;
        note_new(&mut self.places, creation.id, place)?;
        note_member(&mut self.members, alloc, creation)?;
        note_queued(&mut self.queues, alloc, &creation.definition.queue, place)?;
        reserve(&mut self.dues, place)
    }

    /// A task comes behind these. What has no room for it is given up. It takes no memory.
    pub fn added(&mut self, rows: &[TaskRow], row: &TaskRow)
        requires { IsIndexOf self.old rows.now }
        ensures { IsIndexOf self.new (rows.now ++ row.now ∷ []) }
    {
        keep_added(&mut self.graph, rows, self.places.as_ref(), row);
        let place = rows.len();
        keep_noted(&mut self.places, row.id(), place);
        keep_member(&mut self.members, rows, row);
        keep_dues(&mut self.dues, place, row);
        keep_queued(&mut self.queues, row, place);
    }

    /// Brings the index up to date for the task at a place, which changed in its state. It takes no memory.
    pub fn changed(&mut self, rows: &[TaskRow], place: usize)
        requires within { place < length rows.now }
        requires index { IsIndexBut place self.old rows.now }
        ensures { IsIndexOf self.new rows.now }
    {
        keep_dues(&mut self.dues, place, &rows[place]);
        keep_changed(&mut self.graph, rows, place);
        keep_waiting(&mut self.queues, rows, place);
    }
}
