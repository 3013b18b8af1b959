//! A disk in memory, which tells all that it holds and all that a stop may leave.
ghost use Rattle.std.specs.Prelude.{◌≡◌, ℕ, ◌+◌, ◌-◌, ◌^◌, ◌<◌, ◌≤◌, ◌⊎◌, ◌↔◌, ◌∷◌, ◌++◌, List, length, take, drop, reverse, IfOk, IsErr, IsTrue, OnErr, OnOk, Bool, All, vec_len, vec_capacity};
ghost use Rattle.std.specs.Io.{ReadsAtMost};
ghost use Rattle.causes.specs.Causes.{HasCause};
ghost use Rattle.disk_base.specs.Contents.{LeftNow, IsSettled};
ghost use Rattle.disk_base.specs.Calls.{written, Torn, Shortened, After, Reads, Writes, Cuts, Syncs};
ghost use Rattle.disk_base.specs.History.{read_after, wrote, cut, synced};
ghost use Rattle.disk_base.specs.Steps.{calls_of};

use crate::disk::Disk;
use crate::images::images_after;
use crate::step::Step;
use causes::{Failed, FaultCount};
use std::alloc::{AllocError, Global};

/// A file in memory, whose room is taken when it is made. Chosen calls fail, and those that find no room.
///
/// A write or a cut that fails by choice is pending all the same: a stop may leave it in part.
#[derive(Drop)]
pub struct MemoryDisk {
    first: Vec<u8>,
    bytes: Vec<u8>,
    // The bytes of all writes, one after the other.
    arena: Vec<u8>,
    steps: Vec<Step>,
    failing: Vec<u64>,
    calls: u64,
    faults: FaultCount,
    ahead: usize,
    ghost reads: { bytes.items ≡ read_after first.items (calls_of arena.items (reverse steps.items)) },
}

impl MemoryDisk {
    ghost use Rattle.disk_base.specs.Memory.{memory_contents, memory_faults, failing_calls, call_number, calls_left, bytes_left, greatest_length};

    /// A file of these bytes, all of them on the disk, with room for `calls` calls that change it and for writes of `room`
    /// bytes in all, which may lengthen it by as much. The calls whose numbers, from 0 on, are in `failing` fail.
    pub fn new(
        alloc: Global,
        first: &[u8],
        room: usize,
        calls: usize,
        failing: Vec<u64>,
    ) -> Result<Self, AllocError>
        requires { length first.now + room < 2 ^ 63 }
        ensures bytes { IfOk result (λ disk. (memory_contents disk).bytes ≡ first.now) }
        ensures settled { IfOk result (λ disk. IsSettled (memory_contents disk)) }
        ensures faults { IfOk result (λ disk. memory_faults disk ≡ 0) }
        ensures failing { IfOk result (λ disk. failing_calls disk ≡ failing.items) }
        ensures number { IfOk result (λ disk. call_number disk ≡ 0) }
        ensures calls { IfOk result (λ disk. calls_left disk ≡ calls) }
        ensures room { IfOk result (λ disk. bytes_left disk ≡ room) }
        ensures greatest { IfOk result (λ disk. length first.now + room ≤ greatest_length disk) }
    {
        MemoryDisk::with_ahead(alloc, first, room, calls, failing, 0)
    }

    /// The same, which tells that so many bytes may be written ahead of a record.
    pub fn with_ahead(
        alloc: Global,
        first: &[u8],
        room: usize,
        calls: usize,
        failing: Vec<u64>,
        ahead: usize,
    ) -> Result<Self, AllocError>
        requires { length first.now + room < 2 ^ 63 }
        ensures bytes { IfOk result (λ disk. (memory_contents disk).bytes ≡ first.now) }
        ensures settled { IfOk result (λ disk. IsSettled (memory_contents disk)) }
        ensures faults { IfOk result (λ disk. memory_faults disk ≡ 0) }
        ensures failing { IfOk result (λ disk. failing_calls disk ≡ failing.items) }
        ensures number { IfOk result (λ disk. call_number disk ≡ 0) }
        ensures calls { IfOk result (λ disk. calls_left disk ≡ calls) }
        ensures room { IfOk result (λ disk. bytes_left disk ≡ room) }
        ensures greatest { IfOk result (λ disk. length first.now + room ≤ greatest_length disk) }
    {
        let mut bytes = Vec::with_capacity(alloc, first.len() + room)?;
        bytes.extend_from_slice(first)?;
        Ok(MemoryDisk {
            first: Vec::from_slice(alloc, first)?,
            bytes,
            arena: Vec::with_capacity(alloc, room)?,
            steps: Vec::with_capacity(alloc, calls)?,
            failing,
            calls: 0,
            faults: FaultCount::new(),
            ahead,
        })
    }

    /// What a read gives.
    pub fn bytes(&self) -> &[u8]
        ensures { result.now ≡ (memory_contents self.now).bytes }
    {
        self.bytes.as_slice()
    }

    /// Files that a stop now may leave, some of them more than once. Of those with bytes that may be any, it lists the ones
    /// whose bytes there are what was there before the call, or one of `choices`. What a read gives is one of all, and may not be listed.
    pub fn images(&self, alloc: Global, choices: &[u8]) -> Result<Vec<Vec<u8>>, AllocError>
        ensures { IfOk result (λ images. All (λ image. LeftNow (memory_contents self.now) image.items) images.items) }
    {
        images_after(alloc, &self.first, &self.arena, &self.steps, choices)
    }

    /// How many calls have failed.
    pub fn faults(&self) -> u64
        ensures { result ≡ memory_faults self.now }
    {
        self.faults.get()
    }
}

// Copies from that place of a file to the front of `buf`.
fn copy_front(file: &[u8], at: u64, buf: &mut [u8]) -> usize
    ensures bytes { take result buf.new ≡ take result (drop at file.now) }
    ensures within { result ≤ length buf.old }
    ensures count { result ≤ length file.now - at }
    ensures some { 0 < length buf.old → at < length file.now → 0 < result }
{
    let at = (at as usize).min(file.len());
    let count = buf.len().min(file.len() - at);
    buf[..count].copy_from_slice(&file[at..at + count]);
    count
}

// Puts a piece at that place of a file, after zeros in a gap.
pub(crate) fn overwrite(file: &mut Vec<u8>, at: usize, piece: &[u8])
    requires room { at + length piece.now ≤ vec_capacity file.old }
    ensures written { file.new.items ≡ written at piece.now file.old.items }
    ensures capacity { vec_capacity file.old ≤ vec_capacity file.new }
{
    if piece.is_empty() {
        return;
    }
    let end = at + piece.len();
    if end > file.len() {
        let _ = file.resize(end, 0);
    }
    put(file.as_mut_slice(), at, piece);
}

// Puts a piece over what is there.
fn put(file: &mut [u8], at: usize, piece: &[u8])
    requires { at + length piece.now ≤ length file.old }
    ensures { file.new ≡ take at file.old ++ (piece.now ++ drop (at + length piece.now) file.old) }
{
    file[at..at + piece.len()].copy_from_slice(piece);
}

// Keeps the step of a write, and its bytes behind those of earlier writes.
fn keep_write(arena: &mut Vec<u8>, steps: &mut Vec<Step>, at: u64, piece: &[u8], done: bool)
    requires bytes { vec_len arena.old + length piece.now ≤ vec_capacity arena.old }
    requires steps { vec_len steps.old < vec_capacity steps.old }
    ensures count { vec_len steps.new ≡ vec_len steps.old + 1 }
    ensures size { vec_len arena.new ≡ vec_len arena.old + length piece.now }
    ensures capacities { (vec_capacity steps.old ≤ vec_capacity steps.new) × (vec_capacity arena.old ≤ vec_capacity arena.new) }
    ensures calls { calls_of arena.new.items (reverse steps.new.items) ≡ wrote at piece.now done ∷ calls_of arena.old.items (reverse steps.old.items) }
{
    let _ = arena.extend_from_slice(piece);
    let _ = steps.push(Step::Wrote {
        at,
        size: piece.len(),
        done,
    });
}

// Keeps the step of a cut.
fn keep_cut(arena: &Vec<u8>, steps: &mut Vec<Step>, size: u64, done: bool)
    requires { vec_len steps.old < vec_capacity steps.old }
    ensures count { vec_len steps.new ≡ vec_len steps.old + 1 }
    ensures capacity { vec_capacity steps.old ≤ vec_capacity steps.new }
    ensures calls { calls_of arena.now.items (reverse steps.new.items) ≡ cut size done ∷ calls_of arena.now.items (reverse steps.old.items) }
{
    let _arena = arena.len();
    let _ = steps.push(Step::Cut { size, done });
}

// Keeps the step of a sync.
fn keep_sync(arena: &Vec<u8>, steps: &mut Vec<Step>)
    requires { vec_len steps.old < vec_capacity steps.old }
    ensures count { vec_len steps.new ≡ vec_len steps.old + 1 }
    ensures capacity { vec_capacity steps.old ≤ vec_capacity steps.new }
    ensures calls { calls_of arena.now.items (reverse steps.new.items) ≡ synced ∷ calls_of arena.now.items (reverse steps.old.items) }
{
    let _arena = arena.len();
    let _ = steps.push(Step::Synced);
}

impl MemoryDisk {
    ghost use Rattle.disk_base.specs.Memory.{HasNoRoom};

    fn has_room(&self, at: u64, size: usize) -> bool
        ensures { IsTrue result ↔ (¬ (HasNoRoom self.now at size)) }
    {
        let greatest = self.bytes.capacity();
        self.steps.len() < self.steps.capacity()
            && size <= self.arena.capacity() - self.arena.len()
            && at <= greatest as u64
            && size <= greatest - at as usize
    }
}

impl Disk for MemoryDisk {
    ghost use Rattle.disk_base.specs.Memory.{memory_contents, memory_faults, failing_calls, call_number, calls_left, bytes_left, greatest_length, IsChosen, HasNoRoom, CountsCall, TakesRoom};

    ghost tells = { Unit {0} };

    ghost contents = { memory_contents };

    ghost faults = { memory_faults };

    fn read(&mut self, at: u64, buf: &mut [u8]) -> Result<usize, Failed>
        ensures bound { ReadsAtMost result buf.new }
        ensures reads { Unit {0} → Reads at (memory_contents self.old) (memory_contents self.new) result buf.new }
        ensures cause { HasCause (memory_faults self.old) (memory_faults self.new) result }

        // It fails just where it was chosen.
        ensures fails { IsErr result ↔ IsChosen self.old }
        ensures counted { CountsCall self.old self.new result }
        ensures room { TakesRoom self.old self.new 0 0 }
    {
        let call = self.calls;
        self.calls = call.saturating_add(1);
        if self.failing.contains(&call) {
            self.faults.raise();
            return Err(Failed);
        }
        Ok(copy_front(&self.bytes, at, buf))
    }

    fn write_at(&mut self, at: u64, bytes: &[u8]) -> Result<(), Failed>
        ensures writes { Unit {0} → Writes at bytes.now (memory_contents self.old) (memory_contents self.new) result }
        ensures far { 2 ^ 63 < at + length bytes.now → IsErr result }
        ensures cause { HasCause (memory_faults self.old) (memory_faults self.new) result }

        // It fails just where it was chosen or finds no room.
        ensures fails { IsErr result ↔ (IsChosen self.old ⊎ HasNoRoom self.old at (length bytes.now)) }

        // Where there is room a stop may leave the range in any state, done or not.
        ensures torn { ¬ HasNoRoom self.old at (length bytes.now) → (image : List ℕ)
            → After (Torn at (length bytes.now)) (memory_contents self.old) image → LeftNow (memory_contents self.new) image }
        ensures counted { CountsCall self.old self.new result }
        ensures room { TakesRoom self.old self.new 1 (length bytes.now) }
    {
        let call = self.calls;
        self.calls = call.saturating_add(1);
        let chosen = self.failing.contains(&call);
        if !self.has_room(at, bytes.len()) {
            self.faults.raise();
            return Err(Failed);
        }
        keep_write(&mut self.arena, &mut self.steps, at, bytes, !chosen);
        if chosen {
            self.faults.raise();
            return Err(Failed);
        }
        overwrite(&mut self.bytes, at as usize, bytes);
        Ok(())
    }

    fn cut(&mut self, size: u64) -> Result<(), Failed>
        ensures cuts { Unit {0} → Cuts size (memory_contents self.old) (memory_contents self.new) result }
        ensures cause { HasCause (memory_faults self.old) (memory_faults self.new) result }

        // It fails just where it was chosen or finds no room to be kept.
        ensures fails { IsErr result ↔ (IsChosen self.old ⊎ (calls_left self.old ≡ 0)) }

        // Where there is room a stop may leave any length between, done or not.
        ensures short { ¬ (calls_left self.old ≡ 0) → (image : List ℕ)
            → After (Shortened size) (memory_contents self.old) image → LeftNow (memory_contents self.new) image }
        ensures counted { CountsCall self.old self.new result }
        ensures room { TakesRoom self.old self.new 1 0 }
    {
        let call = self.calls;
        self.calls = call.saturating_add(1);
        let chosen = self.failing.contains(&call);
        if self.steps.len() == self.steps.capacity() {
            self.faults.raise();
            return Err(Failed);
        }
        keep_cut(&self.arena, &mut self.steps, size, !chosen);
        if chosen {
            self.faults.raise();
            return Err(Failed);
        }
        self.bytes.truncate(size as usize);
        Ok(())
    }

    fn sync(&mut self) -> Result<(), Failed>
        ensures syncs { Unit {0} → Syncs (memory_contents self.old) (memory_contents self.new) result }
        ensures cause { HasCause (memory_faults self.old) (memory_faults self.new) result }

        // It fails just where it was chosen or finds no room to be kept.
        ensures fails { IsErr result ↔ (IsChosen self.old ⊎ (calls_left self.old ≡ 0)) }
        ensures counted { CountsCall self.old self.new result }
        ensures room { TakesRoom self.old self.new 1 0 }
    {
        let call = self.calls;
        self.calls = call.saturating_add(1);
        if self.steps.len() == self.steps.capacity() || self.failing.contains(&call) {
            self.faults.raise();
            return Err(Failed);
        }
        keep_sync(&self.arena, &mut self.steps);
        Ok(())
    }

    fn ahead(&self) -> usize {
        self.ahead
    }
}
