//! What a stop may leave of a disk in memory, to list.
ghost use Rattle.std.specs.Prelude.{◌≡◌, ℕ, ◌<◌, ◌≤◌, ◌+◌, ◌⊎◌, List, length, reverse, ◌^◌, IfOk, IfSome, OnOk, All, Any, ◌++◌, option_to_list};
ghost use Rattle.disk_base.specs.Calls.{written, Torn, Shortened};
ghost use Rattle.disk_base.specs.History.{read_after, MayLeave};
ghost use Rattle.disk_base.specs.Steps.{calls_of};

use crate::memory::overwrite;
use crate::step::Step;
use std::alloc::{AllocError, Global};

/// What a write may make of a file, with the bytes to try where any may stand.
#[derive(Clone, Copy)]
struct Tearing<'a> {
    before: &'a [u8],
    at: u64,
    size: usize,
    choices: &'a [u8],
}

// An image with another byte at that place, where that is in it or at its end.
fn with_choice(
    alloc: Global,
    tearing: Tearing<'_>,
    image: &[u8],
    place: usize,
    choice: u8,
) -> Result<Option<Vec<u8>>, AllocError>
    requires from { (tearing.at ≤ place) ⊎ (length tearing.before.now ≤ place) }
    requires until { place < tearing.at + tearing.size }
    requires image { Torn tearing.at tearing.size tearing.before.now image.now }
    ensures { IfOk result (λ found. IfSome found (λ other. Torn tearing.entry.at tearing.entry.size tearing.entry.before.now other.items)) }
{
    let mut other = image.to_vec(alloc)?;
    if place == image.len() {
        other.push(choice)?;
        return Ok(Some(other));
    }
    if place > image.len() || image[place] == choice {
        return Ok(None);
    }
    other[place] = choice;
    Ok(Some(other))
}

// Adds an image where there is one.
fn add(images: &mut Vec<Vec<u8>>, found: Option<Vec<u8>>) -> Result<(), AllocError>
    ensures { OnOk result (images.new.items ≡ images.old.items ++ option_to_list found) }
{
    if let Some(image) = found {
        images.push(image)?;
    }
    Ok(())
}

// Adds an image, and it with each other choice at that place.
fn choose(
    alloc: Global,
    tearing: Tearing<'_>,
    image: &[u8],
    place: usize,
    torn: &mut Vec<Vec<u8>>,
) -> Result<(), AllocError>
    requires from { (tearing.at ≤ place) ⊎ (length tearing.before.now ≤ place) }
    requires until { place < tearing.at + tearing.size }
    requires image { Torn tearing.at tearing.size tearing.before.now image.now }
    requires torn { All (λ image. Torn tearing.at tearing.size tearing.before.now image.items) torn.old.items }
    ensures { OnOk result (All (λ image. Torn tearing.entry.at tearing.entry.size tearing.entry.before.now image.items) torn.new.items) }
{
    torn.push(image.to_vec(alloc)?)?;
    for choice in tearing.choices {
        add(torn, with_choice(alloc, tearing, image, place, *choice)?)?;
    }
    Ok(())
}

// Each image, and it with each other choice at that place.
fn choose_each(
    alloc: Global,
    tearing: Tearing<'_>,
    images: &[Vec<u8>],
    place: usize,
) -> Result<Vec<Vec<u8>>, AllocError>
    requires from { (tearing.at ≤ place) ⊎ (length tearing.before.now ≤ place) }
    requires until { place < tearing.at + tearing.size }
    requires images { All (λ image. Torn tearing.at tearing.size tearing.before.now image.items) images.now }
    ensures { IfOk result (λ torn. All (λ image. Torn tearing.entry.at tearing.entry.size tearing.entry.before.now image.items) torn.items) }
{
    let mut torn = Vec::new(alloc);
    for image in images {
        choose(alloc, tearing, image, place, &mut torn)?;
    }
    Ok(torn)
}

// What the write may make of the file, each other byte being one of the choices.
fn tear(alloc: Global, tearing: Tearing<'_>) -> Result<Vec<Vec<u8>>, AllocError>
    requires { tearing.at + tearing.size < 2 ^ 64 }
    ensures { IfOk result (λ torn. All (λ image. Torn tearing.entry.at tearing.entry.size tearing.entry.before.now image.items) torn.items) }
{
    let mut torn = Vec::new(alloc);
    torn.push(tearing.before.to_vec(alloc)?)?;
    let at = tearing.at as usize;
    for place in at.min(tearing.before.len())..at + tearing.size {
        torn = choose_each(alloc, tearing, &torn, place)?;
    }
    Ok(torn)
}

// What a cut may make of the file.
fn shorten(alloc: Global, before: &[u8], size: u64) -> Result<Vec<Vec<u8>>, AllocError>
    ensures { IfOk result (λ images. All (λ image. Shortened size before.now image.items) images.items) }
{
    let mut images = Vec::new(alloc);
    for length in (size as usize).min(before.len())..before.len() {
        images.push(before[..length].to_vec(alloc)?)?;
    }
    images.push(before.to_vec(alloc)?)?;
    Ok(images)
}

// A copy of a file with a piece over it.
fn write_over(alloc: Global, file: &[u8], at: u64, piece: &[u8]) -> Result<Vec<u8>, AllocError>
    ensures { IfOk result (λ copy. copy.items ≡ written at piece.now file.now) }
{
    let end = match (at as usize).checked_add(piece.len()) {
        Some(end) => end,
        None => return Err(AllocError),
    };
    let mut copy = Vec::with_capacity(alloc, end.max(file.len()))?;
    copy.extend_from_slice(file)?;
    overwrite(&mut copy, at as usize, piece);
    Ok(copy)
}

// What a read gives after these steps.
fn read_steps(
    alloc: Global,
    first: &[u8],
    arena: &[u8],
    steps: &[Step],
) -> Result<Vec<u8>, AllocError>
    ensures { IfOk result (λ bytes. bytes.items ≡ read_after first.now (calls_of arena.now (reverse steps.now))) }
{
    if steps.is_empty() {
        return first.to_vec(alloc);
    }
    let earlier = &steps[..steps.len() - 1];
    match steps[steps.len() - 1] {
        Step::Wrote { at, size, done } => {
            let from = arena.len().saturating_sub(size);
            let bytes = read_steps(alloc, first, &arena[..from], earlier)?;
            if done {
                write_over(alloc, &bytes, at, &arena[from..])
            } else {
                Ok(bytes)
            }
        }
        Step::Cut { size, done } => {
            let mut bytes = read_steps(alloc, first, arena, earlier)?;
            if done {
                bytes.truncate(size as usize);
            }
            Ok(bytes)
        }
        Step::Synced => read_steps(alloc, first, arena, earlier),
    }
}

// What a write may make of any of these files.
fn tear_each(
    alloc: Global,
    befores: &[Vec<u8>],
    at: u64,
    size: usize,
    choices: &[u8],
) -> Result<Vec<Vec<u8>>, AllocError>
    ensures { IfOk result (λ images. All (λ image. Any (λ before. Torn at size before.items image.items) befores.now) images.items) }
{
    let mut images = Vec::new(alloc);
    if at > u64::MAX - size as u64 {
        return Err(AllocError);
    }
    for before in befores {
        let tearing = Tearing {
            before: before.as_slice(),
            at,
            size,
            choices,
        };
        let mut more = tear(alloc, tearing)?;
        images.append(&mut more)?;
    }
    Ok(images)
}

// What a cut may make of any of these files.
fn shorten_each(alloc: Global, befores: &[Vec<u8>], size: u64) -> Result<Vec<Vec<u8>>, AllocError>
    ensures { IfOk result (λ images. All (λ image. Any (λ before. Shortened size before.items image.items) befores.now) images.items) }
{
    let mut images = Vec::new(alloc);
    for before in befores {
        let mut more = shorten(alloc, before, size)?;
        images.append(&mut more)?;
    }
    Ok(images)
}

/// What a stop may leave after these steps, where each byte that may be any is one that is there without a stop or one of `choices`.
pub(crate) fn images_after(
    alloc: Global,
    first: &[u8],
    arena: &[u8],
    steps: &[Step],
    choices: &[u8],
) -> Result<Vec<Vec<u8>>, AllocError>
    ensures { IfOk result (λ images. All (λ image. MayLeave first.now (calls_of arena.now (reverse steps.now)) image.items) images.items) }
{
    let mut images = Vec::new(alloc);
    if steps.is_empty() {
        images.push(first.to_vec(alloc)?)?;
        return Ok(images);
    }
    let earlier = &steps[..steps.len() - 1];
    match steps[steps.len() - 1] {
        Step::Wrote { at, size, .. } => {
            let from = arena.len().saturating_sub(size);
            let befores = images_after(alloc, first, &arena[..from], earlier, choices)?;
            tear_each(alloc, &befores, at, arena.len() - from, choices)
        }
        Step::Cut { size, .. } => {
            let befores = images_after(alloc, first, arena, earlier, choices)?;
            shorten_each(alloc, &befores, size)
        }
        Step::Synced => {
            images.push(read_steps(alloc, first, arena, earlier)?)?;
            Ok(images)
        }
    }
}
