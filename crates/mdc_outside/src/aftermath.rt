// What a crash in the midst of recorded calls leaves.
ghost use Rattle.std.specs.Prelude.{◌≡◌, ◌≤◌, ◌||◌, true, length, take, drop, fold, ◌∷◌, [], IsTrue, IsFalse, IfOk, OnOk};
ghost use Rattle.std.specs.List.{list_any};
ghost use Rattle.mdc_outside.specs.Aftermath.{filled, torn_by, torn_bytes, bytes_after, tape_after, EndsSynced, PutsNothing, MayBeLeft, IsLeftByCalls, makes_file};
ghost use Rattle.mdc_outside.specs.declared.call.Event.TheVariants.{Sync};

use crate::call::{Entry, Event};
use crate::contents;
use std::alloc::{AllocError, Global};

/// The bytes that a crash after these calls leaves. What was written since the last sync holds the fill, or what was
/// written.
pub fn left_after(
    alloc: Global,
    first: &[u8],
    calls: &[Entry],
    fill: Option<u8>,
) -> Result<Vec<u8>, AllocError>
    ensures left { IfOk result (λ bytes. IsLeftByCalls fill first.now calls.now bytes.items) }
    ensures allowed { IfOk result (λ bytes. MayBeLeft first.now calls.now bytes.items) }
{
    let (before, since) = calls.split_at(synced_calls(calls));
    let mut bytes = first.to_vec(alloc)?;
    for entry in before {
        redo(&mut bytes, entry)?;
    }
    tear_all(alloc, &mut bytes, since, fill)?;
    Ok(bytes)
}

/// Puts into the bytes what the range of a call holds after a crash.
pub fn tear(
    alloc: Global,
    bytes: &mut Vec<u8>,
    event: &Event,
    fill: Option<u8>,
) -> Result<(), AllocError>
    ensures { OnOk result (bytes.new.items ≡ torn_bytes fill bytes.old.items event.now) }
{
    let Event::Write(at, piece) = event else {
        return Ok(());
    };
    let at = (*at as usize).min(bytes.len());
    match fill {
        None => contents::put(bytes, at, piece.bytes()),
        Some(fill) => {
            let filled = vec![in alloc; fill; piece.bytes().len()]?;
            contents::put(bytes, at, &filled)
        }
    }
}

/// The tape after these calls.
pub fn said_after(alloc: Global, heard: &[u8], calls: &[Entry]) -> Result<Vec<u8>, AllocError>
    ensures { IfOk result (λ tape. tape.items ≡ fold tape_after heard.now calls.now) }
{
    let mut tape = heard.to_vec(alloc)?;
    for entry in calls {
        if let (Event::Say(piece), true) = (&entry.event, entry.done) {
            tape.extend_from_slice(piece.bytes())?;
        }
    }
    Ok(tape)
}

/// Whether the file is there after these calls.
pub fn is_there_after(was_there: bool, calls: &[Entry]) -> bool
    ensures { result ≡ (was_there || list_any makes_file calls.now) }
{
    was_there || is_made(calls)
}

// Whether one of the calls makes the file.
fn is_made(calls: &[Entry]) -> bool
    ensures { result ≡ list_any makes_file calls.now }
{
    calls.iter().any(|entry| entry.makes_file())
}

// How many of the calls there are up to the last sync that was done.
fn synced_calls(calls: &[Entry]) -> usize
    ensures within { result ≤ length calls.now }
    ensures synced { EndsSynced (take result calls.now) }
    ensures since { PutsNothing (drop result calls.now) }
{
    let mut synced = 0;
    for (i, entry) in calls.iter().enumerate() {
        if is_sync(entry) {
            synced = i + 1;
        }
    }
    synced
}

// Whether a sync was done.
fn is_sync(entry: &Entry) -> bool
    ensures yes { IsTrue result → entry.now ≡ record { event = Sync; done = true } }
    ensures no { IsFalse result → PutsNothing (entry.now ∷ []) }
{
    matches!(entry.event, Event::Sync) && entry.done
}

// Writes what a call has written.
fn redo(bytes: &mut Vec<u8>, entry: &Entry) -> Result<(), AllocError>
    ensures { OnOk result (bytes.new.items ≡ bytes_after bytes.old.items entry.now) }
{
    if let (Event::Write(at, piece), true) = (&entry.event, entry.done) {
        let at = (*at as usize).min(bytes.len());
        contents::put(bytes, at, piece.bytes())?;
    }
    Ok(())
}

// Tears the ranges of all calls.
fn tear_all(
    alloc: Global,
    bytes: &mut Vec<u8>,
    calls: &[Entry],
    fill: Option<u8>,
) -> Result<(), AllocError>
    ensures { OnOk result (bytes.new.items ≡ fold (torn_by fill) bytes.old.items calls.now) }
{
    for entry in calls {
        tear(alloc, bytes, &entry.event, fill)?;
    }
    Ok(())
}
