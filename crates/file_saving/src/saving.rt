// The file of a name while it is written. It is written beside the file that it is to be, and takes that one's name once it is whole and on the
// disk. Until then the file of that name is as before, and where anything fails it stays so.
ghost use Rattle.std.specs.Prelude.{◌≡◌, ◌≢◌, ◌≤◌, ◌<◌, ◌++◌, [], ℕ, List, Some, IsTrue, IfOk, OnOk, OnErr, length, take, string_bytes};
ghost use Rattle.file_system.specs.World.{Entry, Moments, Throughout, World, all, part_ending};
ghost use Rattle.file_saving.specs.Saving.{IsApart, IsFinished, IsMovedForGood, IsOldOrNew, IsOpenFolder, IsSaved, IsStillOrMoved, IsUnfinished, KeepsName, KeepsPut, KeepsPutBut, LeavesName, Use, use_at};

use file_system::{Kind, Making, Refusal, System, Way};
use std::alloc::{AllocError, Global};

// What the name of a file ends with while it is written.
const PART: &str = ".part";

// What a file without an old one may be used for, but for what the process forbids.
const NEW_MODE: u32 = 0o666;

/// A file that isn't finished: the path that it is to have, the one that it is written under, its descriptor and its number.
#[derive(Drop)]
pub struct Saving {
    pub path: String,
    pub part: String,
    pub descriptor: u32,
    pub file: u128,
    ghost beside: { string_bytes part ≡ string_bytes path ++ part_ending },
}

fn part_of(alloc: Global, name: &str) -> Result<String, AllocError>
    ensures { IfOk result (λ s. string_bytes s ≡ name.now ++ part_ending) }
{
    let mut part = String::from_str(alloc, name)?;
    part.push_str(PART)?;
    Ok(part)
}

// Removes what a run that was cut off left beside a name. Whatever else stands there is left, and the call fails.
fn clear<S: System>(system: &mut S, part: &str) -> Result<(), Refusal>
    ensures keeps { IsTrue S.tells → (e : Entry) → e ≢ S.entry part.now → KeepsName e (S.moments system.old) (S.moments system.new) }
    ensures puts { IsTrue S.tells → KeepsPut (S.moments system.old) (S.moments system.new) }
{
    match system.look(part, false) {
        Ok(found) => {
            if found.kind != Kind::Regular {
                return Err(Refusal::Failed);
            }
            system.remove(part)
        }
        Err(Refusal::Missing) => Ok(()),
        Err(refusal) => Err(refusal),
    }
}

// Begins to write beside a name.
fn open_part<S: System>(
    system: &mut S,
    path: String,
    part: String,
    mode: u32,
) -> Result<Saving, Refusal>
    requires beside { string_bytes part ≡ string_bytes path ++ part_ending }
    ensures keeps { IsTrue S.tells → (e : Entry) → e ≢ S.entry (string_bytes part) → KeepsName e (S.moments system.old) (S.moments system.new) }
    ensures path { IfOk result (λ s. string_bytes s.path ≡ string_bytes path) }
    ensures part { IfOk result (λ s. string_bytes s.part ≡ string_bytes part) }
    ensures begun { IsTrue S.tells → IfOk result (λ s. IsUnfinished (S.entry (string_bytes part)) s.descriptor s.file [] (S.moments system.new).now) }
    ensures fresh { IsTrue S.tells → (d : ℕ) (u : Use) → use_at d (S.moments system.old).now ≡ Some u → IfOk result (λ s. d ≢ s.descriptor) }
    ensures puts { IsTrue S.tells → KeepsPut (S.moments system.old) (S.moments system.new) }
{
    let opened = system.open(part.as_str(), Way::Append, Making::New, mode)?;
    Ok(Saving {
        path,
        part,
        descriptor: opened.descriptor,
        file: opened.found.file,
    })
}

// What was written is on the disk, and is what stands under its own name.
fn settle<S: System>(system: &mut S, saving: &Saving) -> Result<(), Refusal>
    ensures keeps { IsTrue S.tells → (bytes : List ℕ) → IsUnfinished (S.entry (string_bytes saving.now.part)) saving.now.descriptor saving.now.file bytes (S.moments system.old).now
        → (e : Entry) → e ≢ S.entry (string_bytes saving.now.part) → KeepsName e (S.moments system.old) (S.moments system.new) }
    ensures finished { IsTrue S.tells → (bytes : List ℕ) → IsUnfinished (S.entry (string_bytes saving.now.part)) saving.now.descriptor saving.now.file bytes (S.moments system.old).now
        → OnOk result (IsFinished (S.entry (string_bytes saving.now.part)) saving.now.file bytes (S.moments system.new).now) }
    ensures puts { IsTrue S.tells → (bytes : List ℕ) → IsUnfinished (S.entry (string_bytes saving.now.part)) saving.now.descriptor saving.now.file bytes (S.moments system.old).now
        → KeepsPut (S.moments system.old) (S.moments system.new) }
{
    system.sync(saving.descriptor)?;
    let found = system.look(saving.part.as_str(), false)?;
    if found.file != saving.file {
        return Err(Refusal::Failed);
    }
    system.close(saving.descriptor);
    Ok(())
}

// The file takes its name, and the folder is on the disk too.
fn put_name<S: System>(system: &mut S, saving: &Saving, folder: u32) -> Result<(), Refusal>
    ensures moves { IsTrue S.tells → (bytes : List ℕ) → IsFinished (S.entry (string_bytes saving.now.part)) saving.now.file bytes (S.moments system.old).now
        → IsOpenFolder folder (S.entry (string_bytes saving.now.path)).folder (S.moments system.old).now
        → Throughout (IsStillOrMoved (S.entry (string_bytes saving.now.path)) saving.now.file bytes (S.moments system.old).now) (all (S.moments system.old)) (all (S.moments system.new)) }
    ensures moved { IsTrue S.tells → (bytes : List ℕ) → IsFinished (S.entry (string_bytes saving.now.part)) saving.now.file bytes (S.moments system.old).now
        → IsOpenFolder folder (S.entry (string_bytes saving.now.path)).folder (S.moments system.old).now
        → OnOk result (IsMovedForGood (S.entry (string_bytes saving.now.path)) saving.now.file bytes (S.moments system.old).now (S.moments system.new).now) }
    ensures puts { IsTrue S.tells → (bytes : List ℕ) → IsFinished (S.entry (string_bytes saving.now.part)) saving.now.file bytes (S.moments system.old).now
        → IsOpenFolder folder (S.entry (string_bytes saving.now.path)).folder (S.moments system.old).now → KeepsPut (S.moments system.old) (S.moments system.new) }
{
    system.rename(saving.part.as_str(), saving.path.as_str())?;
    system.sync(folder)
}

// The folder is opened first, so that nothing is renamed where that fails.
fn take_name<S: System>(system: &mut S, saving: &Saving) -> Result<(), Refusal>
    ensures moves { IsTrue S.tells → (bytes : List ℕ) → IsFinished (S.entry (string_bytes saving.now.part)) saving.now.file bytes (S.moments system.old).now
        → Throughout (IsStillOrMoved (S.entry (string_bytes saving.now.path)) saving.now.file bytes (S.moments system.old).now) (all (S.moments system.old)) (all (S.moments system.new)) }
    ensures moved { IsTrue S.tells → (bytes : List ℕ) → IsFinished (S.entry (string_bytes saving.now.part)) saving.now.file bytes (S.moments system.old).now
        → OnOk result (IsMovedForGood (S.entry (string_bytes saving.now.path)) saving.now.file bytes (S.moments system.old).now (S.moments system.new).now) }
    ensures puts { IsTrue S.tells → (bytes : List ℕ) → IsFinished (S.entry (string_bytes saving.now.part)) saving.now.file bytes (S.moments system.old).now
        → KeepsPut (S.moments system.old) (S.moments system.new) }
{
    let folder = system.open_folder(saving.path.as_str())?;
    let named = put_name(system, saving, folder);
    system.close(folder);
    named
}

// Removes what was written, unless another run has put its own there. Nothing more can be done where that fails.
fn remove_part<S: System>(system: &mut S, saving: &Saving)
    ensures untouched { IsTrue S.tells → (e : Entry) → IsApart e (S.entry (string_bytes saving.now.part)) saving.now.file (S.moments system.old).now → LeavesName e (S.moments system.old) (S.moments system.new) }
    ensures puts { IsTrue S.tells → KeepsPut (S.moments system.old) (S.moments system.new) }
{
    if let Ok(found) = system.look(saving.part.as_str(), false) {
        if found.file == saving.file {
            let _ = system.remove(saving.part.as_str());
        }
    }
}

/// Gives up an unfinished file, and removes it, unless another run has put its own in its place. Each name that doesn't lead to it stays.
pub fn discard<S: System>(system: &mut S, saving: &Saving)
    ensures untouched { IsTrue S.tells → (e : Entry) → IsApart e (S.entry (string_bytes saving.now.part)) saving.now.file (S.moments system.old).now → LeavesName e (S.moments system.old) (S.moments system.new) }
    ensures puts { IsTrue S.tells → KeepsPut (S.moments system.old) (S.moments system.new) }
{
    system.close(saving.descriptor);
    remove_part(system, saving);
}

/// Gives up an unfinished file before another is begun for this name, unless the name leads to the unfinished one itself: then it fails, and all
/// stays. So the name leads where it led.
pub fn give_up_for<S: System>(system: &mut S, saving: &Saving, name: &str) -> Result<(), Refusal>
    ensures untouched { IsTrue S.tells → LeavesName (S.entry name.now) (S.moments system.old) (S.moments system.new) }
    ensures failed { IsTrue S.tells → OnErr result (S.moments system.new ≡ S.moments system.old) }
    ensures puts { IsTrue S.tells → KeepsPut (S.moments system.old) (S.moments system.new) }
{
    match system.look(name, false) {
        Ok(other) => {
            if other.file == saving.file {
                return Err(Refusal::Failed);
            }
        }
        Err(Refusal::Missing) => {}
        Err(refusal) => return Err(refusal),
    }
    discard(system, saving);
    Ok(())
}

/// Begins a file beside the one of this name, which stays as it is. `mode` is what the new file may be used for, where there is an old one.
pub fn begin<S: System>(
    system: &mut S,
    alloc: Global,
    name: &str,
    mode: Option<u32>,
) -> Result<Saving, Refusal>
    ensures keeps { IsTrue S.tells → KeepsName (S.entry name.now) (S.moments system.old) (S.moments system.new) }
    ensures path { IfOk result (λ s. string_bytes s.path ≡ name.now) }
    ensures begun { IsTrue S.tells → IfOk result (λ s. IsUnfinished (S.entry (string_bytes s.part)) s.descriptor s.file [] (S.moments system.new).now) }
    ensures fresh { IsTrue S.tells → (d : ℕ) (u : Use) → use_at d (S.moments system.old).now ≡ Some u → IfOk result (λ s. d ≢ s.descriptor) }
    ensures puts { IsTrue S.tells → KeepsPut (S.moments system.old) (S.moments system.new) }
{
    let Ok(path) = String::from_str(alloc, name) else {
        return Err(Refusal::Failed);
    };
    let Ok(part) = part_of(alloc, name) else {
        return Err(Refusal::Failed);
    };
    clear(system, part.as_str())?;
    let saving = open_part(system, path, part, mode.unwrap_or(NEW_MODE))?;
    permitted(system, saving, mode)
}

// The new file may be used for what the old one might, whatever the process forbids. Else it is given up.
fn permitted<S: System>(
    system: &mut S,
    saving: Saving,
    mode: Option<u32>,
) -> Result<Saving, Refusal>
    ensures keeps { IsTrue S.tells → (e : Entry) → IsApart e (S.entry (string_bytes saving.part)) saving.file (S.moments system.old).now → KeepsName e (S.moments system.old) (S.moments system.new) }
    ensures same { IfOk result (λ s. s ≡ saving) }
    ensures still { IsTrue S.tells → OnOk result (S.moments system.new ≡ S.moments system.old) }
    ensures puts { IsTrue S.tells → KeepsPut (S.moments system.old) (S.moments system.new) }
{
    let Some(mode) = mode else {
        return Ok(saving);
    };
    match system.permit(saving.descriptor, mode) {
        Ok(()) => Ok(saving),
        Err(refusal) => {
            discard(system, &saving);
            Err(refusal)
        }
    }
}

/// Puts the first bytes of a piece to it, at least one.
pub fn write<S: System>(system: &mut S, saving: &Saving, buf: &[u8]) -> Result<usize, Refusal>
    requires some { 0 < length buf.now }
    ensures bound { IfOk result (λ n. n ≤ length buf.now) }
    ensures some { IfOk result (λ n. 0 < n) }
    ensures keeps { IsTrue S.tells → (bytes : List ℕ) → IsUnfinished (S.entry (string_bytes saving.now.part)) saving.now.descriptor saving.now.file bytes (S.moments system.old).now
        → (e : Entry) → e ≢ S.entry (string_bytes saving.now.part) → KeepsName e (S.moments system.old) (S.moments system.new) }
    ensures put { IsTrue S.tells → (bytes : List ℕ) → IsUnfinished (S.entry (string_bytes saving.now.part)) saving.now.descriptor saving.now.file bytes (S.moments system.old).now
        → IfOk result (λ n. IsUnfinished (S.entry (string_bytes saving.now.part)) saving.now.descriptor saving.now.file (bytes ++ take n buf.now) (S.moments system.new).now) }
    ensures puts { IsTrue S.tells → (bytes : List ℕ) → IsUnfinished (S.entry (string_bytes saving.now.part)) saving.now.descriptor saving.now.file bytes (S.moments system.old).now
        → OnErr result (KeepsPut (S.moments system.old) (S.moments system.new)) }
    ensures others { IsTrue S.tells → (bytes : List ℕ) → IsUnfinished (S.entry (string_bytes saving.now.part)) saving.now.descriptor saving.now.file bytes (S.moments system.old).now
        → OnOk result (KeepsPutBut saving.now.descriptor (S.moments system.old) (S.moments system.new)) }
{
    system.append(saving.descriptor, buf)
}

/// Ends it: what was written is on the disk, and has the name. Where that failed, the name leads to the old file, or to the new one, whole.
pub fn finish<S: System>(system: &mut S, saving: Saving) -> Result<(), Refusal>
    ensures moves { IsTrue S.tells → (bytes : List ℕ) → IsUnfinished (S.entry (string_bytes saving.part)) saving.descriptor saving.file bytes (S.moments system.old).now
        → Throughout (IsStillOrMoved (S.entry (string_bytes saving.path)) saving.file bytes (S.moments system.old).now) (all (S.moments system.old)) (all (S.moments system.new)) }
    ensures moved { IsTrue S.tells → (bytes : List ℕ) → IsUnfinished (S.entry (string_bytes saving.part)) saving.descriptor saving.file bytes (S.moments system.old).now
        → OnOk result (IsMovedForGood (S.entry (string_bytes saving.path)) saving.file bytes (S.moments system.old).now (S.moments system.new).now) }
    ensures puts { IsTrue S.tells → (bytes : List ℕ) → IsUnfinished (S.entry (string_bytes saving.part)) saving.descriptor saving.file bytes (S.moments system.old).now
        → KeepsPut (S.moments system.old) (S.moments system.new) }
{
    if settle(system, &saving).is_err() {
        discard(system, &saving);
        return Err(Refusal::Failed);
    }
    if take_name(system, &saving).is_err() {
        remove_part(system, &saving);
        return Err(Refusal::Failed);
    }
    Ok(())
}

// Puts a whole piece.
fn write_all<S: System>(system: &mut S, saving: &Saving, buf: &[u8]) -> Result<(), Refusal>
    ensures keeps { IsTrue S.tells → (bytes : List ℕ) → IsUnfinished (S.entry (string_bytes saving.now.part)) saving.now.descriptor saving.now.file bytes (S.moments system.old).now
        → KeepsName (S.entry (string_bytes saving.now.path)) (S.moments system.old) (S.moments system.new) }
    ensures put { IsTrue S.tells → (bytes : List ℕ) → IsUnfinished (S.entry (string_bytes saving.now.part)) saving.now.descriptor saving.now.file bytes (S.moments system.old).now
        → OnOk result (IsUnfinished (S.entry (string_bytes saving.now.part)) saving.now.descriptor saving.now.file (bytes ++ buf.now) (S.moments system.new).now) }
{
    let mut done = 0;
    while done < buf.len() {
        done += write(system, saving, &buf[done..])?;
    }
    Ok(())
}

/// Saves a piece under a name. At each moment the name leads to the old file, or to the whole new one, also where it fails; after a loss of power
/// too, where the old one was on the disk. Where it answers Ok the new one is.
pub fn save<S: System>(
    system: &mut S,
    alloc: Global,
    name: &str,
    bytes: &[u8],
) -> Result<(), Refusal>
    ensures old_or_new { IsTrue S.tells → Throughout (IsOldOrNew (S.entry name.now) (S.moments system.old).now bytes.now) (all (S.moments system.old)) (all (S.moments system.new)) }
    ensures saved { IsTrue S.tells → OnOk result (IsSaved (S.entry name.now) bytes.now (S.moments system.new).now) }
{
    let saving = begin(system, alloc, name, None)?;
    if let Err(refusal) = write_all(system, &saving, bytes) {
        discard(system, &saving);
        return Err(refusal);
    }
    finish(system, saving)
}
