// Calls on the files of the roles, over any system.
ghost use Rattle.std.specs.Prelude.{◌≡◌, ◌≢◌, ◌<◌, ◌≤◌, ℕ, Some, true, IsTrue, IsOk, IfOk, OnOk, OnErr, length, take};
ghost use Rattle.file_system.specs.Calls.{is_in_order};
ghost use Rattle.file_system.specs.declared.system.Kind.TheVariants.{Link};
ghost use Rattle.file_system.specs.declared.system.Way.TheVariants.{Place, Read};
ghost use Rattle.file_roles.specs.Open.{HasUse, IsOpened, Leaves, Puts, Writes, is_of, not_of, not_through, whatever};
ghost use Rattle.file_roles.specs.Share.{IsNoInput, expected_at};
ghost use Rattle.loom_host.specs.declared.outside.Role.{Role};

use crate::paths::followed;
use crate::table::{Beside, Table};
use file_system::{Found, Kind, Making, Refusal, System, Way};
use loom_host::Role;
use std::alloc::Global;

// What a new file may be used for, but for what the process forbids.
const NEW_MODE: u32 = 0o666;

/// What is open for a role.
#[derive(Clone, Copy)]
pub struct Used {
    pub descriptor: u32,
    pub way: Way,
    pub found: Found,
}

/// A file that is there.
pub fn open_old<S: System>(system: &mut S, path: &str, way: Way) -> Result<Used, Refusal>
    ensures leaves { IsTrue S.tells → Leaves whatever (S.moments system.old) (S.moments system.new) }
    ensures opened { IsTrue S.tells → IfOk result (λ u. IsOpened u (S.moments system.old) (S.moments system.new)) }
    ensures way { IfOk result (λ u. u.way ≡ way) }
    ensures named { IsTrue S.tells → (i : ℕ) → (S.moments system.old).now.names (S.entry path.now) ≡ Some i → ((S.moments system.old).now.files i).kind ≢ Link → IfOk result (λ u. u.found.file ≡ i) }
{
    let opened = system.open(path, way, Making::Old, 0)?;
    Ok(Used {
        descriptor: opened.descriptor,
        way,
        found: opened.found,
    })
}

// A new and empty one.
pub fn open_new<S: System>(system: &mut S, path: &str, way: Way, mode: u32) -> Result<Used, Refusal>
    ensures leaves { IsTrue S.tells → Leaves whatever (S.moments system.old) (S.moments system.new) }
    ensures opened { IsTrue S.tells → IfOk result (λ u. IsOpened u (S.moments system.old) (S.moments system.new)) }
    ensures way { IfOk result (λ u. u.way ≡ way) }
{
    let opened = system.open(path, way, Making::New, mode)?;
    Ok(Used {
        descriptor: opened.descriptor,
        way,
        found: opened.found,
    })
}

pub fn shut<S: System>(system: &mut S, used: &Used)
    ensures { IsTrue S.tells → Leaves (not_through used.now.descriptor) (S.moments system.old) (S.moments system.new) }
{
    system.close(used.descriptor);
}

// The names of the folder that a path lies in are on the disk.
fn settle_name<S: System>(system: &mut S, path: &str) -> Result<(), Refusal>
    ensures { IsTrue S.tells → Leaves whatever (S.moments system.old) (S.moments system.new) }
{
    let folder = system.open_folder(path)?;
    let settled = system.sync(folder);
    system.close(folder);
    settled
}

// What an opening came to, once more was done, which may have failed. Then it is shut.
fn or_shut<S: System>(
    system: &mut S,
    used: Used,
    done: Result<(), Refusal>,
) -> Result<Used, Refusal>
    ensures leaves { IsTrue S.tells → Leaves (not_through used.descriptor) (S.moments system.old) (S.moments system.new) }
    ensures same { IfOk result (λ u. u ≡ used) }
    ensures still { IsTrue S.tells → OnOk result (S.moments system.new ≡ S.moments system.old) }
    ensures done { OnOk result (IsOk done) }
{
    if let Err(refusal) = done {
        shut(system, &used);
        return Err(refusal);
    }
    Ok(used)
}

// A regular file is empty, and that is on the disk. Nothing else can be cut.
fn clear<S: System>(system: &mut S, used: &Used) -> Result<(), Refusal>
    ensures { IsTrue S.tells → HasUse used.now (S.moments system.old).now → Leaves (not_of used.now.found.file) (S.moments system.old) (S.moments system.new) }
{
    if used.found.kind != Kind::Regular {
        return Ok(());
    }
    system.cut(used.descriptor)?;
    settle(system, used)
}

// A new file, whose name is on the disk.
fn create<S: System>(system: &mut S, alloc: Global, name: &str, way: Way) -> Result<Used, Refusal>
    ensures leaves { IsTrue S.tells → Leaves whatever (S.moments system.old) (S.moments system.new) }
    ensures opened { IsTrue S.tells → IfOk result (λ u. IsOpened u (S.moments system.old) (S.moments system.new)) }
    ensures way { IfOk result (λ u. u.way ≡ way) }
{
    let path = followed(system, alloc, name)?;
    let used = open_new(system, path.as_str(), way, NEW_MODE)?;
    let settled = settle_name(system, path.as_str());
    or_shut(system, used, settled)
}

// The file of this name, or a new one.
fn find<S: System>(system: &mut S, alloc: Global, name: &str, way: Way) -> Result<Used, Refusal>
    ensures leaves { IsTrue S.tells → Leaves whatever (S.moments system.old) (S.moments system.new) }
    ensures opened { IsTrue S.tells → IfOk result (λ u. IsOpened u (S.moments system.old) (S.moments system.new)) }
    ensures way { IfOk result (λ u. u.way ≡ way) }
{
    match open_old(system, name, way) {
        Ok(used) => Ok(used),
        Err(Refusal::Missing) => create(system, alloc, name, way),
        Err(refusal) => Err(refusal),
    }
}

// A file that a role may have, empty.
fn empty<S: System>(
    system: &mut S,
    used: &Used,
    role: Role,
    table: &Table,
    beside: &Beside,
) -> Result<(), Refusal>
    ensures leaves { IsTrue S.tells → HasUse used.now (S.moments system.old).now → Leaves (is_of beside.now.saving) (S.moments system.old) (S.moments system.new) }
    ensures apart { (file : ℕ) → beside.now.saving ≡ Some file → OnOk result (used.now.found.file ≢ file) }
    ensures kept { (file : ℕ) → beside.now.kept ≡ Some file → OnOk result (used.now.found.file ≢ file) }
    ensures expected { role ≡ Role.Work → (r : Role) → OnOk result (expected_at beside.now.expected r ≢ Some used.now.found.file) }
    ensures inputs { OnOk result (IsNoInput table.now used.now.found.file) }
{
    if !table.may_have(role, &used.found, beside, false) {
        return Err(Refusal::Failed);
    }
    clear(system, used)
}

/// The file of this name, or a new one, for a role that may have it. It is empty.
pub fn attach<S: System>(
    system: &mut S,
    alloc: Global,
    name: &str,
    way: Way,
    role: Role,
    table: &Table,
    beside: &Beside,
) -> Result<Used, Refusal>
    ensures leaves { IsTrue S.tells → Leaves (is_of beside.now.saving) (S.moments system.old) (S.moments system.new) }
    ensures opened { IsTrue S.tells → IfOk result (λ u. IsOpened u (S.moments system.old) (S.moments system.new)) }
    ensures way { IfOk result (λ u. u.way ≡ way) }
    ensures apart { (file : ℕ) → beside.now.saving ≡ Some file → IfOk result (λ u. u.found.file ≢ file) }
    ensures kept { (file : ℕ) → beside.now.kept ≡ Some file → IfOk result (λ u. u.found.file ≢ file) }
    ensures expected { role ≡ Role.Work → (r : Role) → IfOk result (λ u. expected_at beside.now.expected r ≢ Some u.found.file) }
    ensures inputs { IfOk result (λ u. IsNoInput table.now u.found.file) }
{
    let used = find(system, alloc, name, way)?;
    let emptied = empty(system, &used, role, table, beside);
    or_shut(system, used, emptied)
}

/// The next bytes of a file that is read in order.
pub fn take_some<S: System>(system: &mut S, used: &Used, buf: &mut [u8]) -> Result<usize, Refusal>
    ensures bound { IfOk result (λ n. n ≤ length buf.old) }
    ensures leaves { IsTrue S.tells → used.now.way ≡ Read → HasUse used.now (S.moments system.old).now → Leaves whatever (S.moments system.old) (S.moments system.new) }
{
    system.read(used.descriptor, buf)
}

/// Puts the first bytes of a piece, at least one, to a file that is written in order.
pub fn put<S: System>(system: &mut S, used: &Used, buf: &[u8]) -> Result<usize, Refusal>
    requires some { 0 < length buf.now }
    ensures bound { IfOk result (λ n. n ≤ length buf.now) }
    ensures some { IfOk result (λ n. 0 < n) }
    ensures put { IsTrue S.tells → is_in_order (Some used.now.way) ≡ true → HasUse used.now (S.moments system.old).now
        → IfOk result (λ n. Puts used.now.descriptor used.now.found.file (take n buf.now) (S.moments system.old) (S.moments system.new)) }
    ensures failed { IsTrue S.tells → is_in_order (Some used.now.way) ≡ true → HasUse used.now (S.moments system.old).now
        → OnErr result (Leaves (not_of used.now.found.file) (S.moments system.old) (S.moments system.new)) }
{
    system.append(used.descriptor, buf)
}

/// What was put to a regular file is on the disk. What keeps no bytes has none.
pub fn settle<S: System>(system: &mut S, used: &Used) -> Result<(), Refusal>
    ensures { IsTrue S.tells → HasUse used.now (S.moments system.old).now → Leaves (not_of used.now.found.file) (S.moments system.old) (S.moments system.new) }
{
    if used.found.kind != Kind::Regular {
        return Ok(());
    }
    system.sync(used.descriptor)
}

/// Puts the first bytes of a piece, at least one of a piece that isn't empty.
pub fn put_some<S: System>(system: &mut S, used: &Used, buf: &[u8]) -> Result<usize, Refusal>
    ensures bound { IfOk result (λ n. n ≤ length buf.now) }
    ensures some { 0 < length buf.now → IfOk result (λ n. 0 < n) }
    ensures writes { IsTrue S.tells → is_in_order (Some used.now.way) ≡ true → HasUse used.now (S.moments system.old).now → Writes used.now.descriptor used.now.found.file (S.moments system.old) (S.moments system.new) }
{
    if buf.is_empty() {
        return Ok(0);
    }
    put(system, used, buf)
}

/// The same, and they are on the disk where that is a regular file.
pub fn put_through<S: System>(system: &mut S, used: &Used, buf: &[u8]) -> Result<usize, Refusal>
    ensures bound { IfOk result (λ n. n ≤ length buf.now) }
    ensures some { 0 < length buf.now → IfOk result (λ n. 0 < n) }
    ensures writes { IsTrue S.tells → is_in_order (Some used.now.way) ≡ true → HasUse used.now (S.moments system.old).now → Writes used.now.descriptor used.now.found.file (S.moments system.old) (S.moments system.new) }
{
    let n = put_some(system, used, buf)?;
    settle(system, used)?;
    Ok(n)
}

/// The whole buffer from a place on, with zeros past the end.
pub fn read_whole<S: System>(
    system: &mut S,
    used: &Used,
    place: u64,
    buf: &mut [u8],
) -> Result<(), Refusal>
    ensures { IsTrue S.tells → S.moments system.new ≡ S.moments system.old }
{
    let mut done = 0;
    while done < buf.len() {
        let Some(from) = place.checked_add(done as u64) else {
            return Err(Refusal::Failed);
        };
        let n = system.read_at(used.descriptor, from, &mut buf[done..])?;
        if n == 0 {
            buf[done..].fill(0);
            return Ok(());
        }
        done += n;
    }
    Ok(())
}

/// The whole piece to a place on.
pub fn write_whole<S: System>(
    system: &mut S,
    used: &Used,
    place: u64,
    buf: &[u8],
) -> Result<(), Refusal>
    ensures { IsTrue S.tells → used.now.way ≡ Place → HasUse used.now (S.moments system.old).now → Leaves (not_of used.now.found.file) (S.moments system.old) (S.moments system.new) }
{
    let mut done = 0;
    while done < buf.len() {
        let Some(from) = place.checked_add(done as u64) else {
            return Err(Refusal::Failed);
        };
        done += system.write_at(used.descriptor, from, &buf[done..])?;
    }
    Ok(())
}
