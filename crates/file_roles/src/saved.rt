// Saved is written beside the file of its name.
ghost use Rattle.std.specs.Prelude.{◌≡◌, ◌≢◌, ℕ, List, [], Some, IsTrue, IfOk, OnOk, string_bytes};
ghost use Rattle.file_system.specs.World.{Entry};
ghost use Rattle.file_saving.specs.Saving.{IsUnfinished, KeepsName, KeepsPut, Use, use_at};
ghost use Rattle.file_roles.specs.Open.{IsElse};
ghost use Rattle.file_roles.specs.Share.{IsFree, IsOf};

use crate::table::{Beside, Table};
use file_saving::{Saving, begin, discard};
use file_system::{Found, Kind, Making, Refusal, System, Way};
use loom_host::Role;
use std::alloc::Global;

// The file of this path, where there is one. It may be written, or this fails.
fn find_old<S: System>(system: &mut S, path: &str) -> Result<Option<Found>, Refusal>
    ensures keeps { IsTrue S.tells → (e : Entry) → KeepsName e (S.moments system.old) (S.moments system.new) }
    ensures puts { IsTrue S.tells → KeepsPut (S.moments system.old) (S.moments system.new) }
    ensures named { IsTrue S.tells → (i : ℕ) → (S.moments system.old).now.names (S.entry path.now) ≡ Some i → IfOk result (λ found. IsOf i found) }
{
    match system.look(path, false) {
        Ok(found) => {
            let old = system.open(path, Way::Stream, Making::Old, 0)?;
            system.close(old.descriptor);
            Ok(Some(found))
        }
        Err(Refusal::Missing) => Ok(None),
        Err(refusal) => Err(refusal),
    }
}

// What the file of this path may be used for, where there is one that Saved may have.
fn old_mode<S: System>(
    system: &mut S,
    path: &str,
    table: &Table,
    beside: &Beside,
    shares: bool,
) -> Result<Option<u32>, Refusal>
    ensures keeps { IsTrue S.tells → (e : Entry) → KeepsName e (S.moments system.old) (S.moments system.new) }
    ensures puts { IsTrue S.tells → KeepsPut (S.moments system.old) (S.moments system.new) }
    ensures free { IsTrue S.tells → (i : ℕ) → (S.moments system.old).now.names (S.entry path.now) ≡ Some i → OnOk result (IsFree table.now beside.now.kept shares i) }
{
    let Some(found) = find_old(system, path)? else {
        return Ok(None);
    };
    if found.kind != Kind::Regular || !table.may_have(Role::Saved, &found, beside, shares) {
        return Err(Refusal::Failed);
    }
    Ok(Some(found.mode))
}

// Where another role is written to the same file it is given up.
fn apart<S: System>(system: &mut S, saving: Saving, table: &Table) -> Result<Saving, Refusal>
    ensures keeps { IsTrue S.tells → KeepsName (S.entry (string_bytes saving.path)) (S.moments system.old) (S.moments system.new) }
    ensures puts { IsTrue S.tells → KeepsPut (S.moments system.old) (S.moments system.new) }
    ensures same { IfOk result (λ s. s ≡ saving) }
    ensures still { IsTrue S.tells → OnOk result (S.moments system.new ≡ S.moments system.old) }
    ensures apart { IfOk result (λ s. IsElse table.now s.file) }
{
    if table.is_apart(saving.file) {
        return Ok(saving);
    }
    discard(system, &saving);
    Err(Refusal::Failed)
}

/// Begins to write Saved beside the file of this path, which stays as it is. It goes on only where that file may be replaced.
pub fn begin_saved<S: System>(
    system: &mut S,
    alloc: Global,
    path: &str,
    table: &Table,
    beside: &Beside,
    shares: bool,
) -> Result<Saving, Refusal>
    ensures keeps { IsTrue S.tells → KeepsName (S.entry path.now) (S.moments system.old) (S.moments system.new) }
    ensures puts { IsTrue S.tells → KeepsPut (S.moments system.old) (S.moments system.new) }
    ensures path { IfOk result (λ s. string_bytes s.path ≡ path.now) }
    ensures begun { IsTrue S.tells → IfOk result (λ s. IsUnfinished (S.entry (string_bytes s.part)) s.descriptor s.file [] (S.moments system.new).now) }
    ensures fresh { IsTrue S.tells → (d : ℕ) (u : Use) → use_at d (S.moments system.old).now ≡ Some u → IfOk result (λ s. d ≢ s.descriptor) }
    ensures apart { IfOk result (λ s. IsElse table.now s.file) }
    ensures free { IsTrue S.tells → (i : ℕ) → (S.moments system.old).now.names (S.entry path.now) ≡ Some i → OnOk result (IsFree table.now beside.now.kept shares i) }
{
    let mode = old_mode(system, path, table, beside, shares)?;
    let saving = begin(system, alloc, path, mode)?;
    apart(system, saving, table)
}
