// Saving a disk.
ghost use Rattle.std.specs.Prelude.{◌≡◌, ◌++◌, ℕ, List, IsTrue, IfOk, IfErr, All};
ghost use Rattle.std.specs.FinMap as map;
ghost use Rattle.std.specs.List.{flat_map};
ghost use Rattle.long_names.specs.Heap.{Heap, Has};
ghost use Rattle.loom_host.specs.declared.outside.Role.{Role};
ghost use Rattle.disk_objects.specs.Calls.{HoldsObjects};
ghost use Rattle.image_format.specs.Heads.{opening_text, state_text};
ghost use Rattle.image_format.specs.declared.opening.TheConstants.{STATE_VERSION};
ghost use Rattle.disk_objects.specs.Disk.{IsDisk, Objects, disk_held};
ghost use Rattle.loom_host.specs.Work.{IsWorkRead, work_of};
ghost use Rattle.image_writer.specs.Inside.{Gathers, IsHeapOf, opening_of};
ghost use Rattle.image_writer.specs.Puts.{IsSaveFault, Puts, name_text};
ghost use Rattle.image_writer.specs.Saved.{IsExact, disk_heap, saved_text};

use crate::fault::SaveFault;
use crate::gathered::Gathered;
use crate::pieces::{flush, kept_state, put, put_record};
use disk_objects::{DiskObjects, NamesFault};
use image_format::{Opening, STATE_VERSION, State};
use long_names::NameList;
use loom_host::{Host, Role};
use object_record::RecordBuf;
use std::alloc::Global;

/// Puts the head of version 2.
fn put_head<H: Host>(
    disk: &mut DiskObjects<'_, H>,
    gathered: &mut Gathered,
    next: u32,
    state: &State,
) -> Result<(), SaveFault>
    ensures gathers { Gathers H.Host disk.old.host.now disk.new.host.now gathered.old gathered.new (opening_text (opening_of (disk_held disk.old.rest) next) ++ state_text state.now) result }
    ensures rest { disk.new.rest ≡ disk.old.rest }
    ensures same_host { disk.new.host.ghost_name ≡ disk.old.host.ghost_name }
{
    let opening = Opening {
        version: STATE_VERSION,
        objects: disk.len(),
        next,
    };
    put(disk, gathered, &opening.bytes())?;
    put(disk, gathered, &state.bytes())
}

/// Puts the records of these names.
fn put_records<H: Host>(
    disk: &mut DiskObjects<'_, H>,
    gathered: &mut Gathered,
    names: &NameList,
    buf: &mut RecordBuf,
) -> Result<(), SaveFault>
    requires stands { HoldsObjects H.Host disk.old.host.now disk.old.rest }
    ensures gathers { (h : Heap) → (IsTrue (H.tells Role.Work) → IsHeapOf H.Host disk.old.host.now disk.old.rest h × All (Has h) names.now)
        → Gathers H.Host disk.old.host.now disk.new.host.now gathered.old gathered.new (flat_map (name_text h) names.now) result }
    ensures rest { disk.new.rest ≡ disk.old.rest }
    ensures same_host { disk.new.host.ghost_name ≡ disk.old.host.ghost_name }
{
    for i in 0..names.len() {
        let name = *names.item(i);
        put_record(disk, gathered, buf, name)?;
    }
    Ok(())
}

/// The names of the disk's objects, rising.
pub fn names_of<H: Host>(
    alloc: Global,
    disk: &mut DiskObjects<'_, H>,
) -> Result<NameList, SaveFault>
    requires stands { HoldsObjects H.Host disk.old.host.now disk.old.rest }
    ensures names { IsTrue (H.tells Role.Work) → (objects : Objects) (pending : List ℕ) →
        IsDisk disk.old.rest (work_of H.Host disk.old.host.now) objects pending → IfOk result (λ names. names ≡ map.keys objects) }
    ensures read { IsWorkRead H.Host disk.old.host.now disk.new.host.now }
    ensures fault { IfErr result (IsSaveFault H.Host disk.old.host.now disk.new.host.now) }
    ensures rest { disk.new.rest ≡ disk.old.rest }
    ensures same_host { disk.new.host.ghost_name ≡ disk.old.host.ghost_name }
{
    match disk.names(alloc) {
        Ok(names) => Ok(names),
        Err(NamesFault::Disk(fault)) => Err(SaveFault::Disk(fault)),
        Err(NamesFault::Memory) => Err(SaveFault::Memory),
    }
}

/// Puts the head of version 2 and the records of these names.
fn put_image<H: Host>(
    disk: &mut DiskObjects<'_, H>,
    next: u32,
    state: &State,
    names: &NameList,
    buf: &mut RecordBuf,
) -> Result<(), SaveFault>
    requires stands { HoldsObjects H.Host disk.old.host.now disk.old.rest }
    ensures puts { (h : Heap) → (IsTrue (H.tells Role.Work) → IsHeapOf H.Host disk.old.host.now disk.old.rest h × All (Has h) names.now)
        → Puts H.Host disk.old.host.now disk.new.host.now ((opening_text (opening_of (disk_held disk.old.rest) next) ++ state_text state.now) ++ flat_map (name_text h) names.now) result }
    ensures rest { disk.new.rest ≡ disk.old.rest }
    ensures same_host { disk.new.host.ghost_name ≡ disk.old.host.ghost_name }
{
    let mut gathered = Gathered::new();
    put_head(disk, &mut gathered, next, state)?;
    put_records(disk, &mut gathered, names, buf)?;
    flush(disk, &mut gathered)
}

/// Puts the image of the disk's objects to Saved, which is attached: of version 2, with their counts, the next name, and this state, of which a name that the disk doesn't hold is left out, and the tick with its timer. After a refusal a prefix of the image was put.
///
/// The condition is that names are below the next name, and that the counts are exact.
pub fn save<H: Host>(
    alloc: Global,
    disk: &mut DiskObjects<'_, H>,
    next: u32,
    state: &State,
) -> Result<(), SaveFault>
    requires stands { HoldsObjects H.Host disk.old.host.now disk.old.rest }
    requires exact { IsTrue (H.tells Role.Work) → IsExact H.Host disk.old.host.now disk.old.rest next }
    ensures saved { Puts H.Host disk.old.host.now disk.new.host.now (saved_text (disk_heap H.Host disk.old.host.now disk.old.rest next) state.now) result }
    ensures rest { disk.new.rest ≡ disk.old.rest }
    ensures same_host { disk.new.host.ghost_name ≡ disk.old.host.ghost_name }
{
    let names = names_of(alloc, disk)?;
    let mut buf = RecordBuf::new(alloc)?;
    let kept = kept_state(disk, state)?;
    put_image(disk, next, &kept, &names, &mut buf)
}
