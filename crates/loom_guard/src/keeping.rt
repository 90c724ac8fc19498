// What a leg left is kept, and is what the next leg begins with.
ghost use Rattle.std.specs.Prelude.{◌≡◌, ◌+◌, ◌%◌, ◌<◌, ◌≤◌, IfErr, IfOk, IsTrue, OnOk, Some};
ghost use Rattle.long_names.specs.Heap.{Heap};
ghost use Rattle.long_names.specs.Kept.{kept, no_roots};
ghost use Rattle.loom_host.specs.Work.{IsWorkRead};
ghost use Rattle.loom_host.specs.declared.outside.Role.TheVariants as role;
ghost use Rattle.image_format.specs.Valid.{IsImageHeap};
ghost use Rattle.disk_objects.specs.Calls.{HoldsObjects};
ghost use Rattle.disk_objects.specs.Disk.{disk_room};
ghost use Rattle.disk_objects.specs.Function.{disk_of};
ghost use Rattle.image_writer.specs.Saved as saved;
ghost use Rattle.image_writer.specs.Saved.{IsExact, disk_heap, saved_text};
ghost use Rattle.image_reader.specs.Loaded.{heap_on};
ghost use Rattle.image_memory.specs.Image.{HasEnded, HasImage};
ghost use Rattle.blue_model.specs.declared.limits.TheConstants.{LAST_SERIAL as last_serial};
ghost use Rattle.machine_run.specs.States.{model_state, state_left};
ghost use Rattle.checkpoint.specs.Keeping.{HasEither, IsLast, serial_of};
ghost use Rattle.checkpoint.specs.Vault.{Extends, Throughout, contents_of};
ghost use Rattle.loom_run.specs.Meanings.{meanings};
ghost use Rattle.loom_guard.specs.Turns.{IsKeepRefusal, LeavesChecked, status_by_vault};

use checkpoint::{Point, Vault, VaultFault, keep};
use disk_objects::{DiskObjects, DiskRest};
use image_format::State;
use image_reader::Loaded;
use image_writer::kept_state;
use loom_host::Host;
use loom_run::steps::status_of_disk;
use loom_words::Status;
use std::alloc::Global;

// The answer for a fault of the vault, or of the disk that was to be kept.
fn status_of_vault(fault: VaultFault) -> Status
    ensures { result ≡ status_by_vault fault }
{
    match fault {
        VaultFault::Failed { count } => Status::VaultFault { count },
        VaultFault::Bad { place } => Status::VaultBad { place },
        VaultFault::Disk(fault) => status_of_disk(fault),
        VaultFault::Memory => Status::OutOfMemory,
    }
}

// Keeps what the disk has. What a start on it loads is read first, so that whatever fails behind the checkpoint is a call on the vault.
fn keep_disk<H: Host, V: Vault>(
    alloc: Global,
    disk: &mut DiskObjects<'_, H>,
    vault: &mut V,
    last: Option<Point>,
    next: u32,
    state: &State,
) -> Result<(Loaded, Point), Status>
    requires stands { HoldsObjects H.Host disk.old.host.now disk.old.rest }
    requires exact { IsTrue (H.tells role.Work) → IsExact H.Host disk.old.host.now disk.old.rest next }
    requires last { IsTrue V.tells → IsLast (V.state vault.old) last }
    requires below { serial_of last < last_serial }
    ensures loaded { IfOk result (λ r. (r.0.next ≡ next) × (IsTrue (H.tells role.Work) → r.0.state ≡ saved.kept_state (disk_of H.Host disk.old.host.now disk.old.rest) state.now)) }
    ensures point { IfOk result (λ r. r.1.serial ≡ serial_of last + 1) }
    ensures last { IsTrue V.tells → IfOk result (λ r. IsLast (V.state vault.new) (Some r.1)) }
    ensures stops { IsTrue V.tells → Throughout (V.state vault.old) (V.state vault.new) (HasEither (contents_of (V.state vault.old)) (serial_of last + 1)
        (λ text. IsTrue (H.tells role.Work) → text ≡ saved_text (disk_heap H.Host disk.old.host.now disk.old.rest next) state.now)) }
    ensures left { IsTrue V.tells → IfErr result (LeavesChecked (V.state vault.old) (V.state vault.new)) }
    ensures extends { IsTrue V.tells → Extends (V.state vault.old) (V.state vault.new) }
    ensures read { IsWorkRead H.Host disk.old.host.now disk.new.host.now }
    ensures rest { disk.new.rest ≡ disk.old.rest }
    ensures same_host { disk.new.host.ghost_name ≡ disk.old.host.ghost_name }
    ensures later { V.faults vault.old ≤ V.faults vault.new }
    ensures calm { OnOk result (V.faults vault.new ≡ V.faults vault.old) }
    ensures refused { IfErr result (IsKeepRefusal H.tells (meanings H.Host disk.old.host.now) (meanings H.Host disk.new.host.now) (V.faults vault.old) (V.faults vault.new)) }
{
    let kept = match kept_state(disk, state) {
        Ok(kept) => kept,
        Err(fault) => return Err(status_of_vault(VaultFault::Disk(fault))),
    };
    match keep(alloc, disk, vault, last, next, state) {
        Ok(point) => {
            let loaded = Loaded {
                objects: disk.len(),
                next,
                state: kept,
            };
            Ok((loaded, point))
        }
        Err(fault) => Err(status_of_vault(fault)),
    }
}

/// Keeps what a leg left on the disk, with its next name and this state, as the checkpoint after the last one. The answer is what a start on it loads.
pub(crate) fn keep_point<H: Host, V: Vault>(
    alloc: Global,
    host: &mut H,
    rest: DiskRest,
    vault: &mut V,
    last: Option<Point>,
    next: u32,
    state: &State,
) -> Result<(DiskRest, Loaded, Point), Status>
    requires ended { IsTrue (H.tells role.Work) → (left : Heap) × HasEnded H.Host host.old rest next left × IsImageHeap (kept left no_roots) }
    requires even { next % 2 ≡ 0 }
    requires last { IsTrue V.tells → IsLast (V.state vault.old) last }
    requires below { serial_of last < last_serial }
    ensures image { IfOk result (λ r. HasImage H.Host host.new r.0 r.1) }
    ensures kept { IsTrue (H.tells role.Work) → (left : Heap) → HasEnded H.Host host.old rest next left → IfOk result (λ r. (heap_on H.Host host.new r.0 r.1.next ≡ kept left no_roots)
        × (model_state r.1.state ≡ state_left (kept left no_roots) (model_state state.now))) }
    ensures room { IfOk result (λ r. disk_room r.0 ≡ disk_room rest) }
    ensures point { IfOk result (λ r. r.2.serial ≡ serial_of last + 1) }
    ensures last { IsTrue V.tells → IfOk result (λ r. IsLast (V.state vault.new) (Some r.2)) }
    ensures stops { IsTrue V.tells → Throughout (V.state vault.old) (V.state vault.new) (HasEither (contents_of (V.state vault.old)) (serial_of last + 1)
        (λ text. IsTrue (H.tells role.Work) → text ≡ saved_text (disk_heap H.Host host.old rest next) state.now)) }
    ensures left { IsTrue V.tells → IfErr result (LeavesChecked (V.state vault.old) (V.state vault.new)) }
    ensures extends { IsTrue V.tells → Extends (V.state vault.old) (V.state vault.new) }
    ensures read { IsWorkRead H.Host host.old host.new }
    ensures later { V.faults vault.old ≤ V.faults vault.new }
    ensures calm { OnOk result (V.faults vault.new ≡ V.faults vault.old) }
    ensures refused { IfErr result (IsKeepRefusal H.tells (meanings H.Host host.old) (meanings H.Host host.new) (V.faults vault.old) (V.faults vault.new)) }
{
    let mut disk = DiskObjects::again(host, rest);
    let kept = keep_disk(alloc, &mut disk, vault, last, next, state);
    // by a name of its own, or the proof knows nothing of it any more
    let (host, rest) = disk.apart();
    let _host = host;
    match kept {
        Ok((loaded, point)) => Ok((rest, loaded, point)),
        Err(status) => Err(status),
    }
}
