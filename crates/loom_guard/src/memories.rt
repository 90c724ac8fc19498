// One leg of a guarded run over a host and a disk: a memory is made for it, and wound up behind it.
ghost use Rattle.std.specs.Prelude.{◌≡◌, ◌<◌, ◌≤◌, ◌%◌, IfErr, IfOk, IsTrue};
ghost use Rattle.long_names.specs.Heap.{Heap};
ghost use Rattle.long_names.specs.Kept.{kept, no_roots};
ghost use Rattle.loom_host.specs.declared.outside.Role.TheVariants as role;
ghost use Rattle.image_format.specs.Valid.{IsImageHeap};
ghost use Rattle.disk_objects.specs.Disk.{disk_room};
ghost use Rattle.image_reader.specs.Loaded.{heap_on};
ghost use Rattle.image_memory.specs.Image.{HasEnded, HasImage};
ghost use Rattle.blue_model.specs.declared.limits.TheConstants.{LAST_SERIAL as last_serial};
ghost use Rattle.blue_model.specs.Guarded.{Guarded};
ghost use Rattle.blue_model.specs.Logs.{Course};
ghost use Rattle.object_memory.specs.Told.{IsReady};
ghost use Rattle.loom_memory.specs.Memory.{loom_lender, loom_now, loom_rest, loom_told, IsSound};
ghost use Rattle.loom_words.specs.Command.{HasLimits, row_for};
ghost use Rattle.loom_run.specs.Meanings.{LeavesBut, Meanings, meanings};
ghost use Rattle.loom_run.specs.Stages.{Running, roles_at};
ghost use Rattle.loom_run.specs.Steps.{BeginsImage, HasBounds, IsSameFile};
ghost use Rattle.loom_guard.specs.Legs.{FromDisk, FromMemory, Halts, IsCounted, KeepsWhere, LegLeaves};

use crate::legs::{Leg, loom_leg};
use contexts::Cpu;
use disk_objects::{DiskObjects, DiskRest};
use event_file::EventList;
use image_format::State;
use image_memory::begin_memory;
use image_reader::Loaded;
use loom_host::Host;
use loom_memory::{CoreTables, LoomMemory};
use loom_run::steps::wind_up;
use loom_words::{Command, Status};
use machine_run::Observer;
use std::alloc::Global;

// The leg, and then the memory is wound up. The answer has the next name.
fn wound_leg<H: Host, O: Observer>(
    alloc: Global,
    memory: &mut LoomMemory<'_, H>,
    cpu: &mut Cpu,
    first: bool,
    events: &EventList,
    state: &State,
    serial: u64,
    command: &Command<'_>,
    observer: &mut O,
) -> Result<(Leg, u32), Status>
    requires sound { IsSound H.Host memory.old }
    requires ready { IsReady (loom_told H.Host memory.old) }
    requires begins { IsTrue (H.tells role.Work) → (h : Heap) × BeginsImage h state.now (loom_told H.Host memory.old) }
    requires bounds { HasBounds (row_for command.now) (loom_told H.Host memory.old) }
    requires few { cpu.old.ran ≤ command.now.steps }
    ensures leaves { IfOk result (λ r. (left : Heap) × (IsTrue (H.tells role.Work) → HasEnded H.Host (loom_now memory.new) (loom_rest memory.new) r.1 left)
        × (IsTrue (H.tells role.Work) → IsImageHeap (kept left no_roots))
        × ((before : Meanings) (g : Guarded) (c : Course) → FromMemory H.tells (row_for command.now) first events.now serial cpu.old (loom_told H.Host memory.old) state.now before g c
        → LegLeaves H.tells before (meanings H.Host (loom_now memory.new)) (row_for command.now) events.now g serial cpu.new r.0 left c)) }
    ensures even { IfOk result (λ r. r.1 % 2 ≡ 0) }
    ensures counted { IfOk result (λ r. IsCounted command.now.steps r.0) }
    ensures keeps { IfOk result (λ r. KeepsWhere (serial < last_serial) r.0) }
    ensures few { cpu.new.ran ≤ command.now.steps }
    ensures room { command.now.room ≡ disk_room (loom_rest memory.new) }
    ensures file { IsTrue (H.tells role.Work) → IsSameFile (H.roles (loom_now memory.old) role.Work) (H.roles (loom_now memory.new) role.Work) }
    ensures lender { loom_lender memory.new ≡ loom_lender memory.old }
    ensures others { LeavesBut (roles_at Running) (meanings H.Host (loom_now memory.old)) (meanings H.Host (loom_now memory.new)) }
    ensures ends { IfErr result (Halts H.tells (meanings H.Host (loom_now memory.old)) (meanings H.Host (loom_now memory.new)) (row_for command.now) events.now
        (FromMemory H.tells (row_for command.now) first events.now serial cpu.old (loom_told H.Host memory.old) state.now) serial) }
{
    let leg = loom_leg(
        alloc, memory, cpu, first, events, state, serial, command, observer,
    )?;
    let next = wind_up(memory, command, cpu.ran)?;
    Ok((leg, next))
}

/// A leg over the disk of a host. The disk has what the leg begins with, and then what its memory kept. The answer has the name that the next new object takes.
pub(crate) fn run_stretch<H: Host, O: Observer>(
    alloc: Global,
    host: &mut H,
    rest: DiskRest,
    loaded: &Loaded,
    cpu: &mut Cpu,
    first: bool,
    events: &EventList,
    serial: u64,
    command: &Command<'_>,
    observer: &mut O,
) -> Result<(DiskRest, Leg, u32), Status>
    requires limits { HasLimits command.now }
    requires image { HasImage H.Host host.old rest loaded.now }
    requires room { command.now.room ≡ disk_room rest }
    requires few { cpu.old.ran ≤ command.now.steps }
    ensures leaves { IfOk result (λ r. (left : Heap) × (IsTrue (H.tells role.Work) → HasEnded H.Host host.new r.0 r.2 left) × (IsTrue (H.tells role.Work) → IsImageHeap (kept left no_roots))
        × ((before : Meanings) (g : Guarded) (c : Course)
        → FromDisk H.tells (row_for command.now) first events.now serial cpu.old (H.roles host.old role.Transcript).put loaded.now.state (heap_on H.Host host.old rest loaded.now.next) before g c
        → LegLeaves H.tells before (meanings H.Host host.new) (row_for command.now) events.now g serial cpu.new r.1 left c)) }
    ensures even { IfOk result (λ r. r.2 % 2 ≡ 0) }
    ensures counted { IfOk result (λ r. IsCounted command.now.steps r.1) }
    ensures keeps { IfOk result (λ r. KeepsWhere (serial < last_serial) r.1) }
    ensures few { cpu.new.ran ≤ command.now.steps }
    ensures room { IfOk result (λ r. command.now.room ≡ disk_room r.0) }
    ensures file { IsTrue (H.tells role.Work) → IsSameFile (H.roles host.old role.Work) (H.roles host.new role.Work) }
    ensures others { LeavesBut (roles_at Running) (meanings H.Host host.old) (meanings H.Host host.new) }
    ensures ends { IfErr result (Halts H.tells (meanings H.Host host.old) (meanings H.Host host.new) (row_for command.now) events.now
        (FromDisk H.tells (row_for command.now) first events.now serial cpu.old (H.roles host.old role.Transcript).put loaded.now.state (heap_on H.Host host.old rest loaded.now.next)) serial) }
{
    let Ok(tables) = CoreTables::new(alloc, command.core, command.entries) else {
        return Err(Status::OutOfMemory);
    };
    let disk = DiskObjects::again(host, rest);
    let mut memory = begin_memory(disk, loaded, tables, command.core, command.entries);
    let wound = wound_leg(
        alloc,
        &mut memory,
        cpu,
        first,
        events,
        &loaded.state,
        serial,
        command,
        observer,
    );
    // by a name of its own, or the proof knows nothing of it any more
    let (host, rest) = memory.into_disk().apart();
    let _host = host;
    match wound {
        Ok((leg, next)) => Ok((rest, leg, next)),
        Err(status) => Err(status),
    }
}
