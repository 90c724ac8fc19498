// A guarded run, leg by leg, with its checkpoints.
ghost use Rattle.std.specs.Prelude.{◌≡◌, ◌≤◌, ℕ, [], IfErr, IfOk, IsTrue, OnOk, false};
ghost use Rattle.long_names.specs.Heap.{Heap};
ghost use Rattle.loom_host.specs.declared.outside.Role.TheVariants as role;
ghost use Rattle.disk_objects.specs.Disk.{disk_room};
ghost use Rattle.image_reader.specs.Loaded.{heap_on};
ghost use Rattle.image_memory.specs.Image.{HasEnded, HasImage};
ghost use Rattle.blue_model.specs.Endings.{HasCounted};
ghost use Rattle.blue_model.specs.Guarded.{Guarded};
ghost use Rattle.blue_model.specs.Logs.{Course};
ghost use Rattle.contexts.specs.Keeping.{is_kept};
ghost use Rattle.machine_run.specs.States.{model_state};
ghost use Rattle.checkpoint.specs.History.{Keeps};
ghost use Rattle.checkpoint.specs.Keeping as keeping;
ghost use Rattle.checkpoint.specs.Keeping.{IsLast};
ghost use Rattle.checkpoint.specs.Vault.{VaultState};
ghost use Rattle.guarded_run.specs.Course.{guarded_course};
ghost use Rattle.guarded_run.specs.Legs.{guarded_first};
ghost use Rattle.loom_words.specs.Command.{HasLimits, row_for};
ghost use Rattle.loom_run.specs.Meanings.{LeavesBut, Meanings, meanings};
ghost use Rattle.loom_run.specs.Stages.{Running, roles_at};
ghost use Rattle.loom_run.specs.Steps.{CameThrough, IsSameFile};
ghost use Rattle.loom_guard.specs.Checkpoints.{IsCheckpoint};
ghost use Rattle.loom_guard.specs.Legs.{FromDisk};
ghost use Rattle.loom_guard.specs.Steps.{LegsKeep, LegsStop};
ghost use Rattle.loom_guard.specs.Turns.{IsKeptImage, KeptHalts, TurnKeeps, TurnLeaves};
ghost use Rattle.loom_guard.specs.Vaults.{KeepsLast};

use crate::keeping::keep_point;
use crate::legs::Leg;
use crate::memories::run_stretch;
use checkpoint::{Point, Vault};
use contexts::Cpu;
use disk_objects::DiskRest;
use event_file::EventList;
use image_reader::Loaded;
use loom_host::Host;
use loom_run::steps::Ended;
use loom_words::{Command, Status};
use machine_run::Observer;
use std::alloc::Global;

/// What a turn came to: a leg, and the checkpoint behind it.
#[derive(Drop)]
pub(crate) enum Turn {
    /// The machine was kept; the disk has what the next leg begins with.
    Kept(DiskRest, Loaded, Point),
    /// The run went through; the disk has what it left.
    Ended(DiskRest, Ended),
}

// The serial of the last checkpoint, 0 for none.
fn serial_of(last: Option<Point>) -> u64
    ensures { result ≡ keeping.serial_of last }
{
    match last {
        Some(point) => point.serial,
        None => 0,
    }
}

// A leg, and a checkpoint where the machine is to be kept.
fn take_turn<H: Host, V: Vault, O: Observer>(
    alloc: Global,
    host: &mut H,
    rest: DiskRest,
    loaded: &Loaded,
    cpu: &mut Cpu,
    first: bool,
    events: &EventList,
    vault: &mut V,
    last: Option<Point>,
    command: &Command<'_>,
    observer: &mut O,
) -> Result<Turn, Status>
    requires limits { HasLimits command.now }
    requires image { HasImage H.Host host.old rest loaded.now }
    requires room { command.now.room ≡ disk_room rest }
    requires few { cpu.old.ran ≤ command.now.steps }
    requires last { IsTrue V.tells → IsLast (V.state vault.old) last }
    ensures leaves { IfOk result (TurnLeaves H.Host host.new (row_for command.now) events.now (keeping.serial_of last) cpu.new
        (FromDisk H.tells (row_for command.now) first events.now (keeping.serial_of last) cpu.old (H.roles host.old role.Transcript).put loaded.now.state (heap_on H.Host host.old rest loaded.now.next))) }
    ensures few { cpu.new.ran ≤ command.now.steps }
    ensures vault { IsTrue V.tells → (began : VaultState) (before : Meanings) (g : Guarded) (c : Course)
        → (IsTrue (H.tells role.Work) → FromDisk H.tells (row_for command.now) first events.now (keeping.serial_of last) cpu.old (H.roles host.old role.Transcript).put loaded.now.state (heap_on H.Host host.old rest loaded.now.next) before g c)
        → Keeps began (V.state vault.old) (keeping.serial_of last) (IsKeptImage (H.tells role.Work) events.now command.now.steps g)
        → TurnKeeps began (V.state vault.new) last (IsKeptImage (H.tells role.Work) events.now command.now.steps g) result }
    ensures file { IsTrue (H.tells role.Work) → IsSameFile (H.roles host.old role.Work) (H.roles host.new role.Work) }
    ensures others { LeavesBut (roles_at Running) (meanings H.Host host.old) (meanings H.Host host.new) }
    ensures later { V.faults vault.old ≤ V.faults vault.new }
    ensures calm { OnOk result (V.faults vault.new ≡ V.faults vault.old) }
    ensures ends { IfErr result (KeptHalts H.tells (meanings H.Host host.old) (meanings H.Host host.new) (V.faults vault.old) (V.faults vault.new) (row_for command.now) events.now
        (FromDisk H.tells (row_for command.now) first events.now (keeping.serial_of last) cpu.old (H.roles host.old role.Transcript).put loaded.now.state (heap_on H.Host host.old rest loaded.now.next)) (keeping.serial_of last)) }
{
    let (rest, leg, next) = run_stretch(
        alloc,
        host,
        rest,
        loaded,
        cpu,
        first,
        events,
        serial_of(last),
        command,
        observer,
    )?;
    match leg {
        Leg::Kept(state) => {
            let (rest, loaded, point) = keep_point(alloc, host, rest, vault, last, next, &state)?;
            Ok(Turn::Kept(rest, loaded, point))
        }
        Leg::Ended(finished) => Ok(Turn::Ended(rest, Ended { finished, next })),
    }
}

/// Runs the machine under an event list, leg by leg: over the disk's image to the first checkpoint, which is kept in the vault, and from what was kept to the
/// next, and so on to the end of so many bytecodes, or to the one that ends the machine. `last` is the vault's checkpoint, as it is found.
pub(crate) fn run_legs<H: Host, V: Vault, O: Observer>(
    alloc: Global,
    host: &mut H,
    rest: DiskRest,
    loaded: &Loaded,
    events: &EventList,
    vault: &mut V,
    last: Option<Point>,
    command: &Command<'_>,
    observer: &mut O,
) -> Result<(DiskRest, Ended), Status>
    requires limits { HasLimits command.now }
    requires image { HasImage H.Host host.old rest loaded.now }
    requires room { command.now.room ≡ disk_room rest }
    requires last { IsTrue V.tells → IsLast (V.state vault.old) last }
    ensures through { IfOk result (λ r. (left : Heap) × (IsTrue (H.tells role.Work) → HasEnded H.Host host.new r.0 r.1.next left)
        × (IsTrue (H.tells role.Work) → CameThrough H.tells (meanings H.Host host.old) (meanings H.Host host.new) (row_for command.now) r.1.finished left
        (guarded_course events.now command.now.steps (keeping.serial_of last) (model_state loaded.now.state) (heap_on H.Host host.old rest loaded.now.next)))) }
    ensures counted { IfOk result (λ r. HasCounted r.1.finished.end r.1.finished.ran command.now.steps) }
    ensures parked { IfOk result (λ r. is_kept r.1.finished.end ≡ false) }
    ensures legs { (n : ℕ) × (IsTrue V.tells → Keeps (V.state vault.old) (V.state vault.new) n (λ serial image. IsTrue (H.tells role.Work)
        → IsCheckpoint events.now command.now.steps (guarded_first (keeping.serial_of last) [] (model_state loaded.now.state) (heap_on H.Host host.old rest loaded.now.next)) serial image))
        × OnOk result (LegsKeep (H.tells role.Work) V.tells (V.state vault.new) events.now command.now.steps (guarded_first (keeping.serial_of last) [] (model_state loaded.now.state) (heap_on H.Host host.old rest loaded.now.next)) n)
        × IfErr result (λ status. (IsTrue V.tells → KeepsLast (V.state vault.new) n status)
        × LegsStop H.tells (meanings H.Host host.old) (meanings H.Host host.new) (V.faults vault.old) (V.faults vault.new) (row_for command.now) events.now
        (guarded_first (keeping.serial_of last) [] (model_state loaded.now.state) (heap_on H.Host host.old rest loaded.now.next))
        (guarded_course events.now command.now.steps (keeping.serial_of last) (model_state loaded.now.state) (heap_on H.Host host.old rest loaded.now.next)) n status) }
    ensures file { IsTrue (H.tells role.Work) → IsSameFile (H.roles host.old role.Work) (H.roles host.new role.Work) }
    ensures others { LeavesBut (roles_at Running) (meanings H.Host host.old) (meanings H.Host host.new) }
    ensures vault_later { V.faults vault.old ≤ V.faults vault.new }
    ensures calm { OnOk result (V.faults vault.new ≡ V.faults vault.old) }
{
    let mut cpu = Cpu::at_rest();
    let mut disk = rest;
    let mut image = *loaded;
    let mut kept = last;
    let mut first = true;
    'turns: loop {
        match take_turn(
            alloc, host, disk, &image, &mut cpu, first, events, vault, kept, command, observer,
        ) {
            Ok(Turn::Kept(rest, loaded, point)) => {
                disk = rest;
                image = loaded;
                kept = Some(point);
                first = false;
            }
            Ok(Turn::Ended(rest, ended)) => return Ok((rest, ended)),
            Err(status) => return Err(status),
        }
    }
}
