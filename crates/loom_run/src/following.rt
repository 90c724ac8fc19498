// A run that is traced: each of its bytecodes has a line.
ghost use Rattle.std.specs.Prelude.{◌≡◌, ◌∷◌, [], ℕ, IsTrue, List};
ghost use Rattle.blue_model.specs.declared.event.Line.{Line};
ghost use Rattle.loom_words.specs.Words.{Row};
ghost use Rattle.image_format.specs.declared.opening.State.{State as Words};
ghost use Rattle.loom_host.specs.declared.outside.Role.TheVariants as role;
ghost use Rattle.long_names.specs.Heap.{Heap};
ghost use Rattle.disk_objects.specs.Disk.{disk_room};
ghost use Rattle.image_reader.specs.Loaded.{heap_on};
ghost use Rattle.image_memory.specs.Image.{HasImage};
ghost use Rattle.loom_memory.specs.Memory.{loom_lender, loom_now, loom_outside, loom_told, IsSound};
ghost use Rattle.machine_run.specs.States.{model_state};
ghost use Rattle.object_memory.specs.Told.{IsReady};
ghost use Rattle.loom_words.specs.Command.{HasLimits, row_for};
ghost use Rattle.loom_run.specs.Following as following;
ghost use Rattle.loom_run.specs.Following.{EndsFollowed, Followed, FollowsAs, IsTraceRefusal, TraceEnds, status_along};
ghost use Rattle.loom_run.specs.Parts.{status_by};
ghost use Rattle.machine_run.specs.declared.running.Reason.TheVariants.{ByStop};
ghost use Rattle.loom_run.specs.Meanings.{meanings, Meanings, LeavesBut};
ghost use Rattle.loom_run.specs.Stages.{Listening};
ghost use Rattle.loom_run.specs.Steps.{BeginsImage, Came, HasBounds, IsSameFile};
ghost use Rattle.loom_run.specs.Traces.{OnlyPut};

use crate::making::end_saved;
use crate::reading::read_all;
use crate::status::status_of;
use crate::tracing::{TraceStop, trace};
use crate::writing::open_saved;
use contexts::{Cpu, Stop};
use disk_objects::{DiskObjects, DiskRest};
use event_file::EventList;
use image_format::State;
use image_memory::begin_memory;
use image_reader::Loaded;
use loom_host::{Host, Role};
use loom_memory::{CoreTables, LoomMemory};
use loom_words::{Command, Status};
use machine_run::{Halted, Reason, Step, begin};
use std::alloc::Global;

/// The trace that a command asks for, without its last line: Work, Image and Events are read, as in a run; then Saved is attached, for the lines.
/// The memory is made, and the machine starts and runs. Then Saved is ended. The machine isn't parked, no image is saved, and nothing is drawn.
pub(crate) fn trace_command<H: Host>(alloc: Global, host: &mut H, command: &Command<'_>) -> Status
    requires limits { HasLimits command.now }
    ensures ends { TraceEnds H.tells (meanings H.Host host.old) (meanings H.Host host.new) (row_for command.now) result }
{
    match read_all(alloc, host, command) {
        Ok(read) => trace_under(alloc, host, read.rest, &read.loaded, &read.events, command),
        Err(status) => status,
    }
}

// Saved is attached, the memory is made, and the machine runs. Then Saved is ended.
fn trace_under<H: Host>(
    alloc: Global,
    host: &mut H,
    rest: DiskRest,
    loaded: &Loaded,
    events: &EventList,
    command: &Command<'_>,
) -> Status
    requires limits { HasLimits command.now }
    requires image { HasImage H.Host host.old rest loaded.now }
    requires room { command.now.room ≡ disk_room rest }
    ensures ends { (before : Meanings) → Came H.tells before (meanings H.Host host.old) (row_for command.now) Listening loaded.now.state (heap_on H.Host host.old rest loaded.now.next) events.now
        → TraceEnds H.tells before (meanings H.Host host.new) (row_for command.now) result }
{
    let mut disk = DiskObjects::again(host, rest);
    if let Err(status) = open_saved(&mut disk, command.saved) {
        let _host = disk.into_host();
        return status;
    }
    let Ok(tables) = CoreTables::new(alloc, command.core, command.entries) else {
        let _host = disk.into_host();
        return Status::OutOfMemory;
    };
    let mut memory = begin_memory(disk, loaded, tables, command.core, command.entries);
    let status = trace_machine(&mut memory, events, &loaded.state, command);
    let disk = memory.into_disk();
    let host = disk.into_host();
    end_trace(host, status)
}

// Ends Saved, to which the lines were put. It stays without an end where a line couldn't be put whole; behind a stop nothing is said of a
// failure.
fn end_trace<H: Host>(host: &mut H, status: Status) -> Status
    ensures ends { (before : Meanings) → (row : Row) → (words : Words) → (heap : Heap) → (lines : List Line) → Followed H.tells before (meanings H.Host host.old) row status lines words heap
        → TraceEnds H.tells before (meanings H.Host host.new) row result }
{
    if is_cut(&status) {
        return status;
    }
    let ended = end_saved(host);
    if !is_through(&status) {
        return status;
    }
    match ended {
        Ok(()) => status,
        Err(_) => Status::WriteFault {
            role: Role::Saved,
            count: host.fault_count(Role::Saved),
        },
    }
}

// Whether a line couldn't be put whole.
fn is_cut(status: &Status) -> bool
    ensures { result ≡ following.is_cut status.now }
{
    matches!(
        status,
        Status::WriteFault {
            role: Role::Saved,
            ..
        }
    )
}

// Whether the machine went through.
fn is_through(status: &Status) -> bool
    ensures { result ≡ following.is_through status.now }
{
    matches!(status, Status::Done { .. } | Status::Quit { .. })
}

// Starts with the state, and runs so many bytecodes, with a line for each.
fn trace_machine<H: Host>(
    memory: &mut LoomMemory<'_, H>,
    events: &EventList,
    state: &State,
    command: &Command<'_>,
) -> Status
    requires sound { IsSound H.Host memory.old }
    requires ready { IsReady (loom_told H.Host memory.old) }
    requires begins { IsTrue (H.tells Role.Work) → (h : Heap) × BeginsImage h state.now (loom_told H.Host memory.old) }
    requires bounds { HasBounds (row_for command.now) (loom_told H.Host memory.old) }
    requires steps { HasLimits command.now }
    ensures follows { IsTrue (H.tells Role.Work) → (h : Heap) → BeginsImage h state.now (loom_told H.Host memory.old)
        → FollowsAs (loom_told H.Host memory.old) (loom_told H.Host memory.new) (row_for command.now) result events.now (model_state state.now) h
        (H.tells Role.Saved) (loom_outside H.Host memory.old Role.Saved).role (loom_outside H.Host memory.new Role.Saved).role }
    ensures only { IsTrue (H.tells Role.Saved) → OnlyPut (loom_outside H.Host memory.old Role.Saved).role (loom_outside H.Host memory.new Role.Saved).role }
    ensures file { IsTrue (H.tells Role.Work) → IsSameFile (H.roles (loom_now memory.old) Role.Work) (H.roles (loom_now memory.new) Role.Work) }
    ensures lender { loom_lender memory.new ≡ loom_lender memory.old }
    ensures others { LeavesBut (role.Transcript ∷ role.Work ∷ role.Saved ∷ []) (meanings H.Host (loom_now memory.old)) (meanings H.Host (loom_now memory.new)) }
    ensures answer { IsTraceRefusal H.tells (meanings H.Host (loom_now memory.old)) (meanings H.Host (loom_now memory.new)) (row_for command.now) EndsFollowed result }
{
    let mut cpu = Cpu::at_rest();
    if let Err(stop) = begin(memory, &mut cpu, state) {
        return stopped(stop, cpu.ran);
    }
    match trace(memory, &mut cpu, events, command.steps) {
        Ok(end) => status_of_trace(end, cpu.ran),
        Err(TraceStop::Stop(stop)) => stopped(stop, cpu.ran),
        Err(TraceStop::Write { count }) => Status::WriteFault {
            role: Role::Saved,
            count,
        },
    }
}

// The answer of a machine that stopped after so many bytecodes.
fn stopped(stop: Stop, ran: u32) -> Status
    ensures { result ≡ status_by (ByStop stop) ran }
{
    status_of(&Halted {
        why: Reason::ByStop(stop),
        ran,
    })
}

// The answer of a trace that went through.
fn status_of_trace(end: Step, ran: u32) -> Status
    ensures { result ≡ status_along end ran }
{
    match end {
        Step::Next => Status::Done { ran },
        Step::Quit | Step::Keep => Status::Quit { ran },
    }
}
