// The machine over the memory of two levels: it runs, and then the memory is wound up.
ghost use Rattle.std.specs.Prelude.{◌≡◌, ◌<◌, ◌^◌, ◌≤◌, ◌%◌, false, IsTrue, IfOk, IfErr, OnOk};
ghost use Rattle.long_names.specs.Heap.{Heap};
ghost use Rattle.long_names.specs.Kept.{kept, no_roots};
ghost use Rattle.image_format.specs.Valid.{IsImageHeap};
ghost use Rattle.blue_model.specs.Logs.{course};
ghost use Rattle.blue_model.specs.Endings.{HasCounted};
ghost use Rattle.contexts.specs.Keeping.{is_kept};
ghost use Rattle.object_memory.specs.Contract.{SameBounds};
ghost use Rattle.object_memory.specs.Told.{IsReady};
ghost use Rattle.loom_memory.specs.Memory.{loom_lender, loom_now, loom_rest, loom_told, IsSound};
ghost use Rattle.machine_run.specs.States.{model_state};
ghost use Rattle.image_memory.specs.Image.{HasEnded};
ghost use Rattle.loom_words.specs.Command.{row_for};
ghost use Rattle.loom_run.specs.Meanings.{meanings, LeavesBut};
ghost use Rattle.loom_run.specs.Stages.{Running, Finishing, roles_at};
ghost use Rattle.loom_run.specs.Steps.{BeginsImage, HasBounds, IsRefusal, IsSameFile, RunsAs};

use crate::status::{status_of, status_of_fault};
use event_file::EventList;
use image_format::State;
use loom_host::{Host, Role};
use loom_memory::LoomMemory;
use loom_words::{Command, Status};
use machine_run::{Finished, Observer, whole_run_observed};
use std::alloc::Global;

/// Starts with the state, runs so many bytecodes, parks, and draws the picture.
pub(crate) fn run_machine<H: Host, O: Observer>(
    alloc: Global,
    memory: &mut LoomMemory<'_, H>,
    events: &EventList,
    state: &State,
    command: &Command<'_>,
    observer: &mut O,
) -> Result<Finished, Status>
    requires sound { IsSound H.Host memory.old }
    requires ready { IsReady (loom_told H.Host memory.old) }
    requires begins { IsTrue (H.tells Role.Work) → (h : Heap) × BeginsImage h state.now (loom_told H.Host memory.old) }
    requires bounds { HasBounds (row_for command.now) (loom_told H.Host memory.old) }
    ensures runs { IsTrue (H.tells Role.Work) → (h : Heap) → BeginsImage h state.now (loom_told H.Host memory.old)
        → RunsAs (loom_told H.Host memory.old) (loom_told H.Host memory.new) (row_for command.now) result (course events.now command.now.steps (model_state state.now) h) }
    ensures counted { IfOk result (λ finished. HasCounted finished.end finished.ran command.now.steps) }
    ensures kept { IfOk result (λ finished. is_kept finished.end ≡ false) }
    ensures tick { IfOk result (λ finished. finished.state.tick < 2 ^ 32) }
    ensures sound { OnOk result (IsSound H.Host memory.new) }
    ensures ready { OnOk result (IsReady (loom_told H.Host memory.new)) }
    ensures file { IsTrue (H.tells Role.Work) → IsSameFile (H.roles (loom_now memory.old) Role.Work) (H.roles (loom_now memory.new) Role.Work) }
    ensures lender { loom_lender memory.new ≡ loom_lender memory.old }
    ensures others { LeavesBut (roles_at Running) (meanings H.Host (loom_now memory.old)) (meanings H.Host (loom_now memory.new)) }
    ensures refused { IfErr result (IsRefusal H.tells (meanings H.Host (loom_now memory.old)) (meanings H.Host (loom_now memory.new)) (row_for command.now) Running) }
{
    match whole_run_observed(alloc, memory, events, command.steps, state, observer) {
        Ok(finished) => Ok(finished),
        Err(halted) => Err(status_of(&halted)),
    }
}

/// Gives up all registers, frees what is dead, and puts the rest to the disk, after `ran` bytecodes. The answer is the next name, and the disk's room stays. It
/// is refused by a fault of the disk.
pub fn wind_up<H: Host>(
    memory: &mut LoomMemory<'_, H>,
    command: &Command<'_>,
    ran: u32,
) -> Result<u32, Status>
    requires sound { IsSound H.Host memory.old }
    requires few { ran ≤ command.now.steps }
    ensures ended { IsTrue (H.tells Role.Work) → IfOk result (λ next. HasEnded H.Host (loom_now memory.new) (loom_rest memory.new) next (loom_told H.Host memory.old).heap) }
    ensures image { IsTrue (H.tells Role.Work) → OnOk result (IsImageHeap (kept (loom_told H.Host memory.old).heap no_roots)) }
    ensures even { IfOk result (λ next. next % 2 ≡ 0) }
    ensures limits { SameBounds (loom_told H.Host memory.old).bounds (loom_told H.Host memory.new).bounds }
    ensures silent { (loom_told H.Host memory.new).transcript ≡ (loom_told H.Host memory.old).transcript }
    ensures file { IsTrue (H.tells Role.Work) → IsSameFile (H.roles (loom_now memory.old) Role.Work) (H.roles (loom_now memory.new) Role.Work) }
    ensures lender { loom_lender memory.new ≡ loom_lender memory.old }
    ensures others { LeavesBut (roles_at Finishing) (meanings H.Host (loom_now memory.old)) (meanings H.Host (loom_now memory.new)) }
    ensures refused { IfErr result (IsRefusal H.tells (meanings H.Host (loom_now memory.old)) (meanings H.Host (loom_now memory.new)) (row_for command.now) Finishing) }
{
    match memory.wind_up() {
        Ok(next) => Ok(next),
        Err(fault) => Err(status_of_fault(fault, ran)),
    }
}
