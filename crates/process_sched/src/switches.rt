// From a process to another (chapter 29). The process that is current or becomes the last of a list is in R10, and the one that may
// go on in R17. Numbers are read into R16.
ghost use Rattle.std.specs.Prelude.{◌≡◌, ◌<◌, ℕ, pos, [], ◌∷◌, Ok, OnOk};
ghost use Rattle.long_names.specs.State.{RECEIVER, NEW_PROCESS};
ghost use Rattle.long_names.specs.declared.value.Value.TheVariants.{Int};
ghost use Rattle.object_memory.specs.Told.{IsReady};
ghost use Rattle.object_memory.specs.Shape.{Looks};
ghost use Rattle.long_names.specs.declared.limits.TheConstants.{MACHINE_REGISTERS};
ghost use Rattle.blue_model.specs.Processes as model;
ghost use Rattle.contexts.specs.Serves.{Serves, StaysSound, with_value};
ghost use Rattle.object_memory.specs.Calls.{IsFit};
ghost use Rattle.contexts.specs.Calls.{StaysFit};

use crate::scheduler::{sleep, wake};
use blue_model::indexes::{
    ACTIVE_PROCESS_INDEX, PRIORITY_INDEX, SCHEDULER_SIZE, SUSPENDED_CONTEXT_INDEX,
};
use contexts::parts::{field, number, store_field};
use contexts::{Cpu, Stop, active_process, enter, scheduler};
use object_memory::{ObjectMemory, Reg};

/// Loads the current process into R10: the new one where a switch waits, and otherwise the one that the scheduler says
/// (activeProcess).
pub(crate) fn current_process<M: ObjectMemory>(m: &mut M, cpu: &Cpu) -> Result<(), Stop>
    requires fit { IsFit M.ObjectMemory m.old }
    ensures serves { Serves (M.told m.old) cpu.now (M.told m.new) cpu.now model.current_process (with_value result ((M.told m.new).regs 10)) }
    ensures looks { OnOk result (Looks (10 ∷ []) (M.told m.old) (M.told m.new)) }
    ensures fit { StaysFit M.ObjectMemory m.old m.new result }
{
    if cpu.waiting {
        m.copy(Reg::R10, Reg::NEW_PROCESS);
        return Ok(());
    }
    active_process(m, Reg::R10)
}

/// The process in R17 is the new one, and a switch waits (transferTo:).
#[inline(always)]
fn transfer<M: ObjectMemory>(m: &mut M, cpu: &mut Cpu)
    requires fit { IsFit M.ObjectMemory m.old }
    ensures serves { Serves (M.told m.old) cpu.old (M.told m.new) cpu.new (model.transfer ((M.told m.old).regs 17)) (Ok tt) }
    ensures fit { StaysFit M.ObjectMemory m.old m.new (Ok result) }
{
    m.copy(Reg::NEW_PROCESS, Reg::R17);
    cpu.waiting = true;
}

/// The process in R17 goes on where its priority is higher than the current one's, which then sleeps; otherwise it sleeps itself
/// (resume:).
#[inline(always)]
pub(crate) fn resume<M: ObjectMemory>(m: &mut M, cpu: &mut Cpu) -> Result<(), Stop>
    requires fit { IsFit M.ObjectMemory m.old }
    ensures serves { Serves (M.told m.old) cpu.old (M.told m.new) cpu.new (model.resume ((M.told m.old).regs 17)) result }
    ensures fit { StaysFit M.ObjectMemory m.old m.new result }
{
    let priority = number(m, Reg::R16, Reg::R17, 0, PRIORITY_INDEX)?;
    current_process(m, cpu)?;
    let own = number(m, Reg::R16, Reg::R10, 0, PRIORITY_INDEX)?;
    if own < priority {
        sleep(m)?;
        transfer(m, cpu);
        return Ok(());
    }
    m.copy(Reg::R10, Reg::R17);
    sleep(m)
}

/// The current process stops, and the one that wakes goes on (suspendActive).
#[inline(always)]
pub(crate) fn suspend_active<M: ObjectMemory>(m: &mut M, cpu: &mut Cpu) -> Result<(), Stop>
    requires fit { IsFit M.ObjectMemory m.old }
    ensures serves { Serves (M.told m.old) cpu.old (M.told m.new) cpu.new model.suspend_active result }
    ensures fit { StaysFit M.ObjectMemory m.old m.new result }
{
    wake(m)?;
    transfer(m, cpu);
    Ok(())
}

/// Makes the new process the active one (checkProcessSwitch, where a switch waits): the active context is stored into the process that was
/// active, and the context of the new one is entered. No switch waits then.
pub fn switch<M: ObjectMemory>(m: &mut M, cpu: &mut Cpu) -> Result<(), Stop>
    requires fit { IsFit M.ObjectMemory m.old }
    ensures serves { Serves (M.told m.old) cpu.old (M.told m.new) cpu.new model.switch result }
    ensures others { OnOk result ((r : ℕ) → RECEIVER < r → r < MACHINE_REGISTERS → (r ≡ NEW_PROCESS → ⊥) → (M.told m.new).regs r ≡ (M.told m.old).regs r) }
    ensures none { OnOk result ((M.told m.new).regs NEW_PROCESS ≡ Int (pos 0)) }
    ensures fit { StaysFit M.ObjectMemory m.old m.new result }
{
    scheduler(m, Reg::R11)?;
    field(m, Reg::R10, Reg::R11, SCHEDULER_SIZE, ACTIVE_PROCESS_INDEX)?;
    store_field(m, Reg::R10, SUSPENDED_CONTEXT_INDEX, Reg::ACTIVE_CONTEXT)?;
    store_field(m, Reg::R11, ACTIVE_PROCESS_INDEX, Reg::NEW_PROCESS)?;
    field(m, Reg::R12, Reg::NEW_PROCESS, 0, SUSPENDED_CONTEXT_INDEX)?;
    m.int(Reg::NEW_PROCESS, 0);
    cpu.waiting = false;
    enter(m, cpu, Reg::R12)
}
