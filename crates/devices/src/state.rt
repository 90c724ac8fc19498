// The state that a machine is kept with: the start that goes on from it, and the primitive 97, by which a program asks for a checkpoint.
ghost use Rattle.std.specs.Prelude.{◌≡◌, ◌<◌, ℕ, IsTrue, OnOk};
ghost use Rattle.long_names.specs.Kept.{kept, no_roots};
ghost use Rattle.blue_model.specs.declared.cpu.Cpu.{Cpu as Numbers};
ghost use Rattle.long_names.specs.declared.limits.TheConstants.{MACHINE_REGISTERS};
ghost use Rattle.blue_model.specs.Devices as devices;
ghost use Rattle.blue_model.specs.State as model;
ghost use Rattle.contexts.specs.Serves.{Serves, HasRest};
ghost use Rattle.contexts.specs.Calls.{StaysFit};
ghost use Rattle.contexts.specs.Keeping.{KeepsBy};
ghost use Rattle.object_memory.specs.Calls.{IsFit};
ghost use Rattle.devices.specs.States.{state_by, word_by, StaysThere};

use crate::ticks::timer_at;
use contexts::{Answer, Cpu, Stop, stack};
use long_names::Name;
use object_memory::{ObjectMemory, Reg};

/// A register of the machine holds the object of this name, where there is one.
fn hold<M: ObjectMemory>(m: &mut M, to: Reg, name: Option<Name>) -> Result<(), Stop>
    requires fit { IsFit M.ObjectMemory m.old }
    requires machine { to < MACHINE_REGISTERS }
    requires name { IsTrue (M.told m.old).tells → StaysThere (M.told m.old).heap name }
    ensures serves { (cpu : Numbers) → Serves (M.told m.old) cpu (M.told m.new) cpu (model.hold to (model.name_in (word_by name))) result }
    ensures named { model.name_in (word_by name) ≡ name }
    ensures kept { OnOk result (IsTrue (M.told m.old).tells → kept (M.told m.new).heap no_roots ≡ kept (M.told m.old).heap no_roots) }
    ensures others { OnOk result ((r : ℕ) → (r ≡ to → ⊥) → (M.told m.new).regs r ≡ (M.told m.old).regs r) }
    ensures fit { StaysFit M.ObjectMemory m.old m.new result }
{
    if let Some(name) = name {
        let word = name.get();
        prove!(0 < word);
        m.known(to, name)?;
    }
    Ok(())
}

/// Goes on, after a start, from a state that a machine was left with: its clock, the form that is the display, the semaphore that input
/// words signal, and the timer's with its tick. Where there is no timer there is no tick. The names are of objects that are kept with
/// no roots.
pub fn restore<M: ObjectMemory>(
    m: &mut M,
    cpu: &mut Cpu,
    clock: u32,
    display: Option<Name>,
    input: Option<Name>,
    timer: Option<Name>,
    tick: u32,
) -> Result<(), Stop>
    requires fit { IsFit M.ObjectMemory m.old }
    requires display { IsTrue (M.told m.old).tells → StaysThere (M.told m.old).heap display }
    requires input { IsTrue (M.told m.old).tells → StaysThere (M.told m.old).heap input }
    requires timer { IsTrue (M.told m.old).tells → StaysThere (M.told m.old).heap timer }
    ensures serves { Serves (M.told m.old) cpu.old (M.told m.new) cpu.new (model.restore (state_by clock display input timer tick)) result }
    ensures rest { OnOk result (HasRest (M.told m.old) → HasRest (M.told m.new)) }
    ensures ran { cpu.new.ran ≡ cpu.old.ran }
    ensures fit { StaysFit M.ObjectMemory m.old m.new result }
{
    hold(m, Reg::DISPLAY, display)?;
    hold(m, Reg::INPUT_SEMAPHORE, input)?;
    hold(m, Reg::TIMER_SEMAPHORE, timer)?;
    cpu.base = clock;
    cpu.display = display.is_some();
    cpu.input = input.is_some();
    cpu.timer = timer_at(timer.is_some(), tick);
    Ok(())
}

/// The machine is to be kept as it is. It fails where no checkpoint may be made.
pub(crate) fn keep_machine<M: ObjectMemory>(m: &mut M, cpu: &Cpu) -> Result<Answer, Stop>
    requires fit { IsFit M.ObjectMemory m.old }
    ensures serves { Serves (M.told m.old) cpu.now (M.told m.new) cpu.now devices.keep_machine result }
    ensures keeps { KeepsBy cpu.now.vault result }
    ensures fit { StaysFit M.ObjectMemory m.old m.new result }
{
    stack(m, cpu, Reg::R10, 0)?;
    if cpu.vault {
        return Ok(Answer::Keep);
    }
    Ok(Answer::Failed)
}
