// Registers and slots.
ghost use Rattle.std.specs.Prelude.{◌≡◌, ◌≤◌, ◌<◌, ◌&&◌, ℕ, pos, nat_le, nat_lt, OnOk, if◌then◌else◌};
ghost use Rattle.long_names.specs.declared.value.Value.TheVariants.{Int};
ghost use Rattle.object_memory.specs.Told.{Told, IsReady};
ghost use Rattle.blue_model.specs.declared.cpu.Cpu.{Cpu as Numbers};
ghost use Rattle.blue_model.specs.Machine as model;
ghost use Rattle.blue_model.specs.Contexts as contexts;
ghost use Rattle.blue_model.specs.Messages as messages;
ghost use Rattle.contexts.specs.Serves.{Serves, StaysSound};
ghost use Rattle.std.specs.Prelude.{Ok};
ghost use Rattle.long_names.specs.State.{RECEIVER};
ghost use Rattle.long_names.specs.declared.limits.TheConstants.{REGISTERS};
ghost use Rattle.object_memory.specs.Calls.{IsFit};
ghost use Rattle.contexts.specs.Calls.{StaysFit};

use crate::stop::Stop;
use blue_model::{Cause, Cpu};
use object_memory::{ObjectMemory, Reg, shape};

/// The registers from one number up to another, without it, hold 0.
#[inline(always)]
pub fn clear<M: ObjectMemory>(m: &mut M, from: u8, to: u8)
    requires fit { IsFit M.ObjectMemory m.old }
    requires few { to ≤ REGISTERS }
    ensures regs { (r : ℕ) → (M.told m.new).regs r ≡ (if nat_le from r && nat_lt r to then Int (pos 0) else (M.told m.old).regs r) }
    ensures rest { M.told m.new ≡ record (M.told m.old) { regs = (M.told m.new).regs } }
    ensures fit { StaysFit M.ObjectMemory m.old m.new (Ok result) }
{
    for r in from..to {
        m.int(Reg::new(r), 0);
    }
}

/// The message that is sent has so many arguments.
#[inline(always)]
pub fn set_arguments(cpu: &mut Cpu, n: u8)
    ensures serves { (t : Told) → IsReady t → Serves t cpu.old t cpu.new (messages.set_arguments n) (Ok tt) }
    ensures numbers { cpu.new ≡ record cpu.old { args = n } }
{
    cpu.args = n;
}

/// No object is pinned any more.
#[inline(always)]
pub(crate) fn unpin_all<M: ObjectMemory>(m: &mut M)
    requires fit { IsFit M.ObjectMemory m.old }
    ensures serves { (cpu : Numbers) → Serves (M.told m.old) cpu (M.told m.new) cpu model.unpin_all (Ok tt) }
    ensures regs { (M.told m.new).regs ≡ (M.told m.old).regs }
    ensures fit { StaysFit M.ObjectMemory m.old m.new (Ok result) }
{
    m.unpin(0);
    m.unpin(1);
    m.unpin(2);
}

/// Pins the object that a register names.
#[inline(always)]
pub(crate) fn pin<M: ObjectMemory>(m: &mut M, slot: u8, of: Reg) -> Result<(), Stop>
    requires fit { IsFit M.ObjectMemory m.old }
    requires slot { slot < 3 }
    ensures serves { (cpu : Numbers) → Serves (M.told m.old) cpu (M.told m.new) cpu (model.pin slot ((M.told m.old).regs of)) result }
    ensures regs { OnOk result ((M.told m.new).regs ≡ (M.told m.old).regs) }
    ensures fit { StaysFit M.ObjectMemory m.old m.new result }
{
    if !shape::is_name(m, of) {
        return Err(Stop::Stuck(Cause::Shape));
    }
    m.pin(slot, of)?;
    Ok(())
}

/// The four registers of the active context hold it, its home, its method and its receiver, which stand in scratch registers.
#[inline(always)]
pub(crate) fn put_context<M: ObjectMemory>(m: &mut M, context: Reg)
    requires fit { IsFit M.ObjectMemory m.old }
    ensures serves { (cpu : Numbers) → Serves (M.told m.old) cpu (M.told m.new) cpu (contexts.put_context ((M.told m.old).regs context) ((M.told m.old).regs 21) ((M.told m.old).regs 22) ((M.told m.old).regs 23)) (Ok tt) }
    ensures others { (r : ℕ) → RECEIVER < r → (M.told m.new).regs r ≡ (M.told m.old).regs r }
    ensures fit { StaysFit M.ObjectMemory m.old m.new (Ok result) }
{
    m.copy(Reg::ACTIVE_CONTEXT, context);
    m.copy(Reg::HOME, Reg::R21);
    m.copy(Reg::METHOD, Reg::R22);
    m.copy(Reg::RECEIVER, Reg::R23);
}
