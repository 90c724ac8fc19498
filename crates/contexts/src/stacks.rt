// The stack of the active context.
ghost use Rattle.std.specs.Prelude.{◌≡◌, ◌≤◌, [], ◌∷◌, Ok, OnOk, IfSome};
ghost use Rattle.long_names.specs.Words.{IsSmallInteger};
ghost use Rattle.long_names.specs.declared.value.Value.TheVariants.{Int};
ghost use Rattle.object_memory.specs.Told.{Told, IsReady};
ghost use Rattle.object_memory.specs.Shape.{Looks};
ghost use Rattle.long_names.specs.declared.limits.TheConstants.{MACHINE_REGISTERS};
ghost use Rattle.blue_model.specs.Contexts as model;
ghost use Rattle.blue_model.specs.Messages as messages;
ghost use Rattle.contexts.specs.Serves.{Serves, StaysSound, with_value};
ghost use Rattle.object_memory.specs.Calls.{IsFit};
ghost use Rattle.contexts.specs.Calls.{StaysFit};

use crate::numbers::{lower, place_above, place_at, raise};
use crate::parts::{field_within, size, store_within};
use crate::stop::Stop;
use blue_model::{Cause, Cpu};
use object_memory::{ObjectMemory, Reg};

/// Pushes the value of a register (push:, chapter 28). Stuck with Stack where the field above the top is none of the context's, or the
/// stack is full.
#[inline(always)]
pub fn push<M: ObjectMemory>(m: &mut M, cpu: &mut Cpu, from: Reg) -> Result<(), Stop>
    requires fit { IsFit M.ObjectMemory m.old }
    ensures serves { Serves (M.told m.old) cpu.old (M.told m.new) cpu.new (model.push ((M.told m.old).regs from)) result }
    ensures regs { OnOk result ((M.told m.new).regs ≡ (M.told m.old).regs) }
    ensures fit { StaysFit M.ObjectMemory m.old m.new result }
{
    let len = size(m, Reg::ACTIVE_CONTEXT, 0)?;
    let Some(place) = place_above(cpu, len) else {
        return Err(Stop::Stuck(Cause::Stack));
    };
    store_within(m, Reg::ACTIVE_CONTEXT, place, from)?;
    raise(cpu);
    Ok(())
}

/// Loads the value so much below the top of the stack into a scratch register (stackValue:, chapter 28). The top is at depth 0. Stuck
/// with Stack where that field is none of the stack.
#[inline(always)]
pub fn stack<M: ObjectMemory>(m: &mut M, cpu: &Cpu, to: Reg, depth: u32) -> Result<(), Stop>
    requires fit { IsFit M.ObjectMemory m.old }
    requires scratch { MACHINE_REGISTERS ≤ to }
    ensures serves { Serves (M.told m.old) cpu.now (M.told m.new) cpu.now (model.stack depth) (with_value result ((M.told m.new).regs to)) }
    ensures looks { OnOk result (Looks (to ∷ []) (M.told m.old) (M.told m.new)) }
    ensures fit { StaysFit M.ObjectMemory m.old m.new result }
{
    let len = size(m, Reg::ACTIVE_CONTEXT, 0)?;
    let Some(place) = place_at(cpu, depth, len) else {
        return Err(Stop::Stuck(Cause::Stack));
    };
    field_within(m, to, Reg::ACTIVE_CONTEXT, 0, place)?;
    Ok(())
}

/// The number so much below the top of the stack, where it is at hand. None says nothing.
#[inline(always)]
pub fn peek_stack<M: ObjectMemory>(m: &M, cpu: &Cpu, depth: u32) -> Option<i16>
    requires { M.sound m.now }
    ensures serves { IfSome result (λ number. IsReady (M.told m.now) → Serves (M.told m.now) cpu.now (M.told m.now) cpu.now (model.stack depth) (Ok (Int number))) }
    ensures range { IfSome result IsSmallInteger }
{
    let len = m.field_count(Reg::ACTIVE_CONTEXT)?;
    let place = place_at(cpu, depth, len)?;
    m.number_at(Reg::ACTIVE_CONTEXT, place)
}

/// Puts the value of a register so much below the top of the stack. Stuck with Stack where that field is none of the stack.
pub fn put_stack<M: ObjectMemory>(m: &mut M, cpu: &Cpu, depth: u32, from: Reg) -> Result<(), Stop>
    requires fit { IsFit M.ObjectMemory m.old }
    ensures serves { Serves (M.told m.old) cpu.now (M.told m.new) cpu.now (messages.put_stack depth ((M.told m.old).regs from)) result }
    ensures regs { OnOk result ((M.told m.new).regs ≡ (M.told m.old).regs) }
    ensures fit { StaysFit M.ObjectMemory m.old m.new result }
{
    let len = size(m, Reg::ACTIVE_CONTEXT, 0)?;
    let Some(place) = place_at(cpu, depth, len) else {
        return Err(Stop::Stuck(Cause::Stack));
    };
    store_within(m, Reg::ACTIVE_CONTEXT, place, from)?;
    Ok(())
}

/// Pops so many values (pop:, chapter 28). It writes nothing. Stuck with Stack where the stack has fewer.
#[inline(always)]
pub fn pop(cpu: &mut Cpu, n: u32) -> Result<(), Stop>
    ensures serves { (t : Told) → IsReady t → Serves t cpu.old t cpu.new (model.pop n) result }
{
    if !lower(cpu, n) {
        return Err(Stop::Stuck(Cause::Stack));
    }
    Ok(())
}

/// Pops the top into a scratch register (popStack, chapter 28).
#[inline(always)]
pub fn pop_top<M: ObjectMemory>(m: &mut M, cpu: &mut Cpu, to: Reg) -> Result<(), Stop>
    requires fit { IsFit M.ObjectMemory m.old }
    requires scratch { MACHINE_REGISTERS ≤ to }
    ensures serves { Serves (M.told m.old) cpu.old (M.told m.new) cpu.new model.pop_top (with_value result ((M.told m.new).regs to)) }
    ensures looks { OnOk result (Looks (to ∷ []) (M.told m.old) (M.told m.new)) }
    ensures fit { StaysFit M.ObjectMemory m.old m.new result }
{
    stack(m, cpu, to, 0)?;
    pop(cpu, 1)?;
    Ok(())
}
