// The activation of methods (chapter 28, activateNewMethod).
ghost use Rattle.std.specs.Prelude.{◌≡◌, ◌≤◌, ◌<◌, ◌+◌, ℕ, OnOk};
ghost use Rattle.long_names.specs.State.{NEW_METHOD};
ghost use Rattle.long_names.specs.Words.{IsSmallInteger};
ghost use Rattle.object_memory.specs.Told.{IsReady};
ghost use Rattle.blue_model.specs.declared.limits.TheConstants.{MOST_ARGUMENTS};
ghost use Rattle.blue_model.specs.declared.cpu.Cpu.{Cpu as Numbers};
ghost use Rattle.blue_model.specs.Machine.{each};
ghost use Rattle.blue_model.specs.Messages as model;
ghost use Rattle.contexts.specs.Serves.{Serves, StaysSound, with_value};
ghost use Rattle.object_memory.specs.Calls.{IsFit};
ghost use Rattle.contexts.specs.Calls.{StaysFit};

use crate::header::{context_size, first_pointer, temporaries};
use blue_model::indexes::{
    EMPTY_STACK, INSTRUCTION_POINTER_INDEX, METHOD_INDEX, SENDER_INDEX, STACK_POINTER_INDEX,
};
use contexts::parts::{header, known, make_pointers, store_field};
use contexts::{Cause, Cpu, Stop, enter, pop, stack};
use long_names::Name;
use object_memory::{ObjectMemory, Reg};

/// Copies what is n - k below the top, the receiver or argument k, from the stack into the new context in R16, which has so many
/// fields. Stuck with Stack where it hasn't the field.
fn pass<M: ObjectMemory>(m: &mut M, cpu: &Cpu, n: u32, len: u32, k: u32) -> Result<(), Stop>
    requires fit { IsFit M.ObjectMemory m.old }
    requires number { k ≤ n }
    requires few { n ≤ MOST_ARGUMENTS }
    ensures serves { Serves (M.told m.old) cpu.now (M.told m.new) cpu.now (model.pass n len ((M.told m.old).regs 16) k) result }
    ensures regs { OnOk result ((r : ℕ) → (r ≡ 15 → ⊥) → (M.told m.new).regs r ≡ (M.told m.old).regs r) }
    ensures fit { StaysFit M.ObjectMemory m.old m.new result }
{
    if EMPTY_STACK + k >= len {
        return Err(Stop::Stuck(Cause::Stack));
    }
    stack(m, cpu, Reg::R15, n - k)?;
    store_field(m, Reg::R16, EMPTY_STACK + k, Reg::R15)?;
    Ok(())
}

/// Copies the receiver and the n arguments, in order, into the new context in R16.
fn pass_all<M: ObjectMemory>(m: &mut M, cpu: &Cpu, n: u32, len: u32) -> Result<(), Stop>
    requires fit { IsFit M.ObjectMemory m.old }
    requires few { n ≤ MOST_ARGUMENTS }
    ensures serves { Serves (M.told m.old) cpu.now (M.told m.new) cpu.now (each (model.pass n len ((M.told m.old).regs 16)) (n + 1)) result }
    ensures regs { OnOk result ((r : ℕ) → (r ≡ 15 → ⊥) → (M.told m.new).regs r ≡ (M.told m.old).regs r) }
    ensures fit { StaysFit M.ObjectMemory m.old m.new result }
{
    for k in 0..n + 1 {
        pass(m, cpu, n, len, k)?;
    }
    Ok(())
}

/// Fills the new context in R16 for the method in register 5, which has this header.
fn fill_context<M: ObjectMemory>(m: &mut M, header: i16) -> Result<(), Stop>
    requires fit { IsFit M.ObjectMemory m.old }
    requires header { IsSmallInteger header }
    ensures serves { (cpu : Numbers) → Serves (M.told m.old) cpu (M.told m.new) cpu (model.fill_context ((M.told m.old).regs 16) ((M.told m.old).regs NEW_METHOD) header) result }
    ensures regs { OnOk result ((r : ℕ) → (r ≡ 15 → ⊥) → (M.told m.new).regs r ≡ (M.told m.old).regs r) }
    ensures fit { StaysFit M.ObjectMemory m.old m.new result }
{
    store_field(m, Reg::R16, SENDER_INDEX, Reg::ACTIVE_CONTEXT)?;
    m.int(Reg::R15, first_pointer(header));
    store_field(m, Reg::R16, INSTRUCTION_POINTER_INDEX, Reg::R15)?;
    m.int(Reg::R15, temporaries(header) as i16);
    store_field(m, Reg::R16, STACK_POINTER_INDEX, Reg::R15)?;
    store_field(m, Reg::R16, METHOD_INDEX, Reg::NEW_METHOD)?;
    Ok(())
}

/// Makes a context for the method in register 5, which has this header, and n arguments, in R16. It is made before anything is
/// tested.
fn make_context<M: ObjectMemory>(m: &mut M, cpu: &Cpu, header: i16, n: u32) -> Result<(), Stop>
    requires fit { IsFit M.ObjectMemory m.old }
    requires header { IsSmallInteger header }
    requires few { n ≤ MOST_ARGUMENTS }
    ensures serves { Serves (M.told m.old) cpu.now (M.told m.new) cpu.now (model.make_context ((M.told m.old).regs NEW_METHOD) header n) (with_value result ((M.told m.new).regs 16)) }
    ensures fit { StaysFit M.ObjectMemory m.old m.new result }
{
    let len = context_size(header);
    known(m, Reg::R15, Name::METHOD_CONTEXT)?;
    make_pointers(m, Reg::R16, Reg::R15, len)?;
    fill_context(m, header)?;
    pass_all(m, cpu, n, len)?;
    Ok(())
}

/// Activates the method in register 5 with the arguments on the stack (activateNewMethod, chapter 28): a new context takes receiver and
/// arguments from the stack and is entered. Stuck with Shape where it is no method, and with Stack where receiver and arguments don't
/// fit the context or aren't on the stack. The scratch registers from 15 on are used.
pub fn activate<M: ObjectMemory>(m: &mut M, cpu: &mut Cpu) -> Result<(), Stop>
    requires fit { IsFit M.ObjectMemory m.old }
    ensures serves { Serves (M.told m.old) cpu.old (M.told m.new) cpu.new model.activate result }
    ensures fit { StaysFit M.ObjectMemory m.old m.new result }
{
    let n = u32::from(cpu.args);
    let header = header(m, Reg::NEW_METHOD)?;
    make_context(m, cpu, header, n)?;
    pop(cpu, n + 1)?;
    enter(m, cpu, Reg::R16)?;
    Ok(())
}
