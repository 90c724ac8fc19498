// Pushes and stores (chapter 28, stack bytecodes).
ghost use Rattle.std.specs.Prelude.{◌≡◌, ◌<◌, true, OnOk};
ghost use Rattle.long_names.specs.Names.{is_known};
ghost use Rattle.object_memory.specs.Told.{IsReady};
ghost use Rattle.blue_model.specs.Bytecodes as model;
ghost use Rattle.contexts.specs.Serves.{Serves, StaysSound};
ghost use Rattle.bytecodes.specs.Variables.{loads, stores};
ghost use Rattle.object_memory.specs.Calls.{IsFit};
ghost use Rattle.contexts.specs.Calls.{StaysFit};

use crate::variables::{Variable, load_variable, store_variable};
use contexts::parts::known;
use contexts::{Cause, Cpu, Stop, fetch, pop, push, stack};
use long_names::Name;
use object_memory::{ObjectMemory, Reg};

/// Pushes a variable.
pub(crate) fn push_variable<M: ObjectMemory>(
    m: &mut M,
    cpu: &mut Cpu,
    variable: Variable,
    i: u32,
) -> Result<(), Stop>
    requires fit { IsFit M.ObjectMemory m.old }
    requires number { i < 64 }
    ensures serves { Serves (M.told m.old) cpu.old (M.told m.new) cpu.new (model.push_of (loads variable i)) result }
    ensures fit { StaysFit M.ObjectMemory m.old m.new result }
{
    load_variable(m, Reg::R10, variable, i)?;
    push(m, cpu, Reg::R10)?;
    Ok(())
}

/// Pushes a known object.
pub(crate) fn push_known<M: ObjectMemory>(m: &mut M, cpu: &mut Cpu, name: Name) -> Result<(), Stop>
    requires fit { IsFit M.ObjectMemory m.old }
    requires name { is_known name ≡ true }
    ensures serves { Serves (M.told m.old) cpu.old (M.told m.new) cpu.new (model.push_known name) result }
    ensures fit { StaysFit M.ObjectMemory m.old m.new result }
{
    known(m, Reg::R10, name)?;
    push(m, cpu, Reg::R10)?;
    Ok(())
}

/// Pushes the number i - 1.
#[inline(always)]
pub(crate) fn push_number<M: ObjectMemory>(m: &mut M, cpu: &mut Cpu, i: u8) -> Result<(), Stop>
    requires fit { IsFit M.ObjectMemory m.old }
    ensures serves { Serves (M.told m.old) cpu.old (M.told m.new) cpu.new (model.push_number i) result }
    ensures fit { StaysFit M.ObjectMemory m.old m.new result }
{
    m.int(Reg::R10, i16::from(i) - 1);
    push(m, cpu, Reg::R10)?;
    Ok(())
}

/// Pushes the receiver.
pub(crate) fn push_receiver<M: ObjectMemory>(m: &mut M, cpu: &mut Cpu) -> Result<(), Stop>
    requires fit { IsFit M.ObjectMemory m.old }
    ensures serves { Serves (M.told m.old) cpu.old (M.told m.new) cpu.new (model.push_receiver) result }
    ensures fit { StaysFit M.ObjectMemory m.old m.new result }
{
    push(m, cpu, Reg::RECEIVER)?;
    Ok(())
}

/// Pushes the active context.
pub(crate) fn push_active_context<M: ObjectMemory>(m: &mut M, cpu: &mut Cpu) -> Result<(), Stop>
    requires fit { IsFit M.ObjectMemory m.old }
    ensures serves { Serves (M.told m.old) cpu.old (M.told m.new) cpu.new (model.push_active_context) result }
    ensures fit { StaysFit M.ObjectMemory m.old m.new result }
{
    push(m, cpu, Reg::ACTIVE_CONTEXT)?;
    Ok(())
}

/// Pushes the top again.
pub(crate) fn duplicate_top<M: ObjectMemory>(m: &mut M, cpu: &mut Cpu) -> Result<(), Stop>
    requires fit { IsFit M.ObjectMemory m.old }
    ensures serves { Serves (M.told m.old) cpu.old (M.told m.new) cpu.new (model.duplicate_top) result }
    ensures fit { StaysFit M.ObjectMemory m.old m.new result }
{
    stack(m, cpu, Reg::R10, 0)?;
    push(m, cpu, Reg::R10)?;
    Ok(())
}

/// Stores the top into a variable.
pub(crate) fn store_top<M: ObjectMemory>(
    m: &mut M,
    cpu: &mut Cpu,
    variable: Variable,
    i: u32,
) -> Result<(), Stop>
    requires fit { IsFit M.ObjectMemory m.old }
    requires number { i < 64 }
    ensures serves { Serves (M.told m.old) cpu.old (M.told m.new) cpu.new (model.store_top (stores variable i)) result }
    ensures fit { StaysFit M.ObjectMemory m.old m.new result }
{
    stack(m, cpu, Reg::R10, 0)?;
    store_variable(m, variable, i, Reg::R10)?;
    Ok(())
}

/// Stores the top into a variable, and pops it.
pub(crate) fn store_and_pop<M: ObjectMemory>(
    m: &mut M,
    cpu: &mut Cpu,
    variable: Variable,
    i: u32,
) -> Result<(), Stop>
    requires fit { IsFit M.ObjectMemory m.old }
    requires number { i < 64 }
    ensures serves { Serves (M.told m.old) cpu.old (M.told m.new) cpu.new (model.store_and_pop (stores variable i)) result }
    ensures fit { StaysFit M.ObjectMemory m.old m.new result }
{
    store_top(m, cpu, variable, i)?;
    pop(cpu, 1)?;
    Ok(())
}

/// Pushes the variable that the next byte states.
pub(crate) fn extended_push<M: ObjectMemory>(m: &mut M, cpu: &mut Cpu) -> Result<(), Stop>
    requires fit { IsFit M.ObjectMemory m.old }
    ensures serves { Serves (M.told m.old) cpu.old (M.told m.new) cpu.new (model.extended_push) result }
    ensures fit { StaysFit M.ObjectMemory m.old m.new result }
{
    let byte = fetch(m, cpu)?;
    push_variable(m, cpu, Variable::extended(byte), u32::from(byte % 64))?;
    Ok(())
}

/// Stores the top into the variable that a byte states. A literal is Unused, before the top is read.
pub(crate) fn extended_store_of<M: ObjectMemory>(
    m: &mut M,
    cpu: &mut Cpu,
    byte: u8,
) -> Result<(), Stop>
    requires fit { IsFit M.ObjectMemory m.old }
    ensures serves { Serves (M.told m.old) cpu.old (M.told m.new) cpu.new (model.extended_store_of byte) result }
    ensures fit { StaysFit M.ObjectMemory m.old m.new result }
{
    match Variable::extended(byte) {
        Variable::Literal => Err(Stop::Stuck(Cause::Unused)),
        variable => store_top(m, cpu, variable, u32::from(byte % 64)),
    }
}

/// Stores the top into the variable that the next byte states.
pub(crate) fn extended_store<M: ObjectMemory>(m: &mut M, cpu: &mut Cpu) -> Result<(), Stop>
    requires fit { IsFit M.ObjectMemory m.old }
    ensures serves { Serves (M.told m.old) cpu.old (M.told m.new) cpu.new (model.extended_store) result }
    ensures fit { StaysFit M.ObjectMemory m.old m.new result }
{
    let byte = fetch(m, cpu)?;
    extended_store_of(m, cpu, byte)?;
    Ok(())
}

/// Stores the top into the variable that the next byte states, and pops it.
pub(crate) fn extended_store_and_pop<M: ObjectMemory>(m: &mut M, cpu: &mut Cpu) -> Result<(), Stop>
    requires fit { IsFit M.ObjectMemory m.old }
    ensures serves { Serves (M.told m.old) cpu.old (M.told m.new) cpu.new (model.extended_store_and_pop) result }
    ensures fit { StaysFit M.ObjectMemory m.old m.new result }
{
    let byte = fetch(m, cpu)?;
    extended_store_of(m, cpu, byte)?;
    pop(cpu, 1)?;
    Ok(())
}
