// Entering contexts and leaving them, the start, and the parking.
ghost use Rattle.std.specs.Prelude.{◌≡◌, ◌≤◌, ◌<◌, [], ◌∷◌, ℕ, OnOk};
ghost use Rattle.long_names.specs.Words.{IsSmallInteger};
ghost use Rattle.object_memory.specs.Told.{IsReady};
ghost use Rattle.object_memory.specs.Shape.{Looks};
ghost use Rattle.blue_model.specs.declared.cpu.Cpu.{Cpu as Numbers};
ghost use Rattle.long_names.specs.declared.limits.TheConstants.{MACHINE_REGISTERS};
ghost use Rattle.blue_model.specs.Contexts as model;
ghost use Rattle.contexts.specs.Serves.{Serves, StaysSound, KeepsOthers, HasRest, with_value};
ghost use Rattle.object_memory.specs.Calls.{IsFit};
ghost use Rattle.contexts.specs.Calls.{StaysFit};

use crate::numbers::{stated_depth, stated_ip, take_stated};
use crate::parts::{
    field, home_within, known, need_method, number_within, size, store_below, store_field,
};
use crate::registers::{clear, pin, put_context, unpin_all};
use crate::stop::Stop;
use blue_model::indexes::{
    ACTIVE_PROCESS_INDEX, ASSOCIATION_SIZE, INSTRUCTION_POINTER_INDEX, METHOD_INDEX, PROCESS_SIZE,
    RECEIVER_INDEX, SCHEDULER_SIZE, SENDER_INDEX, STACK_POINTER_INDEX, SUSPENDED_CONTEXT_INDEX,
    TEMP_FRAME_START, VALUE_INDEX,
};
use blue_model::{Cause, Cpu};
use long_names::{MACHINE_REGISTERS, Name, REGISTERS};
use object_memory::{ObjectMemory, Reg};

// The scratch registers from 20 on are those of this file and of `registers`; what callers keep stands below.

/// Loads what the home of a context has of it, and takes the pointers that the context states. The home is in R21.
fn load_home<M: ObjectMemory>(
    m: &mut M,
    cpu: &mut Cpu,
    context: Reg,
    ip: &i16,
    depth: &i16,
) -> Result<(), Stop>
    requires fit { IsFit M.ObjectMemory m.old }
    requires context { context < 20 }
    ensures serves { Serves (M.told m.old) cpu.old (M.told m.new) cpu.new (model.load_home ((M.told m.old).regs context) ((M.told m.old).regs 21) ip.now depth.now) result }
    ensures others { OnOk result (KeepsOthers 20 (M.told m.old) (M.told m.new)) }
    ensures ran { cpu.new.ran ≡ cpu.old.ran }
    ensures fit { StaysFit M.ObjectMemory m.old m.new result }
{
    pin(m, 1, Reg::R21)?;
    field(m, Reg::R22, Reg::R21, TEMP_FRAME_START, METHOD_INDEX)?;
    pin(m, 2, Reg::R22)?;
    need_method(m, Reg::R22)?;
    field(m, Reg::R23, Reg::R21, TEMP_FRAME_START, RECEIVER_INDEX)?;
    if !take_stated(cpu, ip, depth) {
        return Err(Stop::Stuck(Cause::Stack));
    }
    put_context(m, context);
    Ok(())
}

/// Loads a context into the registers, and pins it, its home and its method (fetchContextRegisters, chapter 28). Stuck with Shape where
/// it isn't a context, or its home isn't one, and with Stack where its stack pointer is negative.
fn load<M: ObjectMemory>(m: &mut M, cpu: &mut Cpu, context: Reg) -> Result<(), Stop>
    requires fit { IsFit M.ObjectMemory m.old }
    requires context { context < 20 }
    ensures serves { Serves (M.told m.old) cpu.old (M.told m.new) cpu.new (model.load ((M.told m.old).regs context)) result }
    ensures others { OnOk result (KeepsOthers 20 (M.told m.old) (M.told m.new)) }
    ensures ran { cpu.new.ran ≡ cpu.old.ran }
    ensures fit { StaysFit M.ObjectMemory m.old m.new result }
{
    unpin_all(m);
    pin(m, 0, context)?;
    size(m, context, TEMP_FRAME_START)?;
    let ip = number_within(
        m,
        Reg::R20,
        context,
        TEMP_FRAME_START,
        INSTRUCTION_POINTER_INDEX,
    )?;
    let depth = number_within(m, Reg::R20, context, TEMP_FRAME_START, STACK_POINTER_INDEX)?;
    home_within(m, Reg::R21, context)?;
    load_home(m, cpu, context, &ip, &depth)?;
    Ok(())
}

/// Stores the pointers into the active context (storeContextRegisters, chapter 28).
fn store_registers<M: ObjectMemory>(m: &mut M, cpu: &Cpu) -> Result<(), Stop>
    requires fit { IsFit M.ObjectMemory m.old }
    ensures serves { Serves (M.told m.old) cpu.now (M.told m.new) cpu.now model.store_registers result }
    ensures regs { OnOk result ((r : ℕ) → r < 20 → (M.told m.new).regs r ≡ (M.told m.old).regs r) }
    ensures fit { StaysFit M.ObjectMemory m.old m.new result }
{
    let Some(ip) = stated_ip(cpu) else {
        return Err(Stop::Stuck(Cause::Pointer));
    };
    let Some(depth) = stated_depth(cpu) else {
        return Err(Stop::Stuck(Cause::Stack));
    };
    let len = size(m, Reg::ACTIVE_CONTEXT, 0)?;
    m.int(Reg::R20, ip);
    store_below(
        m,
        Reg::ACTIVE_CONTEXT,
        len,
        INSTRUCTION_POINTER_INDEX,
        Reg::R20,
    )?;
    m.int(Reg::R20, depth);
    store_below(m, Reg::ACTIVE_CONTEXT, len, STACK_POINTER_INDEX, Reg::R20)?;
    Ok(())
}

/// Enters a context: the pointers are stored into the active one, and it is loaded (newActiveContext:, chapter 28).
pub fn enter<M: ObjectMemory>(m: &mut M, cpu: &mut Cpu, context: Reg) -> Result<(), Stop>
    requires fit { IsFit M.ObjectMemory m.old }
    requires context { context < 20 }
    ensures serves { Serves (M.told m.old) cpu.old (M.told m.new) cpu.new (model.enter ((M.told m.old).regs context)) result }
    ensures others { OnOk result (KeepsOthers 20 (M.told m.old) (M.told m.new)) }
    ensures fit { StaysFit M.ObjectMemory m.old m.new result }
{
    store_registers(m, cpu)?;
    load(m, cpu, context)?;
    Ok(())
}

/// Stores nil into the sender and the instruction pointer of the active context.
fn nil_context<M: ObjectMemory>(m: &mut M) -> Result<(), Stop>
    requires fit { IsFit M.ObjectMemory m.old }
    ensures serves { (cpu : Numbers) → Serves (M.told m.old) cpu (M.told m.new) cpu model.nil_context result }
    ensures regs { OnOk result ((r : ℕ) → r < 20 → (M.told m.new).regs r ≡ (M.told m.old).regs r) }
    ensures fit { StaysFit M.ObjectMemory m.old m.new result }
{
    known(m, Reg::R20, Name::NIL)?;
    let len = size(m, Reg::ACTIVE_CONTEXT, 0)?;
    store_below(m, Reg::ACTIVE_CONTEXT, len, SENDER_INDEX, Reg::R20)?;
    store_below(
        m,
        Reg::ACTIVE_CONTEXT,
        len,
        INSTRUCTION_POINTER_INDEX,
        Reg::R20,
    )?;
    Ok(())
}

/// Goes back to a context: nothing returns from the active one again, and it is loaded (returnToActiveContext:, chapter 28).
pub fn back<M: ObjectMemory>(m: &mut M, cpu: &mut Cpu, context: Reg) -> Result<(), Stop>
    requires fit { IsFit M.ObjectMemory m.old }
    requires context { context < 20 }
    ensures serves { Serves (M.told m.old) cpu.old (M.told m.new) cpu.new (model.back ((M.told m.old).regs context)) result }
    ensures others { OnOk result (KeepsOthers 20 (M.told m.old) (M.told m.new)) }
    ensures fit { StaysFit M.ObjectMemory m.old m.new result }
{
    nil_context(m)?;
    load(m, cpu, context)?;
    Ok(())
}

/// Loads the scheduler: the value of its association (schedulerPointer, chapter 29).
#[inline(always)]
pub fn scheduler<M: ObjectMemory>(m: &mut M, to: Reg) -> Result<(), Stop>
    requires fit { IsFit M.ObjectMemory m.old }
    requires scratch { MACHINE_REGISTERS ≤ to }
    ensures serves { (cpu : Numbers) → Serves (M.told m.old) cpu (M.told m.new) cpu model.scheduler (with_value result ((M.told m.new).regs to)) }
    ensures looks { OnOk result (Looks (to ∷ []) (M.told m.old) (M.told m.new)) }
    ensures fit { StaysFit M.ObjectMemory m.old m.new result }
{
    known(m, to, Name::SCHEDULER_ASSOCIATION)?;
    field(m, to, to, ASSOCIATION_SIZE, VALUE_INDEX)?;
    Ok(())
}

/// Loads the process that the scheduler says is active.
#[inline(always)]
pub fn active_process<M: ObjectMemory>(m: &mut M, to: Reg) -> Result<(), Stop>
    requires fit { IsFit M.ObjectMemory m.old }
    requires scratch { MACHINE_REGISTERS ≤ to }
    ensures serves { (cpu : Numbers) → Serves (M.told m.old) cpu (M.told m.new) cpu model.active_process (with_value result ((M.told m.new).regs to)) }
    ensures looks { OnOk result (Looks (to ∷ []) (M.told m.old) (M.told m.new)) }
    ensures fit { StaysFit M.ObjectMemory m.old m.new result }
{
    scheduler(m, to)?;
    field(m, to, to, SCHEDULER_SIZE, ACTIVE_PROCESS_INDEX)?;
    Ok(())
}

/// Starts the machine: all is at rest, and the suspended context of the active process is loaded (firstContext, chapter 29). Whatever
/// stood in registers and numbers before is gone.
pub fn start<M: ObjectMemory>(m: &mut M, cpu: &mut Cpu) -> Result<(), Stop>
    requires fit { IsFit M.ObjectMemory m.old }
    ensures serves { Serves (M.told m.old) cpu.old (M.told m.new) cpu.new model.start result }
    ensures rest { OnOk result (HasRest (M.told m.new)) }
    ensures ran { cpu.new.ran ≡ 0 }
    ensures fit { StaysFit M.ObjectMemory m.old m.new result }
{
    clear(m, 0, REGISTERS as u8);
    *cpu = Cpu::at_rest();
    active_process(m, Reg::R10)?;
    field(m, Reg::R10, Reg::R10, PROCESS_SIZE, SUSPENDED_CONTEXT_INDEX)?;
    load(m, cpu, Reg::R10)?;
    clear(m, MACHINE_REGISTERS as u8, REGISTERS as u8);
    Ok(())
}

/// Where a process switch waits, stores the new process as the active one of the scheduler in R11.
fn park_new<M: ObjectMemory>(m: &mut M, cpu: &Cpu) -> Result<(), Stop>
    requires fit { IsFit M.ObjectMemory m.old }
    ensures serves { Serves (M.told m.old) cpu.now (M.told m.new) cpu.now (model.park_new ((M.told m.old).regs 11)) result }
    ensures fit { StaysFit M.ObjectMemory m.old m.new result }
{
    if cpu.waiting {
        store_field(m, Reg::R11, ACTIVE_PROCESS_INDEX, Reg::NEW_PROCESS)?;
    }
    Ok(())
}

/// Parks the machine: the pointers are stored into the active context, and that into the active process, as at a process switch
/// (chapters 28 and 29). Where a switch waits, the new process becomes the scheduler's active one.
pub fn park<M: ObjectMemory>(m: &mut M, cpu: &mut Cpu) -> Result<(), Stop>
    requires fit { IsFit M.ObjectMemory m.old }
    ensures serves { Serves (M.told m.old) cpu.old (M.told m.new) cpu.new model.park result }
    ensures numbers { cpu.new ≡ cpu.old }
    ensures fit { StaysFit M.ObjectMemory m.old m.new result }
{
    store_registers(m, cpu)?;
    scheduler(m, Reg::R11)?;
    field(m, Reg::R10, Reg::R11, SCHEDULER_SIZE, ACTIVE_PROCESS_INDEX)?;
    store_field(m, Reg::R10, SUSPENDED_CONTEXT_INDEX, Reg::ACTIVE_CONTEXT)?;
    park_new(m, cpu)?;
    Ok(())
}
