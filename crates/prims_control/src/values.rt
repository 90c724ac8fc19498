// Blocks that are entered (chapter 29, primitiveValue and primitiveValueWithArgs). The block is in R10, the array in R12.
ghost use Rattle.std.specs.Prelude.{◌≡◌, ◌<◌, ◌≤◌, ℕ, [], ◌∷◌, OnOk, IfOk, IfSome, IsSome};
ghost use Rattle.long_names.specs.declared.limits.TheConstants.{SMALL_INTEGERS, MOST_FIELDS};
ghost use Rattle.long_names.specs.Words.{IsSmallInteger};
ghost use Rattle.object_memory.specs.Told.{IsReady};
ghost use Rattle.object_memory.specs.Shape.{Looks};
ghost use Rattle.blue_model.specs.declared.limits.TheConstants.{MOST_ARGUMENTS};
ghost use Rattle.blue_model.specs.declared.cpu.Cpu.{Cpu as Numbers};
ghost use Rattle.blue_model.specs.Machine.{each};
ghost use Rattle.blue_model.specs.Control as model;
ghost use Rattle.contexts.specs.Serves.{Serves, StaysSound};
ghost use Rattle.object_memory.specs.Calls.{IsFit};
ghost use Rattle.contexts.specs.Calls.{StaysFit};
ghost use Rattle.contexts.specs.Keeping.{NeverKeeps};

use crate::numbers::states;
use crate::parts::{array_length, store_number};
use blue_model::indexes::{
    BLOCK_ARGUMENT_COUNT_INDEX, CALLER_INDEX, INITIAL_IP_INDEX, INSTRUCTION_POINTER_INDEX,
    STACK_POINTER_INDEX, TEMP_FRAME_START,
};
use contexts::parts::{class_of, field, store_field};
use contexts::peeks::peek_number;
use contexts::{Answer, Cpu, Stop, enter, pop, stack};
use long_names::Name;
use object_memory::{ObjectMemory, Reg};

/// The first instruction pointer of what is in R10, where it has room for n arguments and states that it takes as many.
fn pointer_for<M: ObjectMemory>(m: &mut M, n: u32) -> Result<Option<i16>, Stop>
    requires fit { IsFit M.ObjectMemory m.old }
    requires few { n ≤ MOST_FIELDS }
    ensures serves { (cpu : Numbers) → Serves (M.told m.old) cpu (M.told m.new) cpu (model.pointer_for ((M.told m.old).regs 10) n) result }
    ensures looks { OnOk result (Looks (19 ∷ []) (M.told m.old) (M.told m.new)) }
    ensures range { IfOk result (λ found. IfSome found IsSmallInteger) }
    ensures few { IfOk result (λ found. IsSome found → n < SMALL_INTEGERS) }
    ensures fit { StaysFit M.ObjectMemory m.old m.new result }
{
    let count = peek_number(
        m,
        Reg::R19,
        Reg::R10,
        TEMP_FRAME_START + n,
        BLOCK_ARGUMENT_COUNT_INDEX,
    )?;
    if !states(n, count) {
        return Ok(None);
    }
    peek_number(
        m,
        Reg::R19,
        Reg::R10,
        TEMP_FRAME_START + n,
        INITIAL_IP_INDEX,
    )
}

/// The same of a block. None where there is no block in R10.
#[inline(always)]
fn block_start<M: ObjectMemory>(m: &mut M, n: u32) -> Result<Option<i16>, Stop>
    requires fit { IsFit M.ObjectMemory m.old }
    requires few { n ≤ MOST_FIELDS }
    ensures serves { (cpu : Numbers) → Serves (M.told m.old) cpu (M.told m.new) cpu (model.block_start ((M.told m.old).regs 10) n) result }
    ensures looks { OnOk result (Looks (19 ∷ []) (M.told m.old) (M.told m.new)) }
    ensures range { IfOk result (λ found. IfSome found IsSmallInteger) }
    ensures few { IfOk result (λ found. IsSome found → n < SMALL_INTEGERS) }
    ensures fit { StaysFit M.ObjectMemory m.old m.new result }
{
    class_of(m, Reg::R19, Reg::R10)?;
    if !m.is(Reg::R19, Name::BLOCK_CONTEXT) {
        return Ok(None);
    }
    pointer_for(m, n)
}

/// Enters the block in R10 as new, with n values on its stack. The active context becomes its caller.
#[inline(always)]
fn enter_block<M: ObjectMemory>(m: &mut M, cpu: &mut Cpu, n: u32, ip: i16) -> Result<Answer, Stop>
    requires fit { IsFit M.ObjectMemory m.old }
    requires few { n < SMALL_INTEGERS }
    requires range { IsSmallInteger ip }
    ensures serves { Serves (M.told m.old) cpu.old (M.told m.new) cpu.new (model.enter_block ((M.told m.old).regs 10) n ip) result }
    ensures never_keeps { NeverKeeps result }
    ensures fit { StaysFit M.ObjectMemory m.old m.new result }
{
    store_number(m, Reg::R10, INSTRUCTION_POINTER_INDEX, ip)?;
    store_number(m, Reg::R10, STACK_POINTER_INDEX, n as i16)?;
    store_field(m, Reg::R10, CALLER_INDEX, Reg::ACTIVE_CONTEXT)?;
    enter(m, cpu, Reg::R10)?;
    Ok(Answer::Done)
}

/// Copies argument k of n from the stack to the stack of the block in R10.
fn pass_argument<M: ObjectMemory>(m: &mut M, cpu: &Cpu, n: u32, k: u32) -> Result<(), Stop>
    requires fit { IsFit M.ObjectMemory m.old }
    requires argument { k < n }
    requires few { n ≤ MOST_ARGUMENTS }
    ensures serves { Serves (M.told m.old) cpu.now (M.told m.new) cpu.now (model.pass_argument n ((M.told m.old).regs 10) k) result }
    ensures regs { OnOk result ((r : ℕ) → (r ≡ 19 → ⊥) → (M.told m.new).regs r ≡ (M.told m.old).regs r) }
    ensures fit { StaysFit M.ObjectMemory m.old m.new result }
{
    stack(m, cpu, Reg::R19, n - 1 - k)?;
    store_field(m, Reg::R10, TEMP_FRAME_START + k, Reg::R19)?;
    Ok(())
}

/// Copies the n arguments, in order, to the stack of the block in R10.
fn pass_arguments<M: ObjectMemory>(m: &mut M, cpu: &Cpu, n: u32) -> Result<(), Stop>
    requires fit { IsFit M.ObjectMemory m.old }
    requires few { n ≤ MOST_ARGUMENTS }
    ensures serves { Serves (M.told m.old) cpu.now (M.told m.new) cpu.now (each (model.pass_argument n ((M.told m.old).regs 10)) n) result }
    ensures regs { OnOk result ((r : ℕ) → (r ≡ 19 → ⊥) → (M.told m.new).regs r ≡ (M.told m.old).regs r) }
    ensures fit { StaysFit M.ObjectMemory m.old m.new result }
{
    for k in 0..n {
        pass_argument(m, cpu, n, k)?;
    }
    Ok(())
}

/// Enters a block with the arguments of the message (primitiveValue).
pub(crate) fn value<M: ObjectMemory>(m: &mut M, cpu: &mut Cpu) -> Result<Answer, Stop>
    requires fit { IsFit M.ObjectMemory m.old }
    ensures serves { Serves (M.told m.old) cpu.old (M.told m.new) cpu.new model.value result }
    ensures never_keeps { NeverKeeps result }
    ensures fit { StaysFit M.ObjectMemory m.old m.new result }
{
    let n = u32::from(cpu.args);
    stack(m, cpu, Reg::R10, n)?;
    let Some(ip) = block_start(m, n)? else {
        return Ok(Answer::Failed);
    };
    pass_arguments(m, cpu, n)?;
    pop(cpu, n + 1)?;
    enter_block(m, cpu, n, ip)
}

/// Copies element k of the array in R12 to the stack of the block in R10.
fn pass_element<M: ObjectMemory>(m: &mut M, k: u32) -> Result<(), Stop>
    requires fit { IsFit M.ObjectMemory m.old }
    requires few { k ≤ MOST_FIELDS }
    ensures serves { (cpu : Numbers) → Serves (M.told m.old) cpu (M.told m.new) cpu (model.pass_element ((M.told m.old).regs 12) ((M.told m.old).regs 10) k) result }
    ensures regs { OnOk result ((r : ℕ) → (r ≡ 19 → ⊥) → (M.told m.new).regs r ≡ (M.told m.old).regs r) }
    ensures fit { StaysFit M.ObjectMemory m.old m.new result }
{
    field(m, Reg::R19, Reg::R12, 0, k)?;
    store_field(m, Reg::R10, TEMP_FRAME_START + k, Reg::R19)?;
    Ok(())
}

/// Copies the first n elements of the array in R12 to the stack of the block in R10.
fn pass_elements<M: ObjectMemory>(m: &mut M, n: u32) -> Result<(), Stop>
    requires fit { IsFit M.ObjectMemory m.old }
    requires few { n ≤ MOST_FIELDS }
    ensures serves { (cpu : Numbers) → Serves (M.told m.old) cpu (M.told m.new) cpu (each (model.pass_element ((M.told m.old).regs 12) ((M.told m.old).regs 10)) n) result }
    ensures regs { OnOk result ((r : ℕ) → (r ≡ 19 → ⊥) → (M.told m.new).regs r ≡ (M.told m.old).regs r) }
    ensures fit { StaysFit M.ObjectMemory m.old m.new result }
{
    for k in 0..n {
        pass_element(m, k)?;
    }
    Ok(())
}

/// Enters a block with the elements of an Array as its arguments (primitiveValueWithArgs).
pub(crate) fn value_with_arguments<M: ObjectMemory>(
    m: &mut M,
    cpu: &mut Cpu,
) -> Result<Answer, Stop>
    requires fit { IsFit M.ObjectMemory m.old }
    ensures serves { Serves (M.told m.old) cpu.old (M.told m.new) cpu.new model.value_with_arguments result }
    ensures never_keeps { NeverKeeps result }
    ensures fit { StaysFit M.ObjectMemory m.old m.new result }
{
    stack(m, cpu, Reg::R10, 1)?;
    stack(m, cpu, Reg::R12, 0)?;
    let Some(n) = array_length(m)? else {
        return Ok(Answer::Failed);
    };
    let Some(ip) = block_start(m, n)? else {
        return Ok(Answer::Failed);
    };
    pass_elements(m, n)?;
    pop(cpu, 2)?;
    enter_block(m, cpu, n, ip)
}
