// Messages that no class of the chain has a method for (chapter 28, doesNotUnderstand:).
ghost use Rattle.std.specs.Prelude.{◌≡◌, ◌<◌, ◌≤◌, ℕ, OnOk};
ghost use Rattle.long_names.specs.State.{SELECTOR, NEW_METHOD};
ghost use Rattle.object_memory.specs.Told.{IsReady};
ghost use Rattle.blue_model.specs.declared.limits.TheConstants.{MOST_ARGUMENTS};
ghost use Rattle.blue_model.specs.declared.cpu.Cpu.{Cpu as Numbers};
ghost use Rattle.blue_model.specs.Machine.{each};
ghost use Rattle.blue_model.specs.Messages as model;
ghost use Rattle.contexts.specs.Serves.{Serves, StaysSound, with_value};
ghost use Rattle.object_memory.specs.Calls.{IsFit};
ghost use Rattle.contexts.specs.Calls.{StaysFit};

use crate::lookup::find;
use blue_model::indexes::{MESSAGE_ARGUMENTS_INDEX, MESSAGE_SELECTOR_INDEX};
use contexts::parts::{known, make_pointers, store_field};
use contexts::{Cause, Cpu, Stop, pop, push, set_arguments, stack};
use long_names::Name;
use object_memory::{ObjectMemory, Reg};

// The scratch registers from 15 to 18 are those of this file and of `activation`; what callers keep stands below.

/// Copies argument i of n from the stack into the array in R16.
fn copy_argument<M: ObjectMemory>(m: &mut M, cpu: &Cpu, n: u32, i: u32) -> Result<(), Stop>
    requires fit { IsFit M.ObjectMemory m.old }
    requires argument { i < n }
    requires few { n ≤ MOST_ARGUMENTS }
    ensures serves { Serves (M.told m.old) cpu.now (M.told m.new) cpu.now (model.copy_argument n ((M.told m.old).regs 16) i) result }
    ensures regs { OnOk result ((r : ℕ) → (r ≡ 17 → ⊥) → (M.told m.new).regs r ≡ (M.told m.old).regs r) }
    ensures fit { StaysFit M.ObjectMemory m.old m.new result }
{
    stack(m, cpu, Reg::R17, n - 1 - i)?;
    store_field(m, Reg::R16, i, Reg::R17)?;
    Ok(())
}

/// Copies the n arguments, in order, into the array in R16.
fn copy_arguments<M: ObjectMemory>(m: &mut M, cpu: &Cpu, n: u32) -> Result<(), Stop>
    requires fit { IsFit M.ObjectMemory m.old }
    requires few { n ≤ MOST_ARGUMENTS }
    ensures serves { Serves (M.told m.old) cpu.now (M.told m.new) cpu.now (each (model.copy_argument n ((M.told m.old).regs 16)) n) result }
    ensures regs { OnOk result ((r : ℕ) → (r ≡ 17 → ⊥) → (M.told m.new).regs r ≡ (M.told m.old).regs r) }
    ensures fit { StaysFit M.ObjectMemory m.old m.new result }
{
    for i in 0..n {
        copy_argument(m, cpu, n, i)?;
    }
    Ok(())
}

/// Makes an array of the n arguments, in R16.
fn make_arguments<M: ObjectMemory>(m: &mut M, cpu: &Cpu, n: u32) -> Result<(), Stop>
    requires fit { IsFit M.ObjectMemory m.old }
    requires few { n ≤ MOST_ARGUMENTS }
    ensures serves { Serves (M.told m.old) cpu.now (M.told m.new) cpu.now (model.make_arguments n) (with_value result ((M.told m.new).regs 16)) }
    ensures regs { OnOk result ((r : ℕ) → r < 15 → (M.told m.new).regs r ≡ (M.told m.old).regs r) }
    ensures fit { StaysFit M.ObjectMemory m.old m.new result }
{
    known(m, Reg::R15, Name::ARRAY)?;
    make_pointers(m, Reg::R16, Reg::R15, n)?;
    copy_arguments(m, cpu, n)?;
    Ok(())
}

/// Makes a message of the selector and the array in R16, in R17.
fn make_message<M: ObjectMemory>(m: &mut M) -> Result<(), Stop>
    requires fit { IsFit M.ObjectMemory m.old }
    ensures serves { (cpu : Numbers) → Serves (M.told m.old) cpu (M.told m.new) cpu (model.make_message ((M.told m.old).regs SELECTOR) ((M.told m.old).regs 16)) (with_value result ((M.told m.new).regs 17)) }
    ensures regs { OnOk result ((r : ℕ) → r < 15 → (M.told m.new).regs r ≡ (M.told m.old).regs r) }
    ensures fit { StaysFit M.ObjectMemory m.old m.new result }
{
    known(m, Reg::R15, Name::MESSAGE)?;
    make_pointers(m, Reg::R17, Reg::R15, 2)?;
    store_field(m, Reg::R17, MESSAGE_SELECTOR_INDEX, Reg::SELECTOR)?;
    store_field(m, Reg::R17, MESSAGE_ARGUMENTS_INDEX, Reg::R16)?;
    Ok(())
}

/// A message of the selector and the arguments takes their place on the stack (createActualMessage, chapter 28).
fn create_message<M: ObjectMemory>(m: &mut M, cpu: &mut Cpu) -> Result<(), Stop>
    requires fit { IsFit M.ObjectMemory m.old }
    ensures serves { Serves (M.told m.old) cpu.old (M.told m.new) cpu.new (model.create_message ((M.told m.old).regs SELECTOR) cpu.old.args) result }
    ensures regs { OnOk result ((r : ℕ) → r < 15 → (M.told m.new).regs r ≡ (M.told m.old).regs r) }
    ensures fit { StaysFit M.ObjectMemory m.old m.new result }
{
    let n = u32::from(cpu.args);
    make_arguments(m, cpu, n)?;
    make_message(m)?;
    pop(cpu, n)?;
    push(m, cpu, Reg::R17)?;
    Ok(())
}

/// Looks doesNotUnderstand: up from the class in a register, with a message of what was sent as its argument. Stuck with NotUnderstood
/// where no class of the chain has it.
fn tell<M: ObjectMemory>(m: &mut M, cpu: &mut Cpu, class: Reg) -> Result<(), Stop>
    requires fit { IsFit M.ObjectMemory m.old }
    requires class { class < 15 }
    requires apart { class ≡ SELECTOR → ⊥ }
    ensures serves { Serves (M.told m.old) cpu.old (M.told m.new) cpu.new (model.tell ((M.told m.old).regs class) ((M.told m.old).regs SELECTOR)) result }
    ensures fit { StaysFit M.ObjectMemory m.old m.new result }
{
    create_message(m, cpu)?;
    known(m, Reg::R15, Name::DOES_NOT_UNDERSTAND)?;
    m.copy(Reg::SELECTOR, Reg::R15);
    set_arguments(cpu, 1);
    if !find(m, class)? {
        return Err(Stop::Stuck(Cause::NotUnderstood));
    }
    Ok(())
}

/// Looks the message's selector (register 4) up from the class in a register, which is neither of these two, and puts the method into
/// register 5. Where the chain ends, doesNotUnderstand: is looked up in its place, with a message as its argument
/// (findNewMethodInClass:, chapter 28). Stuck with NotUnderstood where no class has that either. The scratch registers from 15 on are
/// used.
pub fn find_or_tell<M: ObjectMemory>(m: &mut M, cpu: &mut Cpu, class: Reg) -> Result<(), Stop>
    requires fit { IsFit M.ObjectMemory m.old }
    requires class { class < 15 }
    requires apart { class ≡ SELECTOR → ⊥ }
    requires other { class ≡ NEW_METHOD → ⊥ }
    ensures serves { Serves (M.told m.old) cpu.old (M.told m.new) cpu.new (model.find_or_tell ((M.told m.old).regs class)) result }
    ensures fit { StaysFit M.ObjectMemory m.old m.new result }
{
    if find(m, class)? {
        return Ok(());
    }
    if m.is(Reg::SELECTOR, Name::DOES_NOT_UNDERSTAND) {
        return Err(Stop::Stuck(Cause::NotUnderstood));
    }
    tell(m, cpu, class)?;
    Ok(())
}
