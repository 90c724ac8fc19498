// Messages whose selector is on the stack (chapter 29, primitivePerform and primitivePerformWithArgs). The receiver is in R10, the
// selector in R11, the array in R12, the method that was found in R22.
ghost use Rattle.std.specs.Prelude.{◌≡◌, ◌<◌, ◌≤◌, ℕ, [], ◌∷◌, Ok, OnOk, IfOk, IsTrue};
ghost use Rattle.object_memory.specs.Told.{IsReady};
ghost use Rattle.object_memory.specs.Shape.{Looks};
ghost use Rattle.blue_model.specs.declared.limits.TheConstants.{MOST_ARGUMENTS};
ghost use Rattle.blue_model.specs.declared.cpu.Cpu.{Cpu as Numbers};
ghost use Rattle.blue_model.specs.Machine.{each};
ghost use Rattle.blue_model.specs.Messages as messages;
ghost use Rattle.blue_model.specs.Control as model;
ghost use Rattle.contexts.specs.Serves.{Serves, StaysSound, with_found};
ghost use Rattle.object_memory.specs.Calls.{IsFit};
ghost use Rattle.contexts.specs.Calls.{StaysFit};
ghost use Rattle.contexts.specs.Keeping.{NeverKeeps};

use crate::numbers::{extension_arguments, fits, flag_arguments};
use crate::parts::array_length;
use blue_model::limits::{EXTENSION_FLAG, MOST_ARGUMENTS};
use contexts::parts::{class_of, extension, field, header, size};
use contexts::{Answer, Cpu, Stop, pop, push, put_stack, set_arguments, stack};
use object_memory::{ObjectMemory, Reg, shape};
use send_lookup::header::flag;
use send_lookup::look_up;

/// How many arguments the method in R22 takes (argumentCountOf:, chapter 28).
fn arguments_of<M: ObjectMemory>(m: &mut M) -> Result<u32, Stop>
    requires fit { IsFit M.ObjectMemory m.old }
    ensures serves { (cpu : Numbers) → Serves (M.told m.old) cpu (M.told m.new) cpu (messages.arguments_of ((M.told m.old).regs 22)) result }
    ensures looks { OnOk result (Looks (19 ∷ []) (M.told m.old) (M.told m.new)) }
    ensures fit { StaysFit M.ObjectMemory m.old m.new result }
{
    let header = header(m, Reg::R22)?;
    if flag(header) == EXTENSION_FLAG {
        let extension = extension(m, Reg::R19, Reg::R22)?;
        return Ok(extension_arguments(extension));
    }
    Ok(flag_arguments(flag(header)))
}

/// Loads the method for n arguments that the class of the receiver in R10 has for the selector in R11 into R22. False
/// where the chain of classes has none, or one for another number of arguments.
fn method_for<M: ObjectMemory>(m: &mut M, n: u32) -> Result<bool, Stop>
    requires fit { IsFit M.ObjectMemory m.old }
    ensures serves { (cpu : Numbers) → Serves (M.told m.old) cpu (M.told m.new) cpu (model.method_for ((M.told m.old).regs 10) ((M.told m.old).regs 11) n) (with_found result ((M.told m.new).regs 22)) }
    ensures regs { OnOk result ((r : ℕ) → r < 19 → (M.told m.new).regs r ≡ (M.told m.old).regs r) }
    ensures few { IfOk result (λ found. IsTrue found → n ≤ MOST_ARGUMENTS) }
    ensures fit { StaysFit M.ObjectMemory m.old m.new result }
{
    class_of(m, Reg::R19, Reg::R10)?;
    if !look_up(m, Reg::R11, Reg::R19)? {
        return Ok(false);
    }
    if n > MOST_ARGUMENTS {
        return Ok(false);
    }
    let count = arguments_of(m)?;
    Ok(count == n)
}

/// The method in R22 is to be executed with n arguments.
fn execute_found<M: ObjectMemory>(m: &mut M, cpu: &mut Cpu, n: u8) -> Answer
    requires fit { IsFit M.ObjectMemory m.old }
    ensures serves { Serves (M.told m.old) cpu.old (M.told m.new) cpu.new (model.execute_found ((M.told m.old).regs 22) n) (Ok result) }
    ensures never_keeps { NeverKeeps (Ok result) }
    ensures fit { StaysFit M.ObjectMemory m.old m.new (Ok result) }
{
    m.copy(Reg::NEW_METHOD, Reg::R22);
    set_arguments(cpu, n);
    Answer::Execute
}

/// Moves argument k of n down by one on the stack.
fn move_down<M: ObjectMemory>(m: &mut M, cpu: &Cpu, n: u32, k: u32) -> Result<(), Stop>
    requires fit { IsFit M.ObjectMemory m.old }
    requires argument { k < n }
    ensures serves { Serves (M.told m.old) cpu.now (M.told m.new) cpu.now (model.move_down n k) result }
    ensures regs { OnOk result ((r : ℕ) → (r ≡ 19 → ⊥) → (M.told m.new).regs r ≡ (M.told m.old).regs r) }
    ensures fit { StaysFit M.ObjectMemory m.old m.new result }
{
    stack(m, cpu, Reg::R19, n - 1 - k)?;
    put_stack(m, cpu, n - k, Reg::R19)?;
    Ok(())
}

/// Moves the n arguments down by one on the stack, over the selector.
fn move_arguments<M: ObjectMemory>(m: &mut M, cpu: &Cpu, n: u32) -> Result<(), Stop>
    requires fit { IsFit M.ObjectMemory m.old }
    ensures serves { Serves (M.told m.old) cpu.now (M.told m.new) cpu.now (each (model.move_down n) n) result }
    ensures regs { OnOk result ((r : ℕ) → (r ≡ 19 → ⊥) → (M.told m.new).regs r ≡ (M.told m.old).regs r) }
    ensures fit { StaysFit M.ObjectMemory m.old m.new result }
{
    for k in 0..n {
        move_down(m, cpu, n, k)?;
    }
    Ok(())
}

/// Takes the selector out of the stack, under the n other arguments, and has the receiver's method for it executed.
fn perform_with<M: ObjectMemory>(m: &mut M, cpu: &mut Cpu, n: u8) -> Result<Answer, Stop>
    requires fit { IsFit M.ObjectMemory m.old }
    ensures serves { Serves (M.told m.old) cpu.old (M.told m.new) cpu.new (model.perform_with n) result }
    ensures never_keeps { NeverKeeps result }
    ensures fit { StaysFit M.ObjectMemory m.old m.new result }
{
    let count = u32::from(n);
    stack(m, cpu, Reg::R10, count + 1)?;
    stack(m, cpu, Reg::R11, count)?;
    if !shape::is_name(m, Reg::R11) {
        return Ok(Answer::Failed);
    }
    if !method_for(m, count)? {
        return Ok(Answer::Failed);
    }
    move_arguments(m, cpu, count)?;
    pop(cpu, 1)?;
    Ok(execute_found(m, cpu, n))
}

/// Has the method executed that the receiver has for the first argument, with the others as its arguments (primitivePerform).
pub(crate) fn perform<M: ObjectMemory>(m: &mut M, cpu: &mut Cpu) -> Result<Answer, Stop>
    requires fit { IsFit M.ObjectMemory m.old }
    ensures serves { Serves (M.told m.old) cpu.old (M.told m.new) cpu.new model.perform result }
    ensures never_keeps { NeverKeeps result }
    ensures fit { StaysFit M.ObjectMemory m.old m.new result }
{
    if cpu.args == 0 {
        return Ok(Answer::Failed);
    }
    perform_with(m, cpu, cpu.args - 1)
}

/// Whether n values fit on the stack in place of the two on top.
fn has_room<M: ObjectMemory>(m: &mut M, cpu: &Cpu, n: u32) -> Result<bool, Stop>
    requires fit { IsFit M.ObjectMemory m.old }
    ensures serves { Serves (M.told m.old) cpu.now (M.told m.new) cpu.now (model.has_room n) result }
    ensures looks { OnOk result (Looks [] (M.told m.old) (M.told m.new)) }
    ensures fit { StaysFit M.ObjectMemory m.old m.new result }
{
    let len = size(m, Reg::ACTIVE_CONTEXT, 0)?;
    Ok(fits(cpu, n, len))
}

/// Pushes element k of the array in R12.
fn push_element<M: ObjectMemory>(m: &mut M, cpu: &mut Cpu, k: u32) -> Result<(), Stop>
    requires fit { IsFit M.ObjectMemory m.old }
    ensures serves { Serves (M.told m.old) cpu.old (M.told m.new) cpu.new (model.push_element ((M.told m.old).regs 12) k) result }
    ensures regs { OnOk result ((r : ℕ) → (r ≡ 19 → ⊥) → (M.told m.new).regs r ≡ (M.told m.old).regs r) }
    ensures fit { StaysFit M.ObjectMemory m.old m.new result }
{
    field(m, Reg::R19, Reg::R12, 0, k)?;
    push(m, cpu, Reg::R19)?;
    Ok(())
}

/// Pushes the first n elements of the array in R12.
fn push_elements<M: ObjectMemory>(m: &mut M, cpu: &mut Cpu, n: u32) -> Result<(), Stop>
    requires fit { IsFit M.ObjectMemory m.old }
    ensures serves { Serves (M.told m.old) cpu.old (M.told m.new) cpu.new (each (model.push_element ((M.told m.old).regs 12)) n) result }
    ensures regs { OnOk result ((r : ℕ) → (r ≡ 19 → ⊥) → (M.told m.new).regs r ≡ (M.told m.old).regs r) }
    ensures fit { StaysFit M.ObjectMemory m.old m.new result }
{
    for k in 0..n {
        push_element(m, cpu, k)?;
    }
    Ok(())
}

/// Has the method executed that the receiver has for the first argument, with the elements of an Array as its arguments
/// (primitivePerformWithArgs). They are put in place of the array and the selector.
pub(crate) fn perform_with_arguments<M: ObjectMemory>(
    m: &mut M,
    cpu: &mut Cpu,
) -> Result<Answer, Stop>
    requires fit { IsFit M.ObjectMemory m.old }
    ensures serves { Serves (M.told m.old) cpu.old (M.told m.new) cpu.new model.perform_with_arguments result }
    ensures never_keeps { NeverKeeps result }
    ensures fit { StaysFit M.ObjectMemory m.old m.new result }
{
    stack(m, cpu, Reg::R10, 2)?;
    stack(m, cpu, Reg::R11, 1)?;
    stack(m, cpu, Reg::R12, 0)?;
    if !shape::is_name(m, Reg::R11) {
        return Ok(Answer::Failed);
    }
    let Some(n) = array_length(m)? else {
        return Ok(Answer::Failed);
    };
    if !method_for(m, n)? {
        return Ok(Answer::Failed);
    }
    if !has_room(m, cpu, n)? {
        return Ok(Answer::Failed);
    }
    pop(cpu, 2)?;
    push_elements(m, cpu, n)?;
    Ok(execute_found(m, cpu, n as u8))
}
