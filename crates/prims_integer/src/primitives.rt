// The primitives by their indexes.
ghost use Rattle.std.specs.Prelude.{◌≡◌, OnOk, IfOk, IfSome};
ghost use Rattle.long_names.specs.Words.{IsSmallInteger};
ghost use Rattle.object_memory.specs.Told.{IsReady};
ghost use Rattle.blue_model.specs.Trials.{primitive_in};
ghost use Rattle.blue_model.specs.Arithmetic as model;
ghost use Rattle.contexts.specs.Serves.{Serves, StaysSound};
ghost use Rattle.prims_integer.specs.Operations.{result_of, truth_of, AreSmall};
ghost use Rattle.prims_integer.specs.Operations as rules;
ghost use Rattle.object_memory.specs.Calls.{IsFit};
ghost use Rattle.contexts.specs.Calls.{StaysFit};
ghost use Rattle.contexts.specs.Keeping.{NeverKeeps};

use crate::operation::{Arithmetic, Comparison, Operation};
use crate::point::make_point;
use contexts::{Answer, Cpu, Stop, answer, boolean, peek_stack, stack};
use object_memory::{ObjectMemory, Reg};

/// The receiver and the argument on the stack, where both are SmallIntegers.
fn two_numbers<M: ObjectMemory>(m: &mut M, cpu: &Cpu) -> Result<Option<(i16, i16)>, Stop>
    requires fit { IsFit M.ObjectMemory m.old }
    ensures serves { Serves (M.told m.old) cpu.now (M.told m.new) cpu.now rules.two_numbers result }
    ensures range { IfOk result (λ found. IfSome found AreSmall) }
    ensures fit { StaysFit M.ObjectMemory m.old m.new result }
{
    if let Some(receiver) = peek_stack(m, cpu, 1) {
        if let Some(argument) = peek_stack(m, cpu, 0) {
            return Ok(Some((receiver, argument)));
        }
    }
    stack(m, cpu, Reg::R10, 1)?;
    stack(m, cpu, Reg::R11, 0)?;
    let Some(receiver) = m.as_int(Reg::R10) else {
        return Ok(None);
    };
    let Some(argument) = m.as_int(Reg::R11) else {
        return Ok(None);
    };
    Ok(Some((receiver, argument)))
}

/// Answers a number out of two (primitiveAdd and its kin, chapter 29).
fn arithmetic<M: ObjectMemory>(
    m: &mut M,
    cpu: &mut Cpu,
    operation: Arithmetic,
) -> Result<Answer, Stop>
    requires fit { IsFit M.ObjectMemory m.old }
    ensures serves { Serves (M.told m.old) cpu.old (M.told m.new) cpu.new (model.arithmetic (result_of operation)) result }
    ensures never_keeps { NeverKeeps result }
    ensures fit { StaysFit M.ObjectMemory m.old m.new result }
{
    let Some((a, b)) = two_numbers(m, cpu)? else {
        return Ok(Answer::Failed);
    };
    let Some(number) = operation.result(a, b) else {
        return Ok(Answer::Failed);
    };
    m.int(Reg::R10, number);
    answer(m, cpu, 1, Reg::R10)
}

/// Answers whether two numbers stand in an order (primitiveLessThan and its kin, chapter 29).
fn comparison<M: ObjectMemory>(
    m: &mut M,
    cpu: &mut Cpu,
    operation: Comparison,
) -> Result<Answer, Stop>
    requires fit { IsFit M.ObjectMemory m.old }
    ensures serves { Serves (M.told m.old) cpu.old (M.told m.new) cpu.new (model.comparison (truth_of operation)) result }
    ensures never_keeps { NeverKeeps result }
    ensures fit { StaysFit M.ObjectMemory m.old m.new result }
{
    let Some((a, b)) = two_numbers(m, cpu)? else {
        return Ok(Answer::Failed);
    };
    let holds = operation.holds(a, b);
    boolean(m, Reg::R10, holds)?;
    answer(m, cpu, 1, Reg::R10)
}

/// Answers the point receiver @ argument (primitiveMakePoint, chapter 29).
fn point<M: ObjectMemory>(m: &mut M, cpu: &mut Cpu) -> Result<Answer, Stop>
    requires fit { IsFit M.ObjectMemory m.old }
    ensures serves { Serves (M.told m.old) cpu.old (M.told m.new) cpu.new model.point result }
    ensures never_keeps { NeverKeeps result }
    ensures fit { StaysFit M.ObjectMemory m.old m.new result }
{
    let Some((x, y)) = two_numbers(m, cpu)? else {
        return Ok(Answer::Failed);
    };
    make_point(m, x, y)?;
    answer(m, cpu, 1, Reg::R11)
}

/// Runs the primitive of this index, for receiver and argument on the stack (dispatchIntegerPrimitives, chapter 29). It fails, and
/// changes nothing, where the index isn't one of 1 to 18, the message has another number of arguments than one, receiver or argument
/// is no SmallInteger, or the result is none. The scratch registers 10 and 11 are used, and those of `contexts`.
pub fn run<M: ObjectMemory>(m: &mut M, cpu: &mut Cpu, index: u8) -> Result<Answer, Stop>
    requires fit { IsFit M.ObjectMemory m.old }
    ensures serves { Serves (M.told m.old) cpu.old (M.told m.new) cpu.new (primitive_in model.integer_primitives index) result }
    ensures never_keeps { NeverKeeps result }
    ensures fit { StaysFit M.ObjectMemory m.old m.new result }
{
    let Some(operation) = Operation::numbered(index) else {
        return Ok(Answer::Failed);
    };
    if cpu.args != 1 {
        return Ok(Answer::Failed);
    }
    match operation {
        Operation::Number(operation) => arithmetic(m, cpu, operation),
        Operation::Truth(operation) => comparison(m, cpu, operation),
        Operation::Point => point(m, cpu),
    }
}
