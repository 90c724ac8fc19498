// The primitives by their indexes.
ghost use Rattle.std.specs.Prelude.{◌≡◌};
ghost use Rattle.object_memory.specs.Calls.{IsFit};
ghost use Rattle.blue_model.specs.Trials.{primitive_in};
ghost use Rattle.blue_model.specs.LargeInts as model;
ghost use Rattle.contexts.specs.Serves.{Serves};
ghost use Rattle.contexts.specs.Calls.{StaysFit};
ghost use Rattle.contexts.specs.Keeping.{NeverKeeps};
ghost use Rattle.large_ints.specs.Answers as answers;
ghost use Rattle.large_ints.specs.Operations.{result_of, truth_of};

use crate::answers::large_answer;
use crate::operands::{shift_operands, two_operands};
use crate::operation::{Arithmetic, Comparison, Operation};
use crate::values::shifted;
use contexts::{Answer, Cpu, Stop, answer, boolean};
use object_memory::{ObjectMemory, Reg};

/// Answers a number.
fn answer_number<M: ObjectMemory>(m: &mut M, cpu: &mut Cpu, z: i128) -> Result<Answer, Stop>
    requires fit { IsFit M.ObjectMemory m.old }
    ensures serves { Serves (M.told m.old) cpu.old (M.told m.new) cpu.new (answers.answer_number z) result }
    ensures never_keeps { NeverKeeps result }
    ensures fit { StaysFit M.ObjectMemory m.old m.new result }
{
    large_answer(m, z)?;
    answer(m, cpu, 1, Reg::R12)
}

/// Answers a number out of two (primitiveAdd and its kin, chapter 29, of large integers).
fn arithmetic<M: ObjectMemory>(
    m: &mut M,
    cpu: &mut Cpu,
    operation: Arithmetic,
) -> Result<Answer, Stop>
    requires fit { IsFit M.ObjectMemory m.old }
    ensures serves { Serves (M.told m.old) cpu.old (M.told m.new) cpu.new (model.large_arithmetic (result_of operation)) result }
    ensures never_keeps { NeverKeeps result }
    ensures fit { StaysFit M.ObjectMemory m.old m.new result }
{
    let Some((a, b)) = two_operands(m, cpu)? else {
        return Ok(Answer::Failed);
    };
    let Some(number) = operation.result(a, b) else {
        return Ok(Answer::Failed);
    };
    answer_number(m, cpu, number)
}

/// Answers whether two numbers stand in an order (primitiveLessThan and its kin, chapter 29, of large integers).
fn comparison<M: ObjectMemory>(
    m: &mut M,
    cpu: &mut Cpu,
    operation: Comparison,
) -> Result<Answer, Stop>
    requires fit { IsFit M.ObjectMemory m.old }
    ensures serves { Serves (M.told m.old) cpu.old (M.told m.new) cpu.new (model.large_comparison (truth_of operation)) result }
    ensures never_keeps { NeverKeeps result }
    ensures fit { StaysFit M.ObjectMemory m.old m.new result }
{
    let Some((a, b)) = two_operands(m, cpu)? else {
        return Ok(Answer::Failed);
    };
    let holds = operation.holds(a, b);
    boolean(m, Reg::R10, holds)?;
    answer(m, cpu, 1, Reg::R10)
}

/// Answers the receiver times 2 to the power of the argument, rounded down (primitiveBitShift, chapter 29, of large integers).
fn shift<M: ObjectMemory>(m: &mut M, cpu: &mut Cpu) -> Result<Answer, Stop>
    requires fit { IsFit M.ObjectMemory m.old }
    ensures serves { Serves (M.told m.old) cpu.old (M.told m.new) cpu.new model.large_shift result }
    ensures never_keeps { NeverKeeps result }
    ensures fit { StaysFit M.ObjectMemory m.old m.new result }
{
    let Some((a, places)) = shift_operands(m, cpu)? else {
        return Ok(Answer::Failed);
    };
    let Some(number) = shifted(a, places) else {
        return Ok(Answer::Failed);
    };
    answer_number(m, cpu, number)
}

/// Runs the primitive of this index, for receiver and argument on the stack (dispatchIntegerPrimitives, chapter 29). It fails, and
/// changes nothing, where the index isn't one of 21 to 37, the message has another number of arguments than one, receiver or argument
/// is neither a SmallInteger nor a large integer (of 37 the argument: no SmallInteger), or there is no result in range. The scratch
/// registers 10 to 12 and 19 are used, and those of `contexts`.
pub fn run<M: ObjectMemory>(m: &mut M, cpu: &mut Cpu, index: u8) -> Result<Answer, Stop>
    requires fit { IsFit M.ObjectMemory m.old }
    ensures serves { Serves (M.told m.old) cpu.old (M.told m.new) cpu.new (primitive_in model.large_primitives index) result }
    ensures never_keeps { NeverKeeps result }
    ensures fit { StaysFit M.ObjectMemory m.old m.new result }
{
    let Some(operation) = Operation::numbered(index) else {
        return Ok(Answer::Failed);
    };
    if cpu.args != 1 {
        return Ok(Answer::Failed);
    }
    match operation {
        Operation::Number(operation) => arithmetic(m, cpu, operation),
        Operation::Truth(operation) => comparison(m, cpu, operation),
        Operation::Shift => shift(m, cpu),
    }
}
