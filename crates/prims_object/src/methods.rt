// Methods as objects: the primitives 68, 69 and 79 (chapter 29). The method, or the class of a new one, is in R10, the index argument
// in R11, the value in R12.
ghost use Rattle.std.specs.Prelude.{◌≡◌, ◌≤◌, OnOk, IfSome};
ghost use Rattle.std.specs.Option.{option_and_then};
ghost use Rattle.long_names.specs.declared.limits.TheConstants.{MOST_CODE};
ghost use Rattle.long_names.specs.Words.{IsSmallInteger};
ghost use Rattle.object_memory.specs.Told.{IsReady};
ghost use Rattle.blue_model.specs.Storage as model;
ghost use Rattle.contexts.specs.Serves.{Serves, StaysSound};
ghost use Rattle.object_memory.specs.Calls.{IsFit};
ghost use Rattle.contexts.specs.Calls.{StaysFit};
ghost use Rattle.contexts.specs.Keeping.{NeverKeeps};

use crate::indexes::natural_argument;
use crate::operands::{one_argument, two_arguments};
use contexts::parts::{make_method, store_value};
use contexts::peeks::{peek_header, peek_literal};
use contexts::{Answer, Cpu, Stop, answer};
use long_names::MOST_CODE;
use object_memory::{ObjectMemory, Reg, shape};

/// Answers part n of the method: 1 is its header, which is given, and from 2 on are its literals.
fn method_object<M: ObjectMemory>(
    m: &mut M,
    cpu: &mut Cpu,
    header: i16,
    n: u32,
) -> Result<Answer, Stop>
    requires fit { IsFit M.ObjectMemory m.old }
    requires header { IsSmallInteger header }
    ensures serves { Serves (M.told m.old) cpu.old (M.told m.new) cpu.new (model.method_object ((M.told m.old).regs 10) header n) result }
    ensures never_keeps { NeverKeeps result }
    ensures fit { StaysFit M.ObjectMemory m.old m.new result }
{
    if n == 1 {
        m.int(Reg::R12, header);
        return answer(m, cpu, 1, Reg::R12);
    }
    if n < 2 {
        return Ok(Answer::Failed);
    }
    if !peek_literal(m, Reg::R12, Reg::R10, n - 2)? {
        return Ok(Answer::Failed);
    }
    answer(m, cpu, 1, Reg::R12)
}

/// Answers the header or a literal of a method (primitiveObjectAt).
pub(crate) fn object_at<M: ObjectMemory>(m: &mut M, cpu: &mut Cpu) -> Result<Answer, Stop>
    requires fit { IsFit M.ObjectMemory m.old }
    ensures serves { Serves (M.told m.old) cpu.old (M.told m.new) cpu.new model.object_at_index result }
    ensures never_keeps { NeverKeeps result }
    ensures fit { StaysFit M.ObjectMemory m.old m.new result }
{
    one_argument(m, cpu)?;
    let Some(header) = peek_header(m, Reg::R10)? else {
        return Ok(Answer::Failed);
    };
    let Some(n) = natural_argument(m, Reg::R11)? else {
        return Ok(Answer::Failed);
    };
    method_object(m, cpu, header, n)
}

/// Stores a literal of a method, and answers what was stored (primitiveObjectAtPut).
pub(crate) fn object_at_put<M: ObjectMemory>(m: &mut M, cpu: &mut Cpu) -> Result<Answer, Stop>
    requires fit { IsFit M.ObjectMemory m.old }
    ensures serves { Serves (M.told m.old) cpu.old (M.told m.new) cpu.new model.object_at_put result }
    ensures never_keeps { NeverKeeps result }
    ensures fit { StaysFit M.ObjectMemory m.old m.new result }
{
    two_arguments(m, cpu)?;
    let Some(_) = peek_header(m, Reg::R10)? else {
        return Ok(Answer::Failed);
    };
    let Some(n) = natural_argument(m, Reg::R11)? else {
        return Ok(Answer::Failed);
    };
    if n < 2 {
        return Ok(Answer::Failed);
    }
    if !peek_literal(m, Reg::R19, Reg::R10, n - 2)? {
        return Ok(Answer::Failed);
    }
    store_value(m, Reg::R10, n - 2, Reg::R12)?;
    answer(m, cpu, 2, Reg::R12)
}

/// How many bytes of code a method may have, where the number says so.
fn code_size(number: Option<i16>) -> Option<u32>
    ensures size { result ≡ option_and_then model.code_size number }
    ensures few { IfSome result (λ n. n ≤ MOST_CODE) }
{
    let number = number?;
    if number < 0 || number > MOST_CODE as i16 {
        return None;
    }
    Some(number as u32)
}

/// Makes a method of so many bytes of code and a header (primitiveNewMethod).
pub(crate) fn new_method<M: ObjectMemory>(m: &mut M, cpu: &mut Cpu) -> Result<Answer, Stop>
    requires fit { IsFit M.ObjectMemory m.old }
    ensures serves { Serves (M.told m.old) cpu.old (M.told m.new) cpu.new model.new_method result }
    ensures never_keeps { NeverKeeps result }
    ensures fit { StaysFit M.ObjectMemory m.old m.new result }
{
    two_arguments(m, cpu)?;
    let Some(code) = code_size(m.as_int(Reg::R11)) else {
        return Ok(Answer::Failed);
    };
    let Some(header) = m.as_int(Reg::R12) else {
        return Ok(Answer::Failed);
    };
    if !shape::is_name(m, Reg::R10) {
        return Ok(Answer::Failed);
    }
    make_method(m, Reg::R12, Reg::R10, header, code)?;
    answer(m, cpu, 2, Reg::R12)
}
