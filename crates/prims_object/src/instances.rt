// New objects, and the variables of any object: the primitives 70, 71, 73 and 74 (chapter 29). The class or the object is in R10, the
// size or index argument in R11, the value in R12.
ghost use Rattle.std.specs.Prelude.{◌≡◌, ◌≤◌, ℕ, OnOk};
ghost use Rattle.long_names.specs.declared.limits.TheConstants.{MOST_FIELDS};
ghost use Rattle.long_names.specs.State.{IsRef};
ghost use Rattle.long_names.specs.Words.{IsSmallInteger};
ghost use Rattle.object_memory.specs.Told.{IsReady};
ghost use Rattle.blue_model.specs.declared.cpu.Cpu.{Cpu as Numbers};
ghost use Rattle.blue_model.specs.Machine.{make};
ghost use Rattle.blue_model.specs.Storage as model;
ghost use Rattle.contexts.specs.Serves.{Serves, StaysSound, with_value};
ghost use Rattle.object_memory.specs.Calls.{IsFit};
ghost use Rattle.contexts.specs.Calls.{StaysFit};
ghost use Rattle.contexts.specs.Keeping.{NeverKeeps};

use crate::elements::element_at;
use crate::endings::store_and_answer;
use crate::indexes::natural_argument;
use crate::operands::{one_argument, two_arguments, variable_place};
use crate::specifications::{
    fixed_fields, has_pointers, has_words, is_indexable, specification_of,
};
use contexts::parts::{make_bytes, make_pointers, make_words};
use contexts::{Answer, Cpu, Stop, answer, stack};
use long_names::{MOST_FIELDS, Name};
use object_memory::{ObjectMemory, Reg};

/// Whether new or new: makes instances of the class in R10, which has this specification: new of a class that isn't indexable, new:
/// of one that is, and neither of that of methods.
fn is_made_by_new<M: ObjectMemory>(m: &M, specification: i16, indexable: bool) -> bool
    requires sound { M.sound m.now }
    requires range { IsSmallInteger specification }
    ensures { result ≡ model.is_made_by_new ((M.told m.now).regs 10) specification indexable }
{
    !m.is(Reg::R10, Name::COMPILED_METHOD) && is_indexable(specification) == indexable
}

/// Makes an instance of the class in R10 with its fixed fields alone, in R12.
fn make_fields<M: ObjectMemory>(m: &mut M, specification: i16) -> Result<(), Stop>
    requires fit { IsFit M.ObjectMemory m.old }
    requires class { IsRef ((M.told m.old).regs 10) }
    requires range { IsSmallInteger specification }
    ensures serves { (cpu : Numbers) → Serves (M.told m.old) cpu (M.told m.new) cpu (make ((M.told m.old).regs 10) (model.fields_making specification)) (with_value result ((M.told m.new).regs 12)) }
    ensures fit { StaysFit M.ObjectMemory m.old m.new result }
{
    let n = fixed_fields(specification);
    if has_pointers(specification) {
        make_pointers(m, Reg::R12, Reg::R10, n)
    } else {
        make_words(m, Reg::R12, Reg::R10, n)
    }
}

/// Makes an instance of the class in R10 of so many fields or elements, in R12.
fn make_sized<M: ObjectMemory>(m: &mut M, specification: i16, n: u32) -> Result<(), Stop>
    requires fit { IsFit M.ObjectMemory m.old }
    requires class { IsRef ((M.told m.old).regs 10) }
    requires range { IsSmallInteger specification }
    requires few { n ≤ MOST_FIELDS }
    ensures serves { (cpu : Numbers) → Serves (M.told m.old) cpu (M.told m.new) cpu (make ((M.told m.old).regs 10) (model.sized_making specification n)) (with_value result ((M.told m.new).regs 12)) }
    ensures fit { StaysFit M.ObjectMemory m.old m.new result }
{
    if has_pointers(specification) {
        make_pointers(m, Reg::R12, Reg::R10, n)
    } else if has_words(specification) {
        make_words(m, Reg::R12, Reg::R10, n)
    } else {
        make_bytes(m, Reg::R12, Reg::R10, n)
    }
}

/// Makes an instance of a class that isn't indexable (primitiveNew).
pub(crate) fn new<M: ObjectMemory>(m: &mut M, cpu: &mut Cpu) -> Result<Answer, Stop>
    requires fit { IsFit M.ObjectMemory m.old }
    ensures serves { Serves (M.told m.old) cpu.old (M.told m.new) cpu.new model.new result }
    ensures never_keeps { NeverKeeps result }
    ensures fit { StaysFit M.ObjectMemory m.old m.new result }
{
    stack(m, cpu, Reg::R10, 0)?;
    let Some(specification) = specification_of(m, Reg::R10)? else {
        return Ok(Answer::Failed);
    };
    if !is_made_by_new(m, specification, false) {
        return Ok(Answer::Failed);
    }
    make_fields(m, specification)?;
    answer(m, cpu, 0, Reg::R12)
}

/// Makes an instance of an indexable class, with so many elements (primitiveNewWithArg).
pub(crate) fn new_with_size<M: ObjectMemory>(m: &mut M, cpu: &mut Cpu) -> Result<Answer, Stop>
    requires fit { IsFit M.ObjectMemory m.old }
    ensures serves { Serves (M.told m.old) cpu.old (M.told m.new) cpu.new model.new_with_size result }
    ensures never_keeps { NeverKeeps result }
    ensures fit { StaysFit M.ObjectMemory m.old m.new result }
{
    one_argument(m, cpu)?;
    let Some(specification) = specification_of(m, Reg::R10)? else {
        return Ok(Answer::Failed);
    };
    if !is_made_by_new(m, specification, true) {
        return Ok(Answer::Failed);
    }
    let Some(elements) = natural_argument(m, Reg::R11)? else {
        return Ok(Answer::Failed);
    };
    let n = elements + fixed_fields(specification);
    if n > MOST_FIELDS {
        return Ok(Answer::Failed);
    }
    make_sized(m, specification, n)?;
    answer(m, cpu, 1, Reg::R12)
}

/// Answers a variable of any object of values (primitiveInstVarAt).
pub(crate) fn instance_variable_at<M: ObjectMemory>(
    m: &mut M,
    cpu: &mut Cpu,
) -> Result<Answer, Stop>
    requires fit { IsFit M.ObjectMemory m.old }
    ensures serves { Serves (M.told m.old) cpu.old (M.told m.new) cpu.new model.instance_variable_at result }
    ensures never_keeps { NeverKeeps result }
    ensures fit { StaysFit M.ObjectMemory m.old m.new result }
{
    one_argument(m, cpu)?;
    let Some(spot) = variable_place(m)? else {
        return Ok(Answer::Failed);
    };
    element_at(m, Reg::R10, spot)?;
    answer(m, cpu, 1, Reg::R12)
}

/// Stores a variable of any object of values, and answers what was stored (primitiveInstVarAtPut).
pub(crate) fn instance_variable_at_put<M: ObjectMemory>(
    m: &mut M,
    cpu: &mut Cpu,
) -> Result<Answer, Stop>
    requires fit { IsFit M.ObjectMemory m.old }
    ensures serves { Serves (M.told m.old) cpu.old (M.told m.new) cpu.new model.instance_variable_at_put result }
    ensures never_keeps { NeverKeeps result }
    ensures fit { StaysFit M.ObjectMemory m.old m.new result }
{
    two_arguments(m, cpu)?;
    let Some(spot) = variable_place(m)? else {
        return Ok(Answer::Failed);
    };
    store_and_answer(m, cpu, spot)
}
