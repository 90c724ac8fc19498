// Sends (chapter 28, send bytecodes).
ghost use Rattle.std.specs.Prelude.{◌≡◌, ◌<◌, ◌≤◌, OnOk};
ghost use Rattle.object_memory.specs.Told.{IsReady};
ghost use Rattle.blue_model.specs.declared.primitives.TheConstants.{PRIMITIVE_BLOCK_COPY, PRIMITIVE_VALUE, SPECIAL_BLOCK_COPY};
ghost use Rattle.blue_model.specs.declared.step.Step.TheVariants.{Next};
ghost use Rattle.blue_model.specs.Sends as model;
ghost use Rattle.blue_model.specs.Bytecodes as bytecodes;
ghost use Rattle.contexts.specs.Serves.{Serves, Speaks, StaysSound};
ghost use Rattle.std.specs.List.{slice_index_or};
ghost use Rattle.object_memory.specs.Calls.{IsFit};
ghost use Rattle.contexts.specs.Calls.{StaysFit};
ghost use Rattle.contexts.specs.Keeping.{StepsBy};

use crate::execution::execute;
use crate::tries::{has_failed, step_of, try_primitive};
use crate::variables::literal_constant;
use blue_model::Step;
use blue_model::indexes::{ASSOCIATION_SIZE, SUPERCLASS_INDEX, VALUE_INDEX};
use blue_model::primitives::{
    PRIMITIVE_ADD, PRIMITIVE_BIT_AND, PRIMITIVE_BIT_OR, PRIMITIVE_BIT_SHIFT, PRIMITIVE_BLOCK_COPY,
    PRIMITIVE_DIV, PRIMITIVE_DIVIDE, PRIMITIVE_EQUAL, PRIMITIVE_GREATER_OR_EQUAL,
    PRIMITIVE_GREATER_THAN, PRIMITIVE_LESS_OR_EQUAL, PRIMITIVE_LESS_THAN, PRIMITIVE_MAKE_POINT,
    PRIMITIVE_MOD, PRIMITIVE_MULTIPLY, PRIMITIVE_NOT_EQUAL, PRIMITIVE_SUBTRACT, PRIMITIVE_VALUE,
    SPECIAL_BLOCK_COPY,
};
use contexts::parts::{class_of, field, known, last_literal, number};
use contexts::{Cause, Cpu, Stop, fetch, peek_stack, push, set_arguments, stack};
use event_file::EventList;
use long_names::Name;
use object_memory::{ObjectMemory, Reg};
use send_lookup::find_or_tell;

/// Sends the selector in R10 with n arguments, looked up from the class in R11 on.
fn send_from<M: ObjectMemory>(
    m: &mut M,
    cpu: &mut Cpu,
    events: &EventList,
    n: u8,
) -> Result<Step, Stop>
    requires fit { IsFit M.ObjectMemory m.old }
    ensures serves { Speaks Next (M.told m.old) cpu.old (M.told m.new) cpu.new (model.send_from events.now ((M.told m.old).regs 11) ((M.told m.old).regs 10) n) result }
    ensures keeps { StepsBy cpu.old.vault result }
    ensures fit { StaysFit M.ObjectMemory m.old m.new result }
{
    m.copy(Reg::SELECTOR, Reg::R10);
    set_arguments(cpu, n);
    find_or_tell(m, cpu, Reg::R11)?;
    execute(m, cpu, events)
}

/// Sends the selector in R10 with n arguments (sendSelector:argumentCount:).
#[inline(always)]
pub(crate) fn send<M: ObjectMemory>(
    m: &mut M,
    cpu: &mut Cpu,
    events: &EventList,
    n: u8,
) -> Result<Step, Stop>
    requires fit { IsFit M.ObjectMemory m.old }
    ensures serves { Speaks Next (M.told m.old) cpu.old (M.told m.new) cpu.new (model.send events.now ((M.told m.old).regs 10) n) result }
    ensures keeps { StepsBy cpu.old.vault result }
    ensures fit { StaysFit M.ObjectMemory m.old m.new result }
{
    stack(m, cpu, Reg::R11, u32::from(n))?;
    class_of(m, Reg::R11, Reg::R11)?;
    send_from(m, cpu, events, n)
}

/// Sends the selector in R10 with n arguments to super: the lookup starts above the class that the method stands in.
pub(crate) fn send_super<M: ObjectMemory>(
    m: &mut M,
    cpu: &mut Cpu,
    events: &EventList,
    n: u8,
) -> Result<Step, Stop>
    requires fit { IsFit M.ObjectMemory m.old }
    ensures serves { Speaks Next (M.told m.old) cpu.old (M.told m.new) cpu.new (model.send_super events.now ((M.told m.old).regs 10) n) result }
    ensures keeps { StepsBy cpu.old.vault result }
    ensures fit { StaysFit M.ObjectMemory m.old m.new result }
{
    stack(m, cpu, Reg::R11, u32::from(n))?;
    last_literal(m, Reg::R11, Reg::METHOD)?;
    field(m, Reg::R11, Reg::R11, ASSOCIATION_SIZE, VALUE_INDEX)?;
    field(m, Reg::R11, Reg::R11, 0, SUPERCLASS_INDEX)?;
    send_from(m, cpu, events, n)
}

/// A number of arguments, where it is one.
#[inline(always)]
fn argument_count(number: i16) -> Option<u8>
    ensures { result ≡ model.argument_count number }
{
    u8::try_from(number).ok()
}

/// Sends special selector s with as many arguments as the array of special selectors says.
pub(crate) fn special_send<M: ObjectMemory>(
    m: &mut M,
    cpu: &mut Cpu,
    events: &EventList,
    s: u32,
) -> Result<Step, Stop>
    requires fit { IsFit M.ObjectMemory m.old }
    requires number { s < 32 }
    ensures serves { Speaks Next (M.told m.old) cpu.old (M.told m.new) cpu.new (model.special_send events.now s) result }
    ensures keeps { StepsBy cpu.old.vault result }
    ensures fit { StaysFit M.ObjectMemory m.old m.new result }
{
    known(m, Reg::R12, Name::SPECIAL_SELECTORS)?;
    field(m, Reg::R10, Reg::R12, 2 * s + 2, 2 * s)?;
    let count = number(m, Reg::R11, Reg::R12, 2 * s + 2, 2 * s + 1)?;
    let Some(n) = argument_count(count) else {
        return Err(Stop::Stuck(Cause::Shape));
    };
    send(m, cpu, events, n)
}

/// Sends cannotReturn: to the active context, with the value in R10.
pub(crate) fn cannot_return<M: ObjectMemory>(
    m: &mut M,
    cpu: &mut Cpu,
    events: &EventList,
) -> Result<Step, Stop>
    requires fit { IsFit M.ObjectMemory m.old }
    ensures serves { Speaks Next (M.told m.old) cpu.old (M.told m.new) cpu.new (model.cannot_return events.now ((M.told m.old).regs 10)) result }
    ensures keeps { StepsBy cpu.old.vault result }
    ensures fit { StaysFit M.ObjectMemory m.old m.new result }
{
    push(m, cpu, Reg::ACTIVE_CONTEXT)?;
    push(m, cpu, Reg::R10)?;
    known(m, Reg::R10, Name::CANNOT_RETURN)?;
    send(m, cpu, events, 1)
}

/// Sends mustBeBoolean to the value in R10.
pub(crate) fn must_be_boolean<M: ObjectMemory>(
    m: &mut M,
    cpu: &mut Cpu,
    events: &EventList,
) -> Result<Step, Stop>
    requires fit { IsFit M.ObjectMemory m.old }
    ensures serves { Speaks Next (M.told m.old) cpu.old (M.told m.new) cpu.new (model.must_be_boolean events.now ((M.told m.old).regs 10)) result }
    ensures keeps { StepsBy cpu.old.vault result }
    ensures fit { StaysFit M.ObjectMemory m.old m.new result }
{
    push(m, cpu, Reg::R10)?;
    known(m, Reg::R10, Name::MUST_BE_BOOLEAN)?;
    send(m, cpu, events, 0)
}

/// Sends literal i with n arguments.
pub(crate) fn send_literal<M: ObjectMemory>(
    m: &mut M,
    cpu: &mut Cpu,
    events: &EventList,
    i: u32,
    n: u8,
) -> Result<Step, Stop>
    requires fit { IsFit M.ObjectMemory m.old }
    requires number { i < 256 }
    ensures serves { Speaks Next (M.told m.old) cpu.old (M.told m.new) cpu.new (bytecodes.send_literal events.now i n) result }
    ensures keeps { StepsBy cpu.old.vault result }
    ensures fit { StaysFit M.ObjectMemory m.old m.new result }
{
    literal_constant(m, Reg::R10, i)?;
    send(m, cpu, events, n)
}

/// Sends literal i with n arguments to super.
pub(crate) fn send_literal_super<M: ObjectMemory>(
    m: &mut M,
    cpu: &mut Cpu,
    events: &EventList,
    i: u32,
    n: u8,
) -> Result<Step, Stop>
    requires fit { IsFit M.ObjectMemory m.old }
    requires number { i < 256 }
    ensures serves { Speaks Next (M.told m.old) cpu.old (M.told m.new) cpu.new (bytecodes.send_literal_super events.now i n) result }
    ensures keeps { StepsBy cpu.old.vault result }
    ensures fit { StaysFit M.ObjectMemory m.old m.new result }
{
    literal_constant(m, Reg::R10, i)?;
    send_super(m, cpu, events, n)
}

/// Sends a literal: its number and that of the arguments stand in the next byte.
pub(crate) fn single_extended_send<M: ObjectMemory>(
    m: &mut M,
    cpu: &mut Cpu,
    events: &EventList,
) -> Result<Step, Stop>
    requires fit { IsFit M.ObjectMemory m.old }
    ensures serves { Speaks Next (M.told m.old) cpu.old (M.told m.new) cpu.new (bytecodes.single_extended (bytecodes.send_literal events.now)) result }
    ensures keeps { StepsBy cpu.old.vault result }
    ensures fit { StaysFit M.ObjectMemory m.old m.new result }
{
    let byte = fetch(m, cpu)?;
    send_literal(m, cpu, events, u32::from(byte % 32), byte / 32)
}

/// Sends a literal: the number of arguments stands in the next byte, that of the literal in the byte after it.
pub(crate) fn double_extended_send<M: ObjectMemory>(
    m: &mut M,
    cpu: &mut Cpu,
    events: &EventList,
) -> Result<Step, Stop>
    requires fit { IsFit M.ObjectMemory m.old }
    ensures serves { Speaks Next (M.told m.old) cpu.old (M.told m.new) cpu.new (bytecodes.double_extended (bytecodes.send_literal events.now)) result }
    ensures keeps { StepsBy cpu.old.vault result }
    ensures fit { StaysFit M.ObjectMemory m.old m.new result }
{
    let n = fetch(m, cpu)?;
    let i = fetch(m, cpu)?;
    send_literal(m, cpu, events, u32::from(i), n)
}

/// Sends a literal to super: its number and that of the arguments stand in the next byte.
pub(crate) fn single_extended_super<M: ObjectMemory>(
    m: &mut M,
    cpu: &mut Cpu,
    events: &EventList,
) -> Result<Step, Stop>
    requires fit { IsFit M.ObjectMemory m.old }
    ensures serves { Speaks Next (M.told m.old) cpu.old (M.told m.new) cpu.new (bytecodes.single_extended (bytecodes.send_literal_super events.now)) result }
    ensures keeps { StepsBy cpu.old.vault result }
    ensures fit { StaysFit M.ObjectMemory m.old m.new result }
{
    let byte = fetch(m, cpu)?;
    send_literal_super(m, cpu, events, u32::from(byte % 32), byte / 32)
}

/// Sends a literal to super: the number of arguments stands in the next byte, that of the literal in the byte after it.
pub(crate) fn double_extended_super<M: ObjectMemory>(
    m: &mut M,
    cpu: &mut Cpu,
    events: &EventList,
) -> Result<Step, Stop>
    requires fit { IsFit M.ObjectMemory m.old }
    ensures serves { Speaks Next (M.told m.old) cpu.old (M.told m.new) cpu.new (bytecodes.double_extended (bytecodes.send_literal_super events.now)) result }
    ensures keeps { StepsBy cpu.old.vault result }
    ensures fit { StaysFit M.ObjectMemory m.old m.new result }
{
    let n = fetch(m, cpu)?;
    let i = fetch(m, cpu)?;
    send_literal_super(m, cpu, events, u32::from(i), n)
}

/// Tries a primitive for a message of n arguments, and sends special selector s where it fails.
pub(crate) fn tried_for<M: ObjectMemory>(
    m: &mut M,
    cpu: &mut Cpu,
    events: &EventList,
    index: u8,
    n: u8,
    s: u32,
) -> Result<Step, Stop>
    requires fit { IsFit M.ObjectMemory m.old }
    requires number { s < 32 }
    ensures serves { Speaks Next (M.told m.old) cpu.old (M.told m.new) cpu.new (bytecodes.tried_for events.now index n s) result }
    ensures keeps { StepsBy cpu.old.vault result }
    ensures fit { StaysFit M.ObjectMemory m.old m.new result }
{
    set_arguments(cpu, n);
    let answer = try_primitive(m, cpu, events, index)?;
    if has_failed(answer) {
        return special_send(m, cpu, events, s);
    }
    Ok(step_of(answer))
}

/// The primitives of the arithmetic special selectors, in their order.
const ARITHMETIC: [u8; 16] = [
    PRIMITIVE_ADD,
    PRIMITIVE_SUBTRACT,
    PRIMITIVE_LESS_THAN,
    PRIMITIVE_GREATER_THAN,
    PRIMITIVE_LESS_OR_EQUAL,
    PRIMITIVE_GREATER_OR_EQUAL,
    PRIMITIVE_EQUAL,
    PRIMITIVE_NOT_EQUAL,
    PRIMITIVE_MULTIPLY,
    PRIMITIVE_DIVIDE,
    PRIMITIVE_MOD,
    PRIMITIVE_MAKE_POINT,
    PRIMITIVE_BIT_SHIFT,
    PRIMITIVE_DIV,
    PRIMITIVE_BIT_AND,
    PRIMITIVE_BIT_OR,
];

/// The primitive of an arithmetic special selector.
#[inline(always)]
fn arithmetic_primitive(s: u32) -> u8
    requires { s < 16 }
    ensures { result ≡ slice_index_or bytecodes.arithmetic_primitives s 0 }
{
    ARITHMETIC[s as usize]
}

/// Sends special selector s. To a number its primitive is tried first.
pub(crate) fn arithmetic_send<M: ObjectMemory>(
    m: &mut M,
    cpu: &mut Cpu,
    events: &EventList,
    s: u32,
) -> Result<Step, Stop>
    requires fit { IsFit M.ObjectMemory m.old }
    requires number { s < 16 }
    ensures serves { Speaks Next (M.told m.old) cpu.old (M.told m.new) cpu.new (bytecodes.arithmetic_send events.now s) result }
    ensures keeps { StepsBy cpu.old.vault result }
    ensures fit { StaysFit M.ObjectMemory m.old m.new result }
{
    if let Some(_) = peek_stack(m, cpu, 1) {
        return tried_for(m, cpu, events, arithmetic_primitive(s), 1, s);
    }
    stack(m, cpu, Reg::R10, 1)?;
    if m.as_int(Reg::R10).is_some() {
        return tried_for(m, cpu, events, arithmetic_primitive(s), 1, s);
    }
    special_send(m, cpu, events, s)
}

/// Sends blockCopy:. To a context its primitive is tried first.
pub(crate) fn context_send<M: ObjectMemory>(
    m: &mut M,
    cpu: &mut Cpu,
    events: &EventList,
) -> Result<Step, Stop>
    requires fit { IsFit M.ObjectMemory m.old }
    ensures serves { Speaks Next (M.told m.old) cpu.old (M.told m.new) cpu.new (bytecodes.block_send events.now PRIMITIVE_BLOCK_COPY 1 bytecodes.is_context_class SPECIAL_BLOCK_COPY) result }
    ensures keeps { StepsBy cpu.old.vault result }
    ensures fit { StaysFit M.ObjectMemory m.old m.new result }
{
    stack(m, cpu, Reg::R10, 1)?;
    class_of(m, Reg::R10, Reg::R10)?;
    if m.is(Reg::R10, Name::METHOD_CONTEXT) || m.is(Reg::R10, Name::BLOCK_CONTEXT) {
        return tried_for(m, cpu, events, PRIMITIVE_BLOCK_COPY, 1, SPECIAL_BLOCK_COPY);
    }
    special_send(m, cpu, events, SPECIAL_BLOCK_COPY)
}

/// Sends value or value:, with n arguments, which is special selector s. To a block its primitive is tried first.
pub(crate) fn block_send<M: ObjectMemory>(
    m: &mut M,
    cpu: &mut Cpu,
    events: &EventList,
    n: u8,
    s: u32,
) -> Result<Step, Stop>
    requires fit { IsFit M.ObjectMemory m.old }
    requires number { s < 32 }
    ensures serves { Speaks Next (M.told m.old) cpu.old (M.told m.new) cpu.new (bytecodes.block_send events.now PRIMITIVE_VALUE n bytecodes.is_block_class s) result }
    ensures keeps { StepsBy cpu.old.vault result }
    ensures fit { StaysFit M.ObjectMemory m.old m.new result }
{
    stack(m, cpu, Reg::R10, u32::from(n))?;
    class_of(m, Reg::R10, Reg::R10)?;
    if m.is(Reg::R10, Name::BLOCK_CONTEXT) {
        return tried_for(m, cpu, events, PRIMITIVE_VALUE, n, s);
    }
    special_send(m, cpu, events, s)
}
