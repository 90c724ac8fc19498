// The table of the control primitives.
ghost use Rattle.std.specs.Prelude.{◌≡◌, OnOk};
ghost use Rattle.object_memory.specs.Told.{IsReady};
ghost use Rattle.blue_model.specs.Control.{control_primitive};
ghost use Rattle.contexts.specs.Serves.{Serves, StaysSound};
ghost use Rattle.object_memory.specs.Calls.{IsFit};
ghost use Rattle.contexts.specs.Calls.{StaysFit};
ghost use Rattle.contexts.specs.Keeping.{NeverKeeps};

use crate::blocks::block_copy;
use crate::performs::{perform, perform_with_arguments};
use crate::values::{value, value_with_arguments};
use blue_model::primitives::{
    PRIMITIVE_BLOCK_COPY, PRIMITIVE_FLUSH_CACHE, PRIMITIVE_PERFORM,
    PRIMITIVE_PERFORM_WITH_ARGUMENTS, PRIMITIVE_QUIT, PRIMITIVE_VALUE,
    PRIMITIVE_VALUE_WITH_ARGUMENTS,
};
use contexts::{Answer, Cpu, Stop};
use object_memory::ObjectMemory;

/// Does a primitive by its index (dispatchPrimitives, chapter 29). It fails where the message has another number of arguments, where its
/// conditions aren't met, and where the index is none of this table's. Then nothing has changed.
pub fn run<M: ObjectMemory>(m: &mut M, cpu: &mut Cpu, index: u8) -> Result<Answer, Stop>
    requires fit { IsFit M.ObjectMemory m.old }
    ensures serves { Serves (M.told m.old) cpu.old (M.told m.new) cpu.new (control_primitive index) result }
    ensures never_keeps { NeverKeeps result }
    ensures fit { StaysFit M.ObjectMemory m.old m.new result }
{
    match (index, cpu.args) {
        (PRIMITIVE_BLOCK_COPY, 1) => block_copy(m, cpu),
        (PRIMITIVE_VALUE, _) => value(m, cpu),
        (PRIMITIVE_VALUE_WITH_ARGUMENTS, 1) => value_with_arguments(m, cpu),
        (PRIMITIVE_PERFORM, _) => perform(m, cpu),
        (PRIMITIVE_PERFORM_WITH_ARGUMENTS, 2) => perform_with_arguments(m, cpu),
        (PRIMITIVE_FLUSH_CACHE, 0) => Ok(Answer::Done),
        (PRIMITIVE_QUIT, 0) => Ok(Answer::Quit),
        _ => Ok(Answer::Failed),
    }
}
