// The table of the primitives on objects.
ghost use Rattle.std.specs.Prelude.{◌≡◌, OnOk};
ghost use Rattle.object_memory.specs.Told.{IsReady};
ghost use Rattle.blue_model.specs.Trials.{primitive_in};
ghost use Rattle.blue_model.specs.Storage.{object_primitives};
ghost use Rattle.contexts.specs.Serves.{Serves, StaysSound};
ghost use Rattle.object_memory.specs.Calls.{IsFit};
ghost use Rattle.contexts.specs.Calls.{StaysFit};
ghost use Rattle.contexts.specs.Keeping.{NeverKeeps};

use crate::arrays::{at, at_put, size, string_at, string_at_put};
use crate::becomes::change_places;
use crate::instances::{instance_variable_at, instance_variable_at_put, new, new_with_size};
use crate::methods::{new_method, object_at, object_at_put};
use crate::names::{class, equivalent, hash};
use crate::streams::{at_end, next, next_put};
use blue_model::primitives::{
    PRIMITIVE_AS_OOP, PRIMITIVE_AT, PRIMITIVE_AT_END, PRIMITIVE_AT_PUT, PRIMITIVE_BECOME,
    PRIMITIVE_CLASS, PRIMITIVE_EQUIVALENT, PRIMITIVE_INSTANCE_VARIABLE_AT,
    PRIMITIVE_INSTANCE_VARIABLE_AT_PUT, PRIMITIVE_NEW, PRIMITIVE_NEW_METHOD,
    PRIMITIVE_NEW_WITH_ARGUMENT, PRIMITIVE_NEXT, PRIMITIVE_NEXT_PUT, PRIMITIVE_OBJECT_AT,
    PRIMITIVE_OBJECT_AT_PUT, PRIMITIVE_SIZE, PRIMITIVE_STRING_AT, PRIMITIVE_STRING_AT_PUT,
};
use contexts::{Answer, Cpu, Stop};
use object_memory::ObjectMemory;

/// Does a primitive by its index (dispatchPrimitives). It fails where the message has another number of arguments, where its conditions
/// aren't met, and where the index is none of this table's. Then nothing has changed.
pub fn run<M: ObjectMemory>(m: &mut M, cpu: &mut Cpu, index: u8) -> Result<Answer, Stop>
    requires fit { IsFit M.ObjectMemory m.old }
    ensures serves { Serves (M.told m.old) cpu.old (M.told m.new) cpu.new (primitive_in object_primitives index) result }
    ensures never_keeps { NeverKeeps result }
    ensures fit { StaysFit M.ObjectMemory m.old m.new result }
{
    match (index, cpu.args) {
        (PRIMITIVE_AT, 1) => at(m, cpu),
        (PRIMITIVE_AT_PUT, 2) => at_put(m, cpu),
        (PRIMITIVE_SIZE, 0) => size(m, cpu),
        (PRIMITIVE_STRING_AT, 1) => string_at(m, cpu),
        (PRIMITIVE_STRING_AT_PUT, 2) => string_at_put(m, cpu),
        (PRIMITIVE_NEXT, 0) => next(m, cpu),
        (PRIMITIVE_NEXT_PUT, 1) => next_put(m, cpu),
        (PRIMITIVE_AT_END, 0) => at_end(m, cpu),
        (PRIMITIVE_OBJECT_AT, 1) => object_at(m, cpu),
        (PRIMITIVE_OBJECT_AT_PUT, 2) => object_at_put(m, cpu),
        (PRIMITIVE_NEW, 0) => new(m, cpu),
        (PRIMITIVE_NEW_WITH_ARGUMENT, 1) => new_with_size(m, cpu),
        (PRIMITIVE_BECOME, 1) => change_places(m, cpu),
        (PRIMITIVE_INSTANCE_VARIABLE_AT, 1) => instance_variable_at(m, cpu),
        (PRIMITIVE_INSTANCE_VARIABLE_AT_PUT, 2) => instance_variable_at_put(m, cpu),
        (PRIMITIVE_AS_OOP, 0) => hash(m, cpu),
        (PRIMITIVE_NEW_METHOD, 2) => new_method(m, cpu),
        (PRIMITIVE_EQUIVALENT, 1) => equivalent(m, cpu),
        (PRIMITIVE_CLASS, 0) => class(m, cpu),
        _ => Ok(Answer::Failed),
    }
}
