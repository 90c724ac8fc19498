//! What a memory holds between two bytecodes. Only scratch registers change.
ghost use Rattle.std.specs.Prelude.{◌≤◌};
ghost use Rattle.long_names.specs.declared.limits.TheConstants.{MACHINE_REGISTERS};
ghost use Rattle.object_memory.specs.Calls.{IsFit};
ghost use Rattle.contexts.specs.Calls.{StaysFit};

use contexts::{Stop, parts};
use long_names::{Name, Value};
use object_memory::{ObjectMemory, Reg, shape};

/// The value in a register.
pub(crate) fn value_in<M: ObjectMemory>(m: &M, r: Reg) -> Value
    requires { M.sound m.now }
{
    if let Some(number) = m.as_int(r) {
        return Value::Int(number);
    }
    match Name::new(m.hash(r).wrapping_mul(2)) {
        Some(name) => Value::Ref(name),
        None => Value::Ref(Name::NIL),
    }
}

/// The name in a register, nil where it is a number.
pub(crate) fn name_in<M: ObjectMemory>(m: &M, r: Reg) -> Name
    requires { M.sound m.now }
{
    match value_in(m, r) {
        Value::Ref(name) => name,
        Value::Int(_) => Name::NIL,
    }
}

/// Loads field i of an object into a scratch register, where it is one of pointers that has that field.
pub(crate) fn load_field<M: ObjectMemory>(m: &mut M, to: Reg, of: Reg, i: u32) -> Result<bool, Stop>
    requires fit { IsFit M.ObjectMemory m.old }
    requires scratch { MACHINE_REGISTERS ≤ to }
    ensures fit { StaysFit M.ObjectMemory m.old m.new result }
{
    let Some(len) = shape::fields(m, of)? else {
        return Ok(false);
    };
    if len <= i {
        return Ok(false);
    }
    parts::field(m, to, of, 0, i)?;
    Ok(true)
}

/// The name of the class of what a register holds.
pub(crate) fn class_in<M: ObjectMemory>(m: &mut M, of: Reg) -> Result<Name, Stop>
    requires fit { IsFit M.ObjectMemory m.old }
    ensures fit { StaysFit M.ObjectMemory m.old m.new result }
{
    parts::class_of(m, Reg::R21, of)?;
    let class = name_in(m, Reg::R21);
    m.int(Reg::R21, 0);
    Ok(class)
}
