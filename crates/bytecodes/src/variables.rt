// Variables: what pushes and stores name.
ghost use Rattle.std.specs.Prelude.{◌≡◌, ◌≤◌, ◌<◌, [], ◌∷◌, OnOk, IfSome};
ghost use Rattle.object_memory.specs.Told.{IsReady};
ghost use Rattle.object_memory.specs.Shape.{Looks};
ghost use Rattle.blue_model.specs.declared.cpu.Cpu.{Cpu as Numbers};
ghost use Rattle.long_names.specs.declared.limits.TheConstants.{MACHINE_REGISTERS};
ghost use Rattle.blue_model.specs.Bytecodes as model;
ghost use Rattle.contexts.specs.Serves.{Serves, StaysSound, with_value};
ghost use Rattle.bytecodes.specs.Variables.{loads, stores, kind_of};
ghost use Rattle.object_memory.specs.Calls.{IsFit};
ghost use Rattle.contexts.specs.Calls.{StaysFit};

use blue_model::indexes::{ASSOCIATION_SIZE, TEMP_FRAME_START, VALUE_INDEX};
use contexts::parts::{field, literal, size, store_field};
use contexts::{Cause, Stop};
use object_memory::{ObjectMemory, Reg};

/// What a push or a store names, beside a number.
#[derive(Clone, Copy, Debug, PartialEq, Eq)]
pub enum Variable {
    /// A field of the receiver.
    Receiver,
    /// A temporary of the home.
    Temporary,
    /// A literal of the method. It can't be stored into.
    Literal,
    /// The value of an association that is a literal of the method.
    LiteralVariable,
}

impl Variable {
    /// The kind that the byte after an extended bytecode states.
    pub fn extended(byte: u8) -> Variable
        ensures { result ≡ kind_of byte }
    {
        match byte / 64 {
            0 => Variable::Receiver,
            1 => Variable::Temporary,
            2 => Variable::Literal,
            _ => Variable::LiteralVariable,
        }
    }
}

/// The field of a temporary, in a context with so many fields.
#[inline(always)]
fn temporary_place(i: u32, len: u32) -> Option<u32>
    requires { i < 64 }
    ensures place { result ≡ model.temporary_place i len }
    ensures within { IfSome result (λ place. place < len) }
{
    if TEMP_FRAME_START + i < len {
        Some(TEMP_FRAME_START + i)
    } else {
        None
    }
}

/// Loads a receiver variable, which a receiver of pointers has.
pub(crate) fn receiver_variable<M: ObjectMemory>(m: &mut M, to: Reg, i: u32) -> Result<(), Stop>
    requires fit { IsFit M.ObjectMemory m.old }
    requires scratch { MACHINE_REGISTERS ≤ to }
    ensures serves { (cpu : Numbers) → Serves (M.told m.old) cpu (M.told m.new) cpu (model.receiver_variable i) (with_value result ((M.told m.new).regs to)) }
    ensures looks { OnOk result (Looks (to ∷ []) (M.told m.old) (M.told m.new)) }
    ensures fit { StaysFit M.ObjectMemory m.old m.new result }
{
    field(m, to, Reg::RECEIVER, 0, i)?;
    Ok(())
}

/// Loads a temporary. Stuck with Stack where the home has no such field.
pub(crate) fn temporary<M: ObjectMemory>(m: &mut M, to: Reg, i: u32) -> Result<(), Stop>
    requires fit { IsFit M.ObjectMemory m.old }
    requires scratch { MACHINE_REGISTERS ≤ to }
    requires number { i < 64 }
    ensures serves { (cpu : Numbers) → Serves (M.told m.old) cpu (M.told m.new) cpu (model.temporary i) (with_value result ((M.told m.new).regs to)) }
    ensures looks { OnOk result (Looks (to ∷ []) (M.told m.old) (M.told m.new)) }
    ensures fit { StaysFit M.ObjectMemory m.old m.new result }
{
    let len = size(m, Reg::HOME, 0)?;
    let Some(place) = temporary_place(i, len) else {
        return Err(Stop::Stuck(Cause::Stack));
    };
    field(m, to, Reg::HOME, 0, place)?;
    Ok(())
}

/// Loads a literal.
#[inline(always)]
pub(crate) fn literal_constant<M: ObjectMemory>(m: &mut M, to: Reg, i: u32) -> Result<(), Stop>
    requires fit { IsFit M.ObjectMemory m.old }
    requires scratch { MACHINE_REGISTERS ≤ to }
    ensures serves { (cpu : Numbers) → Serves (M.told m.old) cpu (M.told m.new) cpu (model.literal_constant i) (with_value result ((M.told m.new).regs to)) }
    ensures looks { OnOk result (Looks (to ∷ []) (M.told m.old) (M.told m.new)) }
    ensures fit { StaysFit M.ObjectMemory m.old m.new result }
{
    literal(m, to, Reg::METHOD, i)?;
    Ok(())
}

/// Loads the value of an association that is a literal.
pub(crate) fn literal_variable<M: ObjectMemory>(m: &mut M, to: Reg, i: u32) -> Result<(), Stop>
    requires fit { IsFit M.ObjectMemory m.old }
    requires scratch { MACHINE_REGISTERS ≤ to }
    ensures serves { (cpu : Numbers) → Serves (M.told m.old) cpu (M.told m.new) cpu (model.literal_variable i) (with_value result ((M.told m.new).regs to)) }
    ensures looks { OnOk result (Looks (to ∷ []) (M.told m.old) (M.told m.new)) }
    ensures fit { StaysFit M.ObjectMemory m.old m.new result }
{
    literal_constant(m, to, i)?;
    field(m, to, to, ASSOCIATION_SIZE, VALUE_INDEX)?;
    Ok(())
}

/// Loads a variable.
pub(crate) fn load_variable<M: ObjectMemory>(
    m: &mut M,
    to: Reg,
    variable: Variable,
    i: u32,
) -> Result<(), Stop>
    requires fit { IsFit M.ObjectMemory m.old }
    requires scratch { MACHINE_REGISTERS ≤ to }
    requires number { i < 64 }
    ensures serves { (cpu : Numbers) → Serves (M.told m.old) cpu (M.told m.new) cpu (loads variable i) (with_value result ((M.told m.new).regs to)) }
    ensures looks { OnOk result (Looks (to ∷ []) (M.told m.old) (M.told m.new)) }
    ensures fit { StaysFit M.ObjectMemory m.old m.new result }
{
    match variable {
        Variable::Receiver => receiver_variable(m, to, i),
        Variable::Temporary => temporary(m, to, i),
        Variable::Literal => literal_constant(m, to, i),
        Variable::LiteralVariable => literal_variable(m, to, i),
    }
}

/// Stores into a receiver variable.
pub(crate) fn store_receiver_variable<M: ObjectMemory>(
    m: &mut M,
    i: u32,
    from: Reg,
) -> Result<(), Stop>
    requires fit { IsFit M.ObjectMemory m.old }
    ensures serves { (cpu : Numbers) → Serves (M.told m.old) cpu (M.told m.new) cpu (model.store_receiver_variable i ((M.told m.old).regs from)) result }
    ensures fit { StaysFit M.ObjectMemory m.old m.new result }
{
    store_field(m, Reg::RECEIVER, i, from)?;
    Ok(())
}

/// Stores into a temporary.
pub(crate) fn store_temporary<M: ObjectMemory>(m: &mut M, i: u32, from: Reg) -> Result<(), Stop>
    requires fit { IsFit M.ObjectMemory m.old }
    requires number { i < 64 }
    ensures serves { (cpu : Numbers) → Serves (M.told m.old) cpu (M.told m.new) cpu (model.store_temporary i ((M.told m.old).regs from)) result }
    ensures fit { StaysFit M.ObjectMemory m.old m.new result }
{
    let len = size(m, Reg::HOME, 0)?;
    let Some(place) = temporary_place(i, len) else {
        return Err(Stop::Stuck(Cause::Stack));
    };
    store_field(m, Reg::HOME, place, from)?;
    Ok(())
}

/// Stores into the value of an association that is a literal, which is loaded into R11.
pub(crate) fn store_literal_variable<M: ObjectMemory>(
    m: &mut M,
    i: u32,
    from: Reg,
) -> Result<(), Stop>
    requires fit { IsFit M.ObjectMemory m.old }
    requires from { from ≡ 11 → ⊥ }
    ensures serves { (cpu : Numbers) → Serves (M.told m.old) cpu (M.told m.new) cpu (model.store_literal_variable i ((M.told m.old).regs from)) result }
    ensures fit { StaysFit M.ObjectMemory m.old m.new result }
{
    literal_constant(m, Reg::R11, i)?;
    store_field(m, Reg::R11, VALUE_INDEX, from)?;
    Ok(())
}

/// Stores into a variable. A literal is none that can be stored into: Unused.
pub(crate) fn store_variable<M: ObjectMemory>(
    m: &mut M,
    variable: Variable,
    i: u32,
    from: Reg,
) -> Result<(), Stop>
    requires fit { IsFit M.ObjectMemory m.old }
    requires number { i < 64 }
    requires from { from ≡ 11 → ⊥ }
    ensures serves { (cpu : Numbers) → Serves (M.told m.old) cpu (M.told m.new) cpu (stores variable i ((M.told m.old).regs from)) result }
    ensures fit { StaysFit M.ObjectMemory m.old m.new result }
{
    match variable {
        Variable::Receiver => store_receiver_variable(m, i, from),
        Variable::Temporary => store_temporary(m, i, from),
        Variable::Literal => Err(Stop::Stuck(Cause::Unused)),
        Variable::LiteralVariable => store_literal_variable(m, i, from),
    }
}
