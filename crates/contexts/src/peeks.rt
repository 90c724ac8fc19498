// Parts of objects that a primitive looks for: where the object hasn't the part, nothing is stuck. A number is no object, and isn't
// looked at.
ghost use Rattle.std.specs.Prelude.{◌≡◌, ◌+◌, ◌≤◌, ◌<◌, [], ◌∷◌, OnOk, IfOk, IfSome};
ghost use Rattle.long_names.specs.declared.limits.TheConstants.{MACHINE_REGISTERS, MOST_FIELDS};
ghost use Rattle.long_names.specs.Words.{IsSmallInteger};
ghost use Rattle.object_memory.specs.Told.{IsReady};
ghost use Rattle.object_memory.specs.Shape.{Looks};
ghost use Rattle.blue_model.specs.declared.cpu.Cpu.{Cpu as Numbers};
ghost use Rattle.blue_model.specs.Parts.{size, field, number, literal, heading};
ghost use Rattle.blue_model.specs.Trials.{peek};
ghost use Rattle.contexts.specs.Serves.{Serves, StaysSound, with_found};
ghost use Rattle.object_memory.specs.Calls.{IsFit};
ghost use Rattle.contexts.specs.Calls.{StaysFit};

use crate::parts::fields_of;
use crate::stop::Stop;
use object_memory::{ObjectMemory, Reg, shape};

/// How many fields the object of pointers has that a register names, where it has at least so many.
pub fn peek_size<M: ObjectMemory>(m: &mut M, of: Reg, least: u32) -> Result<Option<u32>, Stop>
    requires fit { IsFit M.ObjectMemory m.old }
    ensures serves { (cpu : Numbers) → Serves (M.told m.old) cpu (M.told m.new) cpu (peek (size least) ((M.told m.old).regs of)) result }
    ensures looks { OnOk result (Looks [] (M.told m.old) (M.told m.new)) }
    ensures bound { IfOk result (λ len. IfSome len (λ n. n < MOST_FIELDS + 1)) }
    ensures fit { StaysFit M.ObjectMemory m.old m.new result }
{
    let Some(len) = fields_of(m, of)? else {
        return Ok(None);
    };
    if len < least {
        return Ok(None);
    }
    Ok(Some(len))
}

/// Loads field i of the object of pointers that a register names, where it has the field and at least so many.
#[inline(always)]
pub fn peek_field<M: ObjectMemory>(
    m: &mut M,
    to: Reg,
    of: Reg,
    least: u32,
    i: u32,
) -> Result<bool, Stop>
    requires fit { IsFit M.ObjectMemory m.old }
    requires scratch { MACHINE_REGISTERS ≤ to }
    ensures serves { (cpu : Numbers) → Serves (M.told m.old) cpu (M.told m.new) cpu (peek (field least i) ((M.told m.old).regs of)) (with_found result ((M.told m.new).regs to)) }
    ensures looks { OnOk result (Looks (to ∷ []) (M.told m.old) (M.told m.new)) }
    ensures fit { StaysFit M.ObjectMemory m.old m.new result }
{
    let Some(len) = fields_of(m, of)? else {
        return Ok(false);
    };
    if len < least || len <= i {
        return Ok(false);
    }
    m.field(to, of, i)?;
    Ok(true)
}

/// The number in field i of the object of pointers that a register names, where it has at least so many fields, and a number there.
/// The field is loaded into a scratch register, unless the number is at hand.
#[inline(always)]
pub fn peek_number<M: ObjectMemory>(
    m: &mut M,
    to: Reg,
    of: Reg,
    least: u32,
    i: u32,
) -> Result<Option<i16>, Stop>
    requires fit { IsFit M.ObjectMemory m.old }
    requires scratch { MACHINE_REGISTERS ≤ to }
    ensures serves { (cpu : Numbers) → Serves (M.told m.old) cpu (M.told m.new) cpu (peek (number least i) ((M.told m.old).regs of)) result }
    ensures looks { OnOk result (Looks (to ∷ []) (M.told m.old) (M.told m.new)) }
    ensures range { IfOk result (λ found. IfSome found IsSmallInteger) }
    ensures fit { StaysFit M.ObjectMemory m.old m.new result }
{
    let Some(len) = fields_of(m, of)? else {
        return Ok(None);
    };
    if len < least || len <= i {
        return Ok(None);
    }
    if let Some(number) = m.number_at(of, i) {
        return Ok(Some(number));
    }
    m.field(to, of, i)?;
    Ok(m.as_int(to))
}

/// The header of the method that a register names, where it names one.
pub fn peek_header<M: ObjectMemory>(m: &mut M, of: Reg) -> Result<Option<i16>, Stop>
    requires fit { IsFit M.ObjectMemory m.old }
    ensures serves { (cpu : Numbers) → Serves (M.told m.old) cpu (M.told m.new) cpu (peek heading ((M.told m.old).regs of)) result }
    ensures looks { OnOk result (Looks [] (M.told m.old) (M.told m.new)) }
    ensures range { IfOk result (λ found. IfSome found IsSmallInteger) }
    ensures fit { StaysFit M.ObjectMemory m.old m.new result }
{
    let Some(_) = shape::literals(m, of)? else {
        return Ok(None);
    };
    let header = m.header(of)?;
    Ok(Some(header))
}

/// Loads literal i of the method that a register names, where it has the literal.
pub fn peek_literal<M: ObjectMemory>(m: &mut M, to: Reg, of: Reg, i: u32) -> Result<bool, Stop>
    requires fit { IsFit M.ObjectMemory m.old }
    requires scratch { MACHINE_REGISTERS ≤ to }
    ensures serves { (cpu : Numbers) → Serves (M.told m.old) cpu (M.told m.new) cpu (peek (literal i) ((M.told m.old).regs of)) (with_found result ((M.told m.new).regs to)) }
    ensures looks { OnOk result (Looks (to ∷ []) (M.told m.old) (M.told m.new)) }
    ensures fit { StaysFit M.ObjectMemory m.old m.new result }
{
    if !shape::has_literal(m, of, i)? {
        return Ok(false);
    }
    m.field(to, of, i)?;
    Ok(true)
}
