// The code of the method.
ghost use Rattle.std.specs.Prelude.{◌≡◌, ◌<◌, [], ℤ, OnOk, IfSome, IsSome};
ghost use Rattle.object_memory.specs.Told.{IsReady};
ghost use Rattle.object_memory.specs.Shape.{Looks};
ghost use Rattle.blue_model.specs.declared.cpu.Cpu.{Cpu as Numbers};
ghost use Rattle.blue_model.specs.Contexts as model;
ghost use Rattle.contexts.specs.Places.{code_place};
ghost use Rattle.contexts.specs.Serves.{Serves, StaysSound};
ghost use Rattle.object_memory.specs.Calls.{IsFit};
ghost use Rattle.contexts.specs.Calls.{StaysFit};

use crate::numbers::{advance, go_to, index_of, place_from, place_here};
use crate::stop::Stop;
use blue_model::{Cause, Cpu};
use object_memory::{ObjectMemory, Reg, shape};

/// The byte of a number of the method that a register names, whose length is that of its code; the method comes in for it. Stuck with
/// Pointer where the method has none, or there is no number.
#[cold]
#[inline(never)]
fn load_byte<M: ObjectMemory>(m: &mut M, method: Reg, place: Option<u32>) -> Result<u8, Stop>
    requires fit { IsFit M.ObjectMemory m.old }
    ensures serves { (cpu : Numbers) (ip : ℤ) → place ≡ code_place ip → Serves (M.told m.old) cpu (M.told m.new) cpu (model.byte_of ip ((M.told m.old).regs method)) result }
    ensures placed { OnOk result (IsSome place) }
    ensures looks { OnOk result (Looks [] (M.told m.old) (M.told m.new)) }
    ensures fit { StaysFit M.ObjectMemory m.old m.new result }
{
    let Some(literals) = shape::literals(m, method)? else {
        return Err(Stop::Stuck(Cause::Shape));
    };
    let len = m.len(method)?;
    let Some(i) = index_of(place, literals, len) else {
        return Err(Stop::Stuck(Cause::Pointer));
    };
    let byte = m.byte(method, i)?;
    Ok(byte)
}

/// The byte of a number of the method that a register names, which comes in for it unless it is at hand. Stuck with Pointer where the
/// method has none, or there is no number.
#[inline(always)]
fn byte_of<M: ObjectMemory>(m: &mut M, method: Reg, place: Option<u32>) -> Result<u8, Stop>
    requires fit { IsFit M.ObjectMemory m.old }
    ensures serves { (cpu : Numbers) (ip : ℤ) → place ≡ code_place ip → Serves (M.told m.old) cpu (M.told m.new) cpu (model.byte_of ip ((M.told m.old).regs method)) result }
    ensures placed { OnOk result (IsSome place) }
    ensures looks { OnOk result (Looks [] (M.told m.old) (M.told m.new)) }
    ensures fit { StaysFit M.ObjectMemory m.old m.new result }
{
    if let Some(number) = place {
        if let Some(byte) = m.code_byte(method, number) {
            return Ok(byte);
        }
    }
    load_byte(m, method, place)
}

/// The byte at the instruction pointer, which goes on by 1 (fetchByte, chapter 28). Stuck with Pointer where it is none of the method's.
#[inline(always)]
pub fn fetch<M: ObjectMemory>(m: &mut M, cpu: &mut Cpu) -> Result<u8, Stop>
    requires fit { IsFit M.ObjectMemory m.old }
    ensures serves { Serves (M.told m.old) cpu.old (M.told m.new) cpu.new model.fetch result }
    ensures looks { OnOk result (Looks [] (M.told m.old) (M.told m.new)) }
    ensures fit { StaysFit M.ObjectMemory m.old m.new result }
{
    let place = place_here(cpu);
    let byte = byte_of(m, Reg::METHOD, place)?;
    advance(cpu);
    Ok(byte)
}

/// Jumps over so many bytes, counted from the byte after the instruction (jump:, chapter 28). Stuck with Pointer where no byte of the
/// method is there.
#[inline(always)]
pub fn jump<M: ObjectMemory>(m: &mut M, cpu: &mut Cpu, distance: i32) -> Result<(), Stop>
    requires fit { IsFit M.ObjectMemory m.old }
    ensures serves { Serves (M.told m.old) cpu.old (M.told m.new) cpu.new (model.jump distance) result }
    ensures looks { OnOk result (Looks [] (M.told m.old) (M.told m.new)) }
    ensures fit { StaysFit M.ObjectMemory m.old m.new result }
{
    let place = place_from(cpu, &distance);
    byte_of(m, Reg::METHOD, place)?;
    let Some(place) = place else { unreachable!() };
    go_to(cpu, place);
    Ok(())
}
