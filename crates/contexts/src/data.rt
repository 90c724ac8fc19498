// Words and bytes of objects (chapter 30, fetchWord:ofObject:, fetchByte:ofObject: and their stores), and bytes that are said.
ghost use Rattle.std.specs.Prelude.{◌≡◌, [], OnOk};
ghost use Rattle.object_memory.specs.Told.{IsReady};
ghost use Rattle.object_memory.specs.Shape.{Looks};
ghost use Rattle.blue_model.specs.declared.cause.Cause.TheVariants.{Shape};
ghost use Rattle.blue_model.specs.declared.cpu.Cpu.{Cpu as Numbers};
ghost use Rattle.blue_model.specs.Machine as model;
ghost use Rattle.blue_model.specs.Elements.{word_at, byte_of_object};
ghost use Rattle.contexts.specs.Serves.{Serves, Speaks, StaysSound};
ghost use Rattle.object_memory.specs.Calls.{IsFit};
ghost use Rattle.contexts.specs.Calls.{StaysFit};

use crate::stop::Stop;
use blue_model::Cause;
use object_memory::{ObjectMemory, Reg, shape};

/// Word i of the object of words that a register names.
pub fn word<M: ObjectMemory>(m: &mut M, of: Reg, i: u32) -> Result<u16, Stop>
    requires fit { IsFit M.ObjectMemory m.old }
    ensures serves { (cpu : Numbers) → Serves (M.told m.old) cpu (M.told m.new) cpu (model.part Shape (word_at i) ((M.told m.old).regs of)) result }
    ensures looks { OnOk result (Looks [] (M.told m.old) (M.told m.new)) }
    ensures fit { StaysFit M.ObjectMemory m.old m.new result }
{
    if !shape::has_words(m, of, i, 1)? {
        return Err(Stop::Stuck(Cause::Shape));
    }
    let word = m.word(of, i)?;
    Ok(word)
}

/// Byte i of the object of bytes that a register names, or of a method's code.
pub fn byte<M: ObjectMemory>(m: &mut M, of: Reg, i: u32) -> Result<u8, Stop>
    requires fit { IsFit M.ObjectMemory m.old }
    ensures serves { (cpu : Numbers) → Serves (M.told m.old) cpu (M.told m.new) cpu (model.part Shape (byte_of_object i) ((M.told m.old).regs of)) result }
    ensures looks { OnOk result (Looks [] (M.told m.old) (M.told m.new)) }
    ensures fit { StaysFit M.ObjectMemory m.old m.new result }
{
    if !shape::has_bytes(m, of, i, 1)? {
        return Err(Stop::Stuck(Cause::Shape));
    }
    let byte = m.byte(of, i)?;
    Ok(byte)
}

/// Stores word i of the object of words that a register names.
pub fn store_word<M: ObjectMemory>(m: &mut M, of: Reg, i: u32, word: u16) -> Result<(), Stop>
    requires fit { IsFit M.ObjectMemory m.old }
    ensures serves { (cpu : Numbers) → Serves (M.told m.old) cpu (M.told m.new) cpu (model.store_word ((M.told m.old).regs of) i word) result }
    ensures regs { OnOk result ((M.told m.new).regs ≡ (M.told m.old).regs) }
    ensures fit { StaysFit M.ObjectMemory m.old m.new result }
{
    if !shape::has_words(m, of, i, 1)? {
        return Err(Stop::Stuck(Cause::Shape));
    }
    m.set_word(of, i, word)?;
    Ok(())
}

/// Stores byte i of the object of bytes that a register names, or of a method's code.
pub fn store_byte<M: ObjectMemory>(m: &mut M, of: Reg, i: u32, byte: u8) -> Result<(), Stop>
    requires fit { IsFit M.ObjectMemory m.old }
    ensures serves { (cpu : Numbers) → Serves (M.told m.old) cpu (M.told m.new) cpu (model.store_byte ((M.told m.old).regs of) i byte) result }
    ensures regs { OnOk result ((M.told m.new).regs ≡ (M.told m.old).regs) }
    ensures fit { StaysFit M.ObjectMemory m.old m.new result }
{
    if !shape::has_bytes(m, of, i, 1)? {
        return Err(Stop::Stuck(Cause::Shape));
    }
    m.set_byte(of, i, byte)?;
    Ok(())
}

/// The bytes of the object of bytes that a register names join the transcript.
pub fn say<M: ObjectMemory>(m: &mut M, of: Reg) -> Result<(), Stop>
    requires fit { IsFit M.ObjectMemory m.old }
    ensures speaks { (cpu : Numbers) → Speaks tt (M.told m.old) cpu (M.told m.new) cpu (model.say ((M.told m.old).regs of)) result }
    ensures regs { OnOk result ((M.told m.new).regs ≡ (M.told m.old).regs) }
    ensures fit { StaysFit M.ObjectMemory m.old m.new result }
{
    if !shape::is_text(m, of)? {
        return Err(Stop::Stuck(Cause::Shape));
    }
    m.say(of)?;
    Ok(())
}
