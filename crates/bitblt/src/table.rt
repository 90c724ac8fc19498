// Primitive 96 (chapter 29). The BitBlt is in R10, a form in R11, and the bits of destination, source and halftone in
// R13 to R15.
ghost use Rattle.std.specs.Prelude.{◌≡◌, OnOk};
ghost use Rattle.object_memory.specs.Told.{IsReady};
ghost use Rattle.blue_model.specs.Trials.{primitive_in};
ghost use Rattle.blue_model.specs.BitBlt as model;
ghost use Rattle.blue_model.specs.BitBlt.{blit_primitives};
ghost use Rattle.contexts.specs.Serves.{Serves, StaysSound};
ghost use Rattle.object_memory.specs.Calls.{IsFit};
ghost use Rattle.contexts.specs.Calls.{StaysFit};
ghost use Rattle.contexts.specs.Keeping.{NeverKeeps};

use crate::asked::read_asked;
use crate::copy::copy_pixels;
use crate::optional::read_optional_form;
use blue_model::indexes::{BITBLT_SIZE, DEST_FORM_INDEX, HALFTONE_FORM_INDEX, SOURCE_FORM_INDEX};
use blue_model::primitives::PRIMITIVE_COPY_BITS;
use contexts::peeks::peek_field;
use contexts::{Answer, Cpu, Stop, stack};
use forms::read_form;
use object_memory::{ObjectMemory, Reg};

/// Copies the pixels that the receiver, a BitBlt, asks for (primitiveCopyBits). It fails where the receiver or one of its forms hasn't its
/// shape; the receiver, which is the answer, stays on the stack.
fn copy_bits<M: ObjectMemory>(m: &mut M, cpu: &mut Cpu) -> Result<Answer, Stop>
    requires fit { IsFit M.ObjectMemory m.old }
    ensures serves { Serves (M.told m.old) cpu.old (M.told m.new) cpu.new model.copy_bits result }
    ensures never_keeps { NeverKeeps result }
    ensures fit { StaysFit M.ObjectMemory m.old m.new result }
{
    stack(m, cpu, Reg::R10, 0)?;
    let Some(q) = read_asked(m)? else {
        return Ok(Answer::Failed);
    };
    if !peek_field(m, Reg::R11, Reg::R10, BITBLT_SIZE, DEST_FORM_INDEX)? {
        return Ok(Answer::Failed);
    }
    let Some(dest) = read_form(m, Reg::R13, false)? else {
        return Ok(Answer::Failed);
    };
    if !peek_field(m, Reg::R11, Reg::R10, BITBLT_SIZE, SOURCE_FORM_INDEX)? {
        return Ok(Answer::Failed);
    }
    let Some(source) = read_optional_form(m, Reg::R14, false)? else {
        return Ok(Answer::Failed);
    };
    if !peek_field(m, Reg::R11, Reg::R10, BITBLT_SIZE, HALFTONE_FORM_INDEX)? {
        return Ok(Answer::Failed);
    }
    let Some(halftone) = read_optional_form(m, Reg::R15, true)? else {
        return Ok(Answer::Failed);
    };
    copy_pixels(m, &q, dest, source, halftone)?;
    Ok(Answer::Done)
}

/// Does a primitive by its index (dispatchPrimitives). It fails where the message has another number of arguments, where its conditions
/// aren't met, and where the index isn't 96. Then nothing has changed.
pub fn run<M: ObjectMemory>(m: &mut M, cpu: &mut Cpu, index: u8) -> Result<Answer, Stop>
    requires fit { IsFit M.ObjectMemory m.old }
    ensures serves { Serves (M.told m.old) cpu.old (M.told m.new) cpu.new (primitive_in blit_primitives index) result }
    ensures never_keeps { NeverKeeps result }
    ensures fit { StaysFit M.ObjectMemory m.old m.new result }
{
    match (index, cpu.args) {
        (PRIMITIVE_COPY_BITS, 0) => copy_bits(m, cpu),
        _ => Ok(Answer::Failed),
    }
}
