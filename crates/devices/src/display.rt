// The display (chapters 18 and 29): the primitive 102. The form is in R11, its bits in R13.
ghost use Rattle.std.specs.Prelude.{◌≡◌, [], ◌∷◌, OnOk, IfOk, IfSome};
ghost use Rattle.object_memory.specs.Told.{IsReady};
ghost use Rattle.object_memory.specs.Shape.{Looks};
ghost use Rattle.blue_model.specs.declared.cpu.Cpu.{Cpu as Numbers};
ghost use Rattle.blue_model.specs.Devices as devices;
ghost use Rattle.blue_model.specs.Forms as model;
ghost use Rattle.contexts.specs.Serves.{Serves, StaysSound};
ghost use Rattle.devices.specs.Inside.{IsSmall, HasRows, form_found};
ghost use Rattle.object_memory.specs.Calls.{IsFit};
ghost use Rattle.contexts.specs.Calls.{StaysFit};
ghost use Rattle.contexts.specs.Keeping.{NeverKeeps};

use contexts::{Answer, Cpu, Stop, stack};
use forms::read_form;
use object_memory::{ObjectMemory, Reg};

/// How many columns and rows the form in R11 has, where it has a form's shape. Its bits are loaded into R13.
pub(crate) fn form_of<M: ObjectMemory>(m: &mut M) -> Result<Option<(u32, u32)>, Stop>
    requires fit { IsFit M.ObjectMemory m.old }
    ensures serves { (cpu : Numbers) → Serves (M.told m.old) cpu (M.told m.new) cpu (model.form_of ((M.told m.old).regs 11)) (form_found result ((M.told m.new).regs 13)) }
    ensures looks { OnOk result (Looks (13 ∷ 12 ∷ []) (M.told m.old) (M.told m.new)) }
    ensures rows { IfOk result (λ found. IfSome found (HasRows (M.told m.new) 13)) }
    ensures small { IfOk result (λ found. IfSome found IsSmall) }
    ensures fit { StaysFit M.ObjectMemory m.old m.new result }
{
    let Some(extent) = read_form(m, Reg::R13, false)? else {
        return Ok(None);
    };
    Ok(Some((extent.width as u32, extent.height as u32)))
}

/// The receiver becomes the display (primitiveBeDisplay).
pub(crate) fn be_display<M: ObjectMemory>(m: &mut M, cpu: &mut Cpu) -> Result<Answer, Stop>
    requires fit { IsFit M.ObjectMemory m.old }
    ensures serves { Serves (M.told m.old) cpu.old (M.told m.new) cpu.new devices.be_display result }
    ensures never_keeps { NeverKeeps result }
    ensures fit { StaysFit M.ObjectMemory m.old m.new result }
{
    stack(m, cpu, Reg::R11, 0)?;
    let Some(_) = form_of(m)? else {
        return Ok(Answer::Failed);
    };
    m.copy(Reg::DISPLAY, Reg::R11);
    cpu.display = true;
    Ok(Answer::Done)
}
