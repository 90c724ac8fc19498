// A form, or nil for none. It is in R11, numbers are read into R12.
ghost use Rattle.std.specs.Prelude.{◌≡◌, ◌≤◌, [], ◌∷◌, OnOk, IfOk, IfSome};
ghost use Rattle.object_memory.specs.Told.{IsReady};
ghost use Rattle.object_memory.specs.Shape.{Looks};
ghost use Rattle.blue_model.specs.declared.cpu.Cpu.{Cpu as Numbers};
ghost use Rattle.blue_model.specs.Forms as model;
ghost use Rattle.blue_model.specs.BitBlt.{form_or_nil};
ghost use Rattle.contexts.specs.Serves.{Serves, StaysSound};
ghost use Rattle.forms.specs.Shapes.{FitsAnObject, enough};
ghost use Rattle.bitblt.specs.Shapes.{optional_found, OptionalRoom};
ghost use Rattle.object_memory.specs.Calls.{IsFit};
ghost use Rattle.contexts.specs.Calls.{StaysFit};

use contexts::Stop;
use forms::{Extent, read_form};
use long_names::Name;
use object_memory::{ObjectMemory, Reg};

/// Loads the bits of the form into a register, where nil stands for no form. None where it has no form's shape, or where a halftone has fewer
/// than 16 words.
pub(crate) fn read_optional_form<M: ObjectMemory>(
    m: &mut M,
    bits: Reg,
    halftone: bool,
) -> Result<Option<Option<Extent>>, Stop>
    requires fit { IsFit M.ObjectMemory m.old }
    requires bits { 13 ≤ bits }
    ensures serves { (cpu : Numbers) → Serves (M.told m.old) cpu (M.told m.new) cpu (form_or_nil (model.form_where (enough halftone)) ((M.told m.old).regs 11)) (optional_found result ((M.told m.new).regs bits)) }
    ensures looks { OnOk result (Looks (bits ∷ 12 ∷ []) (M.told m.old) (M.told m.new)) }
    ensures room { IfOk result (λ found. IfSome found (OptionalRoom (M.told m.new) bits halftone)) }
    ensures extent { IfOk result (λ found. IfSome found (λ x. IfSome x (FitsAnObject halftone))) }
    ensures fit { StaysFit M.ObjectMemory m.old m.new result }
{
    if m.is(Reg::R11, Name::NIL) {
        return Ok(Some(None));
    }
    let Some(extent) = read_form(m, bits, halftone)? else {
        return Ok(None);
    };
    Ok(Some(Some(extent)))
}
