// The method in a slot of a dictionary.
ghost use Rattle.std.specs.Prelude.{◌≡◌, [], ◌∷◌, OnOk, IfOk, IsTrue};
ghost use Rattle.object_memory.specs.Calls.{IsFit};
ghost use Rattle.blue_model.specs.declared.cpu.Cpu.{Cpu as Numbers};
ghost use Rattle.blue_model.specs.Lookup as model;
ghost use Rattle.contexts.specs.Serves.{with_found};
ghost use Rattle.contexts.specs.Calls.{StaysFit};
ghost use Rattle.send_lookup.specs.Path.{Passes, IsOnPath, Walks};

use crate::path::mark;
use blue_model::indexes::{DICTIONARY_SIZE, METHOD_ARRAY_INDEX};
use contexts::Stop;
use contexts::parts::{field, need_method};
use object_memory::{ObjectMemory, Reg};

/// Loads the method in a slot of the dictionary in R21, which is marked, into R22. False where there is no slot. Its method array, which
/// takes the dictionary's place, and the method are marked.
pub(crate) fn method_at<M: ObjectMemory>(m: &mut M, slot: Option<u32>) -> Result<bool, Stop>
    requires fit { IsFit M.ObjectMemory m.old }
    requires dictionary { IsOnPath (M.told m.old) ((M.told m.old).regs 21) }
    ensures walks { (cpu : Numbers) → Walks (M.told m.old) cpu (M.told m.new) (model.method_at ((M.told m.old).regs 21) slot) (with_found result ((M.told m.new).regs 22)) }
    ensures passes { OnOk result (Passes (21 ∷ 22 ∷ []) (M.told m.old) (M.told m.new)) }
    ensures method { IfOk result (λ found. IsTrue found → IsOnPath (M.told m.new) ((M.told m.new).regs 22)) }
    ensures fit { StaysFit M.ObjectMemory m.old m.new result }
{
    let Some(slot) = slot else {
        return Ok(false);
    };
    field(m, Reg::R21, Reg::R21, DICTIONARY_SIZE, METHOD_ARRAY_INDEX)?;
    mark(m, Reg::R21)?;
    field(m, Reg::R22, Reg::R21, 0, slot)?;
    mark(m, Reg::R22)?;
    need_method(m, Reg::R22)?;
    Ok(true)
}
