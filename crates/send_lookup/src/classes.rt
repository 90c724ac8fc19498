// The method of one class.
ghost use Rattle.std.specs.Prelude.{◌≡◌, [], ◌∷◌, OnOk, IfOk, IsTrue};
ghost use Rattle.object_memory.specs.Calls.{IsFit};
ghost use Rattle.blue_model.specs.declared.cpu.Cpu.{Cpu as Numbers};
ghost use Rattle.blue_model.specs.Lookup as model;
ghost use Rattle.contexts.specs.Serves.{with_found};
ghost use Rattle.contexts.specs.Calls.{StaysFit};
ghost use Rattle.send_lookup.specs.Path.{Passes, IsOnPath, Walks};

use crate::methods::method_at;
use crate::path::{load_dictionary, mark};
use crate::slots::find_slot;
use blue_model::indexes::DICTIONARY_SIZE;
use contexts::Stop;
use contexts::parts::size;
use object_memory::{ObjectMemory, Reg};

/// Loads the method that the class in R20 has for the selector in R23 into R22. False where it has none. All that it looks at is marked.
pub(crate) fn find_in<M: ObjectMemory>(m: &mut M) -> Result<bool, Stop>
    requires fit { IsFit M.ObjectMemory m.old }
    ensures walks { (cpu : Numbers) → Walks (M.told m.old) cpu (M.told m.new) (model.find_in ((M.told m.old).regs 23) ((M.told m.old).regs 20)) (with_found result ((M.told m.new).regs 22)) }
    ensures passes { OnOk result (Passes (21 ∷ 22 ∷ []) (M.told m.old) (M.told m.new)) }
    ensures class { OnOk result (IsOnPath (M.told m.new) ((M.told m.old).regs 20)) }
    ensures selector { OnOk result (IsOnPath (M.told m.new) ((M.told m.old).regs 23)) }
    ensures method { IfOk result (λ found. IsTrue found → IsOnPath (M.told m.new) ((M.told m.new).regs 22)) }
    ensures fit { StaysFit M.ObjectMemory m.old m.new result }
{
    load_dictionary(m)?;
    mark(m, Reg::R21)?;
    let fields = size(m, Reg::R21, DICTIONARY_SIZE)?;
    mark(m, Reg::R23)?;
    let slot = find_slot(m, fields)?;
    method_at(m, slot)
}
