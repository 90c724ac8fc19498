// What a lookup looks at, marked on its path.
ghost use Rattle.std.specs.Prelude.{◌≡◌, ℕ, [], ◌∷◌, Ok, OnOk, IsTrue};
ghost use Rattle.long_names.specs.Access.{Mark};
ghost use Rattle.long_names.specs.State.{IsRef};
ghost use Rattle.object_memory.specs.Contract.{Does, Called, is_marked};
ghost use Rattle.object_memory.specs.Calls.{IsFit};
ghost use Rattle.blue_model.specs.declared.cause.Cause.TheVariants.{Shape};
ghost use Rattle.blue_model.specs.declared.cpu.Cpu.{Cpu as Numbers};
ghost use Rattle.blue_model.specs.Machine.{part};
ghost use Rattle.blue_model.specs.Parts as model;
ghost use Rattle.contexts.specs.Serves.{Serves, with_value};
ghost use Rattle.contexts.specs.Calls.{StaysFit};
ghost use Rattle.send_lookup.specs.Path.{look_at, KeepsPath, Passes, IsOnPath, Walks};

use blue_model::indexes::{CLASS_SIZE, METHOD_DICTIONARY_INDEX};
use contexts::parts::field;
use contexts::{Cause, Stop};
use object_memory::{ObjectMemory, Reg, shape};

/// Marks the object that a register names, as one that the lookup looks at. Stuck with Shape where it names none.
pub(crate) fn mark<M: ObjectMemory>(m: &mut M, of: Reg) -> Result<(), Stop>
    requires fit { IsFit M.ObjectMemory m.old }
    ensures serves { (cpu : Numbers) → Serves (M.told m.old) cpu (M.told m.new) cpu (look_at ((M.told m.old).regs of)) result }
    ensures named { OnOk result (IsRef ((M.told m.old).regs of)) }
    ensures marked { OnOk result (IsTrue (is_marked (M.told m.new).cache ((M.told m.old).regs of))) }
    ensures regs { OnOk result ((r : ℕ) → (M.told m.new).regs r ≡ (M.told m.old).regs r) }
    ensures keeps { OnOk result (KeepsPath (M.told m.old) (M.told m.new)) }
    ensures called { OnOk result (Called (M.told m.old) (M.told m.new) (Does (Mark of)) (Ok (tt {0}))) }
    ensures fit { StaysFit M.ObjectMemory m.old m.new result }
{
    if !shape::is_name(m, of) {
        return Err(Stop::Stuck(Cause::Shape));
    }
    m.mark(of)?;
    Ok(())
}

/// Loads the dictionary of the class in R20 into R21. The class is marked.
pub(crate) fn load_dictionary<M: ObjectMemory>(m: &mut M) -> Result<(), Stop>
    requires fit { IsFit M.ObjectMemory m.old }
    ensures walks { (cpu : Numbers) → Walks (M.told m.old) cpu (M.told m.new) (part Shape (model.field CLASS_SIZE METHOD_DICTIONARY_INDEX) ((M.told m.old).regs 20)) (with_value result ((M.told m.new).regs 21)) }
    ensures passes { OnOk result (Passes (21 ∷ []) (M.told m.old) (M.told m.new)) }
    ensures class { OnOk result (IsOnPath (M.told m.new) ((M.told m.old).regs 20)) }
    ensures fit { StaysFit M.ObjectMemory m.old m.new result }
{
    mark(m, Reg::R20)?;
    field(m, Reg::R21, Reg::R20, CLASS_SIZE, METHOD_DICTIONARY_INDEX)?;
    Ok(())
}
