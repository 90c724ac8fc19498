// Parts of contexts and arrays. In this crate the receiver, a context or block among them, is in R10, a selector or number in
// R11, a home or array in R12, and a new block in R13. R19 is what is read into on the way.
ghost use Rattle.std.specs.Prelude.{◌≡◌, ◌<◌, ◌≤◌, ℕ, [], ◌∷◌, OnOk, IfOk, IfSome};
ghost use Rattle.long_names.specs.declared.limits.TheConstants.{MOST_FIELDS};
ghost use Rattle.long_names.specs.declared.value.Value.TheVariants.{Int};
ghost use Rattle.long_names.specs.Words.{IsSmallInteger};
ghost use Rattle.object_memory.specs.Told.{IsReady};
ghost use Rattle.object_memory.specs.Shape.{Looks};
ghost use Rattle.blue_model.specs.declared.cpu.Cpu.{Cpu as Numbers};
ghost use Rattle.blue_model.specs.Parts.{home_of};
ghost use Rattle.blue_model.specs.Contexts as contexts;
ghost use Rattle.blue_model.specs.Trials.{peek};
ghost use Rattle.blue_model.specs.Control as model;
ghost use Rattle.contexts.specs.Serves.{Serves, StaysSound, with_found};
ghost use Rattle.object_memory.specs.Calls.{IsFit};
ghost use Rattle.contexts.specs.Calls.{StaysFit};

use blue_model::indexes::TEMP_FRAME_START;
use contexts::Stop;
use contexts::parts::{class_of, home, store_field};
use contexts::peeks::peek_size;
use long_names::Name;
use object_memory::{ObjectMemory, Reg};

/// Loads the home of the context in R10 into R12, where it is a context.
pub(crate) fn peek_home<M: ObjectMemory>(m: &mut M) -> Result<bool, Stop>
    requires fit { IsFit M.ObjectMemory m.old }
    ensures serves { (cpu : Numbers) → Serves (M.told m.old) cpu (M.told m.new) cpu (peek (home_of ((M.told m.old).regs 10)) ((M.told m.old).regs 10)) (with_found result ((M.told m.new).regs 12)) }
    ensures looks { OnOk result (Looks (12 ∷ []) (M.told m.old) (M.told m.new)) }
    ensures fit { StaysFit M.ObjectMemory m.old m.new result }
{
    let Some(_) = peek_size(m, Reg::R10, TEMP_FRAME_START)? else {
        return Ok(false);
    };
    home(m, Reg::R12, Reg::R10)?;
    Ok(true)
}

/// How many elements the Array in R12 has. None where it is none.
pub(crate) fn array_length<M: ObjectMemory>(m: &mut M) -> Result<Option<u32>, Stop>
    requires fit { IsFit M.ObjectMemory m.old }
    ensures serves { (cpu : Numbers) → Serves (M.told m.old) cpu (M.told m.new) cpu (model.array_length ((M.told m.old).regs 12)) result }
    ensures looks { OnOk result (Looks (19 ∷ []) (M.told m.old) (M.told m.new)) }
    ensures few { IfOk result (λ found. IfSome found (λ n. n ≤ MOST_FIELDS)) }
    ensures fit { StaysFit M.ObjectMemory m.old m.new result }
{
    class_of(m, Reg::R19, Reg::R12)?;
    if !m.is(Reg::R19, Name::ARRAY) {
        return Ok(None);
    }
    peek_size(m, Reg::R12, 0)
}

/// Stores a number into field i of the object of pointers that a register names.
pub(crate) fn store_number<M: ObjectMemory>(
    m: &mut M,
    of: Reg,
    i: u32,
    number: i16,
) -> Result<(), Stop>
    requires fit { IsFit M.ObjectMemory m.old }
    requires low { of < 19 }
    requires range { IsSmallInteger number }
    ensures serves { (cpu : Numbers) → Serves (M.told m.old) cpu (M.told m.new) cpu (contexts.store_field ((M.told m.old).regs of) i (Int number)) result }
    ensures regs { OnOk result ((r : ℕ) → (r ≡ 19 → ⊥) → (M.told m.new).regs r ≡ (M.told m.old).regs r) }
    ensures fit { StaysFit M.ObjectMemory m.old m.new result }
{
    m.int(Reg::R19, number);
    store_field(m, of, i, Reg::R19)
}
