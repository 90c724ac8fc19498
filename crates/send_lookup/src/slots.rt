// The slots of a method dictionary. They follow its two first fields.
ghost use Rattle.std.specs.Prelude.{◌≡◌, ◌<◌, ◌≤◌, [], ◌∷◌, OnOk, IfOk, IfSome, length};
ghost use Rattle.long_names.specs.declared.limits.TheConstants.{MOST_FIELDS};
ghost use Rattle.long_names.specs.Objects.{pointers_of};
ghost use Rattle.long_names.specs.State.{IsRef};
ghost use Rattle.object_memory.specs.Told.{IsReady};
ghost use Rattle.object_memory.specs.Shape.{HasPartAt, Looks};
ghost use Rattle.blue_model.specs.declared.cause.Cause.TheVariants.{Shape};
ghost use Rattle.blue_model.specs.declared.indexes.TheConstants.{DICTIONARY_SIZE};
ghost use Rattle.blue_model.specs.declared.cpu.Cpu.{Cpu as Numbers};
ghost use Rattle.blue_model.specs.Machine.{part};
ghost use Rattle.blue_model.specs.Lookup.{slot_of, turned_back};
ghost use Rattle.contexts.specs.Serves.{Serves, StaysSound};
ghost use Rattle.object_memory.specs.Calls.{IsFit};
ghost use Rattle.contexts.specs.Calls.{StaysFit};

use blue_model::indexes::SELECTOR_START;
use contexts::Stop;
use long_names::Name;
use object_memory::{ObjectMemory, Reg};

/// The slot at a place of the round that begins at the first slot.
fn slot_at(first: u32, slots: u32, place: u32) -> u32
    requires first { first < slots }
    requires place { place < slots }
    requires few { slots ≤ MOST_FIELDS }
    ensures slot { result ≡ turned_back first slots place }
    ensures within { result < slots }
{
    let slot = first + place;
    if slot < slots { slot } else { slot - slots }
}

/// The slot of the dictionary in R21 that holds the selector in R23 (lookupMethodInDictionary:, chapter 28): the search goes round all
/// slots from that of the selector's hash on, and ends at nil. The dictionary has so many fields. R22 is used.
pub(crate) fn find_slot<M: ObjectMemory>(m: &mut M, fields: u32) -> Result<Option<u32>, Stop>
    requires fit { IsFit M.ObjectMemory m.old }
    requires selector { IsRef ((M.told m.old).regs 23) }
    requires some { DICTIONARY_SIZE ≤ fields }
    requires few { fields ≤ MOST_FIELDS }
    requires there { HasPartAt (M.told m.old) 21 pointers_of (λ xs. length xs ≡ fields) }
    ensures serves { (cpu : Numbers) → Serves (M.told m.old) cpu (M.told m.new) cpu (part Shape (slot_of ((M.told m.old).regs 23)) ((M.told m.old).regs 21)) result }
    ensures looks { OnOk result (Looks (22 ∷ []) (M.told m.old) (M.told m.new)) }
    ensures fit { StaysFit M.ObjectMemory m.old m.new result }
{
    let slots = fields - SELECTOR_START;
    let first = m.hash(Reg::R23) & (slots - 1);
    for place in 0..slots {
        let slot = slot_at(first, slots, place);
        m.field(Reg::R22, Reg::R21, SELECTOR_START + slot)?;
        if m.is(Reg::R22, Name::NIL) {
            return Ok(None);
        }
        if m.same(Reg::R22, Reg::R23) {
            return Ok(Some(slot));
        }
    }
    Ok(None)
}
