// Fields of objects, into a register and out of it.
ghost use Rattle.std.specs.Prelude.{◌≡◌, ◌≢◌, ◌⊎◌, ◌≤◌, ℕ, [], Some, true, false, IsTrue, IfSome, IfNone, OnOk, IfOk, IfErr, slice_get};
ghost use Rattle.long_names.specs.Words.{IsValue};
ghost use Rattle.object_record.specs.Objects.{value_in};
ghost use Rattle.object_table.specs.Entries.{is_short, is_used, place_of};
ghost use Rattle.core_view.specs.Words.{meant};
ghost use Rattle.core_view.specs.Held.{fields_there};
ghost use Rattle.core_view.specs.Steps.{IsAt};
ghost use Rattle.leaf_lambda.specs.Parts.{core_of, spare_of, IsParts};
ghost use Rattle.loom_memory.specs.declared.load.TheConstants.{SPARE_BEHIND_CLASS, SPARE_ENTRIES as SPARE};

use crate::below::is_below;
use crate::memory::LoomMemory;
use crate::refusals::refusal_of;
use core_segment::Addr;
use leaf_lambda::leaving::field_total;
use leaf_lambda::numbers::short_int;
use leaf_lambda::steps::{field_word, find_or_leaf, place_of_body};
use leaf_lambda::{Parts, resolve};
use long_names::{Value, value_of};
use loom_host::{Host, Role};
use object_memory::{MemFault, Reg};
use object_table::Short;
use purger::eviction::read_copy;

// The word of field i of a body. None where there is none, and where the field is left on the disk.
#[inline(always)]
pub(crate) fn word_in_body(p: &Parts, s: Short, i: u32) -> Option<u16>
    requires parts { IsParts p.now }
    requires there { (at : ℕ) × (place_of ((core_of p.now).entries s.0).state ≡ Some at) }
    ensures word { IfSome result (λ w. (at : ℕ) × IsAt (core_of p.now) s.0 at i w × (w ≢ 0)) }
    ensures none { IfNone result ((at w : ℕ) → IsAt (core_of p.now) s.0 at i w → w ≡ 0) }
{
    let at = place_of_body(p, s);
    if i >= field_total(p, s, at) {
        return None;
    }
    let w = field_word(p, s, at, i);
    if w == 0 {
        return None;
    }
    Some(w)
}

impl<'h, H: Host> LoomMemory<'h, H> {
    ghost use Rattle.loom_memory.specs.Effects.{Enters, Leaves, LeavesBeside, Peeks, Puts};
    ghost use Rattle.object_memory.specs.Fit.{MayCall, StaysCallable};
    ghost use Rattle.std.specs.Prelude.{Ok};
    ghost use Rattle.long_names.specs.State.{name_at};
    ghost use Rattle.purger.specs.Purge.{HasRoom};
    ghost use Rattle.loom_memory.specs.Residents.{fetched, is_resident};
    ghost use Rattle.loom_memory.specs.Gentle.{IsPeek, IsSteady};
    ghost use Rattle.loom_memory.specs.Own.{BringsOne, IsAtHand, IsSearched, IsSparing};
    ghost use Rattle.long_names.specs.Access.{Access, Field, CanDo, Nothing, brought};
    ghost use Rattle.long_names.specs.declared.value.Value.TheVariants.{Ref};
    ghost use Rattle.object_memory.specs.Told.{IsReady};
    ghost use Rattle.object_memory.specs.Contract.{Accessed, KeepsSound, MayDo, makes};
    ghost use Rattle.disk_objects.specs.Function.{disk_of};
    ghost use Rattle.loom_memory.specs.Known.{IsNameable};
    ghost use Rattle.loom_memory.specs.Below.{IsBelow};
    ghost use Rattle.loom_memory.specs.Damage.{IsDamageOf, IsDamaged};
    ghost use Rattle.loom_memory.specs.Freed.{IsFreedBy, IsFreedShort};
    ghost use Rattle.loom_memory.specs.Thinned.{StaysThinned};
    ghost use Rattle.loom_memory.specs.Memory.{loom_told, loom_outside, loom_lender, word_in, loom_core, loom_now, loom_parts, loom_rest, IsSound, IsSilent, IsTaken, IsRefused};
    ghost use Rattle.loom_memory.specs.Gentle.{IsQuiet};

    // The long word that a lambda means. A name is below the next one.
    fn read_lambda(&mut self, s: Short, at: Addr, i: u32) -> Result<u32, MemFault>
        requires fit { MayCall (IsSound H.Host) (loom_told H.Host) self.old }
        requires lambda { IsAt (loom_core self.old) s.0 at.place i 0 }
        requires spare { SPARE_BEHIND_CLASS ≤ spare_of (loom_parts self.old) }
        ensures peeks { OnOk result (Peeks H.Host self.old self.new) }
        ensures leaves { Leaves H.Host self.old self.new result }
        ensures long { IsTrue (H.tells Role.Work) → IfOk result (λ long. slice_get (fields_there (disk_of H.Host (loom_now self.old) (loom_rest self.old) ((loom_core self.old).entries s.0).name)) i ≡ Some (value_in long)) }
        ensures below { IfOk result (λ long. IsBelow self.new.ledger.next (value_in long)) }
        ensures named { OnOk result (((loom_core self.new).entries s.0).name ≡ ((loom_core self.old).entries s.0).name) }
        ensures spare { OnOk result (1 ≤ spare_of (loom_parts self.new)) }
        ensures at { OnOk result ((w : ℕ) × IsAt (loom_core self.new) s.0 at.place i w) }
        ensures mark { OnOk result (((loom_core self.new).entries s.0).flags.marked ≡ ((loom_core self.old).entries s.0).flags.marked) }
        ensures damage { IfErr result (IsDamageOf (loom_rest self.new) ((loom_core self.old).entries s.0).name) }
        ensures err { IfErr result (λ f. (a : Access) → IsSilent a → makes a ≡ 0 → IsRefused (loom_told H.Host self.old) (loom_told H.Host self.new) a f) }
    {
        let levels = &mut self.pager.levels;
        match read_copy(&levels.parts, &mut levels.disk, &mut self.buf, s, at) {
            Ok(()) => {
                let e = self.pager.levels.parts.names.table.used_entry(s);
                if e.flags.fresh {
                    return Err(self.wrong(e.name));
                }
                if !is_below(self.buf.long_field(i), self.ledger.next) {
                    return Err(self.wrong(e.name));
                }
                let levels = &mut self.pager.levels;
                Ok(resolve(&mut levels.parts, s, &mut self.buf, i))
            }
            Err(f) => {
                let f = refusal_of(f);
                Err(self.refuse(f))
            }
        }
    }

    // The short word of a value. Its name gets an entry.
    fn word_for(&mut self, v: &Value) -> u16
        requires sound { IsSound H.Host self.old }
        requires value { IsValue v.now }
        requires named { IsTrue (H.tells Role.Work) → (n : ℕ) → v.now ≡ Ref n → IsNameable (loom_told H.Host self.old).heap n }
        requires spare { 1 ≤ spare_of (loom_parts self.old) }
        ensures enters { Enters H.Host self.old self.new }
        ensures leaves { LeavesBeside H.Host self.old self.new (Ok result) }
        ensures entries { (q : ℕ) → is_used ((loom_core self.old).entries q).state ≡ true → (loom_core self.new).entries q ≡ (loom_core self.old).entries q }
        ensures chunks { (loom_core self.new).chunks ≡ (loom_core self.old).chunks }
        ensures used { is_short result ≡ true → is_used ((loom_core self.new).entries result).state ≡ true }
        ensures some { result ≢ 0 }
        ensures means { meant (loom_core self.new).entries [] 0 result ≡ v.now }
    {
        match v.number() {
            Some(number) => short_int(number),
            None => match v.name() {
                Some(name) => {
                    let levels = &mut self.pager.levels;
                    match find_or_leaf(&mut levels.parts, name, 0) {
                        Some(s) => s.0,
                        None => unreachable!(),
                    }
                }
                None => unreachable!(),
            },
        }
    }

    // The word of what a lambda means. A name gets an entry.
    pub(crate) fn lambda_word(
        &mut self,
        of: Reg,
        s: Short,
        at: Addr,
        i: u32,
    ) -> Result<u16, MemFault>
        requires fit { MayCall (IsSound H.Host) (loom_told H.Host) self.old }
        requires word { s.0 ≡ word_in self.old.regs of }
        requires lambda { IsAt (loom_core self.old) s.0 at.place i 0 }
        requires spare { SPARE_BEHIND_CLASS ≤ spare_of (loom_parts self.old) }
        ensures peeks { OnOk result (Peeks H.Host self.old self.new) }
        ensures leaves { Leaves H.Host self.old self.new result }
        ensures used { IfOk result (λ w. is_short w ≡ true → is_used ((loom_core self.new).entries w).state ≡ true) }
        ensures some { IfOk result (λ w. w ≢ 0) }
        ensures means { IsTrue (H.tells Role.Work) → IfOk result (λ w. brought (loom_told H.Host self.old).heap (loom_told H.Host self.old).regs (Field 0 of i) ≡ Some (meant (loom_core self.new).entries [] 0 w)) }
        ensures below { IfOk result (λ w. IsBelow self.new.ledger.next (meant (loom_core self.new).entries [] 0 w)) }
        ensures at { OnOk result ((w : ℕ) × IsAt (loom_core self.new) s.0 at.place i w) }
        ensures mark { OnOk result (((loom_core self.new).entries s.0).flags.marked ≡ ((loom_core self.old).entries s.0).flags.marked) }
        ensures damage { IfErr result (IsDamageOf (loom_rest self.new) ((loom_core self.old).entries s.0).name) }
        ensures err { IfErr result (λ f. (a : Access) → IsSilent a → makes a ≡ 0 → IsRefused (loom_told H.Host self.old) (loom_told H.Host self.new) a f) }
    {
        match self.read_lambda(s, at, i) {
            Ok(long) => match value_of(long) {
                Some(v) => Ok(self.word_for(&v)),
                None => Err(self.amiss(s)),
            },
            Err(f) => Err(f),
        }
    }

    // Puts what a lambda means into a register.
    fn take_lambda(&mut self, to: Reg, of: Reg, s: Short, at: Addr, i: u32) -> Result<(), MemFault>
        requires fit { MayCall (IsSound H.Host) (loom_told H.Host) self.old }
        requires word { s.0 ≡ word_in self.old.regs of }
        requires lambda { IsAt (loom_core self.old) s.0 at.place i 0 }
        requires spare { SPARE_BEHIND_CLASS ≤ spare_of (loom_parts self.old) }
        ensures taken { OnOk result (IsTaken (loom_told H.Host self.old) (loom_told H.Host self.new) to of i) }
        ensures leaves { Leaves H.Host self.old self.new result }
        ensures damage { IfErr result (IsDamageOf (loom_rest self.new) ((loom_core self.old).entries s.0).name) }
        ensures err { IfErr result (IsRefused (loom_told H.Host self.old) (loom_told H.Host self.new) (Field to of i)) }
        ensures peek { OnOk result (IsPeek H.Host self.old self.new) }
        ensures due { OnOk result (self.new.due ≡ self.old.due) }
        ensures stays { OnOk result (StaysThinned self.old self.new (word_in self.old.regs to)) }
    {
        match self.lambda_word(of, s, at, i) {
            Ok(w) => {
                self.put_word(to, w);
                Ok(())
            }
            Err(f) => Err(f),
        }
    }

    // Puts field i of an object in the core into a register.
    fn take_field(&mut self, to: Reg, of: Reg, s: Short, i: u32) -> Result<(), MemFault>
        requires fit { MayCall (IsSound H.Host) (loom_told H.Host) self.old }
        requires may { IsTrue (H.tells Role.Work) → CanDo (loom_told H.Host self.old).heap (loom_told H.Host self.old).regs (Field to of i) }
        requires word { s.0 ≡ word_in self.old.regs of }
        requires there { (at : ℕ) × (place_of ((loom_core self.old).entries s.0).state ≡ Some at) }
        requires spare { SPARE_BEHIND_CLASS ≤ spare_of (loom_parts self.old) }
        ensures taken { OnOk result (IsTaken (loom_told H.Host self.old) (loom_told H.Host self.new) to of i) }
        ensures leaves { Leaves H.Host self.old self.new result }
        ensures damage { IfErr result (IsDamageOf (loom_rest self.new) ((loom_core self.old).entries s.0).name) }
        ensures err { IfErr result (IsRefused (loom_told H.Host self.old) (loom_told H.Host self.new) (Field to of i)) }
        ensures peek { OnOk result (IsPeek H.Host self.old self.new) }
        ensures due { OnOk result (self.new.due ≡ self.old.due) }
        ensures stays { OnOk result (StaysThinned self.old self.new (word_in self.old.regs to)) }
    {
        let at = place_of_body(&self.pager.levels.parts, s);
        if i >= field_total(&self.pager.levels.parts, s, at) {
            return Err(self.amiss(s));
        }
        let w = field_word(&self.pager.levels.parts, s, at, i);
        if w == 0 {
            return self.take_lambda(to, of, s, at, i);
        }
        self.put_word(to, w);
        Ok(())
    }

    // The same for an object that isn't in the core, or a field that is left on the disk.
    #[cold]
    #[inline(never)]
    fn field_on_disk(&mut self, to: Reg, of: Reg, i: u32) -> Result<(), MemFault>
        requires fit { MayCall (IsSound H.Host) (loom_told H.Host) self.old }
        requires may { MayDo (loom_told H.Host self.old) (Field to of i) }
        ensures access { Accessed (loom_told H.Host self.old) (loom_told H.Host self.new) (Field to of i) (λ _. Nothing) result }
        ensures searched { OnOk result (IsSearched H.Host self.old self.new (name_at ((loom_told H.Host self.old).regs of))) }
        ensures gone { OnOk result (IsFreedBy H.Host self.old self.new (name_at ((loom_told H.Host self.old).regs of)) (Field to of i)) }
        ensures damage { IsDamaged self.old self.new (name_at ((loom_told H.Host self.old).regs of)) result }
        ensures brings { BringsOne self.old self.new ((is_resident self.old (name_at ((loom_told H.Host self.old).regs of)) ≡ false) ⊎ (HasRoom (loom_parts self.old) 0 SPARE → ⊥)) }
        ensures short { OnOk result (IsFreedShort H.Host self.old self.new (Field to of i)) }
        ensures fit { StaysCallable (IsSound H.Host) (loom_told H.Host) loom_lender (loom_outside H.Host) self.old self.new result }
    {
        match self.load_with_room(of) {
            Ok(s) => self.take_field(to, of, s, i),
            Err(f) => Err(f),
        }
    }

    /// Value or literal i.
    #[inline(always)]
    pub fn field(&mut self, to: Reg, of: Reg, i: u32) -> Result<(), MemFault>
        requires fit { MayCall (IsSound H.Host) (loom_told H.Host) self.old }
        requires may { MayDo (loom_told H.Host self.old) (Field to of i) }
        ensures access { Accessed (loom_told H.Host self.old) (loom_told H.Host self.new) (Field to of i) (λ _. Nothing) result }
        ensures own { IsAtHand self.old (name_at ((loom_told H.Host self.old).regs of)) i → IsSparing H.Host self.old self.new (name_at ((loom_told H.Host self.old).regs of)) result }
        ensures searched { OnOk result (IsSearched H.Host self.old self.new (name_at ((loom_told H.Host self.old).regs of))) }
        ensures gone { OnOk result (IsFreedBy H.Host self.old self.new (name_at ((loom_told H.Host self.old).regs of)) (Field to of i)) }
        ensures damage { IsDamaged self.old self.new (name_at ((loom_told H.Host self.old).regs of)) result }
        ensures brings { BringsOne self.old self.new ((is_resident self.old (name_at ((loom_told H.Host self.old).regs of)) ≡ false) ⊎ (HasRoom (loom_parts self.old) 0 SPARE → ⊥)) }
        ensures short { OnOk result ((IsAtHand self.old (name_at ((loom_told H.Host self.old).regs of)) i → ⊥) → IsFreedShort H.Host self.old self.new (Field to of i)) }
        ensures fit { StaysCallable (IsSound H.Host) (loom_told H.Host) loom_lender (loom_outside H.Host) self.old self.new result }
    {
        match self.here(of) {
            Some(s) => match word_in_body(&self.pager.levels.parts, s, i) {
                Some(w) => {
                    self.put_word(to, w);
                    Ok(())
                }
                None => self.field_on_disk(to, of, i),
            },
            None => self.field_on_disk(to, of, i),
        }
    }
}
