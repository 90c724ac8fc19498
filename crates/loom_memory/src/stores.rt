// Stores into objects: fields, words and bytes.
ghost use Rattle.std.specs.Prelude.{◌≡◌, ◌≢◌, ◌⊎◌, ◌+◌, ◌+ℤ◌, pos, negsuc, ◌≤◌, ◌<◌, ℕ, [], ◌∷◌, None, Some, true, false, IsTrue, OnOk, IfOk, IfErr, length};
ghost use Rattle.long_names.specs.declared.object.Kind.TheVariants as sort;
ghost use Rattle.object_table.specs.Entries.{is_short, is_used, place_of};
ghost use Rattle.core_view.specs.Steps.{IsAt};
ghost use Rattle.core_view.specs.Words.{meant};
ghost use Rattle.core_view.specs.LevelSteps.{changed_at};
ghost use Rattle.delta_counts.specs.Parts.{IsChange};
ghost use Rattle.loom_memory.specs.Stores.{IsRecount};
ghost use Rattle.leaf_lambda.specs.Parts.{core_of, spare_of, IsParts};
ghost use Rattle.loom_memory.specs.declared.load.TheConstants.{SPARE_BEHIND_CLASS, SPARE_ENTRIES as SPARE};
ghost use Rattle.leaf_lambda.specs.Making.{HasBytes};

use crate::fields::word_in_body;
use crate::memory::LoomMemory;
use crate::thinned::note_gone;
use core_segment::Addr;
use delta_counts::add_change;
use leaf_lambda::Parts;
use leaf_lambda::fields::{is_name, put_field};
use leaf_lambda::leaving::field_total;
use leaf_lambda::steps::{field_word, place_of_body};
use leaf_lambda::storing::{put_byte, put_words};
use long_names::Kind;
use loom_host::{Host, Role};
use object_memory::{MemFault, Reg};
use object_table::Short;
use purger::NOWHERE;
use purger::marks::unmark_for;

// Whether a body of a kind and a length has so many words from a place on.
#[inline(always)]
fn has_words(kind: Kind, len: u32, at: u32, count: usize) -> bool
    ensures yes { result ≡ true → (kind ≡ sort.Words) × (at + count ≤ len) }
    ensures no { result ≡ false → kind ≡ sort.Words → len < at + count }
{
    match kind {
        Kind::Words => at <= len && count <= (len - at) as usize,
        _ => false,
    }
}

// Whether it has byte i, of code too.
fn has_byte(kind: Kind, len: u32, i: u32) -> bool
    ensures yes { result ≡ true → HasBytes kind × (i < len) }
    ensures no { result ≡ false → HasBytes kind → len ≤ i }
{
    match kind {
        Kind::Bytes => i < len,
        Kind::Method => i < len,
        _ => false,
    }
}

// A word more is the name of what this word names, if it names an entry.
#[inline(always)]
fn raise_word(p: &mut Parts, w: u16)
    requires parts { IsParts p.old }
    requires used { is_short w ≡ true → is_used ((core_of p.old).entries w).state ≡ true }
    ensures parts { IsParts p.new }
    ensures recount { IsRecount (core_of p.old) (core_of p.new) }
    ensures raised { is_short w ≡ true → IsChange (((core_of p.old).entries w).change +ℤ pos 1)
        → core_of p.new ≡ changed_at (core_of p.old) w (((core_of p.old).entries w).change +ℤ pos 1) }
    ensures same { is_short w ≡ false → p.new ≡ p.old }
    ensures segment { p.new.segment ≡ p.old.segment }
{
    if is_name(w) {
        add_change(&mut p.names, Short(w), 1);
    }
}

// A word less is.
#[inline(always)]
fn lower_word(p: &mut Parts, w: u16)
    requires parts { IsParts p.old }
    requires used { is_short w ≡ true → is_used ((core_of p.old).entries w).state ≡ true }
    ensures parts { IsParts p.new }
    ensures recount { IsRecount (core_of p.old) (core_of p.new) }
    ensures lowered { is_short w ≡ true → IsChange (((core_of p.old).entries w).change +ℤ negsuc 0)
        → core_of p.new ≡ changed_at (core_of p.old) w (((core_of p.old).entries w).change +ℤ negsuc 0) }
    ensures same { is_short w ≡ false → p.new ≡ p.old }
    ensures segment { p.new.segment ≡ p.old.segment }
{
    if is_name(w) {
        add_change(&mut p.names, Short(w), -1);
    }
}

impl<'h, H: Host> LoomMemory<'h, H> {
    ghost use Rattle.loom_memory.specs.Effects.{IsOpen, Leaves, LeavesBeside};
    ghost use Rattle.object_memory.specs.Fit.{MayCall, StaysCallable};
    ghost use Rattle.std.specs.Prelude.{Ok};
    ghost use Rattle.long_names.specs.Access.{Access, Field, SetField, SetWord, SetByte, WriteWords, CanDo, Nothing, brought, target_of};
    ghost use Rattle.long_names.specs.State.{IsRef};
    ghost use Rattle.object_memory.specs.Told.{IsReady};
    ghost use Rattle.object_memory.specs.Contract.{Accessed, Does, HasCore, IfBounds, KeepsSound, MayDo, makes};
    ghost use Rattle.loom_memory.specs.Memory.{loom_told, loom_outside, loom_lender, word_in, loom_core, loom_parts, loom_rest, IsSound, IsSilent, IsRefused};
    ghost use Rattle.loom_memory.specs.Gentle.{IsQuiet};
    ghost use Rattle.loom_memory.specs.Stores.{IsStored};
    ghost use Rattle.long_names.specs.State.{name_at};
    ghost use Rattle.loom_memory.specs.Damage.{IsDamageOf, IsDamaged};
    ghost use Rattle.loom_memory.specs.Freed.{IsFreed, IsFreedBy, IsFreedFor, IsFreedShort};
    ghost use Rattle.loom_memory.specs.Thinned.{StaysThinned};
    ghost use Rattle.loom_memory.specs.Residents.{fetched, is_resident};
    ghost use Rattle.purger.specs.Purge.{HasRoom};
    ghost use Rattle.loom_memory.specs.Gentle.{IsGlance, IsResting, Remains};
    ghost use Rattle.loom_memory.specs.Makings.{HasThinned};
    ghost use Rattle.loom_memory.specs.Own.{BringsOne, HasPlace, HasSpace, IsAtHand, IsSearchedChange, IsSparingChange, IsUnmarked, MindsCache};
    ghost use Rattle.loom_memory.specs.Gentle.{KeepsCache};

    // Before an object is stored into: all marks go where it is marked.
    #[inline(always)]
    fn unmark(&mut self, s: Short)
        requires sound { IsSound H.Host self.old }
        requires used { is_used ((loom_core self.old).entries s.0).state ≡ true }
        ensures quiet { IsQuiet (loom_told H.Host self.old) (loom_told H.Host self.new) }
        ensures leaves { LeavesBeside H.Host self.old self.new (Ok result) }
        ensures regs { self.new.regs ≡ self.old.regs }
        ensures gone { ((loom_core self.new).entries s.0).flags.marked ≡ false }
        ensures place { place_of ((loom_core self.new).entries s.0).state ≡ place_of ((loom_core self.old).entries s.0).state }
        ensures resting { IsResting self.old self.new }
        ensures field { (at i w : ℕ) → IsAt (loom_core self.old) s.0 at i w → IsAt (loom_core self.new) s.0 at i w }
        ensures idle { ((loom_core self.old).entries s.0).flags.marked ≡ false → self.new ≡ self.old }
        ensures minds { MindsCache H.Host None self.old self.new (λ k. k ≡ ((loom_core self.old).entries s.0).name) }
        ensures spare { spare_of (loom_parts self.new) ≡ spare_of (loom_parts self.old) }
        ensures due { self.new.due ≡ self.old.due }
        ensures flag { self.new.thinned ≡ self.old.thinned }
    {
        let levels = &mut self.pager.levels;
        unmark_for(&mut levels.parts, s);
    }

    // Brings the object of a register into the core, to be stored into: it isn't marked then.
    #[inline(always)]
    fn open(&mut self, of: Reg) -> Result<Short, MemFault>
        requires fit { MayCall (IsSound H.Host) (loom_told H.Host) self.old }
        requires name { IsRef ((loom_told H.Host self.old).regs of) }
        ensures thinned { OnOk result (HasThinned (loom_told H.Host self.old) (loom_told H.Host self.new)) }
        ensures leaves { LeavesBeside H.Host self.old self.new result }
        ensures opened { IfOk result (λ s. IsOpen (loom_told H.Host self.old) self.new of s.0) }
        ensures own { IsSparingChange H.Host self.old self.new (name_at ((loom_told H.Host self.old).regs of)) result }
        ensures cached { OnOk result (HasPlace H.Host self.old (name_at ((loom_told H.Host self.old).regs of)) → IsUnmarked H.Host self.old (name_at ((loom_told H.Host self.old).regs of)) → KeepsCache H.Host self.old self.new) }
        ensures minds { OnOk result (MindsCache H.Host None self.old self.new (λ k. k ≡ name_at ((loom_told H.Host self.old).regs of))) }
        ensures freed { OnOk result (IsFreedFor H.Host self.old self.new (name_at ((loom_told H.Host self.old).regs of))) }
        ensures damage { IsDamaged self.old self.new (name_at ((loom_told H.Host self.old).regs of)) result }
        ensures err { IfErr result (λ f. (a : Access) → target_of a ≡ Some of → makes a ≡ 0 → IsSilent a → IsRefused (loom_told H.Host self.old) (loom_told H.Host self.new) a f) }
        ensures brings { BringsOne self.old self.new (is_resident self.old (name_at ((loom_told H.Host self.old).regs of)) ≡ false) }
        ensures regs { OnOk result (self.new.regs ≡ self.old.regs) }
    {
        match self.load(of) {
            Ok(s) => {
                self.unmark(s);
                Ok(s)
            }
            Err(f) => Err(f),
        }
    }

    // The same, and 26 entries are free then.
    fn open_with_room(&mut self, of: Reg) -> Result<Short, MemFault>
        requires fit { MayCall (IsSound H.Host) (loom_told H.Host) self.old }
        requires name { IsRef ((loom_told H.Host self.old).regs of) }
        ensures thinned { OnOk result (HasThinned (loom_told H.Host self.old) (loom_told H.Host self.new)) }
        ensures leaves { LeavesBeside H.Host self.old self.new result }
        ensures opened { IfOk result (λ s. IsOpen (loom_told H.Host self.old) self.new of s.0) }
        ensures spare { OnOk result (SPARE_BEHIND_CLASS ≤ spare_of (loom_parts self.new)) }
        ensures searched { OnOk result (IsSearchedChange H.Host self.old self.new (name_at ((loom_told H.Host self.old).regs of))) }
        ensures cached { OnOk result (HasSpace H.Host self.old (name_at ((loom_told H.Host self.old).regs of)) → IsUnmarked H.Host self.old (name_at ((loom_told H.Host self.old).regs of)) → KeepsCache H.Host self.old self.new) }
        ensures minds { OnOk result (MindsCache H.Host None self.old self.new (λ k. k ≡ name_at ((loom_told H.Host self.old).regs of))) }
        ensures freed { OnOk result (IsFreedFor H.Host self.old self.new (name_at ((loom_told H.Host self.old).regs of))) }
        ensures damage { IsDamaged self.old self.new (name_at ((loom_told H.Host self.old).regs of)) result }
        ensures err { IfErr result (λ f. (a : Access) → target_of a ≡ Some of → makes a ≡ 0 → IsSilent a → IsRefused (loom_told H.Host self.old) (loom_told H.Host self.new) a f) }
        ensures brings { BringsOne self.old self.new ((is_resident self.old (name_at ((loom_told H.Host self.old).regs of)) ≡ false) ⊎ (HasRoom (loom_parts self.old) 0 SPARE → ⊥)) }
        ensures entries { OnOk result (IsFreed H.Host self.old self.new 0 SPARE) }
        ensures regs { OnOk result (self.new.regs ≡ self.old.regs) }
    {
        match self.load_with_room(of) {
            Ok(s) => {
                self.unmark(s);
                Ok(s)
            }
            Err(f) => Err(f),
        }
    }

    // Stores the value of a register into field i of an object in the core, in place of what a word means. Each of the two names that there may
    // be is counted once more, or once less.
    #[inline(always)]
    fn exchange_field(&mut self, of: Reg, s: Short, at: Addr, i: u32, from: Reg, old: u16)
        requires sound { IsSound H.Host self.old }
        requires word { s.0 ≡ word_in self.old.regs of }
        requires there { (w : ℕ) × IsAt (loom_core self.old) s.0 at.place i w }
        requires gone { ((loom_core self.old).entries s.0).flags.marked ≡ false }
        requires used { is_short old ≡ true → is_used ((loom_core self.old).entries old).state ≡ true }
        requires before { IsTrue (H.tells Role.Work) → brought (loom_told H.Host self.old).heap (loom_told H.Host self.old).regs (Field 0 of i) ≡ Some (meant (loom_core self.old).entries [] 0 old) }
        ensures stored { IsStored (loom_told H.Host self.old) (loom_told H.Host self.new) (SetField of i from) }
        ensures leaves { LeavesBeside H.Host self.old self.new (Ok result) }
        ensures resting { IsResting self.old self.new }
        ensures none { Remains (loom_core self.new) (loom_core self.old) }
        ensures cached { KeepsCache H.Host self.old self.new }
        ensures due { self.new.due ≡ self.old.due }
        ensures stays { StaysThinned self.old self.new old }
    {
        let w = self.regs[from.index()];
        let levels = &mut self.pager.levels;
        raise_word(&mut levels.parts, w);
        put_field(&mut levels.parts, s, at, i, w);
        lower_word(&mut levels.parts, old);
        note_gone(&levels.parts, &mut self.thinned, old);
    }

    // Stores the value of a register into field i of an object in the core, whatever was there. What a lambda meant is read from the record.
    fn store_field(&mut self, of: Reg, s: Short, i: u32, from: Reg) -> Result<(), MemFault>
        requires fit { MayCall (IsSound H.Host) (loom_told H.Host) self.old }
        requires may { IsTrue (H.tells Role.Work) → CanDo (loom_told H.Host self.old).heap (loom_told H.Host self.old).regs (SetField of i from) }
        requires word { s.0 ≡ word_in self.old.regs of }
        requires there { (at : ℕ) × (place_of ((loom_core self.old).entries s.0).state ≡ Some at) }
        requires gone { ((loom_core self.old).entries s.0).flags.marked ≡ false }
        requires spare { SPARE_BEHIND_CLASS ≤ spare_of (loom_parts self.old) }
        ensures stored { OnOk result (IsStored (loom_told H.Host self.old) (loom_told H.Host self.new) (SetField of i from)) }
        ensures leaves { Leaves H.Host self.old self.new result }
        ensures glance { OnOk result (IsGlance H.Host self.old self.new) }
        ensures none { OnOk result (Remains (loom_core self.new) (loom_core self.old)) }
        ensures cached { OnOk result (KeepsCache H.Host self.old self.new) }
        ensures damage { IfErr result (IsDamageOf (loom_rest self.new) ((loom_core self.old).entries s.0).name) }
        ensures err { IfErr result (IsRefused (loom_told H.Host self.old) (loom_told H.Host self.new) (SetField of i from)) }
        ensures due { OnOk result (self.new.due ≡ self.old.due) }
    {
        let at = place_of_body(&self.pager.levels.parts, s);
        if i >= field_total(&self.pager.levels.parts, s, at) {
            let name = self.pager.levels.parts.names.table.used_entry(s).name.get();
            return Err(self.refuse(MemFault::Damaged {
                place: NOWHERE,
                name,
            }));
        }
        let w = field_word(&self.pager.levels.parts, s, at, i);
        if w == 0 {
            return match self.lambda_word(of, s, at, i) {
                Ok(old) => {
                    self.exchange_field(of, s, at, i, from, old);
                    Ok(())
                }
                Err(f) => Err(f),
            };
        }
        self.exchange_field(of, s, at, i, from, w);
        Ok(())
    }

    // Stores into field i of an object in the core that has this word there. Where the register has it too, nothing changes but marks.
    #[inline(always)]
    fn replace_field(&mut self, of: Reg, s: Short, i: u32, from: Reg, w: u16)
        requires sound { IsSound H.Host self.old }
        requires word { s.0 ≡ word_in self.old.regs of }
        requires there { (at : ℕ) × IsAt (loom_core self.old) s.0 at i w × (w ≢ 0) }
        ensures stored { IsStored (loom_told H.Host self.old) (loom_told H.Host self.new) (SetField of i from) }
        ensures leaves { LeavesBeside H.Host self.old self.new (Ok result) }
        ensures resting { IsResting self.old self.new }
        ensures cached { ((loom_core self.old).entries s.0).flags.marked ≡ false → KeepsCache H.Host self.old self.new }
        ensures minds { MindsCache H.Host None self.old self.new (λ k. k ≡ ((loom_core self.old).entries s.0).name) }
        ensures due { self.new.due ≡ self.old.due }
        ensures stays { StaysThinned self.old self.new w }
    {
        self.unmark(s);
        if self.word_of(from) == w {
            return;
        }
        let at = place_of_body(&self.pager.levels.parts, s);
        self.exchange_field(of, s, at, i, from, w);
    }

    // Stores into a field of an object that isn't in the core, or that is left on the disk.
    #[cold]
    #[inline(never)]
    fn set_field_on_disk(&mut self, of: Reg, i: u32, from: Reg) -> Result<(), MemFault>
        requires fit { MayCall (IsSound H.Host) (loom_told H.Host) self.old }
        requires may { MayDo (loom_told H.Host self.old) (SetField of i from) }
        ensures access { Accessed (loom_told H.Host self.old) (loom_told H.Host self.new) (SetField of i from) (λ _. Nothing) result }
        ensures searched { OnOk result (IsSearchedChange H.Host self.old self.new (name_at ((loom_told H.Host self.old).regs of))) }
        ensures cached { OnOk result (HasSpace H.Host self.old (name_at ((loom_told H.Host self.old).regs of)) → IsUnmarked H.Host self.old (name_at ((loom_told H.Host self.old).regs of)) → KeepsCache H.Host self.old self.new) }
        ensures minds { OnOk result (MindsCache H.Host None self.old self.new (λ k. k ≡ name_at ((loom_told H.Host self.old).regs of))) }
        ensures gone { OnOk result (IsFreedBy H.Host self.old self.new (name_at ((loom_told H.Host self.old).regs of)) (SetField of i from)) }
        ensures damage { IsDamaged self.old self.new (name_at ((loom_told H.Host self.old).regs of)) result }
        ensures brings { BringsOne self.old self.new ((is_resident self.old (name_at ((loom_told H.Host self.old).regs of)) ≡ false) ⊎ (HasRoom (loom_parts self.old) 0 SPARE → ⊥)) }
        ensures short { OnOk result (IsFreedShort H.Host self.old self.new (SetField of i from)) }
        ensures fit { StaysCallable (IsSound H.Host) (loom_told H.Host) loom_lender (loom_outside H.Host) self.old self.new result }
    {
        match self.open_with_room(of) {
            Ok(s) => self.store_field(of, s, i, from),
            Err(f) => Err(f),
        }
    }

    /// Stores value or literal i.
    #[inline(always)]
    pub fn set_field(&mut self, of: Reg, i: u32, from: Reg) -> Result<(), MemFault>
        requires fit { MayCall (IsSound H.Host) (loom_told H.Host) self.old }
        requires may { MayDo (loom_told H.Host self.old) (SetField of i from) }
        ensures access { Accessed (loom_told H.Host self.old) (loom_told H.Host self.new) (SetField of i from) (λ _. Nothing) result }
        ensures own { IsAtHand self.old (name_at ((loom_told H.Host self.old).regs of)) i → IsSparingChange H.Host self.old self.new (name_at ((loom_told H.Host self.old).regs of)) result }
        ensures searched { OnOk result (IsSearchedChange H.Host self.old self.new (name_at ((loom_told H.Host self.old).regs of))) }
        ensures cached { OnOk result (IsAtHand self.old (name_at ((loom_told H.Host self.old).regs of)) i ⊎ HasSpace H.Host self.old (name_at ((loom_told H.Host self.old).regs of)) → IsUnmarked H.Host self.old (name_at ((loom_told H.Host self.old).regs of)) → KeepsCache H.Host self.old self.new) }
        ensures minds { OnOk result (MindsCache H.Host None self.old self.new (λ k. k ≡ name_at ((loom_told H.Host self.old).regs of))) }
        ensures gone { OnOk result (IsFreedBy H.Host self.old self.new (name_at ((loom_told H.Host self.old).regs of)) (SetField of i from)) }
        ensures damage { IsDamaged self.old self.new (name_at ((loom_told H.Host self.old).regs of)) result }
        ensures brings { BringsOne self.old self.new ((is_resident self.old (name_at ((loom_told H.Host self.old).regs of)) ≡ false) ⊎ (HasRoom (loom_parts self.old) 0 SPARE → ⊥)) }
        ensures short { OnOk result ((IsAtHand self.old (name_at ((loom_told H.Host self.old).regs of)) i → ⊥) → IsFreedShort H.Host self.old self.new (SetField of i from)) }
        ensures stays { OnOk result ((at w : ℕ) → IsAt (loom_core self.old) (word_in self.old.regs of) at i w → w ≢ 0 → StaysThinned self.old self.new w) }
        ensures fit { StaysCallable (IsSound H.Host) (loom_told H.Host) loom_lender (loom_outside H.Host) self.old self.new result }
    {
        match self.here(of) {
            Some(s) => match word_in_body(&self.pager.levels.parts, s, i) {
                Some(w) => {
                    self.replace_field(of, s, i, from, w);
                    Ok(())
                }
                None => self.set_field_on_disk(of, i, from),
            },
            None => self.set_field_on_disk(of, i, from),
        }
    }

    // Stores a run of words into an object in the core, from word at on.
    #[inline(always)]
    fn store_words(&mut self, of: Reg, s: Short, at: u32, run: &[u16]) -> Result<(), MemFault>
        requires fit { MayCall (IsSound H.Host) (loom_told H.Host) self.old }
        requires may { IsTrue (H.tells Role.Work) → CanDo (loom_told H.Host self.old).heap (loom_told H.Host self.old).regs (WriteWords of at run.now) }
        requires word { s.0 ≡ word_in self.old.regs of }
        requires there { (at : ℕ) × (place_of ((loom_core self.old).entries s.0).state ≡ Some at) }
        requires gone { ((loom_core self.old).entries s.0).flags.marked ≡ false }
        ensures stored { OnOk result (IsStored (loom_told H.Host self.old) (loom_told H.Host self.new) (WriteWords of at run.now)) }
        ensures leaves { Leaves H.Host self.old self.new result }
        ensures resting { OnOk result (IsResting self.old self.new) }
        ensures none { OnOk result (Remains (loom_core self.new) (loom_core self.old)) }
        ensures cached { OnOk result (KeepsCache H.Host self.old self.new) }
        ensures sure { IfErr result (λ f. IsTrue (H.tells Role.Work) → ⊥) }
        ensures damage { IfErr result (IsDamageOf (loom_rest self.new) ((loom_core self.old).entries s.0).name) }
        ensures err { IfErr result (λ f. (a : Access) → IsSilent a → makes a ≡ 0 → IsRefused (loom_told H.Host self.old) (loom_told H.Host self.new) a f) }
        ensures due { OnOk result (self.new.due ≡ self.old.due) }
        ensures flag { OnOk result (self.new.thinned ≡ self.old.thinned) }
    {
        let e = self.pager.levels.parts.names.table.used_entry(s);
        let fits = has_words(e.kind, e.len, at, run.len());
        if fits {
            let place = place_of_body(&self.pager.levels.parts, s);
            let levels = &mut self.pager.levels;
            put_words(&mut levels.parts, s, place, at, run);
            return Ok(());
        }
        Err(self.refuse(MemFault::Damaged {
            place: NOWHERE,
            name: e.name.get(),
        }))
    }

    /// Stores word i (storeWord:ofObject:withValue:).
    pub fn set_word(&mut self, of: Reg, i: u32, w: u16) -> Result<(), MemFault>
        requires fit { MayCall (IsSound H.Host) (loom_told H.Host) self.old }
        requires may { MayDo (loom_told H.Host self.old) (SetWord of i w) }
        ensures access { Accessed (loom_told H.Host self.old) (loom_told H.Host self.new) (SetWord of i w) (λ _. Nothing) result }
        ensures own { IsSparingChange H.Host self.old self.new (name_at ((loom_told H.Host self.old).regs of)) result }
        ensures cached { OnOk result (HasPlace H.Host self.old (name_at ((loom_told H.Host self.old).regs of)) → IsUnmarked H.Host self.old (name_at ((loom_told H.Host self.old).regs of)) → KeepsCache H.Host self.old self.new) }
        ensures minds { OnOk result (MindsCache H.Host None self.old self.new (λ k. k ≡ name_at ((loom_told H.Host self.old).regs of))) }
        ensures gone { OnOk result (IsFreedBy H.Host self.old self.new (name_at ((loom_told H.Host self.old).regs of)) (SetWord of i w)) }
        ensures damage { IsDamaged self.old self.new (name_at ((loom_told H.Host self.old).regs of)) result }
        ensures brings { BringsOne self.old self.new (is_resident self.old (name_at ((loom_told H.Host self.old).regs of)) ≡ false) }
        ensures fit { StaysCallable (IsSound H.Host) (loom_told H.Host) loom_lender (loom_outside H.Host) self.old self.new result }
    {
        match self.open(of) {
            Ok(s) => self.store_words(of, s, i, &[w]),
            Err(f) => Err(f),
        }
    }

    /// Stores a run of words from a place on, also an empty one.
    #[inline(always)]
    pub fn write_words(&mut self, of: Reg, at: u32, from: &[u16]) -> Result<(), MemFault>
        requires fit { MayCall (IsSound H.Host) (loom_told H.Host) self.old }
        requires may { MayDo (loom_told H.Host self.old) (WriteWords of at from.now) }
        ensures access { Accessed (loom_told H.Host self.old) (loom_told H.Host self.new) (WriteWords of at from.now) (λ _. Nothing) result }
        ensures own { IsSparingChange H.Host self.old self.new (name_at ((loom_told H.Host self.old).regs of)) result }
        ensures cached { OnOk result (HasPlace H.Host self.old (name_at ((loom_told H.Host self.old).regs of)) → IsUnmarked H.Host self.old (name_at ((loom_told H.Host self.old).regs of)) → KeepsCache H.Host self.old self.new) }
        ensures minds { OnOk result (MindsCache H.Host None self.old self.new (λ k. k ≡ name_at ((loom_told H.Host self.old).regs of))) }
        ensures gone { OnOk result (IsFreedBy H.Host self.old self.new (name_at ((loom_told H.Host self.old).regs of)) (WriteWords of at from.now)) }
        ensures damage { IsDamaged self.old self.new (name_at ((loom_told H.Host self.old).regs of)) result }
        ensures brings { BringsOne self.old self.new (is_resident self.old (name_at ((loom_told H.Host self.old).regs of)) ≡ false) }
        ensures fit { StaysCallable (IsSound H.Host) (loom_told H.Host) loom_lender (loom_outside H.Host) self.old self.new result }
    {
        match self.open(of) {
            Ok(s) => self.store_words(of, s, at, from),
            Err(f) => Err(f),
        }
    }

    // Stores byte i of an object in the core, of code too.
    fn store_byte(&mut self, of: Reg, s: Short, i: u32, b: u8) -> Result<(), MemFault>
        requires fit { MayCall (IsSound H.Host) (loom_told H.Host) self.old }
        requires may { IsTrue (H.tells Role.Work) → CanDo (loom_told H.Host self.old).heap (loom_told H.Host self.old).regs (SetByte of i b) }
        requires word { s.0 ≡ word_in self.old.regs of }
        requires there { (at : ℕ) × (place_of ((loom_core self.old).entries s.0).state ≡ Some at) }
        requires gone { ((loom_core self.old).entries s.0).flags.marked ≡ false }
        ensures stored { OnOk result (IsStored (loom_told H.Host self.old) (loom_told H.Host self.new) (SetByte of i b)) }
        ensures leaves { Leaves H.Host self.old self.new result }
        ensures resting { OnOk result (IsResting self.old self.new) }
        ensures none { OnOk result (Remains (loom_core self.new) (loom_core self.old)) }
        ensures cached { OnOk result (KeepsCache H.Host self.old self.new) }
        ensures sure { IfErr result (λ f. IsTrue (H.tells Role.Work) → ⊥) }
        ensures damage { IfErr result (IsDamageOf (loom_rest self.new) ((loom_core self.old).entries s.0).name) }
        ensures err { IfErr result (IsRefused (loom_told H.Host self.old) (loom_told H.Host self.new) (SetByte of i b)) }
        ensures due { OnOk result (self.new.due ≡ self.old.due) }
        ensures flag { OnOk result (self.new.thinned ≡ self.old.thinned) }
    {
        let e = self.pager.levels.parts.names.table.used_entry(s);
        let fits = has_byte(e.kind, e.len, i);
        if fits {
            let place = place_of_body(&self.pager.levels.parts, s);
            let levels = &mut self.pager.levels;
            put_byte(&mut levels.parts, s, place, i, b);
            return Ok(());
        }
        Err(self.refuse(MemFault::Damaged {
            place: NOWHERE,
            name: e.name.get(),
        }))
    }

    /// Stores byte i, of code too (storeByte:ofObject:withValue:).
    pub fn set_byte(&mut self, of: Reg, i: u32, b: u8) -> Result<(), MemFault>
        requires fit { MayCall (IsSound H.Host) (loom_told H.Host) self.old }
        requires may { MayDo (loom_told H.Host self.old) (SetByte of i b) }
        ensures access { Accessed (loom_told H.Host self.old) (loom_told H.Host self.new) (SetByte of i b) (λ _. Nothing) result }
        ensures own { IsSparingChange H.Host self.old self.new (name_at ((loom_told H.Host self.old).regs of)) result }
        ensures cached { OnOk result (HasPlace H.Host self.old (name_at ((loom_told H.Host self.old).regs of)) → IsUnmarked H.Host self.old (name_at ((loom_told H.Host self.old).regs of)) → KeepsCache H.Host self.old self.new) }
        ensures minds { OnOk result (MindsCache H.Host None self.old self.new (λ k. k ≡ name_at ((loom_told H.Host self.old).regs of))) }
        ensures gone { OnOk result (IsFreedBy H.Host self.old self.new (name_at ((loom_told H.Host self.old).regs of)) (SetByte of i b)) }
        ensures damage { IsDamaged self.old self.new (name_at ((loom_told H.Host self.old).regs of)) result }
        ensures brings { BringsOne self.old self.new (is_resident self.old (name_at ((loom_told H.Host self.old).regs of)) ≡ false) }
        ensures fit { StaysCallable (IsSound H.Host) (loom_told H.Host) loom_lender (loom_outside H.Host) self.old self.new result }
    {
        match self.open(of) {
            Ok(s) => self.store_byte(of, s, i, b),
            Err(f) => Err(f),
        }
    }
}
