// Names that come into registers without their objects.
ghost use Rattle.std.specs.Prelude.{◌≡◌, ◌≤◌, ◌<◌, ◌^◌, ℕ, Some, None, Ok, false, IsTrue, IsSome, IfSome, IfNone, OnOk, IfOk, IfErr};
ghost use Rattle.leaf_lambda.specs.Parts.{spare_of};
ghost use Rattle.core_view.specs.Room.{IsBare};
ghost use Rattle.loom_memory.specs.declared.load.TheConstants.{SPARE_ENTRIES as SPARE};

use crate::load::{either, leaves_of_word, room_of_word, unless};
use crate::memory::LoomMemory;
use leaf_lambda::fields::is_name;
use leaf_lambda::steps::find_or_leaf;
use long_names::{ENTRIES_OF_A_CALL, Name};
use loom_host::{Host, Role};
use object_memory::{MemFault, Need, Reg};
use object_table::Short;
use object_table::laws::entries_are_counted;

impl<'h, H: Host> LoomMemory<'h, H> {
    ghost use Rattle.loom_memory.specs.Effects.{Enters, Leaves, LeavesRefused};
    ghost use Rattle.object_memory.specs.Fit.{MayCall, StaysCallable};
    ghost use Rattle.long_names.specs.Names.{SMALL_INTEGER};
    ghost use Rattle.long_names.specs.Heap.{Has};
    ghost use Rattle.long_names.specs.State.{name_at, IsRef};
    ghost use Rattle.long_names.specs.Objects.{int_of};
    ghost use Rattle.long_names.specs.Access.{Known, Class, Nothing};
    ghost use Rattle.long_names.specs.declared.value.Value.TheVariants.{Ref};
    ghost use Rattle.object_memory.specs.Told.{IsReady};
    ghost use Rattle.object_memory.specs.Contract.{Accessed, KeepsSound, LeavesAll, MayDo};
    ghost use Rattle.loom_memory.specs.Memory.{loom_told, loom_outside, loom_lender, word_in, loom_core, loom_parts, loom_pins, IsSound};
    ghost use Rattle.loom_memory.specs.Gentle.{IsQuiet};
    ghost use Rattle.purger.specs.Purge.{HasRoom};
    ghost use Rattle.loom_memory.specs.Gentle.{IsSteady};
    ghost use Rattle.loom_memory.specs.Own.{BringsOne, IsSparing, MindsCache};
    ghost use Rattle.loom_memory.specs.Residents.{fetched, is_resident};
    ghost use Rattle.loom_memory.specs.Damage.{IsDamaged};
    ghost use Rattle.loom_memory.specs.Freed.{IsFreedBy};
    ghost use Rattle.loom_memory.specs.Thinned.{StaysThinned};
    ghost use Rattle.loom_memory.specs.Known.{IsEntryOf, IsNameable, IsSpent, IsNeedBeside, IsRefusedOf, IsNaming};

    // The entry of a name that may get one, which it gets where one is free.
    #[inline(always)]
    fn entry_for(&mut self, name: Name) -> Option<Short>
        requires sound { IsSound H.Host self.old }
        requires named { IsTrue (H.tells Role.Work) → IsNameable (loom_told H.Host self.old).heap name }
        ensures enters { Enters H.Host self.old self.new }
        ensures leaves { Leaves H.Host self.old self.new (Ok result) }
        ensures found { IfSome result (λ s. IsEntryOf (loom_core self.new) s.0 name) }
        ensures none { IfNone result (IsSpent (loom_core self.old) (spare_of (loom_parts self.old)) name) }
        ensures same { IfNone result (((loom_core self.new) ≡ (loom_core self.old)) × (spare_of (loom_parts self.new) ≤ spare_of (loom_parts self.old))) }
    {
        let levels = &mut self.pager.levels;
        find_or_leaf(&mut levels.parts, name, 0)
    }

    // The need of an access to an object that has no entry, of so many words.
    pub(crate) fn need_beside(&self, name: Name, words: u32) -> Need
        requires sound { IsSound H.Host self.now }
        requires small { words < 2 ^ 18 }
        ensures { IsNeedBeside (loom_core self.now) (loom_pins self.now) name words result }
    {
        let p = &self.pager.levels.parts;
        let a = self.pager.pinned.a;
        let b = self.pager.pinned.b;
        let d = self.pager.pinned.d;
        let first = room_of_word(p, a);
        let second = unless(b == a, room_of_word(p, b));
        let third = unless(either(d == a, d == b), room_of_word(p, d));
        let one = leaves_of_word(p, a);
        let two = unless(b == a, leaves_of_word(p, b));
        let three = unless(either(d == a, d == b), leaves_of_word(p, d));
        Need {
            object: name.get(),
            words: words + (first + second + third),
            entries: ENTRIES_OF_A_CALL + (one + two + three),
        }
    }

    // Refuses: a name has no entry, and nothing more can go. Its record tells how many words its object takes.
    fn lack(&mut self, name: Name) -> MemFault
        requires fit { MayCall (IsSound H.Host) (loom_told H.Host) self.old }
        requires has { IsTrue (H.tells Role.Work) → Has (loom_told H.Host self.old).heap name }
        requires spent { IsSpent (loom_core self.old) (spare_of (loom_parts self.old)) name }
        requires bare { IsBare (loom_pins self.old).a (loom_pins self.old).b (loom_pins self.old).d (loom_core self.old) }
        ensures leaves { LeavesRefused H.Host self.old self.new result }
        ensures err { IsRefusedOf (loom_told H.Host self.old) (loom_told H.Host self.new) name result }
    {
        entries_are_counted(&self.pager.levels.parts.names.table);
        match self.look_up(name) {
            Ok(words) => {
                let need = self.need_beside(name, words);
                self.refuse(MemFault::CoreFull(need))
            }
            Err(f) => f,
        }
    }

    // The entry of a name whose object is held, once room was made, or a refusal.
    #[cold]
    #[inline(never)]
    fn free_entry(&mut self, name: Name) -> Result<Short, MemFault>
        requires fit { MayCall (IsSound H.Host) (loom_told H.Host) self.old }
        requires named { IsTrue (H.tells Role.Work) → IsNameable (loom_told H.Host self.old).heap name }
        ensures quiet { OnOk result (IsQuiet (loom_told H.Host self.old) (loom_told H.Host self.new)) }
        ensures leaves { Leaves H.Host self.old self.new result }
        ensures found { IfOk result (λ s. IsEntryOf (loom_core self.new) s.0 name) }
        ensures minds { OnOk result (MindsCache H.Host None self.old self.new (λ k. ⊥)) }
        ensures err { IfErr result (IsRefusedOf (loom_told H.Host self.old) (loom_told H.Host self.new) name) }
        ensures due { OnOk result (self.new.due ≡ self.old.due) }
        ensures flag { OnOk result (self.new.thinned ≡ self.old.thinned) }
        ensures regs { OnOk result (self.new.regs ≡ self.old.regs) }
    {
        match self.clear(0) {
            Ok(enough) => match self.entry_for(name) {
                Some(s) => Ok(s),
                None => Err(self.lack(name)),
            },
            Err(f) => Err(f),
        }
    }

    // The entry of a name whose object is held, or a refusal.
    #[inline(always)]
    fn entry_of(&mut self, name: Name) -> Result<Short, MemFault>
        requires fit { MayCall (IsSound H.Host) (loom_told H.Host) self.old }
        requires named { IsTrue (H.tells Role.Work) → IsNameable (loom_told H.Host self.old).heap name }
        ensures quiet { OnOk result (IsQuiet (loom_told H.Host self.old) (loom_told H.Host self.new)) }
        ensures leaves { Leaves H.Host self.old self.new result }
        ensures found { IfOk result (λ s. IsEntryOf (loom_core self.new) s.0 name) }
        ensures minds { OnOk result (MindsCache H.Host None self.old self.new (λ k. ⊥)) }
        ensures err { IfErr result (IsRefusedOf (loom_told H.Host self.old) (loom_told H.Host self.new) name) }
        ensures steady { OnOk result (HasRoom (loom_parts self.old) 0 SPARE → IsSteady H.Host self.old self.new) }
        ensures unspent { OnOk result ((IsSpent (loom_core self.old) (spare_of (loom_parts self.old)) name → ⊥) → IsSteady H.Host self.old self.new) }
        ensures due { OnOk result (self.new.due ≡ self.old.due) }
        ensures flag { OnOk result (self.new.thinned ≡ self.old.thinned) }
        ensures regs { OnOk result (self.new.regs ≡ self.old.regs) }
    {
        match self.entry_for(name) {
            Some(s) => Ok(s),
            None => self.free_entry(name),
        }
    }

    // A name whose object is held comes into a register.
    #[inline(always)]
    fn put_name(&mut self, to: Reg, name: Name) -> Result<(), MemFault>
        requires fit { MayCall (IsSound H.Host) (loom_told H.Host) self.old }
        requires named { IsTrue (H.tells Role.Work) → IsNameable (loom_told H.Host self.old).heap name }
        ensures naming { OnOk result (IsNaming (loom_told H.Host self.old) (loom_told H.Host self.new) to name) }
        ensures minds { OnOk result (MindsCache H.Host None self.old self.new (λ k. ⊥)) }
        ensures leaves { Leaves H.Host self.old self.new result }
        ensures err { IfErr result (IsRefusedOf (loom_told H.Host self.old) (loom_told H.Host self.new) name) }
        ensures steady { OnOk result (HasRoom (loom_parts self.old) 0 SPARE → IsSteady H.Host self.old self.new) }
        ensures unspent { OnOk result ((IsSpent (loom_core self.old) (spare_of (loom_parts self.old)) name → ⊥) → IsSteady H.Host self.old self.new) }
        ensures due { OnOk result (self.new.due ≡ self.old.due) }
        ensures stays { OnOk result (StaysThinned self.old self.new (word_in self.old.regs to)) }
    {
        match self.entry_of(name) {
            Ok(s) => {
                self.put_word(to, s.0);
                Ok(())
            }
            Err(f) => Err(f),
        }
    }

    /// The register holds the name of an object that is known, or that a word of the heap holds.
    #[inline(always)]
    pub fn known(&mut self, to: Reg, name: Name) -> Result<(), MemFault>
        requires fit { MayCall (IsSound H.Host) (loom_told H.Host) self.old }
        requires may { MayDo (loom_told H.Host self.old) (Known to name) }
        ensures access { Accessed (loom_told H.Host self.old) (loom_told H.Host self.new) (Known to name) (λ _. Nothing) result }
        ensures name { OnOk result ((loom_told H.Host self.new).regs to ≡ Ref name) }
        ensures steady { OnOk result (HasRoom (loom_parts self.old) 0 SPARE → IsSteady H.Host self.old self.new) }
        ensures unspent { OnOk result ((IsSpent (loom_core self.old) (spare_of (loom_parts self.old)) name → ⊥) → IsSteady H.Host self.old self.new) }
        ensures minds { OnOk result (MindsCache H.Host None self.old self.new (λ k. ⊥)) }
        ensures brings { fetched self.new ≡ fetched self.old }
        ensures due { OnOk result (self.new.due ≡ self.old.due) }
        ensures stays { OnOk result (StaysThinned self.old self.new (word_in self.old.regs to)) }
        ensures fit { StaysCallable (IsSound H.Host) (loom_told H.Host) loom_lender (loom_outside H.Host) self.old self.new result }
    {
        self.put_name(to, name)
    }

    /// The class; SmallInteger for a number (fetchClassOf:).
    pub fn class(&mut self, to: Reg, of: Reg) -> Result<(), MemFault>
        requires fit { MayCall (IsSound H.Host) (loom_told H.Host) self.old }
        requires may { MayDo (loom_told H.Host self.old) (Class to of) }
        ensures access { Accessed (loom_told H.Host self.old) (loom_told H.Host self.new) (Class to of) (λ _. Nothing) result }
        ensures name { OnOk result (IsRef ((loom_told H.Host self.new).regs to)) }
        ensures number { OnOk result (IsSome (int_of ((loom_told H.Host self.old).regs of)) → (loom_told H.Host self.new).regs to ≡ Ref SMALL_INTEGER) }
        ensures own { IsRef ((loom_told H.Host self.old).regs of) → IsSparing H.Host self.old self.new (name_at ((loom_told H.Host self.old).regs of)) result }
        ensures gone { IsRef ((loom_told H.Host self.old).regs of) → OnOk result (IsFreedBy H.Host self.old self.new (name_at ((loom_told H.Host self.old).regs of)) (Class to of)) }
        ensures damage { IsRef ((loom_told H.Host self.old).regs of) → IsDamaged self.old self.new (name_at ((loom_told H.Host self.old).regs of)) result }
        ensures steady { OnOk result (IsSome (int_of ((loom_told H.Host self.old).regs of)) → HasRoom (loom_parts self.old) 0 SPARE → IsSteady H.Host self.old self.new) }
        ensures minds { OnOk result (IsSome (int_of ((loom_told H.Host self.old).regs of)) → MindsCache H.Host None self.old self.new (λ k. ⊥)) }
        ensures brings { BringsOne self.old self.new (IsRef ((loom_told H.Host self.old).regs of) × (is_resident self.old (name_at ((loom_told H.Host self.old).regs of)) ≡ false)) }
        ensures rests { OnOk result (IsSome (int_of ((loom_told H.Host self.old).regs of)) → (self.new.due ≡ self.old.due) × StaysThinned self.old self.new (word_in self.old.regs to)) }
        ensures fit { StaysCallable (IsSound H.Host) (loom_told H.Host) loom_lender (loom_outside H.Host) self.old self.new result }
    {
        let w = self.word_of(of);
        if is_name(w) {
            return self.class_of_object(to, of);
        }
        self.put_name(to, Name::SMALL_INTEGER)
    }
}
