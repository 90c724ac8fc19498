// The method cache: marks, and rows that count while they are there.
ghost use Rattle.std.specs.Prelude.{◌≡◌, ◌&&◌, ℕ, Some, true, false, OnOk, MatchBool, IsTrue};
ghost use Rattle.object_table.specs.Entries.{place_of};
ghost use Rattle.core_view.specs.Core.{with_entry};
ghost use Rattle.leaf_lambda.specs.Parts.{core_of, IsParts};
ghost use Rattle.method_cache.specs.Found.{found};
ghost use Rattle.loom_memory.specs.Cache.{has_mark, cache_of, with_its_mark, IsCached, IsFresh, IsPutAlone};

use crate::ledger::Ledger;
use crate::memory::LoomMemory;
use leaf_lambda::Parts;
use leaf_lambda::fields::is_name;
use loom_host::Host;
use object_memory::{MemFault, Reg};
use object_table::Short;

// Whether a word names an entry that is marked.
#[inline(always)]
fn names_marked(p: &Parts, w: u16) -> bool
    requires { IsParts p.now }
    ensures { result ≡ has_mark (core_of p.now) w }
{
    if !is_name(w) {
        return false;
    }
    let last = 2 * u32::from(p.names.table.entries());
    if u32::from(w) > last {
        return false;
    }
    let e = p.names.table.entry(Short(w));
    if !e.is_used() {
        return false;
    }
    e.flags.marked
}

// Marks an object that is in the core.
fn set_mark(p: &mut Parts, s: Short)
    requires parts { IsParts p.old }
    requires there { (at : ℕ) × (place_of ((core_of p.old).entries s.0).state ≡ Some at) }
    ensures parts { IsParts p.new }
    ensures core { core_of p.new ≡ with_entry (core_of p.old) s.0 (with_its_mark ((core_of p.old).entries s.0)) }
    ensures segment { p.new.segment ≡ p.old.segment }
{
    let mut e = p.names.table.used_entry(s);
    e.flags.marked = true;
    p.names.table.set(s, e);
}

fn both(x: bool, y: bool) -> bool
    ensures { result ≡ x && y }
{
    x && y
}

// Where the entry that was marked last isn't marked any more, all rows go, and a path that was begun before has ended.
fn refresh(p: &Parts, k: &mut Ledger)
    requires parts { IsParts p.now }
    requires cached { IsCached (core_of p.now) (found k.old.rows) k.old.mark }
    ensures ledger { k.new ≡ record k.old { rows = k.new.rows; begun = k.new.begun; mark = k.new.mark } }
    ensures cache { cache_of (core_of p.now) (found k.new.rows) k.new.mark k.new.begun ≡ cache_of (core_of p.now) (found k.old.rows) k.old.mark k.old.begun }
    ensures cached { IsCached (core_of p.now) (found k.new.rows) k.new.mark }
    ensures fresh { IsFresh (core_of p.now) (found k.new.rows) k.new.mark }
{
    if names_marked(p, k.mark) {
        return;
    }
    k.rows.clear();
    k.begun = both(k.begun, k.mark == 0);
    k.mark = 0;
}

impl<'h, H: Host> LoomMemory<'h, H> {
    ghost use Rattle.loom_memory.specs.Effects.{LeavesBeside};
    ghost use Rattle.object_memory.specs.Fit.{KeepsCallable, MayCall, StaysCallable};
    ghost use Rattle.std.specs.Prelude.{Ok};
    ghost use Rattle.loom_memory.specs.Gentle.{IsResting, IsSteady, Remains};
    ghost use Rattle.loom_memory.specs.Damage.{IsDamaged};
    ghost use Rattle.loom_memory.specs.Thinned.{StaysThinned};
    ghost use Rattle.loom_memory.specs.Freed.{IsFreedBy};
    ghost use Rattle.loom_memory.specs.Residents.{is_resident};
    ghost use Rattle.loom_memory.specs.Own.{BringsOne, HasPlace, IsBrought, IsSparingChange, MindsCache};
    ghost use Rattle.long_names.specs.State.{name_at};
    ghost use Rattle.long_names.specs.Access.{Mark, Nothing};
    ghost use Rattle.object_memory.specs.Contract.{Accessed, IsFound, IsPut, IsUnknown, MayDo, is_marked, with_mark};
    ghost use Rattle.loom_memory.specs.Memory.{loom_told, loom_outside, loom_lender, word_in, loom_core, IsMarking, IsRemembered, IsSound};

    /// A new lookup path begins, and is whole.
    pub fn begin_path(&mut self)
        requires { IsSound H.Host self.old }
        ensures told { loom_told H.Host self.new ≡ record (loom_told H.Host self.old) { cache = record (loom_told H.Host self.old).cache { path = true } } }
        ensures resting { IsResting self.old self.new }
        ensures due { self.new.due ≡ self.old.due }
        ensures flag { self.new.thinned ≡ self.old.thinned }
        ensures fit { KeepsCallable (IsSound H.Host) (loom_told H.Host) loom_lender (loom_outside H.Host) self.old self.new }
    {
        let levels = &self.pager.levels;
        refresh(&levels.parts, &mut self.ledger);
        self.ledger.begun = true;
    }

    // Marks an object that is in the core.
    fn note_mark(&mut self, s: Short)
        requires sound { IsSound H.Host self.old }
        requires there { (at : ℕ) × (place_of ((loom_core self.old).entries s.0).state ≡ Some at) }
        ensures marked { IsMarking (loom_told H.Host self.old) (loom_told H.Host self.new) ((loom_core self.old).entries s.0).name }
        ensures leaves { LeavesBeside H.Host self.old self.new (Ok result) }
        ensures resting { IsResting self.old self.new }
        ensures none { Remains (loom_core self.new) (loom_core self.old) }
        ensures cached { (loom_told H.Host self.new).cache ≡ with_mark (loom_told H.Host self.old).cache (Some ((loom_core self.old).entries s.0).name) }
        ensures due { self.new.due ≡ self.old.due }
        ensures flag { self.new.thinned ≡ self.old.thinned }
    {
        let levels = &mut self.pager.levels;
        refresh(&levels.parts, &mut self.ledger);
        set_mark(&mut levels.parts, s);
        self.ledger.mark = s.0;
    }

    /// Marks the name in the register, as one on the lookup path.
    pub fn mark(&mut self, r: Reg) -> Result<(), MemFault>
        requires fit { MayCall (IsSound H.Host) (loom_told H.Host) self.old }
        requires may { MayDo (loom_told H.Host self.old) (Mark r) }
        ensures access { Accessed (loom_told H.Host self.old) (loom_told H.Host self.new) (Mark r) (λ _. Nothing) result }
        ensures marked { OnOk result ((loom_told H.Host self.new).cache.marks (name_at ((loom_told H.Host self.old).regs r)) ≡ true) }
        ensures own { IsSparingChange H.Host self.old self.new (name_at ((loom_told H.Host self.old).regs r)) result }
        ensures cached { OnOk result (HasPlace H.Host self.old (name_at ((loom_told H.Host self.old).regs r))
            → (loom_told H.Host self.new).cache ≡ with_mark (loom_told H.Host self.old).cache (Some (name_at ((loom_told H.Host self.old).regs r)))) }
        ensures minds { OnOk result (MindsCache H.Host (Some (name_at ((loom_told H.Host self.old).regs r))) self.old self.new (IsBrought self.old self.new (name_at ((loom_told H.Host self.old).regs r)))) }
        ensures gone { OnOk result (IsFreedBy H.Host self.old self.new (name_at ((loom_told H.Host self.old).regs r)) (Mark r)) }
        ensures damage { IsDamaged self.old self.new (name_at ((loom_told H.Host self.old).regs r)) result }
        ensures brings { BringsOne self.old self.new (is_resident self.old (name_at ((loom_told H.Host self.old).regs r)) ≡ false) }
        ensures fit { StaysCallable (IsSound H.Host) (loom_told H.Host) loom_lender (loom_outside H.Host) self.old self.new result }
    {
        match self.load(r) {
            Ok(s) => {
                self.note_mark(s);
                Ok(())
            }
            Err(f) => Err(f),
        }
    }

    /// Whether a row of the pair is cached. Its method is then in the register.
    #[inline(always)]
    pub fn cache_find(&mut self, to: Reg, class: Reg, selector: Reg) -> bool
        requires { IsSound H.Host self.old }
        ensures found { MatchBool result (IsFound (loom_told H.Host self.old) (loom_told H.Host self.new) to class selector) (IsUnknown (loom_told H.Host self.old) (loom_told H.Host self.new) class selector) }
        ensures remembered { (method : ℕ) → IsRemembered self.old class selector method → (result ≡ true) × ((loom_told H.Host self.new).regs to ≡ (loom_told H.Host self.old).regs method) }
        ensures steady { IsSteady H.Host self.old self.new }
        ensures due { self.new.due ≡ self.old.due }
        ensures stays { StaysThinned self.old self.new (word_in self.old.regs to) }
        ensures fit { KeepsCallable (IsSound H.Host) (loom_told H.Host) loom_lender (loom_outside H.Host) self.old self.new }
    {
        if !names_marked(&self.pager.levels.parts, self.ledger.mark) {
            return false;
        }
        let c = self.word_of(class);
        let s = self.word_of(selector);
        match self.ledger.rows.find(c, s) {
            Some(w) => {
                self.put_word(to, w);
                true
            }
            None => false,
        }
    }

    /// Whether the row was put into the cache. Where the path is whole, the three registers hold marked names.
    pub fn cache_put(&mut self, class: Reg, selector: Reg, method: Reg) -> bool
        requires sound { IsSound H.Host self.old }
        requires class { IsTrue (loom_told H.Host self.old).cache.path → IsTrue (is_marked (loom_told H.Host self.old).cache ((loom_told H.Host self.old).regs class)) }
        requires selector { IsTrue (loom_told H.Host self.old).cache.path → IsTrue (is_marked (loom_told H.Host self.old).cache ((loom_told H.Host self.old).regs selector)) }
        requires method { IsTrue (loom_told H.Host self.old).cache.path → IsTrue (is_marked (loom_told H.Host self.old).cache ((loom_told H.Host self.old).regs method)) }
        ensures put { MatchBool result (IsPut (loom_told H.Host self.old) (loom_told H.Host self.new) class selector method) (loom_told H.Host self.new ≡ loom_told H.Host self.old) }
        ensures whole { IsTrue (loom_told H.Host self.old).cache.path → IsTrue result }
        ensures remembered { IsTrue result → IsRemembered self.new class selector method }
        ensures resting { IsResting self.old self.new }
        ensures others { IsTrue result → IsPutAlone (loom_told H.Host self.old).cache (loom_told H.Host self.new).cache ((loom_told H.Host self.old).regs class) ((loom_told H.Host self.old).regs selector) }
        ensures due { self.new.due ≡ self.old.due }
        ensures flag { self.new.thinned ≡ self.old.thinned }
        ensures fit { KeepsCallable (IsSound H.Host) (loom_told H.Host) loom_lender (loom_outside H.Host) self.old self.new }
    {
        if !self.ledger.begun {
            return false;
        }
        if !names_marked(&self.pager.levels.parts, self.ledger.mark) {
            return false;
        }
        let c = self.word_of(class);
        let s = self.word_of(selector);
        let m = self.word_of(method);
        self.ledger.rows.put(c, s, m);
        true
    }
}
