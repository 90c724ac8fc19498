// Between bytecodes: dead objects go where the disk is nearly full, and entries are freed for what comes.
ghost use Rattle.std.specs.Prelude.{◌≡◌, ◌⊎◌, ◌+◌, ◌/◌, ◌≤◌, ◌<◌, ℕ, Some, None, true, false, IsTrue, OnOk, IfErr};
ghost use Rattle.core_view.specs.Purge.{fresh_by, fresh_of};
ghost use Rattle.core_view.specs.Room.{IsBare};
ghost use Rattle.object_table.specs.Entries.{is_short};
ghost use Rattle.object_table.specs.Table.{bound_of, entries_of};
ghost use Rattle.core_segment.specs.Segment.{free_of};
ghost use Rattle.disk_objects.specs.Disk.{disk_held, disk_room};
ghost use Rattle.leaf_lambda.specs.Parts.{core_of, spare_of, IsParts};
ghost use Rattle.leaf_lambda.specs.declared.translate.TheConstants.{RESERVE as SETTLED};
ghost use Rattle.long_names.specs.declared.limits.TheConstants.{MAKINGS_BEFORE_FREEING as MAKINGS};

use crate::memory::LoomMemory;
use crate::refusals::refusal_of;
use leaf_lambda::{Parts, RESERVE};
use long_names::MAKINGS_BEFORE_FREEING;
use loom_host::{Host, Role};
use object_memory::MemFault;
use object_table::Short;
use purger::RoomFault;
use purger::room::has_room;

// 1 where the object of an entry has a body and no record.
#[inline(always)]
fn fresh_at(p: &Parts, s: Short) -> u32
    requires parts { IsParts p.now }
    requires short { is_short s.0 ≡ true }
    requires within { s.0 < bound_of p.now.names.table }
    ensures { result ≡ fresh_by ((core_of p.now).entries s.0) }
{
    let e = p.names.table.entry(s);
    if !e.place().is_some() {
        return 0;
    }
    if e.flags.fresh { 1 } else { 0 }
}

// How many objects have no record.
fn count_fresh(p: &Parts) -> u32
    requires { IsParts p.now }
    ensures { result ≡ fresh_of (core_of p.now) }
{
    let mut count = 0;
    for i in 0..p.names.table.used_end() {
        count += fresh_at(p, Short(2 * i + 2));
    }
    count
}

// The smaller of two numbers.
fn least(a: u32, b: u32) -> u32
    ensures first { result ≤ a }
    ensures second { result ≤ b }
    ensures either { a ≤ b → result ≡ a }
{
    if a < b { a } else { b }
}

impl<'h, H: Host> LoomMemory<'h, H> {
    ghost use Rattle.loom_memory.specs.Effects.{CountsAnew, Frees, HasEnded, HasSwept, IsFaulted, IsUntouched, Leaves, Pages};
    ghost use Rattle.object_memory.specs.Fit.{MayCall, StaysCallable};
    ghost use Rattle.long_names.specs.Heap.{object_count, Has};
    ghost use Rattle.long_names.specs.Kept.{kept};
    ghost use Rattle.object_memory.specs.Told.{IsReady, is_root};
    ghost use Rattle.std.specs.Prelude.{Err};
    ghost use Rattle.object_memory.specs.Contract.{Called, KeepsSound, Settles, Thins, makes};
    ghost use Rattle.long_names.specs.Access.{Access};
    ghost use Rattle.loom_memory.specs.Freed.{IsAlive, IsFreed, IsOnTime};
    ghost use Rattle.purger.specs.Draining.{KeepsHeld};
    ghost use Rattle.purger.specs.Purge.{HasRoom};
    ghost use Rattle.loom_memory.specs.Memory.{loom_told, loom_outside, loom_lender, loom_core, loom_parts, loom_pins, loom_rest, IsRefused, IsSilent, IsSound};
    ghost use Rattle.loom_memory.specs.Gentle.{IsCalm, IsQuiet};
    ghost use Rattle.loom_memory.specs.Numbers.{IsNumbered};
    ghost use Rattle.loom_memory.specs.Own.{HasRested, MindsCache};
    ghost use Rattle.loom_memory.specs.Gentle.{IsIdle, KeepsCache};
    ghost use Rattle.loom_memory.specs.Residents.{fetched, is_resident};
    ghost use Rattle.loom_memory.specs.Thinned.{is_thinned, HasLasted, KeepsThinned};
    ghost use Rattle.loom_memory.specs.Makings.{HasBegun, HasKept, HasSettled, HasThinned, IsLost, IsRefusedCall, IsRefusedMaking};

    // How many objects are held, if they are no more than before.
    fn recount(&self) -> u32
        requires { IsParts (loom_parts self.now) }
        ensures most { result ≤ self.now.ledger.held }
        ensures same { disk_held (loom_rest self.now) + fresh_of (loom_core self.now) ≤ self.now.ledger.held → result ≡ disk_held (loom_rest self.now) + fresh_of (loom_core self.now) }
    {
        let fresh = count_fresh(&self.pager.levels.parts);
        let all = self.pager.levels.disk.len().saturating_add(fresh);
        least(all, self.ledger.held)
    }

    // The name from which on what is dead is looked for again where room is short: where few entries became free, as many objects are made
    // before as a 16th part of the entries that were in use. So where the living fill the core, it isn't searched at each making.
    fn due_after(&self, before: u16) -> u32
        ensures soon { result ≤ self.now.ledger.next + entries_of (loom_parts self.now).names.table / 8 }
    {
        let table = &self.pager.levels.parts.names.table;
        let used = u32::from(table.entries().saturating_sub(before));
        let freed = u32::from(table.free().saturating_sub(before));
        if freed >= used / 32 {
            return self.ledger.next;
        }
        self.ledger.next.saturating_add(used / 8)
    }

    // Frees dead objects until none is dead: what is held then is what is kept. The buffer keeps its record.
    pub(crate) fn thin(&mut self) -> Result<(), MemFault>
        requires fit { MayCall (IsSound H.Host) (loom_told H.Host) self.old }
        ensures frees { OnOk result (Frees H.Host self.old self.new) }
        ensures swept { OnOk result (HasSwept H.Host self.old self.new) }
        ensures soon { OnOk result (self.new.due ≤ self.new.ledger.next + entries_of (loom_parts self.new).names.table / 8) }
        ensures buf { self.new.buf ≡ self.old.buf }
        ensures faulted { IfErr result (IsFaulted (loom_told H.Host self.old) (loom_told H.Host self.new)) }
        ensures leaves { Leaves H.Host self.old self.new result }
    {
        let before = self.pager.levels.parts.names.table.free();
        match self.pager.drain() {
            Ok(()) => {
                let held = self.recount();
                self.ledger.held = held;
                self.due = self.due_after(before);
                self.thinned = true;
                Ok(())
            }
            Err(f) => {
                let f = refusal_of(f);
                Err(self.refuse(f))
            }
        }
    }

    // What is dead goes before anything living: dead objects are freed where so many words and entries aren't free, unless nothing can be dead, or
    // few were found a short while ago.
    pub(crate) fn free_first(&mut self, words: u32, entries: u16) -> Result<(), MemFault>
        requires fit { MayCall (IsSound H.Host) (loom_told H.Host) self.old }
        ensures frees { OnOk result (Frees H.Host self.old self.new) }
        ensures roomy { OnOk result (HasRoom (loom_parts self.old) words entries → self.new ≡ self.old) }
        ensures gone { OnOk result (IsFreed H.Host self.old self.new words entries) }
        ensures buf { self.new.buf ≡ self.old.buf }
        ensures faulted { IfErr result (IsFaulted (loom_told H.Host self.old) (loom_told H.Host self.new)) }
        ensures leaves { Leaves H.Host self.old self.new result }
        ensures sure { IfErr result (λ f. HasRoom (loom_parts self.old) words entries → ⊥) }
        ensures lasts { self.old.thinned ≡ true → self.new ≡ self.old }
        ensures still { OnOk result (IsAlive (loom_told H.Host self.old) → IsAlive (loom_told H.Host self.new)) }
    {
        if has_room(&self.pager.levels.parts, words, entries) {
            return Ok(());
        }
        if self.thinned {
            return Ok(());
        }
        if self.ledger.next < self.due {
            return Ok(());
        }
        self.thin()
    }

    // No making is counted, and so many objects were there, if that is known.
    #[inline(always)]
    fn count_anew(&mut self, base: Option<u32>)
        requires sound { IsSound H.Host self.old }
        requires numbers { IsNumbered base 0 self.old.ledger.held self.old.ledger.next (disk_room (loom_rest self.old)) }
        ensures begun { HasBegun (loom_told H.Host self.old) (loom_told H.Host self.new) base }
        ensures ledger { self.new.ledger ≡ record self.old.ledger { base = base; made = 0 } }
        ensures sound { IsSound H.Host self.new }
        ensures parts { loom_parts self.new ≡ loom_parts self.old }
        ensures disk { self.new.pager.levels.disk ≡ self.old.pager.levels.disk }
        ensures same { self.new ≡ record self.old { ledger = record self.old.ledger { base = base; made = 0 } } }
    {
        self.ledger.base = base;
        self.ledger.made = 0;
    }

    // Where there is room for eight more: dead objects are freed where too few entries are free, and makings are counted anew.
    fn settle_roomy(&mut self) -> Result<(), MemFault>
        requires fit { MayCall (IsSound H.Host) (loom_told H.Host) self.old }
        requires room { self.old.ledger.held + MAKINGS ≤ disk_room (loom_rest self.old) }
        ensures settles { OnOk result (CountsAnew H.Host self.old self.new) }
        ensures base { OnOk result (self.new.ledger.base ≡ None) }
        ensures leaves { Leaves H.Host self.old self.new result }
        ensures gone { OnOk result (IsFreed H.Host self.old self.new 0 SETTLED) }
        ensures rests { SETTLED ≤ spare_of (loom_parts self.old) → HasRested self.old self.new result }
        ensures err { IfErr result (IsRefusedCall (loom_told H.Host self.old) (loom_told H.Host self.new) Settles) }
    {
        match self.free_first(0, RESERVE) {
            Ok(()) => {
                self.count_anew(None);
                Ok(())
            }
            Err(f) => Err(f),
        }
    }

    // Where there is no room for eight more, dead objects are freed, and what is held is counted.
    fn settle_disk(&mut self) -> Result<(), MemFault>
        requires fit { MayCall (IsSound H.Host) (loom_told H.Host) self.old }
        ensures settles { OnOk result (CountsAnew H.Host self.old self.new) }
        ensures room { self.old.ledger.held + MAKINGS ≤ disk_room (loom_rest self.old) → OnOk result ((self.new.ledger.base ≡ None) × (SETTLED ≤ spare_of (loom_parts self.old) → self.new.ledger.held ≡ self.old.ledger.held)) }
        ensures full { disk_room (loom_rest self.old) < self.old.ledger.held + MAKINGS → OnOk result (self.new.ledger.base ≡ Some self.new.ledger.held) }
        ensures thins { disk_room (loom_rest self.old) < self.old.ledger.held + MAKINGS → OnOk result (is_thinned self.new ≡ true) }
        ensures lasts { disk_room (loom_rest self.old) < self.old.ledger.held + MAKINGS → is_thinned self.old ≡ true → HasLasted self.old self.new result }
        ensures leaves { Leaves H.Host self.old self.new result }
        ensures gone { self.old.ledger.held + MAKINGS ≤ disk_room (loom_rest self.old) → OnOk result (IsFreed H.Host self.old self.new 0 SETTLED) }
        ensures rests { self.old.ledger.held + MAKINGS ≤ disk_room (loom_rest self.old) → SETTLED ≤ spare_of (loom_parts self.old) → HasRested self.old self.new result }
        ensures err { IfErr result (IsRefusedCall (loom_told H.Host self.old) (loom_told H.Host self.new) Settles) }
    {
        let room = self.pager.levels.disk.room();
        if self.ledger.held + MAKINGS_BEFORE_FREEING <= room {
            return self.settle_roomy();
        }
        match self.thin_once() {
            Ok(()) => {
                let held = self.ledger.held;
                self.count_anew(Some(held));
                Ok(())
            }
            Err(f) => Err(f),
        }
    }

    // Frees entries. That fewer can be had is no refusal.
    fn spare_entries(&mut self) -> Result<(), MemFault>
        requires fit { MayCall (IsSound H.Host) (loom_told H.Host) self.old }
        ensures pages { OnOk result (Pages H.Host self.old self.new) }
        ensures spare { OnOk result ((SETTLED ≤ spare_of (loom_parts self.new)) ⊎ IsBare (loom_pins self.new).a (loom_pins self.new).b (loom_pins self.new).d (loom_core self.new)) }
        ensures stays { OnOk result (SETTLED ≤ spare_of (loom_parts self.old) → self.new ≡ self.old) }
        ensures sure { IfErr result (λ f. SETTLED ≤ spare_of (loom_parts self.old) → ⊥) }
        ensures leaves { Leaves H.Host self.old self.new result }
        ensures faulted { IfErr result (IsFaulted (loom_told H.Host self.old) (loom_told H.Host self.new)) }
    {
        if has_room(&self.pager.levels.parts, 0, RESERVE) {
            return Ok(());
        }
        match self.page(0, RESERVE) {
            Ok(_enough) => Ok(()),
            Err(f) => Err(f),
        }
    }

    // Whether settling has nothing to do: there is room for eight more, and entries enough are free.
    #[inline(always)]
    fn is_settled(&self) -> bool
        requires { IsSound H.Host self.now }
        ensures yes { result ≡ true → (self.now.ledger.held + MAKINGS ≤ disk_room (loom_rest self.now)) × (SETTLED ≤ spare_of (loom_parts self.now)) }
        ensures no { result ≡ false → self.now.ledger.held + MAKINGS ≤ disk_room (loom_rest self.now) → SETTLED ≤ spare_of (loom_parts self.now) → ⊥ }
    {
        let room = self.pager.levels.disk.room();
        self.ledger.held + MAKINGS_BEFORE_FREEING <= room
            && has_room(&self.pager.levels.parts, 0, RESERVE)
    }

    // Frees dead objects where the disk is nearly full, then entries where too few are free.
    #[cold]
    #[inline(never)]
    fn settle_slowly(&mut self) -> Result<(), MemFault>
        requires fit { MayCall (IsSound H.Host) (loom_told H.Host) self.old }
        ensures called { Called (loom_told H.Host self.old) (loom_told H.Host self.new) Settles result }
        ensures ended { OnOk result (HasEnded H.Host self.old self.new) }
        ensures room { self.old.ledger.held + MAKINGS ≤ disk_room (loom_rest self.old) → OnOk result ((self.new.ledger.base ≡ None) × (SETTLED ≤ spare_of (loom_parts self.old) → self.new.ledger.held ≡ self.old.ledger.held)) }
        ensures full { disk_room (loom_rest self.old) < self.old.ledger.held + MAKINGS → OnOk result (self.new.ledger.base ≡ Some self.new.ledger.held) }
        ensures thins { disk_room (loom_rest self.old) < self.old.ledger.held + MAKINGS → OnOk result (is_thinned self.new ≡ true) }
        ensures lasts { disk_room (loom_rest self.old) < self.old.ledger.held + MAKINGS → is_thinned self.old ≡ true → SETTLED ≤ spare_of (loom_parts self.old) → HasLasted self.old self.new result }
        ensures spare { OnOk result ((SETTLED ≤ spare_of (loom_parts self.new)) ⊎ IsBare (loom_pins self.new).a (loom_pins self.new).b (loom_pins self.new).d (loom_core self.new)) }
        ensures fetches { fetched self.new ≡ fetched self.old }
        ensures stays { OnOk result (SETTLED ≤ spare_of (loom_parts self.old) → IsTrue (H.tells Role.Work) → (k : ℕ) → IsTrue (is_resident self.old k) → Has (loom_told H.Host self.new).heap k → IsTrue (is_resident self.new k)) }
        ensures whole { self.old.ledger.held + MAKINGS ≤ disk_room (loom_rest self.old) → SETTLED ≤ spare_of (loom_parts self.old) → OnOk result ((loom_told H.Host self.new).heap ≡ (loom_told H.Host self.old).heap) }
        ensures gone { self.old.ledger.held + MAKINGS ≤ disk_room (loom_rest self.old) → OnOk result (IsFreed H.Host self.old self.new 0 SETTLED) }
        ensures fit { StaysCallable (IsSound H.Host) (loom_told H.Host) loom_lender (loom_outside H.Host) self.old self.new result }
    {
        match self.settle_disk() {
            Ok(()) => self.spare_entries(),
            Err(f) => Err(f),
        }
    }

    /// After it no making is counted. Where there was room for eight more, the count isn't known; elsewhere it is that of what is held, of
    /// which nothing is dead. [`RESERVE`] entries are free then, or nothing but pinned objects has a body; where fewer were free, dead objects
    /// go before others leave, and nothing is dead then if that was looked for. No object comes in; where that many were free before, each
    /// object in the core that is still held stays there. With both, nothing is done: it is answered, and nothing changes but that makings are
    /// counted anew. Where there was no room for eight more, it says afterwards that nothing is dead (`is_thinned`), and where it said so
    /// before, nothing is done either.
    #[inline(always)]
    pub fn settle(&mut self) -> Result<(), MemFault>
        requires fit { MayCall (IsSound H.Host) (loom_told H.Host) self.old }
        ensures called { Called (loom_told H.Host self.old) (loom_told H.Host self.new) Settles result }
        ensures ended { OnOk result (HasEnded H.Host self.old self.new) }
        ensures room { self.old.ledger.held + MAKINGS ≤ disk_room (loom_rest self.old) → OnOk result ((self.new.ledger.base ≡ None) × (SETTLED ≤ spare_of (loom_parts self.old) → self.new.ledger.held ≡ self.old.ledger.held)) }
        ensures full { disk_room (loom_rest self.old) < self.old.ledger.held + MAKINGS → OnOk result (self.new.ledger.base ≡ Some self.new.ledger.held) }
        ensures thins { disk_room (loom_rest self.old) < self.old.ledger.held + MAKINGS → OnOk result (is_thinned self.new ≡ true) }
        ensures lasts { disk_room (loom_rest self.old) < self.old.ledger.held + MAKINGS → is_thinned self.old ≡ true → SETTLED ≤ spare_of (loom_parts self.old) → HasLasted self.old self.new result }
        ensures spare { OnOk result ((SETTLED ≤ spare_of (loom_parts self.new)) ⊎ IsBare (loom_pins self.new).a (loom_pins self.new).b (loom_pins self.new).d (loom_core self.new)) }
        ensures fetches { fetched self.new ≡ fetched self.old }
        ensures stays { OnOk result (SETTLED ≤ spare_of (loom_parts self.old) → IsTrue (H.tells Role.Work) → (k : ℕ) → IsTrue (is_resident self.old k) → Has (loom_told H.Host self.new).heap k → IsTrue (is_resident self.new k)) }
        ensures untouched { self.old.ledger.held + MAKINGS ≤ disk_room (loom_rest self.old) → SETTLED ≤ spare_of (loom_parts self.old) → OnOk result (IsUntouched H.Host self.old self.new) }
        ensures gone { self.old.ledger.held + MAKINGS ≤ disk_room (loom_rest self.old) → OnOk result (IsFreed H.Host self.old self.new 0 SETTLED) }
        ensures rests { self.old.ledger.held + MAKINGS ≤ disk_room (loom_rest self.old) → SETTLED ≤ spare_of (loom_parts self.old) → HasRested self.old self.new result }
        ensures fit { StaysCallable (IsSound H.Host) (loom_told H.Host) loom_lender (loom_outside H.Host) self.old self.new result }
    {
        if self.is_settled() {
            self.count_anew(None);
            return Ok(());
        }
        self.settle_slowly()
    }
}
