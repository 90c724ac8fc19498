// The object of a register comes into the core, or the call is refused.
ghost use Rattle.std.specs.Prelude.{◌≡◌, ◌≢◌, ◌+◌, ◌≤◌, ◌<◌, ◌^◌, ◌||◌, ◌⊎◌, if◌then◌else◌, ℕ, Some, None, true, false, IsTrue, OnOk, OnErr, IfOk, IfErr, length};
ghost use Rattle.long_names.specs.declared.object.Object.{Object as Item};
ghost use Rattle.long_names.specs.Objects.{body_words};
ghost use Rattle.object_record.specs.Buffer.{raw_of, HasRecord};
ghost use Rattle.object_record.specs.Objects.{object_in};
ghost use Rattle.object_table.specs.Entries.{is_short, is_used, place_of};
ghost use Rattle.object_table.specs.Table.{entry_at, entries_of, bound_of, free_of};
ghost use Rattle.core_segment.specs.Segment.{largest_of, size_of, free_of as words_free};
ghost use Rattle.core_view.specs.Words.{pointers};
ghost use Rattle.core_view.specs.Counts.{outside};
ghost use Rattle.leaf_lambda.specs.Parts.{core_of, spare_of, IsParts};
ghost use Rattle.object_table.specs.Entries.{sum_below, used_by};
ghost use Rattle.core_view.specs.Room.{over_three, room_for, entries_for};
ghost use Rattle.loom_memory.specs.declared.load.TheConstants.{SPARE_BEHIND_CLASS, SPARE_ENTRIES as SPARE};

use crate::below::holds_below;
use crate::memory::LoomMemory;
use crate::refusals::refusal_of;
use core_segment::Addr;
use core_segment::laws::chunks_never_overlap;
use leaf_lambda::bodies::words_of;
use leaf_lambda::leaving::{body_total, field_total};
use leaf_lambda::{Parts, translate_in};
use long_names::{ENTRIES_OF_A_CALL, Name};
use loom_host::{Host, Role};
use object_memory::{MemFault, Need, Reg};
use object_table::Short;
use object_table::laws::entries_are_counted;
use purger::RoomFault;
use purger::eviction::fetch;
use purger::room::has_room;

// How many entries a call asks for before it begins: those of its row beside the pinned objects, `ENTRIES_OF_A_CALL`, but for the 24 of the registers.
pub(crate) const SPARE_ENTRIES: u16 = 27;

// How many are left once the object's class has one.
pub(crate) const SPARE_BEHIND_CLASS: u16 = SPARE_ENTRIES - 1;

// The words that an entry's body takes, 0 where it has none.
fn room_of(p: &Parts, s: Short) -> u32
    requires parts { IsParts p.now }
    requires used { is_used ((core_of p.now).entries s.0).state ≡ true }
    ensures words { result ≡ room_for (core_of p.now) s.0 }
    ensures small { result < 2 ^ 18 }
{
    match p.names.table.used_entry(s).place() {
        None => 0,
        Some(place) => 4 + body_total(p, s, Addr { place }),
    }
}

// The entries that an entry's body needs, 0 where it has none.
fn leaves_of(p: &Parts, s: Short) -> u32
    requires parts { IsParts p.now }
    requires used { is_used ((core_of p.now).entries s.0).state ≡ true }
    ensures leaves { result ≡ entries_for (core_of p.now) s.0 }
    ensures small { result < 2 ^ 18 }
{
    match p.names.table.used_entry(s).place() {
        None => 0,
        Some(place) => {
            let _words = body_total(p, s, Addr { place });
            2 + field_total(p, s, Addr { place })
        }
    }
}

// The same of the word of a slot.
pub(crate) fn room_of_word(p: &Parts, w: u16) -> u32
    requires parts { IsParts p.now }
    requires used { w ≢ 0 → is_used ((core_of p.now).entries w).state ≡ true }
    ensures words { result ≡ room_for (core_of p.now) w }
    ensures small { result < 2 ^ 18 }
{
    if w == 0 {
        return 0;
    }
    room_of(p, Short(w))
}

pub(crate) fn leaves_of_word(p: &Parts, w: u16) -> u32
    requires parts { IsParts p.now }
    requires used { w ≢ 0 → is_used ((core_of p.now).entries w).state ≡ true }
    ensures leaves { result ≡ entries_for (core_of p.now) w }
    ensures small { result < 2 ^ 18 }
{
    if w == 0 {
        return 0;
    }
    leaves_of(p, Short(w))
}

#[inline(always)]
pub(crate) fn either(x: bool, y: bool) -> bool
    ensures { result ≡ x || y }
{
    x || y
}

// A number, or 0.
pub(crate) fn unless(skip: bool, n: u32) -> u32
    ensures is { result ≡ (if skip then 0 else n) }
    ensures most { result ≤ n }
{
    if skip { 0 } else { n }
}

impl<'h, H: Host> LoomMemory<'h, H> {
    ghost use Rattle.loom_memory.specs.Effects.{Comes, Gains, IsFaulted, IsHere, Leaves, LeavesBeside, LeavesRefused, MayThin, Pages, Reads};
    ghost use Rattle.object_memory.specs.Fit.{MayCall};
    ghost use Rattle.std.specs.Prelude.{Ok};
    ghost use Rattle.long_names.specs.Heap.{Has};
    ghost use Rattle.long_names.specs.Access.{Access, target_of};
    ghost use Rattle.object_memory.specs.Told.{IsReady};
    ghost use Rattle.long_names.specs.Need.{Fits, words_at};
    ghost use Rattle.object_memory.specs.declared.fault.Need.{Need as Wanted};
    ghost use Rattle.long_names.specs.State.{IsRef};
    ghost use Rattle.object_memory.specs.Contract.{Does, HasCore, IfBounds, IsLater, KeepsSound, LeavesAll, Refuses, makes};
    ghost use Rattle.long_names.specs.Counting.{counted};
    ghost use Rattle.loom_memory.specs.Calls.{IsLoaded};
    ghost use Rattle.loom_memory.specs.Residents.{fetched};
    ghost use Rattle.disk_objects.specs.Function.{disk_of};
    ghost use Rattle.purger.specs.Purge.{HasRoom, IsShort};
    ghost use Rattle.long_names.specs.State.{name_at};
    ghost use Rattle.object_memory.specs.Contract.{ForBounds};
    ghost use Rattle.loom_memory.specs.Residents.{is_resident, words_resident};
    ghost use Rattle.loom_memory.specs.Gentle.{IsGentle};
    ghost use Rattle.loom_memory.specs.Freed.{IsFreed, IsOnTime};
    ghost use Rattle.loom_memory.specs.Thinned.{KeepsThinned};
    ghost use Rattle.loom_memory.specs.Makings.{HasThinned};
    ghost use Rattle.loom_memory.specs.Below.{IsTested};
    ghost use Rattle.loom_memory.specs.Own.{BringsOne, IsBrought, MindsCache};
    ghost use Rattle.loom_memory.specs.Damage.{IsDamageOf, IsDamaged};
    ghost use Rattle.loom_memory.specs.Memory.{loom_told, loom_outside, word_in, words_in_row, loom_core, loom_lender, loom_now, loom_parts, loom_pins, loom_rest, IsNeed, IsRead, IsSized, IsSound, IsSilent, IsRefused, IsRefusedAt};
    ghost use Rattle.loom_memory.specs.Gentle.{IsQuiet, IsCalm};

    // The object of a leaf comes in from its record in the buffer. Its words have room in one chunk.
    fn come(&mut self, s: Short)
        requires sound { IsSound H.Host self.old }
        requires leaf { (is_used ((loom_core self.old).entries s.0).state ≡ true) × (place_of ((loom_core self.old).entries s.0).state ≡ None) }
        requires record { HasRecord self.old.buf }
        requires there { IsTrue (H.tells Role.Work) → disk_of H.Host (loom_now self.old) (loom_rest self.old) ((loom_core self.old).entries s.0).name ≡ Some (object_in (raw_of self.old.buf)) }
        requires room { 4 + body_words (object_in (raw_of self.old.buf)).body ≤ largest_of (loom_parts self.old).segment }
        requires spare { SPARE ≤ spare_of (loom_parts self.old) }
        ensures gains { Gains H.Host self.old self.new }
        ensures minds { MindsCache H.Host None self.old self.new (λ k. k ≡ ((loom_core self.old).entries s.0).name) }
        ensures leaves { LeavesBeside H.Host self.old self.new (Ok result) }
        ensures there { (at : ℕ) × (place_of ((loom_core self.new).entries s.0).state ≡ Some at) }
        ensures spare { SPARE_BEHIND_CLASS ≤ spare_of (loom_parts self.new) }
        ensures counted { fetched self.new ≡ counted (fetched self.old) }
        ensures buf { self.new.buf ≡ self.old.buf }
    {
        let levels = &mut self.pager.levels;
        translate_in(&mut levels.parts, s, &mut self.buf);
        self.ledger.count_fetch();
    }

    // The words that the object of a name takes, from its record, which stays in the buffer. Each name in it is below the next one.
    pub(crate) fn look_up(&mut self, name: Name) -> Result<u32, MemFault>
        requires fit { MayCall (IsSound H.Host) (loom_told H.Host) self.old }
        requires there { IsTrue (H.tells Role.Work) → disk_of H.Host (loom_now self.old) (loom_rest self.old) name ≡ None → ⊥ }
        requires own { IsTrue (H.tells Role.Work) → (loom_told H.Host self.old).heap.at name ≡ disk_of H.Host (loom_now self.old) (loom_rest self.old) name }
        ensures reads { OnOk result (Reads H.Host self.old self.new) }
        ensures leaves { Leaves H.Host self.old self.new result }
        ensures record { IfOk result (λ words. IsRead (H.tells Role.Work) self.new.buf (disk_of H.Host (loom_now self.new) (loom_rest self.new)) name words) }
        ensures tested { OnOk result (IsTested self.new name) }
        ensures sized { IfOk result (λ words. IsSized (H.tells Role.Work) (disk_of H.Host (loom_now self.new) (loom_rest self.new) name) words) }
        ensures small { IfOk result (λ words. words < 2 ^ 18) }
        ensures damage { IfErr result (IsDamageOf (loom_rest self.new) name) }
        ensures err { IfErr result (λ f. (a : Access) → IsSilent a → makes a ≡ 0 → IsRefused (loom_told H.Host self.old) (loom_told H.Host self.new) a f) }
    {
        let levels = &mut self.pager.levels;
        match fetch(&mut levels.disk, name, &mut self.buf) {
            Ok(held) => {
                if !held {
                    return Err(self.wrong(name));
                }
                if !holds_below(&self.buf, self.ledger.next) {
                    return Err(self.wrong(name));
                }
                Ok(words_of(&self.buf) + 4)
            }
            Err(f) => {
                let f = refusal_of(f);
                Err(self.refuse(f))
            }
        }
    }

    // The same of the object of a leaf.
    fn look(&mut self, s: Short) -> Result<u32, MemFault>
        requires fit { MayCall (IsSound H.Host) (loom_told H.Host) self.old }
        requires leaf { (is_used ((loom_core self.old).entries s.0).state ≡ true) × (place_of ((loom_core self.old).entries s.0).state ≡ None) }
        requires has { IsTrue (H.tells Role.Work) → Has (loom_told H.Host self.old).heap ((loom_core self.old).entries s.0).name }
        ensures reads { OnOk result (Reads H.Host self.old self.new) }
        ensures leaves { Leaves H.Host self.old self.new result }
        ensures record { IfOk result (λ words. IsRead (H.tells Role.Work) self.new.buf (disk_of H.Host (loom_now self.new) (loom_rest self.new)) ((loom_core self.new).entries s.0).name words) }
        ensures tested { OnOk result (IsTested self.new ((loom_core self.old).entries s.0).name) }
        ensures sized { IfOk result (λ words. IsSized (H.tells Role.Work) (disk_of H.Host (loom_now self.new) (loom_rest self.new) ((loom_core self.new).entries s.0).name) words) }
        ensures small { IfOk result (λ words. words < 2 ^ 18) }
        ensures damage { IfErr result (IsDamageOf (loom_rest self.new) ((loom_core self.old).entries s.0).name) }
        ensures err { IfErr result (λ f. (a : Access) → IsSilent a → makes a ≡ 0 → IsRefused (loom_told H.Host self.old) (loom_told H.Host self.new) a f) }
    {
        let name = self.pager.levels.parts.names.table.used_entry(s).name;
        self.look_up(name)
    }

    // Room for so many words and as many entries as a call asks for. Where there is, bodies are moved together. The buffer keeps its record.
    pub(crate) fn clear(&mut self, words: u32) -> Result<bool, MemFault>
        requires fit { MayCall (IsSound H.Host) (loom_told H.Host) self.old }
        ensures pages { OnOk result (Pages H.Host self.old self.new) }
        ensures leaves { Leaves H.Host self.old self.new result }
        ensures room { IfOk result (λ enough. IsTrue enough → (words ≤ largest_of (loom_parts self.new).segment) × (SPARE ≤ spare_of (loom_parts self.new))) }
        ensures short { IfOk result (λ enough. enough ≡ false → IsShort (loom_parts self.new) (loom_pins self.new).a (loom_pins self.new).b (loom_pins self.new).d words SPARE) }
        ensures gentle { OnOk result (HasRoom (loom_parts self.old) words SPARE → IsGentle H.Host self.old self.new) }
        ensures idle { OnOk result (HasRoom (loom_parts self.old) words SPARE → words ≡ 0 → self.new ≡ self.old) }
        ensures buf { self.new.buf ≡ self.old.buf }
        ensures sure { IfErr result (λ f. HasRoom (loom_parts self.old) words SPARE → ⊥) }
        ensures faulted { IfErr result (IsFaulted (loom_told H.Host self.old) (loom_told H.Host self.new)) }
    {
        if has_room(&self.pager.levels.parts, words, SPARE_ENTRIES) {
            self.gather(words);
            return Ok(true);
        }
        self.page(words, SPARE_ENTRIES)
    }

    // The need of an access to an object of so many words.
    fn need(&self, s: Short, words: u32) -> Need
        requires sound { IsSound H.Host self.now }
        requires used { is_used ((loom_core self.now).entries s.0).state ≡ true }
        requires small { words < 2 ^ 18 }
        ensures { IsNeed (loom_core self.now) (loom_pins self.now) s.0 words result }
    {
        let p = &self.pager.levels.parts;
        let a = self.pager.pinned.a;
        let b = self.pager.pinned.b;
        let d = self.pager.pinned.d;
        let first = unless(a == s.0, room_of_word(p, a));
        let second = unless(either(b == s.0, b == a), room_of_word(p, b));
        let third = unless(either(d == s.0, either(d == a, d == b)), room_of_word(p, d));
        let one = leaves_of_word(p, a);
        let two = unless(b == a, leaves_of_word(p, b));
        let three = unless(either(d == a, d == b), leaves_of_word(p, d));
        Need {
            object: p.names.table.used_entry(s).name.get(),
            words: words + first + second + third,
            entries: ENTRIES_OF_A_CALL + (one + two + three),
        }
    }

    // Refuses for want of room.
    fn full(&mut self, s: Short, words: u32) -> MemFault
        requires fit { MayCall (IsSound H.Host) (loom_told H.Host) self.old }
        requires used { is_used ((loom_core self.old).entries s.0).state ≡ true }
        requires small { words < 2 ^ 18 }
        requires sized { IsTrue (H.tells Role.Work) → words_at (loom_told H.Host self.old).heap ((loom_core self.old).entries s.0).name ≡ words }
        requires unfit { (need : Wanted) → IsNeed (loom_core self.old) (loom_pins self.old) s.0 words need → Fits self.old.ledger.core self.old.ledger.entries need.words need.entries → ⊥ }
        ensures is { (need : Wanted) × (result ≡ MemFault.CoreFull need) }
        ensures buf { self.new.buf ≡ self.old.buf }
        ensures leaves { Leaves H.Host self.old self.new (Ok result) }
        ensures err { IsRefusedAt (loom_told H.Host self.old) (loom_told H.Host self.new) ((loom_core self.old).entries s.0).name result }
    {
        let need = self.need(s, words);
        self.refuse(MemFault::CoreFull(need))
    }

    // Refuses for want of entries. Where the object is a leaf, its record tells how many words it takes.
    pub(crate) fn want(&mut self, s: Short) -> MemFault
        requires fit { MayCall (IsSound H.Host) (loom_told H.Host) self.old }
        requires used { is_used ((loom_core self.old).entries s.0).state ≡ true }
        requires has { IsTrue (H.tells Role.Work) → Has (loom_told H.Host self.old).heap ((loom_core self.old).entries s.0).name }
        requires short { IsShort (loom_parts self.old) (loom_pins self.old).a (loom_pins self.old).b (loom_pins self.old).d 0 SPARE }
        ensures leaves { LeavesRefused H.Host self.old self.new result }
        ensures damage { IsDamageOf (loom_rest self.new) ((loom_core self.old).entries s.0).name result }
        ensures err { IsRefusedAt (loom_told H.Host self.old) (loom_told H.Host self.new) ((loom_core self.old).entries s.0).name result }
    {
        entries_are_counted(&self.pager.levels.parts.names.table);
        if self
            .pager
            .levels
            .parts
            .names
            .table
            .used_entry(s)
            .place()
            .is_some()
        {
            let words = room_of(&self.pager.levels.parts, s);
            return self.full(s, words);
        }
        match self.look(s) {
            Ok(words) => self.full(s, words),
            Err(f) => f,
        }
    }

    // The object of a leaf comes in, whose record is in the buffer and has so many words. Where there is too little room, what is dead goes
    // first.
    fn bring_leaf(&mut self, s: Short, words: u32) -> Result<(), MemFault>
        requires fit { MayCall (IsSound H.Host) (loom_told H.Host) self.old }
        requires out { 1 ≤ outside (loom_core self.old) s.0 }
        requires leaf { place_of ((loom_core self.old).entries s.0).state ≡ None }
        requires record { IsRead (H.tells Role.Work) self.old.buf (disk_of H.Host (loom_now self.old) (loom_rest self.old)) ((loom_core self.old).entries s.0).name words }
        requires small { words < 2 ^ 18 }
        ensures thins { OnOk result (MayThin H.Host (λ k. k ≡ ((loom_core self.old).entries s.0).name) self.old self.new) }
        ensures comes { OnOk result (Comes H.Host words self.old self.new) }
        ensures leaves { LeavesBeside H.Host self.old self.new result }
        ensures there { OnOk result ((at : ℕ) × (place_of ((loom_core self.new).entries s.0).state ≡ Some at)) }
        ensures spare { OnOk result (SPARE_BEHIND_CLASS ≤ spare_of (loom_parts self.new)) }
        ensures counted { OnOk result (fetched self.new ≡ counted (fetched self.old)) }
        ensures buf { self.new.buf ≡ self.old.buf }
        ensures damage { IfErr result (λ f. HasRoom (loom_parts self.old) words SPARE → IsDamageOf (loom_rest self.new) ((loom_core self.old).entries s.0).name f) }
        ensures err { IfErr result (IsRefusedAt (loom_told H.Host self.old) (loom_told H.Host self.new) ((loom_core self.old).entries s.0).name) }
        ensures away { OnErr result (fetched self.new ≡ fetched self.old) }
    {
        if words > self.ledger.core {
            return Err(self.full(s, words));
        }
        match self.clear_first(words) {
            Ok(enough) => {
                if enough {
                    self.come(s);
                    return Ok(());
                }
                entries_are_counted(&self.pager.levels.parts.names.table);
                chunks_never_overlap(&self.pager.levels.parts.segment);
                Err(self.full(s, words))
            }
            Err(f) => Err(f),
        }
    }

    // Brings the object of an entry in, where as many entries are free as a call asks for. A body stays as it is.
    pub(crate) fn bring(&mut self, s: Short) -> Result<(), MemFault>
        requires fit { MayCall (IsSound H.Host) (loom_told H.Host) self.old }
        requires out { 1 ≤ outside (loom_core self.old) s.0 }
        requires has { IsTrue (H.tells Role.Work) → Has (loom_told H.Host self.old).heap ((loom_core self.old).entries s.0).name }
        requires spare { SPARE ≤ spare_of (loom_parts self.old) }
        ensures thins { OnOk result (MayThin H.Host (IsBrought self.old self.new ((loom_core self.old).entries s.0).name) self.old self.new) }
        ensures comes { OnOk result (IsTrue (H.tells Role.Work) → place_of ((loom_core self.old).entries s.0).state ≡ None → Comes H.Host (words_at (loom_told H.Host self.old).heap ((loom_core self.old).entries s.0).name) self.old self.new) }
        ensures leaves { LeavesBeside H.Host self.old self.new result }
        ensures there { OnOk result ((at : ℕ) × (place_of ((loom_core self.new).entries s.0).state ≡ Some at)) }
        ensures spare { OnOk result (SPARE_BEHIND_CLASS ≤ spare_of (loom_parts self.new)) }
        ensures idle { OnOk result ((at : ℕ) → place_of ((loom_core self.old).entries s.0).state ≡ Some at → self.new ≡ self.old) }
        ensures counted { OnOk result (place_of ((loom_core self.old).entries s.0).state ≡ None → fetched self.new ≡ counted (fetched self.old)) }
        ensures damage { IsDamaged self.old self.new ((loom_core self.old).entries s.0).name result }
        ensures tested { OnOk result (place_of ((loom_core self.old).entries s.0).state ≡ None → IsTested self.new ((loom_core self.old).entries s.0).name) }
        ensures err { IfErr result (IsRefusedAt (loom_told H.Host self.old) (loom_told H.Host self.new) ((loom_core self.old).entries s.0).name) }
        ensures brings { BringsOne self.old self.new (place_of ((loom_core self.old).entries s.0).state ≡ None) }
    {
        if self
            .pager
            .levels
            .parts
            .names
            .table
            .used_entry(s)
            .place()
            .is_some()
        {
            return Ok(());
        }
        match self.look(s) {
            Ok(words) => self.bring_leaf(s, words),
            Err(f) => Err(f),
        }
    }

    // Brings the object of a register into the core, and leaves 26 entries free. What is dead goes before anything living.
    pub(crate) fn load_with_room(&mut self, of: Reg) -> Result<Short, MemFault>
        requires fit { MayCall (IsSound H.Host) (loom_told H.Host) self.old }
        requires name { IsRef ((loom_told H.Host self.old).regs of) }
        ensures thins { OnOk result (MayThin H.Host (IsBrought self.old self.new (name_at ((loom_told H.Host self.old).regs of))) self.old self.new) }
        ensures comes { OnOk result (IsTrue (H.tells Role.Work) → place_of ((loom_core self.old).entries (word_in self.old.regs of)).state ≡ None → Comes H.Host (words_at (loom_told H.Host self.old).heap (name_at ((loom_told H.Host self.old).regs of))) self.old self.new) }
        ensures leaves { LeavesBeside H.Host self.old self.new result }
        ensures here { IfOk result (λ s. IsHere H.Host (loom_told H.Host self.old) self.new of s.0) }
        ensures spare { OnOk result (SPARE_BEHIND_CLASS ≤ spare_of (loom_parts self.new)) }
        ensures idle { OnOk result ((at : ℕ) → place_of ((loom_core self.old).entries (word_in self.old.regs of)).state ≡ Some at → HasRoom (loom_parts self.old) 0 SPARE → self.new ≡ self.old) }
        ensures counted { OnOk result (place_of ((loom_core self.old).entries (word_in self.old.regs of)).state ≡ None → fetched self.new ≡ counted (fetched self.old)) }
        ensures damage { IsDamaged self.old self.new (name_at ((loom_told H.Host self.old).regs of)) result }
        ensures tested { OnOk result (place_of ((loom_core self.old).entries (word_in self.old.regs of)).state ≡ None → IsTested self.new (name_at ((loom_told H.Host self.old).regs of))) }
        ensures err { IfErr result (λ f. (a : Access) → target_of a ≡ Some of → makes a ≡ 0 → IsSilent a → IsLater (loom_told H.Host self.old) (loom_told H.Host self.new) × Refuses (loom_told H.Host self.old) (loom_told H.Host self.new) (Does a) f) }
        ensures brings { BringsOne self.old self.new ((is_resident self.old (name_at ((loom_told H.Host self.old).regs of)) ≡ false) ⊎ (HasRoom (loom_parts self.old) 0 SPARE → ⊥)) }
        ensures entries { OnOk result (IsFreed H.Host self.old self.new 0 SPARE) }
    {
        let s = Short(self.regs[of.index()]);
        match self.clear_first(0) {
            Ok(enough) => {
                if enough {
                    return match self.bring(s) {
                        Ok(()) => {
                            // no body is larger than the core
                            chunks_never_overlap(&self.pager.levels.parts.segment);
                            Ok(s)
                        }
                        Err(f) => Err(f),
                    };
                }
                Err(self.want(s))
            }
            Err(f) => Err(f),
        }
    }
}
