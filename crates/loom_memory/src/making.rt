// New objects: names are asked first, then room on the disk, then the core.
ghost use Rattle.std.specs.Prelude.{◌≡◌, ◌+◌, ◌≤◌, ◌<◌, ◌^◌, ℕ, None, true, false, IsTrue, IsOk, OnOk, IfOk, IfErr, IfSome, IfNone};
ghost use Rattle.long_names.specs.declared.limits.TheConstants.{LAST_NAME as END, MAKINGS_BEFORE_FREEING as MAKINGS};
ghost use Rattle.long_names.specs.Names.{IsLongName};
ghost use Rattle.long_names.specs.Words.{literal_count};
ghost use Rattle.core_segment.specs.declared.segment.TheConstants.{HEADER};
ghost use Rattle.core_segment.specs.Segment.{largest_of};
ghost use Rattle.core_view.specs.Words.{int_of_short, most_len, words_for};
ghost use Rattle.disk_objects.specs.Disk.{disk_room};
ghost use Rattle.leaf_lambda.specs.Parts.{spare_of};
ghost use Rattle.loom_memory.specs.declared.load.TheConstants.{SPARE_ENTRIES as SPARE};

use crate::load::SPARE_ENTRIES;
use crate::memory::LoomMemory;
use crate::new_object::make_object;
use crate::refusals::refusal_of;
use core_segment::HEADER;
use core_segment::laws::chunks_never_overlap;
use leaf_lambda::numbers::{int_short, short_int};
use long_names::{Kind, LAST_NAME, MAKINGS_BEFORE_FREEING, Name, literal_count};
use loom_host::{Host, Role};
use object_memory::{MemFault, Reg};
use object_table::Short;
use object_table::laws::entries_are_counted;
use purger::{NOWHERE, RoomFault};

// How many words a new object takes in the core.
#[inline(always)]
fn words_new(kind: Kind, len: u32, header: u16) -> u32
    requires len { len ≤ most_len kind }
    ensures words { result ≡ words_for kind len (literal_count (int_of_short header)) + HEADER }
    ensures small { result < 2 ^ 18 }
{
    match kind {
        Kind::Pointers => len + HEADER,
        Kind::Words => len + HEADER,
        Kind::Bytes => (len + 1) / 2 + HEADER,
        Kind::Method => 1 + literal_count(int_short(header)) as u32 + (len + 1) / 2 + HEADER,
    }
}

impl<'h, H: Host> LoomMemory<'h, H> {
    ghost use Rattle.loom_memory.specs.Effects.{Adds, IsNext, Leaves, Makes, Puts, Rests};
    ghost use Rattle.object_memory.specs.Fit.{MayCall};
    ghost use Rattle.std.specs.Prelude.{Ok};
    ghost use Rattle.long_names.specs.Access.{Make};
    ghost use Rattle.long_names.specs.Need.{Fits};
    ghost use Rattle.long_names.specs.State.{name_at, IsRef};
    ghost use Rattle.object_memory.specs.Told.{IsReady};
    ghost use Rattle.object_memory.specs.declared.fault.Need.{Need as Wanted};
    ghost use Rattle.object_memory.specs.Contract.{HasCore, IfBounds, KeepsSound};
    ghost use Rattle.purger.specs.Purge.{HasRoom, IsShort};
    ghost use Rattle.loom_memory.specs.Known.{IsEntryOf, IsNeedBeside};
    ghost use Rattle.loom_memory.specs.Memory.{loom_told, loom_outside, loom_core, loom_lender, loom_parts, loom_pins, loom_rest, IsSound};
    ghost use Rattle.loom_memory.specs.Gentle.{IsQuiet};
    ghost use Rattle.loom_memory.specs.Makings.{HasAdded, HasMade, IsFullMaking, IsLost, IsNotFull, IsRefusedAs, IsRefusedMaking, OnCoreFull};
    ghost use Rattle.loom_memory.specs.Gentle.{IsResting, IsSpared, Remains};
    ghost use Rattle.loom_memory.specs.Own.{MindsCache};
    ghost use Rattle.loom_memory.specs.Gentle.{KeepsCache};
    ghost use Rattle.long_names.specs.declared.value.Value.TheVariants.{Ref};
    ghost use Rattle.loom_memory.specs.New.{making_of};
    ghost use Rattle.loom_memory.specs.Residents.{is_resident, fetched};

    // Refuses a making: the object has no room in the core.
    fn full_new(&mut self, name: Name, words: u32) -> MemFault
        requires fit { MayCall (IsSound H.Host) (loom_told H.Host) self.old }
        requires next { self.old.ledger.next ≡ name }
        requires small { words < 2 ^ 18 }
        requires unfit { (need : Wanted) → IsNeedBeside (loom_core self.old) (loom_pins self.old) name words need
            → Fits self.old.ledger.core self.old.ledger.entries need.words need.entries → ⊥ }
        ensures leaves { Leaves H.Host self.old self.new (Ok result) }
        ensures err { IsFullMaking (loom_told H.Host self.old) (loom_told H.Host self.new) words result }
        ensures other { IsNotFull result }
        ensures kept { (self.new.pager.levels.disk ≡ self.old.pager.levels.disk) × (self.new.ledger.held ≡ self.old.ledger.held) }
        ensures spared { IsSpared H.Host self.old self.new }
    {
        let need = self.need_beside(name, words);
        self.refuse(MemFault::CoreFull(need))
    }

    // A new object of the class in a register comes into the core, which has room for it. None where the next name has an entry, as it may
    // over a host that doesn't tell Work.
    #[inline(always)]
    fn add_object(
        &mut self,
        name: Name,
        class: Reg,
        kind: Kind,
        len: u32,
        header: u16,
    ) -> Option<Short>
        requires fit { MayCall (IsSound H.Host) (loom_told H.Host) self.old }
        requires class { IsRef ((loom_told H.Host self.old).regs class) }
        requires name { IsNext self.old name }
        requires held { self.old.ledger.held < disk_room (loom_rest self.old) }
        requires len { len ≤ most_len kind }
        requires room { words_for kind len (literal_count (int_of_short header)) + HEADER ≤ largest_of (loom_parts self.old).segment }
        requires spare { 2 ≤ spare_of (loom_parts self.old) }
        ensures adds { IfSome result (λ s. Adds H.Host self.old self.new class (making_of kind len header) name s.0) }
        ensures cached { IfSome result (λ s. KeepsCache H.Host self.old self.new) }
        ensures sound { IfSome result (λ s. IsSound H.Host self.new) }
        ensures fetches { fetched self.new ≡ fetched self.old }
        ensures none { IfNone result (IsTrue (H.tells Role.Work) → ⊥) }
        ensures disk { self.new.pager.levels.disk ≡ self.old.pager.levels.disk }
        ensures ledger { IfNone result (self.new.ledger ≡ self.old.ledger) }
        ensures due { self.new.due ≡ self.old.due }
    {
        let s = Short(self.word_of(class));
        let levels = &mut self.pager.levels;
        match make_object(&mut levels.parts, name, s, kind, len, header) {
            Some(new) => {
                self.ledger.count_making();
                self.thinned = false;
                Some(new)
            }
            None => None,
        }
    }

    // The same, and its name comes into a register.
    fn put_object(
        &mut self,
        name: Name,
        to: Reg,
        class: Reg,
        kind: Kind,
        len: u32,
        header: u16,
    ) -> Result<(), MemFault>
        requires fit { MayCall (IsSound H.Host) (loom_told H.Host) self.old }
        requires class { IsRef ((loom_told H.Host self.old).regs class) }
        requires name { IsNext self.old name }
        requires held { self.old.ledger.held < disk_room (loom_rest self.old) }
        requires len { len ≤ most_len kind }
        requires room { words_for kind len (literal_count (int_of_short header)) + HEADER ≤ largest_of (loom_parts self.old).segment }
        requires spare { 2 ≤ spare_of (loom_parts self.old) }
        ensures puts { OnOk result (Puts H.Host self.old self.new to class (making_of kind len header)) }
        ensures leaves { Leaves H.Host self.old self.new result }
        ensures rests { OnOk result (Rests H.Host self.old self.new) }
        ensures spared { IfErr result (λ f. IsSpared H.Host self.old self.new) }
        ensures sure { IfErr result (λ f. IsTrue (H.tells Role.Work) → ⊥) }
        ensures err { IfErr result (IsRefusedMaking (loom_told H.Host self.old) (loom_told H.Host self.new)) }
        ensures fault { IfErr result IsLost }
        ensures due { OnOk result (self.new.due ≡ self.old.due) }
    {
        match self.add_object(name, class, kind, len, header) {
            Some(s) => {
                self.put_word(to, s.0);
                Ok(())
            }
            None => Err(self.refuse(MemFault::Damaged {
                place: NOWHERE,
                name: name.get(),
            })),
        }
    }

    // Makes an object under the next name, for which the disk has room.
    fn make_here(
        &mut self,
        name: Name,
        to: Reg,
        class: Reg,
        kind: Kind,
        len: u32,
        header: u16,
    ) -> Result<(), MemFault>
        requires fit { MayCall (IsSound H.Host) (loom_told H.Host) self.old }
        requires class { IsRef ((loom_told H.Host self.old).regs class) }
        requires name { IsNext self.old name }
        requires held { self.old.ledger.held < disk_room (loom_rest self.old) }
        requires len { len ≤ most_len kind }
        ensures puts { OnOk result (Puts H.Host self.old self.new to class (making_of kind len header)) }
        ensures leaves { Leaves H.Host self.old self.new result }
        ensures rests { OnOk result (HasRoom (loom_parts self.old) (words_for kind len (literal_count (int_of_short header)) + HEADER) SPARE → Rests H.Host self.old self.new) }
        ensures spared { IfErr result (λ f. HasRoom (loom_parts self.old) (words_for kind len (literal_count (int_of_short header)) + HEADER) SPARE → IsSpared H.Host self.old self.new) }
        ensures sure { IfErr result (λ f. IsTrue (H.tells Role.Work) → HasRoom (loom_parts self.old) (words_for kind len (literal_count (int_of_short header)) + HEADER) SPARE → ⊥) }
        ensures core { OnOk result (IfBounds (loom_told H.Host self.old).bounds (HasCore (loom_told H.Host self.old) (Make to class (making_of kind len header)))) }
        ensures err { IfErr result (IsRefusedAs (loom_told H.Host self.old) (loom_told H.Host self.new) to class (making_of kind len header)) }
        ensures other { IfErr result IsNotFull }
        ensures full { IfErr result (λ f. OnCoreFull f (self.new.ledger.held < disk_room (loom_rest self.new))) }
        ensures due { OnOk result (self.new.due ≡ self.old.due) }
    {
        let words = words_new(kind, len, header);
        if words > self.ledger.core {
            // no more words are free than there are
            chunks_never_overlap(&self.pager.levels.parts.segment);
            return Err(self.full_new(name, words));
        }
        match self.page(words, SPARE_ENTRIES) {
            Ok(enough) => {
                if enough {
                    return self.put_object(name, to, class, kind, len, header);
                }
                entries_are_counted(&self.pager.levels.parts.names.table);
                chunks_never_overlap(&self.pager.levels.parts.segment);
                Err(self.full_new(name, words))
            }
            Err(f) => Err(f),
        }
    }
}

impl<'h, H: Host> LoomMemory<'h, H> {
    ghost use Rattle.loom_memory.specs.Effects.{Asks, IsNext, Leaves, Makes};
    ghost use Rattle.object_memory.specs.Fit.{MayCall, StaysCallable};
    ghost use Rattle.std.specs.Prelude.{Ok};
    ghost use Rattle.purger.specs.Draining.{KeepsHeld};
    ghost use Rattle.purger.specs.Purge.{HasRoom};
    ghost use Rattle.long_names.specs.Access.{Make, Nothing, heap_after};
    ghost use Rattle.long_names.specs.Counting.{counted};
    ghost use Rattle.long_names.specs.Objects.{OfPointers, OfWords, OfBytes, OfMethod, body_made, body_words};
    ghost use Rattle.long_names.specs.State.{name_at, IsRef};
    ghost use Rattle.object_memory.specs.Told.{IsReady};
    ghost use Rattle.object_memory.specs.Plain.{refused};
    ghost use Rattle.object_memory.specs.declared.fault.MemFault.TheVariants.{WorkFull};
    ghost use Rattle.object_memory.specs.Contract.{Accessed, IfBounds, KeepsSound, MayDo};
    ghost use Rattle.loom_memory.specs.Memory.{loom_told, loom_outside, loom_lender, loom_core, loom_parts, loom_rest, IsSound};
    ghost use Rattle.loom_memory.specs.Freed.{IsAlive, IsFreed, IsFreedMaking, IsOnTime};
    ghost use Rattle.loom_memory.specs.Makings.{HasThinned, IfNameless, IsNameless, IsRefusedMaking, OnCoreFull};
    ghost use Rattle.loom_memory.specs.Gentle.{IsSpared};
    ghost use Rattle.loom_memory.specs.Own.{HasAllFor, HasSpaceFor, IsAskedLast, IsSparingMaking, IsUndrained, MindsCache};
    ghost use Rattle.long_names.specs.declared.value.Value.TheVariants.{Ref};
    ghost use Rattle.loom_memory.specs.New.{making_of};
    ghost use Rattle.loom_memory.specs.Residents.{is_resident, fetched};

    // Refuses a making before the eighth: as many names are held as there is room for.
    fn crowded(&mut self) -> MemFault
        requires fit { MayCall (IsSound H.Host) (loom_told H.Host) self.old }
        requires all { disk_room (loom_rest self.old) ≤ self.old.ledger.held }
        requires early { self.old.ledger.made < MAKINGS }
        ensures leaves { Leaves H.Host self.old self.new (Ok result) }
        ensures err { IsRefusedMaking (loom_told H.Host self.old) (loom_told H.Host self.new) result }
        ensures full { OnCoreFull result ⊥ }
        ensures spared { IsSpared H.Host self.old self.new }
    {
        let room = self.pager.levels.disk.room();
        match self.ledger.base {
            Some(base) => self.refuse(MemFault::WorkFull {
                live: base + self.ledger.made + 1,
                room,
            }),
            None => unreachable!(),
        }
    }

    // Refuses a making where nothing is dead: as many objects are kept as there is room for.
    fn overfull(&mut self) -> MemFault
        requires fit { MayCall (IsSound H.Host) (loom_told H.Host) self.old }
        requires all { disk_room (loom_rest self.old) ≤ self.old.ledger.held }
        ensures leaves { Leaves H.Host self.old self.new (Ok result) }
        ensures told { loom_told H.Host self.new ≡ refused (loom_told H.Host self.old) result }
        ensures full { result ≡ WorkFull (self.old.ledger.held + 1) (disk_room (loom_rest self.old)) }
        ensures later { (loom_told H.Host self.old).refusals ≤ counted (loom_told H.Host self.old).refusals }
    {
        let room = self.pager.levels.disk.room();
        let live = self.ledger.held + 1;
        self.refuse(MemFault::WorkFull { live, room })
    }

    // Dead objects are freed, so that the disk has room for one object more.
    fn free_one(&mut self) -> Result<(), MemFault>
        requires fit { MayCall (IsSound H.Host) (loom_told H.Host) self.old }
        requires late { MAKINGS ≤ self.old.ledger.made }
        ensures asks { OnOk result (Asks H.Host self.old self.new) }
        ensures leaves { Leaves H.Host self.old self.new result }
        ensures err { IfErr result (IsRefusedMaking (loom_told H.Host self.old) (loom_told H.Host self.new)) }
        ensures full { IfErr result (λ f. OnCoreFull f ⊥) }
        ensures alive { OnOk result (IsAlive (loom_told H.Host self.new)) }
    {
        match self.thin() {
            Ok(()) => {
                if self.ledger.held < self.pager.levels.disk.room() {
                    return Ok(());
                }
                Err(self.overfull())
            }
            Err(f) => Err(f),
        }
    }

    // Sees that the disk has room for one object more.
    fn ask_room(&mut self) -> Result<(), MemFault>
        requires fit { MayCall (IsSound H.Host) (loom_told H.Host) self.old }
        ensures asks { OnOk result (Asks H.Host self.old self.new) }
        ensures leaves { Leaves H.Host self.old self.new result }
        ensures roomy { OnOk result (self.old.ledger.held < disk_room (loom_rest self.old) → self.new ≡ self.old) }
        ensures early { OnOk result (self.old.ledger.made < MAKINGS → self.new ≡ self.old) }
        ensures err { IfErr result (IsRefusedMaking (loom_told H.Host self.old) (loom_told H.Host self.new)) }
        ensures full { IfErr result (λ f. OnCoreFull f ⊥) }
        ensures spared { IfErr result (λ f. IsUndrained self.old → IsSpared H.Host self.old self.new) }
        ensures sure { IfErr result (λ f. self.old.ledger.held < disk_room (loom_rest self.old) → ⊥) }
        ensures alive { OnOk result (disk_room (loom_rest self.old) ≤ self.old.ledger.held → IsAlive (loom_told H.Host self.new)) }
    {
        if self.ledger.held < self.pager.levels.disk.room() {
            return Ok(());
        }
        if self.ledger.made < MAKINGS_BEFORE_FREEING {
            return Err(self.crowded());
        }
        self.free_one()
    }

    // Sees that the disk has room for one object more; and frees what is dead where the core has none for a new object of so many words.
    fn ask(&mut self, words: u32) -> Result<(), MemFault>
        requires fit { MayCall (IsSound H.Host) (loom_told H.Host) self.old }
        ensures asks { OnOk result (Asks H.Host self.old self.new) }
        ensures leaves { Leaves H.Host self.old self.new result }
        ensures roomy { OnOk result (self.old.ledger.held < disk_room (loom_rest self.old) → HasRoom (loom_parts self.old) words SPARE → self.new ≡ self.old) }
        ensures early { OnOk result (self.old.ledger.made < MAKINGS → HasRoom (loom_parts self.old) words SPARE → self.new ≡ self.old) }
        ensures gone { OnOk result (IsFreed H.Host self.old self.new words SPARE) }
        ensures due { OnOk result (IsOnTime H.Host self.old self.new) }
        ensures err { IfErr result (IsRefusedMaking (loom_told H.Host self.old) (loom_told H.Host self.new)) }
        ensures full { IfErr result (λ f. OnCoreFull f ⊥) }
        ensures spared { IfErr result (λ f. IsUndrained self.old → HasRoom (loom_parts self.old) words SPARE → IsSpared H.Host self.old self.new) }
        ensures sure { IfErr result (λ f. self.old.ledger.held < disk_room (loom_rest self.old) → HasRoom (loom_parts self.old) words SPARE → ⊥) }
    {
        match self.ask_room() {
            Ok(()) => self.free_first(words, SPARE_ENTRIES),
            Err(f) => Err(f),
        }
    }

    // Makes an object under a name, once there is room for it.
    fn make_named(
        &mut self,
        name: Name,
        to: Reg,
        class: Reg,
        kind: Kind,
        len: u32,
        header: u16,
    ) -> Result<(), MemFault>
        requires fit { MayCall (IsSound H.Host) (loom_told H.Host) self.old }
        requires class { IsRef ((loom_told H.Host self.old).regs class) }
        requires name { IsNext self.old name }
        requires len { len ≤ most_len kind }
        ensures makes { Makes H.Host self.old self.new to class (making_of kind len header) result }
        ensures fit { StaysCallable (IsSound H.Host) (loom_told H.Host) loom_lender (loom_outside H.Host) self.old self.new result }
    {
        match self.ask(words_new(kind, len, header)) {
            Ok(()) => self.make_here(name, to, class, kind, len, header),
            Err(f) => Err(f),
        }
    }

    // Refuses a making: there is no name for it.
    fn nameless(&mut self, f: MemFault) -> MemFault
        requires fit { MayCall (IsSound H.Host) (loom_told H.Host) self.old }
        requires cause { IsNameless (loom_told H.Host self.old) f }
        ensures leaves { Leaves H.Host self.old self.new (Ok result) }
        ensures err { IfNameless (loom_told H.Host self.old) (loom_told H.Host self.new) result }
        ensures same { result ≡ f }
        ensures spared { IsSpared H.Host self.old self.new }
    {
        self.refuse(f)
    }

    // A new object of a kind, of so many values, words or bytes: names are asked first, then room, then the core.
    fn make_kind(
        &mut self,
        to: Reg,
        class: Reg,
        kind: Kind,
        len: u32,
        header: u16,
    ) -> Result<(), MemFault>
        requires fit { MayCall (IsSound H.Host) (loom_told H.Host) self.old }
        requires class { IsRef ((loom_told H.Host self.old).regs class) }
        requires len { len ≤ most_len kind }
        ensures makes { Makes H.Host self.old self.new to class (making_of kind len header) result }
        ensures fit { StaysCallable (IsSound H.Host) (loom_told H.Host) loom_lender (loom_outside H.Host) self.old self.new result }
    {
        let next = self.ledger.next;
        if next >= LAST_NAME {
            return Err(self.nameless(MemFault::NamesSpent));
        }
        match Name::new(next) {
            Some(name) => self.make_named(name, to, class, kind, len, header),
            None => Err(self.nameless(MemFault::Damaged {
                place: NOWHERE,
                name: next,
            })),
        }
    }

    /// A new object of so many nils, at the next name (instantiateClass:withPointers:).
    #[inline(always)]
    pub fn new_pointers(&mut self, to: Reg, class: Reg, n: u32) -> Result<(), MemFault>
        requires fit { MayCall (IsSound H.Host) (loom_told H.Host) self.old }
        requires may { MayDo (loom_told H.Host self.old) (Make to class (OfPointers n)) }
        ensures makes { Makes H.Host self.old self.new to class (OfPointers n) result }
        ensures fit { StaysCallable (IsSound H.Host) (loom_told H.Host) loom_lender (loom_outside H.Host) self.old self.new result }
    {
        self.make_kind(to, class, Kind::Pointers, n, 1)
    }

    /// A new object of so many words that are 0 (instantiateClass:withWords:).
    pub fn new_words(&mut self, to: Reg, class: Reg, n: u32) -> Result<(), MemFault>
        requires fit { MayCall (IsSound H.Host) (loom_told H.Host) self.old }
        requires may { MayDo (loom_told H.Host self.old) (Make to class (OfWords n)) }
        ensures makes { Makes H.Host self.old self.new to class (OfWords n) result }
        ensures fit { StaysCallable (IsSound H.Host) (loom_told H.Host) loom_lender (loom_outside H.Host) self.old self.new result }
    {
        self.make_kind(to, class, Kind::Words, n, 1)
    }

    /// A new object of so many bytes that are 0 (instantiateClass:withBytes:).
    pub fn new_bytes(&mut self, to: Reg, class: Reg, n: u32) -> Result<(), MemFault>
        requires fit { MayCall (IsSound H.Host) (loom_told H.Host) self.old }
        requires may { MayDo (loom_told H.Host self.old) (Make to class (OfBytes n)) }
        ensures makes { Makes H.Host self.old self.new to class (OfBytes n) result }
        ensures fit { StaysCallable (IsSound H.Host) (loom_told H.Host) loom_lender (loom_outside H.Host) self.old self.new result }
    {
        self.make_kind(to, class, Kind::Bytes, n, 1)
    }

    /// A new method, of as many nils as its header says and so many code bytes that are 0.
    pub fn new_method(
        &mut self,
        to: Reg,
        class: Reg,
        header: i16,
        code: u32,
    ) -> Result<(), MemFault>
        requires fit { MayCall (IsSound H.Host) (loom_told H.Host) self.old }
        requires may { MayDo (loom_told H.Host self.old) (Make to class (OfMethod header code)) }
        ensures makes { Makes H.Host self.old self.new to class (OfMethod header code) result }
        ensures fit { StaysCallable (IsSound H.Host) (loom_told H.Host) loom_lender (loom_outside H.Host) self.old self.new result }
    {
        self.make_kind(to, class, Kind::Method, code, short_int(header))
    }
}
