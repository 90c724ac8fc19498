// A memory with bounds over one without.
ghost use Rattle.std.specs.Prelude.{◌≡◌, ℕ, ◌+◌, ◌<◌, ◌≤◌, OnOk, IfOk, IfErr, IfSome, IfNone, OnErr, IsOk, None, Some, true, false};
ghost use Rattle.std.specs.Result.{IsErr};
ghost use Rattle.long_names.specs.Counting.{counted};
ghost use Rattle.long_names.specs.declared.limits.TheConstants.{LAST_NAME};
ghost use Rattle.long_names.specs.Need.{words_at, entries_at, words_named};
ghost use Rattle.long_names.specs.State.{IsRef, name_at};
ghost use Rattle.object_memory.specs.Told.{IsReady};
ghost use Rattle.object_memory.specs.Contract.{row_of_values};
ghost use Rattle.object_memory.specs.Plain.{plain_told, refused, IsPlainFit};
ghost use Rattle.object_memory.specs.declared.fault.MemFault.TheVariants.{WorkFault};
ghost use Rattle.bounded_memory.specs.Limits.{bounds_of};
ghost use Rattle.bounded_memory.specs.Pins.{words_with, entries_with};
ghost use Rattle.bounded_memory.specs.Bounded.{over, faulted, row_told, bounded_told, IsPinnedAs, IsSound, IsBoundedFit, need_at, need_with, FitsCore, IsFull, CannotMake};

use crate::limits::Limits;
use crate::pins::{Pin, Pins};
use crate::row::CachedRow;
use crate::size::Size;
use long_names::{Kind, LAST_NAME, Name, literal_count};
use object_memory::{MemFault, Need, ObjectMemory, PlainMemory, Reg};

/// A memory with bounds over one that is one map. It refuses whenever it may: each access whose need has no room in the core, and
/// each making for which there is no room. Want of memory is told as a fault of Work.
#[derive(Drop)]
pub struct BoundedMemory {
    memory: PlainMemory,
    limits: Limits,
    pins: Pins,
    row: Option<CachedRow>,
    refusals: u64,
    last: Option<MemFault>,
}

/// The word of the name in a register that holds one.
fn name_in(memory: &PlainMemory, r: Reg) -> u32
    requires { IsRef ((plain_told memory.now).regs r) }
    ensures { result ≡ name_at ((plain_told memory.now).regs r) }
{
    2 * memory.hash(r)
}

/// The size of the object that a register names.
fn size_of(memory: &mut PlainMemory, of: Reg) -> Size
    requires fit { IsPlainFit memory.old }
    requires name { IsRef ((plain_told memory.old).regs of) }
    ensures words { result.words ≡ words_at (plain_told memory.old).heap (name_at ((plain_told memory.old).regs of)) }
    ensures entries { result.entries ≡ entries_at (plain_told memory.old).heap (name_at ((plain_told memory.old).regs of)) }
    ensures kept { plain_told memory.new ≡ plain_told memory.old }
{
    let (Ok(kind), Ok(len)) = (memory.kind(of), memory.len(of)) else {
        unreachable!()
    };
    let Kind::Method = kind else {
        return Size::new(kind, len, 0);
    };
    let Ok(header) = memory.header(of) else {
        unreachable!()
    };
    Size::new(Kind::Method, len, literal_count(header) as u32)
}

impl BoundedMemory {
    /// A memory over another, which holds so many objects. The core has so many 16-bit words and entries for short names, and there
    /// is room for so many objects.
    pub fn new(
        memory: PlainMemory,
        core: u32,
        entries: u32,
        room: u32,
        objects: u32,
    ) -> BoundedMemory
        requires slots { (plain_told memory).slots ≡ (λ i. None) }
        requires room { room < LAST_NAME + 1 }
        requires objects { objects < LAST_NAME + 1 }
        ensures told { bounded_told result ≡ over (plain_told memory) 0 None (record { core = core; entries = entries; room = room; base = Some objects; made = 0; work_faults = 0; said_faults = 0 }) }
        ensures ready { IsReady (plain_told memory) → IsReady (bounded_told result) }
        ensures sound { IsSound result }
    {
        BoundedMemory {
            memory,
            limits: Limits::new(core, entries, room, objects),
            pins: Pins::new(),
            row: None,
            refusals: 0,
            last: None,
        }
    }

    /// The memory below. It tells the same, but for the row, refusals and bounds.
    pub fn into_plain(self) -> PlainMemory
        ensures told { plain_told result ≡ record (bounded_told self) { cache = (plain_told result).cache; refusals = (plain_told result).refusals; last = (plain_told result).last; bounds = None } }
        ensures ready { IsReady (bounded_told self) → IsReady (plain_told result) }
    {
        self.memory
    }

    /// The bytes that were said.
    pub fn transcript(&self) -> &[u8]
        ensures { result.now ≡ (bounded_told self.now).transcript }
    {
        self.memory.transcript()
    }

    /// The method of the row of this pair.
    fn cached(&self, class: Reg, selector: Reg) -> Option<Name>
        ensures found { IfSome result (λ m. row_of_values (bounded_told self.now).cache ((bounded_told self.now).regs class) ((bounded_told self.now).regs selector) m ≡ true) }
        ensures unknown { IfNone result ((m : ℕ) → row_of_values (bounded_told self.now).cache ((bounded_told self.now).regs class) ((bounded_told self.now).regs selector) m ≡ false) }
    {
        let Some(row) = &self.row else {
            return None;
        };
        if !self.memory.path() {
            return None;
        }
        let Some(class) = self.memory.name(class) else {
            return None;
        };
        let Some(selector) = self.memory.name(selector) else {
            return None;
        };
        if row.class != class || row.selector != selector {
            return None;
        }
        Some(row.method)
    }

    /// Drops the row where its path was lost.
    fn drop_lost_row(&mut self)
        ensures row { self.new ≡ record self.old { row = self.new.row } }
        ensures told { bounded_told self.new ≡ bounded_told self.old }
        ensures lost { (plain_told self.new.memory).cache.path ≡ false → self.new.row ≡ None }
    {
        if !self.memory.path() {
            self.row = None;
        }
    }

    /// Counts a refusal and says why it was.
    fn refuse(&mut self, fault: MemFault) -> MemFault
        ensures result { result ≡ fault }
        ensures refused { self.new ≡ record self.old { refusals = counted self.old.refusals; last = Some fault } }
        ensures later { self.old.refusals ≤ self.new.refusals }
    {
        self.refusals = self.refusals.saturating_add(1);
        self.last = Some(fault);
        fault
    }

    /// Counts a call on Work that failed.
    fn work_fault(&mut self) -> MemFault
        ensures result { result ≡ WorkFault (counted self.old.limits.work_faults) }
        ensures told { bounded_told self.new ≡ faulted (row_told self.old) self.old.refusals (bounds_of self.old.limits) }
        ensures refusals { self.old.refusals ≤ counted self.old.refusals }
        ensures faults { self.old.limits.work_faults ≤ counted self.old.limits.work_faults }
    {
        let count = self.limits.count_work_fault();
        self.refuse(MemFault::WorkFault { count })
    }

    /// Refuses what the core has no room for.
    fn has_room(&mut self, need: Need) -> Result<(), MemFault>
        ensures kept { OnOk result (self.new ≡ self.old) }
        ensures room { OnOk result (FitsCore (bounded_told self.old) need) }
        ensures refused { IfErr result (λ f. self.new ≡ record self.old { refusals = counted self.old.refusals; last = Some f }) }
        ensures full { IfErr result (λ f. IsFull (bounded_told self.old) need f) }
        ensures later { self.old.refusals ≤ self.new.refusals }
    {
        if need.words <= self.limits.core && need.entries <= self.limits.entries {
            return Ok(());
        }
        Err(self.refuse(MemFault::CoreFull(need)))
    }

    /// Refuses an access to the object of a register for which the core has no room. Else the object's name and size.
    fn fits(&mut self, of: Reg) -> Result<Pin, MemFault>
        requires fit { IsBoundedFit self.old }
        requires name { IsRef ((bounded_told self.old).regs of) }
        ensures told { OnOk result (bounded_told self.new ≡ bounded_told self.old) }
        ensures pin { IfOk result (λ pin. IsPinnedAs (bounded_told self.old).heap (Some (name_at ((bounded_told self.old).regs of))) (Some pin)) }
        ensures room { OnOk result (FitsCore (bounded_told self.old) (need_at (bounded_told self.old) of)) }
        ensures core { OnOk result (words_named (bounded_told self.old).heap ((bounded_told self.old).regs of) ≤ self.old.limits.core) }
        ensures refused { IfErr result (λ f. bounded_told self.new ≡ refused (bounded_told self.old) f) }
        ensures full { IfErr result (λ f. IsFull (bounded_told self.old) (need_at (bounded_told self.old) of) f) }
        ensures sound { IsSound self.new }
        ensures later { self.old.refusals ≤ self.new.refusals }
    {
        let size = size_of(&mut self.memory, of);
        let name = name_in(&self.memory, of);
        let need = self.pins.need(name, size.words);
        self.has_room(need)?;
        Ok(Pin { name, size })
    }

    /// Refuses to make an object of this size: where the names are spent, else where no object more may live, else where the core
    /// has no room.
    fn can_make(&mut self, size: Size) -> Result<(), MemFault>
        ensures kept { OnOk result (self.new ≡ self.old) }
        ensures named { OnOk result ((bounded_told self.old).heap.next < LAST_NAME) }
        ensures live { OnOk result (self.old.limits.base + self.old.limits.made + 1 ≤ self.old.limits.room) }
        ensures room { OnOk result (FitsCore (bounded_told self.old) (need_with self.old.pins (bounded_told self.old).heap.next size.words)) }
        ensures refused { IfErr result (λ f. self.new ≡ record self.old { refusals = counted self.old.refusals; last = Some f }) }
        ensures cause { IfErr result (λ f. CannotMake (bounded_told self.old) (need_with self.old.pins (bounded_told self.old).heap.next size.words) f) }
        ensures later { self.old.refusals ≤ self.new.refusals }
    {
        let next = self.memory.next();
        if next >= LAST_NAME {
            return Err(self.refuse(MemFault::NamesSpent));
        }
        let live = self.limits.live();
        let room = self.limits.room;
        if live > room {
            return Err(self.refuse(MemFault::WorkFull { live, room }));
        }
        let need = self.pins.need(next, size.words);
        self.has_room(need)
    }

    /// What a call of the memory below came to: its want of memory is a fault of Work.
    fn answered(&mut self, outcome: Result<(), MemFault>) -> Result<(), MemFault>
        ensures ok { OnOk result (IsOk outcome × (self.new ≡ self.old)) }
        ensures err { IfErr result (λ f. IsErr outcome × (f ≡ WorkFault (counted self.old.limits.work_faults))) }
        ensures told { OnErr result (bounded_told self.new ≡ faulted (row_told self.old) self.old.refusals (bounds_of self.old.limits)) }
        ensures refusals { OnErr result (self.old.refusals ≤ counted self.old.refusals) }
        ensures faults { OnErr result (self.old.limits.work_faults ≤ counted self.old.limits.work_faults) }
    {
        match outcome {
            Ok(()) => Ok(()),
            Err(_) => Err(self.work_fault()),
        }
    }

    /// The same of a making, which is counted.
    fn made(&mut self, outcome: Result<(), MemFault>) -> Result<(), MemFault>
        requires { self.old.limits.base + self.old.limits.made + 1 ≤ self.old.limits.room }
        ensures ok { OnOk result (IsOk outcome × (self.new ≡ record self.old { limits = self.new.limits })) }
        ensures counted { OnOk result (bounds_of self.new.limits ≡ record (bounds_of self.old.limits) { made = self.old.limits.made + 1 }) }
        ensures err { IfErr result (λ f. IsErr outcome × (f ≡ WorkFault (counted self.old.limits.work_faults))) }
        ensures told { OnErr result (bounded_told self.new ≡ faulted (row_told self.old) self.old.refusals (bounds_of self.old.limits)) }
        ensures refusals { OnErr result (self.old.refusals ≤ counted self.old.refusals) }
        ensures faults { OnErr result (self.old.limits.work_faults ≤ counted self.old.limits.work_faults) }
    {
        match outcome {
            Ok(()) => {
                self.limits.count_making();
                Ok(())
            }
            Err(_) => Err(self.work_fault()),
        }
    }
}

impl ObjectMemory for BoundedMemory {
    ghost use Rattle.bounded_memory.specs.Bounded.{bounded_told, IsSound};

    ghost told = { bounded_told };

    ghost sound = { IsSound };

    ghost lender = { λ _. 0 };

    ghost Outside = { Unit {0} };

    ghost outside = { λ _. tt };

    fn int(&mut self, to: Reg, v: i16) {
        self.memory.int(to, v);
    }

    fn copy(&mut self, to: Reg, from: Reg) {
        self.memory.copy(to, from);
    }

    fn known(&mut self, to: Reg, name: Name) -> Result<(), MemFault> {
        self.memory.known(to, name)
    }

    fn is(&self, r: Reg, name: Name) -> bool {
        self.memory.is(r, name)
    }

    fn same(&self, a: Reg, b: Reg) -> bool {
        self.memory.same(a, b)
    }

    fn as_int(&self, r: Reg) -> Option<i16> {
        self.memory.as_int(r)
    }

    fn hash(&self, r: Reg) -> u32 {
        self.memory.hash(r)
    }

    fn next_name(&self) -> u32 {
        self.memory.next_name()
    }

    fn is_pinned(&self, r: Reg) -> bool {
        self.memory.is_pinned(r)
    }

    fn class(&mut self, to: Reg, of: Reg) -> Result<(), MemFault> {
        if self.memory.as_int(of).is_some() {
            return self.memory.class(to, of);
        }
        self.fits(of)?;
        self.memory.class(to, of)
    }

    fn kind(&mut self, of: Reg) -> Result<Kind, MemFault> {
        self.fits(of)?;
        self.memory.kind(of)
    }

    fn len(&mut self, of: Reg) -> Result<u32, MemFault> {
        self.fits(of)?;
        self.memory.len(of)
    }

    fn field_count(&self, of: Reg) -> Option<u32> {
        // whoever wants it asks `kind` and `len`
        None
    }

    fn header(&mut self, of: Reg) -> Result<i16, MemFault> {
        self.fits(of)?;
        self.memory.header(of)
    }

    fn field(&mut self, to: Reg, of: Reg, i: u32) -> Result<(), MemFault> {
        self.fits(of)?;
        self.memory.field(to, of, i)
    }

    fn set_field(&mut self, of: Reg, i: u32, from: Reg) -> Result<(), MemFault> {
        self.fits(of)?;
        self.memory.set_field(of, i, from)
    }

    fn word(&mut self, of: Reg, i: u32) -> Result<u16, MemFault> {
        self.fits(of)?;
        self.memory.word(of, i)
    }

    fn set_word(&mut self, of: Reg, i: u32, w: u16) -> Result<(), MemFault> {
        self.fits(of)?;
        self.memory.set_word(of, i, w)
    }

    fn byte(&mut self, of: Reg, i: u32) -> Result<u8, MemFault> {
        self.fits(of)?;
        self.memory.byte(of, i)
    }

    fn code_byte(&self, of: Reg, place: u32) -> Option<u8> {
        // whoever wants it asks `byte`
        None
    }

    fn set_byte(&mut self, of: Reg, i: u32, b: u8) -> Result<(), MemFault> {
        self.fits(of)?;
        self.memory.set_byte(of, i, b)
    }

    fn read_words(&mut self, of: Reg, at: u32, out: &mut [u16]) -> Result<(), MemFault> {
        self.fits(of)?;
        self.memory.read_words(of, at, out)
    }

    fn write_words(&mut self, of: Reg, at: u32, from: &[u16]) -> Result<(), MemFault> {
        self.fits(of)?;
        self.memory.write_words(of, at, from)
    }

    fn read_bytes(&mut self, of: Reg, at: u32, out: &mut [u8]) -> Result<(), MemFault> {
        self.fits(of)?;
        self.memory.read_bytes(of, at, out)
    }

    fn new_pointers(&mut self, to: Reg, class: Reg, n: u32) -> Result<(), MemFault> {
        self.can_make(Size::new(Kind::Pointers, n, 0))?;
        let result = self.memory.new_pointers(to, class, n);
        self.made(result)
    }

    fn new_words(&mut self, to: Reg, class: Reg, n: u32) -> Result<(), MemFault> {
        self.can_make(Size::new(Kind::Words, n, 0))?;
        let result = self.memory.new_words(to, class, n);
        self.made(result)
    }

    fn new_bytes(&mut self, to: Reg, class: Reg, n: u32) -> Result<(), MemFault> {
        self.can_make(Size::new(Kind::Bytes, n, 0))?;
        let result = self.memory.new_bytes(to, class, n);
        self.made(result)
    }

    fn new_method(&mut self, to: Reg, class: Reg, header: i16, code: u32) -> Result<(), MemFault> {
        self.can_make(Size::new(Kind::Method, code, literal_count(header) as u32))?;
        let result = self.memory.new_method(to, class, header, code);
        self.made(result)
    }

    fn swap(&mut self, a: Reg, b: Reg) -> Result<(), MemFault> {
        self.fits(a)?;
        self.fits(b)?;
        self.memory.swap(a, b)
    }

    fn pin(&mut self, slot: u8, r: Reg) -> Result<(), MemFault> {
        let pin = self.fits(r)?;
        self.memory.pin(slot, r)?;
        self.pins.set(slot, Some(pin));
        Ok(())
    }

    fn unpin(&mut self, slot: u8) {
        self.memory.unpin(slot);
        self.pins.set(slot, None);
    }

    fn begin_path(&mut self) {
        self.drop_lost_row();
        self.memory.begin_path();
    }

    fn mark(&mut self, r: Reg) -> Result<(), MemFault> {
        let result = self.memory.mark(r);
        self.answered(result)
    }

    fn cache_find(&mut self, to: Reg, class: Reg, selector: Reg) -> bool {
        let Some(method) = self.cached(class, selector) else {
            return false;
        };
        self.memory.put_name(to, method);
        true
    }

    fn cache_put(&mut self, class: Reg, selector: Reg, method: Reg) -> bool {
        if !self.memory.path() {
            return false;
        }
        let Some(class) = self.memory.name(class) else {
            return false;
        };
        let Some(selector) = self.memory.name(selector) else {
            return false;
        };
        let Some(method) = self.memory.name(method) else {
            return false;
        };
        self.row = Some(CachedRow {
            class,
            selector,
            method,
        });
        true
    }

    fn say(&mut self, of: Reg) -> Result<(), MemFault> {
        self.fits(of)?;
        let result = self.memory.say(of);
        self.answered(result)
    }

    fn settle(&mut self) -> Result<(), MemFault> {
        self.memory.settle()?;
        let Ok(objects) = self.memory.kept_count() else {
            return Err(self.work_fault());
        };
        self.limits.settle(objects);
        Ok(())
    }

    fn purge_all(&mut self) -> Result<(), MemFault> {
        self.memory.purge_all()
    }

    fn compact(&mut self) {
        self.memory.compact();
    }
}
