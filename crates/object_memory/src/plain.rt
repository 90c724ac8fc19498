// A memory that is one map of long names.
ghost use Rattle.std.specs.Prelude.{◌≡◌, ◌+◌, ◌<◌, ◌≤◌, ◌%◌, All, OnOk, IfOk, IfErr, IsOk, IsOkAnd, IsSome, IsTrue, Some, Ok, true, length, ◌⊎◌};
ghost use Rattle.long_names.specs.Objects.{name_of, fields_of, IsBody, HasRange, IsObject, IsRecord, OfPointers, OfWords, OfBytes, OfMethod};
ghost use Rattle.long_names.specs.Access.{KindOf, Length, Header, Make, Mark, Say, Nothing, OfKind, OfNumber, OfSigned};
ghost use Rattle.long_names.specs.Words.{IsSmallInteger, literal_count};
ghost use Rattle.long_names.specs.Heap.{Has, add_object, object_count};
ghost use Rattle.long_names.specs.Kept.{kept, no_roots};
ghost use Rattle.long_names.specs.Names.{IsLongName};
ghost use Rattle.long_names.specs.declared.limits.TheConstants.{LAST_NAME, MOST_FIELDS};
ghost use Rattle.long_names.specs.State.{object_at, class_at, part_at, name_at, set_register, IsRef};
ghost use Rattle.long_names.specs.declared.value.Value.TheVariants.{Ref};
ghost use Rattle.long_names.specs.declared.object.Object.{Object};
ghost use Rattle.object_memory.specs.Told.{IsReady, is_root};
ghost use Rattle.object_memory.specs.Contract.{MayDo, Accessed, Called, Follows, IsLater, Settles, Thins};
ghost use Rattle.object_memory.specs.Records.{AreWhole, heap_of_recs, recs_of};
ghost use Rattle.object_memory.specs.Plain.{plain_told, fresh, refused, made, IsPlainFit, StaysPlainFit};
ghost use Rattle.object_memory.specs.declared.fault.MemFault.TheVariants.{NamesSpent, Memory};

mod counts;
mod kept;
mod marks;
mod objects;
mod registers;
mod slots;

use crate::fault::MemFault;
use crate::memory::ObjectMemory;
use crate::plain::counts::Counts;
use crate::plain::kept::{into_recs, keep};
use crate::plain::marks::Marks;
use crate::plain::objects::Objects;
use crate::plain::registers::Registers;
use crate::plain::slots::Slots;
use crate::reg::Reg;
use long_names::{Body, Kind, LAST_NAME, Name, Object, Octets, RecList, Value};
use std::alloc::{AllocError, Global};

/// A memory that is one map of long names. It frees nothing, so its heap is always the one that the calls make.
#[derive(Drop)]
pub struct PlainMemory {
    alloc: Global,
    objects: Objects,
    registers: Registers,
    slots: Slots,
    marks: Marks,
    transcript: Octets,
    refusals: u64,
    last: Option<MemFault>,
}

impl PlainMemory {
    /// The memory of the objects of records. Every register holds 0. The records' counts are not read.
    pub fn from_recs(alloc: Global, recs: &RecList, next: u32) -> Result<PlainMemory, AllocError>
        requires { AreWhole recs.now next }
        ensures told { IfOk result (λ memory. plain_told memory ≡ fresh (heap_of_recs recs.now next)) }
        ensures ready { IfOk result (λ memory. IsReady (plain_told memory)) }
    {
        Ok(PlainMemory {
            alloc,
            objects: Objects::from_recs(alloc, recs, next)?,
            registers: Registers::new(),
            slots: Slots::new(),
            marks: Marks::new(alloc),
            transcript: Octets::new(alloc),
            refusals: 0,
            last: None,
        })
    }

    /// The bytes that were said.
    pub fn transcript(&self) -> &[u8]
        ensures { result.now ≡ (plain_told self.now).transcript }
    {
        self.transcript.bytes()
    }

    /// The name that the next new object takes.
    pub fn next(&self) -> u32
        ensures value { result ≡ (plain_told self.now).heap.next }
        ensures even { result % 2 ≡ 0 }
    {
        self.objects.next()
    }

    /// The name in a register that holds one.
    pub fn name(&self, r: Reg) -> Option<Name>
        ensures { result ≡ name_of ((plain_told self.now).regs r) }
    {
        self.registers.get(r).name()
    }

    /// Puts a name into a register. Before another call the memory has to have its object.
    pub fn put_name(&mut self, to: Reg, name: Name)
        ensures told { plain_told self.new ≡ record (plain_told self.old) { regs = set_register (plain_told self.old).regs to (Ref name) } }
        ensures ready { IsReady (plain_told self.old) → Has (plain_told self.old).heap name → IsReady (plain_told self.new) }
    {
        self.registers.set(to, Value::Ref(name));
    }

    /// Whether the lookup path is whole: no mark was taken away since it began.
    pub fn path(&self) -> bool
        ensures { result ≡ (plain_told self.now).cache.path }
    {
        self.marks.path
    }

    /// The records of the kept objects, by rising name, with exact counts: what is left where no register and no slot holds anything. A
    /// cycle that nothing else holds is kept.
    pub fn kept_recs(&self, alloc: Global) -> Result<RecList, AllocError>
        ensures recs { IfOk result (λ recs. recs ≡ recs_of (kept (plain_told self.now).heap no_roots)) }
        ensures records { IfOk result (All IsRecord) }
    {
        let mut heap = self.objects.copied()?;
        let counts = keep(alloc, &mut heap, Counts::new(alloc))?;
        into_recs(alloc, heap, &counts)
    }

    /// How many objects are kept with the registers and slots as roots.
    pub fn kept_count(&self) -> Result<u32, AllocError>
        ensures kept { IfOk result (λ n. n ≡ object_count (kept (plain_told self.now).heap (is_root (plain_told self.now)))) }
        ensures below { IfOk result (λ n. n < LAST_NAME + 1) }
    {
        let mut roots = Counts::new(self.alloc);
        self.registers.count(&mut roots)?;
        self.slots.count(&mut roots)?;
        let mut heap = self.objects.copied()?;
        keep(self.alloc, &mut heap, roots)?;
        Ok(heap.count())
    }

    /// The object that a register names.
    fn object(&self, of: Reg) -> &Object
        requires { IsSome (object_at (plain_told self.now).heap ((plain_told self.now).regs of)) }
        ensures at { object_at (plain_told self.now).heap ((plain_told self.now).regs of) ≡ Some result.now }
        ensures object { IsObject result.now }
    {
        let Some(name) = self.registers.get(of).name() else {
            unreachable!()
        };
        let Some(object) = self.objects.get(name) else {
            unreachable!()
        };
        object
    }

    /// The class of a register's value.
    fn class_of(&self, of: Reg) -> Name
        requires { IsSome (class_at (plain_told self.now).heap ((plain_told self.now).regs of)) }
        ensures value { class_at (plain_told self.now).heap ((plain_told self.now).regs of) ≡ Some result }
        ensures name { IsLongName result }
    {
        match self.registers.get(of) {
            Value::Int(_) => Name::SMALL_INTEGER,
            Value::Ref(_) => self.object(of).class,
        }
    }

    /// Counts a refusal and says why it was.
    fn refuse(&mut self, fault: MemFault) -> MemFault
        ensures result { result ≡ fault }
        ensures refused { plain_told self.new ≡ refused (plain_told self.old) fault }
        ensures later { (plain_told self.old).refusals ≤ (plain_told self.new).refusals }
    {
        self.refusals = self.refusals.saturating_add(1);
        self.last = Some(fault);
        fault
    }

    /// Puts a new object under the next name, and the name into a register.
    fn make(&mut self, to: Reg, class: Reg, body: Result<Body, AllocError>) -> Result<(), MemFault>
        requires ready { IsReady (plain_told self.old) }
        requires class { IsRef ((plain_told self.old).regs class) }
        requires body { IfOk body IsBody }
        requires range { IfOk body HasRange }
        ensures room { OnOk result ((plain_told self.old).heap.next < LAST_NAME) }
        ensures made { OnOk result (IsOkAnd body (λ b. plain_told self.new ≡ made (plain_told self.old) to (record { class = name_at ((plain_told self.old).regs class); body = b }))) }
        ensures refused { IfErr result (λ f. plain_told self.new ≡ refused (plain_told self.old) f) }
        ensures cause { IfErr result (λ f. (f ≡ NamesSpent × LAST_NAME ≤ (plain_told self.old).heap.next) ⊎ (f ≡ Memory × (plain_told self.old).heap.next < LAST_NAME)) }
        ensures later { (plain_told self.old).refusals ≤ (plain_told self.new).refusals }
    {
        let next = self.objects.next();
        if next >= LAST_NAME {
            return Err(self.refuse(MemFault::NamesSpent));
        }
        let class = self.registers.name(class);
        let (Ok(body), Some(name)) = (body, Name::new(next)) else {
            return Err(self.refuse(MemFault::Memory));
        };
        match self.objects.add(Object { class, body }) {
            Ok(()) => {
                self.registers.set(to, Value::Ref(name));
                Ok(())
            }
            Err(_) => Err(self.refuse(MemFault::Memory)),
        }
    }
}

impl ObjectMemory for PlainMemory {
    ghost use Rattle.object_memory.specs.Plain.{plain_told};

    ghost told = { plain_told };

    ghost sound = { λ _. Unit {0} };

    ghost lender = { λ _. 0 };

    ghost Outside = { Unit {0} };

    ghost outside = { λ _. tt };

    fn int(&mut self, to: Reg, v: i16) {
        self.registers.set(to, Value::Int(v));
    }

    fn copy(&mut self, to: Reg, from: Reg) {
        let value = self.registers.get(from);
        self.registers.set(to, value);
    }

    fn known(&mut self, to: Reg, name: Name) -> Result<(), MemFault> {
        self.registers.set(to, Value::Ref(name));
        Ok(())
    }

    fn is(&self, r: Reg, name: Name) -> bool {
        self.registers.get(r) == Value::Ref(name)
    }

    fn same(&self, a: Reg, b: Reg) -> bool {
        self.registers.get(a) == self.registers.get(b)
    }

    fn as_int(&self, r: Reg) -> Option<i16> {
        self.registers.get(r).number()
    }

    fn hash(&self, r: Reg) -> u32 {
        self.registers.name(r).index()
    }

    fn next_name(&self) -> u32 {
        self.objects.next()
    }

    fn is_pinned(&self, r: Reg) -> bool {
        self.slots.has(self.registers.name(r))
    }

    fn class(&mut self, to: Reg, of: Reg) -> Result<(), MemFault> {
        let class = self.class_of(of);
        self.registers.set(to, Value::Ref(class));
        Ok(())
    }

    fn kind(&mut self, of: Reg) -> Result<Kind, MemFault>
        requires fit { IsPlainFit self.old }
        requires may { MayDo (plain_told self.old) (KindOf of) }
        ensures access { Accessed (plain_told self.old) (plain_told self.new) (KindOf of) OfKind result }
        ensures fit { StaysPlainFit self.old self.new result }
        ensures answered { IsOk result }
        ensures kept { plain_told self.new ≡ plain_told self.old }
    {
        Ok(self.object(of).body.kind())
    }

    fn len(&mut self, of: Reg) -> Result<u32, MemFault>
        requires fit { IsPlainFit self.old }
        requires may { MayDo (plain_told self.old) (Length of) }
        ensures access { Accessed (plain_told self.old) (plain_told self.new) (Length of) OfNumber result }
        ensures bound { IfOk result (λ n. n < MOST_FIELDS + 1) }
        ensures fit { StaysPlainFit self.old self.new result }
        ensures answered { IsOk result }
        ensures kept { plain_told self.new ≡ plain_told self.old }
    {
        Ok(self.object(of).body.len() as u32)
    }

    fn field_count(&self, of: Reg) -> Option<u32> {
        // whoever wants it asks `kind` and `len`
        None
    }

    fn header(&mut self, of: Reg) -> Result<i16, MemFault>
        requires fit { IsPlainFit self.old }
        requires may { MayDo (plain_told self.old) (Header of) }
        ensures access { Accessed (plain_told self.old) (plain_told self.new) (Header of) OfSigned result }
        ensures range { IfOk result IsSmallInteger }
        ensures literals { IfOk result (λ header. IsTrue (plain_told self.old).tells → part_at (plain_told self.old).heap ((plain_told self.old).regs of) (λ b. Some (length (fields_of b))) ≡ Some (literal_count header)) }
        ensures fit { StaysPlainFit self.old self.new result }
        ensures answered { IsOk result }
        ensures kept { plain_told self.new ≡ plain_told self.old }
    {
        Ok(self.object(of).body.header())
    }

    fn field(&mut self, to: Reg, of: Reg, i: u32) -> Result<(), MemFault> {
        let value = self.object(of).body.field(i as usize);
        self.registers.set(to, value);
        Ok(())
    }

    fn set_field(&mut self, of: Reg, i: u32, from: Reg) -> Result<(), MemFault> {
        let name = self.registers.name(of);
        let value = self.registers.get(from);
        self.objects.set_field(name, i as usize, value);
        self.marks.touch(name);
        Ok(())
    }

    fn word(&mut self, of: Reg, i: u32) -> Result<u16, MemFault> {
        let words = self.object(of).body.words();
        Ok(*words.item(i as usize))
    }

    fn set_word(&mut self, of: Reg, i: u32, w: u16) -> Result<(), MemFault> {
        let name = self.registers.name(of);
        self.objects.put_words(name, i as usize, &[w]);
        self.marks.touch(name);
        Ok(())
    }

    fn byte(&mut self, of: Reg, i: u32) -> Result<u8, MemFault> {
        let bytes = self.object(of).body.bytes();
        Ok(*bytes.item(i as usize))
    }

    fn code_byte(&self, of: Reg, place: u32) -> Option<u8> {
        // whoever wants it asks `byte`
        None
    }

    fn set_byte(&mut self, of: Reg, i: u32, b: u8) -> Result<(), MemFault> {
        let name = self.registers.name(of);
        self.objects.put_bytes(name, i as usize, &[b]);
        self.marks.touch(name);
        Ok(())
    }

    fn read_words(&mut self, of: Reg, at: u32, out: &mut [u16]) -> Result<(), MemFault> {
        let words = self.object(of).body.words().words();
        let at = at as usize;
        out.copy_from_slice(&words[at..at + out.len()]);
        Ok(())
    }

    fn write_words(&mut self, of: Reg, at: u32, from: &[u16]) -> Result<(), MemFault> {
        let name = self.registers.name(of);
        self.objects.put_words(name, at as usize, from);
        self.marks.touch(name);
        Ok(())
    }

    fn read_bytes(&mut self, of: Reg, at: u32, out: &mut [u8]) -> Result<(), MemFault> {
        let bytes = self.object(of).body.bytes().bytes();
        let at = at as usize;
        out.copy_from_slice(&bytes[at..at + out.len()]);
        Ok(())
    }

    fn new_pointers(&mut self, to: Reg, class: Reg, n: u32) -> Result<(), MemFault>
        requires fit { IsPlainFit self.old }
        requires may { MayDo (plain_told self.old) (Make to class (OfPointers n)) }
        ensures access { Accessed (plain_told self.old) (plain_told self.new) (Make to class (OfPointers n)) (λ _. Nothing) result }
        ensures name { OnOk result (IsRef ((plain_told self.new).regs to)) }
        ensures fit { StaysPlainFit self.old self.new result }
        ensures kept { IfErr result (λ f. plain_told self.new ≡ refused (plain_told self.old) f) }
    {
        let body = Body::new_pointers(self.alloc, n as usize);
        self.make(to, class, body)
    }

    fn new_words(&mut self, to: Reg, class: Reg, n: u32) -> Result<(), MemFault>
        requires fit { IsPlainFit self.old }
        requires may { MayDo (plain_told self.old) (Make to class (OfWords n)) }
        ensures access { Accessed (plain_told self.old) (plain_told self.new) (Make to class (OfWords n)) (λ _. Nothing) result }
        ensures name { OnOk result (IsRef ((plain_told self.new).regs to)) }
        ensures fit { StaysPlainFit self.old self.new result }
        ensures kept { IfErr result (λ f. plain_told self.new ≡ refused (plain_told self.old) f) }
    {
        let body = Body::new_words(self.alloc, n as usize);
        self.make(to, class, body)
    }

    fn new_bytes(&mut self, to: Reg, class: Reg, n: u32) -> Result<(), MemFault>
        requires fit { IsPlainFit self.old }
        requires may { MayDo (plain_told self.old) (Make to class (OfBytes n)) }
        ensures access { Accessed (plain_told self.old) (plain_told self.new) (Make to class (OfBytes n)) (λ _. Nothing) result }
        ensures name { OnOk result (IsRef ((plain_told self.new).regs to)) }
        ensures fit { StaysPlainFit self.old self.new result }
        ensures kept { IfErr result (λ f. plain_told self.new ≡ refused (plain_told self.old) f) }
    {
        let body = Body::new_bytes(self.alloc, n as usize);
        self.make(to, class, body)
    }

    fn new_method(&mut self, to: Reg, class: Reg, header: i16, code: u32) -> Result<(), MemFault>
        requires fit { IsPlainFit self.old }
        requires may { MayDo (plain_told self.old) (Make to class (OfMethod header code)) }
        ensures access { Accessed (plain_told self.old) (plain_told self.new) (Make to class (OfMethod header code)) (λ _. Nothing) result }
        ensures name { OnOk result (IsRef ((plain_told self.new).regs to)) }
        ensures fit { StaysPlainFit self.old self.new result }
        ensures kept { IfErr result (λ f. plain_told self.new ≡ refused (plain_told self.old) f) }
    {
        let body = Body::new_method(self.alloc, header, code as usize);
        self.make(to, class, body)
    }

    fn swap(&mut self, a: Reg, b: Reg) -> Result<(), MemFault> {
        let first = self.registers.name(a);
        let second = self.registers.name(b);
        self.objects.swap(self.alloc, first, second);
        self.marks.touch(first);
        self.marks.touch(second);
        Ok(())
    }

    fn pin(&mut self, slot: u8, r: Reg) -> Result<(), MemFault> {
        let name = self.registers.name(r);
        self.slots.set(slot, Some(name));
        Ok(())
    }

    fn unpin(&mut self, slot: u8) {
        self.slots.set(slot, None);
    }

    fn begin_path(&mut self) {
        self.marks.begin_path();
    }

    fn mark(&mut self, r: Reg) -> Result<(), MemFault>
        requires fit { IsPlainFit self.old }
        requires may { MayDo (plain_told self.old) (Mark r) }
        ensures access { Accessed (plain_told self.old) (plain_told self.new) (Mark r) (λ _. Nothing) result }
        ensures marked { OnOk result ((plain_told self.new).cache.marks (name_at ((plain_told self.old).regs r)) ≡ true) }
        ensures fit { StaysPlainFit self.old self.new result }
        ensures kept { IfErr result (λ f. plain_told self.new ≡ refused (plain_told self.old) f) }
    {
        let name = self.registers.name(r);
        match self.marks.add(name) {
            Ok(()) => Ok(()),
            Err(_) => Err(self.refuse(MemFault::Memory)),
        }
    }

    fn cache_find(&mut self, to: Reg, class: Reg, selector: Reg) -> bool {
        false
    }

    fn cache_put(&mut self, class: Reg, selector: Reg, method: Reg) -> bool {
        false
    }

    fn say(&mut self, of: Reg) -> Result<(), MemFault>
        requires fit { IsPlainFit self.old }
        requires may { MayDo (plain_told self.old) (Say of) }
        ensures access { Accessed (plain_told self.old) (plain_told self.new) (Say of) (λ _. Nothing) result }
        ensures fit { StaysPlainFit self.old self.new result }
        ensures kept { IfErr result (λ f. plain_told self.new ≡ refused (plain_told self.old) f) }
    {
        let Some(object) = self.objects.get(self.registers.name(of)) else {
            unreachable!()
        };
        match self.transcript.extend(object.body.text().bytes()) {
            Ok(()) => Ok(()),
            Err(_) => Err(self.refuse(MemFault::Memory)),
        }
    }

    fn settle(&mut self) -> Result<(), MemFault>
        requires fit { IsPlainFit self.old }
        ensures called { Called (plain_told self.old) (plain_told self.new) Settles result }
        ensures fit { StaysPlainFit self.old self.new result }
        ensures answered { IsOk result }
        ensures kept { plain_told self.new ≡ plain_told self.old }
    {
        // Nothing is freed, and no making is counted.
        Ok(())
    }

    fn purge_all(&mut self) -> Result<(), MemFault>
        requires fit { IsPlainFit self.old }
        ensures called { Called (plain_told self.old) (plain_told self.new) Thins result }
        ensures fit { StaysPlainFit self.old self.new result }
        ensures answered { IsOk result }
        ensures kept { plain_told self.new ≡ plain_told self.old }
    {
        Ok(())
    }

    fn compact(&mut self)
        requires fit { IsPlainFit self.old }
        ensures later { IsLater (plain_told self.old) (plain_told self.new) }
        ensures follows { Follows (plain_told self.old) (plain_told self.new) Thins }
        ensures fit { StaysPlainFit self.old self.new (Ok result) }
        ensures kept { plain_told self.new ≡ plain_told self.old }
    {}
}
