// The trait of an object memory (chapter 30 of the Blue Book, the object memory interface; the LOOM paper).
ghost use Rattle.std.specs.Prelude.{◌≡◌, ◌/◌, ◌+◌, ◌<◌, ◌↔◌, ℕ};

use crate::fault::MemFault;
use crate::reg::Reg;
use long_names::{Kind, MACHINE_REGISTERS, Name, REGISTERS};

/// A memory of objects under long names, which are reached through 24 registers and 3 slots for pinned objects. What it keeps of
/// its own is `sound`; what it stands for is `told`.
pub trait ObjectMemory {
    ghost use Rattle.std.specs.Prelude.{MatchBool, IfOk, IfSome, IsSome, OnOk, IsTrue, true, Some, None, Ok, length};
    ghost use Rattle.long_names.specs.Names.{SMALL_INTEGER};
    ghost use Rattle.long_names.specs.Words.{IsSmallInteger, literal_count};
    ghost use Rattle.long_names.specs.declared.limits.TheConstants.{MOST_FIELDS};
    ghost use Rattle.long_names.specs.Objects.{is_ref, int_of, fields_of, OfPointers, OfWords, OfBytes, OfMethod};
    ghost use Rattle.long_names.specs.Access.{Known, Class, KindOf, Length, Header, Field, SetField, Word, SetWord, Byte, SetByte, ReadWords, WriteWords, ReadBytes, Make, Pin, Mark, Say, Swap, Nothing, OfKind, OfNumber, OfSigned, OfRun};
    ghost use Rattle.long_names.specs.State.{set_register, set_slot, name_at, part_at, IsRef};
    ghost use Rattle.long_names.specs.declared.value.Value.TheVariants.{Int, Ref};
    ghost use Rattle.object_memory.specs.Told.{Told, has_slot, scratch_cleared};
    ghost use Rattle.object_memory.specs.Shape.{code_at, field_count, number_in, IsPartAt};
    ghost use Rattle.object_memory.specs.Contract.{MayDo, Accessed, Called, Follows, IsLater, Settles, Thins, is_marked, IsFound, IsUnknown, IsPut};
    ghost use Rattle.object_memory.specs.Fit.{MayCall, StaysCallable, KeepsCallable};

    /// What it tells of itself.
    ghost told: { Self → Told };

    /// What it keeps of its own.
    ghost sound: { Self → Type 0 };

    /// The name of the loan by which it holds a host, so that the owner knows the host afterwards; a constant of one without a host.
    ghost lender: { Self → ℕ };

    /// What no call changes of that host, whatever it answers: the roles that a memory has nothing to do with. One without a host
    /// has nothing there.
    ghost Outside: { Type 0 };

    ghost outside: { Self → Outside };

    /// The register holds this number, from -16384 to 16383 (integerObjectOf:).
    fn int(&mut self, to: Reg, v: i16)
        requires sound { sound self.old }
        requires range { IsSmallInteger v }
        ensures told { told self.new ≡ record (told self.old) { regs = set_register (told self.old).regs to (Int v) } }
        ensures fit { KeepsCallable sound told lender outside self.old self.new };

    /// The register is copied.
    fn copy(&mut self, to: Reg, from: Reg)
        requires { sound self.old }
        ensures told { told self.new ≡ record (told self.old) { regs = set_register (told self.old).regs to ((told self.old).regs from) } }
        ensures fit { KeepsCallable sound told lender outside self.old self.new };

    /// The scratch registers, from 10 on, hold 0: what so many calls of `int` do.
    fn clear_scratch(&mut self)
        requires sound { sound self.old }
        ensures regs { (r : ℕ) → (told self.new).regs r ≡ scratch_cleared (told self.old).regs r }
        ensures rest { told self.new ≡ record (told self.old) { regs = (told self.new).regs } }
        ensures fit { KeepsCallable sound told lender outside self.old self.new }
    {
        for r in MACHINE_REGISTERS as u8..REGISTERS as u8 {
            self.int(Reg::new(r), 0);
        }
    }

    /// The register holds the name of an object that is known, or that a word of the heap holds.
    fn known(&mut self, to: Reg, name: Name) -> Result<(), MemFault>
        requires fit { MayCall sound told self.old }
        requires may { MayDo (told self.old) (Known to name) }
        ensures access { Accessed (told self.old) (told self.new) (Known to name) (λ _. Nothing) result }
        ensures name { OnOk result ((told self.new).regs to ≡ Ref name) }
        ensures fit { StaysCallable sound told lender outside self.old self.new result };

    /// Whether the register holds this name.
    fn is(&self, r: Reg, name: Name) -> bool
        requires { sound self.now }
        ensures { result ≡ is_ref name ((told self.now).regs r) };

    /// Whether two registers hold equal values.
    fn same(&self, a: Reg, b: Reg) -> bool
        requires { sound self.now }
        ensures { IsTrue result ↔ ((told self.now).regs a ≡ (told self.now).regs b) };

    /// The number in the register (isIntegerObject:, integerValueOf:). None exactly where it holds a name.
    fn as_int(&self, r: Reg) -> Option<i16>
        requires { sound self.now }
        ensures number { result ≡ int_of ((told self.now).regs r) }
        ensures range { IfSome result IsSmallInteger };

    /// The index of the name in the register.
    fn hash(&self, r: Reg) -> u32
        requires sound { sound self.now }
        requires name { IsRef ((told self.now).regs r) }
        ensures { result ≡ name_at ((told self.now).regs r) / 2 };

    /// The name that the next new object takes. From 4,294,967,294 on there is none for it.
    fn next_name(&self) -> u32
        requires { sound self.now }
        ensures { IsTrue (told self.now).tells → result ≡ (told self.now).heap.next };

    /// Whether a slot has the name in the register.
    fn is_pinned(&self, r: Reg) -> bool
        requires sound { sound self.now }
        requires name { IsRef ((told self.now).regs r) }
        ensures { result ≡ has_slot (told self.now).slots (name_at ((told self.now).regs r)) };

    /// The class; SmallInteger for a number (fetchClassOf:).
    fn class(&mut self, to: Reg, of: Reg) -> Result<(), MemFault>
        requires fit { MayCall sound told self.old }
        requires may { MayDo (told self.old) (Class to of) }
        ensures access { Accessed (told self.old) (told self.new) (Class to of) (λ _. Nothing) result }
        ensures name { OnOk result (IsRef ((told self.new).regs to)) }
        ensures number { OnOk result (IsSome (int_of ((told self.old).regs of)) → (told self.new).regs to ≡ Ref SMALL_INTEGER) }
        ensures fit { StaysCallable sound told lender outside self.old self.new result };

    /// The kind of the object.
    fn kind(&mut self, of: Reg) -> Result<Kind, MemFault>
        requires fit { MayCall sound told self.old }
        requires may { MayDo (told self.old) (KindOf of) }
        ensures access { Accessed (told self.old) (told self.new) (KindOf of) OfKind result }
        ensures fit { StaysCallable sound told lender outside self.old self.new result };

    /// How many values, words or bytes it has, or code bytes of a method (fetchWordLengthOf:, fetchByteLengthOf:).
    fn len(&mut self, of: Reg) -> Result<u32, MemFault>
        requires fit { MayCall sound told self.old }
        requires may { MayDo (told self.old) (Length of) }
        ensures access { Accessed (told self.old) (told self.new) (Length of) OfNumber result }
        ensures bound { IfOk result (λ n. n < MOST_FIELDS + 1) }
        ensures fit { StaysCallable sound told lender outside self.old self.new result };

    /// How many values an object of pointers has, where it is at hand. No object comes in for it. None says nothing.
    fn field_count(&self, of: Reg) -> Option<u32>
        requires { sound self.now }
        ensures fields { IfSome result (λ n. IsPartAt (told self.now) of field_count (Some n)) }
        ensures bound { IfSome result (λ n. n < MOST_FIELDS + 1) };

    /// A method's header. The method has as many literals as it says.
    fn header(&mut self, of: Reg) -> Result<i16, MemFault>
        requires fit { MayCall sound told self.old }
        requires may { MayDo (told self.old) (Header of) }
        ensures access { Accessed (told self.old) (told self.new) (Header of) OfSigned result }
        ensures range { IfOk result IsSmallInteger }
        ensures literals { IfOk result (λ header. IsTrue (told self.old).tells → part_at (told self.old).heap ((told self.old).regs of) (λ b. Some (length (fields_of b))) ≡ Some (literal_count header)) }
        ensures fit { StaysCallable sound told lender outside self.old self.new result };

    /// Value or literal i.
    fn field(&mut self, to: Reg, of: Reg, i: u32) -> Result<(), MemFault>
        requires fit { MayCall sound told self.old }
        requires may { MayDo (told self.old) (Field to of i) }
        ensures access { Accessed (told self.old) (told self.new) (Field to of i) (λ _. Nothing) result }
        ensures fit { StaysCallable sound told lender outside self.old self.new result };

    /// The number that value i of an object of pointers is, where the object is at hand. No object comes in for it, and no register is
    /// filled. None says nothing.
    fn number_at(&self, of: Reg, i: u32) -> Option<i16>
        requires { sound self.now }
        ensures number { IfSome result (λ n. IsPartAt (told self.now) of (number_in i) (Some n)) }
        ensures range { IfSome result IsSmallInteger }
    {
        // whoever wants it asks `field` and `as_int`
        None
    }

    /// Stores value or literal i.
    fn set_field(&mut self, of: Reg, i: u32, from: Reg) -> Result<(), MemFault>
        requires fit { MayCall sound told self.old }
        requires may { MayDo (told self.old) (SetField of i from) }
        ensures access { Accessed (told self.old) (told self.new) (SetField of i from) (λ _. Nothing) result }
        ensures fit { StaysCallable sound told lender outside self.old self.new result };

    /// Word i of an object of words.
    fn word(&mut self, of: Reg, i: u32) -> Result<u16, MemFault>
        requires fit { MayCall sound told self.old }
        requires may { MayDo (told self.old) (Word of i) }
        ensures access { Accessed (told self.old) (told self.new) (Word of i) OfNumber result }
        ensures fit { StaysCallable sound told lender outside self.old self.new result };

    /// Stores word i (storeWord:ofObject:withValue:).
    fn set_word(&mut self, of: Reg, i: u32, w: u16) -> Result<(), MemFault>
        requires fit { MayCall sound told self.old }
        requires may { MayDo (told self.old) (SetWord of i w) }
        ensures access { Accessed (told self.old) (told self.new) (SetWord of i w) (λ _. Nothing) result }
        ensures fit { StaysCallable sound told lender outside self.old self.new result };

    /// Byte i, of code too.
    fn byte(&mut self, of: Reg, i: u32) -> Result<u8, MemFault>
        requires fit { MayCall sound told self.old }
        requires may { MayDo (told self.old) (Byte of i) }
        ensures access { Accessed (told self.old) (told self.new) (Byte of i) OfNumber result }
        ensures fit { StaysCallable sound told lender outside self.old self.new result };

    /// The byte of a method at a place that counts in bytes from its header on, as an instruction pointer does, where the method is at
    /// hand. No object comes in for it. None says nothing.
    fn code_byte(&self, of: Reg, place: u32) -> Option<u8>
        requires { sound self.now }
        ensures { IfSome result (λ byte. IsTrue (told self.now).tells → part_at (told self.now).heap ((told self.now).regs of) (code_at place) ≡ Some byte) };

    /// Stores byte i, of code too (storeByte:ofObject:withValue:).
    fn set_byte(&mut self, of: Reg, i: u32, b: u8) -> Result<(), MemFault>
        requires fit { MayCall sound told self.old }
        requires may { MayDo (told self.old) (SetByte of i b) }
        ensures access { Accessed (told self.old) (told self.new) (SetByte of i b) (λ _. Nothing) result }
        ensures fit { StaysCallable sound told lender outside self.old self.new result };

    /// A run of words from a place on. An empty run needs the place to be at most the length.
    fn read_words(&mut self, of: Reg, at: u32, out: &mut [u16]) -> Result<(), MemFault>
        requires fit { MayCall sound told self.old }
        requires may { MayDo (told self.old) (ReadWords of at (length out.old)) }
        ensures access { Accessed (told self.old) (told self.new) (ReadWords of at (length out.old)) (λ _. OfRun out.new) result }
        ensures fit { StaysCallable sound told lender outside self.old self.new result };

    /// Stores a run of words from a place on, also an empty one.
    fn write_words(&mut self, of: Reg, at: u32, from: &[u16]) -> Result<(), MemFault>
        requires fit { MayCall sound told self.old }
        requires may { MayDo (told self.old) (WriteWords of at from.now) }
        ensures access { Accessed (told self.old) (told self.new) (WriteWords of at from.now) (λ _. Nothing) result }
        ensures fit { StaysCallable sound told lender outside self.old self.new result };

    /// A run of bytes from a place on, of code too, also an empty one.
    fn read_bytes(&mut self, of: Reg, at: u32, out: &mut [u8]) -> Result<(), MemFault>
        requires fit { MayCall sound told self.old }
        requires may { MayDo (told self.old) (ReadBytes of at (length out.old)) }
        ensures access { Accessed (told self.old) (told self.new) (ReadBytes of at (length out.old)) (λ _. OfRun out.new) result }
        ensures fit { StaysCallable sound told lender outside self.old self.new result };

    /// A new object of so many nils, at the next name (instantiateClass:withPointers:).
    fn new_pointers(&mut self, to: Reg, class: Reg, n: u32) -> Result<(), MemFault>
        requires fit { MayCall sound told self.old }
        requires may { MayDo (told self.old) (Make to class (OfPointers n)) }
        ensures access { Accessed (told self.old) (told self.new) (Make to class (OfPointers n)) (λ _. Nothing) result }
        ensures name { OnOk result (IsRef ((told self.new).regs to)) }
        ensures fit { StaysCallable sound told lender outside self.old self.new result };

    /// A new object of so many words that are 0 (instantiateClass:withWords:).
    fn new_words(&mut self, to: Reg, class: Reg, n: u32) -> Result<(), MemFault>
        requires fit { MayCall sound told self.old }
        requires may { MayDo (told self.old) (Make to class (OfWords n)) }
        ensures access { Accessed (told self.old) (told self.new) (Make to class (OfWords n)) (λ _. Nothing) result }
        ensures name { OnOk result (IsRef ((told self.new).regs to)) }
        ensures fit { StaysCallable sound told lender outside self.old self.new result };

    /// A new object of so many bytes that are 0 (instantiateClass:withBytes:).
    fn new_bytes(&mut self, to: Reg, class: Reg, n: u32) -> Result<(), MemFault>
        requires fit { MayCall sound told self.old }
        requires may { MayDo (told self.old) (Make to class (OfBytes n)) }
        ensures access { Accessed (told self.old) (told self.new) (Make to class (OfBytes n)) (λ _. Nothing) result }
        ensures name { OnOk result (IsRef ((told self.new).regs to)) }
        ensures fit { StaysCallable sound told lender outside self.old self.new result };

    /// A new method, of as many nils as its header says and so many code bytes that are 0.
    fn new_method(&mut self, to: Reg, class: Reg, header: i16, code: u32) -> Result<(), MemFault>
        requires fit { MayCall sound told self.old }
        requires may { MayDo (told self.old) (Make to class (OfMethod header code)) }
        ensures access { Accessed (told self.old) (told self.new) (Make to class (OfMethod header code)) (λ _. Nothing) result }
        ensures name { OnOk result (IsRef ((told self.new).regs to)) }
        ensures fit { StaysCallable sound told lender outside self.old self.new result };

    /// The objects that two registers name change places under their names, with class and body (swapPointersOf:and:). Of one name
    /// nothing changes. Neither is pinned.
    fn swap(&mut self, a: Reg, b: Reg) -> Result<(), MemFault>
        requires fit { MayCall sound told self.old }
        requires may { MayDo (told self.old) (Swap a b) }
        ensures access { Accessed (told self.old) (told self.new) (Swap a b) (λ _. Nothing) result }
        ensures fit { StaysCallable sound told lender outside self.old self.new result };

    /// The object in the register stays in the core until the slot is emptied or filled again.
    fn pin(&mut self, slot: u8, r: Reg) -> Result<(), MemFault>
        requires fit { MayCall sound told self.old }
        requires may { MayDo (told self.old) (Pin slot r) }
        requires slot { slot < 3 }
        ensures access { Accessed (told self.old) (told self.new) (Pin slot r) (λ _. Nothing) result }
        ensures fit { StaysCallable sound told lender outside self.old self.new result };

    /// Empties the slot.
    fn unpin(&mut self, slot: u8)
        requires sound { sound self.old }
        requires slot { slot < 3 }
        ensures told { told self.new ≡ record (told self.old) { slots = set_slot (told self.old).slots slot None } }
        ensures fit { KeepsCallable sound told lender outside self.old self.new };

    /// A new lookup path begins, and is whole.
    fn begin_path(&mut self)
        requires { sound self.old }
        ensures told { told self.new ≡ record (told self.old) { cache = record (told self.old).cache { path = true } } }
        ensures fit { KeepsCallable sound told lender outside self.old self.new };

    /// Marks the name in the register, as one on the lookup path.
    fn mark(&mut self, r: Reg) -> Result<(), MemFault>
        requires fit { MayCall sound told self.old }
        requires may { MayDo (told self.old) (Mark r) }
        ensures access { Accessed (told self.old) (told self.new) (Mark r) (λ _. Nothing) result }
        ensures marked { OnOk result ((told self.new).cache.marks (name_at ((told self.old).regs r)) ≡ true) }
        ensures fit { StaysCallable sound told lender outside self.old self.new result };

    /// Whether a row of the pair is cached. Its method is then in the register.
    fn cache_find(&mut self, to: Reg, class: Reg, selector: Reg) -> bool
        requires { sound self.old }
        ensures found { MatchBool result (IsFound (told self.old) (told self.new) to class selector) (IsUnknown (told self.old) (told self.new) class selector) }
        ensures fit { KeepsCallable sound told lender outside self.old self.new };

    /// Whether the row was put into the cache. Where the path is whole, the three registers hold marked names.
    fn cache_put(&mut self, class: Reg, selector: Reg, method: Reg) -> bool
        requires sound { sound self.old }
        requires class { IsTrue (told self.old).cache.path → IsTrue (is_marked (told self.old).cache ((told self.old).regs class)) }
        requires selector { IsTrue (told self.old).cache.path → IsTrue (is_marked (told self.old).cache ((told self.old).regs selector)) }
        requires method { IsTrue (told self.old).cache.path → IsTrue (is_marked (told self.old).cache ((told self.old).regs method)) }
        ensures put { MatchBool result (IsPut (told self.old) (told self.new) class selector method) (told self.new ≡ told self.old) }
        ensures fit { KeepsCallable sound told lender outside self.old self.new };

    /// The bytes of an object of bytes join the transcript.
    fn say(&mut self, of: Reg) -> Result<(), MemFault>
        requires fit { MayCall sound told self.old }
        requires may { MayDo (told self.old) (Say of) }
        ensures access { Accessed (told self.old) (told self.new) (Say of) (λ _. Nothing) result }
        ensures fit { StaysCallable sound told lender outside self.old self.new result };

    /// The end of a bytecode. What nothing holds any more may go.
    fn settle(&mut self) -> Result<(), MemFault>
        requires fit { MayCall sound told self.old }
        ensures called { Called (told self.old) (told self.new) Settles result }
        ensures fit { StaysCallable sound told lender outside self.old self.new result };

    /// Every object that no slot names leaves the core.
    fn purge_all(&mut self) -> Result<(), MemFault>
        requires fit { MayCall sound told self.old }
        ensures called { Called (told self.old) (told self.new) Thins result }
        ensures fit { StaysCallable sound told lender outside self.old self.new result };

    /// The free words of the core become one piece.
    fn compact(&mut self)
        requires fit { MayCall sound told self.old }
        ensures later { IsLater (told self.old) (told self.new) }
        ensures follows { Follows (told self.old) (told self.new) Thins }
        ensures fit { StaysCallable sound told lender outside self.old self.new (Ok result) };
}
