// What an object is, and its words and bytes.
ghost use Rattle.std.specs.Prelude.{◌≡◌, ◌+◌, ◌<◌, ◌⊎◌, ℕ, Some, None, true, false, IsTrue, IfSome, IfNone, IfOk, OnOk, length};
ghost use Rattle.long_names.specs.declared.limits.TheConstants.{MOST_FIELDS};
ghost use Rattle.object_table.specs.Entries.{is_used};
ghost use Rattle.purger.specs.declared.eviction.TheConstants.{NOWHERE};

use crate::bodies::{
    byte_at, bytes_into, code_byte_at, field_count_at, header_at, word_at, words_into,
};
use crate::memory::LoomMemory;
use leaf_lambda::fields::is_name;
use long_names::Kind;
use loom_host::Host;
use object_memory::{MemFault, Reg};
use object_table::Short;

impl<'h, H: Host> LoomMemory<'h, H> {
    ghost use Rattle.loom_memory.specs.Effects.{LeavesRefused};
    ghost use Rattle.object_memory.specs.Fit.{MayCall, StaysCallable};
    ghost use Rattle.long_names.specs.Words.{IsSmallInteger, literal_count};
    ghost use Rattle.long_names.specs.Objects.{fields_of};
    ghost use Rattle.long_names.specs.State.{name_at, part_at, IsRef};
    ghost use Rattle.long_names.specs.Access.{Access, Class, KindOf, Length, Header, Word, Byte, ReadWords, ReadBytes, OfKind, OfNumber, OfSigned, OfRun, Nothing};
    ghost use Rattle.object_memory.specs.Told.{Told, IsReady};
    ghost use Rattle.object_memory.specs.Shape.{code_at, field_count, IsPartAt};
    ghost use Rattle.object_memory.specs.Contract.{Accessed, LeavesAll, MayDo, makes};
    ghost use Rattle.loom_memory.specs.Memory.{loom_told, loom_outside, loom_lender, loom_core, IsSound, IsSilent, IsRefused};
    ghost use Rattle.loom_memory.specs.Gentle.{IsQuiet};
    ghost use Rattle.loom_memory.specs.Residents.{fetched, is_resident};
    ghost use Rattle.loom_memory.specs.Own.{BringsOne, IsSparing};
    ghost use Rattle.loom_memory.specs.Damage.{IsDamaged};
    ghost use Rattle.loom_memory.specs.Freed.{IsFreedBy, IsFreedFor};

    // Refuses: the object of an entry hasn't what an access asks for. Where the heap is told that can't be.
    #[cold]
    #[inline(never)]
    pub(crate) fn amiss(&mut self, s: Short) -> MemFault
        requires sound { IsSound H.Host self.old }
        requires used { is_used ((loom_core self.old).entries s.0).state ≡ true }
        ensures is { result ≡ MemFault.Damaged NOWHERE ((loom_core self.old).entries s.0).name }
        ensures leaves { LeavesRefused H.Host self.old self.new result }
        ensures err { (t : Told) (a : Access) → IsQuiet t (loom_told H.Host self.old) → IsReady t → IsSilent a → makes a ≡ 0 → (IsTrue t.tells → ⊥) → IsRefused t (loom_told H.Host self.new) a result }
    {
        let name = self.pager.levels.parts.names.table.used_entry(s).name;
        self.wrong(name)
    }

    // The class of an object comes into a register.
    pub(crate) fn class_of_object(&mut self, to: Reg, of: Reg) -> Result<(), MemFault>
        requires fit { MayCall (IsSound H.Host) (loom_told H.Host) self.old }
        requires may { MayDo (loom_told H.Host self.old) (Class to of) }
        requires object { IsRef ((loom_told H.Host self.old).regs of) }
        ensures access { Accessed (loom_told H.Host self.old) (loom_told H.Host self.new) (Class to of) (λ _. Nothing) result }
        ensures name { OnOk result (IsRef ((loom_told H.Host self.new).regs to)) }
        ensures own { IsSparing H.Host self.old self.new (name_at ((loom_told H.Host self.old).regs of)) result }
        ensures gone { OnOk result (IsFreedBy H.Host self.old self.new (name_at ((loom_told H.Host self.old).regs of)) (Class to of)) }
        ensures damage { IsDamaged self.old self.new (name_at ((loom_told H.Host self.old).regs of)) result }
        ensures brings { BringsOne self.old self.new (is_resident self.old (name_at ((loom_told H.Host self.old).regs of)) ≡ false) }
        ensures fit { StaysCallable (IsSound H.Host) (loom_told H.Host) loom_lender (loom_outside H.Host) self.old self.new result }
    {
        match self.load(of) {
            Ok(s) => {
                let e = self.pager.levels.parts.names.table.used_entry(s);
                self.put_word(to, e.class.0);
                Ok(())
            }
            Err(f) => Err(f),
        }
    }

    /// The kind of the object.
    #[inline(always)]
    pub fn kind(&mut self, of: Reg) -> Result<Kind, MemFault>
        requires fit { MayCall (IsSound H.Host) (loom_told H.Host) self.old }
        requires may { MayDo (loom_told H.Host self.old) (KindOf of) }
        ensures access { Accessed (loom_told H.Host self.old) (loom_told H.Host self.new) (KindOf of) OfKind result }
        ensures own { IsSparing H.Host self.old self.new (name_at ((loom_told H.Host self.old).regs of)) result }
        ensures gone { OnOk result (IsFreedFor H.Host self.old self.new (name_at ((loom_told H.Host self.old).regs of))) }
        ensures damage { IsDamaged self.old self.new (name_at ((loom_told H.Host self.old).regs of)) result }
        ensures brings { BringsOne self.old self.new (is_resident self.old (name_at ((loom_told H.Host self.old).regs of)) ≡ false) }
        ensures fit { StaysCallable (IsSound H.Host) (loom_told H.Host) loom_lender (loom_outside H.Host) self.old self.new result }
    {
        match self.load(of) {
            Ok(s) => Ok(self.pager.levels.parts.names.table.used_entry(s).kind),
            Err(f) => Err(f),
        }
    }

    /// How many values, words or bytes it has, or code bytes of a method (fetchWordLengthOf:, fetchByteLengthOf:).
    #[inline(always)]
    pub fn len(&mut self, of: Reg) -> Result<u32, MemFault>
        requires fit { MayCall (IsSound H.Host) (loom_told H.Host) self.old }
        requires may { MayDo (loom_told H.Host self.old) (Length of) }
        ensures access { Accessed (loom_told H.Host self.old) (loom_told H.Host self.new) (Length of) OfNumber result }
        ensures bound { IfOk result (λ n. n < MOST_FIELDS + 1) }
        ensures own { IsSparing H.Host self.old self.new (name_at ((loom_told H.Host self.old).regs of)) result }
        ensures gone { OnOk result (IsFreedFor H.Host self.old self.new (name_at ((loom_told H.Host self.old).regs of))) }
        ensures damage { IsDamaged self.old self.new (name_at ((loom_told H.Host self.old).regs of)) result }
        ensures brings { BringsOne self.old self.new (is_resident self.old (name_at ((loom_told H.Host self.old).regs of)) ≡ false) }
        ensures fit { StaysCallable (IsSound H.Host) (loom_told H.Host) loom_lender (loom_outside H.Host) self.old self.new result }
    {
        match self.load(of) {
            Ok(s) => Ok(self.pager.levels.parts.names.table.used_entry(s).len),
            Err(f) => Err(f),
        }
    }

    /// How many values an object of pointers has, where it is in the core. None else, and where it is of another kind.
    #[inline(always)]
    pub fn field_count(&self, of: Reg) -> Option<u32>
        requires { IsSound H.Host self.now }
        ensures fields { IfSome result (λ n. IsPartAt (loom_told H.Host self.now) of field_count (Some n)) }
        ensures bound { IfSome result (λ n. n < MOST_FIELDS + 1) }
        ensures away { IfNone result ((is_resident self.now (name_at ((loom_told H.Host self.now).regs of)) ≡ false) ⊎ (IsTrue (loom_told H.Host self.now).tells → part_at (loom_told H.Host self.now).heap ((loom_told H.Host self.now).regs of) field_count ≡ None)) }
    {
        let w = self.word_of(of);
        if !is_name(w) {
            return None;
        }
        field_count_at(&self.pager.levels.parts, Short(w))
    }

    /// A method's header. The method has as many literals as it says.
    #[inline(always)]
    pub fn header(&mut self, of: Reg) -> Result<i16, MemFault>
        requires fit { MayCall (IsSound H.Host) (loom_told H.Host) self.old }
        requires may { MayDo (loom_told H.Host self.old) (Header of) }
        ensures access { Accessed (loom_told H.Host self.old) (loom_told H.Host self.new) (Header of) OfSigned result }
        ensures range { IfOk result IsSmallInteger }
        ensures literals { IfOk result (λ header. IsTrue (loom_told H.Host self.old).tells → part_at (loom_told H.Host self.old).heap ((loom_told H.Host self.old).regs of) (λ b. Some (length (fields_of b))) ≡ Some (literal_count header)) }
        ensures own { IsSparing H.Host self.old self.new (name_at ((loom_told H.Host self.old).regs of)) result }
        ensures gone { OnOk result (IsFreedFor H.Host self.old self.new (name_at ((loom_told H.Host self.old).regs of))) }
        ensures damage { IsDamaged self.old self.new (name_at ((loom_told H.Host self.old).regs of)) result }
        ensures brings { BringsOne self.old self.new (is_resident self.old (name_at ((loom_told H.Host self.old).regs of)) ≡ false) }
        ensures fit { StaysCallable (IsSound H.Host) (loom_told H.Host) loom_lender (loom_outside H.Host) self.old self.new result }
    {
        match self.load(of) {
            Ok(s) => match header_at(&self.pager.levels.parts, s) {
                Some(header) => Ok(header),
                None => Err(self.amiss(s)),
            },
            Err(f) => Err(f),
        }
    }

    /// Word i of an object of words.
    pub fn word(&mut self, of: Reg, i: u32) -> Result<u16, MemFault>
        requires fit { MayCall (IsSound H.Host) (loom_told H.Host) self.old }
        requires may { MayDo (loom_told H.Host self.old) (Word of i) }
        ensures access { Accessed (loom_told H.Host self.old) (loom_told H.Host self.new) (Word of i) OfNumber result }
        ensures own { IsSparing H.Host self.old self.new (name_at ((loom_told H.Host self.old).regs of)) result }
        ensures gone { OnOk result (IsFreedFor H.Host self.old self.new (name_at ((loom_told H.Host self.old).regs of))) }
        ensures damage { IsDamaged self.old self.new (name_at ((loom_told H.Host self.old).regs of)) result }
        ensures brings { BringsOne self.old self.new (is_resident self.old (name_at ((loom_told H.Host self.old).regs of)) ≡ false) }
        ensures fit { StaysCallable (IsSound H.Host) (loom_told H.Host) loom_lender (loom_outside H.Host) self.old self.new result }
    {
        match self.load(of) {
            Ok(s) => match word_at(&self.pager.levels.parts, s, i) {
                Some(w) => Ok(w),
                None => Err(self.amiss(s)),
            },
            Err(f) => Err(f),
        }
    }

    /// Byte i, of code too.
    pub fn byte(&mut self, of: Reg, i: u32) -> Result<u8, MemFault>
        requires fit { MayCall (IsSound H.Host) (loom_told H.Host) self.old }
        requires may { MayDo (loom_told H.Host self.old) (Byte of i) }
        ensures access { Accessed (loom_told H.Host self.old) (loom_told H.Host self.new) (Byte of i) OfNumber result }
        ensures own { IsSparing H.Host self.old self.new (name_at ((loom_told H.Host self.old).regs of)) result }
        ensures gone { OnOk result (IsFreedFor H.Host self.old self.new (name_at ((loom_told H.Host self.old).regs of))) }
        ensures damage { IsDamaged self.old self.new (name_at ((loom_told H.Host self.old).regs of)) result }
        ensures brings { BringsOne self.old self.new (is_resident self.old (name_at ((loom_told H.Host self.old).regs of)) ≡ false) }
        ensures fit { StaysCallable (IsSound H.Host) (loom_told H.Host) loom_lender (loom_outside H.Host) self.old self.new result }
    {
        match self.load(of) {
            Ok(s) => match byte_at(&self.pager.levels.parts, s, i) {
                Some(b) => Ok(b),
                None => Err(self.amiss(s)),
            },
            Err(f) => Err(f),
        }
    }

    /// The byte of a method at a place that counts in bytes from its header on, as an instruction pointer does, where the method is in the
    /// core. None else, and where no byte of its code is there.
    #[inline(always)]
    pub fn code_byte(&self, of: Reg, place: u32) -> Option<u8>
        requires { IsSound H.Host self.now }
        ensures byte { IfSome result (λ byte. IsTrue (loom_told H.Host self.now).tells → part_at (loom_told H.Host self.now).heap ((loom_told H.Host self.now).regs of) (code_at place) ≡ Some byte) }
        ensures away { IfNone result ((is_resident self.now (name_at ((loom_told H.Host self.now).regs of)) ≡ false) ⊎ (IsTrue (loom_told H.Host self.now).tells → part_at (loom_told H.Host self.now).heap ((loom_told H.Host self.now).regs of) (code_at place) ≡ None)) }
    {
        let w = self.word_of(of);
        if !is_name(w) {
            return None;
        }
        code_byte_at(&self.pager.levels.parts, Short(w), place)
    }

    /// A run of words from a place on. An empty run needs the place to be at most the length.
    #[inline(always)]
    pub fn read_words(&mut self, of: Reg, at: u32, out: &mut [u16]) -> Result<(), MemFault>
        requires fit { MayCall (IsSound H.Host) (loom_told H.Host) self.old }
        requires may { MayDo (loom_told H.Host self.old) (ReadWords of at (length out.old)) }
        ensures access { Accessed (loom_told H.Host self.old) (loom_told H.Host self.new) (ReadWords of at (length out.old)) (λ _. OfRun out.new) result }
        ensures own { IsSparing H.Host self.old self.new (name_at ((loom_told H.Host self.old).regs of)) result }
        ensures gone { OnOk result (IsFreedFor H.Host self.old self.new (name_at ((loom_told H.Host self.old).regs of))) }
        ensures damage { IsDamaged self.old self.new (name_at ((loom_told H.Host self.old).regs of)) result }
        ensures brings { BringsOne self.old self.new (is_resident self.old (name_at ((loom_told H.Host self.old).regs of)) ≡ false) }
        ensures fit { StaysCallable (IsSound H.Host) (loom_told H.Host) loom_lender (loom_outside H.Host) self.old self.new result }
    {
        match self.load(of) {
            Ok(s) => {
                if words_into(&self.pager.levels.parts, s, at, out) {
                    return Ok(());
                }
                Err(self.amiss(s))
            }
            Err(f) => Err(f),
        }
    }

    /// A run of bytes from a place on, of code too, also an empty one.
    pub fn read_bytes(&mut self, of: Reg, at: u32, out: &mut [u8]) -> Result<(), MemFault>
        requires fit { MayCall (IsSound H.Host) (loom_told H.Host) self.old }
        requires may { MayDo (loom_told H.Host self.old) (ReadBytes of at (length out.old)) }
        ensures access { Accessed (loom_told H.Host self.old) (loom_told H.Host self.new) (ReadBytes of at (length out.old)) (λ _. OfRun out.new) result }
        ensures own { IsSparing H.Host self.old self.new (name_at ((loom_told H.Host self.old).regs of)) result }
        ensures gone { OnOk result (IsFreedFor H.Host self.old self.new (name_at ((loom_told H.Host self.old).regs of))) }
        ensures damage { IsDamaged self.old self.new (name_at ((loom_told H.Host self.old).regs of)) result }
        ensures brings { BringsOne self.old self.new (is_resident self.old (name_at ((loom_told H.Host self.old).regs of)) ≡ false) }
        ensures fit { StaysCallable (IsSound H.Host) (loom_told H.Host) loom_lender (loom_outside H.Host) self.old self.new result }
    {
        match self.load(of) {
            Ok(s) => {
                if bytes_into(&self.pager.levels.parts, s, at, out) {
                    return Ok(());
                }
                Err(self.amiss(s))
            }
            Err(f) => Err(f),
        }
    }
}
