// Values in registers.
ghost use Rattle.std.specs.Prelude.{◌≡◌, ◌≢◌, ◌/◌, ◌%◌, ◌↔◌, [], true, IsTrue, IfSome};
ghost use Rattle.object_table.specs.Entries.{is_short, is_used};
ghost use Rattle.core_view.specs.Words.{meant};

use crate::memory::LoomMemory;
use leaf_lambda::fields::is_name;
use leaf_lambda::numbers::{int_short, short_int};
use long_names::{Name, Value};
use loom_host::{Host, Role};
use object_memory::Reg;
use object_table::Short;
use purger::touches::touch;

impl<'h, H: Host> LoomMemory<'h, H> {
    ghost use Rattle.loom_memory.specs.Effects.{LeavesBeside};
    ghost use Rattle.object_memory.specs.Fit.{KeepsCallable};
    ghost use Rattle.std.specs.Prelude.{Ok};
    ghost use Rattle.long_names.specs.Objects.{is_ref, int_of};
    ghost use Rattle.long_names.specs.State.{set_register, name_at, IsRef};
    ghost use Rattle.long_names.specs.Words.{IsSmallInteger, IsValue};
    ghost use Rattle.long_names.specs.declared.value.Value.TheVariants.{Int};
    ghost use Rattle.object_memory.specs.Told.{has_slot};
    ghost use Rattle.loom_memory.specs.Memory.{loom_told, loom_outside, loom_lender, word_in, loom_core, loom_rest, IsSound};
    ghost use Rattle.loom_memory.specs.Gentle.{IsSteady};
    ghost use Rattle.loom_memory.specs.Thinned.{StaysThinned};

    // The word of a register: a number, or the short word of an entry.
    #[inline(always)]
    pub(crate) fn word_of(&self, r: Reg) -> u16
        requires { IsSound H.Host self.now }
        ensures word { result ≡ word_in self.now.regs r }
        ensures some { result ≢ 0 }
        ensures used { is_short result ≡ true → is_used ((loom_core self.now).entries result).state ≡ true }
    {
        self.regs[r.index()]
    }

    // The value of a register.
    #[inline(always)]
    fn value(&self, r: Reg) -> Value
        requires { IsSound H.Host self.now }
        ensures value { result ≡ (loom_told H.Host self.now).regs r }
        ensures range { IsValue result }
    {
        let w = self.word_of(r);
        if is_name(w) {
            return Value::from(
                self.pager
                    .levels
                    .parts
                    .names
                    .table
                    .used_entry(Short(w))
                    .name,
            );
        }
        Value::Int(int_short(w))
    }

    // What a word names was used: it stays once more where room is made.
    #[inline(always)]
    fn note_use(&mut self, w: u16)
        requires sound { IsSound H.Host self.old }
        requires used { is_short w ≡ true → is_used ((loom_core self.old).entries w).state ≡ true }
        ensures told { loom_told H.Host self.new ≡ loom_told H.Host self.old }
        ensures sound { IsSound H.Host self.new }
        ensures used { is_short w ≡ true → is_used ((loom_core self.new).entries w).state ≡ true }
        ensures means { meant (loom_core self.new).entries [] 0 w ≡ meant (loom_core self.old).entries [] 0 w }
        ensures disk { self.new.pager.levels.disk ≡ self.old.pager.levels.disk }
        ensures steady { IsSteady H.Host self.old self.new }
        ensures due { self.new.due ≡ self.old.due }
        ensures flag { self.new.thinned ≡ self.old.thinned }
        ensures regs { self.new.regs ≡ self.old.regs }
        ensures outside { loom_outside H.Host self.new ≡ loom_outside H.Host self.old }
    {
        let levels = &mut self.pager.levels;
        touch(&mut levels.parts, w);
    }

    // Another word in a register, and what it names was used.
    #[inline(always)]
    pub(crate) fn put_word(&mut self, to: Reg, w: u16)
        requires sound { IsSound H.Host self.old }
        requires used { is_short w ≡ true → is_used ((loom_core self.old).entries w).state ≡ true }
        requires some { w ≢ 0 }
        ensures told { loom_told H.Host self.new ≡ record (loom_told H.Host self.old) { regs = set_register (loom_told H.Host self.old).regs to (meant (loom_core self.old).entries [] 0 w) } }
        ensures leaves { LeavesBeside H.Host self.old self.new (Ok result) }
        ensures disk { loom_rest self.new ≡ loom_rest self.old }
        ensures steady { IsSteady H.Host self.old self.new }
        ensures due { self.new.due ≡ self.old.due }
        ensures stays { StaysThinned self.old self.new (word_in self.old.regs to) }
    {
        self.note_use(w);
        self.replace_word(to, w);
    }

    // The number 0 in a register, out of line: most registers that are cleared have it already, and the way of all other words stays short.
    #[cold]
    #[inline(never)]
    fn put_apart(&mut self, to: Reg)
        requires { IsSound H.Host self.old }
        ensures told { loom_told H.Host self.new ≡ record (loom_told H.Host self.old) { regs = set_register (loom_told H.Host self.old).regs to (meant (loom_core self.old).entries [] 0 1) } }
        ensures leaves { LeavesBeside H.Host self.old self.new (Ok result) }
        ensures steady { IsSteady H.Host self.old self.new }
        ensures due { self.new.due ≡ self.old.due }
        ensures stays { StaysThinned self.old self.new (word_in self.old.regs to) }
    {
        self.put_word(to, 1);
    }

    // The word of a number in a register.
    #[inline(always)]
    fn put_number(&mut self, to: Reg, w: u16)
        requires sound { IsSound H.Host self.old }
        requires odd { w % 2 ≡ 1 }
        ensures told { loom_told H.Host self.new ≡ record (loom_told H.Host self.old) { regs = set_register (loom_told H.Host self.old).regs to (meant (loom_core self.old).entries [] 0 w) } }
        ensures leaves { LeavesBeside H.Host self.old self.new (Ok result) }
        ensures steady { IsSteady H.Host self.old self.new }
        ensures due { self.new.due ≡ self.old.due }
        ensures stays { StaysThinned self.old self.new (word_in self.old.regs to) }
    {
        if w == 1 {
            self.put_apart(to);
            return;
        }
        self.put_word(to, w);
    }

    /// The register holds this number, from -16384 to 16383 (integerObjectOf:).
    #[inline(always)]
    pub fn int(&mut self, to: Reg, v: i16)
        requires sound { IsSound H.Host self.old }
        requires range { IsSmallInteger v }
        ensures told { loom_told H.Host self.new ≡ record (loom_told H.Host self.old) { regs = set_register (loom_told H.Host self.old).regs to (Int v) } }
        ensures steady { IsSteady H.Host self.old self.new }
        ensures due { self.new.due ≡ self.old.due }
        ensures stays { StaysThinned self.old self.new (word_in self.old.regs to) }
        ensures fit { KeepsCallable (IsSound H.Host) (loom_told H.Host) loom_lender (loom_outside H.Host) self.old self.new }
    {
        let w = short_int(v);
        if self.word_of(to) == w {
            return;
        }
        self.put_number(to, w);
    }

    /// The register is copied.
    #[inline(always)]
    pub fn copy(&mut self, to: Reg, from: Reg)
        requires { IsSound H.Host self.old }
        ensures told { loom_told H.Host self.new ≡ record (loom_told H.Host self.old) { regs = set_register (loom_told H.Host self.old).regs to ((loom_told H.Host self.old).regs from) } }
        ensures steady { IsSteady H.Host self.old self.new }
        ensures due { self.new.due ≡ self.old.due }
        ensures stays { StaysThinned self.old self.new (word_in self.old.regs to) }
        ensures fit { KeepsCallable (IsSound H.Host) (loom_told H.Host) loom_lender (loom_outside H.Host) self.old self.new }
    {
        let w = self.word_of(from);
        self.put_word(to, w);
    }

    /// Whether the register holds this name.
    #[inline(always)]
    pub fn is(&self, r: Reg, name: Name) -> bool
        requires { IsSound H.Host self.now }
        ensures { result ≡ is_ref name ((loom_told H.Host self.now).regs r) }
    {
        self.value(r) == Value::Ref(name)
    }

    /// Whether two registers hold equal values.
    #[inline(always)]
    pub fn same(&self, a: Reg, b: Reg) -> bool
        requires { IsSound H.Host self.now }
        ensures { IsTrue result ↔ ((loom_told H.Host self.now).regs a ≡ (loom_told H.Host self.now).regs b) }
    {
        self.value(a) == self.value(b)
    }

    /// The number in the register (isIntegerObject:, integerValueOf:). None exactly where it holds a name.
    #[inline(always)]
    pub fn as_int(&self, r: Reg) -> Option<i16>
        requires { IsSound H.Host self.now }
        ensures number { result ≡ int_of ((loom_told H.Host self.now).regs r) }
        ensures range { IfSome result IsSmallInteger }
    {
        self.value(r).number()
    }

    /// The index of the name in the register.
    pub fn hash(&self, r: Reg) -> u32
        requires sound { IsSound H.Host self.now }
        requires name { IsRef ((loom_told H.Host self.now).regs r) }
        ensures { result ≡ name_at ((loom_told H.Host self.now).regs r) / 2 }
    {
        let Some(name) = self.value(r).name() else {
            unreachable!()
        };
        name.index()
    }

    /// The name that the next new object takes. From 4,294,967,294 on there is none for it.
    pub fn next_name(&self) -> u32
        requires { IsSound H.Host self.now }
        ensures { IsTrue (H.tells Role.Work) → result ≡ (loom_told H.Host self.now).heap.next }
    {
        self.ledger.next
    }

    /// Whether a slot has the name in the register.
    pub fn is_pinned(&self, r: Reg) -> bool
        requires sound { IsSound H.Host self.now }
        requires name { IsRef ((loom_told H.Host self.now).regs r) }
        ensures { result ≡ has_slot (loom_told H.Host self.now).slots (name_at ((loom_told H.Host self.now).regs r)) }
    {
        let w = self.word_of(r);
        self.pager.pinned.has(Short(w))
    }
}
