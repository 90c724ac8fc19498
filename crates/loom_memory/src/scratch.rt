// The scratch registers together, and numbers that come without a register.
ghost use Rattle.std.specs.Prelude.{◌≡◌, ◌≤◌, ◌<◌, ℕ, Some, IsTrue, IfSome};
ghost use Rattle.long_names.specs.declared.limits.TheConstants.{MACHINE_REGISTERS as FIRST, REGISTERS as ALL};

use crate::bodies::field_count_at;
use crate::fields::word_in_body;
use crate::memory::LoomMemory;
use leaf_lambda::fields::is_name;
use leaf_lambda::numbers::int_short;
use long_names::{MACHINE_REGISTERS, REGISTERS};
use loom_host::Host;
use object_memory::Reg;
use object_table::Short;

impl<'h, H: Host> LoomMemory<'h, H> {
    ghost use Rattle.long_names.specs.Words.{IsSmallInteger};
    ghost use Rattle.object_memory.specs.Told.{scratch_cleared};
    ghost use Rattle.object_memory.specs.Shape.{number_in, IsPartAt};
    ghost use Rattle.object_memory.specs.Fit.{KeepsCallable};
    ghost use Rattle.loom_memory.specs.Gentle.{IsSteady};
    ghost use Rattle.loom_memory.specs.Memory.{loom_told, loom_outside, loom_lender, word_in, IsSound};

    // Whether each scratch register holds 0, whose word is 1. All are looked at, so that it is done without a jump.
    #[inline(always)]
    fn is_scratch_clear(&self) -> bool
        requires { IsSound H.Host self.now }
        ensures { IsTrue result → (r : ℕ) → FIRST ≤ r → r < ALL → word_in self.now.regs r ≡ 1 }
    {
        let mut clear = true;
        for r in MACHINE_REGISTERS..REGISTERS {
            clear = clear & (self.regs[r] == 1);
        }
        clear
    }

    // The scratch registers hold 0, one after another.
    #[inline(always)]
    fn clear_each(&mut self)
        requires sound { IsSound H.Host self.old }
        ensures regs { (r : ℕ) → (loom_told H.Host self.new).regs r ≡ scratch_cleared (loom_told H.Host self.old).regs r }
        ensures rest { loom_told H.Host self.new ≡ record (loom_told H.Host self.old) { regs = (loom_told H.Host self.new).regs } }
        ensures steady { IsSteady H.Host self.old self.new }
        ensures due { self.new.due ≡ self.old.due }
        ensures fit { KeepsCallable (IsSound H.Host) (loom_told H.Host) loom_lender (loom_outside H.Host) self.old self.new }
    {
        for r in MACHINE_REGISTERS as u8..REGISTERS as u8 {
            self.int(Reg::new(r), 0);
        }
    }

    /// The scratch registers, from 10 on, hold 0.
    #[inline(always)]
    pub fn clear_scratch(&mut self)
        requires sound { IsSound H.Host self.old }
        ensures regs { (r : ℕ) → (loom_told H.Host self.new).regs r ≡ scratch_cleared (loom_told H.Host self.old).regs r }
        ensures rest { loom_told H.Host self.new ≡ record (loom_told H.Host self.old) { regs = (loom_told H.Host self.new).regs } }
        ensures steady { IsSteady H.Host self.old self.new }
        ensures due { self.new.due ≡ self.old.due }
        ensures fit { KeepsCallable (IsSound H.Host) (loom_told H.Host) loom_lender (loom_outside H.Host) self.old self.new }
    {
        if self.is_scratch_clear() {
            return;
        }
        self.clear_each();
    }

    /// The number that value i of an object of pointers is, where the object and the value are in the core. None says nothing.
    #[inline(always)]
    pub fn number_at(&self, of: Reg, i: u32) -> Option<i16>
        requires { IsSound H.Host self.now }
        ensures number { IfSome result (λ n. IsPartAt (loom_told H.Host self.now) of (number_in i) (Some n)) }
        ensures range { IfSome result IsSmallInteger }
    {
        let w = self.word_of(of);
        if !is_name(w) {
            return None;
        }
        let Some(_count) = field_count_at(&self.pager.levels.parts, Short(w)) else {
            return None;
        };
        let Some(value) = word_in_body(&self.pager.levels.parts, Short(w), i) else {
            return None;
        };
        if value % 2 == 0 {
            return None;
        }
        Some(int_short(value))
    }
}
