// Laws of reads. No code calls these functions: what each of them ensures is the law.
ghost use Rattle.std.specs.Prelude.{◌≡◌, ℕ, ◌++◌, false, List, [], IsTrue};
ghost use Rattle.long_names.specs.State.{object_at};
ghost use Rattle.long_names.specs.Access.{Access, CanDo, heap_after};
ghost use Rattle.long_names.specs.Thin.{IsThinner};
ghost use Rattle.object_memory.specs.Told.{Told, IsReady};
ghost use Rattle.object_memory.specs.Contract.{Does, Follows, Refuses};
ghost use Rattle.object_memory.specs.Shape.{Looks, is_among};
ghost use Rattle.object_memory.specs.declared.fault.MemFault.{MemFault};

/// Reads after reads are reads, where the memory was ready between them.
pub fn reads_add_up()
    ensures { (xs ys : List ℕ) (a b c : Told) → IsReady b → Looks xs a b → Looks ys b c → Looks (xs ++ ys) a c }
{}

/// The object that a register names is the same after reads that did not fill the register.
pub fn reads_keep_objects()
    ensures { (xs : List ℕ) (old new : Told) (r : ℕ) → IsReady new → Looks xs old new → is_among xs r ≡ false → IsTrue old.tells
        → object_at new.heap (new.regs r) ≡ object_at old.heap (old.regs r) }
{}

/// An access after reads leaves a heap that is thinner than what it makes of the heap before them. Where it is refused, and they
/// filled no register, it is refused as it would have been before them.
pub fn access_after_reads()
    ensures answered { (xs : List ℕ) (first old new : Told) (a : Access) → Looks xs first old → IsReady old → Follows old new (Does a)
        → IsTrue first.tells → IsThinner (heap_after first.heap old.regs a) new.heap }
    ensures refused { (first old new : Told) (a : Access) (f : MemFault) → IsReady first → IsReady old
        → (IsTrue old.tells → CanDo old.heap old.regs a) → Looks [] first old → Refuses old new (Does a) f
        → Refuses first new (Does a) f }
{}
