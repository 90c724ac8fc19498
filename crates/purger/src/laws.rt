//! Laws that join calls on bodies with exact counts. No code calls these functions: what each of them ensures is the law.
ghost use Rattle.std.specs.Prelude.{◌≡◌, ℕ, List};
ghost use Rattle.long_names.specs.declared.value.Value.{Value};
ghost use Rattle.core_view.specs.Core.{Core};
ghost use Rattle.core_view.specs.Kept.{IsCore, Keeps, Stays};
ghost use Rattle.leaf_lambda.specs.Parts.{IsNaming, IsWithin};
ghost use Rattle.core_view.specs.Levels.{Levels, records_of};
ghost use Rattle.core_view.specs.Counted.{IsSound};
ghost use Rattle.core_view.specs.LevelSteps.{IsUncounted, with_core};

/// A call on one object by which names gain entries only with a reference leaves counts, and each of those names is used. So does a call by
/// which no name gains or loses its entry.
pub fn names_come_with_their_use()
    ensures came { (a d : Core) (s : ℕ) → IsCore a → IsCore d → IsNaming a d → IsWithin s a d → IsUncounted a d }
    ensures none { (a d : Core) (s : ℕ) → d.find ≡ a.find → IsWithin s a d → IsUncounted a d }
{}

/// Levels stay sound where an object comes in from its record, and where the body of one that is just as its record goes.
pub fn bodies_leave_counts()
    ensures comes { (t : Levels) (d : Core) (s : ℕ) (owed : List Value) → IsSound t owed → IsCore d → Keeps (records_of t) t.core d → IsNaming t.core d
        → IsWithin s t.core d → IsSound (with_core t d) owed }
    ensures goes { (t : Levels) (d : Core) (s : ℕ) (owed : List Value) → IsSound t owed → IsCore d → Stays t.core d → d.find ≡ t.core.find
        → IsWithin s t.core d → IsSound (with_core t d) owed }
{}
