// What holds of records and bodies, whatever reads or writes them.
ghost use Rattle.std.specs.Prelude.{◌≡◌, ℕ, List, Some, false};
ghost use Rattle.object_record.specs.Buffer.{raw_of, HasRecord};
ghost use Rattle.object_record.specs.Objects.{object_in};
ghost use Rattle.object_table.specs.Entries.{place_of};
ghost use Rattle.core_view.specs.Core.{Core};
ghost use Rattle.core_view.specs.Held.{Disk as Store};
ghost use Rattle.core_view.specs.Kept.{IsCore, IsBacked};
ghost use Rattle.leaf_lambda.specs.Records.{IsCopy};

/// An object's own record is like it, so what the disk has for a body need not be tested.
pub fn own_record_is_like()
    ensures { (c : Core) (disk : Store) (s p : ℕ) (bytes : List ℕ) → IsCore c → IsBacked c disk → place_of (c.entries s).state ≡ Some p
        → (c.entries s).flags.fresh ≡ false
        → HasRecord bytes → (raw_of bytes).name ≡ (c.entries s).name → disk (c.entries s).name ≡ Some (object_in (raw_of bytes))
        → IsCopy bytes (c.entries s) (c.chunks p).words }
{}
