//! Laws of parts and a disk with counts. No code calls these functions: what each of them ensures is the law.
ghost use Rattle.std.specs.Prelude.{◌≡◌, ◌+◌, ℕ, List, Option, Some, option_map};
ghost use Rattle.long_names.specs.declared.value.Value.{Value};
ghost use Rattle.long_names.specs.Heap.{object_count};
ghost use Rattle.disk_objects.specs.declared.rest.DiskRest.{DiskRest};
ghost use Rattle.disk_objects.specs.Calls as disk;
ghost use Rattle.disk_objects.specs.Disk.{IsDisk, Objects, disk_held};
ghost use Rattle.disk_objects.specs.Function.{counts_at, objects_at};
ghost use Rattle.core_segment.specs.Chunks.{Chunk};
ghost use Rattle.core_view.specs.Purge.{fresh_of};
ghost use Rattle.core_view.specs.Kept.{IsTight};
ghost use Rattle.resident_table.specs.declared.Parts2.{Parts2};
ghost use Rattle.core_view.specs.Levels.{Levels, Stored, heap_of, record_in};
ghost use Rattle.core_view.specs.Counted.{IsSound};
ghost use Rattle.core_view.specs.LevelSteps.{swapped};
ghost use Rattle.delta_counts.specs.Parts.{core_with};
ghost use Rattle.delta_counts.specs.At.{IsStoredIn};
ghost use Rattle.delta_counts.specs.Giving.{IsGiving};

/// The records and counts of levels that stand in Work are those of the disk as a function.
pub fn levels_are_the_disk()
    ensures records { (rest : DiskRest) (work : List ℕ) (stored : ℕ → Option Stored) (pending : List ℕ) (q : ℕ) → IsStoredIn rest work stored pending →
        record_in (stored q) ≡ objects_at rest work q }
    ensures counts { (rest : DiskRest) (work : List ℕ) (stored : ℕ → Option Stored) (pending : List ℕ) (q : ℕ) → IsStoredIn rest work stored pending →
        option_map (λ (r : Stored). r.count) (stored q) ≡ counts_at rest work q }
{}

/// Where entries are given up, each chunk with an owner stays a body.
pub fn given_entries_leave_bodies()
    ensures { (chunks : ℕ → Chunk) (old new : Parts2) → IsGiving old new → IsTight (core_with chunks old) → IsTight (core_with chunks new) }
{}

/// Where the records of two names change places in Work, the objects of the levels that stand there do, and counts stay with the names.
pub fn records_change_places()
    ensures { (rest now : DiskRest) (work after : List ℕ) (t : Levels) (a b : ℕ) (r k : Stored) → IsStoredIn rest work t.stored t.pending
        → t.stored a ≡ Some r → t.stored b ≡ Some k
        → ((objects : Objects) → IsDisk rest work objects t.pending → IsDisk now after (disk.swapped objects a b) t.pending)
        → IsStoredIn now after (swapped t a b r k).stored (swapped t a b r k).pending }
{}

/// As many objects are held as the disk counts, and those that are fresh.
pub fn objects_are_counted_on_disk()
    ensures { (rest : DiskRest) (work : List ℕ) (t : Levels) (owed : List Value) → IsStoredIn rest work t.stored t.pending → IsSound t owed
        → object_count (heap_of t) ≡ disk_held rest + fresh_of t.core }
{}
