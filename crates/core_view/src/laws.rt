// What each step of a core leaves as it was, and what the held heap is then.
ghost use Rattle.std.specs.Prelude.{◌≡◌, ◌+◌, ◌<◌, ◌≤◌, ◌^◌, ℕ, List, Some, None, true, length, count_by, slice_get};
ghost use Rattle.long_names.specs.Objects.{with_field};
ghost use Rattle.long_names.specs.declared.limits.TheConstants.{MOST_FIELDS};
ghost use Rattle.object_table.specs.declared.entry.Entry.{Entry};
ghost use Rattle.object_table.specs.Entries.{put, is_used, place_of, sum_below, used_by};
ghost use Rattle.core_segment.specs.declared.segment.Moved.{Moved};
ghost use Rattle.core_segment.specs.Chunks.{Placed, at_place, IsLaidOut};
ghost use Rattle.core_segment.specs.Segment.{IsMove as IsChunkMove};
ghost use Rattle.core_view.specs.Core.{Core, with_entry, with_leaf, without_leaf};
ghost use Rattle.core_view.specs.Words.{meant, pointers};
ghost use Rattle.core_view.specs.Held.{Disk, disk_with, fields_there, object_at, held};
ghost use Rattle.core_view.specs.Counts.{names, outside};
ghost use Rattle.core_view.specs.Kept.{IsCore, IsTight, IsBacked, Stays, KeepsOver};
ghost use Rattle.core_view.specs.Once.{HasMarksHere};
ghost use Rattle.core_view.specs.Room.{room_for, entries_for, over_three, in_hand, IsPin, IsBare};
ghost use Rattle.core_view.specs.Steps.{IsSpare, IsIdle, IsAt, IsOpening, IsMove, at_another, with_field_word, written};

/// The words of bodies make fewer than 2 to the 31 references, so with few others there are never more.
pub fn references_are_few()
    ensures { (c : Core) (t : ℕ) → IsCore c → outside c t < MOST_FIELDS + 1 → (c.entries t).refs < 2 ^ 31 }
{}

/// A leaf that comes, and one to which nothing refers that goes, change nothing that is held.
pub fn leaves_come_and_go()
    ensures comes { (c : Core) (s n : ℕ) → IsCore c → IsSpare c s n → IsCore (with_leaf c s n) × Stays c (with_leaf c s n) }
    ensures goes { (c : Core) (s n : ℕ) → IsCore c → IsIdle c s n → IsCore (without_leaf c s n) × Stays c (without_leaf c s n) }
{}

/// Bodies that lie elsewhere, and chunks where no body lies, change nothing that is held.
pub fn bodies_may_move()
    ensures { (c d : Core) → IsCore c → IsMove c d → IsCore d × Stays c d × ((t : ℕ) → outside d t ≡ outside c t) }
{}

/// A chunk that moves takes its body with it, where each chunk with an owner is one: the entry of its owner says the new place then.
pub fn a_chunk_moves_with_its_entry()
    ensures { (c d : Core) (m : Moved) → IsCore c → IsTight c → IsChunkMove c.chunks d.chunks m
        → d.entries ≡ put c.entries m.owner (at_another (c.entries m.owner) m.to.place) → d.find ≡ c.find → d.bound ≡ c.bound
        → IsMove c d × IsTight d }
{}

/// Where nothing but three pinned objects is left, what is in use is theirs: entries by registers and slots, words by the segment's list.
pub fn what_is_left_is_pinned()
    ensures entries { (c : Core) (regs : List ℕ) (a b d : ℕ) → IsCore c → IsBare a b d c
        → ((t : ℕ) → outside c t ≡ count_by (names t) (in_hand regs a b d)) → IsPin c a → IsPin c b → IsPin c d
        → sum_below c.bound (λ t. used_by (c.entries t)) ≤ length regs + over_three (entries_for c) a b d }
    ensures words { (c : Core) (xs : List Placed) (free size a b d : ℕ) → IsCore c → IsTight c → IsBare a b d c
        → c.chunks ≡ at_place xs → IsLaidOut xs free size → size ≤ free + over_three (room_for c) a b d }
{}

/// Another word for a field changes the held heap at this field of this object alone.
pub fn a_word_is_a_field()
    ensures { (c : Core) (disk : Disk) (s p i w old : ℕ) → IsCore c → IsAt c s p i old →
        held (with_field_word c s p i w) disk ≡ put (held c disk) (c.entries s).name (Some (record {
          class = (c.entries (c.entries s).class.0).name;
          body = with_field (object_at c disk (c.entries s) p).body i (meant c.entries (fields_there (disk (c.entries s).name)) i w);
        })) }
{}

/// An object that is written as its record is the same over the new disk.
pub fn a_record_is_written()
    ensures { (c : Core) (disk : Disk) (s p : ℕ) → IsCore c → IsBacked c disk → place_of (c.entries s).state ≡ Some p →
        KeepsOver c disk (with_entry c s (written (c.entries s))) (disk_with c disk s p) }
{}

/// A body of a new object, which has no record, joins the held heap.
pub fn an_object_is_made()
    ensures held { (c : Core) (disk : Disk) (s p : ℕ) (e : Entry) → IsCore c → IsOpening c s p e →
        held (with_entry c s e) disk ≡ put (held c disk) (c.entries s).name (Some (object_at (with_entry c s e) disk e p)) }
    ensures backed { (c : Core) (disk : Disk) (s p : ℕ) (e : Entry) → IsCore c → IsBacked c disk → IsOpening c s p e → e.flags.fresh ≡ true → e.flags.changed ≡ true
        → disk (c.entries s).name ≡ None → ((i : ℕ) → slice_get (pointers e.kind (c.chunks p).words) i ≡ Some 0 → ⊥) → IsBacked (with_entry c s e) disk }
{}

/// That each marked object is in the core, by a test, is that each has a place.
pub fn marked_objects_have_places()
    ensures places { (c : Core) (s : ℕ) → HasMarksHere c → is_used (c.entries s).state ≡ true → (c.entries s).flags.marked ≡ true
        → (p : ℕ) × (place_of (c.entries s).state ≡ Some p) }
    ensures here { (c : Core) → ((s : ℕ) → is_used (c.entries s).state ≡ true → (c.entries s).flags.marked ≡ true
        → (p : ℕ) × (place_of (c.entries s).state ≡ Some p)) → HasMarksHere c }
{}
