//! Laws of exact counts. No code calls these functions: what each of them ensures is the law.
ghost use Rattle.std.specs.Prelude.{◌≡◌, ◌≢◌, ◌≤◌, ◌<◌, ◌≤ℤ◌, ◌+◌, ◌+ℤ◌, ◌^◌, ℕ, ℤ, pos, negsuc, ◌-◌, length, List, [], ◌∷◌, ◌++◌, replicate, Some, None, true, false, All};
ghost use Rattle.std.specs.Int.{w64, FitsUnsigned};
ghost use Rattle.long_names.specs.declared.value.Value.{Value};
ghost use Rattle.long_names.specs.declared.value.Value.TheVariants.{Ref};
ghost use Rattle.long_names.specs.declared.limits.TheConstants.{MOST_FIELDS};
ghost use Rattle.long_names.specs.declared.object.Object.{Object};
ghost use Rattle.long_names.specs.Heap.{Heap, Has, IsBounded, count_of, object_count, swap_objects, without};
ghost use Rattle.long_names.specs.Kept.{kept};
ghost use Rattle.long_names.specs.Names.{is_known, IsLongName};
ghost use Rattle.long_names.specs.Objects.{field_of, fields_of, with_field};
ghost use Rattle.long_names.specs.Thin.{IsClosed, IsPath, IsThinner};
ghost use Rattle.object_table.specs.Entries.{is_used, place_of, put};
ghost use Rattle.core_view.specs.Core.{Core, with_leaf};
ghost use Rattle.core_view.specs.Counts.{uses};
ghost use Rattle.core_view.specs.Held.{held};
ghost use Rattle.core_view.specs.Kept.{IsBacked, IsCore, IsValued, Keeps};
ghost use Rattle.core_view.specs.Purge.{fresh_of};
ghost use Rattle.core_view.specs.Steps.{IsIdle, IsSpare};
ghost use Rattle.core_view.specs.Levels.{Levels, Stored, count_in, heap_of, is_waiting, records_of};
ghost use Rattle.core_view.specs.Counted.{IsHeld, IsSound, words, words_of};
ghost use Rattle.core_view.specs.Dead.{CanGo, HasCount, IsBare, IsImage, IsLoose, NoneBareDead, NoneDead, NoneIdle, is_root};
ghost use Rattle.core_view.specs.Numbers.{stored_count};
ghost use Rattle.core_view.specs.LevelSteps.{IsBegun, IsMaking, IsUncounted, folded, given, lowered, made, raised_by, removed, swapped, with_core, written_at};

/// Where the count of an entry's name is raised, a word more of it is owed; by any number, so many words more or less.
pub fn a_raise_is_owed()
    ensures one { (t : Levels) (s : ℕ) (owed : List Value) → IsSound t owed → is_used (t.core.entries s).state ≡ true
        → count_of (heap_of t) (t.core.entries s).name + words owed (t.core.entries s).name < 2 ^ 62
        → IsSound (raised_by t s (pos 1)) (Ref (t.core.entries s).name ∷ owed) }
    ensures many { (t : Levels) (s n : ℕ) (owed : List Value) → IsSound t owed → is_used (t.core.entries s).state ≡ true
        → count_of (heap_of t) (t.core.entries s).name + words owed (t.core.entries s).name + n ≤ 2 ^ 62
        → IsSound (raised_by t s (pos n)) (replicate n (Ref (t.core.entries s).name) ++ owed) }
    ensures sound { (t : Levels) (s : ℕ) (d : ℤ) (owed now : List Value) → IsSound t owed → is_used (t.core.entries s).state ≡ true
        → ((q : ℕ) → q ≢ (t.core.entries s).name → words now q ≡ words owed q)
        → pos (words now (t.core.entries s).name) ≡ pos (words owed (t.core.entries s).name) +ℤ d
        → ((q : ℕ) → count_of (heap_of t) q + words now q ≤ 2 ^ 62) → ((q : ℕ) → 0 < words now q → Has (heap_of t) q)
        → IsSound (raised_by t s d) now }
    ensures heap { (t : Levels) (s : ℕ) (d : ℤ) → IsCore t.core → is_used (t.core.entries s).state ≡ true → heap_of (raised_by t s d) ≡ heap_of t }
{}

/// Where the count of a name is lowered, a word less of it is owed.
pub fn a_word_is_lowered()
    ensures sound { (t : Levels) (n : ℕ) (owed : List Value) → IsSound t (Ref n ∷ owed) → IsSound (lowered t n) owed }
    ensures heap { (t : Levels) (n : ℕ) → IsCore t.core → heap_of (lowered t n) ≡ heap_of t }
{}

/// The change of an entry that has a record joins the count on disk.
pub fn a_change_is_folded()
    ensures sound { (t : Levels) (s : ℕ) (r : Stored) (owed : List Value) → IsSound t owed → is_used (t.core.entries s).state ≡ true
        → t.stored (t.core.entries s).name ≡ Some r → IsSound (folded t s) owed }
    ensures heap { (t : Levels) (s : ℕ) → IsCore t.core → is_used (t.core.entries s).state ≡ true → heap_of (folded t s) ≡ heap_of t }
{}

/// A leaf to which nothing refers and whose change is folded is given up.
pub fn an_entry_is_given_up()
    ensures sound { (t : Levels) (s n : ℕ) (owed : List Value) → IsSound t owed → IsIdle t.core s n → (t.core.entries s).change ≡ pos 0
        → IsSound (given t s n) owed }
    ensures heap { (t : Levels) (s n : ℕ) → IsCore t.core → IsIdle t.core s n → heap_of (given t s n) ≡ heap_of t }
{}

/// Where a dead name goes, its words are owed, and the heap is thinner.
pub fn a_dead_object_is_freed()
    ensures sound { (t : Levels) (n : ℕ) (r : Stored) (rest : List ℕ) → IsSound t [] → CanGo t n r rest → IsSound (removed t n rest) (words_of r.object) }
    ensures heap { (t : Levels) (n : ℕ) (r : Stored) (rest : List ℕ) → IsSound t [] → CanGo t n r rest → heap_of (removed t n rest) ≡ without (heap_of t) n }
    ensures thinner { (t : Levels) (n : ℕ) (r : Stored) (rest : List ℕ) → IsSound t [] → CanGo t n r rest → IsThinner (heap_of t) (heap_of (removed t n rest)) }
{}

/// A call that leaves the held heap and all changes, where each entry that comes is used, leaves counts exact. So does a leaf that comes for a
/// held name which isn't pending; and what is counted, owed or known isn't.
pub fn entries_come()
    ensures used { (t : Levels) (c : Core) (owed : List Value) → IsSound t owed → IsCore c → Keeps (records_of t) t.core c → IsUncounted t.core c
        → IsSound (with_core t c) owed }
    ensures leaf { (t : Levels) (s n : ℕ) (owed : List Value) → IsSound t owed → IsSpare t.core s n → Has (heap_of t) n → is_waiting t n ≡ false
        → IsSound (with_core t (with_leaf t.core s n)) owed }
    ensures counted { (t : Levels) (n : ℕ) (owed : List Value) → IsSound t owed → Has (heap_of t) n → 0 < count_of (heap_of t) n + words owed n
        → is_waiting t n ≡ false }
    ensures known { (t : Levels) (n : ℕ) → is_known n ≡ true → is_waiting t n ≡ false }
{}

/// A store of a word that is owed: the word that it replaces is owed then.
pub fn a_store_exchanges_words()
    ensures { (t : Levels) (c : Core) (n i : ℕ) (o : Object) (v w : Value) (owed : List Value) → IsSound t (w ∷ owed) → IsCore c → IsBacked c (records_of t)
        → (heap_of t).at n ≡ Some o → field_of o.body i ≡ Some v
        → held c (records_of t) ≡ put (held t.core (records_of t)) n (Some (record { class = o.class; body = with_field o.body i w }))
        → IsValued (held c (records_of t)) → IsUncounted t.core c → IsSound (with_core t c) (v ∷ owed) }
{}

/// A new object of words that are owed has the next name, and no word is that name.
pub fn an_object_is_made()
    ensures { (t : Levels) (c : Core) (s : ℕ) (o : Object) (owed now : List Value) → IsSound t owed → IsCore c → IsBacked c (records_of t)
        → IsLongName t.next → t.core.find t.next ≡ None → ((q : ℕ) → words owed q ≡ words (words_of o) q + words now q)
        → held c (records_of t) ≡ put (held t.core (records_of t)) t.next (Some o)
        → IsValued (held c (records_of t)) → IsMaking t.core c t.next s → IsSound (made t c) now }
{}

/// An object that is written as its record keeps its count, and a fresh one has 0 on disk.
pub fn an_object_is_written()
    ensures { (t : Levels) (s p : ℕ) (owed : List Value) → IsSound t owed → place_of (t.core.entries s).state ≡ Some p
        → IsSound (written_at t s p) owed × (heap_of (written_at t s p) ≡ heap_of t) }
{}

/// Two objects that have no body in core change places on disk, and counts stay with their names: the heap has them exchanged.
pub fn two_objects_change_places()
    ensures sound { (t : Levels) (a b : ℕ) (r k : Stored) (owed : List Value) → IsSound t owed → IsBare t a → IsBare t b → t.stored a ≡ Some r
        → t.stored b ≡ Some k → IsSound (swapped t a b r k) owed }
    ensures heap { (t : Levels) (a b : ℕ) (r k : Stored) → IsCore t.core → IsBare t a → IsBare t b → t.stored a ≡ Some r
        → t.stored b ≡ Some k → heap_of (swapped t a b r k) ≡ swap_objects (heap_of t) a b }
{}

/// A core without entries over a disk that has just a heap's objects with their exact counts is sound, and that heap is the held one.
pub fn a_disk_begins()
    ensures sound { (t : Levels) (h : Heap) → IsBegun t h → IsSound t [] }
    ensures heap { (t : Levels) (h : Heap) → IsBegun t h → heap_of t ≡ h }
{}

/// What a body uses is counted, and has its object.
pub fn what_is_used_is_counted()
    ensures counted { (t : Levels) (s : ℕ) → IsCore t.core → IsHeld (heap_of t) → 1 ≤ uses t.core s → 0 < count_of (heap_of t) (t.core.entries s).name }
    ensures there { (t : Levels) (s : ℕ) → IsCore t.core → IsHeld (heap_of t) → 1 ≤ uses t.core s → Has (heap_of t) (t.core.entries s).name }
    ensures unused { (t : Levels) (q s : ℕ) → IsCore t.core → IsHeld (heap_of t) → t.core.find q ≡ Some s → count_of (heap_of t) q ≡ 0 → uses t.core s ≡ 0 }
{}

/// What is pending is dead and on disk, without an entry. Where none is pending and no leaf is idle, no name without a body is dead.
pub fn dead_names_are_found()
    ensures pending { (t : Levels) (n : ℕ) → IsSound t [] → is_waiting t n ≡ true → (r : Stored) × IsLoose t n r }
    ensures none { (t : Levels) → IsSound t [] → t.pending ≡ [] → NoneIdle t.core → NoneBareDead t }
{}

/// A thinning in which nothing is dead is what is kept, with what is named from outside as roots. Without entries the disk has just that heap.
pub fn what_is_left_is_kept()
    ensures kept { (h : Heap) (t : Levels) → IsBounded h → IsThinner h (heap_of t) → IsSound t [] → NoneDead t → heap_of t ≡ kept h (is_root t) }
    ensures image { (t : Levels) → IsSound t [] → ((q : ℕ) → t.core.find q ≡ None) → IsImage t.stored (heap_of t) }
{}

/// As many objects are held as have a record, and those that are fresh.
pub fn objects_are_counted()
    ensures { (t : Levels) (owed : List Value) → IsSound t owed → object_count (heap_of t) ≡ stored_count t + fresh_of t.core }
{}

/// Freeing takes no ring: objects each of which holds the next, and the last the first, stay in each thinner heap that is closed.
pub fn rings_stay()
    ensures { (h s : Heap) (n : ℕ) (rest : List ℕ) → IsThinner h s → IsClosed s → IsPath h n rest n → All (λ k. Has s k) (n ∷ rest) }
{}

/// No word is counted 2 to the 48 times, where names have 32 bits and objects their sizes.
pub fn counts_are_small()
    ensures { (h : Heap) (q : ℕ) → h.next ≤ 2 ^ 32 → ((k : ℕ) (o : Object) → h.at k ≡ Some o → length (fields_of o.body) ≤ MOST_FIELDS)
        → count_of h q ≤ 2 ^ 48 }
{}

/// No count leaves its number: one word less of an entry's name, or so many more, is a change of 64 bits, and so is the sum that is folded
/// on disk. A name without an entry of which a word is owed has a count on disk that may be lowered.
pub fn counts_fit_their_numbers()
    ensures change { (t : Levels) (s : ℕ) (owed : List Value) → IsSound t owed → is_used (t.core.entries s).state ≡ true
        → (negsuc (2 ^ 63 - 1) ≤ℤ ((t.core.entries s).change +ℤ negsuc 0)) × (((t.core.entries s).change +ℤ negsuc 0) ≤ℤ pos (2 ^ 63 - 1)) }
    ensures more { (t : Levels) (s n : ℕ) (owed : List Value) → IsSound t owed → is_used (t.core.entries s).state ≡ true → n < 2 ^ 62
        → (negsuc (2 ^ 63 - 1) ≤ℤ ((t.core.entries s).change +ℤ pos n)) × (((t.core.entries s).change +ℤ pos n) ≤ℤ pos (2 ^ 63 - 1)) }
    ensures sum { (t : Levels) (s : ℕ) (owed : List Value) → IsSound t owed → is_used (t.core.entries s).state ≡ true
        → FitsUnsigned w64 (pos (count_in (t.stored (t.core.entries s).name)) +ℤ (t.core.entries s).change) }
    ensures stored { (t : Levels) (n : ℕ) (owed : List Value) → IsSound t (Ref n ∷ owed) → t.core.find n ≡ None → HasCount t.stored t.pending n }
{}
