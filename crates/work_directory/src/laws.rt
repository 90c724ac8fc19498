// Laws of a directory in Work. No code calls these functions: what each of them ensures is the law.
ghost use Rattle.std.specs.Prelude.{◌≡◌, ◌<◌, ℕ, List, Some};
ghost use Rattle.std.specs.FinMap as map;
ghost use Rattle.work_directory.specs.Directory.{slots_of, end_of, entries_of, shown_at, AnswersSearch, IsIn, IsOfName};
ghost use Rattle.work_directory.specs.Table.{Entry, entry_of};
ghost use Rattle.work_directory.specs.Work.{SameBefore};
ghost use Rattle.work_directory.specs.declared.directory.Directory.{Directory};
ghost use Rattle.work_directory.specs.declared.directory.Found.{Found};
ghost use Rattle.work_directory.specs.declared.slot.Slot.{Slot};

/// What is written behind a directory leaves it, its entries and where a search ends as they were.
pub fn what_stands_behind_is_no_part_of_it()
    ensures stands { (d : Directory) (v w : List ℕ) → SameBefore (end_of d) v w → IsIn d v → IsIn d w }
    ensures entries { (d : Directory) (v w : List ℕ) → SameBefore (end_of d) v w → entries_of d w ≡ entries_of d v }
    ensures ends { (d : Directory) (v w : List ℕ) (name : ℕ) (found : Found) → SameBefore (end_of d) v w → IsOfName (slots_of d) name found →
        AnswersSearch v (slots_of d) name found → AnswersSearch w (slots_of d) name found }
{}

/// What the slots show are its entries, and each has one slot.
pub fn each_entry_has_one_slot()
    ensures shown { (d : Directory) (w : List ℕ) (i : ℕ) (s : Slot) → IsIn d w → i < slots_of d → shown_at w i ≡ Some s → map.get (entries_of d w) s.name ≡ Some (entry_of s) }
    ensures there { (d : Directory) (w : List ℕ) (name : ℕ) (e : Entry) → map.get (entries_of d w) name ≡ Some e → (i : ℕ) × (i < slots_of d) × (shown_at w i ≡ Some (record { name = name; count = e.count; place = e.place })) }
    ensures one { (d : Directory) (w : List ℕ) (i j : ℕ) (s t : Slot) → IsIn d w → i < slots_of d → j < slots_of d → shown_at w i ≡ Some s → shown_at w j ≡ Some t → s.name ≡ t.name → i ≡ j }
{}
