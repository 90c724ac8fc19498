// What holds of the texts of records and of heaps, whatever reads or writes them.
ghost use Rattle.std.specs.Prelude.{◌≡◌, ◌↔◌, ℕ, ◌<◌, ◌≤◌, ◌%◌, ◌^◌, ◌≢◌, ◌+◌, ◌++◌, List, All, length, take, drop, None, Ok, Err};
ghost use Rattle.long_names.specs.declared.object.Rec.{Rec};
ghost use Rattle.long_names.specs.Objects.{IsRecord};
ghost use Rattle.long_names.specs.Record.{four_bytes, record_text};
ghost use Rattle.long_names.specs.Heap.{Heap};
ghost use Rattle.image_format.specs.Text.{image_text};
ghost use Rattle.image_format.specs.Valid.{IsImageHeap, IsValid};
ghost use Rattle.image_format.specs.declared.head.TheConstants.{VERSION};
ghost use Rattle.image_format.specs.declared.opening.ImageHead.{ImageHead};
ghost use Rattle.image_format.specs.declared.fault.Halt.{Halt};
ghost use Rattle.image_format.specs.Reading.{halt, record_at};
ghost use Rattle.image_format.specs.Rules.{first_break, IsHeadOf, text_under, IsValidImage};
ghost use Rattle.long_names.specs.declared.limits.TheConstants.{LONGEST_RECORD};

/// Each record has one text, and no text of a record begins another. So what was written is read again, whatever follows it.
pub fn one_text()
    ensures { (a b : Rec) (x y : List ℕ) → IsRecord a → IsRecord b → record_text a ++ x ≡ record_text b ++ y → (a ≡ b) × (x ≡ y) }
{}

/// A record has at most `LONGEST_RECORD` bytes, and a multiple of four.
pub fn longest_record()
    ensures longest { (r : Rec) → IsRecord r → length (record_text r) ≤ LONGEST_RECORD }
    ensures whole { (r : Rec) → length (record_text r) % 4 ≡ 0 }
{}

/// Valid bytes are the text of exactly one heap: two heaps with one text have the same objects and the same next name.
pub fn one_heap()
    ensures { (g h : Heap) → IsImageHeap g → IsImageHeap h → image_text g ≡ image_text h → g ≡ h }
{}

/// No rule breaks exactly where the bytes are the text of a heap that an image may have, of version 1 or 2.
pub fn no_rule_breaks()
    ensures { (bytes : List ℕ) → All (λ b. b < 2 ^ 8) bytes → (first_break bytes ≡ None ↔ IsValidImage bytes) }
{}

/// Images of version 1 in which no rule breaks are those that are valid without a state.
pub fn no_rule_breaks_in_version_1()
    ensures { (bytes : List ℕ) → All (λ b. b < 2 ^ 8) bytes → (IsValid bytes ↔ (first_break bytes ≡ None) × (take 4 (drop 4 bytes) ≡ four_bytes VERSION)) }
{}

/// Bytes are the text of one heap, one version and one state.
pub fn one_image()
    ensures { (g h : Heap) (a b : ImageHead) → IsImageHeap g → IsImageHeap h → IsHeadOf g a → IsHeadOf h b → text_under a g ≡ text_under b h → (g ≡ h) × (a ≡ b) }
{}

/// What stands at the front of a window is what stands at the front of the whole, unless the window ends first; and none that is longer than a record ends within one.
pub fn a_window_decides()
    ensures record { (bytes left : List ℕ) (x : Rec × List ℕ) → record_at bytes ≡ Ok x → record_at (bytes ++ left) ≡ Ok (x.0, x.1 ++ left) }
    ensures broken { (bytes left : List ℕ) (h : Halt) → record_at bytes ≡ Err h → h.rule ≢ 9 → record_at (bytes ++ left) ≡ Err (halt h.rule (h.left + length left)) }
    ensures long { (bytes : List ℕ) (h : Halt) → All (λ b. b < 2 ^ 8) bytes → LONGEST_RECORD + 4 ≤ length bytes → record_at bytes ≡ Err h → h.rule ≢ 9 }
{}
