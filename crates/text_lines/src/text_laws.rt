// What holds of whole texts.
ghost use Rattle.std.specs.Prelude.{◌≡◌, ◌↔◌, ℕ, List, None, Ok};
ghost use Rattle.long_names.specs.Heap.{Heap};
ghost use Rattle.long_names.specs.declared.object.Rec.{Rec};
ghost use Rattle.image_format.specs.Rules.{Image};
ghost use Rattle.image_format.specs.declared.opening.State.{State};
ghost use Rattle.text_lines.specs.Breaks.{image_of, text_at, text_break};
ghost use Rattle.text_lines.specs.Grammar.{Head};
ghost use Rattle.text_lines.specs.Texts.{AreStated, IsImageText, IsTextOf, recs_text};

/// What a text is read as has one text, which is that one.
pub fn one_reading()
    ensures { (text : List ℕ) (x : Image) → text_at text ≡ Ok x → (head : Head) × (recs : List Rec) × AreStated head recs × (x ≡ image_of head recs) × (text ≡ recs_text head recs) }
{}

/// The text of records is read back.
pub fn text_back()
    ensures { (head : Head) (recs : List Rec) → AreStated head recs → text_at (recs_text head recs) ≡ Ok (image_of head recs) }
{}

/// Nothing breaks exactly where a text is that of a heap that an image may have, and of a state.
pub fn no_line_breaks()
    ensures { (text : List ℕ) → (text_break text ≡ None ↔ IsImageText text) }
{}

/// A text is that of one heap and one state.
pub fn one_text()
    ensures { (text : List ℕ) (g h : Heap) (s t : State) → IsTextOf text g s → IsTextOf text h t → (g ≡ h) × (s ≡ t) }
{}
