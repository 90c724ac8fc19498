// What holds of a line and of what it states.
ghost use Rattle.std.specs.Prelude.{◌≡◌, ◌++◌, ◌∷◌, ◌<◌, ◌^◌, [], ℕ, List, Some};
ghost use Rattle.long_names.specs.Objects.{IsRecord};
ghost use Rattle.long_names.specs.declared.object.Rec.{Rec};
ghost use Rattle.image_format.specs.Rules.{object_of_rec};
ghost use Rattle.text_lines.specs.Grammar.{Head, line_head, line_object};
ghost use Rattle.text_lines.specs.Spelling.{head_parts, line_of, object_parts};

/// What a line states has one spelling, which is the line.
pub fn one_line()
    ensures object { (line : List ℕ) (r : Rec) → line_object line ≡ Some r → r.name < 2 ^ 32 → line ++ 10 ∷ [] ≡ line_of (object_parts r.name (object_of_rec r)) }
    ensures head { (line : List ℕ) (h : Head) → line_head line ≡ Some h → line ++ 10 ∷ [] ≡ line_of (head_parts h.next h.state) }
{}

/// What a line spells is read back; the count isn't written.
pub fn line_back()
    ensures object { (line : List ℕ) (r : Rec) → IsRecord r → r.count ≡ 0 → line ++ 10 ∷ [] ≡ line_of (object_parts r.name (object_of_rec r)) → line_object line ≡ Some r }
    ensures head { (line : List ℕ) (h : Head) → h.next < 2 ^ 32 → h.state.clock < 2 ^ 32 → h.state.display < 2 ^ 32 → h.state.input < 2 ^ 32 → h.state.timer < 2 ^ 32 → h.state.tick < 2 ^ 32
        → line ++ 10 ∷ [] ≡ line_of (head_parts h.next h.state) → line_head line ≡ Some h }
{}
