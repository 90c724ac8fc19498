//! What follows from the grammar: a text is read in one way, and no further than its first bad line.
ghost use Rattle.std.specs.Prelude.{◌≡◌, ◌+◌, ◌*◌, ◌/◌, ℕ, List, length};
ghost use Rattle.loom_host.specs.Outside.{RoleState, TookSome};
ghost use Rattle.blue_model.specs.declared.event.Line.{Line};
ghost use Rattle.event_file.specs.Reading.{StopsInPiece, unseen};
ghost use Rattle.event_file.specs.Text.{AreRight, IsBadAt, events_text};
ghost use Rattle.event_file.specs.declared.limits.TheConstants.{PIECE};

/// A text is that of one list of lines at most.
pub fn a_text_has_one_list()
    ensures { (a b : List Line) → AreRight a → AreRight b → events_text a ≡ events_text b → a ≡ b }
{}

/// A text has one first bad line at most.
pub fn a_text_has_one_bad_line()
    ensures { (j k : ℕ) (text : List ℕ) → IsBadAt j text → IsBadAt k text → j ≡ k }
{}

/// The text of right lines has no bad line.
pub fn a_right_text_has_no_bad_line()
    ensures { (lines : List Line) (k : ℕ) → AreRight lines → IsBadAt k (events_text lines) → ⊥ }
{}

/// Where reading stopped at a bad line, the last piece that was taken is the one that holds the byte that shows the line bad: its end,
/// the byte behind the longest line, or the first byte behind the most lines.
pub fn no_piece_is_read_behind_a_bad_line()
    ensures { (line : ℕ) (old new : RoleState) (bad : IsBadAt line old.left) → StopsInPiece old new
        → TookSome (PIECE * ((length (events_text bad.lines) + unseen (length bad.lines) bad.rest) / PIECE + 1)) old new }
{}
