// Where two texts differ.
ghost use Rattle.std.specs.Prelude.{◌≡◌, IfNone, IfSome, take, slice_get};

/// The first place where two texts aren't the same, if there is one.
pub fn difference(made: &[u8], wanted: &[u8]) -> Option<usize>
    ensures same { IfNone result (made.now ≡ wanted.now) }
    ensures before { IfSome result (λ at. take at made.now ≡ take at wanted.now) }
    ensures here { IfSome result (λ at. slice_get made.now at ≡ slice_get wanted.now at → ⊥) }
{
    for at in 0..made.len() {
        if at >= wanted.len() || made[at] != wanted[at] {
            return Some(at);
        }
    }
    if made.len() < wanted.len() {
        Some(made.len())
    } else {
        None
    }
}
