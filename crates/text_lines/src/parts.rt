// The parts of a line, which single spaces set apart.
ghost use Rattle.std.specs.Prelude.{◌≡◌, ◌≤◌, [], ◌∷◌, IfSome, IfNone, length, position};
ghost use Rattle.std.specs.List.{position_or_len, slice_split};
ghost use Rattle.text_lines.specs.Parts.{is_space, parts_behind};

/// What stands on a line behind the parts that were taken: nothing, or a space and more parts.
#[derive(Clone, Copy)]
pub struct Parts<'a> {
    pub tail: &'a [u8],
}

/// Where the first space stands, if there is one.
fn space_in(line: &[u8]) -> Option<usize>
    ensures { result ≡ position is_space line.now }
{
    line.iter().position(|b| *b == b' ')
}

/// Where the first space stands, or the line's end.
fn first_space(line: &[u8]) -> usize
    ensures at { result ≡ position_or_len is_space line.now }
    ensures within { result ≤ length line.now }
{
    space_in(line).unwrap_or(line.len())
}

/// The first part of a line, and what stands behind it.
pub fn first_part(line: &[u8]) -> (&[u8], Parts<'_>)
    ensures { slice_split is_space line.now ≡ result.0.now ∷ parts_behind result.1.tail.now }
{
    let (part, tail) = line.split_at(first_space(line));
    (part, Parts { tail })
}

impl<'a> Parts<'a> {
    /// Takes the next part, if there is one.
    pub fn next(&mut self) -> Option<&'a [u8]>
        ensures some { IfSome result (λ part. parts_behind self.old.tail.now ≡ part.now ∷ parts_behind self.new.tail.now) }
        ensures none { IfNone result (parts_behind self.old.tail.now ≡ []) }
    {
        let (_, line) = self.tail.split_first()?;
        let (part, behind) = first_part(line);
        *self = behind;
        Some(part)
    }
}
