// What people call a place: the line and the column, both from 1.
ghost use Rattle.std.specs.Prelude.{◌≡◌, ◌+◌, min, length, take};
ghost use Rattle.st80_source.specs.Places.{column_behind, line_behind};

/// The number of the line in which a place is.
pub fn line_of(text: &[u8], at: usize) -> usize
    ensures { result ≡ line_behind (take at text.now) }
{
    let mut line = 1;
    for b in &text[..at.min(text.len())] {
        if *b == b'\n' {
            line += 1;
        }
    }
    line
}

/// The number of the byte of its line that stands at a place.
pub fn column_of(text: &[u8], at: usize) -> usize
    ensures { result ≡ column_behind (take at text.now) }
{
    let mut column = 1;
    for b in &text[..at.min(text.len())] {
        if *b == b'\n' {
            column = 1;
        } else {
            column += 1;
        }
    }
    column
}
