// A place in a file that is read in order.
ghost use Rattle.std.specs.Prelude.{◌≤◌};

#[derive(Clone, Copy)]
pub struct Reader {
    // which file
    pub file: usize,
    // how many of its bytes were taken
    pub taken: usize,
    // how long it was at the attach
    pub end: usize,
    ghost order: { taken ≤ end },
}
