// A transfer: a rule, two forms, and the pixels changed.

/// The pixels changed are those of the columns from `left` to `right` and of the rows from `top` to `bottom` of the destination, of
/// which `right` and `bottom` are past the last. Rows of the forms have `stride` and `source_stride` words. Where there is a source, its
/// pixel in column `source_left` and row `source_top` goes to the first pixel changed.
#[derive(Clone, Copy)]
pub struct Transfer {
    pub rule: u8,
    pub stride: usize,
    pub left: usize,
    pub right: usize,
    pub top: usize,
    pub bottom: usize,
    pub has_source: bool,
    pub source_stride: usize,
    pub source_left: usize,
    pub source_top: usize,
}
