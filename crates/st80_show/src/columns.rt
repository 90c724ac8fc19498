// Numbers in columns.
use st80_objects::put_decimal;
use std::alloc::AllocError;

/// Puts a number with commas, with spaces in front of it up to so many columns.
pub(crate) fn put_number(out: &mut String, number: u64, columns: usize) -> Result<(), AllocError> {
    let mut text = String::new(*out.allocator());
    put_decimal(&mut text, number)?;
    put_right(out, text.as_str(), columns)
}

/// Puts a text with spaces in front of it up to so many columns.
pub(crate) fn put_right(out: &mut String, text: &str, columns: usize) -> Result<(), AllocError> {
    put_spaces(out, columns.saturating_sub(text.len()))?;
    out.push_str(text)
}

/// Puts so many spaces.
pub(crate) fn put_spaces(out: &mut String, count: usize) -> Result<(), AllocError> {
    for _ in 0..count {
        out.push(' ')?;
    }
    Ok(())
}

/// Puts `1 word`, or `12 words`.
pub(crate) fn put_counted(
    out: &mut String,
    count: u64,
    one: &str,
    many: &str,
) -> Result<(), AllocError> {
    put_decimal(out, count)?;
    out.push(' ')?;
    out.push_str(if count == 1 { one } else { many })
}

/// Puts how many lines were left out, unless none was.
pub(crate) fn put_left_out(out: &mut String, count: usize, what: &str) -> Result<(), AllocError> {
    if count == 0 {
        return Ok(());
    }
    out.push_str("  .. and ")?;
    put_decimal(out, count as u64)?;
    out.push_str(" more ")?;
    out.push_str(what)?;
    out.push('\n')
}
