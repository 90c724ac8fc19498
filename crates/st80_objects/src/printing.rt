// Numbers and bytes as ASCII.
use std::alloc::AllocError;

/// Puts a byte: itself where it can be printed, otherwise `\n`, `\t`, `\r` or `\x` with two digits.
fn put_byte(out: &mut String, byte: u8) -> Result<(), AllocError> {
    match byte {
        b'\n' => out.push_str("\\n"),
        b'\t' => out.push_str("\\t"),
        b'\r' => out.push_str("\\r"),
        b'\\' => out.push_str("\\\\"),
        0x20..=0x7E => out.push(char::from(byte)),
        _ => write!(out, "\\x{byte:02x}"),
    }
}

/// Puts bytes as text, and those that can't be printed as escapes.
pub fn put_bytes(out: &mut String, bytes: &[u8]) -> Result<(), AllocError> {
    for byte in bytes {
        put_byte(out, *byte)?;
    }
    Ok(())
}

/// Whether bytes can stand behind `#` as they are.
fn is_plain(bytes: &[u8]) -> bool {
    !bytes.is_empty()
        && bytes
            .iter()
            .all(|b| b.is_ascii_graphic() && *b != b'\'' && *b != b'#')
}

/// Puts bytes as a symbol: `#at:put:`, or `#'two words'`.
pub fn put_symbol(out: &mut String, bytes: &[u8]) -> Result<(), AllocError> {
    out.push('#')?;
    if is_plain(bytes) {
        for byte in bytes {
            out.push(char::from(*byte))?;
        }
        return Ok(());
    }
    out.push('\'')?;
    put_bytes(out, bytes)?;
    out.push('\'')
}

/// Puts a number with a comma between each three digits, as 1,048,576.
pub fn put_decimal(out: &mut String, number: u64) -> Result<(), AllocError> {
    let digits = format!(in *out.allocator(); "{number}")?;
    let bytes = digits.as_bytes();
    for (i, digit) in bytes.iter().enumerate() {
        if i > 0 && (bytes.len() - i) % 3 == 0 {
            out.push(',')?;
        }
        out.push(char::from(*digit))?;
    }
    Ok(())
}

/// Puts a line and its end.
pub fn put_line(out: &mut String, line: &str) -> Result<(), AllocError> {
    out.push_str(line)?;
    out.push('\n')
}
