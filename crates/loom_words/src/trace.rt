// The lines of a trace.
ghost use Rattle.std.specs.Prelude.{◌≡◌, ◌++◌, ◌≤◌, drop, length};
ghost use Rattle.arrayvec.specs.ArrayString.{array_string_len};
ghost use Rattle.loom_words.specs.Trace.{trace_text};

use crate::status::{Line, put_number};
use long_names::Name;

/// Writes the line of one bytecode to the front of `out`, and leaves the rest: `k CONTEXT IP BYTE`, with its newline. The answer is the line's
/// length. It takes no memory.
pub fn trace_line(k: u32, context: Name, ip: u32, byte: u8, out: &mut [u8; 40]) -> u32
    ensures line { out.new ≡ trace_text k context ip byte ++ drop (length (trace_text k context ip byte)) out.old }
    ensures length { result ≡ length (trace_text k context ip byte) }
    ensures short { result ≤ 37 }
{
    let line = traced(k, context, ip, byte);
    let text = line.as_str().as_bytes();
    out[..text.len()].copy_from_slice(text);
    text.len() as u32
}

fn traced(k: u32, context: Name, ip: u32, byte: u8) -> Line
    ensures text { result.bytes ≡ trace_text k context ip byte }
    ensures short { array_string_len result ≤ 37 }
{
    let mut line = Line::new();
    put_number(&mut line, k as u64);
    line.push_str(" ");
    put_number(&mut line, context.get() as u64);
    line.push_str(" ");
    put_number(&mut line, ip as u64);
    line.push_str(" ");
    put_number(&mut line, byte as u64);
    line.push_str("\n");
    line
}
