// The image that is run, as a text.
use std::alloc::{AllocError, Global};

/// How many bytecodes come before its first checkpoint, and before each further one.
pub(crate) const FIRST: u32 = 6;

pub(crate) const ROUND: u32 = 12;

/// The machine counts in its first temporary, keeps itself (`snap`, primitive 97) and says a line (`say:`, primitive 128), again and again. So each checkpoint has
/// another clock, at its front, and another count, at its end; and whoever reads that a line was said knows that the checkpoint before it was answered.
const TEXT: &str = "loom 94 0 0 0 0 0
2 16 pointers
4 16 pointers
6 16 pointers
8 16 pointers 2 60
12 16 pointers
14 16 pointers
16 16 pointers 2 72 0i
22 16 pointers
24 16 pointers
26 16 pointers
28 16 pointers
30 16 pointers
32 16 pointers
34 16 pointers
38 16 pointers
40 16 pointers
42 16 pointers
44 16 pointers
48 16 pointers
50 16 pointers
52 16 pointers
58 16 pointers
60 16 pointers 2 62
62 16 pointers 2 92 1i 2
64 34 method 4i 76 78 80 90 code 10 76 b0 68 70 d0 87 70 22 e1 87 a3 f3
";

/// Behind two texts that are held alone.
const REST: &str = "
72 16 pointers 2i 74 76 78
74 16 pointers 82 84
76 14 bytes 73 6e 61 70
78 14 bytes 73 61 79 3a
80 14 bytes 6b 65 70 74 0a
82 34 method -4094i 97i 2 code 78
84 34 method -4094i 384i 2 code 78
90 16 pointers 66 68
92 22 pointers 2 11i 1i 64 2 2 0i 2 2 2 2 2 2 2 2 2 2 2
";

/// How many bytes each of these has. With both the image takes two blocks of a vault.
const LONG: u32 = 35_000;

// Adds bytes that differ from sector to sector.
fn add_bytes(text: &mut String, first: u32) -> Result<(), AllocError> {
    for i in 0..LONG {
        let byte = (i.wrapping_add(first) % 251) as u8;
        text.push(' ')?;
        text.push(digit(byte / 16))?;
        text.push(digit(byte % 16))?;
    }
    Ok(())
}

// A digit of base 16.
fn digit(number: u8) -> char {
    char::from_digit(u32::from(number), 16).unwrap_or('0')
}

pub(crate) fn text(alloc: Global) -> Result<String, AllocError> {
    let mut text = String::from_str(alloc, TEXT)?;
    text.push_str("66 14 bytes")?;
    add_bytes(&mut text, 0)?;
    text.push_str("\n68 14 bytes")?;
    add_bytes(&mut text, 100)?;
    text.push_str(REST)?;
    Ok(text)
}
