// The parts of a line, spelled one by one. They take no memory.
ghost use Rattle.std.specs.Prelude.{◌≡◌, ◌++◌, ◌∷◌, ◌+◌, ◌≤◌, ◌<◌, decimal, length, slice_index};
ghost use Rattle.std.specs.Char.{digit_char};
ghost use Rattle.arrayvec.specs.ArrayString.{array_string_len};
ghost use Rattle.object_record.specs.Buffer.{HasRecord, raw_of};
ghost use Rattle.object_record.specs.Objects.{value_in};
ghost use Rattle.text_lines.specs.PartSpelling as spelling;
ghost use Rattle.text_lines.specs.PartSpelling.{byte_text, value_text, word_text};
ghost use Rattle.text_lines.specs.Spelling.{head_parts, line_of};
ghost use Rattle.image_text.specs.Items.{head_text, item_text, items_of};

use arrayvec::ArrayString;
use image_format::State;
use itoa::Buffer;
use long_names::Kind;
use object_record::RecordBuf;

/// Some parts of a line, or the whole first line.
pub(crate) type Spelled = ArrayString<80>;

/// A long word below this, halved, is that of a number that isn't negative.
const NEGATIVES: u32 = 0x4000_0000;

/// What the items of an object are: values (of a method its literals), words, or bytes (of a method its code).
#[derive(Clone, Copy, Debug)]
pub(crate) enum Items {
    Values,
    Words,
    Bytes,
}

fn put_number(line: &mut Spelled, number: u32)
    requires { array_string_len line.old ≤ 70 }
    ensures text { line.new.bytes ≡ line.old.bytes ++ decimal number }
    ensures short { array_string_len line.new ≤ array_string_len line.old + 10 }
{
    let mut buffer = Buffer::new();
    line.push_str(buffer.format(number));
}

/// Appends a space and a number.
fn put_next(line: &mut Spelled, number: u32)
    requires { array_string_len line.old ≤ 69 }
    ensures text { line.new.bytes ≡ line.old.bytes ++ 32 ∷ decimal number }
    ensures short { array_string_len line.new ≤ array_string_len line.old + 11 }
{
    line.push_str(" ");
    put_number(line, number);
}

/// The first line, with its end.
pub(crate) fn first_line(next: u32, state: &State) -> Spelled
    ensures { result.bytes ≡ line_of (head_parts next state.now) }
{
    let mut line = Spelled::new();
    line.push_str("loom");
    put_next(&mut line, next);
    put_next(&mut line, state.clock);
    put_next(&mut line, state.display);
    put_next(&mut line, state.input);
    put_next(&mut line, state.timer);
    put_next(&mut line, state.tick);
    line.push_str("\n");
    line
}

fn kind_text(kind: Kind) -> &'static str
    ensures text { result.now ≡ spelling.kind_text kind }
    ensures short { length result.now ≤ 8 }
{
    match kind {
        Kind::Pointers => "pointers",
        Kind::Words => "words",
        Kind::Bytes => "bytes",
        Kind::Method => "method",
    }
}

/// The name, the class and the kind of the buffer's object.
pub(crate) fn object_head(buf: &RecordBuf) -> Spelled
    requires { HasRecord buf.now }
    ensures { result.bytes ≡ head_text (raw_of buf.now) }
{
    let mut line = Spelled::new();
    put_number(&mut line, buf.name().get());
    put_next(&mut line, buf.class().get());
    line.push_str(" ");
    line.push_str(kind_text(buf.kind()));
    line
}

/// A space, and the value of a long word.
pub(crate) fn value_part(long: u32) -> Spelled
    ensures { result.bytes ≡ 32 ∷ value_text (value_in long) }
{
    let mut part = Spelled::new();
    let half = long / 2;
    if long % 2 == 0 {
        put_next(&mut part, long);
    } else if half < NEGATIVES {
        put_next(&mut part, half);
        part.push_str("i");
    } else {
        part.push_str(" -");
        put_number(&mut part, 2 * NEGATIVES - half);
        part.push_str("i");
    }
    part
}

/// The hexadecimal digit of a number below 16.
fn digit(number: u8) -> char
    requires { number < 16 }
    ensures digit { result ≡ digit_char number }
    ensures ascii { result < 128 }
{
    if number < 10 {
        char::from(b'0' + number)
    } else {
        char::from(b'a' + (number - 10))
    }
}

/// Appends a byte's two digits.
fn put_byte(part: &mut Spelled, byte: u8)
    requires { array_string_len part.old ≤ 70 }
    ensures text { part.new.bytes ≡ part.old.bytes ++ byte_text byte }
    ensures short { array_string_len part.new ≡ array_string_len part.old + 2 }
{
    part.push(digit(byte / 16));
    part.push(digit(byte % 16));
}

/// A space, and a byte.
fn byte_part(byte: u8) -> Spelled
    ensures { result.bytes ≡ 32 ∷ byte_text byte }
{
    let mut part = Spelled::new();
    part.push_str(" ");
    put_byte(&mut part, byte);
    part
}

/// A space, and a word.
fn word_part(word: u16) -> Spelled
    ensures { result.bytes ≡ 32 ∷ word_text word }
{
    let mut part = Spelled::new();
    part.push_str(" ");
    put_byte(&mut part, (word / 256) as u8);
    put_byte(&mut part, (word % 256) as u8);
    part
}

/// A space, and an item of the buffer's object.
pub(crate) fn item_part(buf: &RecordBuf, items: Items, i: u32) -> Spelled
    requires record { HasRecord buf.now }
    requires item { i < length (items_of items (raw_of buf.now).body) }
    ensures { result.bytes ≡ item_text items (slice_index (items_of items (raw_of buf.now).body) i) }
{
    match items {
        Items::Values => value_part(buf.long_field(i)),
        Items::Words => word_part(buf.word(i)),
        Items::Bytes => byte_part(buf.byte(i)),
    }
}
