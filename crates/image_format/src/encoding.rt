// Writing a record.
// An encoder that may run out of memory halfway keeps that its output extends the old one, and `truncate` gives the old one
// back.
ghost use Rattle.std.specs.Prelude.{◌≡◌, ◌++◌, ◌^◌, ◌<◌, All, OnOk, OnErr};
ghost use Rattle.long_names.specs.Words.{IsValue};
ghost use Rattle.long_names.specs.Objects.{IsBody, IsRecord, HasRange};
ghost use Rattle.long_names.specs.Names.{IsLongName};
ghost use Rattle.long_names.specs.Record.{two_bytes, four_bytes, eight_bytes, values_text, words_text, contents_text, record_head, record_text};
ghost use Rattle.image_format.specs.Inside.{Extends};

use crate::big_endian::{bytes_of_u16, bytes_of_u32, bytes_of_u64};
use crate::reading::padding_of;
use long_names::{Body, Name, Object, Octets, Rec, Value, Values, Words16, long_word};
use std::alloc::AllocError;

/// The most zeros at a record's end.
const ZEROS: [u8; 3] = [0; 3];

fn put_u16(out: &mut Octets, number: u16) -> Result<(), AllocError>
    ensures ok { OnOk result (out.new ≡ out.old ++ two_bytes number) }
    ensures err { OnErr result (out.new ≡ out.old) }
{
    out.extend(&bytes_of_u16(number))
}

fn put_u32(out: &mut Octets, number: u32) -> Result<(), AllocError>
    ensures ok { OnOk result (out.new ≡ out.old ++ four_bytes number) }
    ensures err { OnErr result (out.new ≡ out.old) }
{
    out.extend(&bytes_of_u32(number))
}

fn put_u64(out: &mut Octets, number: u64) -> Result<(), AllocError>
    ensures ok { OnOk result (out.new ≡ out.old ++ eight_bytes number) }
    ensures err { OnErr result (out.new ≡ out.old) }
{
    out.extend(&bytes_of_u64(number))
}

fn put_values(out: &mut Octets, values: &Values) -> Result<(), AllocError>
    requires { All IsValue values.now }
    ensures ok { OnOk result (out.new ≡ out.old ++ values_text values.now) }
    ensures err { OnErr result (Extends out.old out.new) }
{
    for i in 0..values.len() {
        let value = *values.item(i);
        put_u32(out, long_word(value))?;
    }
    Ok(())
}

fn put_words(out: &mut Octets, words: &Words16) -> Result<(), AllocError>
    ensures ok { OnOk result (out.new ≡ out.old ++ words_text words.now) }
    ensures range { OnOk result (All (λ w. w < 2 ^ 16) words.now) }
    ensures err { OnErr result (Extends out.old out.new) }
{
    for i in 0..words.len() {
        let word = *words.item(i);
        put_u16(out, word)?;
    }
    Ok(())
}

fn put_bytes(out: &mut Octets, bytes: &[u8]) -> Result<(), AllocError>
    ensures ok { OnOk result (out.new ≡ out.old ++ bytes.now) }
    ensures range { All (λ b. b < 2 ^ 8) bytes.now }
    ensures err { OnErr result (out.new ≡ out.old) }
{
    out.extend(bytes)
}

fn put_contents(out: &mut Octets, body: &Body) -> Result<(), AllocError>
    requires { IsBody body.now }
    ensures ok { OnOk result (out.new ≡ out.old ++ contents_text body.now) }
    ensures range { OnOk result (HasRange body.now) }
    ensures err { OnErr result (Extends out.old out.new) }
{
    match body {
        Body::Pointers(values) => put_values(out, values),
        Body::Words(words) => put_words(out, words),
        Body::Bytes(octets) => put_bytes(out, octets.bytes()),
        Body::Method {
            header,
            literals,
            code,
        } => {
            put_u32(out, literals.len() as u32)?;
            put_u32(out, long_word(Value::Int(*header)))?;
            put_values(out, literals)?;
            put_bytes(out, code.bytes())
        }
    }
}

fn put_head(
    out: &mut Octets,
    name: Name,
    class: Name,
    count: u64,
    body: &Body,
) -> Result<(), AllocError>
    requires { IsBody body.now }
    ensures ok { OnOk result (out.new ≡ out.old ++ record_head record { name = name; class = class; count = count; body = body.now }) }
    ensures names { OnOk result (IsLongName name × IsLongName class) }
    ensures err { OnErr result (Extends out.old out.new) }
{
    put_u32(out, name.get())?;
    put_u32(out, class.get())?;
    put_u64(out, count)?;
    put_u16(out, body.kind() as u16)?;
    put_u16(out, body.len() as u16)
}

fn append(
    out: &mut Octets,
    name: Name,
    class: Name,
    count: u64,
    body: &Body,
) -> Result<(), AllocError>
    requires { IsBody body.now }
    ensures ok { OnOk result (out.new ≡ out.old ++ record_text record { name = name; class = class; count = count; body = body.now }) }
    ensures record { OnOk result (IsRecord record { name = name; class = class; count = count; body = body.now }) }
    ensures err { OnErr result (Extends out.old out.new) }
{
    let start = out.len();
    put_head(out, name, class, count, body)?;
    put_contents(out, body)?;
    let zeros = padding_of(out.len() - start);
    out.extend(&ZEROS[..zeros])
}

/// Appends the whole record, or nothing.
fn append_whole(
    out: &mut Octets,
    name: Name,
    class: Name,
    count: u64,
    body: &Body,
) -> Result<(), AllocError>
    requires { IsBody body.now }
    ensures ok { OnOk result (out.new ≡ out.old ++ record_text record { name = name; class = class; count = count; body = body.now }) }
    ensures record { OnOk result (IsRecord record { name = name; class = class; count = count; body = body.now }) }
    ensures err { OnErr result (out.new ≡ out.old) }
{
    let len = out.len();
    let done = append(out, name, class, count, body);
    if done.is_err() {
        out.truncate(len);
    }
    done
}

/// Appends the one text of the record of an object, with its name and its count. Without memory the bytes are as before.
///
/// The condition is that the body is one that an object may have. What was appended is read again by `decode_rec`, whatever follows it: each record has one text, and no text of a record begins another (`one_text`).
pub fn encode_object(
    name: Name,
    count: u64,
    object: &Object,
    out: &mut Octets,
) -> Result<(), AllocError>
    requires { IsBody object.now.body }
    ensures ok { OnOk result (out.new ≡ out.old ++ record_text record { name = name; class = object.now.class; count = count; body = object.now.body }) }
    // It is a record, so that it is read again.
    ensures record { OnOk result (IsRecord record { name = name; class = object.now.class; count = count; body = object.now.body }) }
    ensures err { OnErr result (out.new ≡ out.old) }
{
    append_whole(out, name, object.class, count, &object.body)
}

/// Appends the one text of the record, as `encode_object` does.
pub fn encode_rec(rec: &Rec, out: &mut Octets) -> Result<(), AllocError>
    requires { IsBody rec.now.body }
    ensures ok { OnOk result (out.new ≡ out.old ++ record_text rec.now) }
    // It is a record, so that it is read again.
    ensures record { OnOk result (IsRecord rec.now) }
    ensures err { OnErr result (out.new ≡ out.old) }
{
    append_whole(out, rec.name, rec.class, rec.count, &rec.body)
}
