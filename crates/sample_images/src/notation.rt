// Objects as they are added to a builder.
ghost use Rattle.std.specs.Prelude.{◌≡◌, ◌+◌, ◌<◌, ◌==◌, ℕ, length, OnOk, OnErr, Some, if◌then◌else◌};
ghost use Rattle.long_names.specs.declared.limits.TheConstants.{MOST_FIELDS};
ghost use Rattle.long_names.specs.Names.{IsLongName, COMPILED_METHOD};
ghost use Rattle.long_names.specs.declared.object.Body.TheVariants.{Pointers, Words, Bytes, Method};
ghost use Rattle.image_builder.specs.Builder.{objects_of, object_at};
ghost use Rattle.sample_images.specs.Header.{number_of};
ghost use Rattle.long_names.specs.declared.value.Value.TheVariants.{Ref};

use image_builder::Builder;
use long_names::{Body, Name, Octets, SMALL_INTEGERS, Value, Values, Words16};
use std::alloc::{AllocError, Global};

/// nil's name as a field holds it.
pub const NIL: Value = Value::Ref(Name::NIL);

/// The name of this long word, which is even and above 0.
pub fn name(word: u32) -> Name
    requires { IsLongName word }
    ensures { result ≡ word }
{
    let Some(name) = Name::new(word) else {
        unreachable!()
    };
    name
}

/// The same name as a field holds it.
pub fn object(word: u32) -> Value
    requires { IsLongName word }
    ensures { result ≡ Ref word }
{
    Value::Ref(name(word))
}

/// Adds an object of these fields, in place of the one that the name has. Without memory the builder is as before.
pub fn add_pointers(
    alloc: Global,
    builder: &mut Builder,
    name: Name,
    class: Name,
    fields: &[Value],
) -> Result<(), AllocError>
    requires { length fields.now < MOST_FIELDS + 1 }
    ensures ok { OnOk result ((n : ℕ) → object_at builder.new n ≡ (if n == name then Some record { class = class; body = Pointers fields.now } else object_at builder.old n)) }
    ensures err { OnErr result (objects_of builder.new ≡ objects_of builder.old) }
{
    let body = Body::Pointers(Values::from_slice(alloc, fields)?);
    builder.add(name, class, body)
}

/// Adds an object of these words of 16 bits, in place of the one that the name has. Without memory the builder is as before.
pub fn add_words(
    alloc: Global,
    builder: &mut Builder,
    name: Name,
    class: Name,
    words: &[u16],
) -> Result<(), AllocError>
    requires { length words.now < MOST_FIELDS + 1 }
    ensures ok { OnOk result ((n : ℕ) → object_at builder.new n ≡ (if n == name then Some record { class = class; body = Words words.now } else object_at builder.old n)) }
    ensures err { OnErr result (objects_of builder.new ≡ objects_of builder.old) }
{
    let body = Body::Words(Words16::from_slice(alloc, words)?);
    builder.add(name, class, body)
}

/// Adds an object of these bytes, in place of the one that the name has. Without memory the builder is as before.
pub fn add_bytes(
    alloc: Global,
    builder: &mut Builder,
    name: Name,
    class: Name,
    bytes: &[u8],
) -> Result<(), AllocError>
    requires { length bytes.now < MOST_FIELDS + 1 }
    ensures ok { OnOk result ((n : ℕ) → object_at builder.new n ≡ (if n == name then Some record { class = class; body = Bytes bytes.now } else object_at builder.old n)) }
    ensures err { OnErr result (objects_of builder.new ≡ objects_of builder.old) }
{
    let body = Body::Bytes(Octets::from_slice(alloc, bytes)?);
    builder.add(name, class, body)
}

/// What a method's header says beside the number of its literals (chapter 27, compiled methods).
#[derive(Clone, Copy)]
pub struct Header {
    /// 0 to 4: so many arguments, 5: self is the answer, 6: a field is, 7: there is a header extension.
    pub flag: u8,
    /// How many temporaries there are, below 32; of a method that answers a field, the field's number.
    pub temporaries: u8,
    /// Whether a context has 32 fields from the first temporary on, or 12.
    pub is_large: bool,
}

impl Header {
    /// Of a method without arguments and temporaries, with a small context.
    pub const PLAIN: Header = Header {
        flag: 0,
        temporaries: 0,
        is_large: false,
    };

    /// The header of a method with so many literals, as a SmallInteger.
    fn number(self, literals: usize) -> i16
        ensures { result ≡ number_of self literals }
    {
        let large: i32 = if self.is_large { 64 } else { 0 };
        let bits = i32::from(self.flag % 8) * 4096
            + i32::from(self.temporaries % 32) * 128
            + large
            + (literals % 64) as i32;
        if bits < SMALL_INTEGERS as i32 {
            bits as i16
        } else {
            (bits - 2 * SMALL_INTEGERS as i32) as i16
        }
    }
}

/// Adds a method, in place of the object that the name has. Without memory the builder is as before.
pub fn add_method(
    alloc: Global,
    builder: &mut Builder,
    name: Name,
    header: Header,
    literals: &[Value],
    code: &[u8],
) -> Result<(), AllocError>
    ensures ok { OnOk result ((n : ℕ) → object_at builder.new n ≡ (if n == name then Some record { class = COMPILED_METHOD; body = Method (number_of header (length literals.now)) literals.now code.now } else object_at builder.old n)) }
    ensures err { OnErr result (objects_of builder.new ≡ objects_of builder.old) }
{
    let body = Body::Method {
        header: header.number(literals.len()),
        literals: Values::from_slice(alloc, literals)?,
        code: Octets::from_slice(alloc, code)?,
    };
    builder.add(name, Name::COMPILED_METHOD, body)
}
