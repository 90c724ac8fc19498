// Rows of the table: what stands under one name.
ghost use Rattle.std.specs.Prelude.{◌≡◌, ◌++◌, ◌<◌, IsTrue, IfOk};
ghost use Rattle.std.specs.List.{list_all};
ghost use Rattle.long_names.specs.declared.object.Body.TheVariants.{Method as MethodBody};
ghost use Rattle.loom_gen.specs.Notation.{nils};
ghost use Rattle.loom_gen.specs.Notation as notation;
ghost use Rattle.loom_gen.specs.Table as model;
ghost use Rattle.loom_gen.specs.Inside.{field_value, field_values, form_body, row_object, is_named_field, is_named_form, is_named};

use crate::names::{CHARACTERS, FIRST_CHARACTER};
use crate::nodes::{name, node_name};
use long_names::{Body, Name, Object, Octets, Value, Values};
use std::alloc::{AllocError, Global};

/// The header of a method of two literals, of which the first is a header extension.
const EXTENDED_HEADER: i16 = -4094;

/// In a header extension the number of arguments stands above an index below this.
const PRIMITIVES: i16 = 256;

/// The bytecode that returns self.
const RETURN_SELF: u8 = 120;

/// What a field of an object of the table is.
#[derive(Clone, Copy)]
pub(crate) enum Field {
    /// This SmallInteger.
    Int(i16),
    /// The object of this name.
    Ref(u32),
    /// The node that the image's number names.
    Start,
}

impl Field {
    fn value(self, number: u8) -> Value
        requires { IsTrue (is_named_field self) }
        ensures { result ≡ field_value number self }
    {
        match self {
            Field::Int(small) => Value::Int(small),
            Field::Ref(word) => Value::Ref(name(word)),
            Field::Start => Value::Ref(node_name(u32::from(number))),
        }
    }
}

/// The body of an object of the table.
#[derive(Clone, Copy)]
pub(crate) enum Form {
    Pointers(&'static [Field]),
    /// These fields, and so many nils behind them.
    Padded(&'static [Field], usize),
    /// All characters, by their numbers.
    Characters,
    /// So many words that are 0.
    ZeroWords(usize),
    /// So many bytes that are 0.
    ZeroBytes(usize),
    Text(&'static [u8]),
    Method {
        header: i16,
        literals: &'static [Field],
        code: &'static [u8],
    },
    /// A method that has this primitive, with so many arguments. Where that fails, it answers self.
    Primitive {
        arguments: u8,
        index: u8,
    },
}

impl Form {
    fn body(self, alloc: Global, number: u8) -> Result<Body, AllocError>
        requires { IsTrue (is_named_form self) }
        ensures { IfOk result (λ body. body ≡ form_body number self) }
    {
        match self {
            Form::Pointers(fields) => Ok(Body::Pointers(values(alloc, number, fields)?)),
            Form::Padded(fields, nils) => Ok(Body::Pointers(padded(alloc, number, fields, nils)?)),
            Form::Characters => Ok(Body::Pointers(characters(alloc)?)),
            Form::ZeroWords(count) => Body::new_words(alloc, count),
            Form::ZeroBytes(count) => Body::new_bytes(alloc, count),
            Form::Text(text) => Ok(Body::Bytes(Octets::from_slice(alloc, text)?)),
            Form::Method {
                header,
                literals,
                code,
            } => method(alloc, number, header, literals, code),
            Form::Primitive { arguments, index } => primitive(alloc, arguments, index),
        }
    }
}

fn values(alloc: Global, number: u8, fields: &[Field]) -> Result<Values, AllocError>
    requires { IsTrue (list_all is_named_field fields.now) }
    ensures { IfOk result (λ values. values ≡ field_values number fields.now) }
{
    let mut values = Values::new(alloc);
    for field in fields {
        values.push(field.value(number))?;
    }
    Ok(values)
}

fn padded(alloc: Global, number: u8, fields: &[Field], nils: usize) -> Result<Values, AllocError>
    requires { IsTrue (list_all is_named_field fields.now) }
    ensures { IfOk result (λ values. values ≡ field_values number fields.now ++ notation.nils nils) }
{
    let mut padded = values(alloc, number, fields)?;
    for _ in 0..nils {
        padded.push(Value::Ref(Name::NIL))?;
    }
    Ok(padded)
}

fn characters(alloc: Global) -> Result<Values, AllocError>
    ensures { IfOk result (λ values. values ≡ model.characters) }
{
    let mut characters = Values::new(alloc);
    for k in 0..CHARACTERS {
        characters.push(Value::Ref(name(FIRST_CHARACTER + 2 * k)))?;
    }
    Ok(characters)
}

fn method(
    alloc: Global,
    number: u8,
    header: i16,
    literals: &[Field],
    code: &[u8],
) -> Result<Body, AllocError>
    requires { IsTrue (list_all is_named_field literals.now) }
    ensures { IfOk result (λ body. body ≡ MethodBody header (field_values number literals.now) code.now) }
{
    Ok(Body::Method {
        header,
        literals: values(alloc, number, literals)?,
        code: Octets::from_slice(alloc, code)?,
    })
}

// The literal before the last states the primitive, with the number of arguments.
fn primitive(alloc: Global, arguments: u8, index: u8) -> Result<Body, AllocError>
    requires { arguments < 32 }
    ensures { IfOk result (λ body. body ≡ (notation.primitive arguments index).body) }
{
    let extension = Value::Int(i16::from(arguments) * PRIMITIVES + i16::from(index));
    Ok(Body::Method {
        header: EXTENDED_HEADER,
        literals: Values::from_slice(alloc, &[extension, Value::Ref(Name::NIL)])?,
        code: Octets::from_slice(alloc, &[RETURN_SELF])?,
    })
}

/// An object of the table.
#[derive(Clone, Copy)]
pub(crate) struct Row {
    pub(crate) name: u32,
    pub(crate) class: u32,
    pub(crate) form: Form,
}

impl Row {
    /// The object in the image of this number.
    pub(crate) fn object(&self, alloc: Global, number: u8) -> Result<Object, AllocError>
        requires { IsTrue (is_named self.now) }
        ensures { IfOk result (λ object. object ≡ row_object number self.now) }
    {
        Ok(Object {
            class: name(self.class),
            body: self.form.body(alloc, number)?,
        })
    }
}
