// Objects, their bodies and their records.
ghost use Rattle.std.specs.Prelude.{◌≡◌, ◌+◌, ◌≤◌, length, IsSome, IsSomeAnd, Some, IfOk};
ghost use Rattle.long_names.specs.Words.{IsSmallInteger, IsValue};
ghost use Rattle.long_names.specs.Words as words;
ghost use Rattle.long_names.specs.Objects.{kind_of, len_of, IsBody, OfPointers, OfWords, OfBytes, OfMethod};
ghost use Rattle.long_names.specs.Objects as objects;

use crate::lists::{Octets, Values, Words16};
use crate::name::Name;
use crate::value::Value;
use std::alloc::{AllocError, Global};

/// The four kinds of body, by the numbers that they have in an image.
#[derive(Clone, Copy, Debug, PartialEq, Eq)]
pub enum Kind {
    Pointers,
    Words,
    Bytes,
    Method,
}

/// The body of an object: at most 65,535 values, 16-bit words or bytes, or a method of a header, as many literals as the header
/// says, and at most 16,000 bytes of code.
#[derive(Debug, Drop)]
pub enum Body {
    Pointers(Values),
    Words(Words16),
    Bytes(Octets),
    Method {
        header: i16,
        literals: Values,
        code: Octets,
    },
}

impl Clone for Body {
    ghost use Rattle.long_names.specs.Objects.{HasRange};

    ghost is_clone = { λ body copy. (copy ≡ body) × HasRange body };

    fn clone(&self) -> Result<Body, AllocError> {
        match self {
            Body::Pointers(values) => Ok(Body::Pointers(values.clone()?)),
            Body::Words(words) => Ok(Body::Words(words.clone()?)),
            Body::Bytes(bytes) => Ok(Body::Bytes(bytes.clone()?)),
            Body::Method {
                header,
                literals,
                code,
            } => Ok(Body::Method {
                header: *header,
                literals: literals.clone()?,
                code: code.clone()?,
            }),
        }
    }
}

impl Body {
    pub fn kind(&self) -> Kind
        ensures { result ≡ kind_of self.now }
    {
        match self {
            Body::Pointers(_) => Kind::Pointers,
            Body::Words(_) => Kind::Words,
            Body::Bytes(_) => Kind::Bytes,
            Body::Method { .. } => Kind::Method,
        }
    }

    /// How many values, words, bytes, or code bytes of a method.
    pub fn len(&self) -> usize
        ensures { result ≡ len_of self.now }
    {
        match self {
            Body::Pointers(values) => values.len(),
            Body::Words(words) => words.len(),
            Body::Bytes(bytes) => bytes.len(),
            Body::Method { code, .. } => code.len(),
        }
    }

    /// A method's header.
    pub fn header(&self) -> i16
        requires part { IsSome (objects.header_of self.now) }
        requires body { IsBody self.now }
        ensures value { objects.header_of self.now ≡ Some result }
        ensures range { IsSmallInteger result }
    {
        match self {
            Body::Method { header, .. } => *header,
            Body::Pointers(_) | Body::Words(_) | Body::Bytes(_) => unreachable!(),
        }
    }

    /// Value or literal i.
    pub fn field(&self, i: usize) -> Value
        requires part { IsSome (objects.field_of self.now i) }
        requires body { IsBody self.now }
        ensures value { objects.field_of self.now i ≡ Some result }
        ensures range { IsValue result }
    {
        match self {
            Body::Pointers(values) => *values.item(i),
            Body::Method { literals, .. } => *literals.item(i),
            Body::Words(_) | Body::Bytes(_) => unreachable!(),
        }
    }

    /// The words of an object of words.
    pub fn words(&self) -> &Words16
        requires { IsSome (objects.words_of self.now) }
        ensures { objects.words_of self.now ≡ Some result.now }
    {
        match self {
            Body::Words(words) => words,
            Body::Pointers(_) | Body::Bytes(_) | Body::Method { .. } => unreachable!(),
        }
    }

    /// The bytes of an object of bytes, or a method's code.
    pub fn bytes(&self) -> &Octets
        requires { IsSome (objects.bytes_of self.now) }
        ensures { objects.bytes_of self.now ≡ Some result.now }
    {
        match self {
            Body::Bytes(bytes) => bytes,
            Body::Method { code, .. } => code,
            Body::Pointers(_) | Body::Words(_) => unreachable!(),
        }
    }

    /// The bytes of an object of bytes.
    pub fn text(&self) -> &Octets
        requires { IsSome (objects.text_of self.now) }
        ensures { objects.text_of self.now ≡ Some result.now }
    {
        match self {
            Body::Bytes(bytes) => bytes,
            Body::Pointers(_) | Body::Words(_) | Body::Method { .. } => unreachable!(),
        }
    }

    /// Stores value or literal i.
    pub fn set_field(&mut self, i: usize, value: Value)
        requires { IsSome (objects.field_of self.old i) }
        ensures { self.new ≡ objects.with_field self.old i value }
    {
        match self {
            Body::Pointers(values) => values.set_item(i, value),
            Body::Method { literals, .. } => literals.set_item(i, value),
            Body::Words(_) | Body::Bytes(_) => unreachable!(),
        }
    }

    /// Stores words from a place on.
    pub fn put_words(&mut self, at: usize, run: &[u16])
        requires { IsSomeAnd (objects.words_of self.old) (λ words. at + length run.now ≤ length words) }
        ensures { self.new ≡ objects.with_words self.old at run.now }
    {
        match self {
            Body::Words(words) => words.put(at, run),
            Body::Pointers(_) | Body::Bytes(_) | Body::Method { .. } => unreachable!(),
        }
    }

    /// Stores bytes, or bytes of code, from a place on.
    pub fn put_bytes(&mut self, at: usize, run: &[u8])
        requires { IsSomeAnd (objects.bytes_of self.old) (λ bytes. at + length run.now ≤ length bytes) }
        ensures { self.new ≡ objects.with_bytes self.old at run.now }
    {
        match self {
            Body::Bytes(bytes) => bytes.put(at, run),
            Body::Method { code, .. } => code.put(at, run),
            Body::Pointers(_) | Body::Words(_) => unreachable!(),
        }
    }

    /// So many nils.
    pub fn new_pointers(alloc: Global, size: usize) -> Result<Body, AllocError>
        ensures { IfOk result (λ body. body ≡ objects.body_made (OfPointers size)) }
    {
        Ok(Body::Pointers(Values::filled(alloc, Value::Ref(Name::NIL), size)?))
    }

    /// So many words that are 0.
    pub fn new_words(alloc: Global, size: usize) -> Result<Body, AllocError>
        ensures { IfOk result (λ body. body ≡ objects.body_made (OfWords size)) }
    {
        Ok(Body::Words(Words16::filled(alloc, 0, size)?))
    }

    /// So many bytes that are 0.
    pub fn new_bytes(alloc: Global, size: usize) -> Result<Body, AllocError>
        ensures { IfOk result (λ body. body ≡ objects.body_made (OfBytes size)) }
    {
        Ok(Body::Bytes(Octets::filled(alloc, 0, size)?))
    }

    /// A method of nils, as many literals as its header says, and code of zeros.
    pub fn new_method(alloc: Global, header: i16, code: usize) -> Result<Body, AllocError>
        ensures { IfOk result (λ body. body ≡ objects.body_made (OfMethod header code)) }
    {
        Ok(Body::Method {
            header,
            literals: Values::filled(alloc, Value::Ref(Name::NIL), literal_count(header))?,
            code: Octets::filled(alloc, 0, code)?,
        })
    }
}

/// How many literals a method's header states: its lowest six bits (chapter 27, compiled methods).
#[inline(always)]
pub fn literal_count(header: i16) -> usize
    ensures { result ≡ words.literal_count header }
{
    header.rem_euclid(64) as usize
}

/// An object.
#[derive(Debug, Drop)]
pub struct Object {
    pub class: Name,
    pub body: Body,
}

impl Clone for Object {
    ghost use Rattle.long_names.specs.Objects.{HasRange};

    ghost is_clone = { λ object copy. (copy ≡ object) × HasRange object.body };

    fn clone(&self) -> Result<Object, AllocError> {
        Ok(Object {
            class: self.class,
            body: self.body.clone()?,
        })
    }
}

/// An object as an image has it: under its name, with the number of words that hold the name.
#[derive(Debug, Drop)]
pub struct Rec {
    pub name: Name,
    pub class: Name,
    pub count: u64,
    pub body: Body,
}
