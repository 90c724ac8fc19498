// A buffer of one record. Where it has a record, each call reads or sets one part of it, and no other.
ghost use Rattle.std.specs.Prelude.{◌≡◌, ◌↔◌, ◌<◌, ◌≤◌, ◌++◌, IsTrue, length, drop, replicate, slice_index, IfOk, Some};
ghost use Rattle.long_names.specs.declared.object.Kind.TheVariants.{Method};
ghost use Rattle.long_names.specs.declared.limits.TheConstants.{LONGEST_RECORD};
ghost use Rattle.object_record.specs.Raw.{raw_kind, raw_len, raw_literals, raw_header, longs_of, raw_words, raw_bytes, raw_text, with_name, with_long, with_header, with_word, with_byte, blank_record, CanBlank, stated_literals};
ghost use Rattle.object_record.specs.Buffer.{raw_of, HasRecord};

use crate::layout::{
    blank_method, blank_plain, bytes_place, end_of, is_laid, kind_of, literals_of, long_at,
    longs_place, padding_of, put, size_of, word_at, zeros,
};
use crate::offsets::{CLASS_AT, CONTENTS_AT, HEADER_AT, NAME_AT};
use long_names::{Kind, LONGEST_RECORD, Name};
use std::alloc::{AllocError, Global};
use std::marker::Model;

/// The bytes of one record, and what follows them in the buffer.
#[derive(Debug, Drop)]
pub struct RecordBuf {
    bytes: Vec<u8>,
}

impl Model for RecordBuf {
    ghost use Rattle.std.specs.Prelude.{List, ℕ, ◌≡◌, length};
    ghost use Rattle.long_names.specs.declared.limits.TheConstants.{LONGEST_RECORD};

    ghost Value = { List ℕ };

    ghost view = { λ a. a.bytes.items };

    ghost invariant = { λ a. length a.bytes.items ≡ LONGEST_RECORD };
}

impl RecordBuf {
    ghost use Rattle.std.specs.Borrow.{sem};
    ghost use Rattle.object_record.specs.Lending.{LendsBytes};

    /// A buffer of zeros.
    pub fn new(alloc: Global) -> Result<RecordBuf, AllocError>
        ensures { IfOk result (λ buffer. buffer ≡ replicate LONGEST_RECORD 0) }
    {
        Ok(RecordBuf {
            bytes: zeros(alloc, LONGEST_RECORD as usize)?,
        })
    }

    /// Lends all its bytes, to be filled.
    #[inline(always)]
    pub fn space(&mut self) -> &mut [u8]
        ensures* lends { sem 𝓛 (LendsBytes self.entry result) }
        ensures bytes { result.now ≡ self.old }
        ensures len { length result.now ≡ LONGEST_RECORD }
    {
        &mut self.bytes
    }

    /// Puts these bytes in the place of the first ones.
    pub fn fill(&mut self, bytes: &[u8])
        requires { length bytes.now ≤ LONGEST_RECORD }
        ensures { self.new ≡ bytes.now ++ drop (length bytes.now) self.old }
    {
        put(&mut self.bytes, 0, bytes);
    }

    /// The name of the record's object.
    #[inline(always)]
    pub fn name(&self) -> Name
        requires { HasRecord self.now }
        ensures { result ≡ (raw_of self.now).name }
    {
        Name::new(long_at(&self.bytes, NAME_AT)).unwrap()
    }

    #[inline(always)]
    pub fn class(&self) -> Name
        requires { HasRecord self.now }
        ensures { result ≡ (raw_of self.now).class }
    {
        Name::new(long_at(&self.bytes, CLASS_AT)).unwrap()
    }

    #[inline(always)]
    pub fn kind(&self) -> Kind
        requires { HasRecord self.now }
        ensures { result ≡ raw_kind (raw_of self.now).body }
    {
        kind_of(&self.bytes)
    }

    /// How many values, words, bytes, or code bytes of a method.
    #[inline(always)]
    pub fn len(&self) -> u32
        requires { HasRecord self.now }
        ensures { result ≡ raw_len (raw_of self.now).body }
    {
        size_of(&self.bytes) as u32
    }

    /// How many literals a method has; 0 for the other kinds.
    pub fn literals(&self) -> u32
        requires { HasRecord self.now }
        ensures { result ≡ raw_literals (raw_of self.now).body }
    {
        match kind_of(&self.bytes) {
            Kind::Method => literals_of(&self.bytes) as u32,
            _ => 0,
        }
    }

    /// How many fields: the values of pointers, or a method's literals; 0 for words and bytes.
    #[inline(always)]
    pub fn field_count(&self) -> u32
        requires { HasRecord self.now }
        ensures { result ≡ length (longs_of (raw_of self.now).body) }
    {
        match self.kind() {
            Kind::Pointers => self.len(),
            Kind::Method => self.literals(),
            _ => 0,
        }
    }

    /// A method's header, as its long word.
    pub fn header(&self) -> u32
        requires record { HasRecord self.now }
        requires method { raw_kind (raw_of self.now).body ≡ Method }
        ensures { result ≡ raw_header (raw_of self.now).body }
    {
        long_at(&self.bytes, HEADER_AT)
    }

    /// The long word of value `i`, or of a method's literal `i`.
    #[inline(always)]
    pub fn long_field(&self, i: u32) -> u32
        requires record { HasRecord self.now }
        requires field { i < length (longs_of (raw_of self.now).body) }
        ensures { result ≡ slice_index (longs_of (raw_of self.now).body) i }
    {
        long_at(&self.bytes, longs_place(&self.bytes) + 4 * i as usize)
    }

    pub fn word(&self, i: u32) -> u16
        requires record { HasRecord self.now }
        requires word { i < length (raw_words (raw_of self.now).body) }
        ensures { result ≡ slice_index (raw_words (raw_of self.now).body) i }
    {
        word_at(&self.bytes, CONTENTS_AT + 2 * i as usize)
    }

    /// Byte `i`, of code too.
    pub fn byte(&self, i: u32) -> u8
        requires record { HasRecord self.now }
        requires byte { i < length (raw_bytes (raw_of self.now).body) }
        ensures { result ≡ slice_index (raw_bytes (raw_of self.now).body) i }
    {
        self.bytes[bytes_place(&self.bytes) + i as usize]
    }

    /// Gives the record another name. Nothing else changes.
    pub fn rename(&mut self, name: Name)
        requires { HasRecord self.old }
        ensures record { HasRecord self.new }
        ensures set { raw_of self.new ≡ with_name (raw_of self.old) name }
    {
        put(&mut self.bytes, NAME_AT, &name.get().to_be_bytes());
    }

    /// Sets the long word of value `i`, or of a method's literal `i`. It may be any long word.
    #[inline(always)]
    pub fn set_long_field(&mut self, i: u32, word: u32)
        requires record { HasRecord self.old }
        requires field { i < length (longs_of (raw_of self.old).body) }
        ensures record { HasRecord self.new }
        ensures set { raw_of self.new ≡ with_long (raw_of self.old) i word }
    {
        let at = longs_place(&self.bytes) + 4 * i as usize;
        put(&mut self.bytes, at, &word.to_be_bytes());
    }

    /// Sets a method's header. The long word has to state the literals that the record has.
    pub fn set_header(&mut self, word: u32)
        requires record { HasRecord self.old }
        requires method { raw_kind (raw_of self.old).body ≡ Method }
        requires states { stated_literals word ≡ Some (raw_literals (raw_of self.old).body) }
        ensures record { HasRecord self.new }
        ensures set { raw_of self.new ≡ with_header (raw_of self.old) word }
    {
        put(&mut self.bytes, HEADER_AT, &word.to_be_bytes());
    }

    pub fn set_word(&mut self, i: u32, word: u16)
        requires record { HasRecord self.old }
        requires word { i < length (raw_words (raw_of self.old).body) }
        ensures record { HasRecord self.new }
        ensures set { raw_of self.new ≡ with_word (raw_of self.old) i word }
    {
        put(
            &mut self.bytes,
            CONTENTS_AT + 2 * i as usize,
            &word.to_be_bytes(),
        );
    }

    /// Sets byte `i`, of code too.
    pub fn set_byte(&mut self, i: u32, byte: u8)
        requires record { HasRecord self.old }
        requires byte { i < length (raw_bytes (raw_of self.old).body) }
        ensures record { HasRecord self.new }
        ensures set { raw_of self.new ≡ with_byte (raw_of self.old) i byte }
    {
        let at = bytes_place(&self.bytes) + i as usize;
        put(&mut self.bytes, at, &[byte]);
    }

    /// The record's bytes, and none of what follows it.
    #[inline(always)]
    pub fn bytes(&self) -> &[u8]
        requires { HasRecord self.now }
        ensures { result.now ≡ raw_text (raw_of self.now) }
    {
        let end = end_of(&self.bytes);
        &self.bytes[..end + padding_of(end)]
    }

    /// Makes the record of an object of zeros: long words, words or bytes that are 0, or a method whose header states its literals and
    /// nothing else. The sizes have to be such as an object of the kind may have; `literals` is 0 but for a method.
    #[inline(always)]
    pub fn blank(&mut self, name: Name, class: Name, kind: Kind, len: u32, literals: u32)
        requires { CanBlank kind len literals }
        ensures record { HasRecord self.new }
        ensures blank { raw_of self.new ≡ blank_record name class kind len literals }
    {
        match kind {
            Kind::Method => blank_method(&mut self.bytes, name, class, len as u16, literals),
            _ => blank_plain(&mut self.bytes, name, class, kind, len as u16),
        }
    }

    /// Whether the bytes begin with a record of this name. Its fields are not judged: they may be any long words.
    #[inline(always)]
    pub fn is_record(&self, name: Name) -> bool
        ensures { IsTrue result ↔ (HasRecord self.now × ((raw_of self.now).name ≡ name)) }
    {
        long_at(&self.bytes, NAME_AT) == name.get() && is_laid(&self.bytes)
    }
}
