// Records and their fields, read from the left.
// A cursor whose readers take `&mut self`, and no functions that answer what is left of a slice. The grammar is a chain of
// readings: each reader's clause says that it answers the chain's step. A long chain is a record of equations, one field for
// each step, so that a failure names its step. Where a field breaks a rule is told by the bytes that were left, so that no
// reader knows where the record began.
ghost use Rattle.std.specs.Prelude.{◌≡◌, ◌==◌, IfOk, IfErr, length};
ghost use Rattle.std.specs.List.{list_all};
ghost use Rattle.std.specs.Int.{w16, w32, w64};
ghost use Rattle.long_names.specs.Words as words;
ghost use Rattle.long_names.specs.Record.{padding};
ghost use Rattle.image_format.specs.Reading.{halt, number_at, name_at, kind_at, size_at, value_at, values_at, words_at, octets_at, header_in, header_at, method_at, body_at, zeros_at};
ghost use Rattle.image_format.specs.Reading as reading;
ghost use Rattle.image_format.specs.Inside.{Gives, Reads, Shows, Passes, Decodes, Measures, IsNear};

use crate::fault::{Halt, NoRecord};
use long_names::{
    Body, Kind, MOST_CODE, Name, Octets, Rec, Value, Values, Words16, literal_count, value_of,
};
use std::alloc::Global;

/// How many zeros make a length a multiple of four.
pub(crate) fn padding_of(len: usize) -> usize
    ensures { result ≡ padding len }
{
    (4 - len % 4) % 4
}

fn are_zeros(bytes: &[u8]) -> bool
    ensures { result ≡ list_all (λ b. b == 0) bytes.now }
{
    bytes.iter().all(|b| *b == 0)
}

/// Whether an object of this kind may have this size.
fn is_size(kind: Kind, size: u16) -> bool
    ensures { result ≡ reading.is_size kind size }
{
    match kind {
        Kind::Pointers | Kind::Words | Kind::Bytes => true,
        Kind::Method => u32::from(size) <= MOST_CODE,
    }
}

/// The header of a method with so many literals, where a long word is one.
fn header_of(word: u32, count: u32) -> Option<i16>
    ensures { result ≡ header_in count (words.value_of word) }
{
    match value_of(word) {
        Some(Value::Int(header)) if literal_count(header) == count as usize => Some(header),
        _ => None,
    }
}

/// What a record states of itself, and how many bytes it has.
#[derive(Clone, Copy, Debug, PartialEq, Eq)]
pub struct RecMeasure {
    pub name: Name,
    pub count: u64,
    pub len: usize,
}

/// Bytes that are read from the left.
#[derive(Drop)]
pub(crate) struct Unread<'a> {
    pub(crate) rest: &'a [u8],
}

// Each call takes what stands first, or says which rule it breaks; one that skips keeps nothing of it.
impl<'a> Unread<'a> {
    /// A rule that the field breaks with which these bytes begin.
    pub(crate) fn halt(&self, rule: u8) -> Halt
        ensures { result ≡ halt rule (length self.now.rest.now) }
    {
        Halt {
            rule,
            left: self.rest.len(),
        }
    }

    #[tactic(auto, unfolding(crate::specs::Reading::octets_at))]
    pub(crate) fn take(&mut self, count: usize) -> Result<&'a [u8], Halt>
        ensures given { Shows (λ x. x.now) result self.new.rest.now (octets_at count self.old.rest.now) }
        ensures len { IfOk result (λ x. length x.now ≡ count) }
    {
        if self.rest.len() < count {
            return Err(Halt { rule: 9, left: 0 });
        }
        let (front, rest) = self.rest.split_at(count);
        self.rest = rest;
        Ok(front)
    }

    #[tactic(auto, unfolding(crate::specs::Reading::number_at))]
    fn take_u16(&mut self) -> Result<u16, Halt>
        ensures { Reads result self.new.rest.now (number_at w16 self.old.rest.now) }
    {
        let bytes = self.take(2)?;
        Ok(u16::from_be_bytes([bytes[0], bytes[1]]))
    }

    #[tactic(auto, unfolding(crate::specs::Reading::number_at))]
    pub(crate) fn take_u32(&mut self) -> Result<u32, Halt>
        ensures { Reads result self.new.rest.now (number_at w32 self.old.rest.now) }
    {
        let bytes = self.take(4)?;
        Ok(u32::from_be_bytes([bytes[0], bytes[1], bytes[2], bytes[3]]))
    }

    #[tactic(auto, unfolding(crate::specs::Reading::number_at))]
    fn take_u64(&mut self) -> Result<u64, Halt>
        ensures { Reads result self.new.rest.now (number_at w64 self.old.rest.now) }
    {
        let bytes = self.take(8)?;
        Ok(u64::from_be_bytes([
            bytes[0], bytes[1], bytes[2], bytes[3], bytes[4], bytes[5], bytes[6], bytes[7],
        ]))
    }

    #[tactic(auto, unfolding(crate::specs::Reading::name_at))]
    fn take_name(&mut self, rule: u8) -> Result<Name, Halt>
        ensures { Reads result self.new.rest.now (name_at rule self.old.rest.now) }
    {
        let halt = self.halt(rule);
        let word = self.take_u32()?;
        match Name::new(word) {
            Some(name) => Ok(name),
            None => Err(halt),
        }
    }

    #[tactic(auto, unfolding(crate::specs::Reading::kind_at))]
    fn take_kind(&mut self) -> Result<Kind, Halt>
        ensures { Reads result self.new.rest.now (kind_at self.old.rest.now) }
    {
        let halt = self.halt(5);
        match self.take_u16()? {
            0 => Ok(Kind::Pointers),
            1 => Ok(Kind::Words),
            2 => Ok(Kind::Bytes),
            3 => Ok(Kind::Method),
            _ => Err(halt),
        }
    }

    #[tactic(auto, unfolding(crate::specs::Reading::size_at))]
    fn take_size(&mut self, kind: Kind) -> Result<u16, Halt>
        ensures { Reads result self.new.rest.now (size_at kind self.old.rest.now) }
    {
        let halt = self.halt(7);
        let size = self.take_u16()?;
        if is_size(kind, size) {
            Ok(size)
        } else {
            Err(halt)
        }
    }

    #[tactic(auto, unfolding(crate::specs::Reading::value_at))]
    fn take_value(&mut self) -> Result<Value, Halt>
        ensures { Reads result self.new.rest.now (value_at self.old.rest.now) }
    {
        let halt = self.halt(6);
        let word = self.take_u32()?;
        match value_of(word) {
            Some(value) => Ok(value),
            None => Err(halt),
        }
    }

    fn take_values(&mut self, alloc: Global, count: usize) -> Result<Values, NoRecord>
        ensures { Gives result self.new.rest.now (values_at count self.old.rest.now) }
    {
        let mut values = Values::new(alloc);
        for _ in 0..count {
            let value = self.take_value()?;
            values.push(value)?;
        }
        Ok(values)
    }

    fn take_words(&mut self, alloc: Global, count: usize) -> Result<Words16, NoRecord>
        ensures { Gives result self.new.rest.now (words_at count self.old.rest.now) }
    {
        let mut words = Words16::new(alloc);
        for _ in 0..count {
            let word = self.take_u16()?;
            words.push(word)?;
        }
        Ok(words)
    }

    fn take_octets(&mut self, alloc: Global, count: usize) -> Result<Octets, NoRecord>
        ensures { Gives result self.new.rest.now (octets_at count self.old.rest.now) }
    {
        let bytes = self.take(count)?;
        let mut octets = Octets::new(alloc);
        octets.extend(bytes)?;
        Ok(octets)
    }

    #[tactic(auto, unfolding(crate::specs::Reading::header_at))]
    fn take_header(&mut self, count: u32) -> Result<i16, Halt>
        ensures { Reads result self.new.rest.now (header_at count self.old.rest.now) }
    {
        let halt = self.halt(7);
        let word = self.take_u32()?;
        match header_of(word, count) {
            Some(header) => Ok(header),
            None => Err(halt),
        }
    }

    #[tactic(auto, unfolding(crate::specs::Reading::method_at))]
    fn take_method(&mut self, alloc: Global, size: usize) -> Result<Body, NoRecord>
        ensures { Gives result self.new.rest.now (method_at size self.old.rest.now) }
    {
        let count = self.take_u32()?;
        let header = self.take_header(count)?;
        let literals = self.take_values(alloc, count as usize)?;
        let code = self.take_octets(alloc, size)?;
        Ok(Body::Method {
            header,
            literals,
            code,
        })
    }

    #[tactic(auto, unfolding(crate::specs::Reading::body_at))]
    fn take_body(&mut self, alloc: Global, kind: Kind, size: usize) -> Result<Body, NoRecord>
        ensures { Gives result self.new.rest.now (body_at kind size self.old.rest.now) }
    {
        match kind {
            Kind::Pointers => Ok(Body::Pointers(self.take_values(alloc, size)?)),
            Kind::Words => Ok(Body::Words(self.take_words(alloc, size)?)),
            Kind::Bytes => Ok(Body::Bytes(self.take_octets(alloc, size)?)),
            Kind::Method => self.take_method(alloc, size),
        }
    }

    fn skip_values(&mut self, count: usize) -> Result<(), Halt>
        ensures { Passes result self.new.rest.now (values_at count self.old.rest.now) }
    {
        for _ in 0..count {
            self.take_value()?;
        }
        Ok(())
    }

    fn skip_words(&mut self, count: usize) -> Result<(), Halt>
        ensures { Passes result self.new.rest.now (words_at count self.old.rest.now) }
    {
        for _ in 0..count {
            self.take_u16()?;
        }
        Ok(())
    }

    fn skip_octets(&mut self, count: usize) -> Result<(), Halt>
        ensures { Passes result self.new.rest.now (octets_at count self.old.rest.now) }
    {
        self.take(count)?;
        Ok(())
    }

    #[tactic(auto, unfolding(crate::specs::Reading::method_at))]
    fn skip_method(&mut self, size: usize) -> Result<(), Halt>
        ensures { Passes result self.new.rest.now (method_at size self.old.rest.now) }
    {
        let count = self.take_u32()?;
        self.take_header(count)?;
        self.skip_values(count as usize)?;
        self.skip_octets(size)
    }

    #[tactic(auto, unfolding(crate::specs::Reading::body_at))]
    fn skip_body(&mut self, kind: Kind, size: usize) -> Result<(), Halt>
        ensures { Passes result self.new.rest.now (body_at kind size self.old.rest.now) }
    {
        match kind {
            Kind::Pointers => self.skip_values(size),
            Kind::Words => self.skip_words(size),
            Kind::Bytes => self.skip_octets(size),
            Kind::Method => self.skip_method(size),
        }
    }

    #[tactic(auto, unfolding(crate::specs::Reading::zeros_at))]
    fn take_zeros(&mut self, count: usize) -> Result<(), Halt>
        ensures { Reads result self.new.rest.now (zeros_at count self.old.rest.now) }
    {
        let halt = self.halt(8);
        let zeros = self.take(count)?;
        if are_zeros(zeros) { Ok(()) } else { Err(halt) }
    }
}

/// The first record, and its length.
#[tactic(auto, unfolding(crate::specs::Reading::record_at))]
pub(crate) fn record_of(alloc: Global, bytes: &[u8]) -> Result<(Rec, usize), NoRecord>
    ensures { Decodes result bytes.now }
{
    let mut unread = Unread { rest: bytes };
    let name = unread.take_name(4)?;
    let class = unread.take_name(6)?;
    let count = unread.take_u64()?;
    let kind = unread.take_kind()?;
    let size = unread.take_size(kind)?;
    let body = unread.take_body(alloc, kind, size as usize)?;
    let read = bytes.len() - unread.rest.len();
    unread.take_zeros(padding_of(read))?;
    let rec = Rec {
        name,
        class,
        count,
        body,
    };
    Ok((rec, bytes.len() - unread.rest.len()))
}

/// What the first record states, of which nothing is kept.
#[tactic(auto, unfolding(crate::specs::Reading::record_at))]
pub(crate) fn measure_of(bytes: &[u8]) -> Result<RecMeasure, Halt>
    ensures { Measures result bytes.now }
{
    let mut unread = Unread { rest: bytes };
    let name = unread.take_name(4)?;
    unread.take_name(6)?;
    let count = unread.take_u64()?;
    let kind = unread.take_kind()?;
    let size = unread.take_size(kind)?;
    unread.skip_body(kind, size as usize)?;
    let read = bytes.len() - unread.rest.len();
    unread.take_zeros(padding_of(read))?;
    let len = bytes.len() - unread.rest.len();
    Ok(RecMeasure { name, count, len })
}
