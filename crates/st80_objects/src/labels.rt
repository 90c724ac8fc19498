// The `.names` file beside an image.
// Each line is the number of an object, one space, and what it is called, to the line's end. Lines that are empty or begin with
// `#` say nothing. Of two lines with one number the later counts.
ghost use Rattle.std.specs.Prelude.{◌≡◌, decimal, option_copied, IfSome, IsTrue};
ghost use Rattle.std.specs.Str.{bytes_eq};
ghost use Rattle.st80_objects.specs.Labelled.{is_labelled, label_in};

use itoa::Buffer;
use long_names::Name;
use std::alloc::{AllocError, Global};
use std::collections::BTreeMap;
use thiserror::Error;

/// Why bytes are no `.names` file.
#[derive(Debug, Drop, Error)]
pub enum LabelFault {
    /// This line, counted from 1, isn't `NUMBER NAME`.
    #[error("line {0} isn't `NUMBER NAME`")]
    Line(u64),
    #[error("no memory for the names")]
    Memory,
}

impl From<AllocError> for LabelFault {
    fn from(_e: AllocError) -> LabelFault {
        LabelFault::Memory
    }
}

/// What the objects of an image are called by people.
#[derive(Debug, Drop)]
pub struct Labels {
    entries: BTreeMap<u32, Vec<u8>>,
}

/// The number that decimal digits are, below 2^32.
fn number_of(digits: &[u8]) -> Option<u32> {
    let mut number = 0u32;
    for digit in digits {
        if !digit.is_ascii_digit() {
            return None;
        }
        number = number
            .checked_mul(10)?
            .checked_add(u32::from(digit.saturating_sub(b'0')))?;
    }
    Some(number)
}

/// Where a byte stands first, or the length.
fn place_of(byte: u8, bytes: &[u8]) -> usize {
    match bytes.iter().position(|b| *b == byte) {
        Some(place) => place,
        None => bytes.len(),
    }
}

/// The number and the name of a line.
fn parts_of(line: &[u8]) -> Option<(u32, &[u8])> {
    let space = place_of(b' ', line);
    let number = number_of(line.get(..space)?)?;
    let name = line.get(space.saturating_add(1)..)?;
    if space == 0 || name.is_empty() {
        return None;
    }
    Some((number, name))
}

impl Labels {
    /// None. It takes no memory.
    pub fn new(alloc: Global) -> Labels {
        Labels {
            entries: BTreeMap::new(alloc),
        }
    }

    /// Reads a `.names` file.
    pub fn read(alloc: Global, bytes: &[u8]) -> Result<Labels, LabelFault> {
        let mut labels = Labels::new(alloc);
        let mut rest = bytes;
        for line_number in 1..u64::MAX {
            if rest.is_empty() {
                break;
            }
            let end = place_of(b'\n', rest);
            let line = rest.get(..end).unwrap_or(b"".as_slice());
            rest = rest.get(end.saturating_add(1)..).unwrap_or(b"".as_slice());
            labels.read_line(alloc, line, line_number)?;
        }
        Ok(labels)
    }

    fn read_line(&mut self, alloc: Global, line: &[u8], number: u64) -> Result<(), LabelFault> {
        if line.is_empty() || line.starts_with(b"#") {
            return Ok(());
        }
        match parts_of(line) {
            Some((object, name)) => Ok(self.add(alloc, object, name)?),
            None => Err(LabelFault::Line(number)),
        }
    }

    fn add(&mut self, alloc: Global, object: u32, name: &[u8]) -> Result<(), AllocError> {
        let name = Vec::from_slice(alloc, name)?;
        self.entries.insert(object, name)?;
        Ok(())
    }

    /// What an object is called.
    #[tactic(auto, unfolding(crate::specs::Labelled::label_in))]
    pub fn label(&self, name: Name) -> Option<&[u8]>
        ensures { option_copied result ≡ label_in self.now name }
    {
        match self.entries.get(&name.get()) {
            Some(label) => Some(label.as_slice()),
            None => None,
        }
    }

    /// Whether an object is called so.
    fn is_labelled(&self, name: Name, text: &[u8]) -> bool
        ensures { result ≡ is_labelled self.now name text.now }
    {
        match self.label(name) {
            Some(label) => label == text,
            None => false,
        }
    }

    /// The object that is called so. Of several the one with the lowest number.
    pub fn named(&self, text: &[u8]) -> Option<Name>
        ensures { IfSome result (λ name. IsTrue (is_labelled self.now name text.now)) }
    {
        for (number, _) in self.entries.iter() {
            if let Some(name) = Name::new(*number) {
                if self.is_labelled(name, text) {
                    return Some(name);
                }
            }
        }
        None
    }
}

/// Whether a text is the number of a name, in decimal digits without a zero in front.
pub fn is_number(name: Name, text: &[u8]) -> bool
    ensures { result ≡ bytes_eq (decimal name) text.now }
{
    let mut buffer = Buffer::new();
    buffer.format(name.get()).as_bytes() == text
}
