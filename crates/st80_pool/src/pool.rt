// A pool of literals: each stands in it once, under the number of its place.
ghost use Rattle.std.specs.Prelude.{◌≡◌, ◌≤◌, IfOk, IfSome, IsTrue, OnErr, length, slice_get, take};
ghost use Rattle.st80_pool.specs.Literals.{IsNumbered, literal_of};

use st80_tree::{INTEGERS, SELECTORS, name_of};
use std::alloc::{AllocError, Global};

/// A literal, or a variable that methods share.
#[derive(Debug, Drop)]
pub enum Entry {
    Symbol(Vec<u8>),
    Integer { is_negative: bool, amount: u128 },
    Character(u8),
    Text(Vec<u8>),
    /// The numbers of its elements.
    Array(Vec<u32>),
    /// A variable of a class or a pool, or a global, by its number.
    Shared(u32),
}

/// The literals of methods, each once.
#[derive(Debug, Drop)]
pub struct Pool {
    pub entries: Vec<Entry>,
}

/// The selectors at the head of every pool.
fn add_selectors(alloc: Global, entries: &mut Vec<Entry>) -> Result<(), AllocError> {
    for number in 0..SELECTORS {
        if let Some(name) = name_of(number) {
            let bytes = Vec::from_slice(alloc, name.as_bytes())?;
            entries.push(Entry::Symbol(bytes))?;
        }
    }
    Ok(())
}

/// The small integers behind them.
fn add_integers(entries: &mut Vec<Entry>) -> Result<(), AllocError> {
    for number in 0..INTEGERS {
        let amount = u128::from(number);
        entries.push(Entry::Integer {
            is_negative: false,
            amount,
        })?;
    }
    Ok(())
}

/// A place as a number, if it is one.
fn number_at(at: usize) -> Option<u32>
    ensures { IfSome result (λ n. n ≡ at) }
{
    match u32::try_from(at) {
        Ok(number) => Some(number),
        Err(_) => None,
    }
}

impl Entry {
    /// Whether two entries stand for one literal.
    fn is(&self, other: &Entry) -> bool
        ensures { IsTrue result → literal_of self.now ≡ literal_of other.now }
    {
        match (self, other) {
            (Entry::Symbol(a), Entry::Symbol(b)) => a.as_slice() == b.as_slice(),
            (
                Entry::Integer {
                    is_negative: a,
                    amount: n,
                },
                Entry::Integer {
                    is_negative: b,
                    amount: m,
                },
            ) => *a == *b && *n == *m,
            (Entry::Character(a), Entry::Character(b)) => *a == *b,
            (Entry::Text(a), Entry::Text(b)) => a.as_slice() == b.as_slice(),
            (Entry::Array(a), Entry::Array(b)) => a.as_slice() == b.as_slice(),
            (Entry::Shared(a), Entry::Shared(b)) => *a == *b,
            _ => false,
        }
    }
}

impl Pool {
    /// A pool of what every pool has.
    pub fn new(alloc: Global) -> Result<Pool, AllocError> {
        let mut entries = Vec::new(alloc);
        add_selectors(alloc, &mut entries)?;
        add_integers(&mut entries)?;
        Ok(Pool { entries })
    }

    fn place_of(&self, entry: &Entry) -> Option<usize>
        ensures { IfSome result (IsNumbered self.now.entries.items (literal_of entry.now)) }
    {
        for (i, other) in self.entries.iter().enumerate() {
            if other.is(entry) {
                return Some(i);
            }
        }
        None
    }

    /// The number of a literal, which is added if it isn't there. None where there are as many as there are numbers.
    pub fn number_of(&mut self, entry: Entry) -> Result<Option<u32>, AllocError>
        ensures found { IfOk result (λ number. IfSome number (IsNumbered self.new.entries.items (literal_of entry))) }
        // No number comes to stand for something else.
        ensures kept { take (length self.old.entries.items) self.new.entries.items ≡ self.old.entries.items }
        ensures err { OnErr result (self.new.entries.items ≡ self.old.entries.items) }
    {
        if let Some(at) = self.place_of(&entry) {
            return Ok(number_at(at));
        }
        let at = self.entries.len();
        self.entries.push(entry)?;
        Ok(number_at(at))
    }
}
