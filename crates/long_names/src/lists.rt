// The lists that records are made of. Contracts see each as a list.
ghost use Rattle.std.specs.Prelude.{◌≡◌, ◌+◌, ◌<◌, ◌≤◌, ◌++◌, [], ◌∷◌, ◌^◌, All, length, take, replicate, OnOk, OnErr, IfOk, slice_get, slice_set, Some};
ghost use Rattle.long_names.specs.Objects.{put_run};

use crate::name::Name;
use crate::object::Rec;
use crate::value::Value;
use std::alloc::{AllocError, Global};
use std::marker::Model;

/// A list of values.
#[derive(Debug, Drop)]
pub struct Values {
    values: Vec<Value>,
}

impl Model for Values {
    ghost use Rattle.std.specs.Prelude.{List};
    ghost use Rattle.long_names.specs.declared.value.Value.{Value as Word};

    ghost Value = { List Word };

    ghost view = { λ a. a.values.items };
}

impl Clone for Values {
    ghost use Rattle.std.specs.Prelude.{◌≡◌};

    ghost is_clone = { λ list copy. copy ≡ list };

    fn clone(&self) -> Result<Values, AllocError> {
        Ok(Values {
            values: self.values.clone()?,
        })
    }
}

impl Values {
    /// The empty list. It takes no memory.
    pub fn new(alloc: Global) -> Values
        ensures { result ≡ [] }
    {
        Values {
            values: Vec::new(alloc),
        }
    }

    /// The list of one item, as often as this.
    pub fn filled(alloc: Global, item: Value, count: usize) -> Result<Values, AllocError>
        ensures { IfOk result (λ list. list ≡ replicate count item) }
    {
        Ok(Values {
            values: vec![in alloc; item; count]?,
        })
    }

    /// The list of these items.
    pub fn from_slice(alloc: Global, items: &[Value]) -> Result<Values, AllocError>
        ensures { IfOk result (λ list. list ≡ items.now) }
    {
        Ok(Values {
            values: Vec::from_slice(alloc, items)?,
        })
    }

    /// Appends an item. Without memory the list is as before.
    pub fn push(&mut self, item: Value) -> Result<(), AllocError>
        ensures ok { OnOk result (self.new ≡ self.old ++ item ∷ []) }
        ensures err { OnErr result (self.new ≡ self.old) }
    {
        self.values.push(item)?;
        Ok(())
    }

    pub fn len(&self) -> usize
        ensures { result ≡ length self.now }
    {
        self.values.len()
    }

    pub fn item(&self, i: usize) -> &Value
        requires { i < length self.now }
        ensures { slice_get self.now i ≡ Some result.now }
    {
        &self.values[i]
    }

    /// Puts an item in the place of another.
    pub fn set_item(&mut self, i: usize, item: Value)
        requires { i < length self.old }
        ensures { self.new ≡ slice_set self.old i item }
    {
        self.values[i] = item;
    }
}

/// A list of 16-bit words.
#[derive(Debug, Drop)]
pub struct Words16 {
    words: Vec<u16>,
}

impl Model for Words16 {
    ghost use Rattle.std.specs.Prelude.{List, ℕ};

    ghost Value = { List ℕ };

    ghost view = { λ a. a.words.items };
}

impl Clone for Words16 {
    ghost use Rattle.std.specs.Prelude.{◌≡◌, ◌<◌, ◌^◌, All};

    ghost is_clone = { λ list copy. (copy ≡ list) × All (λ w. w < 2 ^ 16) list };

    fn clone(&self) -> Result<Words16, AllocError> {
        let words = Words16::from_slice(*self.words.allocator(), self.words())?;
        Ok(words)
    }
}

impl Words16 {
    /// The empty list. It takes no memory.
    pub fn new(alloc: Global) -> Words16
        ensures { result ≡ [] }
    {
        Words16 {
            words: Vec::new(alloc),
        }
    }

    /// The list of one word, as often as this.
    pub fn filled(alloc: Global, word: u16, count: usize) -> Result<Words16, AllocError>
        ensures { IfOk result (λ list. list ≡ replicate count word) }
    {
        Ok(Words16 {
            words: vec![in alloc; word; count]?,
        })
    }

    /// The list of these words.
    pub fn from_slice(alloc: Global, words: &[u16]) -> Result<Words16, AllocError>
        ensures ok { IfOk result (λ list. list ≡ words.now) }
        ensures range { All (λ w. w < 2 ^ 16) words.now }
    {
        Ok(Words16 {
            words: Vec::from_slice(alloc, words)?,
        })
    }

    /// Appends an item. Without memory the list is as before.
    pub fn push(&mut self, item: u16) -> Result<(), AllocError>
        ensures ok { OnOk result (self.new ≡ self.old ++ item ∷ []) }
        ensures err { OnErr result (self.new ≡ self.old) }
    {
        self.words.push(item)?;
        Ok(())
    }

    pub fn len(&self) -> usize
        ensures { result ≡ length self.now }
    {
        self.words.len()
    }

    pub fn item(&self, i: usize) -> &u16
        requires { i < length self.now }
        ensures { slice_get self.now i ≡ Some result.now }
    {
        &self.words[i]
    }

    /// Lends the words.
    pub fn words(&self) -> &[u16]
        ensures { result.now ≡ self.now }
    {
        &self.words
    }

    /// Puts words in the place of those from a place on.
    pub fn put(&mut self, at: usize, words: &[u16])
        requires { at + length words.now ≤ length self.old }
        ensures { self.new ≡ put_run self.old at words.now }
    {
        self.words[at..at + words.len()].copy_from_slice(words);
    }
}

/// A list of bytes.
#[derive(Debug, Drop)]
pub struct Octets {
    octets: Vec<u8>,
}

impl Model for Octets {
    ghost use Rattle.std.specs.Prelude.{List, ℕ};

    ghost Value = { List ℕ };

    ghost view = { λ a. a.octets.items };
}

impl Clone for Octets {
    ghost use Rattle.std.specs.Prelude.{◌≡◌, ◌<◌, ◌^◌, All};

    ghost is_clone = { λ list copy. (copy ≡ list) × All (λ b. b < 2 ^ 8) list };

    fn clone(&self) -> Result<Octets, AllocError> {
        let octets = Octets::from_slice(*self.octets.allocator(), self.bytes())?;
        Ok(octets)
    }
}

impl Octets {
    /// The empty list. It takes no memory.
    pub fn new(alloc: Global) -> Octets
        ensures { result ≡ [] }
    {
        Octets {
            octets: Vec::new(alloc),
        }
    }

    /// The list of one byte, as often as this.
    pub fn filled(alloc: Global, byte: u8, count: usize) -> Result<Octets, AllocError>
        ensures { IfOk result (λ list. list ≡ replicate count byte) }
    {
        Ok(Octets {
            octets: vec![in alloc; byte; count]?,
        })
    }

    /// The list of these bytes.
    pub fn from_slice(alloc: Global, bytes: &[u8]) -> Result<Octets, AllocError>
        ensures ok { IfOk result (λ list. list ≡ bytes.now) }
        ensures range { All (λ b. b < 2 ^ 8) bytes.now }
    {
        Ok(Octets {
            octets: Vec::from_slice(alloc, bytes)?,
        })
    }

    /// Appends an item. Without memory the list is as before.
    pub fn push(&mut self, item: u8) -> Result<(), AllocError>
        ensures ok { OnOk result (self.new ≡ self.old ++ item ∷ []) }
        ensures err { OnErr result (self.new ≡ self.old) }
    {
        self.octets.push(item)?;
        Ok(())
    }

    pub fn len(&self) -> usize
        ensures { result ≡ length self.now }
    {
        self.octets.len()
    }

    pub fn item(&self, i: usize) -> &u8
        requires { i < length self.now }
        ensures { slice_get self.now i ≡ Some result.now }
    {
        &self.octets[i]
    }

    /// Appends bytes, all or none. Without memory the list is as before.
    pub fn extend(&mut self, bytes: &[u8]) -> Result<(), AllocError>
        ensures ok { OnOk result (self.new ≡ self.old ++ bytes.now) }
        ensures err { OnErr result (self.new ≡ self.old) }
    {
        self.octets.extend_from_slice(bytes)
    }

    /// Puts bytes in the place of those from a place on.
    pub fn put(&mut self, at: usize, bytes: &[u8])
        requires { at + length bytes.now ≤ length self.old }
        ensures { self.new ≡ put_run self.old at bytes.now }
    {
        self.octets[at..at + bytes.len()].copy_from_slice(bytes);
    }

    /// Keeps the first bytes, as many as this.
    pub fn truncate(&mut self, len: usize)
        ensures { self.new ≡ take len self.old }
    {
        self.octets.truncate(len);
    }

    /// Lends the bytes.
    pub fn bytes(&self) -> &[u8]
        ensures { result.now ≡ self.now }
    {
        &self.octets
    }
}

/// A list of records.
#[derive(Debug, Drop)]
pub struct RecList {
    recs: Vec<Rec>,
}

impl Model for RecList {
    ghost use Rattle.std.specs.Prelude.{List};
    ghost use Rattle.long_names.specs.declared.object.Rec.{Rec};

    ghost Value = { List Rec };

    ghost view = { λ a. a.recs.items };
}

impl RecList {
    /// The empty list. It takes no memory.
    pub fn new(alloc: Global) -> RecList
        ensures { result ≡ [] }
    {
        RecList {
            recs: Vec::new(alloc),
        }
    }

    /// Appends an item. Without memory the list is as before.
    pub fn push(&mut self, item: Rec) -> Result<(), AllocError>
        ensures ok { OnOk result (self.new ≡ self.old ++ item ∷ []) }
        ensures err { OnErr result (self.new ≡ self.old) }
    {
        self.recs.push(item)?;
        Ok(())
    }

    pub fn len(&self) -> usize
        ensures { result ≡ length self.now }
    {
        self.recs.len()
    }

    pub fn item(&self, i: usize) -> &Rec
        requires { i < length self.now }
        ensures { slice_get self.now i ≡ Some result.now }
    {
        &self.recs[i]
    }
}

/// A list of names.
#[derive(Debug, Drop)]
pub struct NameList {
    names: Vec<Name>,
}

impl Model for NameList {
    ghost use Rattle.std.specs.Prelude.{List, ℕ};

    ghost Value = { List ℕ };

    ghost view = { λ a. a.names.items };
}

impl NameList {
    /// The empty list. It takes no memory.
    pub fn new(alloc: Global) -> NameList
        ensures { result ≡ [] }
    {
        NameList {
            names: Vec::new(alloc),
        }
    }

    /// Appends an item. Without memory the list is as before.
    pub fn push(&mut self, item: Name) -> Result<(), AllocError>
        ensures ok { OnOk result (self.new ≡ self.old ++ item ∷ []) }
        ensures err { OnErr result (self.new ≡ self.old) }
    {
        self.names.push(item)?;
        Ok(())
    }

    pub fn len(&self) -> usize
        ensures { result ≡ length self.now }
    {
        self.names.len()
    }

    pub fn item(&self, i: usize) -> &Name
        requires { i < length self.now }
        ensures { slice_get self.now i ≡ Some result.now }
    {
        &self.names[i]
    }
}
