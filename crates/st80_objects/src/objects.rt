// The objects of an image.
ghost use Rattle.std.specs.Prelude.{◌≡◌, ◌≤◌, ◌<◌, ◌++◌, [], ◌∷◌, ℕ, length, nat_lt, OnErr, IfOk, IfErr, IfSome, IfNone, None, option_copied, slice_get, IsTrue, if◌then◌else◌};
ghost use Rattle.image_format.specs.Rules.{rec_in};

use long_names::{Name, Rec};
use std::alloc::{AllocError, Global};
use std::marker::Model;

/// The objects of an image with their counts, by rising name.
#[derive(Debug, Drop)]
pub struct Objects {
    recs: Vec<Rec>,
}

impl Model for Objects {
    ghost use Rattle.std.specs.Prelude.{List};
    ghost use Rattle.long_names.specs.declared.object.Rec.{Rec as Spelled};
    ghost use Rattle.st80_objects.specs.Rising.{IsRising};

    ghost Value = { List Spelled };

    ghost view = { λ a. a.recs.items };

    ghost invariant = { λ a. IsRising a.recs.items };
}

impl Objects {
    ghost use Rattle.st80_objects.specs.Rising.{IsAt, IsAbove, IsRising, last_name};

    /// None. It takes no memory.
    pub fn new(alloc: Global) -> Objects
        ensures { result ≡ [] }
    {
        Objects {
            recs: Vec::new(alloc),
        }
    }

    /// The name of the last object, the highest; 0 where there is none.
    pub fn last_name(&self) -> u32
        ensures value { result ≡ last_name self.now }
        ensures above { (n : ℕ) → last_name self.now < n → IsAbove self.now n }
    {
        match self.recs.last() {
            Some(rec) => rec.name.get(),
            None => 0,
        }
    }

    /// Whether a name is above those of all objects.
    pub fn is_above(&self, name: Name) -> bool
        ensures value { result ≡ nat_lt (last_name self.now) name }
        ensures above { IsTrue result → IsAbove self.now name }
    {
        self.last_name() < name.get()
    }

    /// Adds an object behind the others, where its name is above theirs, and answers whether it is.
    pub fn push(&mut self, rec: Rec) -> Result<bool, AllocError>
        ensures added { IfOk result (λ added. added ≡ nat_lt (last_name self.old) rec.name) }
        ensures objects { IfOk result (λ added. self.new ≡ (if added then self.old ++ rec ∷ [] else self.old)) }
        ensures refused { OnErr result (self.new ≡ self.old) }
    {
        if !self.is_above(rec.name) {
            return Ok(false);
        }
        self.recs.push(rec)?;
        Ok(true)
    }

    /// How many there are.
    pub fn len(&self) -> usize
        ensures { result ≡ length self.now }
    {
        self.recs.len()
    }

    /// All of them.
    pub fn all(&self) -> &[Rec]
        ensures all { result.now ≡ self.now }
        ensures rising { IsRising self.now }
    {
        &self.recs
    }

    /// The object at a place, counted from 0 by rising name.
    pub fn at(&self, place: usize) -> Option<&Rec>
        ensures { option_copied result ≡ slice_get self.now place }
    {
        self.recs.get(place)
    }

    /// The place of a name.
    pub fn place(&self, name: Name) -> Option<usize>
        ensures found { IfSome result (IsAt self.now name) }
        ensures first { IfSome result (λ place. slice_get self.now place ≡ rec_in self.now name) }
        ensures absent { IfNone result (rec_in self.now name ≡ None) }
    {
        match self.search(name) {
            Ok(place) => Some(place),
            Err(_) => None,
        }
    }

    /// The place of a name, or that at which it would stand.
    fn search(&self, name: Name) -> Result<usize, usize>
        ensures found { IfOk result (IsAt self.now name) }
        ensures first { IfOk result (λ place. slice_get self.now place ≡ rec_in self.now name) }
        ensures absent { IfErr result (λ place. rec_in self.now name ≡ None) }
    {
        let word = name.get();
        self.recs.binary_search_by_key(&word, |rec| rec.name.get())
    }

    /// The object of a name: None exactly where no object has it.
    pub fn find(&self, name: Name) -> Option<&Rec>
        ensures { option_copied result ≡ rec_in self.now name }
    {
        match self.place(name) {
            Some(place) => self.at(place),
            None => None,
        }
    }
}
