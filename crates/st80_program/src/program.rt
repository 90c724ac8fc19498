// Classes and methods as they are written.
ghost use Rattle.std.specs.Prelude.{◌≡◌, ◌≢◌, ◌<◌, ◌≤◌, ℕ, All, IfNone, IfSome, OnOk, length};
ghost use Rattle.st80_program.specs.Programs.{IsProgram};

use st80_scope::nearest;
use st80_source::Chunk;
use std::alloc::{AllocError, Global};

/// What instances of a class have behind their fields.
#[derive(Clone, Copy, Debug, PartialEq, Eq)]
pub enum Shape {
    /// Nothing.
    Fields,
    /// Values by number.
    Pointers,
    Words,
    Bytes,
}

/// A class as it is defined.
#[derive(Debug, Drop)]
pub struct Class {
    pub name: Vec<u8>,
    /// The number of the superclass, which is lower. The root has none.
    pub superclass: Option<usize>,
    pub shape: Shape,
    /// The fields that it adds to those of its superclass.
    pub fields: Vec<Vec<u8>>,
    /// The fields that the class itself has.
    pub class_fields: Vec<Vec<u8>>,
    /// The variables that its methods share.
    pub variables: Vec<Vec<u8>>,
}

/// A method, or statements to begin with, as they are written.
#[derive(Debug, Drop)]
pub struct Written {
    pub class: usize,
    /// Whether it is a method of the class itself.
    pub is_meta: bool,
    /// The number of the text.
    pub source: usize,
    pub chunk: Chunk,
}

/// A program as it is written.
#[derive(Debug, Drop)]
pub struct Program {
    pub classes: Vec<Class>,
    pub methods: Vec<Written>,
    pub start: Option<Written>,
}

impl Program {
    /// The number of a class by its name.
    pub fn class_of(&self, name: &[u8]) -> Option<usize>
        ensures there { IfSome result (λ number. number < length self.now.classes.items) }
        ensures none { IfNone result (All (λ class. class.name.items ≢ name.now) self.now.classes.items) }
    {
        let mut number = 0;
        'each: for class in &self.classes {
            if class.name.as_slice() == name {
                return Some(number);
            }
            number += 1;
        }
        None
    }

    /// One more class, whose name no other has, and whose superclass is there.
    pub(crate) fn add_class(&mut self, class: Class) -> Result<(), AllocError>
        requires apart { All (λ other. other.name.items ≢ class.name.items) self.old.classes.items }
        requires above { IfSome class.superclass (λ number. number < length self.old.classes.items) }
        ensures keeps { (texts : ℕ) → IsProgram texts self.old → OnOk result (IsProgram texts self.new) }
        ensures longer { OnOk result (length self.old.classes.items ≤ length self.new.classes.items) }
    {
        self.classes.push(class)?;
        Ok(())
    }

    /// One more method.
    pub(crate) fn add_method(&mut self, written: Written) -> Result<(), AllocError>
        requires { written.class < length self.old.classes.items }
        ensures keeps { (texts : ℕ) → IsProgram texts self.old → written.source < texts → OnOk result (IsProgram texts self.new) }
        ensures same { self.new.classes ≡ self.old.classes }
    {
        self.methods.push(written)?;
        Ok(())
    }

    /// Gives a class fields of its own.
    pub(crate) fn give_fields(&mut self, class: usize, names: Vec<Vec<u8>>)
        requires { class < length self.old.classes.items }
        ensures keeps { (texts : ℕ) → IsProgram texts self.old → IsProgram texts self.new }
        ensures as_long { length self.new.classes.items ≡ length self.old.classes.items }
    {
        self.classes[class].class_fields = names;
    }

    /// The name of a class that is nearest to a name.
    pub(crate) fn nearest_class(
        &self,
        alloc: Global,
        name: &[u8],
    ) -> Result<Option<Vec<u8>>, AllocError> {
        let mut best = None;
        let mut below = usize::MAX;
        for class in &self.classes {
            let mut one = Vec::new(alloc);
            one.push(Vec::from_slice(alloc, class.name.as_slice())?)?;
            if let Some((_, edits)) = nearest(alloc, name, one.as_slice(), below)? {
                below = edits;
                best = one.pop();
            }
        }
        Ok(best)
    }
}
