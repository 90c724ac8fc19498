// Objects under names that are given out one after another.
ghost use Rattle.std.specs.Prelude.{◌<◌, ◌+◌};
ghost use Rattle.image_builder.specs.Sizes.{Fits};

use image_builder::Builder;
use long_names::{Body, MOST_FIELDS, Name, Octets, Value, Values};
use std::alloc::{AllocError, AllocFailed, Global};

/// nil, as a value.
pub(crate) const NIL: Value = Value::Ref(Name::NIL);

/// Why no image is made.
#[derive(Debug, Drop)]
pub(crate) enum Stop {
    Memory(AllocError),
    /// An object has too many fields, or there are too many objects.
    Full,
    /// A method names a literal that isn't there.
    Literal(usize),
}

impl From<AllocError> for Stop {
    fn from(error: AllocError) -> Stop {
        Stop::Memory(error)
    }
}

impl<T: Drop> From<AllocFailed<T>> for Stop {
    fn from(error: AllocFailed<T>) -> Stop {
        Stop::Memory(AllocError::from(error))
    }
}

/// The objects of an image that is being made, and the next name.
#[derive(Drop)]
pub(crate) struct Heap {
    pub alloc: Global,
    pub builder: Builder,
    pub next: u32,
}

impl Heap {
    pub(crate) fn new(alloc: Global) -> Result<Heap, AllocError> {
        Ok(Heap {
            alloc,
            builder: Builder::new(alloc)?,
            next: 60,
        })
    }

    /// A new name.
    pub(crate) fn name(&mut self) -> Result<Name, Stop> {
        let word = self.next;
        match (Name::new(word), word.checked_add(2)) {
            (Some(name), Some(next)) => {
                self.next = next;
                Ok(name)
            }
            _ => Err(Stop::Full),
        }
    }

    pub(crate) fn put(&mut self, name: Name, class: Name, body: Body) -> Result<(), Stop> {
        match body {
            Body::Pointers(values) if values.len() <= MOST_FIELDS as usize => {
                Ok(self.builder.add(name, class, Body::Pointers(values))?)
            }
            Body::Bytes(bytes) if bytes.len() <= MOST_FIELDS as usize => {
                Ok(self.builder.add(name, class, Body::Bytes(bytes))?)
            }
            Body::Words(words) if words.len() <= MOST_FIELDS as usize => {
                Ok(self.builder.add(name, class, Body::Words(words))?)
            }
            Body::Method {
                header,
                literals,
                code,
            } => Ok(
                self.builder.add(
                    name,
                    class,
                    Body::Method {
                        header,
                        literals,
                        code,
                    },
                )?,
            ),
            _ => Err(Stop::Full),
        }
    }

    pub(crate) fn put_fields(
        &mut self,
        name: Name,
        class: Name,
        fields: &[Value],
    ) -> Result<(), Stop> {
        let values = Values::from_slice(self.alloc, fields)?;
        self.put(name, class, Body::Pointers(values))
    }

    pub(crate) fn put_bytes(&mut self, name: Name, class: Name, bytes: &[u8]) -> Result<(), Stop> {
        let bytes = Octets::from_slice(self.alloc, bytes)?;
        self.put(name, class, Body::Bytes(bytes))
    }

    /// A new object of these fields.
    pub(crate) fn made(&mut self, class: Name, fields: &[Value]) -> Result<Name, Stop> {
        let name = self.name()?;
        self.put_fields(name, class, fields)?;
        Ok(name)
    }
}
