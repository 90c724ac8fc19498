// Messages whose methods have a primitive.
ghost use Rattle.std.specs.Prelude.{◌+◌, ◌<◌, ◌≤◌, length};
ghost use Rattle.long_names.specs.declared.limits.TheConstants.{MOST_FIELDS};

use crate::notation::{Header, NIL, add_bytes, add_method, name};
use image_builder::Builder;
use long_names::{Name, Value};
use std::alloc::{AllocError, Global};

/// The specification of a class of pointers: indexable, without fixed fields.
pub const POINTERS: Value = Value::Int(-4096);

/// The specification of a class of words: indexable, without fixed fields.
pub const WORDS: Value = Value::Int(12_288);

/// A message, and the primitive of its method. Where that fails, the method answers self.
#[derive(Clone, Copy)]
pub struct Message {
    /// Its selector as text.
    pub selector: &'static str,
    /// How many arguments it has.
    pub arguments: u8,
    /// The index of the primitive.
    pub primitive: u8,
}

impl Message {
    /// Adds its selector and its method under these names. Of a method that has a primitive the literal before the last states it,
    /// with the number of arguments.
    pub fn add(
        &self,
        alloc: Global,
        builder: &mut Builder,
        selector: Name,
        method: Name,
    ) -> Result<(), AllocError>
        requires arguments { self.now.arguments ≤ 4 }
        requires text { length self.now.selector.now < MOST_FIELDS + 1 }
    {
        add_bytes(
            alloc,
            builder,
            selector,
            Name::STRING,
            self.selector.as_bytes(),
        )?;
        let header = Header {
            flag: 7,
            temporaries: 0,
            is_large: false,
        };
        let extension = i16::from(self.arguments) * 256 + i16::from(self.primitive);
        add_method(
            alloc,
            builder,
            method,
            header,
            &[Value::Int(extension), NIL],
            &[120],
        )
    }
}
