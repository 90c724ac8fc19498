// Where the parts of a record begin, among its bytes.

pub const NAME_AT: usize = 0;

pub const CLASS_AT: usize = 4;

/// The count of references, of 8 bytes.
pub const COUNT_AT: usize = 8;

/// The number of the kind, of 2 bytes.
pub const KIND_AT: usize = 16;

/// How many values, words or bytes, or code bytes of a method.
pub const SIZE_AT: usize = 18;

/// The contents. Those of a method begin with the number of its literals.
pub const CONTENTS_AT: usize = 20;

/// A method's header.
pub const HEADER_AT: usize = 24;

/// A method's first literal. The bytes before it say how long a record is.
pub const LITERALS_AT: usize = 28;
