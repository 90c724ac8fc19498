// Where an element of an object stands.

/// Where an element of an object stands: its place among the values, the words, or the bytes, which may be those of a method's code.
#[derive(Clone, Copy, Debug, PartialEq, Eq)]
pub enum Spot {
    /// A value of an object of pointers.
    Field(u32),
    /// A word of an object of words.
    Word(u32),
    /// A byte of an object of bytes, or of a method's code.
    Byte(u32),
}
