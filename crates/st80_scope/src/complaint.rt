// What is wrong with a method.
use st80_syntax::Token;
use std::alloc::{AllocError, AllocFailed};

/// What is wrong at a token.
#[derive(Debug, Drop)]
pub enum Reason {
    /// No variable has the name. The nearest one that is known, if there is one.
    Unknown(Option<Vec<u8>>),
    /// `super` stands where it receives no message.
    Super,
    /// What stands before an assignment is no variable that may be assigned.
    Fixed,
    /// A name of the method stands twice among its arguments and temporaries.
    Twice,
    /// More arguments than a block or a method has: 31.
    Arguments,
    /// More temporaries than a method has, arguments and those of blocks among them: 31.
    Temporaries,
    /// A field behind the 256th.
    Fields,
    /// An integer that no large one holds, or with a digit that its radix doesn't have.
    Range,
    /// What stands before a semicolon is no message.
    Message,
    /// It isn't `<primitive: n>` with n from 1 to 255.
    Primitive,
    /// Nested too deep.
    Deep,
    /// More literals than a pool has.
    Literals,
}

/// What is wrong, and where.
#[derive(Debug, Drop)]
pub struct Complaint {
    pub token: Token,
    pub reason: Reason,
}

/// Why nothing is answered.
#[derive(Debug, Drop)]
pub(crate) enum Stop {
    Memory(AllocError),
    Wrong(Complaint),
}

impl From<AllocError> for Stop {
    fn from(error: AllocError) -> Stop {
        Stop::Memory(error)
    }
}

impl<T: Drop> From<AllocFailed<T>> for Stop {
    fn from(error: AllocFailed<T>) -> Stop {
        Stop::Memory(AllocError::from(error))
    }
}

pub(crate) fn wrong(token: Token, reason: Reason) -> Stop {
    Stop::Wrong(Complaint { token, reason })
}
