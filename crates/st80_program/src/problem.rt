// What is wrong with a program, and where.
use st80_parser::Expected;
use st80_scope::Reason;
use st80_syntax::Fault;
use std::alloc::{AllocError, AllocFailed};

/// What is wrong.
#[derive(Debug, Drop)]
pub enum What {
    /// No mark ends the chunk that begins here.
    Unended,
    /// No token begins here.
    Fault(Fault),
    /// No rule takes the token here.
    Expected(Expected),
    /// A name, or a part of a method.
    Reason(Reason),
    /// No class has the name. The nearest that is known, if there is one.
    NoClass(Option<Vec<u8>>),
    /// A class of this name was defined before.
    ClassTwice,
    /// The class has a method of this selector already.
    MethodTwice,
    /// A chunk behind one of blanks is no header as `Object methodsFor: 'comparing'`.
    NoHeader,
    /// The definition of a class has other keywords or other arguments.
    NoDefinition,
    /// No class has a method of the selector that is sent. The nearest that one has, if there is one.
    NotUnderstood(Option<Vec<u8>>),
    /// A second chunk of statements to begin with.
    StartTwice,
}

/// What is wrong, with the number of the text and the place in it.
#[derive(Debug, Drop)]
pub struct Problem {
    pub source: usize,
    pub place: usize,
    pub what: What,
}

/// Why nothing is answered.
#[derive(Debug, Drop)]
pub(crate) enum Stop {
    Memory(AllocError),
    Wrong(Problem),
}

impl From<AllocError> for Stop {
    fn from(error: AllocError) -> Stop {
        Stop::Memory(error)
    }
}

impl<T: Drop> From<AllocFailed<T>> for Stop {
    fn from(error: AllocFailed<T>) -> Stop {
        Stop::Memory(AllocError::from(error))
    }
}

pub(crate) fn wrong(source: usize, place: usize, what: What) -> Stop {
    Stop::Wrong(Problem {
        source,
        place,
        what,
    })
}
