// Why no tree is answered.
ghost use Rattle.std.specs.Prelude.{◌≡◌};
ghost use Rattle.st80_parser.specs.declared.error.ParseError.TheVariants.{Memory};

use std::alloc::AllocError;

/// What could stand where a token is refused.
#[derive(Clone, Copy, Debug, PartialEq, Eq)]
pub enum Expected {
    /// A variable, a literal, a block or an expression in parentheses.
    Expression,
    /// A selector, with names for its arguments.
    Pattern,
    /// The name of an argument or of a temporary.
    Name,
    /// A selector behind a semicolon.
    Message,
    /// The number of a primitive.
    Number,
    /// A keyword behind `<`.
    Keyword,
    /// What ends a primitive.
    Sign,
    Bar,
    Close,
    CloseBlock,
    /// A period, or the end.
    Period,
    /// Anything less nested: expressions nest at most a hundred deep.
    Shallower,
}

/// Why a rule answers nothing.
#[derive(Debug, Drop)]
pub enum ParseError {
    Memory(AllocError),
    /// The next token isn't what could stand there.
    Refused(Expected),
}

impl From<AllocError> for ParseError {
    ghost from_gives = { λ a e. e ≡ Memory a };

    fn from(error: AllocError) -> ParseError {
        ParseError::Memory(error)
    }
}
