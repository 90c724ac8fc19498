// A method whole.
ghost use Rattle.std.specs.Prelude.{IfOk};
ghost use Rattle.st80_scope.specs.Resolving.{IsFitting, IsResolved};

use crate::blocks::Ending;
use crate::complaint::{Complaint, Reason, Stop, wrong};
use crate::nodes::{second_of_pairs, statements};
use crate::scope::{Call, MOST_TEMPORARIES, Scope};
use st80_parser::{Method as Parsed, Names, Pairs, Pattern, Primitive, Temporaries};
use st80_pool::Pool;
use st80_syntax::{Kind, Token, integer_in};
use st80_tree::Method;
use std::alloc::{AllocError, Global};

/// The names that stand around a method: the fields of its class in order, and the variables that it shares with others.
#[derive(Clone, Copy)]
pub struct Around<'a> {
    pub fields: &'a [Vec<u8>],
    pub shared: &'a [Vec<u8>],
}

/// A method with its names resolved.
#[derive(Drop)]
pub struct Found {
    /// The number of its selector in the pool.
    pub selector: u32,
    pub method: Method,
    /// The messages that it sends, in order.
    pub calls: Vec<Call>,
}

/// What a method is resolved to.
#[derive(Drop)]
pub enum Resolved {
    Method(Found),
    Refused(Complaint),
}

/// What complaints are about where there is no other token.
fn no_token() -> Token {
    Token {
        kind: Kind::End,
        at: 0,
        len: 0,
    }
}

/// The marks of pairs, the last first.
fn first_of_pairs(alloc: Global, pairs: &Pairs) -> Result<Vec<Token>, AllocError> {
    let mut found = Vec::new(alloc);
    let mut at = pairs;
    loop {
        match at {
            Pairs::Start => return Ok(found),
            Pairs::Pair(before, mark, _) => {
                found.push(*mark)?;
                at = before;
            }
        }
    }
}

/// Names, the last first.
fn names_in(alloc: Global, names: &Names) -> Result<Vec<Token>, AllocError> {
    let mut found = Vec::new(alloc);
    let mut at = names;
    loop {
        match at {
            Names::Start => return Ok(found),
            Names::Name(before, token) => {
                found.push(*token)?;
                at = before;
            }
        }
    }
}

impl<'a> Scope<'a> {
    /// Declares names, the last of which comes first.
    fn declare_all(&mut self, names: &[Token]) -> Result<(), Stop> {
        for name in names.iter().rev() {
            self.declare(*name)?;
        }
        Ok(())
    }

    /// The selector of keywords.
    fn selector_of(&mut self, pairs: &Pairs) -> Result<u32, Stop> {
        let marks = first_of_pairs(self.alloc, pairs)?;
        let mut name = Vec::new(self.alloc);
        for mark in marks.iter().rev() {
            name.extend_from_slice(self.spelled(*mark))?;
        }
        let token = marks.first().copied().unwrap_or(no_token());
        self.symbol_number(token, name.as_slice())
    }

    /// The number of the selector. The arguments are declared.
    fn pattern(&mut self, pattern: &Pattern) -> Result<u32, Stop> {
        match pattern {
            Pattern::Nothing => self.symbol_number(no_token(), b"DoIt"),
            Pattern::Unary(token) => self.symbol_number(*token, self.spelled(*token)),
            Pattern::Binary(token, name) => {
                self.declare(*name)?;
                self.symbol_number(*token, self.spelled(*token))
            }
            Pattern::Keyword(pairs) => {
                let names = second_of_pairs(self.alloc, pairs)?;
                self.declare_all(names.as_slice())?;
                self.selector_of(pairs)
            }
        }
    }

    fn temporaries(&mut self, temporaries: &Temporaries) -> Result<(), Stop> {
        let Temporaries::Of(_, names, _) = temporaries else {
            return Ok(());
        };
        let names = names_in(self.alloc, names)?;
        self.declare_all(names.as_slice())
    }

    /// The number of the primitive; 0 is none.
    fn primitive(&mut self, primitive: &Primitive) -> Result<u8, Stop> {
        let Primitive::Of(opening, word, number, close) = primitive else {
            return Ok(0);
        };
        if self.spelled(*opening) != b"<".as_slice()
            || self.spelled(*word) != b"primitive:".as_slice()
            || self.spelled(*close) != b">".as_slice()
        {
            return Err(wrong(*word, Reason::Primitive));
        }
        match integer_in(self.spelled(*number)) {
            Some(amount) if 1 <= amount && amount <= 255 => {
                Ok(u8::try_from(amount).unwrap_or(0))
            }
            _ => Err(wrong(*number, Reason::Primitive)),
        }
    }

    fn whole(&mut self, parsed: &Parsed) -> Result<(u32, Method), Stop>
        ensures { IfOk result (λ found. IsFitting found.1) }
    {
        let selector = self.pattern(&parsed.pattern)?;
        self.arguments = self.names.len();
        self.temporaries(&parsed.temporaries)?;
        let primitive = self.primitive(&parsed.primitive)?;
        let ending = match parsed.pattern {
            Pattern::Nothing => Ending::Answer,
            _ => Ending::Method,
        };
        let body = statements(self, &parsed.steps, &parsed.last, ending, no_token())?;
        let body = Box::new(self.alloc, body)?;
        let temporaries = MOST_TEMPORARIES.min(self.names.len());
        let arguments = temporaries.min(self.arguments);
        let (arguments, temporaries) = (arguments as u8, temporaries as u8);
        Ok((
            selector,
            Method {
                arguments,
                temporaries,
                primitive,
                body,
            },
        ))
    }
}

/// A method with its names resolved, or the first complaint about it.
pub fn method_of(
    alloc: Global,
    pool: &mut Pool,
    around: Around<'_>,
    text: &[u8],
    parsed: &Parsed,
) -> Result<Resolved, AllocError>
    ensures { IfOk result IsResolved }
{
    let mut scope = Scope {
        alloc,
        pool,
        text,
        fields: around.fields,
        shared: around.shared,
        names: Vec::new(alloc),
        arguments: 0,
        calls: Vec::new(alloc),
    };
    match scope.whole(parsed) {
        Ok((selector, method)) => {
            let calls = std::mem::replace(&mut scope.calls, Vec::new(alloc));
            Ok(Resolved::Method(Found {
                selector,
                method,
                calls,
            }))
        }
        Err(Stop::Wrong(complaint)) => Ok(Resolved::Refused(complaint)),
        Err(Stop::Memory(error)) => Err(error),
    }
}
