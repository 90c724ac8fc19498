// The names that a method may use, and what each is.
use crate::complaint::{Reason, Stop, wrong};
use crate::lookup::{Declared, declaration_of, place_in};
use crate::nearness::nearest;
use st80_pool::{Entry, Pool};
use st80_syntax::Token;
use st80_tree::{Constant, Node, Variable};
use std::alloc::{AllocError, Global};

/// So many temporaries a method has at most, arguments and those of blocks among them.
pub(crate) const MOST_TEMPORARIES: usize = 31;

/// A message that a method sends: the number of its selector, and the token that says it.
#[derive(Clone, Copy, Debug)]
pub struct Call {
    pub selector: u32,
    pub token: Token,
}

/// What is around a method while its names are looked up.
#[derive(Drop)]
pub(crate) struct Scope<'a> {
    pub alloc: Global,
    pub pool: &'a mut Pool,
    /// The text that the tokens stand in.
    pub text: &'a [u8],
    pub fields: &'a [Vec<u8>],
    pub shared: &'a [Vec<u8>],
    /// The names of the temporaries. One that isn't open any more is empty.
    pub names: Vec<Vec<u8>>,
    /// How many of them are arguments of the method.
    pub arguments: usize,
    /// The messages that it sends, in order.
    pub calls: Vec<Call>,
}

fn copy_of(alloc: Global, names: &[Vec<u8>], at: usize) -> Result<Option<Vec<u8>>, AllocError> {
    match names.get(at) {
        Some(name) => Ok(Some(Vec::from_slice(alloc, name.as_slice())?)),
        None => Ok(None),
    }
}

/// What a token spells in its text.
pub fn spelling(text: &[u8], token: Token) -> &[u8] {
    match text.get(token.at..token.at.saturating_add(token.len)) {
        Some(bytes) => bytes,
        None => &[],
    }
}

/// A name that is no variable: what it stands for.
fn constant_of(name: &[u8]) -> Option<Constant> {
    if name == b"self".as_slice() {
        return Some(Constant::Receiver);
    }
    if name == b"true".as_slice() {
        return Some(Constant::True);
    }
    if name == b"false".as_slice() {
        return Some(Constant::False);
    }
    if name == b"nil".as_slice() {
        return Some(Constant::Nil);
    }
    None
}

impl<'a> Scope<'a> {
    pub(crate) fn spelled(&self, token: Token) -> &'a [u8] {
        spelling(self.text, token)
    }

    pub(crate) fn is_super(&self, token: Token) -> bool {
        self.spelled(token) == b"super".as_slice()
    }

    /// The number of a literal in the pool.
    pub(crate) fn number_of(&mut self, token: Token, entry: Entry) -> Result<u32, Stop> {
        match self.pool.number_of(entry)? {
            Some(number) => Ok(number),
            None => Err(wrong(token, Reason::Literals)),
        }
    }

    /// One more message that the method sends.
    pub(crate) fn sends(&mut self, selector: u32, token: Token) -> Result<(), AllocError> {
        self.calls.push(Call { selector, token })?;
        Ok(())
    }

    /// The nearest name to one that isn't known.
    fn nearest_to(&self, name: &[u8]) -> Result<Option<Vec<u8>>, AllocError> {
        let names = self.names.as_slice();
        let first = nearest(self.alloc, name, names, usize::MAX)?;
        let below = first.map_or(usize::MAX, |found| found.1);
        let second = nearest(self.alloc, name, self.fields, below)?;
        let below = second.map_or(below, |found| found.1);
        let third = nearest(self.alloc, name, self.shared, below)?;
        match (third, second, first) {
            (Some(found), _, _) => copy_of(self.alloc, self.shared, found.0),
            (None, Some(found), _) => copy_of(self.alloc, self.fields, found.0),
            (None, None, Some(found)) => copy_of(self.alloc, names, found.0),
            (None, None, None) => Ok(None),
        }
    }

    /// The association of a shared variable by its number.
    fn shared_at(&mut self, token: Token, at: usize) -> Result<Variable, Stop> {
        match u32::try_from(at) {
            Ok(at) => Ok(Variable::Shared(self.number_of(token, Entry::Shared(at))?)),
            Err(_) => Err(wrong(token, Reason::Literals)),
        }
    }

    /// The variable of a name.
    pub(crate) fn variable(&mut self, token: Token) -> Result<Variable, Stop> {
        let name = self.spelled(token);
        match declaration_of(self.names.as_slice(), self.fields, self.shared, name) {
            Some(Declared::Temporary(at)) => match u8::try_from(at) {
                Ok(number) => Ok(Variable::Temporary(number)),
                Err(_) => Err(wrong(token, Reason::Temporaries)),
            },
            Some(Declared::Field(at)) => match u8::try_from(at) {
                Ok(number) => Ok(Variable::Instance(number)),
                Err(_) => Err(wrong(token, Reason::Fields)),
            },
            Some(Declared::Shared(at)) => self.shared_at(token, at),
            None => Err(wrong(token, Reason::Unknown(self.nearest_to(name)?))),
        }
    }

    /// What a name stands for.
    pub(crate) fn read(&mut self, token: Token) -> Result<Node, Stop> {
        let name = self.spelled(token);
        if let Some(constant) = constant_of(name) {
            return Ok(Node::Constant(constant));
        }
        if name == b"thisContext".as_slice() {
            return Ok(Node::Context);
        }
        if name == b"super".as_slice() {
            return Err(wrong(token, Reason::Super));
        }
        Ok(Node::Variable(self.variable(token)?))
    }

    /// The variable that is assigned: no argument of the method, and no name that is no variable.
    pub(crate) fn target(&mut self, token: Token) -> Result<Variable, Stop> {
        let name = self.spelled(token);
        let is_fixed = constant_of(name).is_some()
            || name == b"super".as_slice()
            || name == b"thisContext".as_slice();
        if is_fixed {
            return Err(wrong(token, Reason::Fixed));
        }
        match self.variable(token)? {
            Variable::Temporary(number) if usize::from(number) < self.arguments => {
                Err(wrong(token, Reason::Fixed))
            }
            variable => Ok(variable),
        }
    }

    /// One more temporary.
    pub(crate) fn declare(&mut self, token: Token) -> Result<(), Stop> {
        let name = self.spelled(token);
        if place_in(self.names.as_slice(), name).is_some()
            || constant_of(name).is_some()
            || name == b"super".as_slice()
            || name == b"thisContext".as_slice()
        {
            return Err(wrong(token, Reason::Twice));
        }
        if self.names.len() >= MOST_TEMPORARIES {
            return Err(wrong(token, Reason::Temporaries));
        }
        let copy = Vec::from_slice(self.alloc, name)?;
        self.names.push(copy)?;
        Ok(())
    }

    /// From this place on, the names of temporaries aren't open any more.
    pub(crate) fn close(&mut self, from: usize) {
        for (i, name) in self.names.iter_mut().enumerate() {
            if from <= i {
                name.clear();
            }
        }
    }
}
