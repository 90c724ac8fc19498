// Literals, as numbers of the pool.
use crate::complaint::{Reason, Stop, wrong};
use crate::scope::Scope;
use st80_parser::Elements;
use st80_pool::Entry;
use st80_syntax::{Kind, LARGEST, Token, integer_in};
use st80_tree::{Constant, Node};
use std::alloc::{AllocError, Global};

/// What is between the quotes of a string, with each doubled quote as one.
fn quoted(alloc: Global, spelled: &[u8]) -> Result<Vec<u8>, AllocError> {
    let mut bytes = Vec::new(alloc);
    let mut is_second = false;
    let end = spelled.len().saturating_sub(1);
    for b in spelled.get(1..end).unwrap_or(&[]) {
        if *b == b'\'' && !is_second {
            is_second = true;
        } else {
            is_second = false;
        }
        if !is_second {
            bytes.push(*b)?;
        }
    }
    Ok(bytes)
}

/// The parts of an array, the last first.
fn parts_of(alloc: Global, elements: &Elements) -> Result<Vec<&Elements>, AllocError> {
    let mut parts = Vec::new(alloc);
    let mut at = elements;
    loop {
        match at {
            Elements::Start => return Ok(parts),
            Elements::One(before, _) => {
                parts.push(at)?;
                at = before;
            }
            Elements::Nested(before, _, _, _) => {
                parts.push(at)?;
                at = before;
            }
        }
    }
}

/// Whether a token stands right behind another one.
fn is_behind(token: Token, other: Token) -> bool {
    token.at == other.at.saturating_add(other.len)
}

impl<'a> Scope<'a> {
    pub(crate) fn symbol_number(&mut self, token: Token, name: &[u8]) -> Result<u32, Stop> {
        let copy = Vec::from_slice(self.alloc, name)?;
        self.number_of(token, Entry::Symbol(copy))
    }

    /// What an integer comes to.
    fn amount(&self, token: Token, is_negative: bool) -> Result<u128, Stop> {
        match integer_in(self.spelled(token)) {
            Some(amount) if is_negative || amount < LARGEST => Ok(amount),
            _ => Err(wrong(token, Reason::Range)),
        }
    }

    fn integer_number(&mut self, token: Token, is_negative: bool) -> Result<u32, Stop> {
        let amount = self.amount(token, is_negative)?;
        let is_negative = is_negative && amount != 0;
        self.number_of(
            token,
            Entry::Integer {
                is_negative,
                amount,
            },
        )
    }

    /// An integer: some need no literal.
    pub(crate) fn integer(&mut self, token: Token, is_negative: bool) -> Result<Node, Stop> {
        let amount = self.amount(token, is_negative)?;
        let constant = match (amount, is_negative) {
            (0, _) => Some(Constant::Zero),
            (1, false) => Some(Constant::One),
            (2, false) => Some(Constant::Two),
            (1, true) => Some(Constant::MinusOne),
            _ => None,
        };
        match constant {
            Some(constant) => Ok(Node::Constant(constant)),
            None => Ok(Node::Literal(self.integer_number(token, is_negative)?)),
        }
    }

    /// The number of a literal by its token. Words and signs stand for symbols.
    pub(crate) fn literal_number(&mut self, token: Token) -> Result<u32, Stop> {
        let spelled = self.spelled(token);
        match token.kind {
            Kind::Integer => self.integer_number(token, false),
            Kind::Character => {
                let code = spelled.get(1).copied().unwrap_or(0);
                self.number_of(token, Entry::Character(code))
            }
            Kind::Text => {
                let text = quoted(self.alloc, spelled)?;
                self.number_of(token, Entry::Text(text))
            }
            Kind::Symbol => self.symbol_number(token, spelled.get(1..).unwrap_or(&[])),
            _ => self.symbol_number(token, spelled),
        }
    }

    /// The symbol of a token that waited, if there is one.
    fn flush(&mut self, waiting: Option<Token>, numbers: &mut Vec<u32>) -> Result<(), Stop> {
        if let Some(token) = waiting {
            numbers.push(self.literal_number(token)?)?;
        }
        Ok(())
    }

    /// One token of an array. Keywords that follow one another are one symbol, and a minus right before an integer belongs to it: so these wait.
    fn element(
        &mut self,
        token: Token,
        waiting: Option<Token>,
        numbers: &mut Vec<u32>,
    ) -> Result<Option<Token>, Stop> {
        match (waiting, token.kind) {
            (Some(before), Kind::Keyword)
                if before.kind == Kind::Keyword && is_behind(token, before) => {
                let len = before.len.saturating_add(token.len);
                return Ok(Some(Token { len, ..before }));
            }
            (Some(before), Kind::Integer)
                if before.kind == Kind::Minus && is_behind(token, before) => {
                numbers.push(self.integer_number(token, true)?)?;
                return Ok(None);
            }
            _ => {}
        }
        self.flush(waiting, numbers)?;
        match token.kind {
            Kind::Keyword | Kind::Minus => Ok(Some(token)),
            _ => {
                numbers.push(self.literal_number(token)?)?;
                Ok(None)
            }
        }
    }
}

/// The number of an array.
pub(crate) fn array_number(
    scope: &mut Scope<'_>,
    token: Token,
    elements: &Elements,
    depth: usize,
) -> Result<u32, Stop> {
    if depth == 0 {
        return Err(wrong(token, Reason::Deep));
    }
    let parts = parts_of(scope.alloc, elements)?;
    let mut numbers = Vec::new(scope.alloc);
    let mut waiting = None;
    'each: for part in parts.iter().rev() {
        match *part {
            Elements::Start => {}
            Elements::One(_, token) => {
                waiting = scope.element(*token, waiting, &mut numbers)?;
            }
            Elements::Nested(_, opening, inner, _) => {
                scope.flush(waiting, &mut numbers)?;
                waiting = None;
                numbers.push(array_number(scope, *opening, inner, depth - 1)?)?;
            }
        }
    }
    scope.flush(waiting, &mut numbers)?;
    scope.number_of(token, Entry::Array(numbers))
}
