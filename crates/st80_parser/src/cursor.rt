// The tokens that are left. Each call takes at most one of them, or says what it is.
ghost use Rattle.std.specs.Prelude.{◌≡◌, ◌<◌, ◌≤◌, ◌==◌, ◌∷◌, true, false, List, IfSome, IfNone, IfOk, length};
ghost use Rattle.st80_syntax.specs.declared.token.Kind.TheVariants as kinds;
ghost use Rattle.st80_parser.specs.Kinds.{joint_of, kind_at, same_joint, same_kind};
ghost use Rattle.st80_parser.specs.Stands.{One, Runs, Symbol};
ghost use Rattle.st80_parser.specs.declared.kinds.Joint.TheVariants as joint;

use crate::error::{Expected, ParseError};
use crate::kinds::{Joint, joint_of, same_joint, same_kind};
use st80_syntax::{Kind, Token};

/// The tokens that are left.
#[derive(Clone, Copy)]
pub struct Cursor<'a> {
    pub rest: &'a [Token],
}

impl<'a> Cursor<'a> {
    /// The kind of the next token.
    pub fn peek(&self) -> Kind
        ensures { result ≡ kind_at self.now.rest.now }
    {
        match self.rest.first() {
            Some(token) => token.kind,
            None => Kind::End,
        }
    }

    /// How the next token goes on with an expression.
    pub fn joint(&self) -> Joint
        ensures { result ≡ joint_of (kind_at self.now.rest.now) }
    {
        joint_of(self.peek())
    }

    /// Whether no token is left.
    pub fn is_done(&self) -> bool
        ensures { result ≡ (length self.now.rest.now == 0) }
    {
        self.rest.len() == 0
    }

    /// Takes the next token, whatever it is.
    pub fn take(&mut self) -> Option<Token>
        ensures some { IfSome result (λ t. self.old.rest.now ≡ t ∷ self.new.rest.now) }
        ensures forth { IfSome result (λ t. length self.new.rest.now < length self.old.rest.now) }
        ensures none { IfNone result (self.new.rest.now ≡ self.old.rest.now) }
        ensures end { IfNone result (length self.old.rest.now ≡ 0) }
        ensures within { length self.new.rest.now ≤ length self.old.rest.now }
    {
        let (token, rest) = self.rest.split_first()?;
        self.rest = rest;
        Some(*token)
    }

    /// Takes the next token if it is of this kind.
    pub fn eat(&mut self, kind: Kind) -> Option<Token>
        requires real { same_kind kinds.End kind ≡ false }
        ensures some { IfSome result (λ t. self.old.rest.now ≡ t ∷ self.new.rest.now) }
        ensures is { IfSome result (λ t. same_kind t.kind kind ≡ true) }
        ensures forth { IfSome result (λ t. length self.new.rest.now < length self.old.rest.now) }
        ensures none { IfNone result (self.new.rest.now ≡ self.old.rest.now) }
        ensures other { IfNone result (same_kind (kind_at self.old.rest.now) kind ≡ false) }
        ensures within { length self.new.rest.now ≤ length self.old.rest.now }
    {
        if same_kind(self.peek(), kind) {
            self.take()
        } else {
            None
        }
    }

    /// Takes the next token if it goes on with an expression so.
    pub fn joined(&mut self, how: Joint) -> Option<Token>
        requires real { same_joint joint.Nothing how ≡ false }
        ensures some { IfSome result (λ t. self.old.rest.now ≡ t ∷ self.new.rest.now) }
        ensures is { IfSome result (λ t. joint_of t.kind ≡ how) }
        ensures forth { IfSome result (λ t. length self.new.rest.now < length self.old.rest.now) }
        ensures none { IfNone result (self.new.rest.now ≡ self.old.rest.now) }
        ensures other { IfNone result (same_joint (joint_of (kind_at self.old.rest.now)) how ≡ false) }
        ensures within { length self.new.rest.now ≤ length self.old.rest.now }
    {
        if same_joint(self.joint(), how) {
            self.take()
        } else {
            None
        }
    }

    /// Takes the next token, which has to be there.
    pub fn next(&mut self) -> Token
        requires { 0 < length self.old.rest.now }
        ensures { self.old.rest.now ≡ result ∷ self.new.rest.now }
    {
        let token = self.rest[0];
        self.rest = &self.rest[1..];
        token
    }

    /// Takes the next token, which has to be of this kind.
    pub fn expect(&mut self, kind: Kind, expected: Expected) -> Result<Token, ParseError>
        requires real { same_kind kinds.End kind ≡ false }
        ensures reads { IfOk result (λ t. self.old.rest.now ≡ t ∷ self.new.rest.now) }
        ensures is { IfOk result (λ t. same_kind t.kind kind ≡ true) }
        ensures runs { (xs : List Symbol) → Runs result (One kind ∷ xs) (λ t. xs) self.old.rest.now self.new.rest.now }
        ensures within { length self.new.rest.now ≤ length self.old.rest.now }
    {
        match self.eat(kind) {
            Some(token) => Ok(token),
            None => Err(ParseError::Refused(expected)),
        }
    }
}
