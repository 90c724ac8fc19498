// Rules with expressions in them. They take the reader of those as a parameter, so that each is proved by itself.
ghost use Rattle.std.specs.Prelude.{◌≡◌, ◌≢◌, ◌≤◌, ◌++◌, ◌∷◌, ◌&&◌, ◌==◌, true, false, List, None, IfOk, IfSome, IfNone, length};
ghost use Rattle.st80_syntax.specs.declared.token.Kind.TheVariants as kinds;
ghost use Rattle.st80_parser.specs.declared.kinds.Joint.TheVariants as joints;
ghost use Rattle.st80_parser.specs.declared.tree.Expr.TheVariants as tree;
ghost use Rattle.st80_parser.specs.Kinds.{joint_of, kind_at, opening_of};
ghost use Rattle.st80_parser.specs.Nests.{Nests};
ghost use Rattle.st80_parser.specs.Stands as stands;
ghost use Rattle.st80_parser.specs.Stands.{EndsCascade, EndsMessage, Place, Plain, Runs, Symbol, begun, inside, state_of};
ghost use Rattle.st80_parser.specs.Written.{body, expr, last_of, others, parts};

use crate::arrays::array;
use crate::cursor::Cursor;
use crate::error::{Expected, ParseError};
use crate::kinds::{Joint, Opening, opening_of, same_kind};
use crate::making::{
    assign_of, binary_of, block_of, cascade_of, closed_of, group_of, keyword_of, other_binary,
    other_keyword, other_unary, part_of, return_of, step_of, unary_of, value_of,
};
use crate::rules::{header, negative};
use crate::tree::{Expr, Last, Others, Parts, Steps};
use st80_syntax::{Kind, Token};
use std::alloc::Global;

#[derive(Clone, Copy)]
pub(crate) struct Grammar<F> {
    pub alloc: Global,
    /// How deep expressions may still nest.
    pub depth: usize,
    pub reader: F,
}

/// Whether this is a message, so that others to its receiver may follow.
fn is_message(expr: &Expr) -> bool
    ensures { result ≡ stands.is_message (state_of expr.now) }
{
    match expr {
        Expr::Unary(_, _) | Expr::Binary(_, _, _) | Expr::Keyword(_, _) | Expr::Cascade(_, _) =>
            true,
        _ => false,
    }
}

/// Whether messages to the receiver of this one follow.
fn is_cascade(joint: Joint, first: &Expr) -> bool
    ensures { result ≡ stands.cascades joint (state_of first.now) }
{
    match joint {
        Joint::Semicolon => is_message(first),
        _ => false,
    }
}

/// The name that an expression is, if it is one.
fn name_in(expr: &Expr) -> Option<Token>
    ensures some { IfSome result (λ t. expr.now ≡ tree.Name t) }
    ensures none { IfNone result (stands.is_named (state_of expr.now) ≡ false) }
{
    match expr {
        Expr::Name(token) => Some(*token),
        _ => None,
    }
}

/// Whether what begins so nests deeper than may be.
fn is_too_deep(opening: Opening, depth: usize) -> bool
    ensures { result ≡ (stands.is_group opening && depth == 0) }
{
    match opening {
        Opening::Group => depth == 0,
        _ => false,
    }
}

impl<F: Fn(Global, &mut Cursor<'_>, usize) -> Result<Expr, ParseError>> Grammar<F> {
    fn nested(&self, cursor: &mut Cursor<'_>) -> Result<Expr, ParseError>
        requires nests { Nests self.now.depth (F.pre self.now.reader) (F.post self.now.reader) }
        ensures reads { IfOk result (λ e. cursor.old.rest.now ≡ expr e ++ cursor.new.rest.now) }
        ensures runs { (xs : List Symbol) → Runs result (stands.Nested self.now.depth ∷ xs) (λ _. xs) cursor.old.rest.now cursor.new.rest.now }
        ensures within { length cursor.new.rest.now ≤ length cursor.old.rest.now }
    {
        (self.reader)(self.alloc, cursor, self.depth)
    }

    /// What stands in parentheses, of which the first was taken.
    fn group(&self, cursor: &mut Cursor<'_>, opening: Token) -> Result<Expr, ParseError>
        requires nests { Nests self.now.depth (F.pre self.now.reader) (F.post self.now.reader) }
        ensures reads { IfOk result (λ e. opening ∷ cursor.old.rest.now ≡ expr e ++ cursor.new.rest.now) }
        ensures runs { (xs : List Symbol) → Runs result (stands.Nested self.now.depth ∷ stands.One kinds.Close ∷ xs) (λ _. xs) cursor.old.rest.now cursor.new.rest.now }
        ensures state { IfOk result (λ e. state_of e ≡ Plain) }
        ensures within { length cursor.new.rest.now ≤ length cursor.old.rest.now }
    {
        let inner = self.nested(cursor)?;
        let close = cursor.expect(Kind::Close, Expected::Close)?;
        let made = group_of(self.alloc, opening, inner, close)?;
        Ok(made)
    }

    /// What is returned behind a `^`, which was taken.
    fn value_returned(&self, cursor: &mut Cursor<'_>, sign: Token) -> Result<Last, ParseError>
        requires nests { Nests self.now.depth (F.pre self.now.reader) (F.post self.now.reader) }
        ensures reads { IfOk result (λ l. sign ∷ cursor.old.rest.now ≡ last_of l ++ cursor.new.rest.now) }
        ensures runs { (xs : List Symbol) → Runs result (stands.Nested self.now.depth ∷ stands.Dot ∷ xs) (λ _. xs) cursor.old.rest.now cursor.new.rest.now }
        ensures within { length cursor.new.rest.now ≤ length cursor.old.rest.now }
    {
        let value = self.nested(cursor)?;
        match cursor.eat(Kind::Period) {
            Some(period) => {
                let made = closed_of(self.alloc, sign, value, period)?;
                Ok(made)
            }
            None => {
                let made = return_of(self.alloc, sign, value)?;
                Ok(made)
            }
        }
    }

    /// `^` and what is returned, or nothing, where no expression begins.
    fn returned(&self, cursor: &mut Cursor<'_>) -> Result<Last, ParseError>
        requires nests { Nests self.now.depth (F.pre self.now.reader) (F.post self.now.reader) }
        requires other { opening_of (kind_at cursor.old.rest.now) ≡ None }
        ensures reads { IfOk result (λ l. cursor.old.rest.now ≡ last_of l ++ cursor.new.rest.now) }
        ensures runs { (xs : List Symbol) → Runs result (stands.Body self.now.depth ∷ xs) (λ _. xs) cursor.old.rest.now cursor.new.rest.now }
        ensures within { length cursor.new.rest.now ≤ length cursor.old.rest.now }
    {
        if !same_kind(cursor.peek(), Kind::Return) {
            return Ok(Last::Nothing);
        }
        if self.depth == 0 {
            return Err(ParseError::Refused(Expected::Shallower));
        }
        let sign = cursor.next();
        self.value_returned(cursor, sign)
    }

    /// Statements, up to what begins none.
    pub(crate) fn body(&self, cursor: &mut Cursor<'_>) -> Result<(Steps, Last), ParseError>
        requires nests { Nests self.now.depth (F.pre self.now.reader) (F.post self.now.reader) }
        ensures reads { IfOk result (λ b. cursor.old.rest.now ≡ body b ++ cursor.new.rest.now) }
        ensures runs { (xs : List Symbol) → Runs result (stands.Body self.now.depth ∷ xs) (λ _. xs) cursor.old.rest.now cursor.new.rest.now }
        ensures within { length cursor.new.rest.now ≤ length cursor.old.rest.now }
    {
        let mut steps = Steps::Start;
        'each: while let Some(_) = opening_of(cursor.peek()) {
            let value = self.nested(cursor)?;
            match cursor.eat(Kind::Period) {
                Some(period) => {
                    let longer = step_of(self.alloc, steps, value, period)?;
                    steps = longer;
                }
                None => {
                    let last = value_of(self.alloc, value)?;
                    return Ok((steps, last));
                }
            }
        }
        let last = self.returned(cursor)?;
        Ok((steps, last))
    }

    /// A block behind its bracket, which was taken.
    fn block(&self, cursor: &mut Cursor<'_>, opening: Token) -> Result<Expr, ParseError>
        requires nests { Nests self.now.depth (F.pre self.now.reader) (F.post self.now.reader) }
        ensures reads { IfOk result (λ e. opening ∷ cursor.old.rest.now ≡ expr e ++ cursor.new.rest.now) }
        ensures runs { (xs : List Symbol) → Runs result (stands.Header ∷ stands.Body self.now.depth ∷ stands.One kinds.CloseBlock ∷ xs) (λ _. xs) cursor.old.rest.now cursor.new.rest.now }
        ensures state { IfOk result (λ e. state_of e ≡ Plain) }
        ensures within { length cursor.new.rest.now ≤ length cursor.old.rest.now }
    {
        let arguments = header(self.alloc, cursor)?;
        let inner = self.body(cursor)?;
        let close = cursor.expect(Kind::CloseBlock, Expected::CloseBlock)?;
        let made = block_of(self.alloc, opening, arguments, inner, close)?;
        Ok(made)
    }

    /// A primary that begins so, behind its first token, which was taken.
    fn begun(
        &self,
        cursor: &mut Cursor<'_>,
        opening: Opening,
        token: Token,
    ) -> Result<Expr, ParseError>
        requires nests { Nests self.now.depth (F.pre self.now.reader) (F.post self.now.reader) }
        ensures reads { IfOk result (λ e. token ∷ cursor.old.rest.now ≡ expr e ++ cursor.new.rest.now) }
        ensures runs { (xs : List Symbol) → Runs result (inside self.now.depth opening ++ xs) (λ _. xs) cursor.old.rest.now cursor.new.rest.now }
        ensures state { IfOk result (λ e. state_of e ≡ begun opening) }
        ensures within { length cursor.new.rest.now ≤ length cursor.old.rest.now }
    {
        match opening {
            Opening::Name => Ok(Expr::Name(token)),
            Opening::Literal => Ok(Expr::Literal(token)),
            Opening::Minus => negative(cursor, token),
            Opening::Array => array(self.alloc, cursor, token),
            Opening::Group => self.group(cursor, token),
            Opening::Block => self.block(cursor, token),
        }
    }

    fn primary(&self, cursor: &mut Cursor<'_>) -> Result<Expr, ParseError>
        requires nests { Nests self.now.depth (F.pre self.now.reader) (F.post self.now.reader) }
        ensures reads { IfOk result (λ e. cursor.old.rest.now ≡ expr e ++ cursor.new.rest.now) }
        ensures runs { (place : Place) (xs : List Symbol) → Runs result (stands.First place self.now.depth ∷ xs) (λ e. stands.After (state_of e) place self.now.depth ∷ xs) cursor.old.rest.now cursor.new.rest.now }
        ensures names { IfOk result (λ e. stands.takes_names (state_of e) ≡ true) }
        ensures within { length cursor.new.rest.now ≤ length cursor.old.rest.now }
    {
        match opening_of(cursor.peek()) {
            None => Err(ParseError::Refused(Expected::Expression)),
            Some(opening) => {
                if is_too_deep(opening, self.depth) {
                    return Err(ParseError::Refused(Expected::Shallower));
                }
                let token = cursor.next();
                self.begun(cursor, opening, token)
            }
        }
    }

    fn unary(&self, cursor: &mut Cursor<'_>) -> Result<Expr, ParseError>
        requires nests { Nests self.now.depth (F.pre self.now.reader) (F.post self.now.reader) }
        ensures reads { IfOk result (λ e. cursor.old.rest.now ≡ expr e ++ cursor.new.rest.now) }
        ensures runs { (place : Place) (xs : List Symbol) → Runs result (stands.First place self.now.depth ∷ xs) (λ e. stands.After (state_of e) place self.now.depth ∷ xs) cursor.old.rest.now cursor.new.rest.now }
        ensures unsent { IfOk result (λ e. stands.is_sent (state_of e) ≡ false) }
        ensures stops { IfOk result (λ _. joint_of (kind_at cursor.new.rest.now) ≢ joints.Name) }
        ensures within { length cursor.new.rest.now ≤ length cursor.old.rest.now }
    {
        let mut found = self.primary(cursor)?;
        'each: while let Some(selector) = cursor.joined(Joint::Name) {
            let longer = unary_of(self.alloc, found, selector)?;
            found = longer;
        }
        Ok(found)
    }

    /// An operand of an operator.
    fn operand(&self, cursor: &mut Cursor<'_>) -> Result<Expr, ParseError>
        requires nests { Nests self.now.depth (F.pre self.now.reader) (F.post self.now.reader) }
        ensures reads { IfOk result (λ e. cursor.old.rest.now ≡ expr e ++ cursor.new.rest.now) }
        ensures runs { (xs : List Symbol) → Runs result (stands.First stands.Operand self.now.depth ∷ xs) (λ _. xs) cursor.old.rest.now cursor.new.rest.now }
        ensures stops { IfOk result (λ _. joint_of (kind_at cursor.new.rest.now) ≢ joints.Name) }
        ensures within { length cursor.new.rest.now ≤ length cursor.old.rest.now }
    {
        self.unary(cursor)
    }

    fn binary(&self, cursor: &mut Cursor<'_>) -> Result<Expr, ParseError>
        requires nests { Nests self.now.depth (F.pre self.now.reader) (F.post self.now.reader) }
        ensures reads { IfOk result (λ e. cursor.old.rest.now ≡ expr e ++ cursor.new.rest.now) }
        ensures runs { (place : Place) (xs : List Symbol) → place ≢ stands.Operand → Runs result (stands.First place self.now.depth ∷ xs) (λ e. stands.After (state_of e) place self.now.depth ∷ xs) cursor.old.rest.now cursor.new.rest.now }
        ensures unsent { IfOk result (λ e. stands.is_sent (state_of e) ≡ false) }
        ensures stops { IfOk result (λ _. (joint_of (kind_at cursor.new.rest.now) ≢ joints.Name) × (joint_of (kind_at cursor.new.rest.now) ≢ joints.Operator)) }
        ensures within { length cursor.new.rest.now ≤ length cursor.old.rest.now }
    {
        let mut found = self.unary(cursor)?;
        'each: while let Some(selector) = cursor.joined(Joint::Operator) {
            let argument = self.operand(cursor)?;
            let longer = binary_of(self.alloc, found, selector, argument)?;
            found = longer;
        }
        Ok(found)
    }

    /// An argument of a keyword.
    fn argument(&self, cursor: &mut Cursor<'_>) -> Result<Expr, ParseError>
        requires nests { Nests self.now.depth (F.pre self.now.reader) (F.post self.now.reader) }
        ensures reads { IfOk result (λ e. cursor.old.rest.now ≡ expr e ++ cursor.new.rest.now) }
        ensures runs { (xs : List Symbol) → Runs result (stands.First stands.Argument self.now.depth ∷ xs) (λ _. xs) cursor.old.rest.now cursor.new.rest.now }
        ensures within { length cursor.new.rest.now ≤ length cursor.old.rest.now }
    {
        self.binary(cursor)
    }

    /// Keywords with their arguments, up to what is no keyword.
    fn arguments(&self, cursor: &mut Cursor<'_>) -> Result<Parts, ParseError>
        requires nests { Nests self.now.depth (F.pre self.now.reader) (F.post self.now.reader) }
        ensures reads { IfOk result (λ ps. cursor.old.rest.now ≡ parts ps ++ cursor.new.rest.now) }
        ensures runs { (xs : List Symbol) → Runs result (stands.Keywords self.now.depth ∷ xs) (λ _. xs) cursor.old.rest.now cursor.new.rest.now }
        ensures within { length cursor.new.rest.now ≤ length cursor.old.rest.now }
    {
        let mut found = Parts::Start;
        'each: while let Some(keyword) = cursor.joined(Joint::Keyword) {
            let argument = self.argument(cursor)?;
            let longer = part_of(self.alloc, found, keyword, argument)?;
            found = longer;
        }
        Ok(found)
    }

    fn message(&self, cursor: &mut Cursor<'_>) -> Result<Expr, ParseError>
        requires nests { Nests self.now.depth (F.pre self.now.reader) (F.post self.now.reader) }
        ensures reads { IfOk result (λ e. cursor.old.rest.now ≡ expr e ++ cursor.new.rest.now) }
        ensures runs { (xs : List Symbol) → Runs result (stands.First stands.Whole self.now.depth ∷ xs) (λ e. stands.After (state_of e) stands.Whole self.now.depth ∷ xs) cursor.old.rest.now cursor.new.rest.now }
        ensures stops { IfOk result (λ e. EndsMessage (state_of e) (joint_of (kind_at cursor.new.rest.now))) }
        ensures within { length cursor.new.rest.now ≤ length cursor.old.rest.now }
    {
        let receiver = self.binary(cursor)?;
        match cursor.joint() {
            Joint::Keyword => {
                let given = self.arguments(cursor)?;
                let made = keyword_of(self.alloc, receiver, given)?;
                Ok(made)
            }
            _ => Ok(receiver),
        }
    }

    /// A unary message behind a semicolon, which was taken.
    fn other_name(
        &self,
        cursor: &mut Cursor<'_>,
        before: Others,
        semicolon: Token,
    ) -> Result<Others, ParseError>
        requires nests { Nests self.now.depth (F.pre self.now.reader) (F.post self.now.reader) }
        requires name { joint_of (kind_at cursor.old.rest.now) ≡ joints.Name }
        ensures reads { IfOk result (λ os. others before ++ semicolon ∷ cursor.old.rest.now ≡ others os ++ cursor.new.rest.now) }
        ensures runs { (xs : List Symbol) → Runs result (stands.Message self.now.depth ∷ xs) (λ _. xs) cursor.old.rest.now cursor.new.rest.now }
        ensures within { length cursor.new.rest.now ≤ length cursor.old.rest.now }
    {
        let selector = cursor.next();
        let made = other_unary(self.alloc, before, semicolon, selector)?;
        Ok(made)
    }

    /// Keywords behind a semicolon, which was taken.
    fn other_words(
        &self,
        cursor: &mut Cursor<'_>,
        before: Others,
        semicolon: Token,
    ) -> Result<Others, ParseError>
        requires nests { Nests self.now.depth (F.pre self.now.reader) (F.post self.now.reader) }
        requires keyword { joint_of (kind_at cursor.old.rest.now) ≡ joints.Keyword }
        ensures reads { IfOk result (λ os. others before ++ semicolon ∷ cursor.old.rest.now ≡ others os ++ cursor.new.rest.now) }
        ensures runs { (xs : List Symbol) → Runs result (stands.Message self.now.depth ∷ xs) (λ _. xs) cursor.old.rest.now cursor.new.rest.now }
        ensures within { length cursor.new.rest.now ≤ length cursor.old.rest.now }
    {
        let given = self.arguments(cursor)?;
        let made = other_keyword(self.alloc, before, semicolon, given)?;
        Ok(made)
    }

    /// A binary message behind a semicolon, which was taken.
    fn other_sign(
        &self,
        cursor: &mut Cursor<'_>,
        before: Others,
        semicolon: Token,
    ) -> Result<Others, ParseError>
        requires nests { Nests self.now.depth (F.pre self.now.reader) (F.post self.now.reader) }
        requires operator { joint_of (kind_at cursor.old.rest.now) ≡ joints.Operator }
        ensures reads { IfOk result (λ os. others before ++ semicolon ∷ cursor.old.rest.now ≡ others os ++ cursor.new.rest.now) }
        ensures runs { (xs : List Symbol) → Runs result (stands.Message self.now.depth ∷ xs) (λ _. xs) cursor.old.rest.now cursor.new.rest.now }
        ensures within { length cursor.new.rest.now ≤ length cursor.old.rest.now }
    {
        let selector = cursor.next();
        let argument = self.operand(cursor)?;
        let made = other_binary(self.alloc, before, semicolon, selector, argument)?;
        Ok(made)
    }

    /// A message behind a semicolon, which was taken.
    fn other(
        &self,
        cursor: &mut Cursor<'_>,
        before: Others,
        semicolon: Token,
    ) -> Result<Others, ParseError>
        requires nests { Nests self.now.depth (F.pre self.now.reader) (F.post self.now.reader) }
        ensures reads { IfOk result (λ os. others before ++ semicolon ∷ cursor.old.rest.now ≡ others os ++ cursor.new.rest.now) }
        ensures runs { (xs : List Symbol) → Runs result (stands.Message self.now.depth ∷ xs) (λ _. xs) cursor.old.rest.now cursor.new.rest.now }
        ensures within { length cursor.new.rest.now ≤ length cursor.old.rest.now }
    {
        match cursor.joint() {
            Joint::Name => self.other_name(cursor, before, semicolon),
            Joint::Keyword => self.other_words(cursor, before, semicolon),
            Joint::Operator => self.other_sign(cursor, before, semicolon),
            _ => Err(ParseError::Refused(Expected::Message)),
        }
    }

    fn cascaded(&self, cursor: &mut Cursor<'_>) -> Result<Others, ParseError>
        requires nests { Nests self.now.depth (F.pre self.now.reader) (F.post self.now.reader) }
        ensures reads { IfOk result (λ os. cursor.old.rest.now ≡ others os ++ cursor.new.rest.now) }
        ensures runs { (xs : List Symbol) → Runs result (stands.Others self.now.depth ∷ xs) (λ _. xs) cursor.old.rest.now cursor.new.rest.now }
        ensures stops { IfOk result (λ _. joint_of (kind_at cursor.new.rest.now) ≢ joints.Semicolon) }
        ensures within { length cursor.new.rest.now ≤ length cursor.old.rest.now }
    {
        let mut found = Others::Start;
        'each: while let Some(semicolon) = cursor.joined(Joint::Semicolon) {
            let longer = self.other(cursor, found, semicolon)?;
            found = longer;
        }
        Ok(found)
    }

    fn cascade(&self, cursor: &mut Cursor<'_>) -> Result<Expr, ParseError>
        requires nests { Nests self.now.depth (F.pre self.now.reader) (F.post self.now.reader) }
        ensures reads { IfOk result (λ e. cursor.old.rest.now ≡ expr e ++ cursor.new.rest.now) }
        ensures runs { (xs : List Symbol) → Runs result (stands.First stands.Whole self.now.depth ∷ xs) (λ e. stands.After (state_of e) stands.Whole self.now.depth ∷ xs) cursor.old.rest.now cursor.new.rest.now }
        ensures stops { IfOk result (λ e. EndsCascade (state_of e) (joint_of (kind_at cursor.new.rest.now))) }
        ensures within { length cursor.new.rest.now ≤ length cursor.old.rest.now }
    {
        let first = self.message(cursor)?;
        if !is_cascade(cursor.joint(), &first) {
            return Ok(first);
        }
        let more = self.cascaded(cursor)?;
        let made = cascade_of(self.alloc, first, more)?;
        Ok(made)
    }

    /// An assignment behind its name, which was taken.
    fn assignment(&self, cursor: &mut Cursor<'_>, name: Token) -> Result<Expr, ParseError>
        requires nests { Nests self.now.depth (F.pre self.now.reader) (F.post self.now.reader) }
        requires sign { joint_of (kind_at cursor.old.rest.now) ≡ joints.Assign }
        ensures reads { IfOk result (λ e. name ∷ cursor.old.rest.now ≡ expr e ++ cursor.new.rest.now) }
        ensures runs { (xs : List Symbol) → Runs result (stands.After stands.Named stands.Whole self.now.depth ∷ xs) (λ _. xs) cursor.old.rest.now cursor.new.rest.now }
        ensures within { length cursor.new.rest.now ≤ length cursor.old.rest.now }
    {
        if self.depth == 0 {
            return Err(ParseError::Refused(Expected::Shallower));
        }
        let sign = cursor.next();
        let value = self.nested(cursor)?;
        let made = assign_of(self.alloc, name, sign, value)?;
        Ok(made)
    }

    /// What a `:=` stands behind: an assignment, if that is a name.
    fn assigned(&self, cursor: &mut Cursor<'_>, target: Expr) -> Result<Expr, ParseError>
        requires nests { Nests self.now.depth (F.pre self.now.reader) (F.post self.now.reader) }
        requires sign { joint_of (kind_at cursor.old.rest.now) ≡ joints.Assign }
        ensures reads { IfOk result (λ e. expr target ++ cursor.old.rest.now ≡ expr e ++ cursor.new.rest.now) }
        ensures runs { (xs : List Symbol) → Runs result (stands.After (state_of target) stands.Whole self.now.depth ∷ xs) (λ _. xs) cursor.old.rest.now cursor.new.rest.now }
        ensures within { length cursor.new.rest.now ≤ length cursor.old.rest.now }
    {
        match name_in(&target) {
            Some(name) => self.assignment(cursor, name),
            None => Ok(target),
        }
    }

    pub(crate) fn whole(&self, cursor: &mut Cursor<'_>) -> Result<Expr, ParseError>
        requires nests { Nests self.now.depth (F.pre self.now.reader) (F.post self.now.reader) }
        ensures reads { IfOk result (λ e. cursor.old.rest.now ≡ expr e ++ cursor.new.rest.now) }
        ensures runs { (xs : List Symbol) → Runs result (stands.First stands.Whole self.now.depth ∷ xs) (λ _. xs) cursor.old.rest.now cursor.new.rest.now }
        ensures within { length cursor.new.rest.now ≤ length cursor.old.rest.now }
    {
        let first = self.cascade(cursor)?;
        match cursor.joint() {
            Joint::Assign => self.assigned(cursor, first),
            _ => Ok(first),
        }
    }
}
