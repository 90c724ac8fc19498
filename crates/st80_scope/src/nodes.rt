// Expressions, with the names in them resolved.
ghost use Rattle.st80_scope.specs.Calls.{Calls};

use crate::blocks::{
    Ending, Given, Jump, are_plain, given_in, jump_of, nodes_of, plain, steps_of, values_in,
};
use crate::complaint::{Reason, Stop, wrong};
use crate::literals::array_number;
use crate::scope::Scope;
use st80_parser::{Expr, Header, Last, Others, Pairs, Parts, Steps};
use st80_syntax::{Kind, Token};
use st80_tree::{Constant, Messages, Node, Statements};
use std::alloc::{AllocError, Global};

/// So deep expressions nest at most.
const MOST_NESTED: usize = 1000;

/// A message: its selector and its arguments.
#[derive(Drop)]
pub(crate) struct Sent {
    selector: u32,
    arguments: Vec<Node>,
}

/// What a message goes to.
#[derive(Drop)]
struct Target {
    to_super: bool,
    node: Node,
}

fn statements_with(alloc: Global, constant: Constant) -> Result<Statements, AllocError> {
    let node = Box::new(alloc, Node::Constant(constant))?;
    Ok(Statements::Value(node))
}

/// What is done where a test doesn't come to what a choice asks for: the block for that, nothing, or the other truth value.
fn rest_of(alloc: Global, jump: Jump, second: Statements) -> Result<Statements, AllocError> {
    match jump {
        Jump::Both(true) => statements_with(alloc, Constant::False),
        Jump::Both(false) => statements_with(alloc, Constant::True),
        Jump::One(_) | Jump::Two(_) | Jump::Loop(_) => Ok(second),
    }
}

/// What the test of a jump has to come to.
fn asked_by(jump: Jump) -> bool {
    match jump {
        Jump::One(on) | Jump::Two(on) | Jump::Both(on) | Jump::Loop(on) => on,
    }
}

fn choice_of(
    alloc: Global,
    jump: Jump,
    test: Node,
    first: Statements,
    second: Statements,
) -> Result<Node, AllocError> {
    let second = rest_of(alloc, jump, second)?;
    let test = Box::new(alloc, test)?;
    let first = Box::new(alloc, first)?;
    let second = Box::new(alloc, second)?;
    Ok(Node::Choice {
        on: asked_by(jump),
        test,
        first,
        second,
    })
}

/// Messages to what they go to.
fn cascade_of(
    alloc: Global,
    target: Target,
    before: Vec<Sent>,
    last: Sent,
) -> Result<Node, AllocError> {
    let messages = messages_of(alloc, before, last)?;
    let messages = Box::new(alloc, messages)?;
    let Target { to_super, node } = target;
    let receiver = Box::new(alloc, node)?;
    Ok(Node::Cascade {
        to_super,
        receiver,
        messages,
    })
}

/// A message to what it goes to.
fn send_of(alloc: Global, target: Target, sent: Sent) -> Result<Node, AllocError> {
    let Target { to_super, node } = target;
    let Sent {
        selector,
        arguments,
    } = sent;
    let receiver = Box::new(alloc, node)?;
    let arguments = nodes_of(alloc, arguments)?;
    let arguments = Box::new(alloc, arguments)?;
    Ok(Node::Send {
        to_super,
        receiver,
        selector,
        arguments,
    })
}

/// Messages in order, of which this one is the last.
fn messages_of(alloc: Global, mut before: Vec<Sent>, last: Sent) -> Result<Messages, AllocError> {
    let Sent {
        selector,
        arguments,
    } = last;
    let arguments = nodes_of(alloc, arguments)?;
    let arguments = Box::new(alloc, arguments)?;
    let mut list = Messages::Last {
        selector,
        arguments,
    };
    'each: while let Some(sent) = before.pop() {
        let Sent {
            selector,
            arguments,
        } = sent;
        let arguments = nodes_of(alloc, arguments)?;
        let arguments = Box::new(alloc, arguments)?;
        let rest = Box::new(alloc, list)?;
        list = Messages::Then {
            selector,
            arguments,
            rest,
        };
    }
    Ok(list)
}

/// The messages of a cascade behind its first, the last first.
fn others_in(alloc: Global, others: &Others) -> Result<Vec<&Others>, AllocError> {
    let mut found = Vec::new(alloc);
    let mut at = others;
    loop {
        match at {
            Others::Start => return Ok(found),
            Others::Unary(before, _, _) => {
                found.push(at)?;
                at = before;
            }
            Others::Binary(before, _, _, _) => {
                found.push(at)?;
                at = before;
            }
            Others::Keyword(before, _, _) => {
                found.push(at)?;
                at = before;
            }
        }
    }
}

/// The first of keywords, the last of which comes first.
fn first_word(given: &[Given<'_>], at: Token) -> Token {
    match given.last() {
        Some(first) => first.keyword,
        None => at,
    }
}

/// The names of pairs, the last first.
pub(crate) fn second_of_pairs(alloc: Global, pairs: &Pairs) -> Result<Vec<Token>, AllocError> {
    let mut found = Vec::new(alloc);
    let mut at = pairs;
    loop {
        match at {
            Pairs::Start => return Ok(found),
            Pairs::Pair(before, _, name) => {
                found.push(*name)?;
                at = before;
            }
        }
    }
}

impl<'a> Scope<'a> {
    /// The selector of keywords, the last of which comes first.
    fn words(&mut self, token: Token, given: &[Given<'_>]) -> Result<u32, Stop> {
        let mut name = Vec::new(self.alloc);
        for one in given.iter().rev() {
            name.extend_from_slice(self.spelled(one.keyword))?;
        }
        self.symbol_number(token, name.as_slice())
    }

    fn literal(&mut self, token: Token) -> Result<Node, Stop> {
        if token.kind == Kind::Integer {
            return self.integer(token, false);
        }
        Ok(Node::Literal(self.literal_number(token)?))
    }

    /// The arguments of a block become temporaries.
    fn declare_header(&mut self, header: &Header) -> Result<(), Stop> {
        let Header::Of(pairs, _) = header else {
            return Ok(());
        };
        let names = second_of_pairs(self.alloc, pairs)?;
        for name in names.iter().rev() {
            self.declare(*name)?;
        }
        Ok(())
    }

    /// Statements with their last value, if there is one.
    fn ended(
        &self,
        mut nodes: Vec<Node>,
        end: Option<Node>,
        ending: Ending,
    ) -> Result<Statements, AllocError> {
        let last = match (end, ending) {
            (None, _) => Statements::Done,
            (Some(node), Ending::Block) => Statements::Value(Box::new(self.alloc, node)?),
            (Some(node), Ending::Answer) => Statements::Return(Box::new(self.alloc, node)?),
            (Some(node), Ending::Method) => {
                nodes.push(node)?;
                Statements::Done
            }
        };
        steps_of(self.alloc, nodes, last)
    }
}

/// What reads the parts of an expression. The reader of expressions is a parameter, so that each rule is proved by itself.
#[derive(Clone, Copy)]
pub(crate) struct Reader<F> {
    /// How deep expressions may still nest.
    pub depth: usize,
    pub read: F,
}

impl<F: Fn(&mut Scope<'_>, &Expr, Token, usize) -> Result<Node, Stop>> Reader<F> {
    fn node(&self, scope: &mut Scope<'_>, expr: &Expr, at: Token) -> Result<Node, Stop>
        requires { Calls self.now.depth (F.pre self.now.read) }
    {
        (self.read)(scope, expr, at, self.depth)
    }

    /// An expression.
    fn whole(&self, scope: &mut Scope<'_>, expr: &Expr, at: Token) -> Result<Node, Stop>
        requires { Calls self.now.depth (F.pre self.now.read) }
    {
        match expr {
            Expr::Name(token) => scope.read(*token),
            Expr::Literal(token) => scope.literal(*token),
            Expr::Negative(_, token) => scope.integer(*token, true),
            Expr::Array(token, elements, _) => {
                Ok(Node::Literal(array_number(scope, *token, elements, self.depth)?))
            }
            Expr::Group(token, inner, _) => self.node(scope, inner, *token),
            Expr::Block(token, header, steps, last, _) => {
                self.block(scope, *token, header, steps, last)
            }
            Expr::Assign(token, _, value) => self.assignment(scope, *token, value),
            Expr::Unary(receiver, selector) => self.unary(scope, receiver, *selector),
            Expr::Binary(receiver, selector, argument) => {
                self.binary(scope, receiver, *selector, argument)
            }
            Expr::Keyword(receiver, parts) => self.keywords(scope, receiver, parts, at),
            Expr::Cascade(first, others) => self.cascade(scope, first, others, at),
        }
    }

    fn assignment(&self, scope: &mut Scope<'_>, token: Token, value: &Expr) -> Result<Node, Stop>
        requires { Calls self.now.depth (F.pre self.now.read) }
    {
        let variable = scope.target(token)?;
        let value = self.node(scope, value, token)?;
        Ok(Node::Assign(variable, Box::new(scope.alloc, value)?))
    }

    /// What a message goes to.
    fn receiver(&self, scope: &mut Scope<'_>, expr: &Expr, at: Token) -> Result<Target, Stop>
        requires { Calls self.now.depth (F.pre self.now.read) }
    {
        if let Expr::Name(token) = expr {
            if scope.is_super(*token) {
                return Ok(Target {
                    to_super: true,
                    node: Node::Constant(Constant::Receiver),
                });
            }
        }
        let node = self.node(scope, expr, at)?;
        Ok(Target {
            to_super: false,
            node,
        })
    }

    fn unary(&self, scope: &mut Scope<'_>, receiver: &Expr, token: Token) -> Result<Node, Stop>
        requires { Calls self.now.depth (F.pre self.now.read) }
    {
        let selector = scope.symbol_number(token, scope.spelled(token))?;
        if let (Some(Jump::Loop(on)), Some((steps, last))) = (jump_of(selector), plain(receiver)) {
            let test = self.statements(scope, steps, last, Ending::Block, token)?;
            let test = Box::new(scope.alloc, test)?;
            let body = Box::new(scope.alloc, Statements::Done)?;
            return Ok(Node::Loop { on, test, body });
        }
        scope.sends(selector, token)?;
        let target = self.receiver(scope, receiver, token)?;
        let arguments = Vec::new(scope.alloc);
        Ok(send_of(
            scope.alloc,
            target,
            Sent {
                selector,
                arguments,
            },
        )?)
    }

    fn binary(
        &self,
        scope: &mut Scope<'_>,
        receiver: &Expr,
        token: Token,
        argument: &Expr,
    ) -> Result<Node, Stop>
        requires { Calls self.now.depth (F.pre self.now.read) }
    {
        let selector = scope.symbol_number(token, scope.spelled(token))?;
        scope.sends(selector, token)?;
        let target = self.receiver(scope, receiver, token)?;
        let mut arguments = Vec::new(scope.alloc);
        arguments.push(self.node(scope, argument, token)?)?;
        Ok(send_of(
            scope.alloc,
            target,
            Sent {
                selector,
                arguments,
            },
        )?)
    }

    /// The arguments of keywords, the last of which comes first.
    fn arguments(&self, scope: &mut Scope<'_>, given: &[Given<'_>]) -> Result<Vec<Node>, Stop>
        requires { Calls self.now.depth (F.pre self.now.read) }
    {
        let mut nodes = Vec::new(scope.alloc);
        'each: for one in given.iter().rev() {
            nodes.push(self.node(scope, one.argument, one.keyword)?)?;
        }
        Ok(nodes)
    }

    /// The statements of a block without arguments.
    fn inlined(&self, scope: &mut Scope<'_>, expr: &Expr, at: Token) -> Result<Statements, Stop>
        requires { Calls self.now.depth (F.pre self.now.read) }
    {
        match plain(expr) {
            Some((steps, last)) => self.statements(scope, steps, last, Ending::Block, at),
            None => Ok(Statements::Done),
        }
    }

    /// A loop: receiver and argument are blocks without arguments.
    fn looping(
        &self,
        scope: &mut Scope<'_>,
        receiver: &Expr,
        argument: &Expr,
        on: bool,
        at: Token,
    ) -> Result<Node, Stop>
        requires { Calls self.now.depth (F.pre self.now.read) }
    {
        let test = self.inlined(scope, receiver, at)?;
        let body = self.inlined(scope, argument, at)?;
        let test = Box::new(scope.alloc, test)?;
        let body = Box::new(scope.alloc, body)?;
        Ok(Node::Loop { on, test, body })
    }

    /// A choice: the arguments, the last of which comes first, are blocks without arguments.
    fn choice(
        &self,
        scope: &mut Scope<'_>,
        receiver: &Expr,
        given: &[Given<'_>],
        jump: Jump,
        at: Token,
    ) -> Result<Node, Stop>
        requires { Calls self.now.depth (F.pre self.now.read) }
    {
        let test = self.node(scope, receiver, at)?;
        let (first, second) = self.branches(scope, given, at)?;
        Ok(choice_of(scope.alloc, jump, test, first, second)?)
    }

    /// The statements of the arguments of a choice, of which there are one or two.
    fn branches(
        &self,
        scope: &mut Scope<'_>,
        given: &[Given<'_>],
        at: Token,
    ) -> Result<(Statements, Statements), Stop>
        requires { Calls self.now.depth (F.pre self.now.read) }
    {
        match given {
            [second, first] => {
                let first = self.inlined(scope, first.argument, at)?;
                let second = self.inlined(scope, second.argument, at)?;
                Ok((first, second))
            }
            [only, ..] => Ok((self.inlined(scope, only.argument, at)?, Statements::Done)),
            [] => Ok((Statements::Done, Statements::Done)),
        }
    }

    fn keywords(
        &self,
        scope: &mut Scope<'_>,
        receiver: &Expr,
        parts: &Parts,
        at: Token,
    ) -> Result<Node, Stop>
        requires { Calls self.now.depth (F.pre self.now.read) }
    {
        let given = given_in(scope.alloc, parts)?;
        let token = first_word(given.as_slice(), at);
        let selector = scope.words(token, given.as_slice())?;
        match (jump_of(selector), given.as_slice()) {
            (Some(Jump::Loop(on)), [one]) => {
                if plain(receiver).is_some() && plain(one.argument).is_some() {
                    return self.looping(scope, receiver, one.argument, on, token);
                }
            }
            (Some(jump), all) => {
                if are_plain(all) {
                    return self.choice(scope, receiver, all, jump, token);
                }
            }
            (None, _) => {}
        }
        scope.sends(selector, token)?;
        let target = self.receiver(scope, receiver, token)?;
        let arguments = self.arguments(scope, given.as_slice())?;
        Ok(send_of(
            scope.alloc,
            target,
            Sent {
                selector,
                arguments,
            },
        )?)
    }

    /// A message by its keywords.
    fn sent_words(&self, scope: &mut Scope<'_>, parts: &Parts, at: Token) -> Result<Sent, Stop>
        requires { Calls self.now.depth (F.pre self.now.read) }
    {
        let given = given_in(scope.alloc, parts)?;
        let token = first_word(given.as_slice(), at);
        let selector = scope.words(token, given.as_slice())?;
        scope.sends(selector, token)?;
        let arguments = self.arguments(scope, given.as_slice())?;
        Ok(Sent {
            selector,
            arguments,
        })
    }

    /// A message with at most one argument.
    fn sent_sign(
        &self,
        scope: &mut Scope<'_>,
        token: Token,
        argument: Option<&Expr>,
    ) -> Result<Sent, Stop>
        requires { Calls self.now.depth (F.pre self.now.read) }
    {
        let selector = scope.symbol_number(token, scope.spelled(token))?;
        scope.sends(selector, token)?;
        let mut arguments = Vec::new(scope.alloc);
        if let Some(argument) = argument {
            arguments.push(self.node(scope, argument, token)?)?;
        }
        Ok(Sent {
            selector,
            arguments,
        })
    }

    /// A message of a cascade behind its first.
    fn sent(&self, scope: &mut Scope<'_>, other: &Others, at: Token) -> Result<Sent, Stop>
        requires { Calls self.now.depth (F.pre self.now.read) }
    {
        match other {
            Others::Unary(_, _, token) => self.sent_sign(scope, *token, None),
            Others::Binary(_, _, token, argument) => {
                self.sent_sign(scope, *token, Some(argument))
            }
            Others::Keyword(_, token, parts) => self.sent_words(scope, parts, *token),
            Others::Start => Err(wrong(at, Reason::Message)),
        }
    }

    /// The first message of a cascade, with what it goes to.
    fn opened(&self, scope: &mut Scope<'_>, first: &Expr, at: Token) -> Result<(Target, Sent), Stop>
        requires { Calls self.now.depth (F.pre self.now.read) }
    {
        match first {
            Expr::Unary(receiver, token) => {
                let target = self.receiver(scope, receiver, *token)?;
                let sent = self.sent_sign(scope, *token, None)?;
                Ok((target, sent))
            }
            Expr::Binary(receiver, token, argument) => {
                let target = self.receiver(scope, receiver, *token)?;
                let sent = self.sent_sign(scope, *token, Some(argument))?;
                Ok((target, sent))
            }
            Expr::Keyword(receiver, parts) => {
                let target = self.receiver(scope, receiver, at)?;
                let sent = self.sent_words(scope, parts, at)?;
                Ok((target, sent))
            }
            _ => Err(wrong(at, Reason::Message)),
        }
    }

    fn cascade(
        &self,
        scope: &mut Scope<'_>,
        first: &Expr,
        others: &Others,
        at: Token,
    ) -> Result<Node, Stop>
        requires { Calls self.now.depth (F.pre self.now.read) }
    {
        let (target, sent) = self.opened(scope, first, at)?;
        let mut before = Vec::new(scope.alloc);
        let mut last = sent;
        let found = others_in(scope.alloc, others)?;
        'each: for other in found.iter().rev() {
            let next = self.sent(scope, other, at)?;
            before.push(std::mem::replace(&mut last, next))?;
        }
        Ok(cascade_of(scope.alloc, target, before, last)?)
    }

    fn block(
        &self,
        scope: &mut Scope<'_>,
        token: Token,
        header: &Header,
        steps: &Steps,
        last: &Last,
    ) -> Result<Node, Stop>
        requires { Calls self.now.depth (F.pre self.now.read) }
    {
        let first = scope.names.len();
        scope.declare_header(header)?;
        let behind = scope.names.len();
        let body = self.statements(scope, steps, last, Ending::Block, token)?;
        scope.close(first);
        let body = Box::new(scope.alloc, body)?;
        match (
            u8::try_from(first),
            u8::try_from(behind.saturating_sub(first)),
        ) {
            (Ok(first), Ok(count)) => Ok(Node::Block { first, count, body }),
            _ => Err(wrong(token, Reason::Temporaries)),
        }
    }

    /// The nodes of statements, in order.
    fn stepped(&self, scope: &mut Scope<'_>, steps: &Steps, at: Token) -> Result<Vec<Node>, Stop>
        requires { Calls self.now.depth (F.pre self.now.read) }
    {
        let values = values_in(scope.alloc, steps)?;
        let mut nodes = Vec::new(scope.alloc);
        'each: for value in values.iter().rev() {
            nodes.push(self.node(scope, value, at)?)?;
        }
        Ok(nodes)
    }

    fn statements(
        &self,
        scope: &mut Scope<'_>,
        steps: &Steps,
        last: &Last,
        ending: Ending,
        at: Token,
    ) -> Result<Statements, Stop>
        requires { Calls self.now.depth (F.pre self.now.read) }
    {
        let mut nodes = self.stepped(scope, steps, at)?;
        let end = match last {
            Last::Return(_, value) | Last::Closed(_, value, _) => {
                let node = self.node(scope, value, at)?;
                return Ok(steps_of(
                    scope.alloc,
                    nodes,
                    Statements::Return(Box::new(scope.alloc, node)?),
                )?);
            }
            Last::Value(value) => Some(self.node(scope, value, at)?),
            Last::Nothing if ending == Ending::Method => None,
            Last::Nothing => nodes.pop(),
        };
        Ok(scope.ended(nodes, end, ending)?)
    }
}

/// An expression, up to a depth.
fn node(scope: &mut Scope<'_>, expr: &Expr, at: Token, depth: usize) -> Result<Node, Stop> {
    if depth == 0 {
        return Err(wrong(at, Reason::Deep));
    }
    Reader {
        depth: depth - 1,
        read: node,
    }
    .whole(scope, expr, at)
}

/// Statements.
pub(crate) fn statements(
    scope: &mut Scope<'_>,
    steps: &Steps,
    last: &Last,
    ending: Ending,
    at: Token,
) -> Result<Statements, Stop> {
    Reader {
        depth: MOST_NESTED,
        read: node,
    }
    .statements(scope, steps, last, ending, at)
}
