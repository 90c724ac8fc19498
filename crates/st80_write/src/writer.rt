// Trees as source.
use crate::blocks::{Arguments, is_argument};
use crate::given::{literal_name, literal_of};
use crate::literals::{is_spelled, put_literal, put_text};
use crate::stop::Stop;
use long_names::Values;
use st80_tree::{Constant, Messages, Node, Nodes, Statements, Variable, name_of};
use st80_view::View;

/// How tightly an expression holds together.
#[derive(Clone, Copy)]
pub(crate) enum Hold {
    Primary,
    Unary,
    Binary,
    Keyword,
    Any,
}

/// The tightest first.
fn rank(hold: Hold) -> u8 {
    match hold {
        Hold::Primary => 0,
        Hold::Unary => 1,
        Hold::Binary => 2,
        Hold::Keyword => 3,
        Hold::Any => 4,
    }
}

fn is_unary(text: &[u8]) -> bool {
    matches!(message_hold(text), Hold::Unary)
}

/// What names stand for.
#[derive(Clone, Copy)]
pub(crate) struct Names<'v> {
    pub(crate) view: &'v View,
    pub(crate) literals: &'v Values,
}

fn constant_word(constant: Constant) -> &'static str {
    match constant {
        Constant::Receiver => "self",
        Constant::True => "true",
        Constant::False => "false",
        Constant::Nil => "nil",
        Constant::MinusOne => "-1",
        Constant::Zero => "0",
        Constant::One => "1",
        Constant::Two => "2",
    }
}

fn is_constant(statements: &Statements, wanted: Constant) -> bool {
    match statements {
        Statements::Value(node) => match &**node {
            Node::Constant(constant) => *constant == wanted,
            _ => false,
        },
        _ => false,
    }
}

fn is_done(statements: &Statements) -> bool {
    matches!(statements, Statements::Done)
}

/// Whether statements are one or none, which stand on one line.
fn is_short(statements: &Statements) -> bool {
    match statements {
        Statements::Done | Statements::Value(_) | Statements::Return(_) => true,
        Statements::Step(_, rest) => is_done(rest),
    }
}

/// A line, so many tabs in.
pub(crate) fn put_line(out: &mut String, tabs: usize) -> Result<(), Stop> {
    out.push('\n')?;
    for _ in 0..tabs {
        out.push('\t')?;
    }
    Ok(())
}

pub(crate) fn put_temporary(out: &mut String, n: u8) -> Result<(), Stop> {
    let number = u16::from(n) + 1;
    Ok(write!(out, "t{number}")?)
}

/// The words of a selector for one argument after the other.
pub(crate) fn is_keyword(text: &[u8]) -> bool {
    text.contains(&b':') && text.first().copied().unwrap_or(0).is_ascii_alphabetic()
}

/// The next word of a selector with keywords, its colon included, and what stands behind it.
pub(crate) fn next_word(text: &[u8]) -> (&[u8], &[u8]) {
    match text.iter().position(|b| *b == b':') {
        Some(i) => text.split_at(i.saturating_add(1).min(text.len())),
        None => text.split_at(text.len()),
    }
}

fn message_hold(text: &[u8]) -> Hold {
    if is_keyword(text) {
        return Hold::Keyword;
    }
    match text.first() {
        Some(first) if first.is_ascii_alphabetic() => Hold::Unary,
        _ => Hold::Binary,
    }
}

/// What a receiver may be of a message that holds so.
fn receiver_hold(hold: Hold) -> Hold {
    match hold {
        Hold::Unary => Hold::Unary,
        _ => Hold::Binary,
    }
}

impl<'v> Names<'v> {
    /// The text of a selector.
    fn selector(&self, number: u32) -> Result<&[u8], Stop> {
        if let Some(word) = name_of(number) {
            return Ok(word.as_bytes());
        }
        let name = literal_name(self.literals, number).ok_or(Stop::NoSource)?;
        let text = self.view.selector_text(name).ok_or(Stop::NoSource)?;
        if is_spelled(text) {
            Ok(text)
        } else {
            Err(Stop::NoSource)
        }
    }

    fn put_shared(&self, out: &mut String, number: u32) -> Result<(), Stop> {
        let association = literal_name(self.literals, number).ok_or(Stop::NoSource)?;
        let key = self
            .view
            .image()
            .name_in(association, 0)
            .ok_or(Stop::NoSource)?;
        let text = self.view.selector_text(key).ok_or(Stop::NoSource)?;
        if !is_spelled(text) || !is_unary(text) {
            return Err(Stop::NoSource);
        }
        put_text(out, text)
    }

    fn put_variable(&self, out: &mut String, variable: Variable) -> Result<(), Stop> {
        match variable {
            Variable::Temporary(n) => put_temporary(out, n),
            Variable::Instance(n) => {
                let number = u16::from(n) + 1;
                Ok(write!(out, "field{number}")?)
            }
            Variable::Shared(number) => self.put_shared(out, number),
        }
    }

    fn put_number(&self, out: &mut String, number: u32) -> Result<(), Stop> {
        match literal_of(self.literals, number) {
            Some(value) => put_literal(out, self.view, value),
            None => Err(Stop::NoSource),
        }
    }

    fn hold(&self, node: &Node) -> Result<Hold, Stop> {
        match node {
            Node::Constant(_) | Node::Context | Node::Literal(_) => Ok(Hold::Primary),
            Node::Variable(_) | Node::Block { .. } => Ok(Hold::Primary),
            Node::Send { selector, .. } => Ok(message_hold(self.selector(*selector)?)),
            Node::Loop {
                on: _,
                test: _,
                body,
            } if is_done(body) => Ok(Hold::Unary),
            Node::Choice { .. } | Node::Loop { .. } => Ok(Hold::Keyword),
            Node::Assign(_, _) | Node::Cascade { .. } => Ok(Hold::Any),
        }
    }

    /// Opens a bracket before an expression that doesn't hold together enough, and says whether it did.
    fn open(&self, out: &mut String, node: &Node, most: Hold) -> Result<bool, Stop> {
        let is_open = rank(self.hold(node)?) > rank(most);
        if is_open {
            out.push('(')?;
        }
        Ok(is_open)
    }

    /// Puts an expression, whose value is wanted or isn't.
    #[cycle(write)]
    fn put_node(
        &self,
        out: &mut String,
        node: &Node,
        wanted: bool,
        tabs: usize,
        depth: usize,
    ) -> Result<(), Stop> {
        if depth == 0 {
            return Err(Stop::NoSource);
        }
        let depth = depth - 1;
        match node {
            Node::Constant(constant) => Ok(out.push_str(constant_word(*constant))?),
            Node::Context => Ok(out.push_str("thisContext")?),
            Node::Literal(number) => self.put_number(out, *number),
            Node::Variable(variable) => self.put_variable(out, *variable),
            Node::Assign(variable, value) => {
                self.put_variable(out, *variable)?;
                out.push_str(" := ")?;
                self.put_node(out, value, true, tabs, depth)
            }
            Node::Send {
                to_super,
                receiver,
                selector,
                arguments,
            } => {
                let text = self.selector(*selector)?;
                self.put_receiver(out, *to_super, receiver, message_hold(text), tabs, depth)?;
                self.put_message(out, text, arguments, tabs, depth)
            }
            Node::Cascade {
                to_super,
                receiver,
                messages,
            } => {
                let hold = message_hold(self.selector(first_selector(messages))?);
                self.put_receiver(out, *to_super, receiver, hold, tabs, depth)?;
                self.put_messages(out, messages, tabs, depth)
            }
            Node::Block { first, count, body } => {
                let within = open_block(out, *first, *count, body, tabs)?;
                self.put_statements(out, body, true, within, depth)?;
                Ok(out.push(']')?)
            }
            Node::Choice {
                on,
                test,
                first,
                second,
            } => {
                let is_open = self.open(out, test, Hold::Binary)?;
                self.put_node(out, test, true, tabs, depth)?;
                close(out, is_open)?;
                self.put_parts(out, *on, first, second, wanted, tabs, depth)
            }
            Node::Loop { on, test, body } => self.put_loop(out, *on, test, body, tabs, depth),
        }
    }

    #[cycle(write)]
    fn put_receiver(
        &self,
        out: &mut String,
        to_super: bool,
        receiver: &Node,
        hold: Hold,
        tabs: usize,
        depth: usize,
    ) -> Result<(), Stop> {
        if depth == 0 {
            return Err(Stop::NoSource);
        }
        let depth = depth - 1;
        if to_super {
            return put_super(out, receiver);
        }
        let is_open = self.open(out, receiver, receiver_hold(hold))?;
        self.put_node(out, receiver, true, tabs, depth)?;
        close(out, is_open)
    }

    /// Puts a selector with its arguments.
    #[cycle(write)]
    fn put_message(
        &self,
        out: &mut String,
        text: &[u8],
        arguments: &Nodes,
        tabs: usize,
        depth: usize,
    ) -> Result<(), Stop> {
        if depth == 0 {
            return Err(Stop::NoSource);
        }
        let depth = depth - 1;
        out.push(' ')?;
        match arguments {
            Nodes::End => {
                if !is_unary(text) {
                    return Err(Stop::NoSource);
                }
                put_text(out, text)
            }
            Nodes::More(node, rest) => {
                let (word, behind) = next_word(text);
                put_text(out, word)?;
                out.push(' ')?;
                let is_open = self.open(out, node, argument_hold(text)?)?;
                self.put_node(out, node, true, tabs, depth)?;
                close(out, is_open)?;
                if behind.is_empty() {
                    return Ok(());
                }
                self.put_message(out, behind, rest, tabs, depth)
            }
        }
    }

    #[cycle(write)]
    fn put_messages(
        &self,
        out: &mut String,
        messages: &Messages,
        tabs: usize,
        depth: usize,
    ) -> Result<(), Stop> {
        if depth == 0 {
            return Err(Stop::NoSource);
        }
        let depth = depth - 1;
        match messages {
            Messages::Last {
                selector,
                arguments,
            } => {
                let text = self.selector(*selector)?;
                self.put_message(out, text, arguments, tabs, depth)
            }
            Messages::Then {
                selector,
                arguments,
                rest,
            } => {
                let text = self.selector(*selector)?;
                self.put_message(out, text, arguments, tabs, depth)?;
                out.push(';')?;
                self.put_messages(out, rest, tabs, depth)
            }
        }
    }

    /// Puts both parts of a choice, behind its test.
    #[cycle(write)]
    fn put_parts(
        &self,
        out: &mut String,
        on: bool,
        first: &Statements,
        second: &Statements,
        wanted: bool,
        tabs: usize,
        depth: usize,
    ) -> Result<(), Stop> {
        if depth == 0 {
            return Err(Stop::NoSource);
        }
        let depth = depth - 1;
        let is_both = is_constant(second, if on { Constant::False } else { Constant::True });
        out.push_str(first_word(on, is_both))?;
        let within = open_block(out, 0, 0, first, tabs)?;
        self.put_statements(out, first, wanted, within, depth)?;
        out.push(']')?;
        if is_both || is_done(second) {
            return Ok(());
        }
        out.push_str(first_word(!on, false))?;
        let within = open_block(out, 0, 0, second, tabs)?;
        self.put_statements(out, second, wanted, within, depth)?;
        Ok(out.push(']')?)
    }

    #[cycle(write)]
    fn put_loop(
        &self,
        out: &mut String,
        on: bool,
        test: &Statements,
        body: &Statements,
        tabs: usize,
        depth: usize,
    ) -> Result<(), Stop> {
        if depth == 0 {
            return Err(Stop::NoSource);
        }
        let depth = depth - 1;
        let within = open_block(out, 0, 0, test, tabs)?;
        self.put_statements(out, test, true, within, depth)?;
        out.push_str(if on { "] whileTrue" } else { "] whileFalse" })?;
        if is_done(body) {
            return Ok(());
        }
        out.push_str(": ")?;
        let within = open_block(out, 0, 0, body, tabs)?;
        self.put_statements(out, body, false, within, depth)?;
        Ok(out.push(']')?)
    }

    /// Puts statements, one a line.
    #[cycle(write)]
    pub(crate) fn put_statements(
        &self,
        out: &mut String,
        statements: &Statements,
        wanted: bool,
        tabs: usize,
        depth: usize,
    ) -> Result<(), Stop> {
        if depth == 0 {
            return Err(Stop::NoSource);
        }
        let depth = depth - 1;
        match statements {
            Statements::Done => Ok(()),
            Statements::Value(node) => self.put_node(out, node, wanted, tabs, depth),
            Statements::Return(node) => {
                out.push('^')?;
                self.put_node(out, node, true, tabs, depth)
            }
            Statements::Step(node, rest) => {
                self.put_node(out, node, false, tabs, depth)?;
                if !is_done(rest) {
                    out.push('.')?;
                    put_line(out, tabs)?;
                    return self.put_statements(out, rest, wanted, tabs, depth);
                }
                if wanted {
                    out.push_str(". nil")?;
                }
                Ok(())
            }
        }
    }
}

fn close(out: &mut String, is_open: bool) -> Result<(), Stop> {
    if is_open {
        out.push(')')?;
    }
    Ok(())
}

fn put_super(out: &mut String, receiver: &Node) -> Result<(), Stop> {
    match receiver {
        Node::Constant(Constant::Receiver) => Ok(out.push_str("super")?),
        _ => Err(Stop::NoSource),
    }
}

/// What an argument may be.
fn argument_hold(text: &[u8]) -> Result<Hold, Stop> {
    match message_hold(text) {
        Hold::Binary => Ok(Hold::Unary),
        Hold::Keyword => Ok(Hold::Binary),
        _ => Err(Stop::NoSource),
    }
}

/// The word before the block for this truth value; where that answers the other one otherwise, it has a word of its own.
fn first_word(on: bool, is_both: bool) -> &'static str {
    match (on, is_both) {
        (true, true) => " and: ",
        (false, true) => " or: ",
        (true, false) => " ifTrue: ",
        (false, false) => " ifFalse: ",
    }
}

/// Opens a block with so many arguments, and says how far its statements are set in.
fn open_block(
    out: &mut String,
    first: u8,
    count: u8,
    body: &Statements,
    tabs: usize,
) -> Result<usize, Stop> {
    out.push('[')?;
    for i in 0..count {
        out.push(':')?;
        put_temporary(out, first.saturating_add(i))?;
        out.push(' ')?;
    }
    if count > 0 {
        out.push('|')?;
        if is_short(body) && !is_done(body) {
            out.push(' ')?;
        }
    }
    let within = tabs.saturating_add(1);
    if !is_short(body) {
        put_line(out, within)?;
    }
    Ok(within)
}

fn first_selector(messages: &Messages) -> u32 {
    match messages {
        Messages::Last { selector, .. } | Messages::Then { selector, .. } => *selector,
    }
}

/// Puts the temporaries that are declared: all but arguments.
pub(crate) fn put_declared(
    out: &mut String,
    arguments: u8,
    temporaries: u8,
    blocks: &[Arguments],
) -> Result<(), Stop> {
    let mut some = false;
    for n in arguments..temporaries {
        if !is_argument(blocks, n) {
            if !some {
                put_line(out, 1)?;
                out.push('|')?;
                some = true;
            }
            out.push(' ')?;
            put_temporary(out, n)?;
        }
    }
    if some {
        out.push_str(" |")?;
    }
    Ok(())
}
