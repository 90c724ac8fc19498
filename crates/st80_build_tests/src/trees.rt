// Trees out of words: what is inside comes first.
use anyhow::{Context, bail};
use st80_tree::{Constant, Messages, Node, Nodes, Statements, Variable};
use std::alloc::{AllocError, Global};

/// What the words so far spell, but for what went into something else.
#[derive(Drop)]
pub(crate) struct Trees {
    nodes: Vec<Node>,
    bodies: Vec<Statements>,
}

fn boxed<T: Drop>(alloc: Global, value: T) -> Result<Box<T>, AllocError> {
    Ok(Box::new(alloc, value)?)
}

/// The two numbers of a word, as `9/1`.
fn pair_of(word: &str) -> anyhow::Result<(u32, u8)> {
    let (first, second) = word.split_once('/').context("two numbers")?;
    Ok((
        first.parse::<u32>().context("a number")?,
        second.parse::<u8>().context("a byte")?,
    ))
}

fn variable_of(word: &str) -> anyhow::Result<Variable> {
    if let Some(number) = word.strip_prefix('t') {
        return Ok(Variable::Temporary(number.parse::<u8>().context("a temporary")?));
    }
    if let Some(number) = word.strip_prefix('i') {
        return Ok(Variable::Instance(number.parse::<u8>().context("a field")?));
    }
    let number = word.strip_prefix('g').context("a variable")?;
    Ok(Variable::Shared(number.parse::<u32>().context("a shared variable")?))
}

fn constant_of(word: &str) -> Option<Constant> {
    match word {
        "self" => Some(Constant::Receiver),
        "true" => Some(Constant::True),
        "false" => Some(Constant::False),
        "nil" => Some(Constant::Nil),
        "-1" => Some(Constant::MinusOne),
        "0" => Some(Constant::Zero),
        "1" => Some(Constant::One),
        "2" => Some(Constant::Two),
        _ => None,
    }
}

impl Trees {
    pub(crate) fn new(alloc: Global) -> Trees {
        Trees {
            nodes: Vec::new(alloc),
            bodies: Vec::new(alloc),
        }
    }

    fn put(&mut self, node: Node) -> Result<(), AllocError> {
        self.nodes.push(node)?;
        Ok(())
    }

    fn put_body(&mut self, body: Statements) -> Result<(), AllocError> {
        self.bodies.push(body)?;
        Ok(())
    }

    fn node(&mut self, alloc: Global) -> anyhow::Result<Box<Node>> {
        let node = self.nodes.pop().context("an expression")?;
        Ok(boxed(alloc, node)?)
    }

    fn body(&mut self, alloc: Global) -> anyhow::Result<Box<Statements>> {
        let body = self.bodies.pop().context("statements")?;
        Ok(boxed(alloc, body)?)
    }

    /// The last expressions, as many as a message has arguments.
    fn arguments(&mut self, alloc: Global, count: u8) -> anyhow::Result<Box<Nodes>> {
        let mut list = boxed(alloc, Nodes::End)?;
        for _ in 0..count {
            let node = self.node(alloc)?;
            list = boxed(alloc, Nodes::More(node, list))?;
        }
        Ok(list)
    }

    fn send(&mut self, alloc: Global, to_super: bool, word: &str) -> anyhow::Result<()> {
        let (selector, count) = pair_of(word)?;
        let arguments = self.arguments(alloc, count)?;
        let receiver = self.node(alloc)?;
        self.put(Node::Send {
            to_super,
            receiver,
            selector,
            arguments,
        })?;
        Ok(())
    }

    /// The messages of a cascade, the last one's arguments last.
    fn cascade(&mut self, alloc: Global, to_super: bool, word: &str) -> anyhow::Result<()> {
        let words = word.split(',').collect::<Vec<&str>>(alloc)?;
        let (last, before) = words.split_last().context("a message")?;
        let (selector, count) = pair_of(last)?;
        let arguments = self.arguments(alloc, count)?;
        let mut messages = boxed(
            alloc,
            Messages::Last {
                selector,
                arguments,
            },
        )?;
        for word in before.iter().rev() {
            let (selector, count) = pair_of(word)?;
            let arguments = self.arguments(alloc, count)?;
            messages = boxed(
                alloc,
                Messages::Then {
                    selector,
                    arguments,
                    rest: messages,
                },
            )?;
        }
        let receiver = self.node(alloc)?;
        self.put(Node::Cascade {
            to_super,
            receiver,
            messages,
        })?;
        Ok(())
    }

    fn block(&mut self, alloc: Global, word: &str) -> anyhow::Result<()> {
        let (first, second) = word.split_once('/').context("two numbers")?;
        let first = first.parse::<u8>().context("a temporary")?;
        let count = second.parse::<u8>().context("a number")?;
        let body = self.body(alloc)?;
        self.put(Node::Block { first, count, body })?;
        Ok(())
    }

    fn choice(&mut self, alloc: Global, on: bool) -> anyhow::Result<()> {
        let second = self.body(alloc)?;
        let first = self.body(alloc)?;
        let test = self.node(alloc)?;
        self.put(Node::Choice {
            on,
            test,
            first,
            second,
        })?;
        Ok(())
    }

    fn looped(&mut self, alloc: Global, on: bool) -> anyhow::Result<()> {
        let body = self.body(alloc)?;
        let test = self.body(alloc)?;
        self.put(Node::Loop { on, test, body })?;
        Ok(())
    }

    /// A word of statements, if it is one.
    fn statement(&mut self, alloc: Global, word: &str) -> anyhow::Result<bool> {
        let body = match word {
            "done" => Statements::Done,
            "value" => Statements::Value(self.node(alloc)?),
            "^" => Statements::Return(self.node(alloc)?),
            "." => {
                let rest = self.body(alloc)?;
                Statements::Step(self.node(alloc)?, rest)
            }
            _ => return Ok(false),
        };
        self.put_body(body)?;
        Ok(true)
    }

    /// A word that begins with what it is.
    fn prefixed(&mut self, alloc: Global, word: &str) -> anyhow::Result<()> {
        if let Some(rest) = word.strip_prefix('=') {
            let value = self.node(alloc)?;
            self.put(Node::Assign(variable_of(rest)?, value))?;
            return Ok(());
        }
        if let Some(number) = word.strip_prefix('l') {
            self.put(Node::Literal(number.parse::<u32>().context("a literal")?))?;
            return Ok(());
        }
        if let Some(rest) = word.strip_prefix('b') {
            return self.block(alloc, rest);
        }
        self.put(Node::Variable(variable_of(word)?))?;
        Ok(())
    }

    /// A word of messages, if it is one.
    fn messages(&mut self, alloc: Global, word: &str) -> anyhow::Result<bool> {
        if let Some(rest) = word.strip_prefix('s') {
            self.send(alloc, false, rest)?;
        } else if let Some(rest) = word.strip_prefix('S') {
            self.send(alloc, true, rest)?;
        } else if let Some(rest) = word.strip_prefix('c') {
            self.cascade(alloc, false, rest)?;
        } else if let Some(rest) = word.strip_prefix('C') {
            self.cascade(alloc, true, rest)?;
        } else {
            return Ok(false);
        }
        Ok(true)
    }

    /// One word more.
    pub(crate) fn read(&mut self, alloc: Global, word: &str) -> anyhow::Result<()> {
        if let Some(constant) = constant_of(word) {
            self.put(Node::Constant(constant))?;
            return Ok(());
        }
        match word {
            "context" => self.put(Node::Context)?,
            "?t" => return self.choice(alloc, true),
            "?f" => return self.choice(alloc, false),
            "*t" => return self.looped(alloc, true),
            "*f" => return self.looped(alloc, false),
            _ => {
                if !self.statement(alloc, word)? && !self.messages(alloc, word)? {
                    return self.prefixed(alloc, word);
                }
            }
        }
        Ok(())
    }

    /// The statements that all words spell.
    pub(crate) fn whole(mut self, alloc: Global) -> anyhow::Result<Box<Statements>> {
        let body = self.body(alloc)?;
        if !self.nodes.is_empty() || !self.bodies.is_empty() {
            bail!("something is left");
        }
        Ok(body)
    }
}
