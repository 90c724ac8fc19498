// Instructions as trees, from the first to the last.
use crate::frames::{
    Ending, Entry, Frame, Kind, Part, Sent, empty_part, ending_of, messages_of, statements_of,
    valued_statements,
};
use crate::stop::Halt;
use st80_compile::{Op, Place};
use st80_tree::{Constant, Node, Nodes, Statements, Variable};
use std::alloc::{AllocError, Global};

/// The selector by which blocks are made.
const BLOCK_COPY: u32 = 24;

/// The frames that aren't over, the innermost one last.
#[derive(Drop)]
pub(crate) struct Reader<'l> {
    alloc: Global,
    literals: &'l [u32],
    frames: Vec<Frame>,
}

/// How many arguments a selector with a bytecode of its own has.
fn special_arguments(selector: u32) -> u8 {
    match selector {
        17 => 2,
        18 | 19 | 21 | 23 | 25 | 28 | 30 | 31 => 0,
        _ => 1,
    }
}

fn is_quick(node: &Node) -> bool {
    match node {
        Node::Constant(constant) => matches!(
            constant,
            Constant::Receiver | Constant::True | Constant::False | Constant::Nil
        ),
        _ => false,
    }
}

fn choice(
    alloc: Global,
    on: bool,
    test: Node,
    first: Statements,
    second: Statements,
) -> Result<Node, AllocError> {
    let test = Box::new(alloc, test)?;
    let first = Box::new(alloc, first)?;
    let second = Box::new(alloc, second)?;
    Ok(Node::Choice {
        on,
        test,
        first,
        second,
    })
}

/// How many arguments a block has, by what blockCopy: gets.
fn count_of(arguments: Nodes) -> Option<u8> {
    let Nodes::More(node, _) = arguments else {
        return None;
    };
    match Box::into_inner(node) {
        Node::Constant(Constant::Zero) => Some(0),
        Node::Constant(Constant::One) => Some(1),
        Node::Constant(Constant::Two) => Some(2),
        Node::Literal(literal) => u8::try_from(literal.checked_sub(st80_tree::FIRST_INTEGER)?).ok(),
        _ => None,
    }
}

/// How many arguments the block has that is made by this.
fn block_count(node: Node) -> Option<u8> {
    let Node::Send {
        to_super: false,
        receiver,
        selector: BLOCK_COPY,
        arguments,
    } = node
    else {
        return None;
    };
    if !matches!(Box::into_inner(receiver), Node::Context) {
        return None;
    }
    count_of(Box::into_inner(arguments))
}

/// A part with an argument of its block stored, if one is left to be stored.
fn with_argument(kind: Kind, place: Place) -> Result<(Kind, bool), Halt> {
    match kind {
        Kind::Block {
            first: _,
            count,
            left,
        } if left > 0 => {
            let Place::OfHome(n) = place else {
                return Err(Halt::NoTree);
            };
            let first = u8::try_from(n).map_err(|_| Halt::NoTree)?;
            let left = left - 1;
            Ok((Kind::Block { first, count, left }, true))
        }
        other => Ok((other, false)),
    }
}

/// Steps, and a value behind them.
fn valued_behind(alloc: Global, steps: Vec<Node>, node: Node) -> Result<Statements, Halt> {
    let mut stack = Vec::new(alloc);
    stack.push(Entry::Value(node))?;
    statements_of(
        alloc,
        Part {
            steps,
            stack,
            returned: None,
        },
    )
}

impl<'l> Reader<'l> {
    /// A reader of so many bytes.
    pub(crate) fn new(
        alloc: Global,
        literals: &'l [u32],
        len: usize,
    ) -> Result<Reader<'l>, AllocError> {
        let mut frames = Vec::new(alloc);
        frames.push(Frame {
            kind: Kind::Method,
            end: len,
            part: empty_part(alloc),
        })?;
        Ok(Reader {
            alloc,
            literals,
            frames,
        })
    }

    fn literal(&self, i: usize) -> Result<u32, Halt> {
        self.literals.get(i).copied().ok_or(Halt::NoTree)
    }

    fn variable(&self, place: Place) -> Result<Variable, Halt> {
        match place {
            Place::OfReceiver(n) => Ok(Variable::Instance(n)),
            Place::OfHome(n) => Ok(Variable::Temporary(u8::try_from(n).map_err(|_| Halt::NoTree)?)),
            Place::OfAssociation(n) => Ok(Variable::Shared(self.literal(n)?)),
            Place::OfFrame(_) => Err(Halt::NoTree),
        }
    }

    fn pushed(&self, place: Place) -> Result<Node, Halt> {
        if let Place::OfFrame(i) = place {
            return Ok(Node::Literal(self.literal(i)?));
        }
        Ok(Node::Variable(self.variable(place)?))
    }

    fn taken(&mut self) -> Result<Frame, Halt> {
        self.frames.pop().ok_or(Halt::NoTree)
    }

    fn enter(&mut self, kind: Kind, end: usize) -> Result<(), Halt> {
        let part = empty_part(self.alloc);
        self.frames.push(Frame { kind, end, part })?;
        Ok(())
    }

    /// The byte at which the innermost part is over.
    fn end(&self) -> Result<usize, Halt> {
        match self.frames.last() {
            Some(frame) => Ok(frame.end),
            None => Err(Halt::NoTree),
        }
    }

    fn is_behind(&self) -> bool {
        match self.frames.last() {
            Some(frame) => matches!(frame.kind, Kind::Behind { .. }),
            None => false,
        }
    }

    /// How many values the innermost part has.
    fn height(&self) -> usize {
        match self.frames.last() {
            Some(frame) => frame.part.stack.len(),
            None => 0,
        }
    }

    fn push(&mut self, entry: Entry) -> Result<(), Halt> {
        let mut frame = self.taken()?;
        frame.part.stack.push(entry)?;
        self.frames.push(frame)?;
        Ok(())
    }

    fn push_value(&mut self, node: Node) -> Result<(), Halt> {
        self.push(Entry::Value(node))
    }

    /// Adds a statement, or a value that is one: a choice whose parts all return.
    fn add(&mut self, node: Node) -> Result<(), Halt> {
        let mut frame = self.taken()?;
        if frame.part.stack.is_empty() {
            frame.part.steps.push(node)?;
        } else {
            frame.part.stack.push(Entry::Value(node))?;
        }
        self.frames.push(frame)?;
        Ok(())
    }

    // ---- parts that are over

    /// Ends what stands behind a choice whose first part returns.
    fn settle(&mut self) -> Result<(), Halt> {
        let Frame { kind, end: _, part } = self.taken()?;
        let Kind::Behind { on, test, first } = kind else {
            return Err(Halt::NoTree);
        };
        let mut below = self.taken()?;
        let Part {
            mut steps,
            mut stack,
            returned,
        } = part;
        if below.part.stack.is_empty() {
            let node = choice(self.alloc, on, test, first, Statements::Done)?;
            below.part.steps.push(node)?;
            below.part.steps.append(&mut steps)?;
            below.part.stack = stack;
            below.part.returned = returned;
        } else {
            if stack.is_empty() {
                return Err(Halt::NoTree);
            }
            let value = stack.remove(0);
            let mut only = empty_part(self.alloc);
            only.steps = steps;
            only.stack.push(value)?;
            let second = statements_of(self.alloc, only)?;
            let node = choice(self.alloc, on, test, first, second)?;
            below.part.stack.push(Entry::Value(node))?;
            below.part.stack.append(&mut stack)?;
        }
        self.frames.push(below)?;
        Ok(())
    }

    fn settle_all(&mut self) -> Result<(), Halt> {
        for _ in 0..self.frames.len() {
            if self.is_behind() {
                self.settle()?;
            }
        }
        Ok(())
    }

    /// Ends a choice.
    fn choose(&mut self, on: bool, test: Node, first: Part, second: Part) -> Result<(), Halt> {
        let is_value = ending_of(&first) == Ending::WithValue
            || ending_of(&second) == Ending::WithValue;
        let (first, second) = if is_value {
            (
                valued_statements(self.alloc, first)?,
                valued_statements(self.alloc, second)?,
            )
        } else {
            (
                statements_of(self.alloc, first)?,
                statements_of(self.alloc, second)?,
            )
        };
        let node = choice(self.alloc, on, test, first, second)?;
        if is_value {
            return self.push_value(node);
        }
        self.add(node)
    }

    /// Ends a first part that no jump ends.
    fn leave_first(&mut self, on: bool, test: Node, part: Part) -> Result<(), Halt> {
        if ending_of(&part) == Ending::WithReturn {
            let first = statements_of(self.alloc, part)?;
            let end = self.end()?;
            return self.enter(Kind::Behind { on, test, first }, end);
        }
        let second = empty_part(self.alloc);
        self.choose(on, test, part, second)
    }

    fn leave(&mut self) -> Result<(), Halt> {
        let Frame { kind, end: _, part } = self.taken()?;
        match kind {
            Kind::First { on, test } => self.leave_first(on, test, part),
            Kind::Second { on, test, first } => self.choose(on, test, first, part),
            Kind::Block {
                first,
                count,
                left: _,
            } => {
                let body = valued_statements(self.alloc, part)?;
                let body = Box::new(self.alloc, body)?;
                self.push_value(Node::Block { first, count, body })
            }
            Kind::Method | Kind::Test(_) | Kind::Behind { .. } => Err(Halt::NoTree),
        }
    }

    /// Ends all parts that are over at a byte.
    fn leave_all(&mut self, at: usize) -> Result<(), Halt> {
        for _ in 0..self.frames.len() {
            if self.end()? == at {
                self.settle_all()?;
                self.leave()?;
            }
        }
        Ok(())
    }

    // ---- values

    /// Has so many values in the innermost part.
    fn fit(&mut self, n: usize) -> Result<(), Halt> {
        for _ in 0..self.frames.len() {
            if self.height() < n && self.is_behind() {
                self.settle()?;
            }
        }
        if self.height() < n {
            let mut frame = self.taken()?;
            match frame.part.steps.pop() {
                Some(node) => frame.part.stack.insert(0, Entry::Value(node))?,
                None => return Err(Halt::NoTree),
            }
            self.frames.push(frame)?;
        }
        Ok(())
    }

    fn pop(&mut self) -> Result<Entry, Halt> {
        let mut frame = self.taken()?;
        let entry = frame.part.stack.pop().ok_or(Halt::NoTree)?;
        self.frames.push(frame)?;
        Ok(entry)
    }

    fn pop_value(&mut self) -> Result<Node, Halt> {
        self.fit(1)?;
        match self.pop()? {
            Entry::Value(node) => Ok(node),
            _ => Err(Halt::NoTree),
        }
    }

    fn pop_values(&mut self, n: u8) -> Result<Nodes, Halt> {
        let mut list = Nodes::End;
        for _ in 0..n {
            let node = self.pop_value()?;
            let node = Box::new(self.alloc, node)?;
            let rest = Box::new(self.alloc, list)?;
            list = Nodes::More(node, rest);
        }
        Ok(list)
    }

    fn send(&mut self, to_super: bool, selector: u32, n: u8) -> Result<(), Halt> {
        self.fit(usize::from(n) + 1)?;
        let arguments = self.pop_values(n)?;
        let sent = Sent {
            to_super,
            selector,
            arguments,
        };
        match self.pop()? {
            Entry::Value(node) => {
                let receiver = Box::new(self.alloc, node)?;
                let arguments = Box::new(self.alloc, sent.arguments)?;
                self.push_value(Node::Send {
                    to_super,
                    receiver,
                    selector,
                    arguments,
                })
            }
            Entry::Copy => self.push(Entry::Answer(sent)),
            Entry::Cascade(node, before) => {
                let messages = messages_of(self.alloc, before, sent)?;
                let messages = Box::new(self.alloc, messages)?;
                let receiver = Box::new(self.alloc, node)?;
                self.push_value(Node::Cascade {
                    to_super,
                    receiver,
                    messages,
                })
            }
            Entry::Answer(_) | Entry::Looped(_) => Err(Halt::NoTree),
        }
    }

    fn duplicate(&mut self) -> Result<(), Halt> {
        self.fit(1)?;
        match self.pop()? {
            Entry::Value(node) => {
                let messages = Vec::new(self.alloc);
                self.push(Entry::Cascade(node, messages))?;
            }
            Entry::Cascade(node, messages) => self.push(Entry::Cascade(node, messages))?,
            _ => return Err(Halt::NoTree),
        }
        self.push(Entry::Copy)
    }

    /// Drops a value: the statement whose value it is, or the answer of a message of a cascade.
    fn drop_value(&mut self) -> Result<(), Halt> {
        self.fit(1)?;
        match self.pop()? {
            Entry::Value(node) => {
                if self.height() > 0 {
                    return Err(Halt::NoTree);
                }
                self.add(node)
            }
            Entry::Answer(sent) => match self.pop()? {
                Entry::Cascade(node, mut messages) => {
                    messages.push(sent)?;
                    self.push(Entry::Cascade(node, messages))
                }
                _ => Err(Halt::NoTree),
            },
            _ => Err(Halt::NoTree),
        }
    }

    fn assigned(&mut self, place: Place) -> Result<Node, Halt> {
        let value = self.pop_value()?;
        let variable = self.variable(place)?;
        Ok(Node::Assign(variable, Box::new(self.alloc, value)?))
    }

    /// Stores an argument of a block, if one is left to be stored.
    fn store_argument(&mut self, place: Place) -> Result<bool, Halt> {
        let Frame { kind, end, part } = self.taken()?;
        let (kind, is_stored) = with_argument(kind, place)?;
        self.frames.push(Frame { kind, end, part })?;
        Ok(is_stored)
    }

    fn store(&mut self, place: Place) -> Result<(), Halt> {
        if self.store_argument(place)? {
            return Ok(());
        }
        let node = self.assigned(place)?;
        if self.height() > 0 {
            return Err(Halt::NoTree);
        }
        self.add(node)
    }

    fn push_constant(&mut self, constant: Constant) -> Result<(), Halt> {
        let mut frame = self.taken()?;
        let entry = match (frame.part.stack.pop(), constant) {
            (Some(Entry::Looped(node)), Constant::Nil) => Entry::Value(node),
            (Some(entry), _) => {
                frame.part.stack.push(entry)?;
                Entry::Value(Node::Constant(constant))
            }
            (None, _) => Entry::Value(Node::Constant(constant)),
        };
        frame.part.stack.push(entry)?;
        self.frames.push(frame)?;
        Ok(())
    }

    // ---- jumps

    /// A block, whose code is jumped over.
    fn block(&mut self, end: usize) -> Result<(), Halt> {
        let node = self.pop_value()?;
        let Some(count) = block_count(node) else {
            return Err(Halt::NoTree);
        };
        let kind = Kind::Block {
            first: 0,
            count,
            left: count,
        };
        self.enter(kind, end)
    }

    /// A jump over the second part of a choice.
    fn pass(&mut self, end: usize) -> Result<(), Halt> {
        self.settle_all()?;
        let Frame { kind, end: _, part } = self.taken()?;
        let Kind::First { on, test } = kind else {
            return Err(Halt::NoTree);
        };
        let first = part;
        self.enter(Kind::Second { on, test, first }, end)
    }

    fn jump(&mut self, distance: usize, behind: usize) -> Result<(), Halt> {
        let end = behind.saturating_add(distance);
        if self.end()? == behind {
            return self.pass(end);
        }
        self.block(end)
    }

    /// The loop whose body ends here.
    fn back(&mut self, distance: usize, behind: usize) -> Result<(), Halt> {
        self.settle_all()?;
        let Frame { kind, end: _, part } = self.taken()?;
        let Kind::First { on, test } = kind else {
            return Err(Halt::NoTree);
        };
        let body = statements_of(self.alloc, part)?;
        self.settle_all()?;
        let test = self.tested(test, behind.saturating_sub(distance))?;
        let test = Box::new(self.alloc, test)?;
        let body = Box::new(self.alloc, body)?;
        self.looped(Node::Loop { on, test, body })
    }

    /// The statements of a test that began at a byte, with its value.
    fn tested(&mut self, value: Node, start: usize) -> Result<Statements, Halt> {
        let Frame {
            kind,
            end: _,
            mut part,
        } = self.taken()?;
        let Kind::Test(at) = kind else {
            return Err(Halt::NoTree);
        };
        if at != start {
            return Err(Halt::NoTree);
        }
        part.stack.push(Entry::Value(value))?;
        statements_of(self.alloc, part)
    }

    fn looped(&mut self, node: Node) -> Result<(), Halt> {
        if self.height() > 0 {
            return self.push(Entry::Looped(node));
        }
        self.add(node)
    }

    // ---- returns

    /// What a return of one byte isn't for, though its value is a constant: it is the value of what stands before.
    fn repacked(&mut self, node: Node) -> Result<Node, Halt> {
        let Frame { kind, end, part } = self.taken()?;
        let Part {
            mut steps,
            stack: _,
            returned: _,
        } = part;
        let last = steps.pop();
        if matches!(&last, Some(Node::Loop { .. })) {
            let part = Part {
                steps,
                stack: Vec::new(self.alloc),
                returned: None,
            };
            self.frames.push(Frame { kind, end, part })?;
            return last.ok_or(Halt::NoTree);
        }
        let Kind::Behind { on, test, first } = kind else {
            return Err(Halt::NoTree);
        };
        if let Some(step) = last {
            steps.push(step)?;
        }
        let value = valued_behind(self.alloc, steps, node)?;
        Ok(choice(self.alloc, on, test, first, value)?)
    }

    fn return_top(&mut self, behind: usize) -> Result<(), Halt> {
        let node = self.pop_value()?;
        if is_quick(&node) {
            let node = self.repacked(node)?;
            return self.returned(node, behind);
        }
        self.returned(node, behind)
    }

    /// A return: the last of its part, or else of the second part of a choice whose first part returns.
    fn returned(&mut self, node: Node, behind: usize) -> Result<(), Halt> {
        if self.height() > 0 {
            return Err(Halt::NoTree);
        }
        if self.end()? == behind {
            let mut frame = self.taken()?;
            frame.part.returned = Some(node);
            self.frames.push(frame)?;
            return self.settle_all();
        }
        let Frame {
            kind,
            end: _,
            mut part,
        } = self.taken()?;
        let Kind::Behind { on, test, first } = kind else {
            return Err(Halt::NoTree);
        };
        part.returned = Some(node);
        let second = statements_of(self.alloc, part)?;
        let node = choice(self.alloc, on, test, first, second)?;
        self.add(node)
    }

    // ---- all

    fn branch(&mut self, on: bool, end: usize) -> Result<(), Halt> {
        let test = self.pop_value()?;
        self.enter(Kind::First { on, test }, end)
    }

    fn act(&mut self, op: Op, behind: usize) -> Result<(), Halt> {
        match op {
            Op::Push(place) => {
                let node = self.pushed(place)?;
                self.push_value(node)
            }
            Op::PushConstant(constant) => self.push_constant(constant),
            Op::PushContext => self.push_value(Node::Context),
            Op::Store(place) => {
                let node = self.assigned(place)?;
                self.push_value(node)
            }
            Op::StorePop(place) => self.store(place),
            Op::Pop => self.drop_value(),
            Op::Duplicate => self.duplicate(),
            Op::Message {
                to_super,
                literal,
                arguments,
            } => {
                let selector = self.literal(literal)?;
                self.send(to_super, selector, arguments)
            }
            Op::Special(selector) => self.send(false, selector, special_arguments(selector)),
            Op::Jump(_) | Op::Over(_) | Op::Back(_) | Op::Branch { .. } => self.go(op, behind),
            Op::ReturnConstant(constant) => self.returned(Node::Constant(constant), behind),
            Op::ReturnTop => self.return_top(behind),
            Op::ReturnFromBlock => {
                if self.end()? == behind {
                    return self.settle_all();
                }
                Err(Halt::NoTree)
            }
        }
    }

    fn go(&mut self, op: Op, behind: usize) -> Result<(), Halt> {
        match op {
            Op::Jump(distance) | Op::Over(distance) => self.jump(distance, behind),
            Op::Back(distance) => self.back(distance, behind),
            Op::Branch { on, distance } => self.branch(on, behind.saturating_add(distance)),
            _ => Err(Halt::NoTree),
        }
    }

    /// Reads an instruction, which begins at a byte where so many loops begin.
    pub(crate) fn read(
        &mut self,
        op: Op,
        at: usize,
        behind: usize,
        loops: usize,
    ) -> Result<(), Halt> {
        self.leave_all(at)?;
        for _ in 0..loops {
            let end = self.end()?;
            self.enter(Kind::Test(at), end)?;
        }
        self.act(op, behind)
    }

    /// The statements of the method, at the end of its code.
    pub(crate) fn finished(mut self) -> Result<Part, Halt> {
        self.settle_all()?;
        let Frame { kind, end: _, part } = self.taken()?;
        match kind {
            Kind::Method => Ok(part),
            _ => Err(Halt::NoTree),
        }
    }
}
