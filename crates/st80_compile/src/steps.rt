// The instructions of trees.
ghost use Rattle.std.specs.Prelude.{◌≡◌, ◌++◌, OnOk};
ghost use Rattle.st80_compile.specs.Steps as rules;

use crate::bytes::{far, width};
use crate::frame::{higher, index_of, is_special, raised};
use crate::step::{Op, Place, Step};
use st80_tree::{Constant, FIRST_INTEGER, Messages, Node, Nodes, Statements, Variable};
use std::alloc::{AllocError, Global};

pub fn put(steps: &mut Vec<Step>, height: u8, op: Op) -> Result<(), AllocError>
    ensures { OnOk result (steps.new.items ≡ steps.old.items ++ rules.one height op) }
{
    steps.push(Step { height, op })?;
    Ok(())
}

fn put_all(steps: &mut Vec<Step>, more: &[Step]) -> Result<(), AllocError>
    ensures { OnOk result (steps.new.items ≡ steps.old.items ++ more.now) }
{
    steps.extend_from_slice(more)?;
    Ok(())
}

fn place_of(frame: &[u32], variable: Variable) -> Place
    ensures { result ≡ rules.place_of frame.now variable }
{
    match variable {
        Variable::Temporary(n) => Place::OfHome(usize::from(n)),
        Variable::Instance(n) => Place::OfReceiver(n),
        Variable::Shared(association) => Place::OfAssociation(index_of(frame, association)),
    }
}

fn message(frame: &[u32], to_super: bool, selector: u32, arguments: u8) -> Op
    ensures { result ≡ rules.message frame.now to_super selector arguments }
{
    if is_special(to_super, selector, arguments) {
        return Op::Special(selector);
    }
    Op::Message {
        to_super,
        literal: index_of(frame, selector),
        arguments,
    }
}

fn quick_constant(constant: Constant) -> Option<Constant>
    ensures { result ≡ rules.quick_constant constant }
{
    match constant {
        Constant::Receiver | Constant::True | Constant::False | Constant::Nil => Some(constant),
        Constant::MinusOne | Constant::Zero | Constant::One | Constant::Two => None,
    }
}

/// The constant that one byte returns, if an expression is one.
pub fn quick(node: &Node) -> Option<Constant>
    ensures { result ≡ rules.quick node.now }
{
    match node {
        Node::Constant(constant) => quick_constant(*constant),
        Node::Context
        | Node::Literal(_)
        | Node::Variable(_)
        | Node::Assign(_, _)
        | Node::Send { .. } => None,
        Node::Cascade { .. } | Node::Block { .. } | Node::Choice { .. } | Node::Loop { .. } => None,
    }
}

/// Whether the last statement is a return.
pub fn returns(statements: &Statements) -> bool
    ensures { result ≡ rules.returns statements.now }
{
    match statements {
        Statements::Done | Statements::Value(_) => false,
        Statements::Return(_) => true,
        Statements::Step(_, rest) => returns(rest),
    }
}

fn count_op(frame: &[u32], count: u8) -> Op
    ensures { result ≡ rules.count_op frame.now count }
{
    match count {
        0 => Op::PushConstant(Constant::Zero),
        1 => Op::PushConstant(Constant::One),
        2 => Op::PushConstant(Constant::Two),
        _ => Op::Push(Place::OfFrame(index_of(frame, FIRST_INTEGER + u32::from(count)))),
    }
}

fn put_opening(
    steps: &mut Vec<Step>,
    frame: &[u32],
    height: u8,
    count: u8,
    n: usize,
) -> Result<(), AllocError>
    ensures { OnOk result (steps.new.items ≡ steps.old.items ++ rules.opening frame.now height count n) }
{
    let above = higher(height);
    put(steps, height, Op::PushContext)?;
    put(steps, above, count_op(frame, count))?;
    put(steps, higher(above), Op::Special(24))?;
    put(steps, above, Op::Over(n))
}

fn put_stores(steps: &mut Vec<Step>, first: u8, count: u8) -> Result<(), AllocError>
    ensures { OnOk result (steps.new.items ≡ steps.old.items ++ rules.stores first count) }
{
    if count == 0 {
        return Ok(());
    }
    let last = count - 1;
    put(
        steps,
        count,
        Op::StorePop(Place::OfHome(usize::from(first) + usize::from(last))),
    )?;
    put_stores(steps, first, last)
}

fn put_closing(steps: &mut Vec<Step>, is_return: bool) -> Result<(), AllocError>
    ensures { OnOk result (steps.new.items ≡ steps.old.items ++ rules.closing is_return) }
{
    if is_return {
        return Ok(());
    }
    put(steps, 1, Op::ReturnFromBlock)
}

/// A jump over so many bytes, if there has to be one.
fn put_passing(
    steps: &mut Vec<Step>,
    height: u8,
    is_return: bool,
    n: usize,
) -> Result<(), AllocError>
    ensures { OnOk result (steps.new.items ≡ steps.old.items ++ rules.passing height is_return n) }
{
    if is_return || n == 0 {
        return Ok(());
    }
    put(steps, height, Op::Jump(n))
}

/// Both parts of a choice, behind its test.
fn put_choice(
    steps: &mut Vec<Step>,
    on: bool,
    height: u8,
    first: &[Step],
    second: &[Step],
) -> Result<(), AllocError>
    ensures { OnOk result (steps.new.items ≡ steps.old.items ++ rules.choice_parts on height first.now second.now) }
{
    put(
        steps,
        height,
        Op::Branch {
            on,
            distance: far(first),
        },
    )?;
    put_all(steps, first)?;
    put_all(steps, second)
}

/// A loop.
fn put_loop(
    steps: &mut Vec<Step>,
    on: bool,
    height: u8,
    test: &[Step],
    body: &[Step],
) -> Result<(), AllocError>
    ensures { OnOk result (steps.new.items ≡ steps.old.items ++ rules.loop_steps on height test.now body.now) }
{
    let past = far(body);
    let branch = Op::Branch {
        on,
        distance: past + 2,
    };
    put_all(steps, test)?;
    put(steps, higher(height), branch)?;
    put_all(steps, body)?;
    put(
        steps,
        height,
        Op::Back(far(test) + width(branch) + past + 2),
    )
}

/// Pushes the value of an expression.
#[cycle(emit)]
fn put_value(
    alloc: Global,
    steps: &mut Vec<Step>,
    frame: &[u32],
    height: u8,
    node: &Node,
) -> Result<(), AllocError>
    ensures { OnOk result (steps.new.items ≡ steps.old.items ++ rules.value_steps frame.now height node.now) }
{
    let above = higher(height);
    match node {
        Node::Constant(constant) => put(steps, height, Op::PushConstant(*constant)),
        Node::Context => put(steps, height, Op::PushContext),
        Node::Literal(literal) => put(
            steps,
            height,
            Op::Push(Place::OfFrame(index_of(frame, *literal))),
        ),
        Node::Variable(variable) => put(steps, height, Op::Push(place_of(frame, *variable))),
        Node::Assign(variable, value) => {
            put_value(alloc, steps, frame, height, value)?;
            put(steps, above, Op::Store(place_of(frame, *variable)))
        }
        Node::Send {
            to_super,
            receiver,
            selector,
            arguments,
        } => {
            put_value(alloc, steps, frame, height, receiver)?;
            put_arguments(alloc, steps, frame, above, arguments)?;
            put(
                steps,
                raised(above, arguments),
                message(frame, *to_super, *selector, raised(0, arguments)),
            )
        }
        Node::Cascade {
            to_super,
            receiver,
            messages,
        } => {
            put_value(alloc, steps, frame, height, receiver)?;
            put_messages(alloc, steps, frame, *to_super, above, messages)
        }
        Node::Block { first, count, body } => {
            let mut inner = Vec::new(alloc);
            put_stores(&mut inner, *first, *count)?;
            put_statements(alloc, &mut inner, frame, 0, true, body)?;
            put_closing(&mut inner, returns(body))?;
            put_opening(steps, frame, height, *count, far(&inner))?;
            put_all(steps, &inner)
        }
        Node::Choice {
            on,
            test,
            first,
            second,
        } => {
            let mut b = Vec::new(alloc);
            put_statements(alloc, &mut b, frame, height, true, second)?;
            let mut a = Vec::new(alloc);
            put_statements(alloc, &mut a, frame, height, true, first)?;
            put_passing(&mut a, above, returns(first), far(&b))?;
            put_value(alloc, steps, frame, height, test)?;
            put_choice(steps, *on, above, &a, &b)
        }
        Node::Loop { on, test, body } => {
            let mut t = Vec::new(alloc);
            put_statements(alloc, &mut t, frame, height, true, test)?;
            let mut b = Vec::new(alloc);
            put_statements(alloc, &mut b, frame, height, false, body)?;
            put_loop(steps, *on, height, &t, &b)?;
            put(steps, height, Op::PushConstant(Constant::Nil))
        }
    }
}

/// Does what an expression does, and leaves the stack as it was.
#[cycle(emit)]
fn put_effect(
    alloc: Global,
    steps: &mut Vec<Step>,
    frame: &[u32],
    height: u8,
    node: &Node,
) -> Result<(), AllocError>
    ensures { OnOk result (steps.new.items ≡ steps.old.items ++ rules.effect_steps frame.now height node.now) }
{
    match node {
        Node::Constant(_)
        | Node::Context
        | Node::Literal(_)
        | Node::Variable(_)
        | Node::Block { .. } => Ok(()),
        Node::Assign(variable, value) => {
            put_value(alloc, steps, frame, height, value)?;
            put(
                steps,
                higher(height),
                Op::StorePop(place_of(frame, *variable)),
            )
        }
        Node::Send { .. } | Node::Cascade { .. } => {
            put_value(alloc, steps, frame, height, node)?;
            put(steps, higher(height), Op::Pop)
        }
        Node::Choice {
            on,
            test,
            first,
            second,
        } => {
            let mut b = Vec::new(alloc);
            put_statements(alloc, &mut b, frame, height, false, second)?;
            let mut a = Vec::new(alloc);
            put_statements(alloc, &mut a, frame, height, false, first)?;
            put_passing(&mut a, height, returns(first), far(&b))?;
            put_value(alloc, steps, frame, height, test)?;
            put_choice(steps, *on, higher(height), &a, &b)
        }
        Node::Loop { on, test, body } => {
            let mut t = Vec::new(alloc);
            put_statements(alloc, &mut t, frame, height, true, test)?;
            let mut b = Vec::new(alloc);
            put_statements(alloc, &mut b, frame, height, false, body)?;
            put_loop(steps, *on, height, &t, &b)
        }
    }
}

#[cycle(emit)]
fn put_arguments(
    alloc: Global,
    steps: &mut Vec<Step>,
    frame: &[u32],
    height: u8,
    arguments: &Nodes,
) -> Result<(), AllocError>
    ensures { OnOk result (steps.new.items ≡ steps.old.items ++ rules.argument_steps frame.now height arguments.now) }
{
    match arguments {
        Nodes::End => Ok(()),
        Nodes::More(node, rest) => {
            put_value(alloc, steps, frame, height, node)?;
            put_arguments(alloc, steps, frame, higher(height), rest)
        }
    }
}

/// The messages of a cascade, whose receiver is on top.
#[cycle(emit)]
fn put_messages(
    alloc: Global,
    steps: &mut Vec<Step>,
    frame: &[u32],
    to_super: bool,
    height: u8,
    messages: &Messages,
) -> Result<(), AllocError>
    ensures { OnOk result (steps.new.items ≡ steps.old.items ++ rules.message_steps frame.now to_super height messages.now) }
{
    match messages {
        Messages::Last {
            selector,
            arguments,
        } => {
            put_arguments(alloc, steps, frame, height, arguments)?;
            put(
                steps,
                raised(height, arguments),
                message(frame, to_super, *selector, raised(0, arguments)),
            )
        }
        Messages::Then {
            selector,
            arguments,
            rest,
        } => {
            let above = higher(height);
            put(steps, height, Op::Duplicate)?;
            put_arguments(alloc, steps, frame, above, arguments)?;
            put(
                steps,
                raised(above, arguments),
                message(frame, to_super, *selector, raised(0, arguments)),
            )?;
            put(steps, above, Op::Pop)?;
            put_messages(alloc, steps, frame, to_super, height, rest)
        }
    }
}

/// Statements, with the value of the last one or without.
#[cycle(emit)]
pub fn put_statements(
    alloc: Global,
    steps: &mut Vec<Step>,
    frame: &[u32],
    height: u8,
    wanted: bool,
    statements: &Statements,
) -> Result<(), AllocError>
    ensures { OnOk result (steps.new.items ≡ steps.old.items ++ rules.statement_steps frame.now height wanted statements.now) }
{
    match statements {
        Statements::Done => {
            if wanted {
                put(steps, height, Op::PushConstant(Constant::Nil))
            } else {
                Ok(())
            }
        }
        Statements::Value(node) => {
            if wanted {
                put_value(alloc, steps, frame, height, node)
            } else {
                put_effect(alloc, steps, frame, height, node)
            }
        }
        Statements::Return(node) => {
            if let Some(constant) = quick(node) {
                return put(steps, height, Op::ReturnConstant(constant));
            }
            put_value(alloc, steps, frame, height, node)?;
            put(steps, higher(height), Op::ReturnTop)
        }
        Statements::Step(node, rest) => {
            put_effect(alloc, steps, frame, height, node)?;
            put_statements(alloc, steps, frame, height, wanted, rest)
        }
    }
}
