// A method's tree.
ghost use Rattle.std.specs.Prelude.{IfOk, IfSome, IsTrue};
ghost use Rattle.st80_decompile.specs.Decompiled.{HasCode, AreSame};

use crate::frames::{Part, statements_of, steps_of};
use crate::ops::{Read, instructions};
use crate::reader::Reader;
use crate::stop::Halt;
use st80_compile::{Answers, Compiled, Op, Stop, compile};
use st80_tree::{Constant, Method, Node, Statements, Variable};
use std::alloc::{AllocError, Global};

/// The bytes at which the loops of code begin.
fn loops_of(alloc: Global, ops: &[Read]) -> Result<Vec<usize>, AllocError> {
    let mut starts = Vec::new(alloc);
    for read in ops {
        if let Op::Back(distance) = read.op {
            starts.push(read.behind.saturating_sub(distance))?;
        }
    }
    Ok(starts)
}

fn loops_at(starts: &[usize], at: usize) -> usize {
    starts.iter().filter(|start| **start == at).count()
}

/// The statements of a method: one that answers self at its end doesn't say so.
fn body_of(alloc: Global, part: Part) -> Result<Statements, Halt> {
    let mut part = part;
    if let Some(Node::Constant(Constant::Receiver)) = part.returned {
        if !part.steps.is_empty() {
            part.returned = None;
        }
    }
    statements_of(alloc, part)
}

fn read_body(alloc: Global, given: &Compiled) -> Result<Statements, Halt> {
    let Some(ops) = instructions(alloc, &given.code)? else {
        return Err(Halt::NoTree);
    };
    let starts = loops_of(alloc, &ops)?;
    let mut reader = Reader::new(alloc, &given.literals, given.code.len())?;
    let mut at = 0;
    'each: for one in ops.iter() {
        reader.read(one.op, at, one.behind, loops_at(&starts, at))?;
        at = one.behind;
    }
    body_of(alloc, reader.finished()?)
}

fn returned(alloc: Global, node: Node) -> Result<Statements, Halt> {
    Ok(Statements::Return(Box::new(alloc, node)?))
}

fn body(alloc: Global, given: &Compiled) -> Result<Statements, Halt> {
    match given.answers {
        Answers::Code => read_body(alloc, given),
        Answers::Receiver => returned(alloc, Node::Constant(Constant::Receiver)),
        Answers::Field(n) => returned(alloc, Node::Variable(Variable::Instance(n))),
    }
}

fn method(alloc: Global, given: &Compiled, body: Statements) -> Result<Method, AllocError> {
    Ok(Method {
        arguments: given.arguments,
        temporaries: given.temporaries,
        primitive: given.primitive,
        body: Box::new(alloc, body)?,
    })
}

/// The literals as statements, which have no code, before a method's own.
fn with_front(alloc: Global, method: Method, literals: &[u32]) -> Result<Method, AllocError> {
    let Method {
        arguments,
        temporaries,
        primitive,
        body,
    } = method;
    let mut nodes = Vec::new(alloc);
    for literal in literals {
        nodes.push(Node::Literal(*literal))?;
    }
    let body = steps_of(alloc, nodes, Box::into_inner(body))?;
    Ok(Method {
        arguments,
        temporaries,
        primitive,
        body: Box::new(alloc, body)?,
    })
}

/// Whether what was made of one method is what was made of another.
fn are_same(a: &Compiled, b: &Compiled) -> bool
    ensures { IsTrue result → AreSame a.now b.now }
{
    a.answers == b.answers
        && a.arguments == b.arguments
        && a.temporaries == b.temporaries
        && a.primitive == b.primitive
        && a.is_large == b.is_large
        && a.sends_super == b.sends_super
        && a.literals[..] == b.literals[..]
        && a.code[..] == b.code[..]
}

/// Whether a tree has this code.
#[tactic(auto, using(crate::proofs::SameLaws::same_compiled))]
fn has_code(alloc: Global, method: &Method, given: &Compiled) -> Result<bool, AllocError>
    ensures { IfOk result (λ yes. IsTrue yes → HasCode given.now method.now) }
{
    match compile(alloc, method) {
        Ok(made) => Ok(are_same(&made, given)),
        Err(Stop::Refused(_)) => Ok(false),
        Err(Stop::NoMemory) => Err(AllocError),
    }
}

fn tested(alloc: Global, method: Method, given: &Compiled) -> Result<Option<Method>, AllocError>
    ensures { IfOk result (λ found. IfSome found (HasCode given.now)) }
{
    if has_code(alloc, &method, given)? {
        return Ok(Some(method));
    }
    let method = with_front(alloc, method, &given.literals)?;
    if has_code(alloc, &method, given)? {
        return Ok(Some(method));
    }
    Ok(None)
}

/// The tree whose code is this, or nothing where no tree was found. Compiling it makes just what was given, whoever made that.
pub fn decompile(alloc: Global, given: &Compiled) -> Result<Option<Method>, AllocError>
    ensures { IfOk result (λ found. IfSome found (HasCode given.now)) }
{
    match body(alloc, given) {
        Ok(body) => {
            let method = method(alloc, given, body)?;
            tested(alloc, method, given)
        }
        Err(Halt::NoTree) => Ok(None),
        Err(Halt::NoMemory) => Err(AllocError),
    }
}
