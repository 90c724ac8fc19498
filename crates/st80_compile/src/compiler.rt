// A method's code.
ghost use Rattle.std.specs.Prelude.{◌≡◌, ◌≤◌, ◌++◌, IfOk, IfErr};
ghost use Rattle.st80_compile.specs.Bytes.{op_refusal, place_refusal, jump_refusal, refusal_of, listed, spelled};
ghost use Rattle.st80_compile.specs.Compiled as rules;

use crate::bytes::{Bytes, Refusal, bytes_of};
use crate::frame::{add_statements, special_arguments};
use crate::step::{Op, Place, Step};
use crate::steps::{put, put_statements, returns};
use st80_tree::{Constant, Method, Node, Statements, Variable};
use std::alloc::{AllocError, Global};

/// What runs when a method is sent.
#[derive(Clone, Copy, Debug, PartialEq, Eq)]
pub enum Answers {
    /// Its code.
    Code,
    /// Nothing: it answers self.
    Receiver,
    /// Nothing: it answers a field of the receiver.
    Field(u8),
}

/// A method with code, or one that needs none.
#[derive(Debug, Drop)]
pub struct Compiled {
    pub answers: Answers,
    pub arguments: u8,
    pub temporaries: u8,
    pub primitive: u8,
    /// Whether its contexts are large ones.
    pub is_large: bool,
    /// Whether its last literal has to be its class's association.
    pub sends_super: bool,
    /// Numbers of the pool, each once.
    pub literals: Vec<u32>,
    pub code: Vec<u8>,
}

/// Why there is no method.
#[derive(Clone, Copy, Debug, PartialEq, Eq)]
pub enum Stop {
    NoMemory,
    Refused(Refusal),
}

impl From<AllocError> for Stop {
    ghost use Rattle.std.specs.Prelude.{◌≡◌};
    ghost use Rattle.st80_compile.specs.declared.compiler.Stop.TheVariants.{NoMemory};

    ghost from_gives = { λ _ e. e ≡ NoMemory };

    fn from(_error: AllocError) -> Stop {
        Stop::NoMemory
    }
}

/// How many fields above its height an instruction may use.
fn rise(op: Op) -> usize
    ensures value { result ≡ rules.rise op }
    ensures few { result ≤ 2 }
{
    match op {
        Op::Push(_)
        | Op::PushConstant(_)
        | Op::PushContext
        | Op::Duplicate
        | Op::Branch { .. }
        | Op::ReturnTop
        | Op::ReturnFromBlock => 1,
        Op::Store(_) | Op::StorePop(_) | Op::Pop | Op::Jump(_) | Op::Over(_) | Op::Back(_) => 0,
        Op::Message { arguments, .. } => { if arguments == 0 { 1 } else { 0 } }
        Op::Special(selector) => {
            if special_arguments(selector) == 0 {
                1
            } else {
                0
            }
        }
        Op::ReturnConstant(_) => 2,
    }
}

fn depth(steps: &[Step]) -> usize
    ensures { result ≡ rules.depth steps.now }
{
    steps.iter().fold(0, |d, step| d.max(usize::from(step.height) + rise(step.op)))
}

fn sends_super(op: Op) -> bool
    ensures { result ≡ rules.sends_super op }
{
    match op {
        Op::Message { to_super, .. } => to_super,
        Op::Push(_)
        | Op::PushConstant(_)
        | Op::PushContext
        | Op::Store(_)
        | Op::StorePop(_)
        | Op::Pop
        | Op::Duplicate => false,
        Op::Special(_) | Op::Jump(_) | Op::Over(_) | Op::Back(_) | Op::Branch { .. } => false,
        Op::ReturnConstant(_) | Op::ReturnTop | Op::ReturnFromBlock => false,
    }
}

fn any_super(steps: &[Step]) -> bool
    ensures { result ≡ rules.any_super steps.now }
{
    steps.iter().any(|step| sends_super(step.op))
}

fn constant_answers(constant: Constant) -> Answers
    ensures { result ≡ rules.constant_answers constant }
{
    match constant {
        Constant::Receiver => Answers::Receiver,
        Constant::True | Constant::False | Constant::Nil => Answers::Code,
        Constant::MinusOne | Constant::Zero | Constant::One | Constant::Two => Answers::Code,
    }
}

fn variable_answers(variable: Variable) -> Answers
    ensures { result ≡ rules.variable_answers variable }
{
    match variable {
        Variable::Instance(n) => {
            if n < 32 {
                Answers::Field(n)
            } else {
                Answers::Code
            }
        }
        Variable::Temporary(_) | Variable::Shared(_) => Answers::Code,
    }
}

fn node_answers(node: &Node) -> Answers
    ensures { result ≡ rules.node_answers node.now }
{
    match node {
        Node::Constant(constant) => constant_answers(*constant),
        Node::Variable(variable) => variable_answers(*variable),
        Node::Context | Node::Literal(_) | Node::Assign(_, _) | Node::Send { .. } => Answers::Code,
        Node::Cascade { .. } | Node::Block { .. } | Node::Choice { .. } | Node::Loop { .. } =>
            Answers::Code,
    }
}

fn body_answers(body: &Statements) -> Answers
    ensures { result ≡ rules.body_answers body.now }
{
    match body {
        Statements::Done => Answers::Receiver,
        Statements::Return(node) => node_answers(node),
        Statements::Value(_) | Statements::Step(_, _) => Answers::Code,
    }
}

fn answers_of(method: &Method) -> Answers
    ensures { result ≡ rules.answers_of method.now }
{
    if method.arguments == 0 && method.primitive == 0 {
        return body_answers(&method.body);
    }
    Answers::Code
}

fn place_refusal(temporaries: usize, literals: usize, place: Place) -> Option<Refusal>
    ensures { result ≡ place_refusal temporaries literals place }
{
    match place {
        Place::OfReceiver(n) => {
            if n < 64 {
                None
            } else {
                Some(Refusal::FieldTooFar)
            }
        }
        Place::OfHome(n) => {
            if n < temporaries {
                None
            } else {
                Some(Refusal::UnknownTemporary)
            }
        }
        Place::OfFrame(n) | Place::OfAssociation(n) => {
            if n < literals {
                None
            } else {
                Some(Refusal::UnknownLiteral)
            }
        }
    }
}

fn jump_refusal(most: usize, n: usize) -> Option<Refusal>
    ensures { result ≡ jump_refusal most n }
{
    if n <= most {
        None
    } else {
        Some(Refusal::JumpTooLong)
    }
}

fn op_refusal(temporaries: usize, literals: usize, op: Op) -> Option<Refusal>
    ensures { result ≡ op_refusal temporaries literals op }
{
    match op {
        Op::Push(place) | Op::Store(place) | Op::StorePop(place) => place_refusal(
            temporaries,
            literals,
            place,
        ),
        Op::PushConstant(_) | Op::PushContext | Op::Pop | Op::Duplicate | Op::Special(_) => None,
        Op::Message { literal, .. } => {
            if literal < literals {
                None
            } else {
                Some(Refusal::UnknownLiteral)
            }
        }
        Op::Jump(n) | Op::Over(n) | Op::Branch { distance: n, .. } => jump_refusal(1023, n),
        Op::Back(n) => jump_refusal(1024, n),
        Op::ReturnConstant(_) | Op::ReturnTop | Op::ReturnFromBlock => None,
    }
}

/// Why the first instruction without bytes has none.
fn refusal_of(temporaries: usize, literals: usize, steps: &[Step]) -> Option<Refusal>
    ensures { result ≡ refusal_of temporaries literals steps.now }
{
    for step in steps {
        let why = op_refusal(temporaries, literals, step.op);
        if why.is_some() {
            return why;
        }
    }
    None
}

fn put_bytes(code: &mut Vec<u8>, bytes: Bytes) -> Result<(), AllocError>
    ensures { IfOk result (λ done. code.new.items ≡ code.old.items ++ listed bytes) }
{
    match bytes {
        Bytes::One(a) => code.extend_from_slice(&[a]),
        Bytes::Two(a, b) => code.extend_from_slice(&[a, b]),
        Bytes::Three(a, b, c) => code.extend_from_slice(&[a, b, c]),
    }
}

fn spelled(alloc: Global, steps: &[Step]) -> Result<Vec<u8>, AllocError>
    ensures { IfOk result (λ code. code.items ≡ spelled steps.now) }
{
    let mut code = Vec::new(alloc);
    for step in steps {
        put_bytes(&mut code, bytes_of(step.op))?;
    }
    Ok(code)
}

#[tactic(auto, unfolding(crate::specs::Compiled::frame_of))]
fn frame_of(alloc: Global, method: &Method) -> Result<Vec<u32>, AllocError>
    ensures { IfOk result (λ frame. frame.items ≡ rules.frame_of method.now) }
{
    let mut frame = Vec::new(alloc);
    add_statements(&mut frame, &method.body)?;
    Ok(frame)
}

#[tactic(auto, unfolding(crate::specs::Compiled::steps_of))]
fn steps_of(alloc: Global, frame: &[u32], method: &Method) -> Result<Vec<Step>, AllocError>
    ensures { IfOk result (λ steps. steps.items ≡ rules.steps_of frame.now method.now) }
{
    let mut steps = Vec::new(alloc);
    put_statements(
        alloc,
        &mut steps,
        frame,
        method.temporaries,
        false,
        &method.body,
    )?;
    if returns(&method.body) {
        return Ok(steps);
    }
    put(
        &mut steps,
        method.temporaries,
        Op::ReturnConstant(Constant::Receiver),
    )?;
    Ok(steps)
}

fn more_literals(method: &Method, steps: &[Step]) -> usize
    ensures value { result ≡ rules.more_literals method.now steps.now }
    ensures few { result ≤ 2 }
{
    if method.arguments > 4 || method.primitive > 0 {
        return 2;
    }
    if any_super(steps) { 1 } else { 0 }
}

/// The first reason why a method has no code.
#[tactic(auto, unfolding(crate::specs::Compiled::code_refusal))]
fn code_refusal(method: &Method, frame: &[u32], steps: &[Step]) -> Option<Refusal>
    ensures { result ≡ rules.code_refusal method.now frame.now steps.now }
{
    if method.arguments > 31 {
        return Some(Refusal::TooManyArguments);
    }
    if method.temporaries > 31 {
        return Some(Refusal::TooManyTemporaries);
    }
    if frame.len() > 63 || frame.len() + more_literals(method, steps) > 63 {
        return Some(Refusal::TooManyLiterals);
    }
    if let Some(why) = refusal_of(usize::from(method.temporaries), frame.len(), steps) {
        return Some(why);
    }
    if depth(steps) > 32 {
        return Some(Refusal::StackTooDeep);
    }
    None
}

fn with_code(alloc: Global, method: &Method) -> Result<Compiled, Stop>
    ensures made { IfOk result (λ made. rules.IsCode method.now (rules.frame_of method.now) (rules.steps_of (rules.frame_of method.now) method.now) made) }
    ensures refused { IfErr result (λ stop. rules.IsCause (rules.code_refusal method.now (rules.frame_of method.now) (rules.steps_of (rules.frame_of method.now) method.now)) stop) }
{
    let literals = frame_of(alloc, method)?;
    let steps = steps_of(alloc, &literals, method)?;
    if let Some(why) = code_refusal(method, &literals, &steps) {
        return Err(Stop::Refused(why));
    }
    let code = spelled(alloc, &steps)?;
    Ok(Compiled {
        answers: Answers::Code,
        arguments: method.arguments,
        temporaries: method.temporaries,
        primitive: method.primitive,
        is_large: depth(&steps) > 12,
        sends_super: any_super(&steps),
        literals,
        code,
    })
}

fn without_code(alloc: Global, answers: Answers) -> Compiled
    ensures { rules.IsQuick answers result }
{
    Compiled {
        answers,
        arguments: 0,
        temporaries: 0,
        primitive: 0,
        is_large: false,
        sends_super: false,
        literals: Vec::new(alloc),
        code: Vec::new(alloc),
    }
}

/// A method's code and its literals, or the first reason why it has none.
pub fn compile(alloc: Global, method: &Method) -> Result<Compiled, Stop>
    ensures made { IfOk result (λ made. rules.IsCompiled (rules.answers_of method.now) method.now made) }
    ensures refused { IfErr result (λ stop. rules.IsCause (rules.refusal (rules.answers_of method.now) method.now) stop) }
{
    match answers_of(method) {
        Answers::Code => with_code(alloc, method),
        Answers::Receiver => Ok(without_code(alloc, Answers::Receiver)),
        Answers::Field(n) => Ok(without_code(alloc, Answers::Field(n))),
    }
}
