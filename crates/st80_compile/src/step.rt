// Instructions.
use st80_tree::Constant;

/// What an instruction pushes, or stores into.
#[derive(Clone, Copy, Debug, PartialEq, Eq)]
pub enum Place {
    /// A field of the receiver.
    OfReceiver(u8),
    /// A temporary.
    OfHome(usize),
    /// A literal.
    OfFrame(usize),
    /// The value of the association that is a literal.
    OfAssociation(usize),
}

/// An instruction (chapter 28), with numbers that may be too large for one. A distance is counted from the byte behind a jump.
#[derive(Clone, Copy, Debug, PartialEq, Eq)]
pub enum Op {
    Push(Place),
    PushConstant(Constant),
    PushContext,
    Store(Place),
    StorePop(Place),
    Pop,
    Duplicate,
    /// The send of a literal.
    Message {
        to_super: bool,
        literal: usize,
        arguments: u8,
    },
    /// The send of a selector that has a bytecode of its own.
    Special(u32),
    Jump(usize),
    /// A jump over the code of a block, which has two bytes always.
    Over(usize),
    Back(usize),
    /// Pops, and jumps where that isn't `on`.
    Branch {
        on: bool,
        distance: usize,
    },
    ReturnConstant(Constant),
    ReturnTop,
    ReturnFromBlock,
}

/// An instruction, and how many fields behind a context's first six are in use before it.
#[derive(Clone, Copy, Debug, PartialEq, Eq)]
pub struct Step {
    pub height: u8,
    pub op: Op,
}
