// Instructions.

/// What a push takes and a store changes, with its number.
#[derive(Clone, Copy, Debug, PartialEq, Eq)]
pub enum Place {
    ReceiverVariable(u8),
    Temporary(u8),
    Literal(u8),
    LiteralVariable(u8),
}

/// What is pushed or returned without a number.
#[derive(Clone, Copy, Debug, PartialEq, Eq)]
pub enum Constant {
    Receiver,
    True,
    False,
    Nil,
    MinusOne,
    Zero,
    One,
    Two,
}

/// An instruction (chapter 28). A distance is counted from the byte behind the instruction.
#[derive(Clone, Copy, Debug, PartialEq, Eq)]
pub enum Instruction {
    Push(Place),
    Store(Place),
    StoreAndPop(Place),
    PushConstant(Constant),
    PushActiveContext,
    Pop,
    Duplicate,
    Return(Constant),
    ReturnTop,
    ReturnTopFromBlock,
    Jump(i16),
    JumpOnTrue(i16),
    JumpOnFalse(i16),
    Send { literal: u8, arguments: u8 },
    SendSuper { literal: u8, arguments: u8 },
    /// A selector of object 48, by its number there.
    SendSpecial(u8),
    /// No instruction has this byte, or stores into a literal.
    Unused,
    /// The code ends within the instruction.
    Cut,
}

/// An instruction, where it begins among the bytes of the code, and how many it has.
#[derive(Clone, Copy, Debug, PartialEq, Eq)]
pub struct Line {
    pub at: usize,
    pub len: usize,
    pub instruction: Instruction,
}
