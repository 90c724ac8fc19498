// The tree of a method.

/// A variable, by where it is.
#[derive(Clone, Copy, Debug, PartialEq, Eq)]
pub enum Variable {
    /// A temporary of the method: its arguments first, then its temporaries and the arguments of its blocks.
    Temporary(u8),
    /// A variable of the receiver, by the number of its field.
    Instance(u8),
    /// A variable of a class or a pool, or a global: the number of its association in the pool of literals.
    Shared(u32),
}

/// A value that code has without a literal.
#[derive(Clone, Copy, Debug, PartialEq, Eq)]
pub enum Constant {
    Receiver,
    True,
    False,
    Nil,
    MinusOne,
    Zero,
    One,
    Two,
}

/// An expression (chapter 26). Selectors and literals stand as their numbers in the pool of literals.
#[cycle(tree)]
#[derive(Drop)]
pub enum Node {
    /// self, true, false, nil, or a number from -1 to 2.
    Constant(Constant),
    /// thisContext.
    Context,
    Literal(u32),
    Variable(Variable),
    Assign(Variable, Box<Node>),
    /// A message. One to super has self for its receiver.
    Send {
        to_super: bool,
        receiver: Box<Node>,
        selector: u32,
        arguments: Box<Nodes>,
    },
    /// Messages to the value of one expression.
    Cascade {
        to_super: bool,
        receiver: Box<Node>,
        messages: Box<Messages>,
    },
    /// A block whose arguments are so many temporaries from the first one on.
    Block {
        first: u8,
        count: u8,
        body: Box<Statements>,
    },
    /// `first` where the test comes to `on`, and otherwise `second`: ifTrue:ifFalse: and its like, and:, or:.
    Choice {
        on: bool,
        test: Box<Node>,
        first: Box<Statements>,
        second: Box<Statements>,
    },
    /// The body, as often as the test comes to `on`: whileTrue: and its like.
    Loop {
        on: bool,
        test: Box<Statements>,
        body: Box<Statements>,
    },
}

/// The arguments of a message, in order.
#[cycle(tree)]
#[derive(Drop)]
pub enum Nodes {
    End,
    More(Box<Node>, Box<Nodes>),
}

/// The messages of a cascade, in order: at least one.
#[cycle(tree)]
#[derive(Drop)]
pub enum Messages {
    Last {
        selector: u32,
        arguments: Box<Nodes>,
    },
    Then {
        selector: u32,
        arguments: Box<Nodes>,
        rest: Box<Messages>,
    },
}

/// Statements in order, of a method or a block.
#[cycle(tree)]
#[derive(Drop)]
pub enum Statements {
    /// No more of them: a method answers self, and a block nil.
    Done,
    /// The last of a block, whose value the block answers.
    Value(Box<Node>),
    /// `^`: the method answers the value.
    Return(Box<Node>),
    Step(Box<Node>, Box<Statements>),
}

/// A method. Its temporaries are all that its statements name, with its arguments and those of its blocks among them.
#[derive(Drop)]
pub struct Method {
    pub arguments: u8,
    pub temporaries: u8,
    /// The number of its primitive; 0 is none.
    pub primitive: u8,
    pub body: Box<Statements>,
}
