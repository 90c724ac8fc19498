// The tree of a method. Each variant is a rule of the grammar; lists have what comes before, and then their last part.
use st80_syntax::Token;

/// An expression.
#[cycle(tree)]
#[derive(Drop)]
pub enum Expr {
    /// A variable, or one of self, super, true, false, nil and thisContext.
    Name(Token),
    /// An integer, a character, a string or a symbol.
    Literal(Token),
    /// A minus and an integer.
    Negative(Token, Token),
    Array(Token, Elements, Token),
    Group(Token, Box<Expr>, Token),
    Block(Token, Header, Box<Steps>, Box<Last>, Token),
    Assign(Token, Token, Box<Expr>),
    Unary(Box<Expr>, Token),
    Binary(Box<Expr>, Token, Box<Expr>),
    Keyword(Box<Expr>, Box<Parts>),
    /// A message, and others to its receiver.
    Cascade(Box<Expr>, Box<Others>),
}

/// Keywords with their arguments.
#[cycle(tree)]
#[derive(Drop)]
pub enum Parts {
    Start,
    Part(Box<Parts>, Token, Box<Expr>),
}

/// The messages of a cascade behind its first, each behind a semicolon.
#[cycle(tree)]
#[derive(Drop)]
pub enum Others {
    Start,
    Unary(Box<Others>, Token, Token),
    Binary(Box<Others>, Token, Token, Box<Expr>),
    Keyword(Box<Others>, Token, Box<Parts>),
}

/// Statements, each with the period behind it.
#[cycle(tree)]
#[derive(Drop)]
pub enum Steps {
    Start,
    Step(Box<Steps>, Box<Expr>, Token),
}

/// What stands behind the last period of statements.
#[cycle(tree)]
#[derive(Drop)]
pub enum Last {
    Nothing,
    Value(Box<Expr>),
    /// `^` and an expression.
    Return(Token, Box<Expr>),
    /// The same with a period behind it.
    Closed(Token, Box<Expr>, Token),
}

/// What stands in a literal array: a minus before an integer, and keywords one after another, are tokens of their own.
#[derive(Drop)]
pub enum Elements {
    Start,
    One(Box<Elements>, Token),
    Nested(Box<Elements>, Token, Box<Elements>, Token),
}

/// Keywords or colons, each with a name.
#[derive(Drop)]
pub enum Pairs {
    Start,
    Pair(Box<Pairs>, Token, Token),
}

/// The arguments of a block, and the bar behind them.
#[derive(Drop)]
pub enum Header {
    Nothing,
    Of(Pairs, Token),
}

#[derive(Drop)]
pub enum Names {
    Start,
    Name(Box<Names>, Token),
}

/// The temporaries of a method, between bars.
#[derive(Drop)]
pub enum Temporaries {
    Nothing,
    Of(Token, Names, Token),
}

/// `<primitive: n>`. What stands for the signs and the word is any binary selector and any keyword.
#[derive(Drop)]
pub enum Primitive {
    Nothing,
    Of(Token, Token, Token, Token),
}

/// The selector and the arguments of a method. Statements by themselves have none.
#[derive(Drop)]
pub enum Pattern {
    Nothing,
    Unary(Token),
    Binary(Token, Token),
    Keyword(Pairs),
}

/// A method, or statements by themselves.
#[derive(Drop)]
pub struct Method {
    pub pattern: Pattern,
    pub temporaries: Temporaries,
    pub primitive: Primitive,
    pub steps: Steps,
    pub last: Last,
}
