// What the kinds of tokens do where an expression may begin, where it may go on, and in a literal array.
ghost use Rattle.std.specs.Prelude.{◌≡◌};
ghost use Rattle.st80_parser.specs.Kinds as spec;

use st80_syntax::Kind;

/// What begins with a token.
#[derive(Clone, Copy, Debug, PartialEq, Eq)]
pub enum Opening {
    Name,
    Literal,
    Minus,
    Array,
    Group,
    Block,
}

/// How a token goes on with an expression that stands before it.
#[derive(Clone, Copy, Debug, PartialEq, Eq)]
pub enum Joint {
    Name,
    Operator,
    Keyword,
    Semicolon,
    Assign,
    Nothing,
}

/// What a token is in a literal array.
#[derive(Clone, Copy, Debug, PartialEq, Eq)]
pub enum Item {
    One,
    Nested,
}

/// What begins with a token of this kind.
#[tactic(auto, unfolding(crate::specs::Kinds::opening_of))]
pub(crate) fn opening_of(kind: Kind) -> Option<Opening>
    ensures { result ≡ spec.opening_of kind }
{
    match kind {
        Kind::Name => Some(Opening::Name),
        Kind::Integer | Kind::Character | Kind::Text | Kind::Symbol => Some(Opening::Literal),
        Kind::Minus => Some(Opening::Minus),
        Kind::OpenArray => Some(Opening::Array),
        Kind::Open => Some(Opening::Group),
        Kind::OpenBlock => Some(Opening::Block),
        _ => None,
    }
}

/// How a token of this kind goes on with an expression.
#[tactic(auto, unfolding(crate::specs::Kinds::joint_of))]
pub(crate) fn joint_of(kind: Kind) -> Joint
    ensures { result ≡ spec.joint_of kind }
{
    match kind {
        Kind::Name => Joint::Name,
        Kind::Binary | Kind::Minus | Kind::Bar => Joint::Operator,
        Kind::Keyword => Joint::Keyword,
        Kind::Semicolon => Joint::Semicolon,
        Kind::Assign => Joint::Assign,
        _ => Joint::Nothing,
    }
}

/// What a token of this kind is in a literal array.
#[tactic(auto, unfolding(crate::specs::Kinds::item_of))]
pub(crate) fn item_of(kind: Kind) -> Option<Item>
    ensures { result ≡ spec.item_of kind }
{
    match kind {
        Kind::OpenArray | Kind::Open => Some(Item::Nested),
        Kind::Name
        | Kind::Keyword
        | Kind::Binary
        | Kind::Minus
        | Kind::Bar
        | Kind::Integer
        | Kind::Character
        | Kind::Text
        | Kind::Symbol => Some(Item::One),
        _ => None,
    }
}

/// Whether two kinds are one.
pub(crate) fn same_kind(a: Kind, b: Kind) -> bool
    ensures { result ≡ spec.same_kind a b }
{
    a == b
}

/// Whether two joints are one.
pub(crate) fn same_joint(a: Joint, b: Joint) -> bool
    ensures { result ≡ spec.same_joint a b }
{
    a == b
}
