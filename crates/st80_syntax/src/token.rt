// A token is a kind, a place and a length.

/// What a piece of a text is.
#[derive(Clone, Copy, Debug, PartialEq, Eq)]
pub enum Kind {
    /// Blanks, or a remark. No token is of this kind.
    Space,
    /// A letter, and letters and digits behind it.
    Name,
    /// A name and a colon.
    Keyword,
    /// One or two special characters.
    Binary,
    /// `-` by itself.
    Minus,
    /// `|`
    Bar,
    /// Digits, or a radix, `r` and digits.
    Integer,
    /// `$` and a character.
    Character,
    /// What stands between quotes, with each quote in it twice.
    Text,
    /// `#` and a name, keywords or special characters.
    Symbol,
    /// `#(`
    OpenArray,
    Open,
    Close,
    OpenBlock,
    CloseBlock,
    /// `_` or `:=`
    Assign,
    /// `^`
    Return,
    Colon,
    Semicolon,
    Period,
    /// What stands behind the last token.
    End,
}

/// A token: its place in the text, and how many bytes it has.
#[derive(Clone, Copy, Debug, PartialEq, Eq)]
pub struct Token {
    pub kind: Kind,
    pub at: usize,
    pub len: usize,
}

/// Why no rule takes what stands at a place.
#[derive(Clone, Copy, Debug, PartialEq, Eq)]
pub enum Fault {
    /// No token begins with this character.
    Foreign,
    /// A remark without its second `"`.
    Remark,
    /// A `$` with nothing behind it.
    Character,
    /// A string without its last quote.
    Text,
    /// A `#` with nothing behind it that a symbol has.
    Symbol,
    /// A radix without digits.
    Radix,
    /// A number with a point or an exponent.
    Float,
}
