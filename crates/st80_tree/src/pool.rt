// The first numbers of every pool of literals: the selectors that code has bytecodes or jumps for, and small integers.

/// So many selectors begin every pool.
pub const SELECTORS: u32 = 42;
/// The number of 0 in every pool. 1 and the others up to 31 follow.
pub const FIRST_INTEGER: u32 = 42;
/// So many integers, from 0 on, stand behind the selectors.
pub const INTEGERS: u32 = 32;

/// The selectors at the head of every pool: those of chapter 28 that have a bytecode of their own, in its order, and then those
/// that are compiled to jumps where their arguments are literal blocks.
pub fn name_of(selector: u32) -> Option<&'static str> {
    let name = match selector {
        0 => "+",
        1 => "-",
        2 => "<",
        3 => ">",
        4 => "<=",
        5 => ">=",
        6 => "=",
        7 => "~=",
        8 => "*",
        9 => "/",
        10 => "\\\\",
        11 => "@",
        12 => "bitShift:",
        13 => "//",
        14 => "bitAnd:",
        15 => "bitOr:",
        16 => "at:",
        17 => "at:put:",
        18 => "size",
        19 => "next",
        20 => "nextPut:",
        21 => "atEnd",
        22 => "==",
        23 => "class",
        24 => "blockCopy:",
        25 => "value",
        26 => "value:",
        27 => "do:",
        28 => "new",
        29 => "new:",
        30 => "x",
        31 => "y",
        32 => "ifTrue:",
        33 => "ifFalse:",
        34 => "ifTrue:ifFalse:",
        35 => "ifFalse:ifTrue:",
        36 => "and:",
        37 => "or:",
        38 => "whileTrue:",
        39 => "whileFalse:",
        40 => "whileTrue",
        41 => "whileFalse",
        _ => return None,
    };
    Some(name)
}

/// How many arguments a selector at the head of a pool has.
pub fn arguments_of(selector: u32) -> u8 {
    match selector {
        17 | 34 | 35 => 2,
        18 | 19 | 21 | 23 | 25 | 28 | 30 | 31 | 40 | 41 => 0,
        _ => 1,
    }
}
