// The selectors that have a bytecode of their own (chapter 28), as an image has them in object 48 if it has any there.

/// Special selector i, as the Blue Book has it: + at 0, y at 31.
pub fn special_selector(i: u8) -> &'static str {
    match i {
        0 => "+",
        1 => "-",
        2 => "<",
        3 => ">",
        4 => "<=",
        5 => ">=",
        6 => "=",
        7 => "~=",
        8 => "*",
        9 => "/",
        10 => "\\\\",
        11 => "@",
        12 => "bitShift:",
        13 => "//",
        14 => "bitAnd:",
        15 => "bitOr:",
        16 => "at:",
        17 => "at:put:",
        18 => "size",
        19 => "next",
        20 => "nextPut:",
        21 => "atEnd",
        22 => "==",
        23 => "class",
        24 => "blockCopy:",
        25 => "value",
        26 => "value:",
        27 => "do:",
        28 => "new",
        29 => "new:",
        30 => "x",
        31 => "y",
        _ => "?",
    }
}

/// How many arguments special selector i has.
pub fn special_arguments(i: u8) -> u8 {
    match i {
        17 => 2,
        18 | 19 | 21 | 23 | 25 | 28 | 30 | 31 => 0,
        _ => 1,
    }
}
