// The primitives by their numbers and the book's names (chapter 29), special selectors by their places, and bytecodes at which ranges end
// that are told apart before the table (chapter 28). Each number stands here once: tables of the model and of the code cite it.

// ---- arithmetic (chapter 29)

/// `+`
pub const PRIMITIVE_ADD: u8 = 1;

/// `-`
pub const PRIMITIVE_SUBTRACT: u8 = 2;

/// `<`
pub const PRIMITIVE_LESS_THAN: u8 = 3;

/// `>`
pub const PRIMITIVE_GREATER_THAN: u8 = 4;

/// `<=`
pub const PRIMITIVE_LESS_OR_EQUAL: u8 = 5;

/// `>=`
pub const PRIMITIVE_GREATER_OR_EQUAL: u8 = 6;

/// `=`
pub const PRIMITIVE_EQUAL: u8 = 7;

/// `~=`
pub const PRIMITIVE_NOT_EQUAL: u8 = 8;

/// `*`
pub const PRIMITIVE_MULTIPLY: u8 = 9;

/// `/`
pub const PRIMITIVE_DIVIDE: u8 = 10;

/// `\\`
pub const PRIMITIVE_MOD: u8 = 11;

/// `//`
pub const PRIMITIVE_DIV: u8 = 12;

/// `quo:`
pub const PRIMITIVE_QUO: u8 = 13;

/// `bitAnd:`
pub const PRIMITIVE_BIT_AND: u8 = 14;

/// `bitOr:`
pub const PRIMITIVE_BIT_OR: u8 = 15;

/// `bitXor:`
pub const PRIMITIVE_BIT_XOR: u8 = 16;

/// `bitShift:`
pub const PRIMITIVE_BIT_SHIFT: u8 = 17;

/// `@`
pub const PRIMITIVE_MAKE_POINT: u8 = 18;

// ---- arithmetic on large integers, which the book leaves to each system

/// `+`
pub const PRIMITIVE_LARGE_ADD: u8 = 21;

/// `-`
pub const PRIMITIVE_LARGE_SUBTRACT: u8 = 22;

/// `<`
pub const PRIMITIVE_LARGE_LESS_THAN: u8 = 23;

/// `>`
pub const PRIMITIVE_LARGE_GREATER_THAN: u8 = 24;

/// `<=`
pub const PRIMITIVE_LARGE_LESS_OR_EQUAL: u8 = 25;

/// `>=`
pub const PRIMITIVE_LARGE_GREATER_OR_EQUAL: u8 = 26;

/// `=`
pub const PRIMITIVE_LARGE_EQUAL: u8 = 27;

/// `~=`
pub const PRIMITIVE_LARGE_NOT_EQUAL: u8 = 28;

/// `*`
pub const PRIMITIVE_LARGE_MULTIPLY: u8 = 29;

/// `/`
pub const PRIMITIVE_LARGE_DIVIDE: u8 = 30;

/// `\\`
pub const PRIMITIVE_LARGE_MOD: u8 = 31;

/// `//`
pub const PRIMITIVE_LARGE_DIV: u8 = 32;

/// `quo:`
pub const PRIMITIVE_LARGE_QUO: u8 = 33;

/// `bitAnd:`
pub const PRIMITIVE_LARGE_BIT_AND: u8 = 34;

/// `bitOr:`
pub const PRIMITIVE_LARGE_BIT_OR: u8 = 35;

/// `bitXor:`
pub const PRIMITIVE_LARGE_BIT_XOR: u8 = 36;

/// `bitShift:`
pub const PRIMITIVE_LARGE_BIT_SHIFT: u8 = 37;

// ---- subscripts and streams

/// `at:`
pub const PRIMITIVE_AT: u8 = 60;

/// `at:put:`
pub const PRIMITIVE_AT_PUT: u8 = 61;

/// `size`
pub const PRIMITIVE_SIZE: u8 = 62;

/// `at: of a String`
pub const PRIMITIVE_STRING_AT: u8 = 63;

/// `at:put: of a String`
pub const PRIMITIVE_STRING_AT_PUT: u8 = 64;

/// `next`
pub const PRIMITIVE_NEXT: u8 = 65;

/// `nextPut:`
pub const PRIMITIVE_NEXT_PUT: u8 = 66;

/// `atEnd`
pub const PRIMITIVE_AT_END: u8 = 67;

// ---- storage management

/// `objectAt:`
pub const PRIMITIVE_OBJECT_AT: u8 = 68;

/// `objectAt:put:`
pub const PRIMITIVE_OBJECT_AT_PUT: u8 = 69;

/// `new`
pub const PRIMITIVE_NEW: u8 = 70;

/// `new:`
pub const PRIMITIVE_NEW_WITH_ARGUMENT: u8 = 71;

/// `become:`
pub const PRIMITIVE_BECOME: u8 = 72;

/// `instVarAt:`
pub const PRIMITIVE_INSTANCE_VARIABLE_AT: u8 = 73;

/// `instVarAt:put:`
pub const PRIMITIVE_INSTANCE_VARIABLE_AT_PUT: u8 = 74;

/// `asOop, and hash`
pub const PRIMITIVE_AS_OOP: u8 = 75;

/// `newMethod:header:`
pub const PRIMITIVE_NEW_METHOD: u8 = 79;

// ---- control: blocks, performs, processes and the method cache

/// `blockCopy:`
pub const PRIMITIVE_BLOCK_COPY: u8 = 80;

/// `value, value: and on`
pub const PRIMITIVE_VALUE: u8 = 81;

/// `valueWithArguments:`
pub const PRIMITIVE_VALUE_WITH_ARGUMENTS: u8 = 82;

/// `perform:, perform:with: and on`
pub const PRIMITIVE_PERFORM: u8 = 83;

/// `perform:withArguments:`
pub const PRIMITIVE_PERFORM_WITH_ARGUMENTS: u8 = 84;

/// `signal`
pub const PRIMITIVE_SIGNAL: u8 = 85;

/// `wait`
pub const PRIMITIVE_WAIT: u8 = 86;

/// `resume`
pub const PRIMITIVE_RESUME: u8 = 87;

/// `suspend`
pub const PRIMITIVE_SUSPEND: u8 = 88;

/// `flushCache`
pub const PRIMITIVE_FLUSH_CACHE: u8 = 89;

// ---- input and output

/// `primInputSemaphore:`
pub const PRIMITIVE_INPUT_SEMAPHORE: u8 = 93;

/// `primInputWord`
pub const PRIMITIVE_INPUT_WORD: u8 = 95;

/// `copyBits`
pub const PRIMITIVE_COPY_BITS: u8 = 96;

/// `snapshotPrimitive`
pub const PRIMITIVE_SNAPSHOT: u8 = 97;

/// `timeWordsInto:`
pub const PRIMITIVE_TIME_WORDS_INTO: u8 = 99;

/// `signal:atTick:`
pub const PRIMITIVE_SIGNAL_AT_TICK: u8 = 100;

/// `beDisplay`
pub const PRIMITIVE_BE_DISPLAY: u8 = 102;

// ---- the system

/// `==`
pub const PRIMITIVE_EQUIVALENT: u8 = 110;

/// `class`
pub const PRIMITIVE_CLASS: u8 = 111;

/// `quit`
pub const PRIMITIVE_QUIT: u8 = 113;

// ---- the transcript, which the book doesn't number

/// A String is said on the transcript.
pub const PRIMITIVE_SAY_STRING: u8 = 128;

// ---- special selectors, by their places in the array of them. The first sixteen are those of arithmetic

/// How many are of arithmetic. Behind them stand `at:`, `at:put:`, `size`, `next`, `nextPut:` and `atEnd`.
pub const SPECIAL_AT: u32 = 16;

/// `==`
pub const SPECIAL_EQUIVALENT: u32 = 22;

/// `class`
pub const SPECIAL_CLASS: u32 = 23;

/// `blockCopy:`
pub const SPECIAL_BLOCK_COPY: u32 = 24;

/// `value`
pub const SPECIAL_VALUE: u32 = 25;

/// `value:`
pub const SPECIAL_VALUE_WITH_ARGUMENT: u32 = 26;

/// `do:`, behind which stand `new`, `new:`, `x` and `y`.
pub const SPECIAL_DO: u32 = 27;

// ---- bytecodes

/// The last that pushes, or stores and pops, in one byte.
pub const LAST_PUSH: u8 = 119;

/// The first of two that are unused.
pub const FIRST_UNUSED: u8 = 126;

/// `extendedStoreAndPopBytecode`
pub const LAST_EXTENDED_STORE: u8 = 130;

/// `popStackBytecode`
pub const POP_STACK: u8 = 135;

/// The last of `shortUnconditionalJump`.
pub const LAST_SHORT_JUMP: u8 = 151;

/// The first of `longUnconditionalJump`.
pub const FIRST_LONG_JUMP: u8 = 160;

/// The last of `longUnconditionalJump`.
pub const LAST_LONG_JUMP: u8 = 167;
