// The limits of the machine, and the flags of a method's header. Each number stands here once, and definitions and clauses cite it.

/// The highest stack pointer: as many values as the greatest SmallInteger, and the fields before them.
pub const FULL_STACK: u32 = 16_388;

/// The highest number of a byte of code, behind which an instruction pointer can be stated by a SmallInteger.
pub const LAST_BYTE: u32 = 16_381;

/// The most classes that a lookup visits.
pub const LONGEST_CHAIN: u32 = 1024;

/// The most bytes of a large integer.
pub const LARGE_BYTES: u32 = 16;

/// A large integer is from -(2 to this power) to 2 to this power less 1.
pub const LARGE_BITS: u32 = 127;

/// The serial number under which nothing more is kept: the last one of a checkpoint.
pub const LAST_SERIAL: u64 = 4_611_686_018_427_387_903;

/// The greatest count of lines, words or bytecodes: what has counted so far stands still at it.
pub const GREATEST_COUNT: u32 = 4_294_967_295;

/// The most arguments of a message.
pub const MOST_ARGUMENTS: u32 = 255;

/// How many combination rules there are (chapter 18).
pub const COMBINATION_RULES: u32 = 16;

// ---- the flag of a method's header (chapter 27, compiled methods). Below these it is the number of arguments

/// The method answers its receiver.
pub const SELF_FLAG: u32 = 5;

/// The method answers a field of its receiver.
pub const FIELD_FLAG: u32 = 6;

/// The literal before the last is the header extension.
pub const EXTENSION_FLAG: u32 = 7;

// ---- the parts of a method's header

/// The flag counts so many.
pub const FLAG_UNIT: u32 = 4096;

/// The number of temporaries counts so many.
pub const TEMPORARIES_UNIT: u32 = 128;

/// A method whose context is large has this bit.
pub const LARGE_CONTEXT_BIT: u32 = 64;

// ---- the instance specification of a class (chapter 27, classes)

/// The instances have pointers.
pub const POINTERS_BIT: u32 = 16_384;

/// Elements that aren't pointers are words, and not bytes.
pub const WORDS_BIT: u32 = 8192;

/// The instances have indexable elements.
pub const INDEXABLE_BIT: u32 = 4096;

/// How many fixed fields there are is below this number.
pub const FIXED_FIELDS: u32 = 2048;
