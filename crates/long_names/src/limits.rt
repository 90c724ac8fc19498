// The limits of names, SmallIntegers, objects and records: each stands here once, and definitions and clauses cite it.

/// No object is made with the next name here or above.
pub const LAST_NAME: u32 = 4_294_967_294;

/// A SmallInteger is below this number, and its negative or above (chapter 30: 15 bits).
pub const SMALL_INTEGERS: u32 = 16_384;

/// The most values of an object of pointers, words of one of words, and bytes of one of bytes.
pub const MOST_FIELDS: u32 = 65_535;

/// The registers of a memory: the machine's first, and behind them scratch registers.
pub const REGISTERS: usize = 24;

/// Those of them that are the machine's.
pub const MACHINE_REGISTERS: usize = 10;

/// The slots for pinned objects.
pub const SLOTS: usize = 3;

/// The entries that an access takes beside those of the pinned objects: 24 for the registers, 2 for its object and the class of that, and
/// 25 for what a call holds on its way.
pub const ENTRIES_OF_A_CALL: u32 = 51;

/// From so many makings on since the last settling dead objects are freed where there is no room for one more.
pub const MAKINGS_BEFORE_FREEING: u32 = 8;

/// The most code bytes of a method.
pub const MOST_CODE: u32 = 16_000;

/// The most literals of a method, which its header counts with six bits.
pub const MOST_LITERALS: u32 = 63;

/// The most bytes that a record of an object takes in an image or in the work file.
pub const LONGEST_RECORD: u32 = 262_160;
