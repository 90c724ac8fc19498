// The names of a generated image's objects as long words: the known objects, and its own, even numbers from 60 on in this order,
// without a gap.

pub const NIL: u32 = 2;

pub const FALSE: u32 = 4;

pub const TRUE: u32 = 6;

pub const SCHEDULER_ASSOCIATION: u32 = 8;

pub const SMALL_INTEGER: u32 = 12;

pub const STRING: u32 = 14;

pub const ARRAY: u32 = 16;

pub const METHOD_CONTEXT: u32 = 22;

pub const BLOCK_CONTEXT: u32 = 24;

pub const POINT: u32 = 26;

pub const LARGE_POSITIVE_INTEGER: u32 = 28;

pub const DISPLAY_BITMAP: u32 = 30;

pub const MESSAGE: u32 = 32;

pub const COMPILED_METHOD: u32 = 34;

pub const SEMAPHORE: u32 = 38;

pub const CHARACTER: u32 = 40;

pub const DOES_NOT_UNDERSTAND: u32 = 42;

pub const CANNOT_RETURN: u32 = 44;

pub const SPECIAL_SELECTORS: u32 = 48;

pub const CHARACTER_TABLE: u32 = 50;

pub const MUST_BE_BOOLEAN: u32 = 52;

pub const LARGE_NEGATIVE_INTEGER: u32 = 58;

/// The process scheduler.
pub const SCHEDULER: u32 = 60;

/// The lists of waiting processes, one for each priority.
pub const LISTS: u32 = 62;

pub const LIST_1: u32 = 64;

pub const LIST_2: u32 = 66;

pub const LIST_3: u32 = 68;

pub const LIST_4: u32 = 70;

/// The semaphore that the second process waits on.
pub const SEMAPHORE_2: u32 = 72;

/// The semaphore that the third process waits on.
pub const SEMAPHORE_3: u32 = 74;

pub const PROCESS_1: u32 = 76;

pub const PROCESS_2: u32 = 78;

pub const PROCESS_3: u32 = 80;

/// The contexts of the three processes.
pub const CONTEXT_1: u32 = 82;

pub const CONTEXT_2: u32 = 84;

pub const CONTEXT_3: u32 = 86;

/// The methods of the three contexts.
pub const METHOD_1: u32 = 88;

pub const METHOD_2: u32 = 90;

pub const METHOD_3: u32 = 92;

/// The method dictionary of every class.
pub const DICTIONARY: u32 = 94;

/// The dictionary's array of methods.
pub const METHODS: u32 = 96;

/// The selectors of the messages.
pub const AT: u32 = 98;

pub const AT_PUT: u32 = 100;

pub const SIZE: u32 = 102;

pub const NEW: u32 = 104;

pub const NEXT: u32 = 106;

pub const NEXT_PUT: u32 = 108;

pub const AT_END: u32 = 110;

pub const SIGNAL: u32 = 112;

pub const WAIT: u32 = 114;

pub const COPY_BITS: u32 = 116;

pub const BE_DISPLAY: u32 = 118;

pub const SHOW: u32 = 120;

/// The methods of the messages, in the order of their selectors.
pub const AT_METHOD: u32 = 122;

pub const AT_PUT_METHOD: u32 = 124;

pub const SIZE_METHOD: u32 = 126;

pub const NEW_METHOD: u32 = 128;

pub const NEXT_METHOD: u32 = 130;

pub const NEXT_PUT_METHOD: u32 = 132;

pub const AT_END_METHOD: u32 = 134;

pub const SIGNAL_METHOD: u32 = 136;

pub const WAIT_METHOD: u32 = 138;

pub const COPY_BITS_METHOD: u32 = 140;

pub const BE_DISPLAY_METHOD: u32 = 142;

pub const SHOW_METHOD: u32 = 144;

/// The form that is the display.
pub const FORM: u32 = 146;

/// The form's bits.
pub const BITS: u32 = 148;

/// The rectangle that the second process inverts.
pub const BIT_BLT: u32 = 150;

/// The stream that the third process writes to.
pub const STREAM: u32 = 152;

/// The stream's string.
pub const BUFFER: u32 = 154;

/// What the third process says.
pub const TICK: u32 = 156;

/// The character 0. The others follow it.
pub const FIRST_CHARACTER: u32 = 158;

/// How many characters there are.
pub const CHARACTERS: u32 = 256;

/// The character 42.
pub const STAR: u32 = FIRST_CHARACTER + 2 * 42;

/// The node 0. The others follow it.
pub const FIRST_NODE: u32 = FIRST_CHARACTER + 2 * CHARACTERS;
