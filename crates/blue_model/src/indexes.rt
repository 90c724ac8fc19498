// The fields of the interpreter's objects by their numbers, and how many they have at least in this profile. Each number stands here
// once, and definitions and clauses cite it.

// ---- associations (chapter 27)

pub const VALUE_INDEX: u32 = 1;

pub const ASSOCIATION_SIZE: u32 = 2;

// ---- the scheduler, processes and semaphores (chapter 29)

pub const PROCESS_LISTS_INDEX: u32 = 0;

pub const ACTIVE_PROCESS_INDEX: u32 = 1;

pub const SCHEDULER_SIZE: u32 = 2;

/// The first process of a list, which a semaphore is too.
pub const FIRST_LINK_INDEX: u32 = 0;
/// And the last.
pub const LAST_LINK_INDEX: u32 = 1;

pub const EXCESS_SIGNALS_INDEX: u32 = 2;

pub const SEMAPHORE_SIZE: u32 = 3;

/// The process behind this one on a list.
pub const NEXT_LINK_INDEX: u32 = 0;

pub const SUSPENDED_CONTEXT_INDEX: u32 = 1;

pub const PRIORITY_INDEX: u32 = 2;

pub const MY_LIST_INDEX: u32 = 3;

pub const PROCESS_SIZE: u32 = 4;

// ---- contexts (chapter 27)

/// Of a block context it is the caller.
pub const SENDER_INDEX: u32 = 0;

pub const INSTRUCTION_POINTER_INDEX: u32 = 1;

pub const STACK_POINTER_INDEX: u32 = 2;

/// Of a block context.
pub const CALLER_INDEX: u32 = 0;

/// Of a method context; of a block context it is the number of its arguments.
pub const METHOD_INDEX: u32 = 3;

pub const BLOCK_ARGUMENT_COUNT_INDEX: u32 = 3;

/// Of a block context: its instruction pointer before its first byte.
pub const INITIAL_IP_INDEX: u32 = 4;

/// Of a method context.
pub const RECEIVER_INDEX: u32 = 5;

/// Of a block context.
pub const HOME_INDEX: u32 = 5;

/// The fields before it are in every context.
pub const TEMP_FRAME_START: u32 = 6;

/// The stack pointer of an empty stack: the field before the first of the stack.
pub const EMPTY_STACK: u32 = 5;

/// The two sizes of a method context.
pub const SMALL_CONTEXT_SIZE: u32 = 18;

pub const LARGE_CONTEXT_SIZE: u32 = 38;

// ---- streams (chapter 29)

pub const STREAM_ARRAY_INDEX: u32 = 0;

pub const STREAM_INDEX_INDEX: u32 = 1;

pub const STREAM_READ_LIMIT_INDEX: u32 = 2;

pub const STREAM_WRITE_LIMIT_INDEX: u32 = 3;

pub const STREAM_SIZE: u32 = 4;

// ---- points and characters (chapters 27 and 29)

pub const X_INDEX: u32 = 0;

pub const Y_INDEX: u32 = 1;

pub const POINT_SIZE: u32 = 2;

pub const CHARACTER_VALUE_INDEX: u32 = 0;

// ---- forms and BitBlts (chapter 18)

pub const BITS_INDEX: u32 = 0;

pub const WIDTH_INDEX: u32 = 1;

pub const HEIGHT_INDEX: u32 = 2;

pub const FORM_SIZE: u32 = 3;

pub const DEST_FORM_INDEX: u32 = 0;

pub const SOURCE_FORM_INDEX: u32 = 1;

pub const HALFTONE_FORM_INDEX: u32 = 2;

pub const COMBINATION_RULE_INDEX: u32 = 3;

pub const DEST_X_INDEX: u32 = 4;

pub const DEST_Y_INDEX: u32 = 5;

pub const BLIT_WIDTH_INDEX: u32 = 6;

pub const BLIT_HEIGHT_INDEX: u32 = 7;

pub const SOURCE_X_INDEX: u32 = 8;

pub const SOURCE_Y_INDEX: u32 = 9;

pub const CLIP_X_INDEX: u32 = 10;

pub const CLIP_Y_INDEX: u32 = 11;

pub const CLIP_WIDTH_INDEX: u32 = 12;

pub const CLIP_HEIGHT_INDEX: u32 = 13;

pub const BITBLT_SIZE: u32 = 14;

// ---- messages (chapter 27)

pub const MESSAGE_SELECTOR_INDEX: u32 = 0;

pub const MESSAGE_ARGUMENTS_INDEX: u32 = 1;

pub const MESSAGE_SIZE: u32 = 2;

// ---- classes and dictionaries (chapter 27)

pub const SUPERCLASS_INDEX: u32 = 0;

pub const METHOD_DICTIONARY_INDEX: u32 = 1;

pub const INSTANCE_SPECIFICATION_INDEX: u32 = 2;

pub const CLASS_SIZE: u32 = 3;

pub const METHOD_ARRAY_INDEX: u32 = 1;
/// The first field of a dictionary's selectors.
pub const SELECTOR_START: u32 = 2;

pub const DICTIONARY_SIZE: u32 = 3;
