//! Methods disassembled: the bytes of a method's code as instructions, and in the Blue Book's words.
//!
//! `decode` says which instruction begins at a byte, and `lines` has a method's code instruction by instruction. `put_instruction`
//! puts one in words, with the literals that it names and the place that it jumps to; `put_method` has a whole method:
//!
//!     method Integer>>factorial: no arguments, ..
//!       6  70        push receiver
//!       7  77        push 2
//!       8  b2        send #<, 1 argument
//!       9  ac 02     pop and jump to 13 on false
//!
//! Bytes are numbered as the machine numbers them: the first of a method with n literals has the number 2 (n + 1).
//!
//! - Proved: What `decode` answers is the table of `specs/Decoding.antt` (chapter 28 of the Blue Book); the lines of a method cover its
//!   code, each byte once.
//! - Tested: The words of all 256 bytes (`st80_tests`).
//! - Not said: The words.
#![tactic(auto)]

mod decoding;
mod instruction;
mod special;
mod words;

pub use decoding::{decode, lines};
pub use instruction::{Constant, Instruction, Line, Place};
pub use special::{special_arguments, special_selector};
pub use words::{code_of, first_pointer, put_instruction, put_method, put_method_line};
