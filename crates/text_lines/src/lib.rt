//! Images as text, line by line: the parts of a line and what they spell, what each line states, and what holds of whole texts.
//!
//! Single spaces set the parts of a line apart; they spell numbers, values, words, bytes and kinds. The first line states the next name
//! and the machine's state, and every other line an object. `head_in` and `object_in` read a line without its end, and answer None exactly
//! where it breaks the grammar. They take memory for what the line states. Read `specs/Parts.antt`, `Grammar.antt` and `Breaks.antt` on
//! what is read, and `PartSpelling.antt`, `Spelling.antt` and `Texts.antt` on what is spelled. Neither half cites the other. The laws in
//! `part_laws`, `line_laws` and `text_laws` tie them: each part, each line and each text is read back as it is spelled, and has one
//! spelling. So `text_break` is None exactly for the texts of images, and a text is that of one heap and one state.
//!
//! - Proved: What each part is read as, what the first line of a text states and what the line of an object states; None exactly where a
//!   line breaks the grammar; as laws, that each part, line and text is read back as it is spelled and has one spelling.
//! - Tested: By the texts of `text_tests`.
//! - Not said: That out of memory has a cause.
#![tactic(auto)]

mod contents;
mod limits;
mod line;
pub mod line_laws;
mod numbers;
pub mod part_laws;
mod parts;
pub mod text_laws;

pub use limits::LONGEST_LINE;
pub use line::{Head, Stated, head_in, object_in};
pub use numbers::{byte_in, kind_in, long_in, name_in, number_in, small_in, value_in, word_in};
pub use parts::{Parts, first_part};
