//! What is wrong with a program in Smalltalk, in words for people.
//!
//! `said_of` names the file, the line, the column and what could stand there, and shows the line with a mark below the place:
//!
//!     factorial.st:3:1: unknown name; is Transcript meant?
//!     Transcrpt show: 20 factorial printString; cr
//!     ^
//!
//! - Proved: It is safe and returns. What is said begins with the file, the line and the column of the place.
//! - Tested: What is said (`tests/build.sh`).
//! - Not said: The texts.
#![tactic(auto)]

mod words;

pub use words::{Source, expected_words, fault_words, refusal_words, said_at, said_of};
