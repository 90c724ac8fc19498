//! Cases of the whole program, run and judged.
//!
//! A case is an image with what a run of so many bytecodes answers, role by role, from a reference machine that was written apart from this
//! program. `report_all` runs those of some files through `loom` over a host in memory: on the smallest machine that a case fits, on a
//! larger one and some of them on the largest; where it goes through, also with a purge and a compact before each bytecode. The answers have to be the
//! same. A line is printed for each case that can't be read or differs, and one for each file with the number of its cases, so nothing is
//! left out silently. The programs `loom_cases` and `primitive_cases` have the files. `fault_runs` reads cases by `case_of`, and runs them over
//! hosts of `host_of` that fail or lie; `file_cases` runs them over files, and judges them by `judge_answer`.
//!
//!     report_all(&rt, "data", &["runs.cases"], Largest::Eighth)?;
//!
//! Read `case` first: what the lines of a case say. Nothing is proved of it but that a difference is told exactly where there is one
//! (`difference`), and that it is safe.
//!
//! - Proved: That it is safe, that bytes are patched as a case says, and that two answers are told apart in each of their parts.
//! - Tested: By 77 cases that are wrong on purpose, which have to be seen.
//! - Not said: That every line of a case is used; a case that can't be read is told.
#![tactic(auto)]

mod answer;
mod case;
mod edits;
mod files;
mod paragraph;
mod pieces;
mod purges;
mod report;
mod run;
mod sizes;

pub use answer::Answer;
pub use case::{Case, case_of};
pub use report::{Largest, judge_answer, report_all};
pub use run::{DISPLAY, EVENTS, IMAGE, SAVED, WORK, Way, host_of, words_of};
pub use sizes::Sizes;
