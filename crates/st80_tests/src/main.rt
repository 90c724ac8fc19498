//! Tests of the desk's crates, as data: the files beside it say what is asked, and what has to come.
//!
//! ```text
//! st80_tests                          the files of its own, where it runs
//! st80_tests show IMAGE [WORD..]      what a command of a case puts; also diff A B, check IMAGE, sums TEXT, png FILE TIMES OUT,
//!                                     pbm FILE TIMES OUT, blocks FILE COLUMNS, text FILE, image FILE RULE PLACE, stuck FILE CAUSE,
//!                                     events FILE LINE, kind FILE, nearest WORD WORD..
//! ```
//!
//! `bytecodes.table` has a line for each bytecode and each of its forms: the bytes, ` = `, and the instruction in words. Its method has
//! the literals of `words.loom`. `breaks.table` has lines `EDIT.. = RULE PLACE`: what the base image breaks once it is edited, by
//! `OFFSET:HEX` and `cut:LENGTH`; the answers are the reference machine's. `texts.table` has a change of the base text in each row, with the
//! line, the rule and the column at which it breaks first; lines and rules are those of `text_tests`. `shown.cases` and `answers.cases` have
//! commands behind `== `, each with the lines that it puts.
//!
//! A line is printed for each row that comes otherwise, and one for each file with the number of its rows.
//!
//! - Proved: That it is safe.
//! - Tested: It is a test.
//! - Not said: Nothing else.
#![tactic(auto)]

mod answers;
mod breaks;
mod commands;
mod explained;
mod report;
mod texts;

use crate::commands::put_command;
use crate::report::{Table, report_cases, report_rows};
use crate::texts::report_texts;
use anyhow::Result;
use std::env;

/// Prints what a command puts.
fn print_command(rt: HostRuntime, words: &[String]) -> Result<()> {
    let mut out = String::new(rt.alloc());
    let mut parts = Vec::new(rt.alloc());
    for word in words {
        parts.push(word.as_str())?;
    }
    put_command(rt, &mut out, &parts)?;
    print!(rt; "{out}")?;
    Ok(())
}

fn main(rt: HostRuntime) -> Result<()> {
    let words = env::args(&rt)?.skip(1).collect::<Vec<String>>(rt.alloc())?;
    if !words.is_empty() {
        return print_command(rt, &words);
    }
    report_rows(rt, "bytecodes.table", Table::Bytecodes)?;
    report_rows(rt, "breaks.table", Table::Breaks)?;
    report_cases(rt, "shown.cases")?;
    report_texts(rt, "texts.table")?;
    report_cases(rt, "answers.cases")
}
