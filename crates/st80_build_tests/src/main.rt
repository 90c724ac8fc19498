//! Tests of the crates that make code of trees, as data: trees with the methods that have to come of them.
//!
//! `methods.table` has lines `ARGUMENTS TEMPORARIES PRIMITIVE WORD.. = HEADER [LITERALS] BYTES`, or the reason why there is no method
//! behind ` = `. The words spell a tree with what is inside first, from a pool that has the number n at n: `i2`, `t2`, `g2` and `l2` are a
//! field, a temporary, a shared variable and a literal; `=i2` assigns; `s9/1` sends selector 9 with one argument, `S9/1` to super, `c` and
//! `C` a cascade. `done` is the end of statements, `value` and `^` are its last one, and `.` puts a statement before others. `b0/2` is a
//! block with two arguments from temporary 0 on, `?t` a choice with its test, what is for true, and the rest, and `*t` a loop. What has to
//! come was reckoned by the Blue Book's table of bytecodes. The class's association is -1.
//!
//! A line is printed for each row that comes otherwise, and one with the number of rows.
//!
//! `base.st` and `generated.st` are a program of a thousand methods that `tests/build/generated.awk` made (seed 3), and `generated.wanted` is what it
//! has to print by the evaluation of their trees, and what a reference machine printed of the image. It is built, and run in a small core and in a
//! large one.
//!
//! - Proved: That it is safe.
//! - Tested: It is a test.
//! - Not said: Nothing else.
#![tactic(auto)]

mod answers;
mod generated;
mod trees;

use crate::answers::answer_of;
use crate::generated::report_generated;
use anyhow::{Context, Result};
use std::fs;

/// Prints what came, where it isn't what a row wants.
fn judge_row(rt: HostRuntime, row: &str) -> Result<()> {
    let (asked, wanted) = row.split_once(" = ").context("no row")?;
    let came = answer_of(rt, asked)?;
    if came.as_str() != wanted {
        println!(rt; "{asked}: wanted {wanted}, and {came} came")?;
    }
    Ok(())
}

/// Judges each row of a file.
fn report_rows(rt: HostRuntime, file: &str) -> Result<()> {
    let text = fs::read_to_string(&rt, file).context("the file of a table")?;
    let mut count = 0u64;
    for row in text.as_str().lines() {
        if !row.is_empty() && !row.starts_with('#') {
            count = count.saturating_add(1);
            judge_row(rt, row)?;
        }
    }
    println!(rt; "{file}: {count} rows")?;
    Ok(())
}

fn main(rt: HostRuntime) -> Result<()> {
    report_rows(rt, "methods.table")?;
    report_generated(rt)
}
