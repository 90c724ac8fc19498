// Files of rows and of cases.
use crate::answers::code_answer;
use crate::breaks::break_answer;
use crate::commands::put_command;
use anyhow::{Context, Result};
use std::fs;

/// What the rows of a file ask.
#[derive(Clone, Copy, Debug, PartialEq, Eq)]
pub(crate) enum Table {
    Bytecodes,
    Breaks,
}

/// What comes where a row asks this.
fn answer(rt: HostRuntime, table: Table, asked: &str) -> Result<String> {
    match table {
        Table::Bytecodes => code_answer(rt, asked),
        Table::Breaks => break_answer(rt, asked),
    }
}

/// Prints what came, where it isn't what a row wants.
fn judge_row(rt: HostRuntime, table: Table, row: &str) -> Result<()> {
    let (asked, wanted) = row.split_once(" = ").context("no row")?;
    let came = answer(rt, table, asked)?;
    if came.as_str() != wanted {
        println!(rt; "{asked}: wanted {wanted}, and {came} came")?;
    }
    Ok(())
}

/// Judges each row of a file.
pub(crate) fn report_rows(rt: HostRuntime, file: &str, table: Table) -> Result<()> {
    let text = fs::read_to_string(&rt, file).context("the file of a table")?;
    let mut count = 0u64;
    for row in text.as_str().lines() {
        if !row.is_empty() && !row.starts_with('#') {
            count = count.saturating_add(1);
            judge_row(rt, table, row)?;
        }
    }
    println!(rt; "{file}: {count} rows")?;
    Ok(())
}

/// Prints what a case puts, where it isn't what it wants.
fn judge_case(rt: HostRuntime, case: &str) -> Result<()> {
    let (command, wanted) = case.split_once('\n').unwrap_or((case, ""));
    let mut out = String::new(rt.alloc());
    let words = command.split(' ').collect::<Vec<&str>>(rt.alloc())?;
    put_command(rt, &mut out, &words)?;
    if out.as_str().trim_end() != wanted.trim_end() {
        println!(rt; "{command}: this came:\n{out}")?;
    }
    Ok(())
}

/// Judges each case of a file: what stands before the first is no case.
pub(crate) fn report_cases(rt: HostRuntime, file: &str) -> Result<()> {
    let text = fs::read_to_string(&rt, file).context("the file of cases")?;
    let mut count = 0u64;
    for case in text.as_str().split("\n== ").skip(1) {
        count = count.saturating_add(1);
        judge_case(rt, case)?;
    }
    println!(rt; "{file}: {count} cases")?;
    Ok(())
}
