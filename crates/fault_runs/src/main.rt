//! Runs cases over hosts of which each call fails in turn, and each read of Work lies in turn.
//!
//!     fault_runs              the tables, on the files of the folder where it runs
//!     fault_runs counts       the same, with the numbers that belong to how the memory is written today
//!     fault_runs grow FILE N  the Nth case of a file, counted from 1, on a host that takes no memory in the run
//!     fault_runs plain FILE N the Nth case, which has to be a message that nobody understands, by a builder and one map
//!     fault_runs build        the base image by a builder, and two of its refusals
//!
//! The first two print a line for each role of each case, with how many calls failed, and one for the reads that lie; or why one of them
//! came out wrong. What has to come out is what the case says, which is the answer of a reference machine, and of that the part that
//! each failure leaves (`failing`). The last three are for `tests/faults.sh`, which refuses each allocation in turn: they end with 0 and say
//! `whole`, with 12 where memory was refused and what was left is right, with 1 where memory was refused outside of the run, and say
//! anything else with 0 where it came out wrong.
//!
//! - Proved: That it is safe.
//! - Tested: It is a test: four cases with each call on each role failing in turn, and with each read of Work lying in turn
//!   (`docs/CASES.md`).
//! - Not said: Nothing else.
#![tactic(auto)]

mod building;
mod failing;
mod growing;
mod left;
mod lying;
mod plain;

use crate::building::build;
use crate::failing::{ROLES, count_calls};
use crate::growing::{End, grow};
use crate::lying::{Tally, lie};
use crate::plain::run_plain;
use anyhow::{Context, Result, bail};
use case_runs::{Case, case_of};
use loom_outside::Role;
use std::alloc::Global;
use std::process::ExitCode;
use std::rt::Files;
use std::{env, fs};

/// The image that cases change.
const BASE: &str = "base.loom";

/// The cases of the tables.
const FAULTS: &str = "faults.cases";

/// Fewer calls on Work than a run of any case makes.
const MANY: u64 = 100;

/// The exit status of a run that memory was refused to.
const NO_MEMORY: u8 = 12;

// How many calls on a role failed. Of Work no number is told unless it is asked for.
fn tell_calls<R: Print>(rt: &R, name: &str, role: Role, calls: u64, counts: bool) -> Result<()> {
    if role != Role::Work || calls < MANY || counts {
        println!(rt; "{name}: {role:?}: {calls} calls")?;
    } else {
        println!(rt; "{name}: {role:?}: each call")?;
    }
    Ok(())
}

// The table of calls that fail of a case. How many calls on Work a run of it makes is the answer.
fn fail_each<R: Print + AllocGlobal>(
    rt: &R,
    name: &str,
    case: &Case<'_>,
    counts: bool,
) -> Result<u64> {
    let mut of_work = 0;
    for role in ROLES {
        let calls = count_calls(rt.alloc(), case, role)?;
        if role == Role::Work {
            of_work = calls;
        }
        tell_calls(rt, name, role, calls, counts)?;
    }
    Ok(of_work)
}

// The tables of a case.
fn report<R: Print + AllocGlobal>(rt: &R, name: &str, case: &Case<'_>, counts: bool) -> Result<()> {
    let reads = fail_each(rt, name, case, counts)?;
    let tally = lie(rt.alloc(), case, reads).context("a lying read")?;
    println!(rt; "{name}: each read with each mask")?;
    if counts {
        tell(rt, name, &tally)?;
    }
    Ok(())
}

// How many runs of which a read lied came to each exit status.
fn tell<R: Print>(rt: &R, name: &str, tally: &Tally) -> Result<()> {
    for (code, count) in tally.by_code.iter().enumerate() {
        if *count > 0 {
            println!(rt; "{name}: {count} lies end with {code}")?;
        }
    }
    Ok(())
}

// The tables of all cases.
fn report_all<R: Files + Print + AllocGlobal>(rt: &R, counts: bool) -> Result<()> {
    let base = fs::read(rt, BASE)?;
    let text = fs::read_to_string(rt, FAULTS)?;
    for paragraph in text.as_str().split("\n\n") {
        let paragraph = paragraph.trim();
        let head = paragraph.lines().next().unwrap_or(paragraph);
        let name = head.strip_prefix("case ").unwrap_or(head);
        let case = case_of(rt.alloc(), &base, paragraph).context("a case")?;
        if let Err(error) = report(rt, name, &case, counts) {
            println!(rt; "{name}: {error:#}")?;
        }
    }
    Ok(())
}

// How a case of a file ends on a host that takes no memory, or by one map.
fn end_of(alloc: Global, base: &[u8], text: &str, number: &str, plain: bool) -> Result<End> {
    let number: usize = number.parse()?;
    let Some(paragraph) = text.split("\n\n").nth(number.saturating_sub(1)) else {
        bail!("no such case");
    };
    let case = case_of(alloc, base, paragraph.trim())?;
    if plain {
        run_plain(alloc, &case)
    } else {
        grow(alloc, &case)
    }
}

// A case of a file, where memory may be refused.
fn try_growths<R: Files + Print + AllocGlobal>(
    rt: &R,
    file: &str,
    number: &str,
    plain: bool,
) -> Result<ExitCode> {
    let base = fs::read(rt, BASE)?;
    let text = fs::read_to_string(rt, file)?;
    let end = end_of(rt.alloc(), &base, text.as_str(), number, plain)?;
    tell_end(rt, end)
}

// The base image by a builder, where memory may be refused.
fn try_building<R: Files + Print + AllocGlobal>(rt: &R) -> Result<ExitCode> {
    let base = fs::read(rt, BASE)?;
    let end = build(rt.alloc(), &base)?;
    tell_end(rt, end)
}

// Says how it ended.
fn tell_end<R: Print>(rt: &R, end: End) -> Result<ExitCode> {
    match end {
        End::Whole => println!(rt; "whole")?,
        End::NoMemory => return Ok(ExitCode::from(NO_MEMORY)),
        End::Wrong => println!(rt; "wrong")?,
    }
    Ok(ExitCode::SUCCESS)
}

// Does what the words say.
fn take<R: Files + Print + AllocGlobal>(rt: &R, words: &[String]) -> Result<ExitCode> {
    match words {
        [] => report_all(rt, false)?,
        [first] if first.as_str() == "counts" => report_all(rt, true)?,
        [first] if first.as_str() == "build" => return try_building(rt),
        [first, file, number] if first.as_str() == "grow" || first.as_str() == "plain" => {
            return try_growths(
                rt,
                file.as_str(),
                number.as_str(),
                first.as_str() == "plain",
            );
        }
        _ => bail!("no such words"),
    }
    Ok(ExitCode::SUCCESS)
}

fn main(rt: HostRuntime) -> ExitCode {
    let Ok(args) = env::args(&rt) else {
        return ExitCode::FAILURE;
    };
    let Ok(words) = args.skip(1).collect::<Vec<String>>(rt.alloc()) else {
        return ExitCode::FAILURE;
    };
    take(&rt, &words).unwrap_or(ExitCode::FAILURE)
}
