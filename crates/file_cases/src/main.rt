//! Runs cases over real files, in its own process: each on the machine of its own sizes, by the host that the program has.
//!
//! The image and the events of a case are written to files, and what the run leaves in files is compared with what the case wants; Transcript
//! and Notes are files too. All of them lie where the program runs, which is no folder of anybody else's. A line is printed for each case that
//! can't be read or differs, and one for each file with the number of its cases.
//!
//! ```text
//! file_cases                           the files of its own folder `data`, where it runs
//! file_cases FOLDER FILE..             these files of a folder, which has the base image too
//! ```
//!
//! `tests/all.sh` runs it on all cases of `loom_cases` and `primitive_cases`; the gate on a few.
//!
//! - Proved: That it is safe.
//! - Tested: It is a test: the cases of `docs/CASES.md` over real files, with what stands in each file after a run.
//! - Not said: Nothing else. The process goes on, so nothing is shown of a kill.
#![tactic(auto)]

mod files;

use crate::files::answer_on_files;
use anyhow::{Context, Result};
use case_runs::{case_of, judge_answer};
use std::path::Path;
use std::{env, fs, io};

/// The image that most cases change.
const BASE: &str = "base.loom";

/// The files of the folder `data`.
const OWN: [&str; 4] = [
    "runs.cases",
    "start.cases",
    "bad_machines.cases",
    "blocks.cases",
];

// Refuses a case that can't be read, or that is answered otherwise over files.
fn judge(rt: HostRuntime, base: &[u8], paragraph: &str) -> Result<()> {
    let case = case_of(rt.alloc(), base, paragraph)?;
    let answer = answer_on_files(rt, &case).context("a file")?;
    judge_answer(rt.alloc(), &case, answer)
}

// Runs the cases of a file. A line is printed for each that can't be read or differs, and one for the file.
fn report(rt: HostRuntime, folder: Path<'_>, file: &str, base: &[u8]) -> io::Result<()> {
    let text = match fs::read_to_string(&rt, folder.join(rt.alloc(), file)?) {
        Ok(text) => text,
        Err(error) => return println!(rt; "{file}: {error}"),
    };
    let mut count = 0u64;
    for paragraph in text.as_str().split("\n\n") {
        let paragraph = paragraph.trim();
        if !paragraph.is_empty() {
            count = count.saturating_add(1);
            if let Err(error) = judge(rt, base, paragraph) {
                let head = paragraph.lines().next().unwrap_or(paragraph);
                println!(rt; "{file}: {head}: {error:#}")?;
            }
        }
    }
    println!(rt; "{file}: {count} cases")
}

fn main(rt: HostRuntime) -> io::Result<()> {
    let mut words = env::args(&rt)?;
    let folder = words.nth(1).unwrap_or(String::new(rt.alloc()));
    let folder = Path::new(folder.as_str());
    let base = match fs::read(&rt, folder.join(rt.alloc(), BASE)?) {
        Ok(base) => base,
        Err(error) => return println!(rt; "{BASE}: {error}"),
    };
    let mut named = 0u64;
    for file in words {
        named = named.saturating_add(1);
        report(rt, folder, file.as_str(), &base)?;
    }
    if named > 0 {
        return Ok(());
    }
    for file in OWN {
        report(rt, folder, file, &base)?;
    }
    Ok(())
}
