//! Runs the cases of bytecodes and sends, of event files and of images. What has to come out is that no case differs but those of the last
//! file, which are wrong on purpose.
//!
//! The files lie where the program runs, or in the folder that its first word names. With a second word each case is run on the largest core
//! too, and else each eighth.
//!
//! - Proved: That it is safe.
//! - Tested: It is a test: cases with the answers of a reference machine that was written apart from the program, on three cores
//!   (`docs/CASES.md`).
//! - Not said: Nothing else.
#![tactic(auto)]

use case_runs::{Largest, report_all};
use std::{env, io};

const FILES: [&str; 36] = [
    "runs.cases",
    "start.cases",
    "bad_machines.cases",
    "blocks.cases",
    "bytecodes.cases",
    "variables.cases",
    "extended.cases",
    "stack.cases",
    "long_contexts.cases",
    "jumps.cases",
    "long_jumps.cases",
    "conditions.cases",
    "loops.cases",
    "returns.cases",
    "sends.cases",
    "special_sends.cases",
    "super_sends.cases",
    "lookups.cases",
    "long_chains.cases",
    "methods_run.cases",
    "untold.cases",
    "cannot_return.cases",
    "must_be_boolean.cases",
    "event_files.cases",
    "kept.cases",
    "image_rules.cases",
    "image_objects.cases",
    "bytes_1_more.cases",
    "bytes_2_more.cases",
    "bytes_128_more.cases",
    "cuts.cases",
    "states.cases",
    "core_refusals.cases",
    "large_image.cases",
    "generated.cases",
    "wrong.cases",
];

fn main(rt: HostRuntime) -> io::Result<()> {
    let mut words = env::args(&rt)?;
    let folder = words.nth(1).unwrap_or(String::new(rt.alloc()));
    let largest = match words.next() {
        Some(_) => Largest::Each,
        None => Largest::Eighth,
    };
    report_all(&rt, folder.as_str(), &FILES, largest)
}
