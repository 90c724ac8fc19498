//! Runs the cases of primitives, processes and devices. What has to come out is that no case differs.
//!
//! The files lie where the program runs, or in the folder that its first word names. With a second word each case is run on the largest core
//! too, and else each eighth.
//!
//! - Proved: That it is safe.
//! - Tested: It is a test: cases of each primitive, with the answers of a reference machine that was written apart from the program
//!   (`docs/CASES.md`).
//! - Not said: Nothing else.
#![tactic(auto)]

use case_runs::{Largest, report_all};
use std::{env, io};

const FILES: [&str; 25] = [
    "tries.cases",
    "integers.cases",
    "large_integers.cases",
    "elements.cases",
    "strings.cases",
    "streams.cases",
    "storage.cases",
    "becomes.cases",
    "long_arrays.cases",
    "own_objects.cases",
    "methods.cases",
    "block_copies.cases",
    "values.cases",
    "performs.cases",
    "flushes.cases",
    "semaphores.cases",
    "processes.cases",
    "three_processes.cases",
    "quits.cases",
    "inputs.cases",
    "clocks.cases",
    "displays.cases",
    "transcripts.cases",
    "blits.cases",
    "purges.cases",
];

fn main(rt: HostRuntime) -> io::Result<()> {
    let mut words = env::args(&rt)?;
    let folder = words.nth(1).unwrap_or(String::new(rt.alloc()));
    let largest = match words.next() {
        Some(_) => Largest::Each,
        None => Largest::Eighth,
    };
    report_all(&rt, folder.as_str(), &FILES, largest)
}
