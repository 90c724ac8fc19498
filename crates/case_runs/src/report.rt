// The report of a file of cases.
ghost use Rattle.std.specs.Prelude.{◌<◌};

use crate::answer::{Answer, describe, difference};
use crate::case::{Case, case_of};
use crate::purges::with_purges;
use crate::run::{Way, answer_to};
use anyhow::{Context, Result, bail};
use std::alloc::Global;
use std::path::Path;
use std::rt::Files;
use std::{fs, io};

/// The exit status of a run that a core is too small for.
const CORE_FULL: u8 = 6;

/// The image that most cases change.
const BASE: &str = "base.loom";

/// The file whose cases try event files: they aren't tried with other events.
const EVENT_FILES: &str = "event_files.cases";

/// Which cases are run on the largest core too.
#[derive(Clone, Copy, Debug, PartialEq, Eq)]
pub enum Largest {
    /// All.
    Each,
    /// The first of a file, and each eighth behind it: a run clears the whole core first.
    Eighth,
}

/// Runs the cases of these files of a folder. Without a name it is the one in which the program runs.
pub fn report_all<R: Files + Print + AllocGlobal>(
    rt: &R,
    folder: &str,
    files: &[&str],
    largest: Largest,
) -> io::Result<()> {
    let folder = Path::new(folder);
    let base = match fs::read(rt, folder.join(rt.alloc(), BASE)?) {
        Ok(base) => base,
        Err(error) => return println!(rt; "{BASE}: {error}"),
    };
    for file in files {
        report(rt, folder, file, &base, largest)?;
    }
    Ok(())
}

// Runs the cases of a file. A line is printed for each that can't be read or differs, and one for the file.
fn report<R: Files + Print + AllocGlobal>(
    rt: &R,
    folder: Path<'_>,
    file: &str,
    base: &[u8],
    largest: Largest,
) -> io::Result<()> {
    let text = match fs::read_to_string(rt, folder.join(rt.alloc(), file)?) {
        Ok(text) => text,
        Err(error) => return println!(rt; "{file}: {error}"),
    };
    let mut count = 0u64;
    for paragraph in text.as_str().split("\n\n") {
        let paragraph = paragraph.trim();
        if !paragraph.is_empty() {
            let on_largest = largest == Largest::Each || count % 8 == 0;
            count = count.saturating_add(1);
            if let Err(error) = judge(
                rt.alloc(),
                base,
                paragraph,
                on_largest,
                file != EVENT_FILES,
            ) {
                let head = paragraph.lines().next().unwrap_or(paragraph);
                println!(rt; "{file}: {head}: {error:#}")?;
            }
        }
    }
    println!(rt; "{file}: {count} cases")
}

// Refuses a case that can't be read, or that the program answers otherwise: on a machine of the case's own sizes, and on larger ones
// unless it is one that a core is too small for; and where it goes through, also with a purge and a compact before each bytecode. The
// answer doesn't depend on how many bytes a call of the host moves.
fn judge(
    alloc: Global,
    base: &[u8],
    paragraph: &str,
    on_largest: bool,
    purged: bool,
) -> Result<()> {
    let case = case_of(alloc, base, paragraph)?;
    let own = Way {
        events: &case.events,
        sizes: case.sizes,
        chunk: 1,
    };
    compare(alloc, &case, own)?;
    if case.want.status != CORE_FULL {
        compare_larger(alloc, &case)?;
        if on_largest {
            compare_largest(alloc, &case)?;
        }
    }
    if purged {
        compare_purged(alloc, &case)?;
    }
    Ok(())
}

// Refuses a case that the program answers otherwise on a larger core.
fn compare_larger(alloc: Global, case: &Case<'_>) -> Result<()> {
    let Some(sizes) = case.sizes.in_the_middle()? else {
        return Ok(());
    };
    let way = Way {
        events: &case.events,
        sizes,
        chunk: 100,
    };
    compare(alloc, case, way).context("a larger core")
}

// Refuses a case that the program answers otherwise on the largest core.
fn compare_largest(alloc: Global, case: &Case<'_>) -> Result<()> {
    let way = Way {
        events: &case.events,
        sizes: case.sizes.at_most(),
        chunk: 65_536,
    };
    compare(alloc, case, way).context("the largest core")
}

// Refuses a case that goes through and that the program answers otherwise where it purges and compacts before each bytecode.
fn compare_purged(alloc: Global, case: &Case<'_>) -> Result<()> {
    let Some(ran) = case.ran()? else {
        return Ok(());
    };
    let Some(events) = with_purges(alloc, &case.events, ran)? else {
        return Ok(());
    };
    let way = Way {
        events: &events,
        sizes: case.sizes,
        chunk: 65_536,
    };
    compare(alloc, case, way).context("purged")
}

// Refuses a case that the program answers otherwise where it is run this way.
fn compare(alloc: Global, case: &Case<'_>, way: Way<'_>) -> Result<()>
    requires { 0 < way.chunk }
{
    judge_answer(alloc, case, answer_to(alloc, case, way)?)
}

/// Refuses an answer that isn't the one which a case wants, and says in which part.
pub fn judge_answer(alloc: Global, case: &Case<'_>, answer: Answer) -> Result<()> {
    let mut got = answer;
    if case.may_note(&got.notes) {
        got.notes = case.want.notes.as_slice().to_vec(alloc)?;
    }
    match difference(&case.want, &got) {
        Some(part) => bail!(describe(alloc, part, &case.want, &got)?),
        None => Ok(()),
    }
}
