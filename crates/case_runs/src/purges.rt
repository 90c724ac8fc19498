// Event files that purge and compact before every bytecode.
use crate::files::append_line;
use anyhow::{Context, Result};
use std::alloc::{AllocError, Global};

/// The most lines that an event file may have.
const MOST_LINES: usize = 65_535;

/// An event file with the lines of another, and with a purge and a compact before each bytecode of a run of so many. None where these are
/// more lines than a file may have.
pub fn with_purges(alloc: Global, events: &[u8], ran: u32) -> Result<Option<Vec<u8>>> {
    let text = str::from_utf8(events).context("events")?;
    let purges = 2u64.saturating_mul(u64::from(ran));
    if purges.saturating_add(text.lines().count() as u64) > MOST_LINES as u64 {
        return Ok(None);
    }
    let mut merged = Vec::new(alloc);
    let mut next = 0;
    for line in text.lines() {
        let (count, _) = line.split_once(' ').context("no count")?;
        let count: u32 = count.parse().context("count")?;
        let end = ran.min(count.saturating_add(1));
        append_purges(alloc, &mut merged, next, end)?;
        next = next.max(end);
        append_line(&mut merged, line)?;
    }
    append_purges(alloc, &mut merged, next, ran)?;
    Ok(Some(merged))
}

// Puts a purge and a compact for each of these counts behind an event file.
fn append_purges(
    alloc: Global,
    events: &mut Vec<u8>,
    start: u32,
    end: u32,
) -> Result<(), AllocError> {
    for count in start..end {
        append_line(events, format!(in alloc; "{count} purge")?.as_str())?;
        append_line(events, format!(in alloc; "{count} compact")?.as_str())?;
    }
    Ok(())
}
