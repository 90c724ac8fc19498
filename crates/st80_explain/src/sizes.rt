//! Sizes that are too small, and those to give.
ghost use Rattle.std.specs.Prelude.{◌≡◌, ◌+◌, ◌*◌, max, min};

use loom_words::{MOST_CORE, MOST_ENTRIES, MOST_ROOM};
use object_memory::Need;
use st80_objects::put_decimal;
use std::alloc::AllocError;

/// The core to give where an access needs so many words: twice as much as there was, and at least twice what it needs.
pub fn core_for(need: &Need, core: u32) -> u32
    ensures { result ≡ min MOST_CORE (max (2 * core) (2 * need.now.words)) }
{
    core.saturating_mul(2)
        .max(need.words.saturating_mul(2))
        .min(MOST_CORE)
}

/// The entries to give where an access needs so many.
pub fn entries_for(need: &Need, entries: u32) -> u32
    ensures { result ≡ min MOST_ENTRIES (max (2 * entries) (2 * need.now.entries)) }
{
    entries
        .saturating_mul(2)
        .max(need.entries.saturating_mul(2))
        .min(MOST_ENTRIES)
}

/// The room to give where so many objects would live: twice as many, and 8,192 more.
pub fn room_for(live: u32) -> u32
    ensures { result ≡ min MOST_ROOM (2 * live + 8192) }
{
    live.saturating_mul(2).saturating_add(8_192).min(MOST_ROOM)
}

/// Puts which core and entries to give.
pub fn put_core_full(
    out: &mut String,
    need: &Need,
    core: u32,
    entries: u32,
) -> Result<(), AllocError> {
    let object = need.object;
    write!(
        out,
        "The core, which holds the objects that are at hand, is too small: the access to object {object} needs "
    )?;
    put_decimal(out, u64::from(need.words))?;
    out.push_str(" words and ")?;
    put_decimal(out, u64::from(need.entries))?;
    out.push_str(" entries at once, and there are ")?;
    put_decimal(out, u64::from(core))?;
    out.push_str(" words and ")?;
    put_decimal(out, u64::from(entries))?;
    out.push_str(" entries.\n")?;
    put_core_advice(out, need, core, entries)
}

/// Puts the words to give, unless they are the largest that there are.
fn put_core_advice(
    out: &mut String,
    need: &Need,
    core: u32,
    entries: u32,
) -> Result<(), AllocError> {
    let larger_core = core_for(need, core);
    let more_entries = entries_for(need, entries);
    if larger_core <= core && more_entries <= entries {
        return out.push_str("There is no larger core: this access can't be had.\n");
    }
    out.push_str("Try:")?;
    if need.words > core || need.entries <= entries {
        write!(out, " --core {larger_core}")?;
    }
    if need.entries > entries || need.words <= core {
        write!(out, " --entries {more_entries}")?;
    }
    out.push('\n')
}

/// Puts which room to give.
pub fn put_work_full(out: &mut String, live: u32, room: u32) -> Result<(), AllocError> {
    out.push_str("The work file has room for ")?;
    put_decimal(out, u64::from(room))?;
    out.push_str(" objects, and ")?;
    put_decimal(out, u64::from(live))?;
    out.push_str(" are stated or would live.\n")?;
    let larger = room_for(live);
    if larger <= room {
        return out.push_str("There is no more room than that.\n");
    }
    write!(out, "Try: --room {larger}\n")
}
