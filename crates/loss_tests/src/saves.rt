// What a loss of power leaves of SAVED.
use crate::commands::{ask, ask_files, host_of, image, put_files};
use crate::images::text;
use crate::losses::{Arrived, Judge, first_wrong, is_moment};
use crate::recording::{Event, Record};
use checkpoint::MemoryVault;
use loom_outside::MemoryHost;
use std::alloc::Global;
use std::cell::RefCell;
use std::test::Fail;
use std::{fs, io};

/// Commands that write SAVED, one behind the other: where there is none, over an older one, and over their own image.
const COMMANDS: &[&str] = &[
    "run i e w s d 4096 512 1024 9",
    "run s e w s d 4096 512 1024 9",
    "guard i e w s d 4096 512 1024 18 v",
    "resume v e w s d 4096 512 1024 3",
    "trace i e w s 4096 512 1024 9",
    "list i w s",
    "asm t w s",
    "make 1 s",
];

/// The bytes of SAVED before a command, and behind it.
#[derive(Clone, Copy)]
struct Change<'a> {
    old: Option<&'a [u8]>,
    new: Option<&'a [u8]>,
}

// SAVED is the old file or the new one, whole.
impl Judge for Change<'_> {
    fn allows(&self, _alloc: Global, left: Option<&[u8]>, _arrived: Arrived) -> Result<bool, Fail> {
        Ok(left == self.old || left == self.new)
    }
}

/// A moment, as how many events come before it, and a state that a loss may leave then.
type State = (usize, Arrived);

// The first state of SAVED from the moment behind so many events on that isn't allowed. Behind the last event it is the new file.
fn first_lost(
    alloc: Global,
    events: &[Event],
    from: usize,
    change: &Change<'_>,
) -> Result<Option<State>, Fail> {
    for at in from..=events.len() {
        if is_moment(events, at) {
            let (before, behind) = events.split_at(at);
            let old = if behind.is_empty() {
                change.new
            } else {
                change.old
            };
            let judge = Change {
                old,
                new: change.new,
            };
            if let Some(arrived) = first_wrong(alloc, before, "s", &judge)? {
                return Ok(Some((at, arrived)));
            }
        }
    }
    Ok(None)
}

// SAVED as it is.
fn saved(rt: &HostRuntime) -> io::Result<Option<Vec<u8>>> {
    if fs::exists(rt, "s")? {
        Ok(Some(fs::read(rt, "s")?))
    } else {
        Ok(None)
    }
}

// Whether a command goes over files as over memory.
fn is_same(
    rt: &HostRuntime,
    record: &RefCell<Record>,
    host: &mut MemoryHost,
    vault: &mut MemoryVault,
    line: &str,
) -> Result<bool, Fail> {
    let status = ask_files(rt, record, line)?;
    let wanted = ask(rt.alloc(), host, vault, line)?;
    let saved = saved(rt)?;
    Ok(status.code() == 0 && status == wanted && saved.as_deref() == host.file("s"))
}

// The first state in which a command may leave SAVED that isn't allowed.
fn first_wrong_in(
    rt: &HostRuntime,
    record: &RefCell<Record>,
    from: usize,
    old: Option<&[u8]>,
) -> Result<Option<State>, Fail> {
    let new = saved(rt)?;
    let Ok(record) = record.try_borrow() else {
        return Err("nobody writes the record".into());
    };
    let change = Change {
        old,
        new: new.as_deref(),
    };
    first_lost(rt.alloc(), &record.events, from, &change)
}

// How many events there are.
fn count(record: &RefCell<Record>) -> usize {
    match record.try_borrow() {
        Ok(record) => record.events.len(),
        Err(_) => 0,
    }
}

#[test]
fn saved_is_the_old_file_or_the_new_one(rt: HostRuntime) -> Result<(), Fail> {
    let image = image(rt.alloc())?;
    let mut host = host_of(rt.alloc(), text(rt.alloc())?.as_bytes(), &image)?;
    let mut vault = MemoryVault::new(rt.alloc())?;
    let record = RefCell::new(Record::new(rt.alloc()));
    put_files(&rt, &record, &image)?;
    for line in COMMANDS {
        let from = count(&record);
        let old = saved(&rt)?;
        assert!(rt;
            is_same(&rt, &record, &mut host, &mut vault, *line)?,
            "{line}"
        );
        assert_eq!(rt;
            (line, first_wrong_in(&rt, &record, from, old.as_deref())?),
            (line, None)
        );
    }
    Ok(())
}
