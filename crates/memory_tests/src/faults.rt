// Hosts of which one call on Work fails, or one read lies: each run ends.
use crate::runs::{End, Run, ends, host_with};
use crate::tables::{LEFT, STEPS};
use object_memory::MemFault;
use sample_images::NEXT;
use std::alloc::Global;
use std::test::Fail;

/// The table of calls, in a core that is purged and packed after each.
const RUN: Run = Run {
    room: 32,
    core: 512,
    entries: 160,
    next: NEXT,
    purges: true,
    first: STEPS,
    times: 0,
    again: &[],
    last: &[],
};

/// More calls on Work than a run makes.
const MOST_CALLS: u64 = 1_000;

// How the run ends where this call on Work fails, and this read lies.
fn end_of(alloc: Global, failing: u64, lying: u64, mask: u8) -> Result<End, Fail> {
    let mut host = host_with(alloc, NEXT, failing, lying, mask)?;
    ends(alloc, &mut host, &RUN)
}

// Whether a call failed, and the run ended by it.
fn has_failed(end: End) -> bool {
    match end {
        End::Unloaded | End::Unfinished => true,
        End::Refused(fault) => fault == MemFault::WorkFault { count: 1 },
        _ => false,
    }
}

// How the first run ends that doesn't end by the call that was to fail.
fn first_whole(alloc: Global) -> Result<End, Fail> {
    for nth in 1..MOST_CALLS {
        let end = end_of(alloc, nth, 0, 0)?;
        if !has_failed(end) {
            return Ok(end);
        }
    }
    Err("a run makes fewer calls".into())
}

// Each call in turn, up to the one behind the last.
#[test]
fn each_call_on_work_fails(rt: HostRuntime) -> Result<(), Fail> {
    assert_eq!(rt; first_whole(rt.alloc())?, End::Same(LEFT));
    Ok(())
}

/// What is xored into the bytes of a read: another name, kind, size or place.
const MASK: u8 = 4;

// Each read in turn. What is answered may be wrong, but each run ends.
#[test]
fn each_read_lies(rt: HostRuntime) -> Result<(), Fail> {
    for nth in 1..MOST_CALLS {
        let _end = end_of(rt.alloc(), 0, nth, MASK)?;
    }
    Ok(())
}
