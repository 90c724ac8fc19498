// Runs of the base image of which one call on a role fails, each in turn.
use crate::programs::{LENGTH, Left, Run, SHORT, Sample, is_right};
use loom_outside::Role::{Saved, Work};
use loom_run::Status;
use std::alloc::Global;
use std::test::Fail;

/// None fails.
const WHOLE: Run = Run {
    sample: Sample::Base,
    words: SHORT,
    role: Work,
    nth: 0,
    status: Status::Done { ran: 2 },
    notes: "ran 2\n",
    said: "",
    saved: Left::All(LENGTH),
    display: Left::All(0),
};

/// One on Work.
const UNWORKED: Run = Run {
    sample: Sample::Base,
    words: SHORT,
    role: Work,
    nth: 0,
    status: Status::WorkFault { count: 1 },
    notes: "work fault\n",
    said: "",
    saved: Left::Any,
    display: Left::Nothing,
};

/// One on Saved.
const UNSAVED: Run = Run {
    sample: Sample::Base,
    words: SHORT,
    role: Saved,
    nth: 0,
    status: Status::WriteFault {
        role: Saved,
        count: 1,
    },
    notes: "write fault: Saved\n",
    said: "",
    saved: Left::Any,
    display: Left::Nothing,
};

// Of the calls on a role the first, and then one of so many: the first of which the run doesn't tell that it failed, counted from 1.
fn first_untold(alloc: Global, row: &Run, step: u64) -> Result<u64, Fail> {
    for turn in 0..1_000u64 {
        let nth = step.saturating_mul(turn).saturating_add(1);
        if !is_right(alloc, &Run { nth, ..*row })? {
            return Ok(nth);
        }
    }
    Err("some call is the last".into())
}

// A call on Work may fail at each stage of a run; and the first that isn't told was never made.
#[test]
fn calls_on_work_may_fail(rt: HostRuntime) -> Result<(), Fail> {
    let nth = first_untold(rt.alloc(), &UNWORKED, 25)?;
    assert!(rt; is_right(rt.alloc(), &Run { nth, ..WHOLE })?);
    Ok(())
}

// Whether the call before the nth on Saved comes behind the whole image, and the one before that doesn't.
fn is_behind_all(alloc: Global, nth: u64) -> Result<bool, Fail> {
    let last = Run {
        nth: nth.saturating_sub(1),
        saved: Left::All(LENGTH),
        ..UNSAVED
    };
    let earlier = Run {
        nth: nth.saturating_sub(2),
        saved: Left::Most(LENGTH - 1),
        ..UNSAVED
    };
    Ok(is_right(alloc, &last)? && is_right(alloc, &earlier)?)
}

// The last call on Saved ends it, behind the whole image, which the call before it hadn't put yet. Where one fails, that is a fault of Saved, and Display
// isn't attached.
#[test]
fn the_last_call_on_saved_ends_it(rt: HostRuntime) -> Result<(), Fail> {
    let nth = first_untold(rt.alloc(), &UNSAVED, 1)?;
    let none = Run {
        role: Saved,
        nth,
        ..WHOLE
    };
    assert!(rt; is_behind_all(rt.alloc(), nth)?);
    assert!(rt; is_right(rt.alloc(), &none)?);
    Ok(())
}
