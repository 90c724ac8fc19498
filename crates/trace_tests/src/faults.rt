// Traces over hosts that fail.
use crate::images::{Traced, ask, host_with, is_left, trace};
use loom_outside::MemoryHost;
use loom_outside::Role::{self, Display, Events, Image, Notes, Saved, Transcript, Work};
use loom_run::Status;
use std::alloc::Global;
use std::test::Fail;

/// A trace of an image for so many bytecodes, the role of which the nth call fails, counted from 1; the answer, what the file of the lines has, and
/// whether it is ended.
type Fault = (Traced, u32, Role, u64, Status, Option<&'static str>, bool);

const STUCK: Traced = Traced::Unused;

const STOP: Status = Status::Stuck { cause: 2, ran: 2 };

const RAN: Status = Status::Done { ran: 4 };

const UNWORKED: Status = Status::WorkFault { count: 1 };

const UNREAD: Status = Status::ReadFault {
    role: Image,
    count: 1,
};

const UNHEARD: Status = Status::ReadFault {
    role: Events,
    count: 1,
};

const UNWRITTEN: Status = Status::WriteFault {
    role: Saved,
    count: 1,
};

const UNSAID: Status = Status::WriteFault {
    role: Transcript,
    count: 1,
};

const UNNOTED: Status = Status::WriteFault {
    role: Notes,
    count: 1,
};

const ONE: &str = "1 66 2 112\n";

const PART: &str = "1 66 2 112\n2 66 3";

const TWO: &str = "1 66 2 112\n2 66 3 135\n";

const FOUR: &str = "1 66 2 112\n2 66 3 135\n3 66 4 163\n4 66 2 112\n";

const SAID: &str = "1 66 18 112\n2 66 19 32\n";

// The first call on Saved is to attach it, two are for each line, and the last ends it. Where a line can't be put whole it stays without an end,
// and else it is ended, also behind a stop, which stays the answer where that fails.
const FAULTS: &[Fault] = &[
    (Traced::Base, 4, Saved, 1, UNWRITTEN, None, false),
    (Traced::Base, 4, Saved, 2, UNWRITTEN, Some(""), false),
    (Traced::Base, 4, Saved, 3, UNWRITTEN, Some("1 66 2"), false),
    (Traced::Base, 4, Saved, 5, UNWRITTEN, Some(PART), false),
    (Traced::Base, 1, Saved, 4, UNWRITTEN, Some(ONE), false),
    (STUCK, 4, Saved, 5, UNWRITTEN, Some(PART), false),
    (STUCK, 4, Saved, 6, STOP, Some(TWO), false),
    (STUCK, 4, Notes, 1, STOP, Some(TWO), true),
    (Traced::Base, 4, Notes, 1, UNNOTED, Some(FOUR), true),
    (Traced::Base, 4, Display, 1, RAN, Some(FOUR), true),
    (Traced::Base, 4, Transcript, 1, RAN, Some(FOUR), true),
    (Traced::Hello, 4, Transcript, 1, UNSAID, Some(SAID), true),
    (Traced::Base, 4, Work, 1, UNWORKED, None, false),
    (Traced::Base, 4, Image, 1, UNREAD, None, false),
    (Traced::Base, 4, Image, 2, UNREAD, None, false),
    (Traced::Base, 4, Events, 1, UNHEARD, None, false),
    (Traced::Base, 4, Events, 2, UNHEARD, None, false),
];

// Whether a trace over a host that fails ends so. A line is on Notes, unless that fails.
fn is_ended(alloc: Global, row: Fault) -> Result<bool, Fail> {
    let (traced, steps, role, nth, wanted, text, ended) = row;
    let mut host = host_with(alloc, traced, "")?;
    host.fail(role, nth)?;
    let status = trace(alloc, &mut host, steps)?;
    Ok(
        status == wanted
            && host.notes().is_empty() == (role == Notes)
            && is_left(&host, text, ended),
    )
}

#[test]
fn traces_end_as_they_should(rt: HostRuntime) -> Result<(), Fail> {
    for (i, row) in FAULTS.iter().enumerate() {
        assert_eq!(rt; (i, is_ended(rt.alloc(), *row)?), (i, true));
    }
    Ok(())
}

/// What is no image, and what are no events.
const JUDGED: &[(&str, Status)] = &[
    (
        "trace e e w c 4096 512 1024 4",
        Status::ImageBad { rule: 9, place: 0 },
    ),
    (
        "trace a a w c 4096 512 1024 4",
        Status::EventsBad { line: 1 },
    ),
];

#[test]
fn what_is_read_is_judged(rt: HostRuntime) -> Result<(), Fail> {
    for (command, wanted) in JUDGED {
        let mut host = host_with(rt.alloc(), Traced::Base, "")?;
        let status = ask(rt.alloc(), &mut host, *command)?;
        assert_eq!(rt; (status, is_left(&host, None, false)), (*wanted, true));
    }
    Ok(())
}

// ---- calls on Work

/// The lines of the image that draws.
const DRAWING: &str = "1 66 14 32
2 66 15 209
3 66 16 135
4 66 17 34
5 66 18 209
6 66 19 135
7 66 20 35
8 66 21 212
9 66 22 135
10 66 23 112
11 66 24 213
";

// Whether what the file of a trace has, if there is one, are its first lines, whole, and ended.
fn is_begun(host: &MemoryHost, lines: &str) -> bool {
    match host.file("c") {
        Some(file) => {
            lines.as_bytes().starts_with(file)
                && (file.is_empty() || file.ends_with(b"\n"))
                && host.ended(Saved) == Some(file.len())
        }
        None => true,
    }
}

// Whether a trace tells that this call on Work failed, and leaves the lines of the bytecodes before.
fn is_cut(alloc: Global, nth: u64) -> Result<bool, Fail> {
    let mut host = host_with(alloc, Traced::Blit, "")?;
    host.fail(Work, nth)?;
    let status = trace(alloc, &mut host, 99)?;
    Ok(status == UNWORKED && is_begun(&host, DRAWING))
}

// Of the calls on Work the first, and then one of 25: the first of which the trace doesn't tell that it failed, counted from 1.
fn first_untold(alloc: Global) -> Result<u64, Fail> {
    for turn in 0..1_000u64 {
        let nth = 1 + 25 * turn;
        if !is_cut(alloc, nth)? {
            return Ok(nth);
        }
    }
    Err("some call is the last".into())
}

// A call on Work may fail at each stage of a trace; and the first that isn't told was never made.
#[test]
fn calls_on_work_may_fail(rt: HostRuntime) -> Result<(), Fail> {
    let nth = first_untold(rt.alloc())?;
    let quit = Status::Quit { ran: 11 };
    let whole = (Traced::Blit, 99, Work, nth, quit, Some(DRAWING), true);
    assert!(rt; is_ended(rt.alloc(), whole)?);
    Ok(())
}
