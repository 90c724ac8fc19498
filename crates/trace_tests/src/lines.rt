// The line of each bytecode, whatever comes before it in its cycle and whatever ends the run.
use crate::images::{Traced, host_with, is_left, trace};
use loom_run::Status;
use object_memory::Need;
use std::alloc::Global;
use std::test::Fail;

/// A trace of an image under events, for so many bytecodes: the answer, what is said, and the lines, which are ended.
#[derive(Clone, Copy)]
struct Trace {
    traced: Traced,
    events: &'static str,
    steps: u32,
    status: Status,
    said: &'static str,
    lines: &'static str,
}

/// What the reference machine needs for the bitmap that is too wide.
const WIDE: Need = Need {
    object: 94,
    words: 4_145,
    entries: 81,
};

// A line tells where the machine stands before its bytecode: behind the event, the timer and the process switch of that cycle. What a row has of
// each is what the reference machine writes.
const TRACES: &[Trace] = &[
    Trace {
        traced: Traced::Base,
        events: "1 purge\n1 compact\n9 word 7\n",
        steps: 4,
        status: Status::Done { ran: 4 },
        said: "",
        lines: "1 66 2 112\n2 66 3 135\n3 66 4 163\n4 66 2 112\n",
    },
    Trace {
        traced: Traced::Base,
        events: "",
        steps: 0,
        status: Status::Done { ran: 0 },
        said: "",
        lines: "",
    },
    Trace {
        traced: Traced::Signalling,
        events: "",
        steps: 8,
        status: Status::Done { ran: 8 },
        said: "",
        lines: "1 66 6 33\n2 66 7 208\n3 90 8 135\n4 90 9 163\n5 90 6 33\n6 90 7 208\n7 66 8 135\n8 66 9 163\n",
    },
    Trace {
        traced: Traced::Input,
        events: "1 word 7\n",
        steps: 3,
        status: Status::Done { ran: 3 },
        said: "",
        lines: "1 66 6 33\n2 90 8 135\n3 90 9 163\n",
    },
    Trace {
        traced: Traced::Timer,
        events: "",
        steps: 3,
        status: Status::Done { ran: 3 },
        said: "",
        lines: "1 66 6 33\n2 90 8 135\n3 90 9 163\n",
    },
    Trace {
        traced: Traced::Told,
        events: "",
        steps: 6,
        status: Status::Done { ran: 6 },
        said: "",
        lines: "1 66 4 112\n2 66 5 118\n3 66 6 119\n4 66 7 240\n5 80 2 16\n6 80 3 124\n",
    },
    Trace {
        traced: Traced::Untold,
        events: "",
        steps: 9,
        status: Status::Stuck { cause: 5, ran: 3 },
        said: "",
        lines: "1 66 4 112\n2 66 5 118\n3 66 6 119\n",
    },
    Trace {
        traced: Traced::Unused,
        events: "",
        steps: 9,
        status: Status::Stuck { cause: 2, ran: 2 },
        said: "",
        lines: "1 66 2 112\n2 66 3 135\n",
    },
    Trace {
        traced: Traced::NoStart,
        events: "",
        steps: 9,
        status: Status::Stuck { cause: 4, ran: 0 },
        said: "",
        lines: "",
    },
    Trace {
        traced: Traced::NoSemaphore,
        events: "1 word 7\n",
        steps: 9,
        status: Status::Stuck { cause: 4, ran: 1 },
        said: "",
        lines: "1 66 6 33\n",
    },
    Trace {
        traced: Traced::Point,
        events: "",
        steps: 9,
        status: Status::NamesSpent { ran: 2 },
        said: "",
        lines: "1 66 2 118\n2 66 3 119\n",
    },
    Trace {
        traced: Traced::WideBits,
        events: "",
        steps: 99,
        status: Status::CoreFull { ran: 9, need: WIDE },
        said: "loom\n",
        lines: "1 66 18 112\n2 66 19 32\n3 66 20 225\n4 66 21 135\n5 66 22 34\n6 66 23 16\n7 66 24 35\n8 66 25 16\n9 66 26 192\n",
    },
    Trace {
        traced: Traced::Crowded,
        events: "",
        steps: 9,
        status: Status::WorkFull {
            live: 1_025,
            room: 1_024,
        },
        said: "",
        lines: "1 66 2 137\n2 66 3 117\n",
    },
    Trace {
        traced: Traced::Blit,
        events: "",
        steps: 99,
        status: Status::Quit { ran: 11 },
        said: "",
        lines: "1 66 14 32\n2 66 15 209\n3 66 16 135\n4 66 17 34\n5 66 18 209\n6 66 19 135\n7 66 20 35\n8 66 21 212\n9 66 22 135\n10 66 23 112\n11 66 24 213\n",
    },
];

// Whether a run is traced so.
fn is_traced(alloc: Global, row: &Trace) -> Result<bool, Fail> {
    let mut host = host_with(alloc, row.traced, row.events)?;
    let status = trace(alloc, &mut host, row.steps)?;
    Ok(
        status == row.status
            && host.transcript() == row.said.as_bytes()
            && is_left(&host, Some(row.lines), true),
    )
}

#[test]
fn each_bytecode_has_its_line(rt: HostRuntime) -> Result<(), Fail> {
    for (i, row) in TRACES.iter().enumerate() {
        assert_eq!(rt; (i, is_traced(rt.alloc(), row)?), (i, true));
    }
    Ok(())
}
