// Whole runs over a memory with bounds: in the smallest core, in smaller ones, and with room for fewer objects than are made.
ghost use Rattle.std.specs.Prelude.{◌≡◌, IfOk, None};
ghost use Rattle.object_memory.specs.Plain.{plain_told};
ghost use Rattle.object_memory.specs.Told.{IsReady};

use bounded_memory::BoundedMemory;
use contexts::Stop;
use event_file::EventList;
use loom_run::{Halted, Reason, State, whole_run};
use object_memory::{MemFault, Need, PlainMemory};
use sample_images::{Header, METHOD, NEXT, add_method, base, memory, name};
use std::alloc::Global;
use std::test::Fail;

/// The method of the base image: pushes the receiver, pops it, and jumps back.
const IDLE: &[u8] = &[112, 135, 163, 252];

/// Makes a block of the active context, pops it, and jumps back. A pop leaves the block in its field until the next push.
const BLOCKS: &[u8] = &[137, 117, 200, 135, 163, 250];

/// A method's code, a core of so many words and entries, the objects for which there is room, how many bytecodes are to be run, how many
/// were, and why no more.
struct Run {
    code: &'static [u8],
    core: u32,
    entries: u32,
    room: u16,
    steps: u32,
    ran: u32,
    refused: Option<MemFault>,
}

const RUNS: &[Run] = &[
    Run {
        code: IDLE,
        core: 37,
        entries: 73,
        room: 26,
        steps: 100,
        ran: 100,
        refused: None,
    },
    Run {
        code: IDLE,
        core: 36,
        entries: 73,
        room: 26,
        steps: 100,
        ran: 100,
        refused: Some(MemFault::CoreFull(Need {
            object: 62,
            words: 37,
            entries: 73,
        })),
    },
    Run {
        code: IDLE,
        core: 29,
        entries: 73,
        room: 26,
        steps: 100,
        ran: 100,
        refused: Some(MemFault::CoreFull(Need {
            object: 8,
            words: 35,
            entries: 73,
        })),
    },
    Run {
        code: IDLE,
        core: 5,
        entries: 51,
        room: 26,
        steps: 100,
        ran: 0,
        refused: Some(MemFault::CoreFull(Need {
            object: 8,
            words: 6,
            entries: 51,
        })),
    },
    Run {
        code: IDLE,
        core: 7,
        entries: 51,
        room: 26,
        steps: 100,
        ran: 0,
        refused: Some(MemFault::CoreFull(Need {
            object: 62,
            words: 8,
            entries: 51,
        })),
    },
    Run {
        code: IDLE,
        core: 21,
        entries: 51,
        room: 26,
        steps: 100,
        ran: 0,
        refused: Some(MemFault::CoreFull(Need {
            object: 66,
            words: 22,
            entries: 51,
        })),
    },
    Run {
        code: IDLE,
        core: 22,
        entries: 70,
        room: 26,
        steps: 100,
        ran: 0,
        refused: Some(MemFault::CoreFull(Need {
            object: 66,
            words: 22,
            entries: 71,
        })),
    },
    Run {
        code: IDLE,
        core: 28,
        entries: 71,
        room: 26,
        steps: 100,
        ran: 0,
        refused: Some(MemFault::CoreFull(Need {
            object: 64,
            words: 29,
            entries: 71,
        })),
    },
    Run {
        code: IDLE,
        core: 29,
        entries: 72,
        room: 26,
        steps: 100,
        ran: 0,
        refused: Some(MemFault::CoreFull(Need {
            object: 64,
            words: 29,
            entries: 73,
        })),
    },
    Run {
        code: BLOCKS,
        core: 100,
        entries: 100,
        room: 26,
        steps: 100,
        ran: 2,
        refused: Some(MemFault::WorkFull { live: 27, room: 26 }),
    },
    Run {
        code: BLOCKS,
        core: 100,
        entries: 100,
        room: 27,
        steps: 100,
        ran: 100,
        refused: None,
    },
];

/// The base image with this code in place of its method's.
fn with_code(alloc: Global, code: &[u8]) -> Result<PlainMemory, Fail>
    ensures slots { IfOk result (λ m. (plain_told m).slots ≡ (λ i. None)) }
    ensures ready { IfOk result (λ m. IsReady (plain_told m)) }
{
    let mut builder = base(alloc)?;
    add_method(alloc, &mut builder, name(METHOD), Header::PLAIN, &[], code)?;
    Ok(memory(alloc, &builder, NEXT)?)
}

/// How many bytecodes of a run were run, or why no more.
fn ran(alloc: Global, plain: PlainMemory, row: &Run) -> Result<u32, Halted>
    requires slots { (plain_told plain).slots ≡ (λ i. None) }
    requires ready { IsReady (plain_told plain) }
{
    let mut m = BoundedMemory::new(plain, row.core, row.entries, u32::from(row.room), 26);
    let events = EventList::new(alloc);
    let finished = whole_run(alloc, &mut m, &events, row.steps, &State::NONE)?;
    Ok(finished.ran)
}

fn wanted(row: &Run) -> Result<u32, Halted> {
    match row.refused {
        None => Ok(row.ran),
        Some(fault) => Err(Halted {
            why: Reason::ByStop(Stop::Mem(fault)),
            ran: row.ran,
        }),
    }
}

/// Whether a run comes out as its row says.
fn is_right(alloc: Global, row: &Run) -> Result<bool, Fail> {
    let plain = with_code(alloc, row.code)?;
    Ok(ran(alloc, plain, row) == wanted(row))
}

/// The first run that comes out otherwise.
fn first_wrong(alloc: Global) -> Result<Option<usize>, Fail> {
    for (i, row) in RUNS.iter().enumerate() {
        if !is_right(alloc, row)? {
            return Ok(Some(i));
        }
    }
    Ok(None)
}

// The association 8 has 2 fields, the process 62 has 4, its context 66 has 18, and the method 64 takes 3 words. An object takes 4 words
// more, and an access 51 entries, beside 2 for each pinned object and one for each of its fields. A start reads 8 to 62, then pins 66
// and 64; a step needs both, and at the end 8 and 62 are read beside them.
#[test]
fn in_small_cores(rt: HostRuntime) -> Result<(), Fail> {
    assert_eq!(rt; first_wrong(rt.alloc())?, None);
    Ok(())
}
