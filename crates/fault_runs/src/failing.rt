// Each call on a role fails in turn.
ghost use Rattle.std.specs.Prelude.{◌<◌};

use crate::left::{Left, is_file_left, is_left};
use anyhow::{Result, bail};
use case_runs::{Case, DISPLAY, SAVED, Way, host_of, words_of};
use loom_outside::Role::{self, Display, Events, Image, Notes, Saved, Transcript, Work};
use loom_outside::{Host, MemoryHost};
use loom_run::{Status, loom};
use std::alloc::Global;

pub const ROLES: [Role; 7] = [Image, Events, Work, Transcript, Saved, Display, Notes];

/// More calls on a role than a run of a case makes.
const MOST_CALLS: u64 = 65_536;

/// So often that number is halved until 1 is left.
const MOST_HALVINGS: u32 = 16;

/// How many bytes a call moves at most, so that each byte of a stream is a call.
const CHUNK: usize = 1;

/// When a call comes that fails, as far as what is left then goes by that.
#[derive(Clone, Copy, Debug, PartialEq, Eq)]
enum Point {
    /// Of Work, once Saved was to be attached.
    Saving,
    /// Of Saved, the last one, which ends it. Before it come one to attach it and one for each byte.
    Ending,
    /// Any other.
    Other,
}

/// A way to run a case on its own sizes, a byte in a call.
pub fn own_way<'a>(case: &'a Case<'a>) -> Way<'a>
    ensures { 0 < result.chunk }
{
    Way {
        events: &case.events,
        sizes: case.sizes,
        chunk: CHUNK,
    }
}

/// How many calls on a role a run of a case makes. Each fails in turn, and it is refused where one of these runs, or the one of which none
/// fails, comes out wrong.
pub fn count_calls(alloc: Global, case: &Case<'_>, role: Role) -> Result<u64> {
    let saving = match role {
        Work => first_in_saving(alloc, case)?,
        _ => MOST_CALLS,
    };
    for nth in 1..MOST_CALLS {
        let (status, host) = run_failing(alloc, case, &[(role, nth)])?;
        if host.fault_count(role) == 0 {
            if !is_whole(case, status, &host) {
                bail!("{role:?}: without a failure it comes out wrong");
            }
            return Ok(nth.saturating_sub(1));
        }
        let point = match role {
            Work if nth >= saving => Point::Saving,
            Saved if nth == last_on_saved(case) => Point::Ending,
            _ => Point::Other,
        };
        if let Some(wrong) = wrong_part(case, role, point, status, &host) {
            bail!("{role:?}: call {nth}: {wrong}");
        }
    }
    bail!("{role:?}: too many calls")
}

// The number of the call by which a run of a case ends Saved.
fn last_on_saved(case: &Case<'_>) -> u64 {
    match &case.want.saved {
        Some(saved) => (saved.len() as u64).saturating_add(2),
        None => MOST_CALLS,
    }
}

// A run of which these calls fail.
fn run_failing(
    alloc: Global,
    case: &Case<'_>,
    failing: &[(Role, u64)],
) -> Result<(Status, MemoryHost)> {
    let mut host = host_of(alloc, case, own_way(case))?;
    for (role, nth) in failing {
        host.fail(*role, *nth)?;
    }
    let words = words_of(alloc, case.sizes, case.steps)?;
    let status = loom(alloc, &mut host, &words);
    Ok((status, host))
}

// The first call on Work that comes once Saved was to be attached: where that fails too, it does first. It is found by halving.
fn first_in_saving(alloc: Global, case: &Case<'_>) -> Result<u64> {
    let (mut before, mut first) = (0u64, MOST_CALLS);
    for _ in 0..MOST_HALVINGS {
        let nth = before.saturating_add(first) / 2;
        let (_, host) = run_failing(alloc, case, &[(Work, nth), (Saved, 1)])?;
        if host.fault_count(Work) == 0 {
            first = nth;
        } else {
            before = nth;
        }
    }
    Ok(first)
}

/// Whether a run answers what the case wants.
pub fn is_whole(case: &Case<'_>, status: Status, host: &MemoryHost) -> bool {
    let want = &case.want;
    status.code() == want.status
        && host.notes() == want.notes.as_slice()
        && host.transcript() == want.transcript.as_slice()
        && host.file(SAVED) == want.saved.as_deref()
        && host.file(DISPLAY) == want.display.as_deref()
        && host.ended(Saved) == end_of(case)
}

// How many bytes of Saved were put when it was ended, in a run that came behind it.
fn end_of(case: &Case<'_>) -> Option<usize> {
    match &case.want.saved {
        Some(saved) => Some(saved.len()),
        None => None,
    }
}

// Saved is ended where it was put whole and no call on it failed, and nowhere else.
fn is_end_right(case: &Case<'_>, role: Role, host: &MemoryHost) -> bool {
    match role {
        Display | Notes => host.ended(Saved) == end_of(case),
        _ => host.ended(Saved).is_none(),
    }
}

// The answer of a run of which one call on a role failed.
fn fault_of(role: Role) -> Status {
    match role {
        Image | Events => Status::ReadFault { role, count: 1 },
        Work => Status::WorkFault { count: 1 },
        Transcript | Saved | Display | Notes => Status::WriteFault { role, count: 1 },
    }
}

// Its line. Of a fault of Notes there is none.
fn line_of(role: Role) -> &'static str {
    match role {
        Image => "read fault: Image\n",
        Events => "read fault: Events\n",
        Work => "work fault\n",
        Transcript => "write fault: Transcript\n",
        Saved => "write fault: Saved\n",
        Display => "write fault: Display\n",
        Notes => "",
    }
}

// Where the line of a refusal can't be written, the answer stays.
fn is_answer(case: &Case<'_>, role: Role, status: Status) -> bool {
    if role == Notes && case.want.status != 0 {
        status.code() == case.want.status
    } else {
        status == fault_of(role)
    }
}

fn is_noted(case: &Case<'_>, role: Role, host: &MemoryHost) -> bool {
    if role == Notes {
        is_left(host.notes(), &case.want.notes, Left::Cut)
    } else {
        host.notes() == line_of(role).as_bytes()
    }
}

// Whether one call failed in all, and it was on this role.
fn is_only_fault(role: Role, host: &MemoryHost) -> bool {
    for other in ROLES {
        let faults = if other == role { 1 } else { 0 };
        if host.fault_count(other) != faults {
            return false;
        }
    }
    true
}

// How much there is of Transcript, Saved and Display where a call on a role failed.
fn parts_left(role: Role, point: Point) -> (Left, Left, Left) {
    match role {
        Image | Events => (Left::Nothing, Left::Nothing, Left::Nothing),
        Work if point == Point::Saving => (Left::Whole, Left::Begun, Left::Nothing),
        Work => (Left::Begun, Left::Nothing, Left::Nothing),
        Transcript => (Left::Cut, Left::Nothing, Left::Nothing),
        Saved if point == Point::Ending => (Left::Whole, Left::Whole, Left::Nothing),
        Saved => (Left::Whole, Left::Cut, Left::Nothing),
        Display => (Left::Whole, Left::Whole, Left::Cut),
        Notes => (Left::Whole, Left::Whole, Left::Whole),
    }
}

// What is wrong of a run of which a call on a role failed.
fn wrong_part(
    case: &Case<'_>,
    role: Role,
    point: Point,
    status: Status,
    host: &MemoryHost,
) -> Option<&'static str> {
    let want = &case.want;
    let (transcript, saved, display) = parts_left(role, point);
    if !is_answer(case, role, status) {
        Some("another answer")
    } else if !is_only_fault(role, host) {
        Some("another count of faults")
    } else if !is_noted(case, role, host) {
        Some("another line")
    } else if !is_left(host.transcript(), &want.transcript, transcript) {
        Some("another transcript")
    } else if !is_file_left(host.file(SAVED), want.saved.as_deref(), saved) {
        Some("another saved image")
    } else if point == Point::Saving && host.file(SAVED).is_none() {
        Some("no saved image")
    } else if !is_end_right(case, role, host) {
        Some("another end of the saved image")
    } else if !is_file_left(host.file(DISPLAY), want.display.as_deref(), display) {
        Some("another picture")
    } else {
        None
    }
}
