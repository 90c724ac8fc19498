// Why a run that keeps checkpoints is refused, in which order, and what it leaves alone then; and how much room it takes.
use crate::commands::{ask, fail_first, host_of, resume, serial_in};
use crate::images::Sample;
use crate::refusals::Before::{Fresh, Kept, Nothing};
use crate::states::{After, is_last, vault_after};
use checkpoint::{MemoryVault, Vault, fresh};
use loom_outside::Role::{self, Display, Events, Image, Notes, Saved, Transcript, Work};
use loom_outside::{Host, MemoryHost};
use loom_words::Status;
use std::alloc::{AllocError, Global};
use std::test::Fail;

/// What stands in a vault.
#[derive(Clone, Copy)]
enum Before {
    /// It was never opened.
    Nothing,
    /// It was opened, and its gates were closed.
    Fresh,
    /// A checkpoint of serial 1, of the image `Snaps`.
    Kept,
}

/// A run that is refused, or isn't.
struct Refusal {
    before: Before,
    /// How many calls on the vault pass, each number in turn; all, where none is said.
    fuses: &'static [u64],
    command: &'static str,
    /// Roles of which the first call is to fail, and the one of which it is made.
    failing: &'static [Role],
    called: Option<Role>,
    status: Status,
    notes: &'static str,
    /// The serial that is found afterwards, 0 for none.
    after: u64,
}

const GUARD: &str = "guard i e w s d 4096 512 1024 6 v";

const RESUME: &str = "resume v e w s d 4096 512 1024 4";

/// All roles but Notes.
const ALL: &[Role] = &[Image, Events, Work, Saved, Display, Transcript];

const FAULT: Status = Status::VaultFault { count: 1 };

const UNLISTENED: Status = Status::ReadFault {
    role: Events,
    count: 1,
};

const UNREAD: Status = Status::ReadFault {
    role: Image,
    count: 1,
};

const UNWORKED: Status = Status::WorkFault { count: 1 };

const UNSAVED: Status = Status::WriteFault {
    role: Saved,
    count: 1,
};

const UNDRAWN: Status = Status::WriteFault {
    role: Display,
    count: 1,
};

const UNNOTED: Status = Status::WriteFault {
    role: Notes,
    count: 1,
};

// The vault comes first: where it is at fault or without a checkpoint no role but Notes is called. A guarded run takes the checkpoint that the vault had, also
// where its image can't be read then, and a resumed one never attaches Image.
const REFUSALS: &[Refusal] = &[
    Refusal {
        before: Nothing,
        fuses: &[0, 1, 2, 3],
        command: GUARD,
        failing: ALL,
        called: None,
        status: FAULT,
        notes: "vault fault\n",
        after: 0,
    },
    Refusal {
        before: Kept,
        fuses: &[1, 2, 3],
        command: GUARD,
        failing: ALL,
        called: None,
        status: FAULT,
        notes: "vault fault\n",
        after: 0,
    },
    Refusal {
        before: Kept,
        fuses: &[],
        command: GUARD,
        failing: ALL,
        called: Some(Work),
        status: UNWORKED,
        notes: "work fault\n",
        after: 0,
    },
    Refusal {
        before: Kept,
        fuses: &[],
        command: GUARD,
        failing: &[Image, Events, Saved, Display],
        called: Some(Image),
        status: UNREAD,
        notes: "read fault: Image\n",
        after: 0,
    },
    Refusal {
        before: Kept,
        fuses: &[],
        command: GUARD,
        failing: &[Events, Saved, Display],
        called: Some(Events),
        status: UNLISTENED,
        notes: "read fault: Events\n",
        after: 0,
    },
    Refusal {
        before: Kept,
        fuses: &[],
        command: "guard i x w s d 4096 512 1024 6 v",
        failing: &[Saved, Display],
        called: None,
        status: Status::EventsBad { line: 1 },
        notes: "events: line 1\n",
        after: 0,
    },
    Refusal {
        before: Nothing,
        fuses: &[],
        command: GUARD,
        failing: &[Saved, Display],
        called: Some(Saved),
        status: UNSAVED,
        notes: "write fault: Saved\n",
        after: 2,
    },
    Refusal {
        before: Nothing,
        fuses: &[],
        command: GUARD,
        failing: &[Display],
        called: Some(Display),
        status: UNDRAWN,
        notes: "write fault: Display\n",
        after: 2,
    },
    Refusal {
        before: Nothing,
        fuses: &[],
        command: GUARD,
        failing: &[Notes],
        called: Some(Notes),
        status: UNNOTED,
        notes: "",
        after: 2,
    },
    Refusal {
        before: Nothing,
        fuses: &[4],
        command: GUARD,
        failing: &[Saved, Notes],
        called: Some(Notes),
        status: FAULT,
        notes: "",
        after: 0,
    },
    Refusal {
        before: Nothing,
        fuses: &[],
        command: RESUME,
        failing: ALL,
        called: None,
        status: Status::NoCheckpoint,
        notes: "no checkpoint\n",
        after: 0,
    },
    Refusal {
        before: Fresh,
        fuses: &[],
        command: RESUME,
        failing: ALL,
        called: None,
        status: Status::NoCheckpoint,
        notes: "no checkpoint\n",
        after: 0,
    },
    Refusal {
        before: Fresh,
        fuses: &[],
        command: RESUME,
        failing: &[Notes],
        called: Some(Notes),
        status: Status::NoCheckpoint,
        notes: "",
        after: 0,
    },
    Refusal {
        before: Fresh,
        fuses: &[0, 1, 2, 3],
        command: RESUME,
        failing: ALL,
        called: None,
        status: FAULT,
        notes: "vault fault\n",
        after: 0,
    },
    Refusal {
        before: Kept,
        fuses: &[0, 1, 2, 3, 4, 5],
        command: RESUME,
        failing: ALL,
        called: None,
        status: FAULT,
        notes: "vault fault\n",
        after: 1,
    },
    Refusal {
        before: Kept,
        fuses: &[4],
        command: RESUME,
        failing: &[Notes],
        called: Some(Notes),
        status: FAULT,
        notes: "",
        after: 1,
    },
    Refusal {
        before: Kept,
        fuses: &[],
        command: RESUME,
        failing: ALL,
        called: Some(Work),
        status: UNWORKED,
        notes: "work fault\n",
        after: 1,
    },
    Refusal {
        before: Kept,
        fuses: &[],
        command: RESUME,
        failing: &[Image, Events, Saved, Display],
        called: Some(Events),
        status: UNLISTENED,
        notes: "read fault: Events\n",
        after: 1,
    },
    Refusal {
        before: Kept,
        fuses: &[],
        command: "resume v x w s d 4096 512 1024 4",
        failing: &[Image, Saved, Display],
        called: None,
        status: Status::EventsBad { line: 1 },
        notes: "events: line 1\n",
        after: 1,
    },
    Refusal {
        before: Kept,
        fuses: &[7],
        command: RESUME,
        failing: &[Image, Saved],
        called: None,
        status: FAULT,
        notes: "vault fault\n",
        after: 1,
    },
    Refusal {
        before: Kept,
        fuses: &[],
        command: RESUME,
        failing: &[Image, Saved, Display],
        called: Some(Saved),
        status: UNSAVED,
        notes: "write fault: Saved\n",
        after: 2,
    },
    Refusal {
        before: Kept,
        fuses: &[],
        command: RESUME,
        failing: &[Image, Display],
        called: Some(Display),
        status: UNDRAWN,
        notes: "write fault: Display\n",
        after: 2,
    },
    Refusal {
        before: Kept,
        fuses: &[],
        command: RESUME,
        failing: &[Image],
        called: None,
        status: Status::Done { ran: 4 },
        notes: "ran 4\n",
        after: 2,
    },
    Refusal {
        before: Kept,
        fuses: &[],
        command: RESUME,
        failing: &[Image, Notes],
        called: Some(Notes),
        status: UNNOTED,
        notes: "",
        after: 2,
    },
];

const ROLES: &[Role] = &[Image, Events, Work, Transcript, Saved, Display, Notes];

fn vault_for(alloc: Global, before: Before) -> Result<MemoryVault, Fail> {
    match before {
        Nothing => Ok(MemoryVault::new(alloc)?),
        Fresh => {
            let mut vault = MemoryVault::new(alloc)?;
            vault.open_named("v", true)?;
            fresh(&mut vault)?;
            Ok(vault)
        }
        Kept => vault_after(alloc, 1, Sample::Snaps, After::Snaps2),
    }
}

// A host with the image, no events, and a file `x` that is no event file.
fn host_for(alloc: Global, failing: &[Role]) -> Result<MemoryHost, Fail> {
    let mut host = host_of(alloc, "", Sample::Snaps)?;
    host.add_file("x", b"7 words\n")?;
    fail_first(&mut host, failing)?;
    Ok(host)
}

// Whether one call failed in all, on this role, or none.
fn is_called(host: &MemoryHost, called: Option<Role>) -> bool {
    for role in ROLES {
        let faults = if called == Some(*role) { 1 } else { 0 };
        if host.fault_count(*role) != faults {
            return false;
        }
    }
    true
}

// Whether a command is answered as its row says.
fn is_answered(
    alloc: Global,
    host: &mut MemoryHost,
    vault: &mut MemoryVault,
    row: &Refusal,
) -> Result<bool, AllocError> {
    let status = ask(alloc, host, vault, row.command)?;
    Ok(status == row.status && host.notes() == row.notes.as_bytes() && is_called(host, row.called))
}

fn is_right(alloc: Global, row: &Refusal, fuse: Option<u64>) -> Result<bool, Fail> {
    let mut vault = vault_for(alloc, row.before)?;
    let mut host = host_for(alloc, row.failing)?;
    if let Some(calls) = fuse {
        vault.fuse(calls);
    }
    let answered = is_answered(alloc, &mut host, &mut vault, row)?;
    vault.stop(0, 0);
    Ok(answered && serial_in(alloc, &mut vault)? == row.after)
}

// The number of calls of a row with which it comes out otherwise; None where each comes out right.
fn first_wrong(alloc: Global, row: &Refusal) -> Result<Option<u64>, Fail> {
    if row.fuses.is_empty() && !is_right(alloc, row, None)? {
        return Ok(Some(u64::MAX));
    }
    for calls in row.fuses {
        if !is_right(alloc, row, Some(*calls))? {
            return Ok(Some(*calls));
        }
    }
    Ok(None)
}

#[test]
fn refusals_come_in_their_order(rt: HostRuntime) -> Result<(), Fail> {
    for (i, row) in REFUSALS.iter().enumerate() {
        assert_eq!(rt; (i, first_wrong(rt.alloc(), row)?), (i, None));
    }
    Ok(())
}

// Whether three runs are stopped by their vault, each with its count, and one behind them isn't.
fn is_counted(alloc: Global, host: &mut MemoryHost, vault: &mut MemoryVault) -> Result<bool, Fail> {
    for count in 1..=3 {
        vault.fuse(2);
        let status = resume(alloc, host, vault, 1)?;
        vault.stop(0, 0);
        if status != (Status::VaultFault { count }) {
            return Ok(false);
        }
    }
    Ok(resume(alloc, host, vault, 1)? == Status::Done { ran: 1 })
}

// The faults of a vault are counted from when it was made.
#[test]
fn faults_of_a_vault_are_counted(rt: HostRuntime) -> Result<(), Fail> {
    let mut vault = vault_for(rt.alloc(), Kept)?;
    let mut host = host_for(rt.alloc(), &[])?;
    assert!(rt; is_counted(rt.alloc(), &mut host, &mut vault)?);
    assert_eq!(rt;
        host.notes(),
        b"vault fault\nvault fault\nvault fault\nran 1\n".as_slice()
    );
    Ok(())
}

// ---- room

/// A command in the crowded image's course, its answer, and what is the vault's checkpoint then.
struct Room {
    command: &'static str,
    status: Status,
    serial: u64,
    kept: After,
}

const FULL: Status = Status::WorkFull {
    live: 1_025,
    room: 1_024,
};

// There is room for the first checkpoint's objects and for no more. The second one's aren't loaded where there is room for one less.
const ROOMS: &[Room] = &[
    Room {
        command: "guard i e w s d 4096 512 1024 9 v",
        status: FULL,
        serial: 1,
        kept: After::Crowded2,
    },
    Room {
        command: "resume v e w s d 4096 512 1024 7",
        status: FULL,
        serial: 1,
        kept: After::Crowded2,
    },
    Room {
        command: "resume v e w s d 4096 512 1024 3",
        status: Status::Done { ran: 3 },
        serial: 1,
        kept: After::Crowded2,
    },
    Room {
        command: "resume v e w s d 4096 512 1025 7",
        status: Status::Done { ran: 7 },
        serial: 2,
        kept: After::Crowded8,
    },
    Room {
        command: "resume v none w s d 4096 512 1024 1",
        status: FULL,
        serial: 2,
        kept: After::Crowded8,
    },
    Room {
        command: "resume v e w s d 4096 512 1025 1",
        status: Status::Done { ran: 1 },
        serial: 2,
        kept: After::Crowded8,
    },
];

// Whether a command is answered so, and leaves that checkpoint.
fn has_room(
    alloc: Global,
    host: &mut MemoryHost,
    vault: &mut MemoryVault,
    row: &Room,
) -> Result<bool, Fail> {
    let status = ask(alloc, host, vault, row.command)?;
    Ok(status == row.status && is_last(alloc, vault, row.serial, Sample::Crowded, row.kept)?)
}

#[test]
fn more_room_helps(rt: HostRuntime) -> Result<(), Fail> {
    let mut host = host_of(rt.alloc(), "", Sample::Crowded)?;
    let mut vault = MemoryVault::new(rt.alloc())?;
    for (i, row) in ROOMS.iter().enumerate() {
        assert_eq!(rt;
            (i, has_room(rt.alloc(), &mut host, &mut vault, row)?),
            (i, true)
        );
    }
    Ok(())
}
