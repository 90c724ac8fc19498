// What a resumed run answers to the gates of a vault, and to the bytes of an image in it.
use crate::commands::{
    Gate, fail_first, gate_place, guard, host_of, host_with, image_place, put_gate, resume,
};
use crate::images::Sample;
use crate::states::{After, vault_after};
use checkpoint::{MemoryVault, Vault};
use loom_outside::Role::{self, Display, Events, Image, Saved, Transcript, Work};
use loom_outside::{Host, MemoryHost};
use loom_words::Status;
use std::alloc::Global;
use std::test::Fail;

/// Below this is each serial, and above that no length.
const SERIAL_END: u64 = 1 << 62;

const MOST: u64 = 1 << 42;

/// Gates, and the place of the first that is bad.
const BAD: &[(&[Gate], u64)] = &[
    (&[(0, 1, SERIAL_END, 36)], 0),
    (&[(0, 1, u64::MAX - 1, 36)], 0),
    (&[(512, 1, SERIAL_END + 1, 36)], 512),
    (&[(512, 1, u64::MAX, 36)], 512),
    (&[(0, 1, 1, 36)], 0),
    (&[(512, 1, 2, 36)], 512),
    (&[(0, 1, 2, 35)], 0),
    (&[(512, 1, 1, 0)], 512),
    (&[(0, 1, 2, MOST + 1)], 0),
    (&[(512, 1, 1, u64::MAX)], 512),
    (&[(0, 1, 2, 36), (512, 1, 2, 36)], 512),
    (&[(0, 1, 3, 36), (512, 1, 3, 36)], 0),
    (&[(0, 1, 3, 36), (512, 1, 4, 36)], 0),
];

/// Gates that are all closed.
const CLOSED: &[&[Gate]] = &[
    &[],
    &[(0, 0, 2, 36), (512, 0, 1, 36)],
    &[(0, 0, 7, 3), (512, 255, u64::MAX, u64::MAX)],
    &[(0, 1, 0, 0), (512, 2, 1, 36)],
    &[(512, 1, 0, 36)],
];

/// What is done to the image of a checkpoint.
#[derive(Clone, Copy)]
enum Damage {
    /// Bytes are written over it from an offset on.
    Bytes(u64, &'static [u8]),
    /// The gate says another length.
    Length(u64),
}

use crate::gates::Damage::{Bytes, Length};

/// The rule that the image breaks then, and its place.
const DAMAGES: &[(Damage, u8, u64)] = &[
    (Bytes(0, &[0]), 1, 0),
    (Bytes(4, &[0, 0, 0, 3]), 2, 4),
    (Bytes(15, &[77]), 3, 12),
    (Bytes(15, &[60]), 4, 496),
    (Bytes(23, &[78]), 13, 20),
    (Bytes(35, &[1]), 13, 32),
    (Bytes(39, &[3]), 4, 36),
    (Bytes(43, &[0]), 6, 40),
    (Bytes(49, &[9]), 11, 2),
    (Length(835), 9, 835),
    (Length(837), 9, 836),
    (Length(36), 9, 36),
];

fn vault_with(alloc: Global, gates: &[Gate]) -> Result<MemoryVault, Fail> {
    let mut vault = MemoryVault::new(alloc)?;
    for gate in gates {
        put_gate(&mut vault, *gate)?;
    }
    Ok(vault)
}

/// The roles that no run calls where its vault or the image there is bad, and these with Work.
const UNCALLED: &[Role] = &[Image, Events, Saved, Display, Transcript];

const ALL: &[Role] = &[Image, Events, Saved, Display, Transcript, Work];

// A host of which each first call fails but those on Notes, or those on Notes and Work.
fn host_for(alloc: Global, works: bool) -> Result<MemoryHost, Fail> {
    let mut host = host_with(alloc, "")?;
    let failing = if works { UNCALLED } else { ALL };
    fail_first(&mut host, failing)?;
    Ok(host)
}

// How many calls have failed on these roles.
fn faults(host: &MemoryHost) -> u64 {
    let mut faults = 0u64;
    for role in ALL {
        faults = faults.saturating_add(host.fault_count(*role));
    }
    faults
}

// Whether a resumed run answers so, with this line, and calls no role of which the first call fails.
fn is_answered(
    alloc: Global,
    vault: &mut MemoryVault,
    works: bool,
    wanted: Status,
    notes: &str,
) -> Result<bool, Fail> {
    let mut host = host_for(alloc, works)?;
    let status = resume(alloc, &mut host, vault, 1)?;
    Ok(status == wanted && host.notes() == notes.as_bytes() && faults(&host) == 0)
}

// Whether it answers that the gate at a place is bad.
fn tells_bad(alloc: Global, gates: &[Gate], place: u64) -> Result<bool, Fail> {
    let mut vault = vault_with(alloc, gates)?;
    let notes = if place == 0 {
        "vault bad at 0\n"
    } else {
        "vault bad at 512\n"
    };
    is_answered(alloc, &mut vault, false, Status::VaultBad { place }, notes)
}

#[test]
fn a_bad_gate_is_told(rt: HostRuntime) -> Result<(), Fail> {
    for (i, (gates, place)) in BAD.iter().enumerate() {
        assert_eq!(rt; (i, tells_bad(rt.alloc(), *gates, *place)?), (i, true));
    }
    Ok(())
}

// Whether it answers that there is no checkpoint.
fn tells_none(alloc: Global, gates: &[Gate]) -> Result<bool, Fail> {
    let mut vault = vault_with(alloc, gates)?;
    is_answered(
        alloc,
        &mut vault,
        false,
        Status::NoCheckpoint,
        "no checkpoint\n",
    )
}

#[test]
fn closed_gates_are_no_checkpoint(rt: HostRuntime) -> Result<(), Fail> {
    for (i, gates) in CLOSED.iter().enumerate() {
        assert_eq!(rt; (i, tells_none(rt.alloc(), *gates)?), (i, true));
    }
    Ok(())
}

/// Where a bad gate stands, how many calls on the vault pass, and the answer.
const STOPPED: &[(u64, u64, Status, &str)] = &[
    (0, 2, Status::VaultFault { count: 1 }, "vault fault\n"),
    (0, 3, Status::VaultBad { place: 0 }, "vault bad at 0\n"),
    (512, 3, Status::VaultFault { count: 1 }, "vault fault\n"),
    (
        512,
        4,
        Status::VaultBad { place: 512 },
        "vault bad at 512\n",
    ),
];

fn is_stopped(
    alloc: Global,
    (place, calls, wanted, notes): (u64, u64, Status, &str),
) -> Result<bool, Fail> {
    let mut vault = vault_with(alloc, &[(place, 1, SERIAL_END, 36)])?;
    vault.fuse(calls);
    is_answered(alloc, &mut vault, false, wanted, notes)
}

// The first gate is read by the third call and the second by the fourth, so that of the first is told before the other is read.
#[test]
fn a_gate_is_judged_when_it_is_read(rt: HostRuntime) -> Result<(), Fail> {
    for row in STOPPED {
        assert!(rt; is_stopped(rt.alloc(), *row)?);
    }
    Ok(())
}

// ---- images

fn damaged(alloc: Global, damage: Damage) -> Result<MemoryVault, Fail> {
    let mut vault = vault_after(alloc, 1, Sample::Snaps, After::Snaps2)?;
    match damage {
        Bytes(offset, bytes) => {
            vault.write_at(image_place(1).saturating_add(offset), bytes)?;
        }
        Length(len) => put_gate(&mut vault, (gate_place(1), 1, 1, len))?,
    }
    Ok(vault)
}

fn tells_damage(alloc: Global, (damage, rule, place): (Damage, u8, u64)) -> Result<bool, Fail> {
    let mut vault = damaged(alloc, damage)?;
    let notes = format!(in alloc; "image: rule {rule} at {place}\n")?;
    is_answered(
        alloc,
        &mut vault,
        true,
        Status::ImageBad { rule, place },
        &notes,
    )
}

// The image is judged before Events is attached, and Image never is.
#[test]
fn a_damaged_image_is_told(rt: HostRuntime) -> Result<(), Fail> {
    for (i, row) in DAMAGES.iter().enumerate() {
        assert_eq!(rt; (i, tells_damage(rt.alloc(), *row)?), (i, true));
    }
    Ok(())
}

/// Bytes that are written over the image from an offset on, where the gate says the greatest length; how many calls on the vault the run makes then, and its answer.
struct Claim {
    offset: u64,
    bytes: &'static [u8],
    calls: u64,
    status: Status,
    notes: &'static str,
}

// Four calls come before the image's first 36 bytes are read, and none follows where these are refused.
const HEADS: &[Claim] = &[
    Claim {
        offset: 0,
        bytes: &[0],
        calls: 5,
        status: Status::ImageBad { rule: 1, place: 0 },
        notes: "image: rule 1 at 0\n",
    },
    Claim {
        offset: 4,
        bytes: &[0, 0, 0, 3],
        calls: 5,
        status: Status::ImageBad { rule: 2, place: 4 },
        notes: "image: rule 2 at 4\n",
    },
    Claim {
        offset: 8,
        bytes: &[0, 0, 0, 21],
        calls: 5,
        status: Status::ImageBad { rule: 3, place: 8 },
        notes: "image: rule 3 at 8\n",
    },
    Claim {
        offset: 8,
        bytes: &[255, 255, 255, 255],
        calls: 5,
        status: Status::ImageBad { rule: 3, place: 8 },
        notes: "image: rule 3 at 8\n",
    },
    Claim {
        offset: 15,
        bytes: &[77],
        calls: 5,
        status: Status::ImageBad { rule: 3, place: 12 },
        notes: "image: rule 3 at 12\n",
    },
    Claim {
        offset: 23,
        bytes: &[78],
        calls: 5,
        status: Status::ImageBad {
            rule: 13,
            place: 20,
        },
        notes: "image: rule 13 at 20\n",
    },
    Claim {
        offset: 8,
        bytes: &[0, 0, 4, 1],
        calls: 5,
        status: Status::WorkFull {
            live: 1_025,
            room: 1_024,
        },
        notes: "work full: 1025 objects, room 1024\n",
    },
    // there is no room, and a rule behind the first 16 bytes breaks
    Claim {
        offset: 8,
        bytes: &[0, 16, 0, 0, 0, 0, 0, 78, 0, 0, 0, 0, 0, 0, 0, 1],
        calls: 5,
        status: Status::WorkFull {
            live: 1_048_576,
            room: 1_024,
        },
        notes: "work full: 1048576 objects, room 1024\n",
    },
];

// The image has 31 objects and 836 bytes, so no byte of it stands behind 31 times the longest record. Of what is read up to there and just behind it, each block of
// 65,536 bytes takes a call.
const LONG: [Claim; 2] = [
    Claim {
        offset: 0,
        bytes: b"LOOM",
        calls: 5 + 125,
        status: Status::ImageBad {
            rule: 9,
            place: 836,
        },
        notes: "image: rule 9 at 836\n",
    },
    // one object more is stated than there is
    Claim {
        offset: 11,
        bytes: &[32],
        calls: 5 + 129,
        status: Status::ImageBad {
            rule: 4,
            place: 836,
        },
        notes: "image: rule 4 at 836\n",
    },
];

// Whether the run answers so, by so many calls on the vault.
fn is_judged(alloc: Global, row: &Claim) -> Result<bool, Fail> {
    let mut vault = damaged(alloc, Length(MOST))?;
    vault.write_at(image_place(1).saturating_add(row.offset), row.bytes)?;
    vault.fuse(row.calls);
    is_answered(alloc, &mut vault, true, row.status, row.notes)
}

// A length that can't be so is not believed: the answer is the one that the whole would get, and no more is read than that takes.
#[test]
fn a_head_is_judged_alone(rt: HostRuntime) -> Result<(), Fail> {
    for (i, row) in HEADS.iter().enumerate() {
        assert_eq!(rt; (i, is_judged(rt.alloc(), row)?), (i, true));
    }
    Ok(())
}

#[test]
fn a_length_is_not_believed(rt: HostRuntime) -> Result<(), Fail> {
    for (i, row) in LONG.iter().enumerate() {
        assert_eq!(rt; (i, is_judged(rt.alloc(), row)?), (i, true));
    }
    Ok(())
}

// An image that isn't there is told.
#[test]
fn no_image_is_told(rt: HostRuntime) -> Result<(), Fail> {
    let mut vault = vault_with(rt.alloc(), &[(512, 1, 1, 36)])?;
    let (bad, notes) = (
        Status::ImageBad { rule: 1, place: 0 },
        "image: rule 1 at 0\n",
    );
    assert!(rt; is_answered(rt.alloc(), &mut vault, true, bad, notes)?);
    Ok(())
}

// Whether a guarded run and one behind it go through over these gates.
fn is_run(alloc: Global, gates: &[Gate]) -> Result<bool, Fail> {
    let mut vault = vault_with(alloc, gates)?;
    let mut host = host_of(alloc, "", Sample::Snaps)?;
    let first = guard(alloc, &mut host, &mut vault, 6)?;
    let second = resume(alloc, &mut host, &mut vault, 1)?;
    Ok(first == Status::Done { ran: 6 } && second == Status::Done { ran: 1 })
}

// A guarded run opens a vault that is new, whatever it was.
#[test]
fn a_guarded_run_judges_no_gate(rt: HostRuntime) -> Result<(), Fail> {
    for (gates, _) in BAD {
        assert!(rt; is_run(rt.alloc(), *gates)?);
    }
    Ok(())
}
