// Words: of the commands that keep checkpoints, those that are bad, missing or extra; and of other commands, which leave the vault alone.
use crate::commands::{ask, host_of, serial_in, words_of};
use crate::images::Sample;
use crate::states::{After, is_saved, vault_after};
use checkpoint::{MemoryVault, Vault};
use loom_outside::Role::Image;
use loom_outside::{Host, MemoryHost};
use loom_run::loom;
use loom_words::Status;
use std::alloc::{AllocError, Global};
use std::test::Fail;

/// An answer, its line, and commands that come to it over a host without files and a vault that was never opened.
struct Words {
    status: Status,
    notes: &'static str,
    commands: &'static [&'static str],
}

const WORDS: &[Words] = &[
    Words {
        status: Status::Usage { word: 1 },
        notes: "usage: word 1\n",
        commands: &["", "Guard i e w s d 4096 512 1024 6 v", "guards", "resumed"],
    },
    Words {
        status: Status::Usage { word: 2 },
        notes: "usage: word 2\n",
        commands: &["guard", "resume"],
    },
    Words {
        status: Status::Usage { word: 3 },
        notes: "usage: word 3\n",
        commands: &["resume v v w s d 4096 512 1024 6"],
    },
    Words {
        status: Status::Usage { word: 6 },
        notes: "usage: word 6\n",
        commands: &[
            "guard i e w s s 4096 512 1024 6 v",
            "resume v e w s v 4096 512 1024 6",
        ],
    },
    Words {
        status: Status::Usage { word: 7 },
        notes: "usage: word 7\n",
        commands: &[
            "guard i e w s d 4095 512 1024 6 v",
            "resume v e w s d 4095 512 1024 6",
        ],
    },
    Words {
        status: Status::Usage { word: 10 },
        notes: "usage: word 10\n",
        commands: &[
            "guard i e w s d 4096 512 1024 06 v",
            "resume v e w s d 4096 512 1024 x",
            "resume v e w s d 4096 512 1024",
        ],
    },
    Words {
        status: Status::Usage { word: 11 },
        notes: "usage: word 11\n",
        commands: &[
            "guard i e w s d 4096 512 1024 6",
            "guard i e w s d 4096 512 1024 6 i",
            "guard i e w s d 4096 512 1024 6 w",
            "guard i e w s d 4096 512 1024 6 d",
            "resume v e w s d 4096 512 1024 6 v",
        ],
    },
    Words {
        status: Status::Usage { word: 12 },
        notes: "usage: word 12\n",
        commands: &["guard i e w s d 4096 512 1024 6 v v"],
    },
    Words {
        status: Status::NoCheckpoint,
        notes: "no checkpoint\n",
        commands: &[
            "resume v e w e d 4096 512 1024 0",
            "resume i e w s d 65536 32767 1048576 2147483647",
        ],
    },
];

// Whether a command comes to an answer; bad words do so without a call on the vault.
fn answers(
    alloc: Global,
    host: &mut MemoryHost,
    vault: &mut MemoryVault,
    row: &Words,
    command: &str,
) -> Result<bool, AllocError> {
    if matches!(row.status, Status::Usage { .. }) {
        vault.fuse(0);
    }
    let status = ask(alloc, host, vault, command)?;
    Ok(status == row.status && host.notes() == row.notes.as_bytes())
}

// The same over a host and a vault of its own, on which no call fails.
fn is_answered(alloc: Global, row: &Words, command: &str) -> Result<bool, AllocError> {
    let mut host = MemoryHost::new(alloc, 100)?;
    let mut vault = MemoryVault::new(alloc)?;
    let right = answers(alloc, &mut host, &mut vault, row, command)?;
    Ok(right && host.fault_count(Image) == 0 && vault.fault_count() == 0)
}

// The first command of a row that doesn't.
fn first_wrong(alloc: Global, row: &Words) -> Result<Option<&'static str>, AllocError> {
    for command in row.commands {
        if !is_answered(alloc, row, command)? {
            return Ok(Some(command));
        }
    }
    Ok(None)
}

#[test]
fn words_are_read(rt: HostRuntime) -> Result<(), Fail> {
    for (i, row) in WORDS.iter().enumerate() {
        assert_eq!(rt; (i, first_wrong(rt.alloc(), row)?), (i, None));
    }
    Ok(())
}

// ---- other commands

/// Commands that don't keep checkpoints, over a host with an image `i` and no events `e`.
const OTHERS: &[&str] = &[
    "run i e w s d 4096 512 1024 3",
    "run i e w s d 4096 512 1024 99",
    "run none e w s d 4096 512 1024 3",
    "run i e w s d 4096 512 1024",
    "trace i e w s 4096 512 1024 4",
    "make 3 s",
    "make 3",
    "list none w s",
    "asm none w s",
];

fn ask_loom(alloc: Global, host: &mut MemoryHost, line: &str) -> Result<Status, AllocError> {
    let words = words_of(alloc, line)?;
    Ok(loom(alloc, host, &words))
}

// The answer of a command that leaves a vault alone, of which no call would pass.
fn answer_beside(alloc: Global, host: &mut MemoryHost, command: &str) -> Result<Status, Fail> {
    let mut vault = vault_after(alloc, 1, Sample::Snaps, After::Snaps2)?;
    vault.fuse(0);
    let status = ask(alloc, host, &mut vault, command)?;
    let called = vault.fault_count() != 0;
    vault.stop(0, 0);
    if called || serial_in(alloc, &mut vault)? != 1 {
        return Err("the vault is called by none".into());
    }
    Ok(status)
}

// Whether two hosts have the same files then.
fn is_alike(host: &MemoryHost, other: &MemoryHost) -> bool {
    host.notes() == other.notes()
        && host.transcript() == other.transcript()
        && host.file("s") == other.file("s")
        && host.file("d") == other.file("d")
}

// Whether a command is answered as `loom` does it.
fn is_as_before(alloc: Global, command: &str) -> Result<bool, Fail> {
    let mut host = host_of(alloc, "", Sample::Snaps)?;
    let mut other = host_of(alloc, "", Sample::Snaps)?;
    let status = answer_beside(alloc, &mut host, command)?;
    let wanted = ask_loom(alloc, &mut other, command)?;
    Ok(status == wanted && is_alike(&host, &other))
}

#[test]
fn other_commands_leave_the_vault_alone(rt: HostRuntime) -> Result<(), Fail> {
    for command in OTHERS {
        assert_eq!(rt;
            (*command, is_as_before(rt.alloc(), command)?),
            (*command, true)
        );
    }
    Ok(())
}

// Whether a run of three bytecodes keeps nothing.
fn keeps_nothing(alloc: Global, host: &mut MemoryHost) -> Result<bool, Fail> {
    let mut vault = MemoryVault::new(alloc)?;
    let status = ask(alloc, host, &mut vault, OTHERS[0])?;
    Ok(status == Status::Done { ran: 3 } && serial_in(alloc, &mut vault)? == 0)
}

// There the primitive fails, so its method is run, in a context of its own.
#[test]
fn a_run_keeps_nothing(rt: HostRuntime) -> Result<(), Fail> {
    let mut host = host_of(rt.alloc(), "", Sample::Snaps)?;
    assert!(rt; keeps_nothing(rt.alloc(), &mut host)?);
    assert!(rt; is_saved(rt.alloc(), &host, Sample::Snaps, After::Unkept3)?);
    Ok(())
}
