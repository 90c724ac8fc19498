// Whole runs that keep checkpoints, and runs that go on from one: what they answer, say, keep, save and draw.
use crate::commands::{find, gate_place, guard, host_of, host_with, resume};
use crate::images::{Sample, image_of};
use crate::runs::Begins::{Image, Kept, Own};
use crate::states::{After, image_after, is_last, is_saved, vault_after};
use checkpoint::{MemoryVault, Vault};
use loom_outside::MemoryHost;
use loom_outside::Role::Saved;
use loom_words::Status;
use std::alloc::Global;
use std::test::Fail;

/// What a run begins with: the image, or one that differs so from it, of a guarded run; or a checkpoint of this serial, of a resumed one.
#[derive(Clone, Copy)]
enum Begins {
    Own,
    Image(After),
    Kept(u64, After),
}

/// A run, and what comes of it.
struct Run {
    sample: Sample,
    begins: Begins,
    events: &'static str,
    steps: u32,
    status: Status,
    notes: &'static str,
    said: &'static str,
    /// The serial that is found then, 0 for none.
    serial: u64,
    /// The images that the vault has then: that of the checkpoint before the last one, and of that one.
    kept: &'static [After],
    /// What is saved and drawn, where something is.
    saved: Option<After>,
    picture: &'static [u8],
}

/// No checkpoint is made behind it.
const LAST_SERIAL: u64 = (1 << 62) - 1;

const RUNS: &[Run] = &[
    Run {
        sample: Sample::Snaps,
        begins: Own,
        events: "",
        steps: 0,
        status: Status::Done { ran: 0 },
        notes: "ran 0\n",
        said: "",
        serial: 0,
        kept: &[],
        saved: Some(After::Snaps0),
        picture: b"",
    },
    Run {
        sample: Sample::Snaps,
        begins: Own,
        events: "",
        steps: 3,
        status: Status::Done { ran: 3 },
        notes: "ran 3\n",
        said: "",
        serial: 1,
        kept: &[After::Snaps2],
        saved: Some(After::Snaps3),
        picture: b"",
    },
    Run {
        sample: Sample::Snaps,
        begins: Own,
        events: "",
        steps: 6,
        status: Status::Done { ran: 6 },
        notes: "ran 6\n",
        said: "",
        serial: 2,
        kept: &[After::Snaps2, After::Snaps5],
        saved: Some(After::Snaps6),
        picture: b"",
    },
    Run {
        sample: Sample::Snaps,
        begins: Own,
        events: "",
        steps: 7,
        status: Status::Stuck { cause: 1, ran: 6 },
        notes: "stuck: cause 1 after 6\n",
        said: "",
        serial: 2,
        kept: &[After::Snaps2, After::Snaps5],
        saved: None,
        picture: b"",
    },
    Run {
        sample: Sample::Snaps,
        begins: Kept(1, After::Snaps2),
        events: "",
        steps: 1,
        status: Status::Done { ran: 1 },
        notes: "ran 1\n",
        said: "",
        serial: 1,
        kept: &[After::Snaps2],
        saved: Some(After::Snaps3),
        picture: b"",
    },
    Run {
        sample: Sample::Snaps,
        begins: Kept(1, After::Snaps2),
        events: "",
        steps: 4,
        status: Status::Done { ran: 4 },
        notes: "ran 4\n",
        said: "",
        serial: 2,
        kept: &[After::Snaps2, After::Snaps5],
        saved: Some(After::Snaps6),
        picture: b"",
    },
    Run {
        sample: Sample::Snaps,
        begins: Kept(2, After::Snaps5),
        events: "",
        steps: 0,
        status: Status::Done { ran: 0 },
        notes: "ran 0\n",
        said: "",
        serial: 2,
        kept: &[After::Snaps5],
        saved: Some(After::Snaps5),
        picture: b"",
    },
    Run {
        sample: Sample::Snaps,
        begins: Kept(LAST_SERIAL - 1, After::Snaps0),
        events: "",
        steps: 6,
        status: Status::Done { ran: 6 },
        notes: "ran 6\n",
        said: "",
        serial: LAST_SERIAL,
        kept: &[After::Snaps0, After::Snaps2],
        saved: Some(After::Late6),
        picture: b"",
    },
    Run {
        sample: Sample::Snaps,
        begins: Kept(LAST_SERIAL, After::Snaps0),
        events: "",
        steps: 6,
        status: Status::Done { ran: 6 },
        notes: "ran 6\n",
        said: "",
        serial: LAST_SERIAL,
        kept: &[After::Snaps0],
        saved: Some(After::Last6),
        picture: b"",
    },
    Run {
        sample: Sample::Snaps,
        begins: Image(After::Old0),
        events: "",
        steps: 6,
        status: Status::Done { ran: 6 },
        notes: "ran 6\n",
        said: "",
        serial: 2,
        kept: &[After::Old2, After::Old5],
        saved: Some(After::Old6),
        picture: b"",
    },
    Run {
        sample: Sample::Says,
        begins: Own,
        events: "1 purge\n6 compact\n9 purge\n",
        steps: 99,
        status: Status::Quit { ran: 20 },
        notes: "quit after 20\n",
        said: "one\ntwo\nthree\n",
        serial: 2,
        kept: &[After::Says6, After::Says13],
        saved: Some(After::Says20),
        picture: b"",
    },
    Run {
        sample: Sample::Says,
        begins: Kept(1, After::Says6),
        events: "",
        steps: 99,
        status: Status::Quit { ran: 14 },
        notes: "quit after 14\n",
        said: "two\nthree\n",
        serial: 2,
        kept: &[After::Says6, After::Says13],
        saved: Some(After::Says20),
        picture: b"",
    },
    Run {
        sample: Sample::Shows,
        begins: Own,
        events: "",
        steps: 6,
        status: Status::Done { ran: 6 },
        notes: "ran 6\n",
        said: "",
        serial: 1,
        kept: &[After::Shows3],
        saved: Some(After::Shows6),
        picture: b"P4\n16 2\n\xf0\xf0\x0f\x0f",
    },
    Run {
        sample: Sample::Shows,
        begins: Own,
        events: "",
        steps: 8,
        status: Status::Done { ran: 8 },
        notes: "ran 8\n",
        said: "",
        serial: 2,
        kept: &[After::Shows3, After::Shows7],
        saved: Some(After::Shows8),
        picture: b"",
    },
    Run {
        sample: Sample::Shows,
        begins: Kept(1, After::Shows3),
        events: "",
        steps: 3,
        status: Status::Done { ran: 3 },
        notes: "ran 3\n",
        said: "",
        serial: 1,
        kept: &[After::Shows3],
        saved: Some(After::Shows6),
        picture: b"P4\n16 2\n\xf0\xf0\x0f\x0f",
    },
    Run {
        sample: Sample::Shows,
        begins: Kept(1, After::Shows3),
        events: "",
        steps: 4,
        status: Status::Done { ran: 4 },
        notes: "ran 4\n",
        said: "",
        serial: 2,
        kept: &[After::Shows3, After::Shows7],
        saved: Some(After::Shows7),
        picture: b"",
    },
    Run {
        sample: Sample::Drops,
        begins: Own,
        events: "",
        steps: 12,
        status: Status::Done { ran: 12 },
        notes: "ran 12\n",
        said: "",
        serial: 2,
        kept: &[After::Drops6, After::Drops12],
        saved: Some(After::Drops12),
        picture: b"",
    },
    Run {
        sample: Sample::Drops,
        begins: Own,
        events: "",
        steps: 17,
        status: Status::Done { ran: 17 },
        notes: "ran 17\n",
        said: "",
        serial: 3,
        kept: &[After::Drops12, After::Drops16],
        saved: Some(After::Drops17),
        picture: b"",
    },
    Run {
        sample: Sample::Drops,
        begins: Image(After::Named0),
        events: "",
        steps: 17,
        status: Status::NamesSpent { ran: 9 },
        notes: "names spent after 9\n",
        said: "",
        serial: 1,
        kept: &[After::Named6],
        saved: None,
        picture: b"",
    },
    Run {
        sample: Sample::Hears,
        begins: Own,
        events: "0 word 16384\n1 word 7\n6 word 9\n",
        steps: 15,
        status: Status::Done { ran: 15 },
        notes: "ran 15\n",
        said: "",
        serial: 2,
        kept: &[After::Hears2, After::Hears9],
        saved: Some(After::Hears15),
        picture: b"",
    },
    Run {
        sample: Sample::Hears,
        begins: Kept(2, After::Hears9),
        events: "0 word 5\n3 word 6\n",
        steps: 6,
        status: Status::Done { ran: 6 },
        notes: "ran 6\n",
        said: "",
        serial: 2,
        kept: &[After::Hears9],
        saved: Some(After::Heard15),
        picture: b"",
    },
    Run {
        sample: Sample::Switches,
        begins: Own,
        events: "2 word 1\n",
        steps: 6,
        status: Status::Done { ran: 6 },
        notes: "ran 6\n",
        said: "",
        serial: 2,
        kept: &[After::Switches2, After::Switches5],
        saved: Some(After::Switches6),
        picture: b"",
    },
    Run {
        sample: Sample::Switches,
        begins: Own,
        events: "2 word 1\n",
        steps: 14,
        status: Status::Done { ran: 14 },
        notes: "ran 14\n",
        said: "",
        serial: 3,
        kept: &[After::Switches5, After::Switches13],
        saved: Some(After::Switches14),
        picture: b"",
    },
    Run {
        sample: Sample::Switches,
        begins: Kept(2, After::Switches5),
        events: "1 word 1\n",
        steps: 9,
        status: Status::Done { ran: 9 },
        notes: "ran 9\n",
        said: "",
        serial: 3,
        kept: &[After::Switches5, After::Switched12],
        saved: Some(After::Switched14),
        picture: b"",
    },
    Run {
        sample: Sample::Ticks,
        begins: Own,
        events: "",
        steps: 9,
        status: Status::Done { ran: 9 },
        notes: "ran 9\n",
        said: "",
        serial: 2,
        kept: &[After::Ticks7, After::Ticks12],
        saved: Some(After::Ticks14),
        picture: b"",
    },
    Run {
        sample: Sample::NoStart,
        begins: Own,
        events: "",
        steps: 9,
        status: Status::Stuck { cause: 4, ran: 4 },
        notes: "stuck: cause 4 after 4\n",
        said: "",
        serial: 1,
        kept: &[After::NoStart4],
        saved: None,
        picture: b"",
    },
    Run {
        sample: Sample::NoStart,
        begins: Kept(1, After::NoStart4),
        events: "",
        steps: 9,
        status: Status::Stuck { cause: 4, ran: 0 },
        notes: "stuck: cause 4 after 0\n",
        said: "",
        serial: 1,
        kept: &[After::NoStart4],
        saved: None,
        picture: b"",
    },
    Run {
        sample: Sample::NoPark,
        begins: Own,
        events: "",
        steps: 9,
        status: Status::Stuck { cause: 4, ran: 4 },
        notes: "stuck: cause 4 after 4\n",
        said: "",
        serial: 0,
        kept: &[],
        saved: None,
        picture: b"",
    },
    Run {
        sample: Sample::NoPark,
        begins: Kept(1, After::NoPark0),
        events: "",
        steps: 9,
        status: Status::Stuck { cause: 4, ran: 4 },
        notes: "stuck: cause 4 after 4\n",
        said: "",
        serial: 1,
        kept: &[After::NoPark0],
        saved: None,
        picture: b"",
    },
    Run {
        sample: Sample::Snaps,
        begins: Own,
        events: "",
        steps: 2,
        status: Status::Done { ran: 2 },
        notes: "ran 2\n",
        said: "",
        serial: 1,
        kept: &[After::Snaps2],
        saved: Some(After::Snaps2),
        picture: b"",
    },
    Run {
        sample: Sample::Wide,
        begins: Own,
        events: "",
        steps: 6,
        status: Status::Done { ran: 6 },
        notes: "ran 6\n",
        said: "",
        serial: 2,
        kept: &[After::Snaps2, After::Snaps5],
        saved: Some(After::Snaps6),
        picture: b"",
    },
    Run {
        sample: Sample::Wide,
        begins: Kept(1, After::Snaps2),
        events: "",
        steps: 4,
        status: Status::Done { ran: 4 },
        notes: "ran 4\n",
        said: "",
        serial: 2,
        kept: &[After::Snaps2, After::Snaps5],
        saved: Some(After::Snaps6),
        picture: b"",
    },
];

fn vault_for(alloc: Global, row: &Run) -> Result<MemoryVault, Fail> {
    match &row.begins {
        Own | Image(_) => Ok(MemoryVault::new(alloc)?),
        Kept(serial, with) => vault_after(alloc, *serial, row.sample, *with),
    }
}

fn carry_out(
    alloc: Global,
    host: &mut MemoryHost,
    vault: &mut MemoryVault,
    row: &Run,
) -> Result<Status, Fail> {
    match &row.begins {
        Own => host.add_file("i", &image_of(alloc, row.sample)?)?,
        Image(with) => host.add_file("i", &image_after(alloc, row.sample, *with)?)?,
        Kept(_, _) => return Ok(resume(alloc, host, vault, row.steps)?),
    }
    Ok(guard(alloc, host, vault, row.steps)?)
}

// Whether the last checkpoint is of this serial, the ones before it of the serials below, and these are their images. Their gates are closed then.
fn is_kept(alloc: Global, vault: &mut MemoryVault, row: &Run) -> Result<bool, Fail> {
    let mut serial = row.serial;
    for with in row.kept.iter().rev() {
        if !is_last(alloc, vault, serial, row.sample, *with)? {
            return Ok(false);
        }
        vault.write_at(gate_place(serial), &[0])?;
        serial = serial.saturating_sub(1);
    }
    Ok(find(alloc, vault)?.is_none())
}

// Whether Saved has this image, and is ended, and Display has the picture.
fn has_files(host: &MemoryHost, image: &[u8], picture: &[u8]) -> bool {
    host.file("s") == Some(image)
        && host.ended(Saved) == Some(image.len())
        && host.file("d") == Some(picture)
}

// Whether the files that a run writes are as they are to be.
fn is_written(alloc: Global, host: &MemoryHost, row: &Run) -> Result<bool, Fail> {
    match &row.saved {
        Some(with) => {
            let want = image_after(alloc, row.sample, *with)?;
            Ok(has_files(host, &want, row.picture))
        }
        None => Ok(
            host.file("s").is_none() && host.ended(Saved).is_none() && host.file("d").is_none(),
        ),
    }
}

// Whether a run answers and says what it has to.
fn is_answered(
    alloc: Global,
    host: &mut MemoryHost,
    vault: &mut MemoryVault,
    row: &Run,
) -> Result<bool, Fail> {
    let status = carry_out(alloc, host, vault, row)?;
    Ok(
        status == row.status
            && host.notes() == row.notes.as_bytes()
            && host.transcript() == row.said.as_bytes(),
    )
}

fn is_right(alloc: Global, row: &Run) -> Result<bool, Fail> {
    let mut host = host_with(alloc, row.events)?;
    let mut vault = vault_for(alloc, row)?;
    let answered = is_answered(alloc, &mut host, &mut vault, row)?;
    let kept = is_kept(alloc, &mut vault, row)?;
    Ok(answered && kept && is_written(alloc, &host, row)?)
}

#[test]
fn runs_keep_and_go_on(rt: HostRuntime) -> Result<(), Fail> {
    for (i, row) in RUNS.iter().enumerate() {
        assert_eq!(rt; (i, is_right(rt.alloc(), row)?), (i, true));
    }
    Ok(())
}

// ---- one run behind another

fn goes_on(alloc: Global, host: &mut MemoryHost, vault: &mut MemoryVault) -> Result<bool, Fail> {
    let first = guard(alloc, host, vault, 3)?;
    let kept = is_last(alloc, vault, 1, Sample::Snaps, After::Snaps2)?;
    let second = resume(alloc, host, vault, 1)?;
    Ok(first == Status::Done { ran: 3 } && kept && second == Status::Done { ran: 1 })
}

// A run of three bytecodes keeps the second, and another goes on from there.
#[test]
fn a_run_goes_on_from_what_was_kept(rt: HostRuntime) -> Result<(), Fail> {
    let mut host = host_of(rt.alloc(), "", Sample::Snaps)?;
    let mut vault = MemoryVault::new(rt.alloc())?;
    assert!(rt; goes_on(rt.alloc(), &mut host, &mut vault)?);
    assert!(rt; is_saved(rt.alloc(), &host, Sample::Snaps, After::Snaps3)?);
    assert_eq!(rt; host.notes(), b"ran 3\nran 1\n".as_slice());
    Ok(())
}

/// After how many bytecodes an image asks for a checkpoint, and what is kept then.
struct Turns {
    sample: Sample,
    events: &'static str,
    kept: &'static [(u32, After)],
}

const TURNS: &[Turns] = &[
    Turns {
        sample: Sample::Says,
        events: "",
        kept: &[(6, After::Says6), (13, After::Says13)],
    },
    Turns {
        sample: Sample::Drops,
        events: "",
        kept: &[
            (6, After::Drops6),
            (12, After::Drops12),
            (16, After::Drops16),
        ],
    },
    Turns {
        sample: Sample::Hears,
        events: "0 word 16384\n1 word 7\n6 word 9\n",
        kept: &[(2, After::Hears2), (9, After::Hears9)],
    },
    Turns {
        sample: Sample::Switches,
        events: "2 word 1\n",
        kept: &[
            (2, After::Switches2),
            (5, After::Switches5),
            (13, After::Switches13),
        ],
    },
];

// Of so many bytecodes the serial of the last checkpoint, 0 for none, and its image.
fn last_of(row: &Turns, steps: u32) -> (u64, Option<After>) {
    let mut serial = 0u64;
    let mut last = None;
    for (ran, with) in row.kept {
        if *ran <= steps {
            serial = serial.saturating_add(1);
            last = Some(*with);
        }
    }
    (serial, last)
}

fn is_last_kept(alloc: Global, row: &Turns, steps: u32) -> Result<bool, Fail> {
    let mut host = host_of(alloc, row.events, row.sample)?;
    let mut vault = MemoryVault::new(alloc)?;
    let status = guard(alloc, &mut host, &mut vault, steps)?;
    let kept = match last_of(row, steps) {
        (serial, Some(with)) => is_last(alloc, &mut vault, serial, row.sample, with)?,
        (_, None) => find(alloc, &mut vault)?.is_none(),
    };
    Ok(kept && status == Status::Done { ran: steps })
}

#[test]
fn checkpoints_come_where_they_are_asked_for(rt: HostRuntime) -> Result<(), Fail> {
    for (i, row) in TURNS.iter().enumerate() {
        for steps in 0..=15 {
            assert_eq!(rt;
                (i, steps, is_last_kept(rt.alloc(), row, steps)?),
                (i, steps, true)
            );
        }
    }
    Ok(())
}
