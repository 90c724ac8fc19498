// Runs over hosts that fail or lie in the middle: what the vault has then.
use crate::commands::{guard, host_of, resume, serial_in};
use crate::images::Sample;
use crate::states::{After, image_after, is_last, vault_after};
use checkpoint::MemoryVault;
use loom_outside::Role::{Saved, Transcript, Work};
use loom_outside::{Host, LyingHost, MemoryHost};
use loom_words::Status;
use std::alloc::Global;
use std::test::Fail;

// The image of a checkpoint that is kept, of which there are two at most.
fn kept_as(sample: Sample, serial: u64) -> Option<After> {
    match (sample, serial) {
        (Sample::Says, 1) => Some(After::Says6),
        (Sample::Says, 2) => Some(After::Says13),
        (_, 1) => Some(After::Snaps2),
        (_, 2) => Some(After::Snaps5),
        _ => None,
    }
}

// The serial of the checkpoint that is found, 0 where there is none. Its image is to be the one of that serial.
fn whole_serial(alloc: Global, vault: &mut MemoryVault, sample: Sample) -> Result<usize, Fail> {
    let serial = serial_in(alloc, vault)?;
    if serial == 0 {
        return Ok(0);
    }
    let after = kept_as(sample, serial).ok_or("two are kept at most")?;
    if is_last(alloc, vault, serial, sample, after)? {
        Ok(serial as usize)
    } else {
        Err("the image of a checkpoint is whole".into())
    }
}

// ---- calls that fail

/// Of the calls on Work the first fails, then the fourth, and so on. A run makes fewer calls.
const MOST_TURNS: u64 = 2_000;

// The serial that is found where the nth call on Work fails, and whether it was made.
fn serial_without(alloc: Global, nth: u64) -> Result<(usize, bool), Fail> {
    let mut host = host_of(alloc, "", Sample::Snaps)?;
    let mut vault = MemoryVault::new(alloc)?;
    host.fail(Work, nth)?;
    let status = guard(alloc, &mut host, &mut vault, 6)?;
    let serial = whole_serial(alloc, &mut vault, Sample::Snaps)?;
    match status {
        Status::WorkFault { count: 1 } => Ok((serial, true)),
        Status::Done { ran: 6 } if host.fault_count(Work) == 0 => Ok((serial, false)),
        _ => Err("a fault of Work is told".into()),
    }
}

// How often each serial is found, from the first call on up to the last: the later the call, the later the checkpoint, up to the second.
fn found_in_turn(alloc: Global) -> Result<[u32; 3], Fail> {
    let mut met = [0u32; 3];
    let mut last = 0usize;
    for turn in 0..MOST_TURNS {
        let (serial, made) = serial_without(alloc, 1 + 3 * turn)?;
        if serial < last || !made && serial != 2 {
            return Err("a later call leaves no earlier checkpoint".into());
        }
        if !made {
            return Ok(met);
        }
        if let Some(count) = met.get_mut(serial) {
            *count = count.saturating_add(1);
        }
        last = serial;
    }
    Err("some call is the last".into())
}

// A call on Work may fail at each stage of a run, also while a checkpoint is written.
#[test]
fn calls_on_work_may_fail(rt: HostRuntime) -> Result<(), Fail> {
    let met = found_in_turn(rt.alloc())?;
    assert!(rt; met[0] > 0 && met[1] > 0 && met[2] > 0);
    Ok(())
}

/// Which call on Transcript fails, how the run ends, what is said, and the serial that is found.
const SAID: &[(u64, Status, &[u8], usize)] = &[
    (1, UNSAID, b"", 0),
    (2, UNSAID, b"one\n", 1),
    (3, UNSAID, b"one\ntwo\n", 2),
    (4, Status::Quit { ran: 20 }, b"one\ntwo\nthree\n", 2),
];

const UNSAID: Status = Status::WriteFault {
    role: Transcript,
    count: 1,
};

// How a run ends of which the nth call on Transcript fails, what is said, and the serial that is found.
fn is_said(
    alloc: Global,
    (nth, wanted, said, serial): (u64, Status, &[u8], usize),
) -> Result<bool, Fail> {
    let mut host = host_of(alloc, "", Sample::Says)?;
    let mut vault = MemoryVault::new(alloc)?;
    host.fail(Transcript, nth)?;
    let status = guard(alloc, &mut host, &mut vault, 99)?;
    let found = whole_serial(alloc, &mut vault, Sample::Says)?;
    Ok(status == wanted && host.transcript() == said && found == serial)
}

#[test]
fn calls_on_transcript_may_fail(rt: HostRuntime) -> Result<(), Fail> {
    for row in SAID {
        assert_eq!(rt; (row.0, is_said(rt.alloc(), *row)?), (row.0, true));
    }
    Ok(())
}

/// A run that keeps checkpoints, or one that goes on from the first of them.
#[derive(Clone, Copy)]
enum Start {
    Image,
    Checkpoint,
}

/// More calls on Saved than one of them makes.
const MOST_CALLS: u64 = 1_000;

const UNSAVED: Status = Status::WriteFault {
    role: Saved,
    count: 1,
};

// Runs so over a host. Both runs come to the same bytecode.
fn run(alloc: Global, host: &mut MemoryHost, start: Start) -> Result<Status, Fail> {
    match start {
        Start::Image => {
            let mut vault = MemoryVault::new(alloc)?;
            Ok(guard(alloc, host, &mut vault, 6)?)
        }
        Start::Checkpoint => {
            let mut vault = vault_after(alloc, 1, Sample::Snaps, After::Snaps2)?;
            Ok(resume(alloc, host, &mut vault, 4)?)
        }
    }
}

// What is answered where the nth call on Saved fails, and what it leaves.
fn without(alloc: Global, start: Start, nth: u64) -> Result<(Status, MemoryHost), Fail> {
    let mut host = host_of(alloc, "", Sample::Snaps)?;
    host.fail(Saved, nth)?;
    let status = run(alloc, &mut host, start)?;
    Ok((status, host))
}

// Of the calls on Saved the first of which the run doesn't tell that it failed: that it didn't end Saved, and drew nothing.
fn first_untold(alloc: Global, start: Start) -> Result<u64, Fail> {
    for nth in 1..MOST_CALLS {
        let (status, host) = without(alloc, start, nth)?;
        if status != UNSAVED || host.ended(Saved).is_some() || host.file("d").is_some() {
            return Ok(nth);
        }
    }
    Err("some call is the last".into())
}

// Whether the whole image is put where the nth call fails.
fn is_put(alloc: Global, start: Start, nth: u64, want: &[u8]) -> Result<bool, Fail> {
    let (_, host) = without(alloc, start, nth)?;
    Ok(host.file("s") == Some(want))
}

// Whether it is ended behind the whole image where the nth call would fail, which isn't made.
fn is_ended(alloc: Global, start: Start, nth: u64, want: &[u8]) -> Result<bool, Fail> {
    let (_, host) = without(alloc, start, nth)?;
    Ok(host.fault_count(Saved) == 0 && host.ended(Saved) == Some(want.len()))
}

fn last_call_ends_it(alloc: Global, start: Start, want: &[u8]) -> Result<bool, Fail> {
    let nth = first_untold(alloc, start)?;
    Ok(is_put(alloc, start, nth.saturating_sub(1), want)? && is_ended(alloc, start, nth, want)?)
}

// The last call on Saved ends it, behind the whole image.
#[test]
fn the_last_call_on_saved_ends_it(rt: HostRuntime) -> Result<(), Fail> {
    let want = image_after(rt.alloc(), Sample::Snaps, After::Snaps6)?;
    for start in [Start::Image, Start::Checkpoint] {
        assert!(rt; last_call_ends_it(rt.alloc(), start, &want)?);
    }
    Ok(())
}

// ---- reads that lie

/// What is xored into each byte of a read.
const MASKS: [u8; 3] = [1, 128, 255];

// Whether a run of which the nth read of Work lies leaves a vault that isn't bad, with two checkpoints at most, of which one is read.
fn is_sound(alloc: Global, nth: u64, mask: u8) -> Result<bool, Fail> {
    let mut host = LyingHost::new(host_of(alloc, "", Sample::Snaps)?, nth, mask);
    let mut vault = MemoryVault::new(alloc)?;
    let status = guard(alloc, &mut host, &mut vault, 6)?;
    vault.stop(0, 1);
    let serial = serial_in(alloc, &mut vault)?;
    let answered = !matches!(status, Status::VaultFault { .. } | Status::VaultBad { .. });
    Ok(answered && serial <= 2 && (serial == 2 || status != Status::Done { ran: 6 }))
}

// What a checkpoint's image is then nobody knows, but a gate is never bad.
#[test]
fn reads_of_work_may_lie(rt: HostRuntime) -> Result<(), Fail> {
    for turn in 0..100 {
        for mask in MASKS {
            assert!(rt; is_sound(rt.alloc(), 1 + 5 * turn, mask)?);
        }
    }
    Ok(())
}
