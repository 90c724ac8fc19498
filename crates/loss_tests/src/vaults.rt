// What a loss of power leaves of the vault of a guarded run, and of one that goes on from it.
use crate::commands::{ask, ask_files, find, host_of, image, put_files};
use crate::images::{FIRST, ROUND};
use crate::losses::{Arrived, Judge, first_wrong, is_moment};
use crate::recording::{Event, Record};
use checkpoint::{MemoryVault, Vault};
use long_names::Octets;
use loom_words::Status;
use std::alloc::Global;
use std::cell::RefCell;
use std::test::Fail;

/// A guarded run that ends right behind its second checkpoint, and one that goes on and keeps two more.
const RUNS: [&str; 2] = [
    "guard i e w s d 4096 512 1024 18 v",
    "resume v e w s d 4096 512 1024 30",
];

/// How many checkpoints they keep, and how many bytecodes they run.
const KEPT: u32 = 4;

const STEPS: u32 = 48;

// How many bytecodes are run up to this checkpoint.
fn steps_to(serial: u32) -> u32 {
    FIRST.saturating_add(serial.saturating_sub(1).saturating_mul(ROUND))
}

// The checkpoint that an undisturbed run keeps as its last.
fn image_kept(alloc: Global, image: &[u8], serial: u32) -> Result<Octets, Fail> {
    let mut host = host_of(alloc, b"", image)?;
    let mut vault = MemoryVault::new(alloc)?;
    let steps = steps_to(serial);
    let line = format!(in alloc; "guard i e w s d 4096 512 1024 {steps} v")?;
    let _status = ask(alloc, &mut host, &mut vault, &line)?;
    match find(alloc, &mut vault)? {
        Some((found, kept)) if found == u64::from(serial) => Ok(kept),
        _ => Err("a round keeps a checkpoint".into()),
    }
}

// Those of all serials from 1 on.
fn images_kept(alloc: Global, image: &[u8]) -> Result<Vec<Octets>, Fail> {
    let mut images = Vec::new(alloc);
    for serial in 1..=KEPT {
        images.push(image_kept(alloc, image, serial)?)?;
    }
    Ok(images)
}

// A vault that holds these bytes.
fn vault_of(alloc: Global, bytes: &[u8]) -> Result<MemoryVault, Fail> {
    let mut vault = MemoryVault::new(alloc)?;
    vault.write_at(0, bytes)?;
    vault.sync()?;
    Ok(vault)
}

// ---- an undisturbed run

/// The checkpoints that it keeps, and what it saves.
#[derive(Drop)]
struct Undisturbed {
    kept: Vec<Octets>,
    saved: Vec<u8>,
}

fn run_undisturbed(alloc: Global, image: &[u8]) -> Result<Undisturbed, Fail> {
    let kept = images_kept(alloc, image)?;
    let mut host = host_of(alloc, b"", image)?;
    let mut vault = MemoryVault::new(alloc)?;
    let line = format!(in alloc; "guard i e w s d 4096 512 1024 {STEPS} v")?;
    let _status = ask(alloc, &mut host, &mut vault, &line)?;
    match host.file("s") {
        Some(saved) => Ok(Undisturbed {
            kept,
            saved: saved.to_vec(alloc)?,
        }),
        None => Err("a run saves an image".into()),
    }
}

impl Undisturbed {
    // Whether this is the checkpoint of its serial, whole.
    fn has(&self, serial: u64, image: &Octets) -> bool {
        match self.kept.get((serial as usize).saturating_sub(1)) {
            Some(want) => image.bytes() == want.bytes(),
            None => false,
        }
    }

    // Whether this is its last checkpoint.
    fn ends_with(&self, found: &Option<(u64, Octets)>) -> bool {
        match found {
            Some((serial, image)) => *serial == u64::from(KEPT) && self.has(*serial, image),
            None => false,
        }
    }

    // Whether a run goes on from this checkpoint of a vault to the same end.
    fn is_reached(
        &self,
        alloc: Global,
        vault: &mut MemoryVault,
        serial: u64,
    ) -> Result<bool, Fail> {
        let mut host = host_of(alloc, b"", b"")?;
        let steps = STEPS.saturating_sub(steps_to(u32::try_from(serial)?));
        let line = format!(in alloc; "resume v e w s d 4096 512 1024 {steps}")?;
        let status = ask(alloc, &mut host, vault, &line)?;
        let found = find(alloc, vault)?;
        Ok(
            status == Status::Done { ran: steps }
                && host.file("s") == Some(self.saved.as_slice())
                && self.ends_with(&found),
        )
    }
}

// ---- what is found

/// What an undisturbed run does, and how many checkpoints were answered.
#[derive(Clone, Copy)]
struct Checkpoints<'a> {
    undisturbed: &'a Undisturbed,
    answered: u64,
}

// What is found is the checkpoint that was answered last or the one under way, whole. Where the first changes have arrived, a run goes on from it.
impl Judge for Checkpoints<'_> {
    fn allows(&self, alloc: Global, left: Option<&[u8]>, arrived: Arrived) -> Result<bool, Fail> {
        let mut vault = vault_of(alloc, left.unwrap_or(&[]))?;
        let Some((serial, image)) = find(alloc, &mut vault)? else {
            return Ok(self.answered == 0);
        };
        let next = self.answered.saturating_add(1);
        if serial != self.answered && serial != next || !self.undisturbed.has(serial, &image) {
            return Ok(false);
        }
        match arrived {
            Arrived::First(_) => self.undisturbed.is_reached(alloc, &mut vault, serial),
            Arrived::Without(_) | Arrived::Torn { .. } => Ok(true),
        }
    }
}

// How many lines were said. Each comes behind its checkpoint.
fn said(events: &[Event]) -> u64 {
    let mut lines = 0u64;
    for event in events {
        if matches!(event, Event::Said) {
            lines = lines.saturating_add(1);
        }
    }
    lines
}

/// A moment, as how many events come before it, and a state that a loss may leave then.
type State = (usize, Arrived);

// The first state of the vault that isn't allowed.
fn first_lost(
    alloc: Global,
    events: &[Event],
    undisturbed: &Undisturbed,
) -> Result<Option<State>, Fail> {
    for at in 0..=events.len() {
        if is_moment(events, at) {
            let (before, _) = events.split_at(at);
            let answered = said(before);
            let judge = Checkpoints {
                undisturbed,
                answered,
            };
            if let Some(arrived) = first_wrong(alloc, before, "v", &judge)? {
                return Ok(Some((at, arrived)));
            }
        }
    }
    Ok(None)
}

// The runs go over files, and are recorded.
fn run_all(rt: &HostRuntime, record: &RefCell<Record>, image: &[u8]) -> Result<bool, Fail> {
    put_files(rt, record, image)?;
    for line in RUNS {
        if !matches!(ask_files(rt, record, line)?, Status::Done { .. }) {
            return Ok(false);
        }
    }
    Ok(true)
}

#[test]
fn no_loss_of_power_loses_a_checkpoint(rt: HostRuntime) -> Result<(), Fail> {
    let image = image(rt.alloc())?;
    let undisturbed = run_undisturbed(rt.alloc(), &image)?;
    let record = RefCell::new(Record::new(rt.alloc()));
    assert!(rt; run_all(&rt, &record, &image)?);
    let record = record.into_inner();
    assert_eq!(rt; said(&record.events), u64::from(KEPT));
    assert_eq!(rt; first_lost(rt.alloc(), &record.events, &undisturbed)?, None);
    Ok(())
}
