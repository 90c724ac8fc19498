// Commands over a host and a vault, both in memory, and what stands in the vault then.
use crate::images::{Sample, image_of};
use checkpoint::{MemoryVault, Vault, read_image, recover};
use long_names::Octets;
use loom_guard::loom_kept;
use loom_outside::{Failed, Host, MemoryHost, Role};
use loom_words::Status;
use std::alloc::{AllocError, Global};
use std::test::Fail;

/// How many bytes a call on a role moves at most.
const CHUNK: usize = 100;

/// The words of a line.
pub(crate) fn words_of(alloc: Global, line: &str) -> Result<Vec<String>, AllocError> {
    let mut words = Vec::new(alloc);
    for word in line.split_whitespace() {
        words.push(String::from_str(alloc, word)?)?;
    }
    Ok(words)
}

/// Runs these words.
pub(crate) fn ask<H: Host>(
    alloc: Global,
    host: &mut H,
    vault: &mut MemoryVault,
    line: &str,
) -> Result<Status, AllocError> {
    let words = words_of(alloc, line)?;
    Ok(loom_kept(alloc, host, vault, &words))
}

/// Runs so many bytecodes of the image `i`, in the smallest core and with the least room, and keeps checkpoints.
pub(crate) fn guard<H: Host>(
    alloc: Global,
    host: &mut H,
    vault: &mut MemoryVault,
    steps: u32,
) -> Result<Status, AllocError> {
    let line = format!(in alloc; "guard i e w s d 4096 512 1024 {steps} v")?;
    ask(alloc, host, vault, &line)
}

/// Runs so many bytecodes from the vault's last checkpoint on.
pub(crate) fn resume<H: Host>(
    alloc: Global,
    host: &mut H,
    vault: &mut MemoryVault,
    steps: u32,
) -> Result<Status, AllocError> {
    let line = format!(in alloc; "resume v e w s d 4096 512 1024 {steps}")?;
    ask(alloc, host, vault, &line)
}

/// A host that has events as the file `e`.
pub(crate) fn host_with(alloc: Global, events: &str) -> Result<MemoryHost, AllocError> {
    let mut host = MemoryHost::new(alloc, CHUNK)?;
    host.add_file("e", events.as_bytes())?;
    Ok(host)
}

/// The same with an image as the file `i`.
pub(crate) fn host_of(alloc: Global, events: &str, sample: Sample) -> Result<MemoryHost, Fail> {
    let image = image_of(alloc, sample)?;
    let mut host = host_with(alloc, events)?;
    host.add_file("i", &image)?;
    Ok(host)
}

/// The first call on each of these roles is to fail.
pub(crate) fn fail_first(host: &mut MemoryHost, roles: &[Role]) -> Result<(), AllocError> {
    for role in roles {
        host.fail(*role, 1)?;
    }
    Ok(())
}

// ---- vaults

/// Where the gate of a serial stands, and the first block of its image.
pub(crate) fn gate_place(serial: u64) -> u64 {
    if serial % 2 == 0 { 0 } else { 512 }
}

pub(crate) fn image_place(serial: u64) -> u64 {
    if serial % 2 == 0 { 4_096 } else { 69_632 }
}

/// Where a gate stands, its byte, its serial, and its length.
pub(crate) type Gate = (u64, u8, u64, u64);

pub(crate) fn put_gate(
    vault: &mut MemoryVault,
    (place, byte, serial, len): Gate,
) -> Result<(), Failed> {
    vault.write_at(place, &[byte])?;
    vault.write_at(place.saturating_add(8), &serial.to_be_bytes())?;
    vault.write_at(place.saturating_add(16), &len.to_be_bytes())
}

/// The bytes of a block, of which each second one is the image's.
const BLOCK: usize = 65_536;

// Writes the blocks of an image from a place on.
fn lay(vault: &mut MemoryVault, place: u64, image: &[u8]) -> Result<(), Failed> {
    let mut place = place;
    for block in image.chunks(BLOCK) {
        vault.write_at(place, block)?;
        place = place.saturating_add(2 * BLOCK as u64);
    }
    Ok(())
}

/// A vault that has this image as its only checkpoint, of this serial.
pub(crate) fn vault_of(alloc: Global, serial: u64, image: &[u8]) -> Result<MemoryVault, Fail> {
    let mut vault = MemoryVault::new(alloc)?;
    lay(&mut vault, image_place(serial), image)?;
    put_gate(
        &mut vault,
        (gate_place(serial), 1, serial, image.len() as u64),
    )?;
    vault.sync()?;
    Ok(vault)
}

/// The serial and the image of the checkpoint that a vault has, if there is one.
pub(crate) fn find(alloc: Global, vault: &mut MemoryVault) -> Result<Option<(u64, Octets)>, Fail> {
    match recover(vault)? {
        Some(point) => {
            let image = read_image(alloc, vault, point)?;
            Ok(Some((point.serial, image)))
        }
        None => Ok(None),
    }
}

/// Its serial alone, 0 where there is none.
pub(crate) fn serial_in(alloc: Global, vault: &mut MemoryVault) -> Result<u64, Fail> {
    match find(alloc, vault)? {
        Some((serial, _)) => Ok(serial),
        None => Ok(0),
    }
}
