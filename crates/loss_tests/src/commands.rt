// Commands over a host and a vault: in memory, and on files that are recorded.
use crate::images::text;
use crate::recording::{Lines, Record, Recorder};
use checkpoint::{MemoryVault, Vault, read_image, recover};
use long_names::Octets;
use loom_guard::loom_kept;
use loom_outside::{Host, MemoryHost, RealHost};
use loom_words::Status;
use real_vault::RealVault;
use std::alloc::{AllocError, Global};
use std::cell::RefCell;
use std::fs::{File, OpenFile};
use std::io::{self, Write};
use std::rt::Files;
use std::test::Fail;

/// Runs these words.
pub(crate) fn ask<H: Host, V: Vault>(
    alloc: Global,
    host: &mut H,
    vault: &mut V,
    line: &str,
) -> Result<Status, AllocError> {
    let mut words = Vec::new(alloc);
    for word in line.split_whitespace() {
        words.push(String::from_str(alloc, word)?)?;
    }
    Ok(loom_kept(alloc, host, vault, &words))
}

// ---- in memory

/// How many bytes a call on a role moves at most.
const CHUNK: usize = 65_536;

/// A host that has the text `t`, no events, `e`, and the image `i`.
pub(crate) fn host_of(alloc: Global, text: &[u8], image: &[u8]) -> Result<MemoryHost, AllocError> {
    let mut host = MemoryHost::new(alloc, CHUNK)?;
    host.add_file("t", text)?;
    host.add_file("e", b"")?;
    host.add_file("i", image)?;
    Ok(host)
}

/// The image that is run.
pub(crate) fn image(alloc: Global) -> Result<Vec<u8>, Fail> {
    let mut host = host_of(alloc, text(alloc)?.as_bytes(), b"")?;
    let mut vault = MemoryVault::new(alloc)?;
    let status = ask(alloc, &mut host, &mut vault, "asm t w s")?;
    match (status, host.file("s")) {
        (Status::Assembled { .. }, Some(image)) => Ok(image.to_vec(alloc)?),
        _ => Err("the text is that of an image".into()),
    }
}

/// The serial and the image of the checkpoint that a vault has, if there is one.
pub(crate) fn find(alloc: Global, vault: &mut MemoryVault) -> Result<Option<(u64, Octets)>, Fail> {
    match recover(vault)? {
        Some(point) => {
            let image = read_image(alloc, vault, point)?;
            Ok(Some((point.serial, image)))
        }
        None => Ok(None),
    }
}

// ---- on files

// Puts a file into the folder, which is synced.
fn put_file(recorder: &Recorder<'_, HostRuntime>, name: &str, bytes: &[u8]) -> io::Result<()> {
    let mut file = File::create(recorder, name)?;
    file.write_all(bytes)?;
    file.sync_all()?;
    File::open(recorder, ".")?.sync_all()
}

/// Puts the text `t`, no events, `e`, and the image `i`, and nothing else.
pub(crate) fn put_files(
    rt: &HostRuntime,
    record: &RefCell<Record>,
    image: &[u8],
) -> Result<(), Fail> {
    let recorder = Recorder {
        rt: rt.clone()?,
        record,
    };
    for name in ["s", "d", "w", "v"] {
        let _ = rt.remove_file(name);
    }
    put_file(&recorder, "t", text(rt.alloc())?.as_bytes())?;
    put_file(&recorder, "e", b"")?;
    put_file(&recorder, "i", image)?;
    Ok(())
}

/// Runs these words over the files of a folder.
pub(crate) fn ask_files(
    rt: &HostRuntime,
    record: &RefCell<Record>,
    line: &str,
) -> Result<Status, Fail> {
    let recorder = Recorder {
        rt: rt.clone()?,
        record,
    };
    let mut host = RealHost::new(recorder, Lines { record }, io::sink());
    let mut vault = RealVault::new(Recorder {
        rt: rt.clone()?,
        record,
    });
    Ok(ask(rt.alloc(), &mut host, &mut vault, line)?)
}
