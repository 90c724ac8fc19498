// A host over the system in memory, and over real files: what is saved is read back, and no role is written to the file of another one.
ghost use Rattle.std.specs.Prelude.{◌≡◌};

use file_host::FileHost;
use file_system::{Found, Kind};
use loom_host::{Host, Role, read_full, write_full};
use memory_files::MemoryFiles;
use std::alloc::Global;
use std::fs;
use std::test::Fail;
use system_files::SystemFiles;

// A standard stream, which is no file that a role may have.
fn stream(file: u128) -> Found
    ensures { result.file ≡ file }
{
    Found {
        file,
        kind: Kind::Device,
        alone: true,
        mode: 0o600,
    }
}

fn saves<H: Host>(host: &mut H, name: &str, bytes: &[u8]) -> bool {
    let attached = host.attach(Role::Saved, name).is_ok();
    let put = write_full(host, Role::Saved, bytes).is_ok();
    attached && put && host.write(Role::Saved, &[]) == Ok(0)
}

fn holds<H: Host>(host: &mut H, name: &str, bytes: &[u8]) -> bool {
    let mut buf = [0; 32];
    if host.attach(Role::Image, name).is_err() {
        return false;
    }
    match read_full(host, Role::Image, &mut buf) {
        Ok(n) => &buf[..n] == bytes,
        Err(_) => false,
    }
}

// Work at a place, with zeros past its end; Display and the streams in order.
fn writes<H: Host>(host: &mut H) -> bool {
    let mut buf = [1; 6];
    let attached = host.attach(Role::Work, "host-work").is_ok()
        && host.attach(Role::Display, "host-display").is_ok();
    let worked = host.write_at(1, b"abc").is_ok()
        && host.read_at(0, &mut buf).is_ok()
        && buf == *b"\0abc\0\0";
    let shown = write_full(host, Role::Display, b"P1 1 1 0").is_ok();
    let said = write_full(host, Role::Transcript, b"\n").is_ok()
        && write_full(host, Role::Notes, b"\n").is_ok();
    attached && worked && shown && said
}

// A role that is written has no file of another one, by whatever name, nor the one that is written beside Saved.
fn parts<H: Host>(host: &mut H) -> bool {
    let begun = host.attach(Role::Saved, "host-other").is_ok()
        && write_full(host, Role::Saved, b"abc").is_ok();
    let unfinished = host.attach(Role::Work, "host-other.part").is_err();
    let another = host.attach(Role::Display, "host-work").is_err();
    let over = host.attach(Role::Saved, "host-display").is_err();
    begun && unfinished && another && over && host.fault_count(Role::Work) == 1
}

fn goes<H: Host>(host: &mut H) -> bool {
    saves(host, "host-saved", b"old bytes")
        && saves(host, "host-saved", b"the new image")
        && holds(host, "host-saved", b"the new image")
        && writes(host)
        && parts(host)
        && host.attach(Role::Image, "host-other").is_err()
        && holds(host, "host-display", b"P1 1 1 0")
}

fn in_memory(alloc: Global) -> bool {
    let mut host = FileHost::new(MemoryFiles::new(alloc), alloc, stream(1), stream(2));
    goes(&mut host)
}

#[test]
fn a_host_in_memory_keeps_its_files(rt: HostRuntime) -> Result<(), Fail> {
    assert_eq!(rt; in_memory(rt.alloc()), true);
    Ok(())
}

#[test]
fn a_host_over_real_files_does_too(rt: HostRuntime) -> Result<(), Fail> {
    let system = SystemFiles::new(rt, rt.stdout(), rt.stderr());
    let mut host = FileHost::new(system, rt.alloc(), stream(1), stream(2));
    assert_eq!(rt; goes(&mut host), true);
    assert_eq!(rt; fs::exists(&rt, "host-other")?, false);
    assert_eq!(rt; fs::exists(&rt, "host-other.part")?, false);
    for name in ["host-saved", "host-work", "host-display"] {
        fs::remove_file(&rt, name)?;
    }
    Ok(())
}
