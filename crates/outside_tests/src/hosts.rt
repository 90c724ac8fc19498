// One table of steps over each host: real files and streams, and a host in memory.
use loom_outside::{Failed, Host, LyingHost, MemoryHost, RealHost, Role, read_full, write_full};
use std::alloc::{AllocError, Global};
use std::fs::File;
use std::io::{ErrorKind, Write};
use std::test::Fail;
use std::{fs, io};

// A step, and what comes of it.
#[derive(Clone, Copy)]
enum Step {
    Attach(Role, &'static str),
    Misses(Role, &'static str),
    Put(Role, &'static [u8]),
    // a piece of no bytes
    PutNone(Role),
    // these bytes are the next, and at the end fewer than asked for
    Take(Role, &'static [u8]),
    End(Role, &'static [u8]),
    WriteAt(u64, &'static [u8]),
    ReadAt(u64, &'static [u8]),
    // a write of a byte fails
    Fails(Role),
    // so many calls on the role have failed
    Faults(Role, u64),
}

// Each answers whether what came of it is what is wanted.
fn attach<H: Host>(host: &mut H, role: Role, name: &str) -> Result<bool, Failed> {
    if matches!(role, Role::Transcript | Role::Notes) {
        return Ok(false);
    }
    host.attach(role, name)?;
    Ok(true)
}

fn put<H: Host>(host: &mut H, role: Role, text: &[u8]) -> Result<bool, Failed> {
    if matches!(role, Role::Image | Role::Events | Role::Work) {
        return Ok(false);
    }
    write_full(host, role, text)?;
    Ok(true)
}

fn put_none<H: Host>(host: &mut H, role: Role) -> Result<bool, Failed> {
    if matches!(role, Role::Image | Role::Events | Role::Work) {
        return Ok(false);
    }
    let n = host.write(role, &[])?;
    Ok(n == 0)
}

// Takes as many bytes as a text has, and so many more where it is the end.
fn take<H: Host>(host: &mut H, role: Role, text: &[u8], more: usize) -> Result<bool, Failed> {
    let mut buf = [9; 10];
    if !matches!(role, Role::Image | Role::Events) {
        return Ok(false);
    }
    if more > 1 || text.len() > 8 {
        return Ok(false);
    }
    let n = read_full(host, role, &mut buf[..text.len() + more])?;
    Ok(&buf[..n] == text)
}

fn read_at<H: Host>(host: &mut H, place: u64, text: &[u8]) -> Result<bool, Failed> {
    let mut buf = [9; 10];
    if text.len() > 9 {
        return Ok(false);
    }
    let piece = &mut buf[..text.len()];
    host.read_at(place, piece)?;
    Ok(&*piece == text)
}

fn write_at<H: Host>(host: &mut H, place: u64, text: &[u8]) -> Result<bool, Failed> {
    host.write_at(place, text)?;
    Ok(true)
}

fn fails<H: Host>(host: &mut H, role: Role) -> bool {
    match role {
        Role::Work => write_at(host, 0, b"w").is_err(),
        _ => put(host, role, b"w").is_err(),
    }
}

fn run<H: Host>(host: &mut H, step: Step) -> Result<bool, Failed> {
    match step {
        Step::Attach(role, name) => attach(host, role, name),
        Step::Misses(role, name) => Ok(attach(host, role, name).is_err()),
        Step::Put(role, text) => put(host, role, text),
        Step::PutNone(role) => put_none(host, role),
        Step::Take(role, text) => take(host, role, text, 0),
        Step::End(role, text) => take(host, role, text, 1),
        Step::WriteAt(place, text) => write_at(host, place, text),
        Step::ReadAt(place, text) => read_at(host, place, text),
        Step::Fails(role) => Ok(fails(host, role)),
        Step::Faults(role, count) => Ok(host.fault_count(role) == count),
    }
}

// The first step of which something else came.
fn first_wrong<H: Host>(host: &mut H, steps: &[Step]) -> Result<Option<usize>, Failed> {
    for (i, step) in steps.iter().enumerate() {
        if !run(host, *step)? {
            return Ok(Some(i));
        }
    }
    Ok(None)
}

// What holds over files as over memory.
const STEPS: &[Step] = &[
    Step::Misses(Role::Image, "none"),
    Step::Faults(Role::Image, 1),
    Step::Attach(Role::Saved, "s"),
    Step::Put(Role::Saved, b"abc"),
    Step::Put(Role::Saved, b"def"),
    Step::PutNone(Role::Saved),
    Step::Attach(Role::Image, "s"),
    Step::Take(Role::Image, b"abcd"),
    Step::Misses(Role::Events, "none"),
    Step::Faults(Role::Events, 1),
    Step::End(Role::Image, b"ef"),
    Step::End(Role::Image, b""),
    Step::Attach(Role::Saved, "t"),
    Step::Put(Role::Saved, b"x"),
    Step::PutNone(Role::Saved),
    Step::Attach(Role::Saved, "u"),
    Step::Put(Role::Saved, b"never ended"),
    Step::Attach(Role::Display, "d"),
    Step::Put(Role::Display, b"picture"),
    Step::PutNone(Role::Display),
    Step::Attach(Role::Saved, "v"),
    Step::Put(Role::Saved, b"ended"),
    Step::PutNone(Role::Saved),
    Step::Misses(Role::Image, "u.part"),
    Step::Faults(Role::Image, 2),
    Step::Attach(Role::Saved, "u"),
    Step::Attach(Role::Events, "s"),
    Step::End(Role::Events, b"abcdef"),
    Step::Attach(Role::Events, "d"),
    Step::End(Role::Events, b"picture"),
    Step::Attach(Role::Work, "w"),
    Step::ReadAt(7, b"\0\0"),
    Step::WriteAt(4, b"xyz"),
    Step::ReadAt(0, b"\0\0\0\0xyz\0\0"),
    Step::WriteAt(0, b"q"),
    Step::WriteAt(3, b"abcd"),
    Step::ReadAt(0, b"q\0\0abcd\0\0"),
    Step::Put(Role::Transcript, b"said\n"),
    Step::Attach(Role::Work, "w"),
    Step::ReadAt(2, b"\0\0\0\0"),
    Step::Put(Role::Notes, b"noted\n"),
    Step::WriteAt(1, b"y"),
];

// Where nothing is attached yet.
const FIRST: &[Step] = &[Step::Fails(Role::Work), Step::Fails(Role::Saved)];

// Once a write of Notes is interrupted 1,000 times.
const LAST: &[Step] = &[
    Step::Faults(Role::Image, 2),
    Step::Faults(Role::Events, 1),
    Step::Faults(Role::Work, 1),
    Step::Faults(Role::Saved, 1),
    Step::Faults(Role::Notes, 0),
    Step::Fails(Role::Notes),
    Step::Faults(Role::Notes, 1),
];

/// A file, and what stands in it then.
struct Text {
    name: &'static str,
    text: &'static str,
}

const TEXTS: &[Text] = &[
    Text {
        name: "s",
        text: "abcdef",
    },
    Text {
        name: "t",
        text: "x",
    },
    Text {
        name: "u",
        text: LAID,
    },
    Text {
        name: "v",
        text: "ended",
    },
    Text {
        name: "d",
        text: "picture",
    },
    Text {
        name: "w",
        text: "\0y",
    },
    Text {
        name: "said",
        text: "said\n",
    },
];

// A writer that is interrupted so many times before it takes a piece, and 1,000 times before the next.
#[derive(Drop)]
struct Interrupted {
    times: u32,
}

impl Write for Interrupted {
    fn write(&mut self, buf: &[u8]) -> io::Result<usize> {
        if self.times > 0 {
            self.times -= 1;
            return Err(io::Error::from(ErrorKind::Interrupted));
        }
        self.times = 1_000;
        Ok(buf.len())
    }

    fn flush(&mut self) -> io::Result<()> {
        Ok(())
    }
}

// What stands in each file before, longer than what is put into it.
const LAID: &str = "longer than what is put into it";

fn lay(rt: &HostRuntime) -> io::Result<()> {
    for row in TEXTS {
        fs::write(rt, row.name, LAID)?;
    }
    Ok(())
}

// Whether the file holds its text. It is removed.
fn is_right(rt: &HostRuntime, row: &Text) -> io::Result<bool> {
    let text = fs::read_to_string(rt, row.name)?;
    fs::remove_file(rt, row.name)?;
    Ok(text.as_str() == row.text)
}

// The first file that holds another text.
fn first_other(rt: &HostRuntime) -> io::Result<Option<&'static str>> {
    for row in TEXTS {
        if !is_right(rt, row)? {
            return Ok(Some(row.name));
        }
    }
    Ok(None)
}

// The table's part, 0 to 2, and the step there of which something else came.
fn first_wrong_in_files<H: Host>(host: &mut H) -> Result<Option<(usize, usize)>, Failed> {
    for (part, steps) in [FIRST, STEPS, LAST].iter().enumerate() {
        if let Some(i) = first_wrong(host, steps)? {
            return Ok(Some((part, i)));
        }
    }
    Ok(None)
}

fn first_wrong_over_files(rt: &HostRuntime) -> Result<Option<(usize, usize)>, Fail> {
    let said = File::create(rt, "said")?;
    let mut host = RealHost::new(rt.clone()?, said, Interrupted { times: 999 });
    Ok(first_wrong_in_files(&mut host)?)
}

#[test]
fn files_and_streams(rt: HostRuntime) -> Result<(), Fail> {
    lay(&rt)?;
    let wrong = first_wrong_over_files(&rt)?;
    assert_eq!(rt; (wrong, first_other(&rt)?), (None, None));
    Ok(())
}

// How many bytes a host moves at once, and how much room it has for Work and Saved.
struct Sizes {
    chunk: usize,
    room: u64,
}

const SIZES: &[Sizes] = &[
    Sizes { chunk: 1, room: 0 },
    Sizes {
        chunk: 100,
        room: 0,
    },
    Sizes {
        chunk: 1,
        room: 65_536,
    },
    Sizes {
        chunk: 100,
        room: 65_536,
    },
];

fn in_memory(alloc: Global, sizes: &Sizes) -> Result<MemoryHost, AllocError> {
    let mut host = MemoryHost::new(alloc, sizes.chunk.max(1))?;
    host.reserve(Role::Work, sizes.room)?;
    host.reserve(Role::Saved, sizes.room)?;
    Ok(host)
}

fn is_file(host: &MemoryHost, name: &str, bytes: &[u8]) -> bool {
    host.file(name) == Some(bytes)
}

// After the steps.
fn is_whole(host: &MemoryHost) -> bool {
    host.transcript() == b"said\n".as_slice()
        && host.notes() == b"noted\n".as_slice()
        && is_file(host, "s", b"abcdef")
        && is_file(host, "t", b"x")
        && host.file("w").is_none()
        && host.work_writes() == (3, 3)
        && host.ended(Role::Display) == Some(7)
        && host.ended(Role::Saved).is_none()
}

// Another write to Transcript is told, a read moves a chunk, and there isn't room for everything.
fn goes_on(host: &mut MemoryHost, chunk: usize) -> Result<bool, Failed> {
    write_full(host, Role::Transcript, b"more")?;
    host.attach(Role::Image, "s")?;
    let n = host.read(Role::Image, &mut [0; 5])?;
    Ok(n == chunk.min(5) && host.work_writes() == (3, 4))
}

fn holds_all(alloc: Global, sizes: &Sizes) -> Result<bool, Fail> {
    let mut host = in_memory(alloc, sizes)?;
    let wrong = first_wrong(&mut host, STEPS)?;
    Ok(
        wrong.is_none()
            && is_whole(&host)
            && goes_on(&mut host, sizes.chunk)?
            && host.reserve(Role::Work, u64::MAX).is_err(),
    )
}

#[test]
fn memory(rt: HostRuntime) -> Result<(), Fail> {
    for sizes in SIZES {
        assert!(rt; holds_all(rt.alloc(), sizes)?);
    }
    Ok(())
}

/// A step, and what the file "s" shows then.
struct Shown {
    step: Step,
    file: &'static [u8],
}

// Who reads goes on with what was there at the attach.
const NEWER: &[Shown] = &[
    Shown {
        step: Step::Attach(Role::Saved, "s"),
        file: b"",
    },
    Shown {
        step: Step::Put(Role::Saved, b"abc"),
        file: b"abc",
    },
    Shown {
        step: Step::Attach(Role::Image, "s"),
        file: b"abc",
    },
    Shown {
        step: Step::Put(Role::Saved, b"def"),
        file: b"abcdef",
    },
    Shown {
        step: Step::End(Role::Image, b"abc"),
        file: b"abcdef",
    },
    Shown {
        step: Step::Attach(Role::Image, "s"),
        file: b"abcdef",
    },
    Shown {
        step: Step::Take(Role::Image, b"ab"),
        file: b"abcdef",
    },
    Shown {
        step: Step::Attach(Role::Display, "s"),
        file: b"",
    },
    Shown {
        step: Step::Put(Role::Display, b"new"),
        file: b"new",
    },
    Shown {
        step: Step::Put(Role::Saved, b"older"),
        file: b"new",
    },
    Shown {
        step: Step::End(Role::Image, b"cdef"),
        file: b"new",
    },
    Shown {
        step: Step::Attach(Role::Events, "s"),
        file: b"new",
    },
    Shown {
        step: Step::End(Role::Events, b"new"),
        file: b"new",
    },
];

// The writer of the older file writes on in it.
const ADDED: [Shown; 1] = [Shown {
    step: Step::Put(Role::Display, b"er"),
    file: b"added",
}];

// The first step after which something else came, or the file shows something else.
fn first_not_shown(host: &mut MemoryHost, rows: &[Shown]) -> Result<Option<usize>, Failed> {
    for (i, row) in rows.iter().enumerate() {
        if !run(host, row.step)? || !is_file(host, "s", row.file) {
            return Ok(Some(i));
        }
    }
    Ok(None)
}

// In the first rows, and in those behind a file that is added.
fn first_wrong_in_newer(host: &mut MemoryHost) -> Result<(Option<usize>, Option<usize>), Fail> {
    let newer = first_not_shown(host, NEWER)?;
    host.add_file("s", b"added")?;
    Ok((newer, first_not_shown(host, &ADDED)?))
}

#[test]
fn a_newer_file(rt: HostRuntime) -> Result<(), Fail> {
    let mut host = MemoryHost::new(rt.alloc(), 4)?;
    assert_eq!(rt; first_wrong_in_newer(&mut host)?, (None, None));
    Ok(())
}

const LIES: &[Step] = &[
    Step::Attach(Role::Work, "w"),
    Step::WriteAt(0, b"ab"),
    Step::ReadAt(0, b"ab"),
    Step::ReadAt(0, b"nm"),
    Step::ReadAt(0, b"ab"),
];

// The second read gives each byte with the lowest bits turned.
#[test]
fn one_read_lies(rt: HostRuntime) -> Result<(), Fail> {
    let mut host = LyingHost::new(MemoryHost::new(rt.alloc(), 100)?, 2, 0x0f);
    assert_eq!(rt; first_wrong(&mut host, LIES)?, None);
    assert_eq!(rt; host.inner().work_writes(), (0, 0));
    Ok(())
}
