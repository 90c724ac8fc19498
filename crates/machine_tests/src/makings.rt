// Images that are made: the command, hosts that fail at each of its calls, and runs on a large one in a small core and in a large one, one of
// them of a million bytecodes.
use crate::words::ask;
use loom_gen::make;
use loom_outside::MemoryHost;
use loom_outside::Role::{self, Notes, Saved};
use loom_run::Status;
use md5::{Digest, Md5};
use std::alloc::Global;
use std::test::Fail;

/// How many bytes the image of 0 has.
const LENGTH: usize = 77_460;

/// How many of them a call moves at most: the image goes by two calls, behind the attach and before the one that ends it.
const CHUNK: usize = 40_000;

/// The role of which the nth call fails, counted from 1 and 0 for none, the answer, its line, and how many bytes the file has then; none where
/// there is no file.
struct Making {
    role: Role,
    nth: u64,
    status: Status,
    notes: &'static str,
    saved: Option<usize>,
}

const UNSAVED: Status = Status::WriteFault {
    role: Saved,
    count: 1,
};

const MAKINGS: &[Making] = &[
    Making {
        role: Saved,
        nth: 0,
        status: Status::Made { objects: 1_327 },
        notes: "made 1327 objects\n",
        saved: Some(LENGTH),
    },
    Making {
        role: Saved,
        nth: 1,
        status: UNSAVED,
        notes: "write fault: Saved\n",
        saved: None,
    },
    Making {
        role: Saved,
        nth: 2,
        status: UNSAVED,
        notes: "write fault: Saved\n",
        saved: Some(0),
    },
    Making {
        role: Saved,
        nth: 3,
        status: UNSAVED,
        notes: "write fault: Saved\n",
        saved: Some(CHUNK),
    },
    Making {
        role: Saved,
        nth: 4,
        status: UNSAVED,
        notes: "write fault: Saved\n",
        saved: Some(LENGTH),
    },
    Making {
        role: Notes,
        nth: 1,
        status: Status::WriteFault {
            role: Notes,
            count: 1,
        },
        notes: "",
        saved: Some(LENGTH),
    },
];

// Whether a file is so many bytes from the beginning of an image, or isn't there.
fn is_begun(file: Option<&[u8]>, image: &[u8], length: Option<usize>) -> bool {
    match (file, length) {
        (Some(file), Some(length)) => file.len() == length && image.starts_with(file),
        (None, None) => true,
        _ => false,
    }
}

// Whether the image of 0 is made as a row says. What stands in the file is a beginning of the image.
fn is_made(alloc: Global, row: &Making) -> Result<bool, Fail> {
    let image = make(alloc, 0)?;
    let mut host = MemoryHost::new(alloc, CHUNK)?;
    host.fail(row.role, row.nth)?;
    let status = ask(alloc, &mut host, "make 0 g.loom")?;
    Ok(
        status == row.status
            && host.notes() == row.notes.as_bytes()
            && is_begun(host.file("g.loom"), image.bytes(), row.saved),
    )
}

#[test]
fn images_are_made(rt: HostRuntime) -> Result<(), Fail> {
    for (i, row) in MAKINGS.iter().enumerate() {
        assert_eq!(rt; (i, is_made(rt.alloc(), row)?), (i, true));
    }
    Ok(())
}

/// A command on the image of 19, and whether Work is written between the first and the last that is said.
struct Paging {
    words: &'static str,
    writes: bool,
}

// In each of 5,000 rounds a node is changed and an object made, and a bitmap of 19,200 words is drawn into. In the smaller core these haven't
// room together, and in the larger one nothing has to leave.
const PAGINGS: [Paging; 2] = [
    Paging {
        words: "run g.loom none work saved display 65536 32767 65536 189003",
        writes: true,
    },
    Paging {
        words: "run g.loom none work saved display 16777216 32767 65536 189003",
        writes: false,
    },
];

/// How many bytes the image is saved as, and how many are said, five in each round.
const SAVED: usize = 749_480;

const SAID: usize = 25_000;

// Whether a run on this image goes through, and writes Work as a row says.
fn pages(alloc: Global, image: &[u8], row: &Paging) -> Result<bool, Fail> {
    let mut host = MemoryHost::new(alloc, CHUNK)?;
    host.add_file("g.loom", image)?;
    host.add_file("none", b"")?;
    let status = ask(alloc, &mut host, row.words)?;
    let (first, last) = host.work_writes();
    let saved = host.file("saved").map(|saved| saved.len());
    Ok(
        status == Status::Done { ran: 189_003 }
            && host.transcript().len() == SAID
            && saved == Some(SAVED)
            && (first < last) == row.writes,
    )
}

#[test]
fn evicts(rt: HostRuntime) -> Result<(), Fail> {
    let image = make(rt.alloc(), 19)?;
    for (i, row) in PAGINGS.iter().enumerate() {
        assert_eq!(rt; (i, pages(rt.alloc(), image.bytes(), row)?), (i, true));
    }
    Ok(())
}

// The image of 19 as long as 26,341 rounds take, in a small core and in a large one.
const LONG: [&str; 2] = [
    "run g.loom none work saved display 65536 4096 65536 999961",
    "run g.loom none work saved display 16777216 4096 65536 999961",
];

/// The MD5 of what is said, of the saved image and of the picture, by the reference machine.
const DIGESTS: [u128; 3] = [
    0xab49_d037_c0de_82f5_557c_005f_d73d_503d,
    0x6e4f_a1e4_549c_0741_a185_d059_54d8_5da2,
    0x772d_da46_2887_1465_0c2f_300d_6fdf_ab2f,
];

fn digest_of(bytes: &[u8]) -> u128 {
    u128::from_be_bytes(Md5::digest(bytes))
}

fn digests_of(host: &MemoryHost) -> Result<[u128; 3], Fail> {
    let saved = host.file("saved").ok_or("the image is saved")?;
    let display = host.file("display").ok_or("the picture is drawn")?;
    Ok([
        digest_of(host.transcript()),
        digest_of(saved),
        digest_of(display),
    ])
}

// Whether the long run leaves what the reference machine does.
fn ends_as_known(alloc: Global, image: &[u8], words: &str) -> Result<bool, Fail> {
    let mut host = MemoryHost::new(alloc, CHUNK)?;
    host.add_file("g.loom", image)?;
    host.add_file("none", b"")?;
    let status = ask(alloc, &mut host, words)?;
    Ok(status == Status::Done { ran: 999_961 } && digests_of(&host)? == DIGESTS)
}

#[test]
fn a_million_bytecodes_end_as_known(rt: HostRuntime) -> Result<(), Fail> {
    let image = make(rt.alloc(), 19)?;
    for words in &LONG {
        let is_known = ends_as_known(rt.alloc(), image.bytes(), *words)?;
        assert_eq!(rt; (*words, is_known), (*words, true));
    }
    Ok(())
}
